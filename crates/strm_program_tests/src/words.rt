//! The words of a program's command line, and long inputs.

use std::alloc::{AllocError, Global};

/// These words, as a program has them.
pub(crate) fn words_of(alloc: Global, words: &[&str]) -> Result<Vec<String>, AllocError> {
    let mut list = Vec::new(alloc);
    for word in words {
        list.push(String::from_str(alloc, word)?)?;
    }
    Ok(list)
}

/// So many bytes, from 0 to 250 over and over.
pub(crate) fn bytes_again(alloc: Global, count: usize) -> Result<Vec<u8>, AllocError> {
    (0..count).map(|k| (k % 251) as u8).collect(alloc)
}

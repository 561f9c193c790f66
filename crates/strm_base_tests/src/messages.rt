//! Which bytes are a message, by example: what the Unicode standard says of UTF-8, at its edges.

use crate::answers::is;
use std::alloc::Global;
use std::process::Abort;
use strm_error_contexts::messages::message_of;

// Each is a message, or none is.
fn are_messages(rt: &impl Abort, texts: &[&[u8]], wanted: bool) {
    for (at, bytes) in texts.iter().enumerate() {
        assert!(rt; is_message(bytes) == wanted, "text {at}");
    }
}

const CHARACTERS: [&[u8]; 11] = [
    b"",
    b"\x00",
    b"\x7f",
    b"\xc2\x80",
    b"\xdf\xbf",
    b"\xe0\xa0\x80",
    b"\xed\x9f\xbf",
    b"\xee\x80\x80",
    b"\xef\xbf\xbf",
    b"\xf0\x90\x80\x80",
    b"\xf4\x8f\xbf\xbf",
];

/// The first and the last character of each length, and beside the surrogates.
#[test]
fn characters(rt: HostRuntime) {
    are_messages(&rt, &CHARACTERS, true);
}

const NO_CHARACTERS: [&[u8]; 12] = [
    b"\xc0\x80",
    b"\xc1\xbf",
    b"\xe0\x80\x80",
    b"\xe0\x9f\xbf",
    b"\xf0\x80\x80\x80",
    b"\xf0\x8f\xbf\xbf",
    b"\xed\xa0\x80",
    b"\xed\xbf\xbf",
    b"\xf4\x90\x80\x80",
    b"\xf5\x80\x80\x80",
    b"\xfe",
    b"\xff",
];

/// Overlong forms, surrogates, and what is past the last character.
#[test]
fn no_characters(rt: HostRuntime) {
    are_messages(&rt, &NO_CHARACTERS, false);
}

const PARTS: [&[u8]; 10] = [
    b"\x80",
    b"\xbf",
    b"a\x80",
    b"\xc2",
    b"\xc2a",
    b"\xc2\x80\x80",
    b"\xe1\x80",
    b"\xe1\x80a",
    b"\xf1\x80\x80",
    b"\xf1\x80\x80a",
];

/// A character that is cut, at the end or before another, and bytes that continue none.
#[test]
fn parts_of_characters(rt: HostRuntime) {
    are_messages(&rt, &PARTS, false);
}

/// The longest message, and one that is cut in its last character.
#[test]
fn longest(rt: HostRuntime) {
    let mut bytes = letters(rt.alloc(), 4_094);
    bytes.push(0xc2).expect(&rt, "memory");
    is(&rt, is_message(bytes.as_slice()), false);
    bytes.push(0x80).expect(&rt, "memory");
    is(&rt, bytes.len(), 4_096);
    is(&rt, is_message(bytes.as_slice()), true);
}

fn is_message(bytes: &[u8]) -> bool {
    message_of(bytes).is_ok()
}

// None where no memory is left.
fn letters(alloc: Global, len: usize) -> Vec<u8> {
    match vec![in alloc; b'a'; len] {
        Ok(letters) => letters,
        Err(_) => Vec::new(alloc),
    }
}

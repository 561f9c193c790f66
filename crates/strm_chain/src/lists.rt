//! A list of bytes.
//!
//! Ours.

ghost use Rattle.std.specs.Prelude.{◌≡◌, ◌≤◌, ◌++◌, ◌∷◌, [], length, OnOk, OnErr};

use std::alloc::Global;
use std::marker::Model;
use strm_codes::counts::OutOfMemory;

/// A list of bytes.
#[derive(Drop)]
pub struct Bytes8 {
    items: Vec<u8>,
}

impl Model for Bytes8 {
    ghost use Rattle.std.specs.Prelude.{ℕ, List};

    ghost Value = { List ℕ };

    ghost view = { λ s. s.items.items };
}

impl Bytes8 {
    /// An empty list, which takes no memory.
    pub fn new(alloc: Global) -> Bytes8
        ensures { result ≡ [] }
    {
        Bytes8 {
            items: Vec::new(alloc),
        }
    }

    /// These bytes.
    pub(crate) fn from_vec(items: Vec<u8>) -> Bytes8
        ensures { result ≡ items.items }
    {
        Bytes8 { items }
    }

    /// The bytes, lent.
    pub fn as_slice(&self) -> &[u8]
        ensures { result.now ≡ self.now }
    {
        &self.items
    }

    /// Adds a byte at the end.
    pub fn push(&mut self, item: u8) -> Result<(), OutOfMemory>
        ensures ok { OnOk result (self.new ≡ self.old ++ item ∷ []) }
        ensures err { OnErr result (self.new ≡ self.old) }
    {
        self.items.push(item)?;
        Ok(())
    }

    /// Adds these bytes at the end.
    pub fn extend(&mut self, bytes: &[u8]) -> Result<(), OutOfMemory>
        ensures { OnOk result (self.new ≡ self.old ++ bytes.now) }
    {
        self.items.extend_from_slice(bytes)?;
        Ok(())
    }
}

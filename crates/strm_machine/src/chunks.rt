//! Short lists of bytes.
//!
//! Ours: what one line pokes or dumps.

ghost use Rattle.std.specs.Prelude.{◌≡◌, ◌≤◌, ◌↔◌, length, IsSome, IfSome};
ghost use Rattle.strm_memory.specs.Bytes.{IsBytes};

use std::marker::Model;

// What lies behind a slice of bytes is bytes.
fn hold_bytes(bytes: &[u8])
    ensures { IsBytes bytes.now }
{}

/// At most 64 bytes.
#[derive(Clone, Copy, Debug, PartialEq, Eq)]
pub struct Chunk {
    bytes: [u8; 64],
    len: u8,
}

impl Model for Chunk {
    ghost use Rattle.std.specs.Prelude.{ℕ, List, take, length};
    ghost use Rattle.std.proofs.Common.{arith, length-take-le, sym};
    ghost use Rattle.strm_codes.specs.Padded.{padded, IsPadded};

    ghost Value = { List ℕ };

    ghost view = { λ c. take c.len c.bytes };

    ghost invariant = { λ c. IsPadded 64 0 c.bytes c.len };

    ghost inverse = { λ xs. record { bytes = padded 64 0 xs; len = length xs } };

    ghost inverse_ok = { λ c h i. record {
      bytes = sym h.behind i;
      len = length-take-le c.len c.bytes (omega (arith, h.most, h.whole)) i;
    } };
}

impl Chunk {
    /// These bytes; none for more than 64.
    pub fn new(bytes: &[u8]) -> Option<Chunk>
        ensures some { IsSome result ↔ (length bytes.now ≤ 64) }
        ensures value { IfSome result (λ chunk. chunk ≡ bytes.now) }
    {
        let len = bytes.len();
        if len > 64 {
            return None;
        }
        let mut array = [0; 64];
        array[..len].copy_from_slice(bytes);
        Some(Chunk {
            bytes: array,
            len: len as u8,
        })
    }

    /// Each is a byte: what a caller may have to know of it. It does nothing.
    pub fn sound(&self)
        ensures { IsBytes self.now }
    {
        hold_bytes(self.as_slice());
    }

    /// The bytes, lent.
    pub fn as_slice(&self) -> &[u8]
        ensures exact { result.now ≡ self.now }
        ensures most { length result.now ≤ 64 }
    {
        &self.bytes[..self.len as usize]
    }
}

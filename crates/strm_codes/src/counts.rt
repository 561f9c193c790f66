//! Counts of items.
//!
//! Source: wasmtime, `futures_and_streams.rs`, `ItemCount`; Canonical ABI, `Buffer.MAX_LENGTH`.

ghost use Rattle.std.specs.Prelude.{◌≡◌, ◌+◌, ◌/◌, ◌<◌, ◌≤◌, ◌↔◌, IsTrue, IsErr, IfOk, OnOk, OnErr};
ghost use Rattle.std.specs.Ordering.{nat_cmp};
ghost use Rattle.std.specs.Prelude.{Some, decimal};

use std::alloc::{AllocError, AllocFailed};
use std::cmp::Ordering;
use std::fmt;
use std::marker::Model;
use thiserror::Error;

/// A count reached 2^28, which the packed result of a read or write cannot say.
#[derive(Clone, Copy, Debug, PartialEq, Eq, Error)]
#[error("the count is 2^28 or more")]
pub struct StreamOpTooBig;

/// An allocation was refused.
#[derive(Clone, Copy, Debug, PartialEq, Eq, Error)]
#[error("out of memory")]
pub struct OutOfMemory;

impl From<AllocError> for OutOfMemory {
    fn from(_error: AllocError) -> OutOfMemory {
        OutOfMemory
    }
}

impl<T: Drop> From<AllocFailed<T>> for OutOfMemory {
    fn from(_error: AllocFailed<T>) -> OutOfMemory {
        OutOfMemory
    }
}

/// A number of items, below [`ItemCount::MAX`].
#[derive(Clone, Copy, PartialEq, Eq, PartialOrd, Ord)]
pub struct ItemCount {
    raw: u32,
}

impl Model for ItemCount {
    ghost use Rattle.std.specs.Prelude.{ℕ, ◌<◌};
    ghost use Rattle.strm_codes.specs.Counts.{count_limit};

    ghost Value = { ℕ };

    ghost view = { λ c. c.raw };

    ghost invariant = { λ c. c.raw < count_limit };

    ghost inverse = { λ n. record { raw = n } };
}

impl ItemCount {
    /// 2^28: the first number that is no count.
    pub const MAX: u32 = 268_435_456;

    /// No items.
    pub const ZERO: ItemCount = ItemCount { raw: 0 };

    /// A count of so many items.
    pub fn new(count: u32) -> Result<ItemCount, StreamOpTooBig>
        ensures ok { IfOk result (λ c. c ≡ count) }
        ensures too_big { IsErr result ↔ (Self.MAX ≤ count) }
    {
        if count >= Self::MAX {
            return Err(StreamOpTooBig);
        }
        Ok(ItemCount { raw: count })
    }

    /// A count of so many items.
    pub fn new_usize(count: usize) -> Result<ItemCount, StreamOpTooBig>
        ensures ok { IfOk result (λ c. c ≡ count) }
        ensures too_big { IsErr result ↔ (Self.MAX ≤ count) }
    {
        if count >= Self::MAX as usize {
            return Err(StreamOpTooBig);
        }
        Ok(ItemCount { raw: count as u32 })
    }

    pub fn as_u32(&self) -> u32
        ensures exact { result ≡ self.now }
        ensures small { result < Self.MAX }
    {
        self.raw
    }

    pub fn as_usize(&self) -> usize
        ensures exact { result ≡ self.now }
        ensures small { result < Self.MAX }
    {
        self.raw as usize
    }

    // The count of a return code's word.
    pub(crate) fn from_word(word: u32) -> ItemCount
        ensures { result ≡ word / 16 }
    {
        ItemCount { raw: word / 16 }
    }

    /// Adds `amt` items.
    pub fn inc(&mut self, amt: usize) -> Result<(), StreamOpTooBig>
        ensures ok { OnOk result (self.new ≡ self.old + amt) }
        ensures too_big { IsErr result ↔ (Self.MAX ≤ self.old + amt) }
        ensures err { OnErr result (self.new ≡ self.old) }
    {
        let raw = self.raw;
        if amt >= (Self::MAX - raw) as usize {
            return Err(StreamOpTooBig);
        }
        self.raw = raw + amt as u32;
        Ok(())
    }

    /// The sum of two counts.
    pub fn add(&self, other: ItemCount) -> ItemCount
        requires { self.now + other < Self.MAX }
        ensures { result ≡ self.now + other }
    {
        ItemCount {
            raw: self.raw + other.raw,
        }
    }

    /// What is left of this count without the other.
    pub fn sub(&self, other: ItemCount) -> ItemCount
        requires { other ≤ self.now }
        ensures { result + other ≡ self.now }
    {
        ItemCount {
            raw: self.raw - other.raw,
        }
    }

    /// Stands for `PartialEq<u32>` of the source.
    pub fn equals_u32(&self, other: u32) -> bool
        ensures { IsTrue result ↔ (self.now ≡ other) }
    {
        self.raw == other
    }

    /// Stands for `PartialOrd<u32>` of the source.
    pub fn compare_u32(&self, other: u32) -> Ordering
        ensures { result ≡ nat_cmp self.now other }
    {
        self.raw.cmp(&other)
    }
}

impl fmt::Display for ItemCount {
    ghost output = { λ count. Some (decimal count) };

    fn fmt<W: fmt::Write>(&self, f: &mut fmt::Formatter<W>) -> fmt::Result {
        let raw = self.raw;
        write!(f, "{raw}")
    }
}

impl fmt::Debug for ItemCount {
    ghost debug_output = { λ count. Some (decimal count) };

    fn fmt<W: fmt::Write>(&self, f: &mut fmt::Formatter<W>) -> fmt::Result {
        fmt::Display::fmt(self, f)
    }
}

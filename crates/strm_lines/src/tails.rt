//! A line that is made from its end to its front, so that each number is written where it is to
//! lie.
//!
//! Source: ours.

ghost use Rattle.std.specs.Prelude.{◌≡◌, ◌+◌, ◌≤◌, ◌∷◌, ◌++◌, [], length, decimal};

use itoa::write_digits;
use std::marker::Model;

// The most bytes of a line that is made so.
const MOST: usize = 96;

/// The end of a line.
#[derive(Drop)]
pub(crate) struct Tail {
    bytes: [u8; MOST],
    // Where the end begins.
    start: usize,
}

impl Model for Tail {
    ghost use Rattle.std.specs.Prelude.{ℕ, List, ◌≡◌, ◌≤◌, length, drop};

    ghost Value = { List ℕ };

    ghost view = { λ t. drop t.start t.bytes };

    ghost invariant = { λ t. t.start ≤ length t.bytes };
}

impl Tail {
    /// The end of every line: its line feed.
    #[inline(always)]
    pub(crate) fn new() -> Tail
        ensures { result ≡ 10 ∷ [] }
    {
        Tail {
            bytes: [b'\n'; MOST],
            start: MOST - 1,
        }
    }

    /// Puts a word in front.
    #[inline(always)]
    pub(crate) fn put<const N: usize>(&mut self, word: &[u8; N])
        requires { N + length self.old ≤ 96 }
        ensures { self.new ≡ word.now ++ self.old }
    {
        let start = self.start - N;
        self.bytes[start..self.start].copy_from_slice(word);
        self.start = start;
    }

    /// Puts a number in front, in decimal.
    #[inline(always)]
    pub(crate) fn put_number(&mut self, number: u64)
        requires { 20 + length self.old ≤ 96 }
        ensures text { self.new ≡ decimal number ++ self.old }
        ensures short { length self.new ≤ 20 + length self.old }
    {
        // Most have one digit.
        if number < 10 {
            self.put(&[b'0' + number as u8]);
            return;
        }
        self.start = write_digits(number, &mut self.bytes, self.start);
    }

    /// Its bytes, lent.
    #[inline(always)]
    pub(crate) fn as_slice(&self) -> &[u8]
        ensures { result.now ≡ self.now }
    {
        &self.bytes[self.start..]
    }
}

//! Where bytes come from and go to, each with a count of its faults.
//!
//! Source: ours.

ghost use Rattle.std.specs.Prelude.{◌≡◌, ℕ, List, [], ◌<◌, ◌≤◌, ◌↔◌, length, Option, IfSome, IfOk, OnErr};
ghost use Rattle.std.specs.Io.{ReadsAtMost, WritesAtMost};
ghost use Rattle.std.specs.Io.KnownBytes.{ReadConsumes, WriteAppends};
ghost use Rattle.strm_codes.specs.Counters.{Rose};

use thiserror::Error;

/// A read or a write failed: what is left, or what was taken, is as it was.
#[derive(Clone, Copy, Debug, PartialEq, Eq, Error)]
#[error("a read or a write failed")]
pub struct Failed;

/// Where bytes come from.
pub trait Source {
    // The bytes that reads will give from here on, where they are told.
    ghost left: { Self → Option (List ℕ) };

    // How many faults there were; it stands still at 2^64 - 1.
    ghost faults: { Self → ℕ };

    /// Puts the next bytes at the front of `out`, and answers how many. 0 is the end.
    fn read(&mut self, out: &mut [u8]) -> Result<usize, Failed>
        requires { 0 < length out.old }
        ensures most { ReadsAtMost result out.new }
        ensures bytes { ReadConsumes (left self.old) (left self.new) result out.new }
        ensures end { IfOk result (λ n. IfSome (left self.old) (λ bytes. (n ≡ 0) ↔ (bytes ≡ []))) }
        ensures later { faults self.old ≤ faults self.new }
        ensures failed { OnErr result (Rose (faults self.old) (faults self.new)) };
}

/// Where bytes go to.
pub trait Sink {
    // The bytes that writes took so far, where they are told.
    ghost taken: { Self → Option (List ℕ) };

    // How many faults there were; it stands still at 2^64 - 1.
    ghost faults: { Self → ℕ };

    /// Takes bytes from the front of `bytes`, and answers how many. 0 of some is a fault.
    fn write(&mut self, bytes: &[u8]) -> Result<usize, Failed>
        ensures most { WritesAtMost result bytes.now }
        ensures bytes { WriteAppends (taken self.old) (taken self.new) result bytes.now }
        ensures later { faults self.old ≤ faults self.new }
        ensures failed { OnErr result (Rose (faults self.old) (faults self.new)) }
        ensures stuck { 0 < length bytes.now →
            IfOk result (λ n. n ≡ 0 → Rose (faults self.old) (faults self.new)) };
}

//! A source and a sink in memory, whose failures are listed by the numbers of their calls.
//!
//! Source: ours.

ghost use Rattle.std.specs.Prelude.{◌≡◌, ◌++◌, ◌+◌, ◌<◌, ◌≤◌, ◌↔◌, [], length, take, min, IsTrue, IsErr, IfOk, OnErr, Contains, Err, vec_len};
ghost use Rattle.std.specs.Io.{ReadsAtMost, WritesAtMost};
ghost use Rattle.std.specs.Io.KnownBytes.{ReadConsumes, WriteAppends};
ghost use Rattle.strm_codes.specs.Counters.{Rose, one_more};

use crate::ports::{Failed, Sink, Source};
use std::alloc::Global;
use std::marker::Model;

// Whether the call of this number is to fail.
fn is_listed(failing: &[u32], call: u64) -> bool
    ensures { IsTrue result ↔ Contains failing.now call }
{
    failing.iter().any(|number| u64::from(*number) == call)
}

/// Bytes in memory as a source.
#[derive(Drop)]
pub struct BytesSource {
    bytes: Vec<u8>,
    at: usize,
    piece: u32,
    failing: Vec<u32>,
    calls: u64,
    faults: u64,
}

impl Model for BytesSource {
    ghost use Rattle.std.specs.Prelude.{◌<◌, ◌≤◌, drop, vec_len};
    ghost use Rattle.strm_input_output.specs.InMemory.{SourceState};

    ghost Value = { SourceState };

    ghost view = { λ s. record {
      left = drop s.at s.bytes.items;
      piece = s.piece;
      failing = s.failing.items;
      calls = s.calls;
      faults = s.faults;
    } };

    ghost invariant = { λ s. (s.at ≤ vec_len s.bytes) × (0 < s.piece) };
}

impl BytesSource {
    /// A source of these bytes. A call gives at most `piece` bytes, and the calls whose numbers are
    /// listed fail; the first call is number 1.
    pub fn new(bytes: Vec<u8>, piece: u32, failing: Vec<u32>) -> BytesSource
        requires { 0 < piece }
        ensures { result ≡ record {
          left = bytes.items;
          piece = piece;
          failing = failing.items;
          calls = 0;
          faults = 0;
        } }
    {
        BytesSource {
            bytes,
            at: 0,
            piece,
            failing,
            calls: 0,
            faults: 0,
        }
    }
}

impl Source for BytesSource {
    ghost use Rattle.std.specs.Prelude.{Some};
    ghost use Rattle.strm_input_output.specs.InMemory.{ReadsListed};

    ghost left = { λ s. Some s.left };

    ghost faults = { λ s. s.faults };

    fn read(&mut self, out: &mut [u8]) -> Result<usize, Failed>
        requires { 0 < length out.old }
        ensures most { ReadsAtMost result out.new }
        ensures bytes { ReadConsumes (Some self.old.left) (Some self.new.left) result out.new }
        ensures end { IfOk result (λ n. (n ≡ 0) ↔ (self.old.left ≡ [])) }
        ensures later { self.old.faults ≤ self.new.faults }
        ensures failed { OnErr result (Rose self.old.faults self.new.faults) }

        // All that it does.
        ensures listed { ReadsListed self.old self.new out.old out.new result }
    {
        self.calls = self.calls.saturating_add(1);
        if is_listed(&self.failing, self.calls) {
            self.faults = self.faults.saturating_add(1);
            return Err(Failed);
        }
        let left = self.bytes.len() - self.at;
        let count = out.len().min(self.piece as usize).min(left);
        out[..count].copy_from_slice(&self.bytes[self.at..self.at + count]);
        self.at += count;
        Ok(count)
    }
}

/// A vector in memory as a sink.
#[derive(Drop)]
pub struct BytesSink {
    taken: Vec<u8>,
    piece: u32,
    failing: Vec<u32>,
    calls: u64,
    faults: u64,
    starved: u64,
}

impl Model for BytesSink {
    ghost use Rattle.std.specs.Prelude.{◌<◌, ◌≤◌};
    ghost use Rattle.strm_input_output.specs.InMemory.{SinkState};

    ghost Value = { SinkState };

    ghost view = { λ s. record {
      taken = s.taken.items;
      piece = s.piece;
      failing = s.failing.items;
      calls = s.calls;
      faults = s.faults;
      starved = s.starved;
    } };

    ghost invariant = { λ s. (0 < s.piece) × (s.starved ≤ s.faults) };
}

impl BytesSink {
    /// A sink that took nothing yet. A call takes at most `piece` bytes, and the calls whose
    /// numbers are listed fail; the first call is number 1.
    pub fn new(alloc: Global, piece: u32, failing: Vec<u32>) -> BytesSink
        requires { 0 < piece }
        ensures { result ≡ record {
          taken = [];
          piece = piece;
          failing = failing.items;
          calls = 0;
          faults = 0;
          starved = 0;
        } }
    {
        BytesSink {
            taken: Vec::new(alloc),
            piece,
            failing,
            calls: 0,
            faults: 0,
            starved: 0,
        }
    }

    /// The bytes that the sink took.
    pub fn taken(&self) -> &[u8]
        ensures { result.now ≡ self.now.taken }
    {
        &self.taken
    }

    /// How many of the faults were by running out of memory. It stands still at its end.
    pub fn starved(&self) -> u64
        ensures exact { result ≡ self.now.starved }
        ensures part { result ≤ self.now.faults }
    {
        self.starved
    }
}

impl Sink for BytesSink {
    ghost use Rattle.std.specs.Prelude.{Some};
    ghost use Rattle.strm_input_output.specs.InMemory.{sink_given, sink_failed, sink_starved};

    ghost taken = { λ s. Some s.taken };

    ghost faults = { λ s. s.faults };

    fn write(&mut self, bytes: &[u8]) -> Result<usize, Failed>
        ensures most { WritesAtMost result bytes.now }
        ensures bytes { WriteAppends (Some self.old.taken) (Some self.new.taken) result bytes.now }
        ensures later { self.old.faults ≤ self.new.faults }
        ensures failed { OnErr result (Rose self.old.faults self.new.faults) }
        ensures stuck { 0 < length bytes.now →
            IfOk result (λ n. n ≡ 0 → Rose self.old.faults self.new.faults) }

        ensures listed { Contains self.old.failing (one_more self.old.calls) →
            IsErr result × (self.new ≡ sink_failed self.old) }
        ensures starved { ¬ Contains self.old.failing (one_more self.old.calls) →
            OnErr result (self.new ≡ sink_starved self.old) }
        ensures count { IfOk result (λ n. n ≡ min self.old.piece (length bytes.now)) }
        ensures ok { IfOk result (λ n. self.new ≡ sink_given self.old (take n bytes.now)) }
    {
        self.calls = self.calls.saturating_add(1);
        if is_listed(&self.failing, self.calls) {
            self.faults = self.faults.saturating_add(1);
            return Err(Failed);
        }
        let count = bytes.len().min(self.piece as usize);
        match self.taken.extend_from_slice(&bytes[..count]) {
            Ok(()) => Ok(count),
            Err(_) => {
                self.starved = self.starved.saturating_add(1);
                self.faults = self.faults.saturating_add(1);
                Err(Failed)
            }
        }
    }
}

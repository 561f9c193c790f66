//! Standard input and output as a source and a sink. They tell no content: the trusted edge.
//!
//! Source: ours, over std's `Read` and `Write`.

ghost use Rattle.std.specs.Prelude.{◌≡◌, ◌<◌, ◌≤◌, ◌↔◌, [], length, IfOk, IfSome, IsErr, Ok, OnOk, OnErr};
ghost use Rattle.std.specs.Io.{ReadsAtMost, WritesAtMost};
ghost use Rattle.std.specs.Io.KnownBytes.{ReadConsumes, WriteAppends};
ghost use Rattle.strm_codes.specs.Counters.{Rose, one_more};

use crate::ports::{Failed, Sink, Source};
use std::io::{self, Read, Stdin, Stdout, Write};

// What a read or a write answered; a failure of it is counted, and nothing else is one.
fn counted(given: io::Result<usize>, faults: &mut u64) -> Result<usize, Failed>
    ensures given { IfOk result (λ n. given ≡ Ok n) }
    ensures failed { IsErr result ↔ IsErr given }
    ensures later { faults.old ≤ faults.new }
    ensures stays { OnOk result (faults.new ≡ faults.old) }
    ensures rises { OnErr result (faults.new ≡ one_more faults.old) }
{
    match given {
        Ok(count) => Ok(count),
        Err(_) => {
            *faults = faults.saturating_add(1);
            Err(Failed)
        }
    }
}

/// A reader as a source. Each error is a fault.
#[derive(Drop)]
pub struct StdinSource<R = Stdin> {
    inner: R,
    faults: u64,
}

impl<R: Read> StdinSource<R> {
    /// A source over a reader, with no fault so far.
    pub fn new(inner: R) -> StdinSource<R>
        ensures left { ⟦<StdinSource<R> as Source>⟧.left result ≡ R.remaining inner }
        ensures faults { ⟦<StdinSource<R> as Source>⟧.faults result ≡ 0 }
    {
        StdinSource { inner, faults: 0 }
    }
}

impl<R: Read> Source for StdinSource<R> {
    ghost left = { λ s. R.remaining s.inner };

    ghost faults = { λ s. s.faults };

    fn read(&mut self, out: &mut [u8]) -> Result<usize, Failed>
        requires { 0 < length out.old }
        ensures most { ReadsAtMost result out.new }
        ensures bytes { ReadConsumes (⟦<StdinSource<R> as Source>⟧.left self.old)
            (⟦<StdinSource<R> as Source>⟧.left self.new) result out.new }
        ensures end { IfOk result (λ n. IfSome (⟦<StdinSource<R> as Source>⟧.left self.old)
            (λ bytes. (n ≡ 0) ↔ (bytes ≡ []))) }
        ensures later { ⟦<StdinSource<R> as Source>⟧.faults self.old
            ≤ ⟦<StdinSource<R> as Source>⟧.faults self.new }
        ensures failed { OnErr result (Rose (⟦<StdinSource<R> as Source>⟧.faults self.old)
            (⟦<StdinSource<R> as Source>⟧.faults self.new)) }

        // No other call raises the count, and each failed one by one.
        ensures stays { IfOk result (λ n. ⟦<StdinSource<R> as Source>⟧.faults self.new
            ≡ ⟦<StdinSource<R> as Source>⟧.faults self.old) }
        ensures rises { OnErr result (⟦<StdinSource<R> as Source>⟧.faults self.new
            ≡ one_more (⟦<StdinSource<R> as Source>⟧.faults self.old)) }
    {
        counted(self.inner.read(out), &mut self.faults)
    }
}

/// A writer as a sink. Each error is a fault, and so is each write that takes nothing.
#[derive(Drop)]
pub struct StdoutSink<W = Stdout> {
    inner: W,
    faults: u64,
}

impl<W: Write> StdoutSink<W> {
    /// A sink over a writer, with no fault so far.
    pub fn new(inner: W) -> StdoutSink<W>
        ensures taken { ⟦<StdoutSink<W> as Sink>⟧.taken result ≡ W.contents inner }
        ensures faults { ⟦<StdoutSink<W> as Sink>⟧.faults result ≡ 0 }
    {
        StdoutSink { inner, faults: 0 }
    }
}

impl<W: Write> Sink for StdoutSink<W> {
    ghost taken = { λ s. W.contents s.inner };

    ghost faults = { λ s. s.faults };

    fn write(&mut self, bytes: &[u8]) -> Result<usize, Failed>
        ensures most { WritesAtMost result bytes.now }
        ensures bytes { WriteAppends (⟦<StdoutSink<W> as Sink>⟧.taken self.old)
            (⟦<StdoutSink<W> as Sink>⟧.taken self.new) result bytes.now }
        ensures later { ⟦<StdoutSink<W> as Sink>⟧.faults self.old
            ≤ ⟦<StdoutSink<W> as Sink>⟧.faults self.new }
        ensures failed { OnErr result (Rose (⟦<StdoutSink<W> as Sink>⟧.faults self.old)
            (⟦<StdoutSink<W> as Sink>⟧.faults self.new)) }
        ensures stuck { 0 < length bytes.now → IfOk result (λ n.
            n ≡ 0 → Rose (⟦<StdoutSink<W> as Sink>⟧.faults self.old)
            (⟦<StdoutSink<W> as Sink>⟧.faults self.new)) }

        // No other call raises the count, and each that failed or took nothing by one.
        ensures stays { IfOk result (λ n. 0 < n → ⟦<StdoutSink<W> as Sink>⟧.faults self.new
            ≡ ⟦<StdoutSink<W> as Sink>⟧.faults self.old) }
        ensures none { IfOk result (λ n. n ≡ 0 → ⟦<StdoutSink<W> as Sink>⟧.faults self.new
            ≡ one_more (⟦<StdoutSink<W> as Sink>⟧.faults self.old)) }
        ensures rises { OnErr result (⟦<StdoutSink<W> as Sink>⟧.faults self.new
            ≡ one_more (⟦<StdoutSink<W> as Sink>⟧.faults self.old)) }
    {
        let count = counted(self.inner.write(bytes), &mut self.faults)?;
        if count == 0 {
            self.faults = self.faults.saturating_add(1);
        }
        Ok(count)
    }
}

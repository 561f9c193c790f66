//! What a program begins with: its words, and standard input and output. They tell no content.
//!
//! Ours, over std's runtime.

ghost use Rattle.std.specs.Prelude.{◌≡◌, IfOk};

use crate::ports::{Sink, Source};
use crate::standard::{StdinSource, StdoutSink};
use crate::words::{process_args, words_behind};
use strm_codes::counts::OutOfMemory;

/// The words behind a program's name, its standard input and its standard output.
#[derive(Drop)]
pub struct Process {
    pub words: Vec<String>,
    pub source: StdinSource,
    pub sink: StdoutSink,
}

impl Process {
    /// Those of this process, of which nothing was read or written yet.
    pub fn begin(rt: &HostRuntime) -> Result<Process, OutOfMemory>
        ensures source { IfOk result (λ process. ⟦<StdinSource as Source>⟧.faults process.source ≡ 0) }
        ensures sink { IfOk result (λ process. ⟦<StdoutSink as Sink>⟧.faults process.sink ≡ 0) }
    {
        let args = process_args(rt)?;
        Ok(Process {
            words: words_behind(rt.alloc(), args)?,
            source: StdinSource::new(rt.stdin()),
            sink: StdoutSink::new(rt.stdout()),
        })
    }
}

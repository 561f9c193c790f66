//! The program: passes its input through a chain of stages.
#![tactic(auto)]

ghost use Rattle.std.specs.Prelude.{◌≡◌, map, string_bytes};
ghost use Rattle.std.specs.Process.{exit_status};
ghost use Rattle.strm_input_output.specs.Serving.{port, Writes};
ghost use Rattle.strm_chain.specs.Serving.{IsChainOutput, IsChainStatus, IsChainComplete};

use std::alloc::Global;
use std::io;
use std::process::ExitCode;
use strm_chain::serving::{OUT_OF_MEMORY, chain_serve};
use strm_input_output::ports::{Sink, Source};
use strm_input_output::processes::Process;

fn main(rt: HostRuntime) -> io::Result<ExitCode> {
    match Process::begin(&rt) {
        Ok(mut own) => Ok(served(rt.alloc(), &own.words, &mut own.source, &mut own.sink)),
        Err(_) => Ok(ExitCode::from(OUT_OF_MEMORY)),
    }
}

// Serves a source and a sink. The program's status is that of `chain_serve`, and with it goes what that
// writes.
fn served<S: Source, K: Sink>(
    alloc: Global,
    words: &Vec<String>,
    source: &mut S,
    sink: &mut K,
) -> ExitCode
    ensures known { IsChainStatus (exit_status result) }
    ensures writes { Writes
        (IsChainOutput (map string_bytes words.now.items) (S.left source.old) (S.left source.new)
        (S.faults source.old) (S.faults source.new)) (port (K.taken sink.old) (K.faults sink.old))
        (port (K.taken sink.new) (K.faults sink.new)) (exit_status result) }
    ensures nothing { exit_status result ≡ OUT_OF_MEMORY → sink.new ≡ sink.old }

    // Which status comes, but for faults and running out of memory, by causes that a caller sees.
    ensures complete { IsChainComplete (map string_bytes words.now.items) (S.left source.old)
        (S.faults source.old) (S.faults source.new) (K.faults sink.old) (K.faults sink.new)
        (exit_status result) }
{
    let status = chain_serve(alloc, words, source, sink);
    ExitCode::from(status)
}

//! A script that is run and taken on tape.
//!
//! Meaning: `Taking.antt`; what a run puts on a tape, `Taking.antt` of `strm_tape_runs`. Ours.

ghost use Rattle.std.specs.Prelude.{◌≡◌, ◌≤◌, ℕ, [], All, length, IfOk, OnOk, Some};
ghost use Rattle.strm_codes.specs.Counters.{Rose};
ghost use Rattle.strm_input_output.specs.Serving.{ReadsWithin, Writes, port};
ghost use Rattle.strm_lines.specs.Grammar.{HasLine};
ghost use Rattle.strm_session.specs.Records.{HostsGoOn};
ghost use Rattle.strm_session.specs.Runs.{HaveRoom};
ghost use Rattle.strm_tape.specs.Spelling.{tape_spelling};
ghost use Rattle.strm_tape_runs.specs.Taking.{NoneHolds, tape_of_run};
ghost use Rattle.strm_tape_program.specs.Taking.{IsTaped, IsOfScript, IsTakeStatus, IsTakeComplete, status_of_output, text_of};

use crate::statuses::{BAD_LINE, DONE, OUT_OF_MEMORY, READ_FAULT, TOO_LONG};
use std::alloc::Global;
use strm_codes::counts::OutOfMemory;
use strm_input_output::answers::write_answer;
use strm_input_output::ports::{Sink, Source};
use strm_input_output::whole::{InputError, read_all};
use strm_lines::lists::TextBytes;
use strm_lines::parsing::{MAX_BYTES, ParseError, parse};
use strm_lines::texts::{bad_line_text, read_fault_text, too_long_text};
use strm_machine::steps::Step;
use strm_tape::errors::TapeError;
use strm_tape::taping::{TapeBytes, tape_bytes};
use strm_tape_runs::recorded::RecordedEnds;
use strm_tape_runs::runs::tape_run;

// What is to be written: the tape of the run, or why there was none.
#[derive(Drop)]
pub(crate) enum Output {
    Tape(TapeBytes),
    BadLine(TextBytes),
    TooLong,
    Fault,
}

impl Output {
    // The status that goes with it.
    fn status(&self) -> u8
        ensures { result ≡ status_of_output self.now }
    {
        match self {
            Output::Tape(_) => DONE,
            Output::BadLine(_) => BAD_LINE,
            Output::TooLong => TOO_LONG,
            Output::Fault => READ_FAULT,
        }
    }

    // Its bytes.
    fn text(&self) -> &[u8]
        ensures { result.now ≡ text_of self.now }
    {
        match self {
            Output::Tape(bytes) => bytes.as_slice(),
            Output::BadLine(text) => text.as_slice(),
            Output::TooLong => too_long_text(),
            Output::Fault => read_fault_text(),
        }
    }
}

/// Reads a source to its end, runs its lines among these host ends, and writes the tape of the run, also where
/// the run stopped. Where the lines are not run it writes why, as `serve` of `strm_session` does. It answers
/// the program's status: `DONE`, `BAD_LINE`, `TOO_LONG`, `READ_FAULT`, `WRITE_FAULT`, or `OUT_OF_MEMORY`, with
/// which nothing is written.
pub fn tape_take<S: Source, K: Sink, H: RecordedEnds>(
    alloc: Global,
    source: &mut S,
    sink: &mut K,
    hosts: &mut H,
) -> u8
    requires held { NoneHolds (H.tells hosts.old) }
    requires room { HaveRoom (H.tells hosts.old) }
    ensures known { IsTakeStatus result }
    ensures writes { Writes
        (IsOfScript (S.left source.old) (S.left source.new) (H.tells hosts.old) (H.tells hosts.new)
        (S.faults source.old) (S.faults source.new))
        (port (K.taken sink.old) (K.faults sink.old)) (port (K.taken sink.new) (K.faults sink.new))
        result }
    ensures nothing { result ≡ OUT_OF_MEMORY → sink.new ≡ sink.old }
    ensures read { ReadsWithin MAX_BYTES (S.left source.old) (S.left source.new) }
    ensures goes_on { HostsGoOn (H.tells hosts.old) (H.tells hosts.new) }

    // Which status comes, but for faults and running out of memory, by causes that a caller sees.
    ensures complete { IsTakeComplete (S.left source.old) (S.faults source.old)
        (S.faults source.new) (K.faults sink.old) (K.faults sink.new) result }
{
    match answer_source(alloc, source, hosts) {
        Ok(output) => write_answer(sink, output.status(), output.text()),
        Err(_) => OUT_OF_MEMORY,
    }
}

// What is to be written for the input of a source.
fn answer_source<S: Source, H: RecordedEnds>(
    alloc: Global,
    source: &mut S,
    hosts: &mut H,
) -> Result<Output, OutOfMemory>
    requires held { NoneHolds (H.tells hosts.old) }
    requires room { HaveRoom (H.tells hosts.old) }
    ensures told { IfOk result (λ o.
        IsOfScript (S.left source.old) (S.left source.new) (H.tells hosts.old) (H.tells hosts.new)
        (S.faults source.old) (S.faults source.new) (status_of_output o) (text_of o)) }
    ensures read { ReadsWithin MAX_BYTES (S.left source.old) (S.left source.new) }
    ensures goes_on { HostsGoOn (H.tells hosts.old) (H.tells hosts.new) }
{
    match read_all(alloc, source) {
        Ok(input) => answer_script(alloc, input.as_slice(), hosts),
        Err(InputError::TooLong) => Ok(Output::TooLong),
        Err(InputError::Fault) => Ok(Output::Fault),
        Err(InputError::OutOfMemory) => Err(OutOfMemory),
    }
}

// What is to be written for an input that was read.
fn answer_script<H: RecordedEnds>(
    alloc: Global,
    input: &[u8],
    hosts: &mut H,
) -> Result<Output, OutOfMemory>
    requires held { NoneHolds (H.tells hosts.old) }
    requires room { HaveRoom (H.tells hosts.old) }
    ensures told { (before after : ℕ) → IfOk result (λ o.
        IsOfScript (Some input.now) (Some []) (H.tells hosts.old) (H.tells hosts.new)
        before after (status_of_output o) (text_of o)) }
    ensures goes_on { HostsGoOn (H.tells hosts.old) (H.tells hosts.new) }
{
    match parse(alloc, input) {
        Ok(steps) => Ok(Output::Tape(taped(alloc, steps.as_slice(), hosts)?)),
        Err(ParseError::TooLong) => Ok(Output::TooLong),
        Err(ParseError::BadLine { line }) => Ok(Output::BadLine(bad_line_text(alloc, line)?)),
        Err(ParseError::OutOfMemory) => Err(OutOfMemory),
    }
}

// The bytes of the tape of a run of steps that lines spell, among host ends that hold nothing.
fn taped<H: RecordedEnds>(
    alloc: Global,
    steps: &[Step],
    hosts: &mut H,
) -> Result<TapeBytes, OutOfMemory>
    requires few { length steps.now ≤ 4294967295 }
    requires each { All HasLine steps.now }
    requires held { NoneHolds (H.tells hosts.old) }
    requires room { HaveRoom (H.tells hosts.old) }
    ensures taped { OnOk result (IsTaped (H.tells hosts.old) (H.tells hosts.new) steps.now) }
    ensures bytes { IfOk result (λ bytes.
        bytes ≡ tape_spelling (tape_of_run steps.now (H.tells hosts.old) (H.tells hosts.new))) }
    ensures goes_on { HostsGoOn (H.tells hosts.old) (H.tells hosts.new) }
{
    match tape_run(alloc, steps, hosts) {
        Ok(taped) => {
            taped.tape.sound();
            tape_bytes(alloc, &taped.tape)
        }
        Err(TapeError::OutOfMemory) => Err(OutOfMemory),
        Err(TapeError::Holding { .. }) => unreachable!(),
        Err(TapeError::NotTapable) => unreachable!(),
        Err(TapeError::NotATape) => unreachable!(),
        Err(TapeError::Differs { .. }) => unreachable!(),
    }
}

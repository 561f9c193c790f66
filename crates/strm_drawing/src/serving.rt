//! The drawing of a script: bytes in, the text of a picture and a status out.
//!
//! Meaning: `Serving.antt`. Ours.

ghost use Rattle.std.specs.Prelude.{◌≡◌, ◌⊎◌, ℕ, [], Some, IfOk};
ghost use Rattle.strm_input_output.specs.Serving.{ReadsWithin, Writes, port};
ghost use Rattle.strm_lines.specs.Text.{bad_line_text};
ghost use Rattle.strm_session.specs.Serving.{IsRunStatus, IsStopStatus};
ghost use Rattle.strm_drawing.specs.Serving.{IsDrawnRun, IsDrawStatus, IsOfDrawing};

use crate::running::draw_run;
use crate::svg::svg_text;
use std::alloc::Global;
use strm_codes::counts::OutOfMemory;
use strm_input_output::answers::{Answer, write_answer};
use strm_input_output::ports::{Sink, Source};
use strm_input_output::whole::{InputError, read_all};
use strm_lines::lists::StepsLeft;
use strm_lines::one_by_one::GivesSteps;
use strm_lines::parsing::{MAX_BYTES, ParseError, parse_onto};
use strm_lines::rows::StepRows;
use strm_lines::texts::bad_line_text;
use strm_machine::steps::Step;
use strm_session::serving::{BAD_LINE, OUT_OF_MEMORY};
use strm_transmit::host_ends::HostEnds;

/// Reads the source to its end, runs its lines among these host ends as `serve` of `strm_session` does, and
/// writes the picture of the run, or what `serve` writes where nothing is run. It answers the same status.
pub fn draw_script<S: Source, K: Sink, H: HostEnds>(
    alloc: Global,
    source: &mut S,
    sink: &mut K,
    hosts: &mut H,
) -> u8
    ensures known { IsRunStatus result }
    ensures writes { Writes
        (IsOfDrawing (S.left source.old) (S.left source.new)
        (H.tells hosts.old) (H.tells hosts.new) (S.faults source.old) (S.faults source.new))
        (port (K.taken sink.old) (K.faults sink.old)) (port (K.taken sink.new) (K.faults sink.new))
        result }
    ensures nothing { result ≡ OUT_OF_MEMORY → sink.new ≡ sink.old }
    ensures read { ReadsWithin MAX_BYTES (S.left source.old) (S.left source.new) }
{
    match answer_source(alloc, source, hosts) {
        Ok(answer) => write_answer(sink, answer.status, answer.text.as_slice()),
        Err(_) => OUT_OF_MEMORY,
    }
}

/// Runs steps among these host ends, and writes the picture of the run. It answers the run's status.
pub fn draw_list<K: Sink, H: HostEnds>(
    alloc: Global,
    steps: &[Step],
    hosts: &mut H,
    sink: &mut K,
) -> u8
    ensures known { IsDrawStatus result }
    ensures writes { Writes (IsDrawnRun (H.tells hosts.old) (H.tells hosts.new) steps.now)
        (port (K.taken sink.old) (K.faults sink.old)) (port (K.taken sink.new) (K.faults sink.new))
        result }
    ensures nothing { result ≡ OUT_OF_MEMORY → sink.new ≡ sink.old }
{
    match answer_steps(alloc, &mut StepsLeft::new(steps), hosts) {
        Ok(answer) => write_answer(sink, answer.status, answer.text.as_slice()),
        Err(_) => OUT_OF_MEMORY,
    }
}

// What is to be written for the input of a source.
fn answer_source<S: Source, H: HostEnds>(
    alloc: Global,
    source: &mut S,
    hosts: &mut H,
) -> Result<Answer, OutOfMemory>
    ensures told { IfOk result (λ a.
        IsOfDrawing (S.left source.old) (S.left source.new) (H.tells hosts.old) (H.tells hosts.new)
        (S.faults source.old) (S.faults source.new) a.status a.text) }
    ensures read { ReadsWithin MAX_BYTES (S.left source.old) (S.left source.new) }
{
    match read_all(alloc, source) {
        Ok(input) => answer_lines(alloc, input.as_slice(), hosts),
        Err(InputError::TooLong) => Answer::too_long(alloc),
        Err(InputError::Fault) => Answer::read_fault(alloc),
        Err(InputError::OutOfMemory) => Err(OutOfMemory),
    }
}

// What is to be written for the lines of an input that was read.
fn answer_lines<H: HostEnds>(
    alloc: Global,
    input: &[u8],
    hosts: &mut H,
) -> Result<Answer, OutOfMemory>
    ensures { (before after : ℕ) → IfOk result (λ a.
        IsOfDrawing (Some input.now) (Some []) (H.tells hosts.old) (H.tells hosts.new)
        before after a.status a.text) }
{
    let mut steps = StepRows::new(alloc);
    match parse_onto(&mut steps, input) {
        Ok(()) => answer_steps(alloc, &mut steps.left(), hosts),
        Err(ParseError::TooLong) => Answer::too_long(alloc),
        Err(ParseError::BadLine { line }) => answer_bad_line(alloc, line),
        Err(ParseError::OutOfMemory) => Err(OutOfMemory),
    }
}

// What is to be written for a line that is not in the grammar.
fn answer_bad_line(alloc: Global, line: u32) -> Result<Answer, OutOfMemory>
    ensures { IfOk result (λ a. (a.status ≡ BAD_LINE) × (a.text ≡ bad_line_text line)) }
{
    let text = bad_line_text(alloc, line)?;
    Ok(Answer {
        status: BAD_LINE,
        text,
    })
}

// What is to be written for steps.
fn answer_steps<L: GivesSteps, H: HostEnds>(
    alloc: Global,
    steps: &mut L,
    hosts: &mut H,
) -> Result<Answer, OutOfMemory>
    ensures known { IfOk result (λ a. (a.status ≡ 0) ⊎ IsStopStatus a.status) }
    ensures drawn { IfOk result (λ a.
        IsDrawnRun (H.tells hosts.old) (H.tells hosts.new) (L.left steps.old) a.status a.text) }
{
    let picture = draw_run(alloc, steps, hosts)?;
    let text = svg_text(alloc, &picture)?;
    Ok(Answer {
        status: picture.status,
        text,
    })
}

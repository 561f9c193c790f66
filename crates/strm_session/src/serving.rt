//! The program's work: words and bytes in, a text and a status out.
//!
//! Source: ours.

ghost use Rattle.std.specs.Prelude.{◌≡◌, ◌≤◌, ◌+◌, ◌⊎◌, ◌↔◌, ℕ, List, [], length, map, IfOk, IfErr, IsErr, IsTrue, Some, string_bytes};
ghost use Rattle.strm_session.specs.Records.{HostsGoOn};
ghost use Rattle.strm_input_output.specs.Serving.{ReadsWithin, Writes, port};
ghost use Rattle.strm_session.specs.Runs.{HaveRoom};
ghost use Rattle.strm_lines.specs.Lines.{lines_of, Spells, IsTooLong};
ghost use Rattle.strm_lines.specs.Generator.{generated};
ghost use Rattle.strm_session.specs.Serving.{TellsToRun, IsGen, IsOfInput, IsOfNumbers, IsSummary, IsStopStatus, IsRunOutput, IsRunStatus, IsStatusOf, IsComplete, IsTranscript, IsStopped, InputWasRun, LeavesUnwritten};

use crate::playing::play_all;
use crate::runs::RunCause;
use crate::texts::{bad_line_text, usage_text};
use std::alloc::Global;
use strm_codes::counts::OutOfMemory;
use strm_input_output::answers::{Answer, write_answer};
use strm_input_output::ports::{Sink, Source};
pub use strm_input_output::statuses::{
    BAD_ITEM, BAD_LINE, DONE, HOST_BROKE, HOST_FAILED, OUT_OF_MEMORY, READ_FAULT, TOO_LONG, USAGE,
    WRITE_FAULT,
};
use strm_input_output::whole::{InputError, read_all};
use strm_lines::generator::{Drawn, MAX_DRAWN};
use strm_lines::one_by_one::GivesSteps;
use strm_lines::parsing::{MAX_BYTES, ParseError, number_of, parse_onto};
use strm_lines::replies::{ReplyCounts, ReplyLines};
use strm_lines::rows::StepRows;
use strm_machine::stops::Stop;
use strm_transmit::host_ends::HostEnds;

// What the words behind the program's name tell it to do.
enum Command {
    // To run the lines of its input.
    Run,
    // To run so many steps that are drawn from a seed.
    Generate { count: u32, seed: u32 },
}

/// Does what the words behind the program's name say, and answers the status of the program. The
/// one word `run` reads the source to its end, runs its lines among these host ends, and writes the text
/// of the run. The words `gen N SEED` run the generator's steps, read nothing, and write the summary of the
/// run. All that is written is made before the first write.
pub fn serve<S: Source, K: Sink, H: HostEnds>(
    alloc: Global,
    words: &Vec<String>,
    source: &mut S,
    sink: &mut K,
    hosts: &mut H,
) -> u8
    requires room { HaveRoom (H.tells hosts.old) }
    ensures known { IsRunStatus result }
    ensures writes { Writes
        (IsRunOutput (map string_bytes words.now.items) (S.left source.old) (S.left source.new)
        (H.tells hosts.old) (H.tells hosts.new) (S.faults source.old) (S.faults source.new))
        (port (K.taken sink.old) (K.faults sink.old)) (port (K.taken sink.new) (K.faults sink.new))
        result }
    ensures nothing { result ≡ OUT_OF_MEMORY → sink.new ≡ sink.old }
    ensures out_of_memory { result ≡ OUT_OF_MEMORY →
        LeavesUnwritten (S.left source.old) (H.tells hosts.old) (H.tells hosts.new) }
    ensures read { ReadsWithin MAX_BYTES (S.left source.old) (S.left source.new) }
    ensures unrun { ¬ TellsToRun (map string_bytes words.now.items) →
        (source.new ≡ source.old) × (H.tells hosts.new ≡ H.tells hosts.old) }
    ensures goes_on { HostsGoOn (H.tells hosts.old) (H.tells hosts.new) }

    // Which status comes, but for faults and running out of memory, by causes that a caller sees.
    ensures complete { IsComplete (map string_bytes words.now.items) (S.left source.old)
        (S.faults source.old) (S.faults source.new) (K.faults sink.old) (K.faults sink.new)
        (H.tells hosts.old) (H.tells hosts.new) result }
{
    match answer_words(alloc, words, source, hosts) {
        Ok(answer) => write_answer(sink, answer.status, answer.text.as_slice()),
        Err(_) => OUT_OF_MEMORY,
    }
}

// What is to be written. Where that finds no memory, the host ends tell what a run of the input did.
fn answer_words<S: Source, H: HostEnds>(
    alloc: Global,
    words: &Vec<String>,
    source: &mut S,
    hosts: &mut H,
) -> Result<Answer, OutOfMemory>
    requires room { HaveRoom (H.tells hosts.old) }
    ensures known { IfOk result (λ a. (a.status ≤ 4) ⊎ IsStopStatus a.status) }
    ensures told { IfOk result (λ a.
        IsRunOutput (map string_bytes words.now.items) (S.left source.old) (S.left source.new)
        (H.tells hosts.old) (H.tells hosts.new) (S.faults source.old) (S.faults source.new)
        a.status a.text) }
    ensures out_of_memory { IfErr result (λ _.
        LeavesUnwritten (S.left source.old) (H.tells hosts.old) (H.tells hosts.new)) }
    ensures read { ReadsWithin MAX_BYTES (S.left source.old) (S.left source.new) }
    ensures unread { ¬ TellsToRun (map string_bytes words.now.items) → source.new ≡ source.old }
    ensures unrun { ¬ TellsToRun (map string_bytes words.now.items) →
        H.tells hosts.new ≡ H.tells hosts.old }
    ensures goes_on { HostsGoOn (H.tells hosts.old) (H.tells hosts.new) }
{
    match read_command(words) {
        Some(Command::Run) => answer_source(alloc, source, hosts),
        Some(Command::Generate { count, seed }) => answer_numbers(alloc, count, seed, hosts),
        None => Answer::fixed(alloc, USAGE, usage_text()),
    }
}

// What the words tell the program to do.
fn read_command(words: &Vec<String>) -> Option<Command>
    ensures run { (result ≡ Some Command.Run) ↔ TellsToRun (map string_bytes words.now.items) }
    ensures generate { (n seed : ℕ) → (result ≡ Some (Command.Generate n seed))
        ↔ IsGen (map string_bytes words.now.items) n seed }
{
    if is_run(words) {
        return Some(Command::Run);
    }
    match numbers(words) {
        Some((count, seed)) => Some(Command::Generate { count, seed }),
        None => None,
    }
}

// Whether the words tell the program to run.
fn is_run(words: &Vec<String>) -> bool
    ensures { IsTrue result ↔ TellsToRun (map string_bytes words.now.items) }
{
    let words = words.as_slice();
    words.len() == 1 && words[0].as_bytes() == b"run".as_slice()
}

// The number of steps to draw and the seed.
fn numbers(words: &Vec<String>) -> Option<(u32, u32)>
    ensures { (n seed : ℕ) → (result ≡ Some (n, seed))
        ↔ IsGen (map string_bytes words.now.items) n seed }
{
    let words = words.as_slice();
    if words.len() != 3 {
        return None;
    }
    if words[0].as_bytes() != b"gen".as_slice() {
        return None;
    }
    let count = number_of(words[1].as_bytes())?;
    let seed = number_of(words[2].as_bytes())?;
    Some((count, seed))
}

// What is to be written for the input of a source.
fn answer_source<S: Source, H: HostEnds>(
    alloc: Global,
    source: &mut S,
    hosts: &mut H,
) -> Result<Answer, OutOfMemory>
    requires room { HaveRoom (H.tells hosts.old) }
    ensures told { IfOk result (λ a.
        IsOfInput (S.left source.old) (S.left source.new) (H.tells hosts.old) (H.tells hosts.new)
        (S.faults source.old) (S.faults source.new) a.status a.text) }
    ensures out_of_memory { IfErr result (λ _.
        LeavesUnwritten (S.left source.old) (H.tells hosts.old) (H.tells hosts.new)) }
    ensures read { ReadsWithin MAX_BYTES (S.left source.old) (S.left source.new) }
    ensures goes_on { HostsGoOn (H.tells hosts.old) (H.tells hosts.new) }
{
    match read_all(alloc, source) {
        Ok(input) => answer_input(alloc, input.as_slice(), hosts),
        Err(InputError::TooLong) => Answer::too_long(alloc),
        Err(InputError::Fault) => Answer::read_fault(alloc),
        Err(InputError::OutOfMemory) => Err(OutOfMemory),
    }
}

// What is to be written for an input that was read.
fn answer_input<H: HostEnds>(
    alloc: Global,
    input: &[u8],
    hosts: &mut H,
) -> Result<Answer, OutOfMemory>
    requires room { HaveRoom (H.tells hosts.old) }
    ensures told { (before after : ℕ) → IfOk result (λ a.
        IsOfInput (Some input.now) (Some []) (H.tells hosts.old) (H.tells hosts.new)
        before after a.status a.text) }
    ensures out_of_memory { IfErr result (λ _.
        LeavesUnwritten (Some input.now) (H.tells hosts.old) (H.tells hosts.new)) }
    ensures goes_on { HostsGoOn (H.tells hosts.old) (H.tells hosts.new) }
{
    let mut steps = StepRows::new(alloc);
    match parse_onto(&mut steps, input) {
        Ok(()) => answer_steps(alloc, &steps, hosts),
        Err(ParseError::TooLong) => Answer::too_long(alloc),
        Err(ParseError::BadLine { line }) => {
            let text = bad_line_text(alloc, line)?;
            Ok(Answer {
                status: BAD_LINE,
                text,
            })
        }
        Err(ParseError::OutOfMemory) => Err(OutOfMemory),
    }
}

// What is to be written for a list of steps.
fn answer_steps<H: HostEnds>(
    alloc: Global,
    steps: &StepRows,
    hosts: &mut H,
) -> Result<Answer, OutOfMemory>
    requires few { length steps.now.items ≤ 4294967295 }
    requires room { HaveRoom (H.tells hosts.old) }
    ensures known { IfOk result (λ a. (a.status ≡ DONE) ⊎ IsStopStatus a.status) }
    ensures done { (input : List ℕ) → Spells (lines_of input) steps.now.items →
        IfOk result (λ a. a.status ≡ DONE →
        IsTranscript (H.tells hosts.old) (H.tells hosts.new) input a.text) }
    ensures stopped { (input : List ℕ) → Spells (lines_of input) steps.now.items →
        IfOk result (λ a. IsStopStatus a.status →
        IsStopped (H.tells hosts.old) (H.tells hosts.new) a.status input a.text) }
    ensures out_of_memory { (input : List ℕ) → Spells (lines_of input) steps.now.items →
        ¬ IsTooLong input →
        IfErr result (λ _. InputWasRun (Some input) (H.tells hosts.old) (H.tells hosts.new)) }
    ensures goes_on { HostsGoOn (H.tells hosts.old) (H.tells hosts.new) }
{
    let mut given = steps.left();
    let mut replies = ReplyLines::new(alloc, given.len());
    match play_all(alloc, &mut given, &mut replies, hosts) {
        Ok(ended) => {
            let text = replies.ended(ended.moved.as_slice())?;
            Ok(Answer { status: DONE, text })
        }
        Err(cause) => {
            let (status, why) = status_of(cause)?;
            let text = replies.stopped(why)?;
            Ok(Answer { status, text })
        }
    }
}

/// The status by which a run stops, and the cause that it stands for; running out of memory has none.
pub fn status_of(cause: RunCause) -> Result<(u8, Stop), OutOfMemory>
    ensures stop { IfOk result (λ told. IsStopStatus told.0) }
    ensures cause { IfOk result (λ told. IsStatusOf told.0 cause told.1) }
    ensures memory { IsErr result → cause ≡ RunCause.OutOfMemory }
{
    match cause {
        RunCause::HostFailed { end } => Ok((HOST_FAILED, Stop::HostFailed { end })),
        RunCause::HostBroke { end } => Ok((HOST_BROKE, Stop::HostBroke { end })),
        RunCause::BadItem { stream } => Ok((BAD_ITEM, Stop::BadItem { stream })),
        RunCause::OutOfMemory => Err(OutOfMemory),
    }
}

// What is to be written for so many steps that are drawn from a seed.
fn answer_numbers<H: HostEnds>(
    alloc: Global,
    count: u32,
    seed: u32,
    hosts: &mut H,
) -> Result<Answer, OutOfMemory>
    requires room { HaveRoom (H.tells hosts.old) }
    ensures told { IfOk result (λ a.
        IsOfNumbers (H.tells hosts.old) (H.tells hosts.new) count seed a.status a.text) }
    ensures hosts { H.tells hosts.new ≡ H.tells hosts.old }
{
    if count > MAX_DRAWN {
        return Answer::too_long(alloc);
    }
    answer_drawn(alloc, &mut Drawn::new(count, seed), hosts)
}

// What is to be written for steps that are drawn: their run stops for running out of memory alone.
fn answer_drawn<H: HostEnds>(
    alloc: Global,
    steps: &mut Drawn,
    hosts: &mut H,
) -> Result<Answer, OutOfMemory>
    requires drawn { (n : ℕ) × (seed : ℕ) × (steps.old ≡ generated n seed) }
    requires few { length steps.old ≤ 4294967295 }
    requires room { HaveRoom (H.tells hosts.old) }
    ensures done { IfOk result (λ a. (a.status ≡ DONE)
        × IsSummary (H.tells hosts.old) (H.tells hosts.new) steps.old a.text) }
    ensures hosts { H.tells hosts.new ≡ H.tells hosts.old }
{
    let mut counts = ReplyCounts::new();
    match play_all(alloc, steps, &mut counts, hosts) {
        Ok(ended) => {
            let text = counts.summary(alloc, ended.moved.as_slice())?;
            Ok(Answer { status: DONE, text })
        }
        Err(RunCause::OutOfMemory) => Err(OutOfMemory),
        Err(RunCause::HostFailed { .. }) => unreachable!(),
        Err(RunCause::HostBroke { .. }) => unreachable!(),
        Err(RunCause::BadItem { .. }) => unreachable!(),
    }
}

//! A run that is put on tape.
//!
//! Source: ours.

ghost use Rattle.std.specs.Prelude.{◌≡◌, ◌≢◌, ◌≤◌, ◌↔◌, ℕ, false, All, length, IfOk, IsErr, IsErrOf};
ghost use Rattle.strm_lines.specs.Grammar.{HasLine};
ghost use Rattle.strm_session.specs.Records.{HostsGoOn};
ghost use Rattle.strm_session.specs.Runs.{HaveRoom};
ghost use Rattle.strm_tape_runs.specs.Taking.{NoneHolds, IsFirstHolding};
ghost use Rattle.strm_tape_runs.specs.Errors.{IsTakingError};
ghost use Rattle.strm_tape_runs.specs.Playing.{IsTapedRun, WasRunOrNot, FoundMemory};

use crate::marks::{Marks, first_holding};
use crate::recorded::RecordedEnds;
use crate::taking::tape_behind;
use std::alloc::Global;
use strm_codes::counts::OutOfMemory;
use strm_host_laws::guests::{states_are_sound, totals_are_counts};
use strm_host_laws::runs::{moments_lead_to_the_end, writers_are_fed_exactly};
use strm_machine::steps::Step;
use strm_record_laws::runs_are_alike;
use strm_session::runs::{RunCause, RunStop, Transcript, run};
use strm_tape::errors::TapeError;
use strm_tape::tapable::are_tapable;
use strm_tape::tape::Tape;

/// A run, and its tape.
#[derive(Drop)]
pub struct Taped {
    /// How the run came out.
    pub end: Result<Transcript, RunStop>,
    /// The steps, and of each host end its type and the records that it added in the run.
    pub tape: Tape,
}

/// Runs the steps as `run` does, and puts them on a tape with the records that the host ends add.
///
/// It is refused before anything is run where a host writer holds items, and then where a step has no place on a
/// tape. After `OutOfMemory` there is no tape; it also comes where the run stops for running out of memory.
pub fn tape_run<H: RecordedEnds>(
    alloc: Global,
    steps: &[Step],
    hosts: &mut H,
) -> Result<Taped, TapeError>
    requires few { length steps.now ≤ 4294967295 }
    requires room { HaveRoom (H.tells hosts.old) }

    // The run is one of `run`, the tape has its steps and the records that it added, and it is the machine's
    // play of that tape.
    ensures taped { IfOk result (λ t.
        IsTapedRun (H.tells hosts.old) (H.tells hosts.new) steps.now t.tape t.end) }

    // The first host writer that holds items is named, exactly where one does; else a step has no place on a
    // tape, exactly where that is told.
    ensures holding { (n : ℕ) → IsErrOf result (TapeError.Holding n)
        ↔ IsFirstHolding n (H.tells hosts.old) }
    ensures not_tapable { IsErrOf result TapeError.NotTapable
        ↔ NoneHolds (H.tells hosts.old) × (¬ All HasLine steps.now) }
    ensures other { (error : TapeError) → IsErrOf result error → IsTakingError error }

    // What it did to the host ends: where it was refused, nothing; without memory, it was run, or nothing was done.
    ensures refused { (error : TapeError) → IsErrOf result error → error ≢ TapeError.OutOfMemory →
        H.tells hosts.new ≡ H.tells hosts.old }
    ensures out_of_memory { IsErrOf result TapeError.OutOfMemory →
        WasRunOrNot (H.tells hosts.old) (H.tells hosts.new) steps.now }
    ensures hosts { HostsGoOn (H.tells hosts.old) (H.tells hosts.new) }
{
    if let Some(writer) = first_holding(hosts) {
        return Err(TapeError::Holding { writer });
    }
    if !are_tapable(steps) {
        return Err(TapeError::NotTapable);
    }
    match run_on_tape(alloc, steps, hosts) {
        Ok(taped) => Ok(taped),
        Err(_) => Err(TapeError::OutOfMemory),
    }
}

// The steps, in a list of their own.
fn copy_steps(alloc: Global, steps: &[Step]) -> Result<Vec<Step>, OutOfMemory>
    ensures { IfOk result (λ copy. copy.items ≡ steps.now) }
{
    let copy = steps.to_vec(alloc)?;
    Ok(copy)
}

/// Whether a run stopped for running out of memory.
pub(crate) fn wanted_memory(end: &Result<Transcript, RunStop>) -> bool
    ensures { result ≡ false → FoundMemory end.now }
{
    match end {
        Ok(_) => false,
        Err(stop) => stop.cause == RunCause::OutOfMemory,
    }
}

// Runs steps that have a place on a tape among host ends that hold nothing.
fn run_on_tape<H: RecordedEnds>(
    alloc: Global,
    steps: &[Step],
    hosts: &mut H,
) -> Result<Taped, OutOfMemory>
    requires few { length steps.now ≤ 4294967295 }
    requires tapable { All HasLine steps.now }
    requires room { HaveRoom (H.tells hosts.old) }
    requires held { NoneHolds (H.tells hosts.old) }
    ensures taped { IfOk result (λ t.
        IsTapedRun (H.tells hosts.old) (H.tells hosts.new) steps.now t.tape t.end) }
    ensures out_of_memory { IsErr result →
        WasRunOrNot (H.tells hosts.old) (H.tells hosts.new) steps.now }
    ensures hosts { HostsGoOn (H.tells hosts.old) (H.tells hosts.new) }
{
    let copy = copy_steps(alloc, steps)?;
    let marks = Marks::of(alloc, hosts)?;
    let end = run(alloc, steps, hosts);
    runs_are_alike();
    totals_are_counts();
    states_are_sound();
    moments_lead_to_the_end();
    writers_are_fed_exactly();
    if wanted_memory(&end) {
        return Err(OutOfMemory);
    }
    let tape = tape_behind(alloc, copy, hosts, &marks)?;
    Ok(Taped { end, tape })
}

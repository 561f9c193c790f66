//! A tape that is played.
//!
//! Source: ours.

ghost use Rattle.std.specs.Prelude.{ℕ, Bool, IfOk, IsErrOf};
ghost use Rattle.strm_session.specs.Records.{HostsGoOn};
ghost use Rattle.strm_tape_runs.specs.Taking.{tape_of_run};
ghost use Rattle.strm_tape_runs.specs.Errors.{IsReplayError};
ghost use Rattle.strm_tape_runs.specs.Playing.{IsTapedRun, WasRunOrNot, WasRunInMemory, AreEndsOf};
ghost use Rattle.strm_tape_runs.specs.Differing.{FirstDiffer};

use crate::differing::{Difference, first_difference};
use crate::marks::Marks;
use crate::recorded::RecordedEnds;
use crate::runs::wanted_memory;
use std::alloc::Global;
use strm_record_laws::runs_are_alike;
use strm_session::runs::{RunStop, Transcript, run};
use strm_tape::errors::TapeError;
use strm_tape::tape::Tape;

/// Runs the steps of a tape among host ends of its types, as `run` does, and sees whether the records that these
/// add are the tape's. Where they are not, it names the first host end whose records differ, host writers being
/// before host readers, and the first of its records, from 0, that differs or is wanting on one side.
///
/// `OutOfMemory` also comes where the run stops for running out of memory.
pub fn replay<H: RecordedEnds>(
    alloc: Global,
    tape: &Tape,
    hosts: &mut H,
) -> Result<Result<Transcript, RunStop>, TapeError>
    requires ends { AreEndsOf tape.now (H.tells hosts.old) }

    // The run is one of `run`, what was added is what the tape has, and it is the machine's play of that tape.
    ensures plays { IfOk result
        (IsTapedRun (H.tells hosts.old) (H.tells hosts.new) tape.now.steps tape.now) }

    // Where it differs, the run is one of `run` too, which found memory, and the first difference is told.
    ensures differs { (reader : Bool) (end at : ℕ) →
        IsErrOf result (TapeError.Differs reader end at) →
        FirstDiffer (tape_of_run tape.now.steps (H.tells hosts.old) (H.tells hosts.new))
        tape.now reader end at }
    ensures adds { (reader : Bool) (end at : ℕ) → IsErrOf result (TapeError.Differs reader end at) →
        WasRunInMemory (H.tells hosts.old) (H.tells hosts.new) tape.now.steps }
    ensures other { (error : TapeError) → IsErrOf result error → IsReplayError error }

    // Without memory, it was run, or nothing was done.
    ensures out_of_memory { IsErrOf result TapeError.OutOfMemory →
        WasRunOrNot (H.tells hosts.old) (H.tells hosts.new) tape.now.steps }
    ensures hosts { HostsGoOn (H.tells hosts.old) (H.tells hosts.new) }
{
    let marks = match Marks::of(alloc, hosts) {
        Ok(marks) => marks,
        Err(_) => return Err(TapeError::OutOfMemory),
    };
    tape.sound();
    runs_are_alike();
    let end = run(alloc, tape.steps(), hosts);
    if wanted_memory(&end) {
        return Err(TapeError::OutOfMemory);
    }
    match first_difference(alloc, hosts, &marks, tape) {
        Ok(None) => Ok(end),
        Ok(Some(Difference { reader, end, at })) => Err(TapeError::Differs { reader, end, at }),
        Err(_) => Err(TapeError::OutOfMemory),
    }
}

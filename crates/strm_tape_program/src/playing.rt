//! A tape that is played.
//!
//! Meaning: `Playing.antt`; what it is to play a tape, `Playing.antt` of `strm_tape_runs`. Ours.

ghost use Rattle.std.specs.Prelude.{◌≡◌, ◌≢◌, ◌⊎◌, Result, IfOk};
ghost use Rattle.strm_buffers.specs.Tells.{Tells};
ghost use Rattle.strm_codes.specs.Counters.{Rose};
ghost use Rattle.strm_input_output.specs.Serving.{Writes, port, IsOr};
ghost use Rattle.strm_session.specs.Records.{HostsGoOn};
ghost use Rattle.strm_session.specs.Serving.{IsStopStatus};
ghost use Rattle.strm_session.specs.declared.runs.RunStop.{RunStop};
ghost use Rattle.strm_session.specs.declared.runs.Transcript.{Transcript};
ghost use Rattle.strm_tape.specs.Spelling.{TapeOf};
ghost use Rattle.strm_tape_runs.specs.Taking.{tape_of_run};
ghost use Rattle.strm_tape_runs.specs.Playing.{AreEndsOf, WasRunOrNot, IsPlayOf};
ghost use Rattle.strm_tape_program.specs.Playing.{IsReplay, IsOfTape, IsPlayStatus, IsStatusOfPlay};

use crate::statuses::{DIFFERS, DONE, OUT_OF_MEMORY};
use crate::texts::differs_text;
use std::alloc::Global;
use strm_codes::counts::OutOfMemory;
use strm_input_output::answers::{Answer, write_answer};
use strm_input_output::ports::Sink;
use strm_session::runs::{RunStop, Transcript};
use strm_session::serving::status_of;
use strm_session::texts::{stopped_text, text};
use strm_tape::errors::TapeError;
use strm_tape::tape::Tape;
use strm_tape_runs::recorded::RecordedEnds;
use strm_tape_runs::replays::replay;

/// Runs the steps of a tape among host ends of its types, and writes what `serve` of `strm_session` would,
/// where the host ends record what the tape says; else that it differs. It answers the program's status:
/// `DONE`, `HOST_FAILED`, `HOST_BROKE`, `BAD_ITEM`, `DIFFERS`, `WRITE_FAULT`, or `OUT_OF_MEMORY`, with which
/// nothing is written.
pub fn tape_play<K: Sink, H: RecordedEnds>(
    alloc: Global,
    tape: &Tape,
    hosts: &mut H,
    sink: &mut K,
) -> u8
    requires ends { AreEndsOf tape.now (H.tells hosts.old) }
    ensures known { IsPlayStatus result }
    ensures writes { Writes (IsOfTape tape.now (H.tells hosts.old) (H.tells hosts.new))
        (port (K.taken sink.old) (K.faults sink.old)) (port (K.taken sink.new) (K.faults sink.new))
        result }
    ensures nothing { result ≡ OUT_OF_MEMORY → sink.new ≡ sink.old }
    ensures goes_on { HostsGoOn (H.tells hosts.old) (H.tells hosts.new) }

    // Which comes, but for faults of the sink and running out of memory: where the host ends recorded what the tape
    // says, the status of the machine's play of it; else that they did not. Without memory the steps were run,
    // or nothing was done.
    ensures complete { (end : Result Transcript RunStop) →
        tape_of_run tape.now.steps (H.tells hosts.old) (H.tells hosts.new) ≡ tape.now →
        IsPlayOf tape.now end → ¬ Rose (K.faults sink.old) (K.faults sink.new) →
        IsStatusOfPlay result end ⊎ (result ≡ OUT_OF_MEMORY) }
    ensures differs { tape_of_run tape.now.steps (H.tells hosts.old)
        (H.tells hosts.new) ≢ tape.now →
        ¬ Rose (K.faults sink.old) (K.faults sink.new) → IsOr DIFFERS result }
    ensures out_of_memory { result ≡ OUT_OF_MEMORY →
        WasRunOrNot (H.tells hosts.old) (H.tells hosts.new) tape.now.steps }
{
    match replay(alloc, tape, hosts) {
        Ok(end) => match answer_of(alloc, end) {
            Ok(answer) => write_answer(sink, answer.status, answer.text.as_slice()),
            Err(_) => OUT_OF_MEMORY,
        },
        Err(TapeError::Differs { .. }) => write_answer(sink, DIFFERS, differs_text()),
        Err(_) => OUT_OF_MEMORY,
    }
}

// What is to be written of a play.
fn answer_of(alloc: Global, end: Result<Transcript, RunStop>) -> Result<Answer, OutOfMemory>
    ensures known { IfOk result (λ o. (o.status ≡ 0) ⊎ IsStopStatus o.status) }
    ensures played { (tape : TapeOf) (old new : Tells) → IsReplay tape old new end →
        IfOk result (λ o. IsOfTape tape old new o.status o.text) }
{
    match end {
        Ok(transcript) => {
            let text = text(alloc, &transcript)?;
            Ok(Answer { status: DONE, text })
        }
        Err(stop) => {
            let (status, why) = status_of(stop.cause)?;
            let text = stopped_text(alloc, stop.replies.as_slice(), why)?;
            Ok(Answer { status, text })
        }
    }
}

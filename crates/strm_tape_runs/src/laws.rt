//! The law of tapes that are played. The function does nothing: its contract is the law.

ghost use Rattle.std.specs.Prelude.{◌≡◌, Result};
ghost use Rattle.strm_session.specs.declared.runs.RunStop.{RunStop};
ghost use Rattle.strm_session.specs.declared.runs.Transcript.{Transcript};
ghost use Rattle.strm_tape.specs.Spelling.{TapeOf};
ghost use Rattle.strm_tape_runs.specs.Playing.{IsPlayOf};

/// All plays of a tape are one: they have the same replies, counts and store, with its memories, or the same stop.
/// So a run that was put on tape and each replay of the tape that does not differ are the same.
pub fn one_tape_one_run()
    ensures { (tape : TapeOf) (a b : Result Transcript RunStop) → IsPlayOf tape a →
        IsPlayOf tape b → a ≡ b }
{}

//! A tape: steps are kept as its bytes, and what a host writer produced is read off its records.

ghost use Rattle.std.specs.Prelude.{◌≡◌, ◌↔◌, ◌≢◌, ◌⊎◌, [], All, length, slice_get, IfOk, IfErr, IsErr, IsErrOf};
ghost use Rattle.std.specs.Option.{option_map};
ghost use Rattle.strm_lines.specs.Grammar.{IsU32, HasLine};
ghost use Rattle.strm_tape.specs.Spelling.{TapeOf, IsTape, tape_with, tape_spelling};
ghost use Rattle.strm_uses.specs.Produced.{items_produced};

use std::alloc::Global;
use strm_codes::counts::OutOfMemory;
use strm_machine::steps::Step;
use strm_tape::errors::TapeError;
use strm_tape::tapable::are_tapable;
use strm_tape::tape::{Tape, WriterTape};
use strm_tape::taping::tape_bytes;
use strm_tape::untaping::untape;

/// Keeps steps of guests alone as a tape's bytes, as a file has them, and reads these again.
pub fn kept(alloc: Global, steps: Vec<Step>) -> Result<Tape, TapeError>
    requires few { IsU32 (length steps.items) }
    ensures again { IfOk result (λ tape. tape ≡ tape_with steps.items [] []) }
    ensures not_tapable { IsErrOf result TapeError.NotTapable ↔ ¬ All HasLine steps.items }
    ensures known { IfErr result (λ e. (e ≡ TapeError.NotTapable) ⊎ (e ≡ TapeError.OutOfMemory)) }
{
    if !are_tapable(&steps) {
        return Err(TapeError::NotTapable);
    }
    let tape = Tape::new(steps, Vec::new(alloc), Vec::new(alloc));
    tape.sound();
    let Ok(bytes) = tape_bytes(alloc, &tape) else {
        return Err(TapeError::OutOfMemory);
    };
    untape(alloc, bytes.as_slice())
}

/// How many items a host writer produced in the run on tape, record by record.
pub fn produced(alloc: Global, writer: &WriterTape) -> Result<u64, OutOfMemory>
    ensures { IfOk result (λ count. count ≡ items_produced writer.now) }
{
    writer.sound();
    let mut left = writer.copy()?;
    let mut count = 0;
    for k in 0..writer.len() {
        let said = left.take_first(alloc)?;
        count += said.items.len() as u64;
    }
    Ok(count)
}

/// The same of a tape's bytes, by the writer's number; none where the run had no such host writer.
pub fn produced_on(alloc: Global, bytes: &[u8], number: u32) -> Result<Option<u64>, TapeError>
    ensures exact { (tape : TapeOf) → IsTape tape → tape_spelling tape ≡ bytes.now →
        IfOk result (λ count. count ≡ option_map items_produced (slice_get tape.writers number)) }
    ensures not_a_tape { IsErrOf result TapeError.NotATape → (tape : TapeOf) → IsTape tape →
        tape_spelling tape ≢ bytes.now }
    ensures only_tapes { ((tape : TapeOf) → IsTape tape → tape_spelling tape ≢ bytes.now) →
        IsErr result }
    ensures known { IfErr result (λ e. (e ≡ TapeError.NotATape) ⊎ (e ≡ TapeError.OutOfMemory)) }
{
    let tape = untape(alloc, bytes)?;
    tape.sound();
    if number >= tape.writers() {
        return Ok(None);
    }
    match produced(alloc, tape.writer(number)) {
        Ok(count) => Ok(Some(count)),
        Err(_) => Err(TapeError::OutOfMemory),
    }
}

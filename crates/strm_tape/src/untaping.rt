//! The tape that bytes spell.
//!
//! Source: ours.

ghost use Rattle.std.specs.Prelude.{◌≡◌, ◌≢◌, ◌⊎◌, List, ℕ, IfOk, IfErr, IsErrOf};
ghost use Rattle.std.specs.Option.{option_map};
ghost use Rattle.strm_tape.specs.Spelling.{tape_spelling, TapeOf, IsTape};
ghost use Rattle.strm_tape.specs.Reading.{head, tape_parts, tape};

use crate::errors::TapeError;
use crate::lists::{few_readers, few_writers, listed_steps};
use crate::parts::are_bytes;
use crate::tape::Tape;
use crate::versions::is_first;
use std::alloc::Global;
use strm_codes::counts::OutOfMemory;

// Whether a tape's version is the first, and what follows that with which it begins.
#[tactic(auto, unfolding(crate::specs::Reading::head))]
fn head(bytes: &[u8]) -> Option<(bool, &[u8])>
    ensures { option_map (λ p. (p.0, p.1.now)) result ≡ head bytes.now }
{
    if bytes.len() < 5 {
        return None;
    }
    let (front, rest) = bytes.split_at(5);
    if front == b"STRT\x01".as_slice() {
        Some((true, rest))
    } else if front == b"STRT\x02".as_slice() {
        Some((false, rest))
    } else {
        None
    }
}

// What a tape says, and what follows it.
fn tape_parts(alloc: Global, bytes: &[u8]) -> Result<Option<(Tape, &[u8])>, OutOfMemory>
    ensures { IfOk result (λ found. option_map (λ p. (p.0, p.1.now)) found ≡ tape_parts bytes.now) }
{
    are_bytes(bytes);
    let Some((steps, rest)) = listed_steps(alloc, bytes)? else {
        return Ok(None);
    };
    let Some((writers, rest)) = few_writers(alloc, rest)? else {
        return Ok(None);
    };
    let Some((readers, rest)) = few_readers(alloc, rest)? else {
        return Ok(None);
    };
    Ok(Some((
        Tape {
            steps,
            writers,
            readers,
        },
        rest,
    )))
}

// A tape, and what follows it.
fn tape(alloc: Global, bytes: &[u8]) -> Result<Option<(Tape, &[u8])>, OutOfMemory>
    ensures { IfOk result (λ found. option_map (λ p. (p.0, p.1.now)) found ≡ tape bytes.now) }
{
    let Some((first, rest)) = head(bytes) else {
        return Ok(None);
    };
    let Some((tape, rest)) = tape_parts(alloc, rest)? else {
        return Ok(None);
    };
    if is_first(&tape) == first {
        Ok(Some((tape, rest)))
    } else {
        Ok(None)
    }
}

/// The tape that these bytes spell, read in one pass. What is no tape is told as `NotATape`, whatever is
/// wrong with it: another version, a record that is cut off, a byte behind the end, an item that is none,
/// padding that is not 0.
pub fn untape(alloc: Global, bytes: &[u8]) -> Result<Tape, TapeError>
    ensures ok { IfOk result (λ found. tape_spelling found ≡ bytes.now) }

    // What was written of a tape is read as that tape.
    ensures again { (t : TapeOf) → IsTape t → tape_spelling t ≡ bytes.now →
        IfOk result (λ found. found ≡ t) }
    ensures not_a_tape { IsErrOf result TapeError.NotATape → (t : TapeOf) → IsTape t →
        tape_spelling t ≢ bytes.now }
    ensures known { IfErr result (λ e. (e ≡ TapeError.NotATape) ⊎ (e ≡ TapeError.OutOfMemory)) }
{
    are_bytes(bytes);
    match tape(alloc, bytes) {
        Ok(Some((tape, rest))) => {
            if rest.is_empty() {
                Ok(tape)
            } else {
                Err(TapeError::NotATape)
            }
        }
        Ok(None) => Err(TapeError::NotATape),
        Err(_) => Err(TapeError::OutOfMemory),
    }
}

//! Turns of a scripted writer that are written down as bytes.
//!
//! Meaning: `Scripts.antt`. Ours.

ghost use Rattle.std.specs.Prelude.{◌≡◌, ◌∷◌, ◌++◌, [], map, IfOk, OnOk};
ghost use Rattle.strm_program_ends.specs.Scripts.{turn_of_bytes};

use crate::scripted_writer::WriterTurn;
use std::alloc::Global;
use strm_buffers::answers::Answer;
use strm_buffers::items::{Items, MOST_ITEMS};
use strm_codes::counts::OutOfMemory;

/// What one poll of a writer of bytes produces, and what it answers.
pub type ByteTurn = (&'static [u8], Answer);

// The turns that produce these bytes, and answer so.
pub(crate) fn turns_of_bytes(
    alloc: Global,
    turns: &[ByteTurn],
) -> Result<Vec<WriterTurn>, OutOfMemory>
    ensures { IfOk result (λ all.
        all.items ≡ map (λ turn. turn_of_bytes turn.0.now turn.1) turns.now) }
{
    let mut all = Vec::new(alloc);
    for k in 0..turns.len() {
        let (bytes, answer) = turns[k];
        push_turn(&mut all, turn_of(alloc, bytes, answer)?)?;
    }
    Ok(all)
}

// Adds a turn at the end.
fn push_turn(turns: &mut Vec<WriterTurn>, turn: WriterTurn) -> Result<(), OutOfMemory>
    ensures { OnOk result (turns.new.items ≡ turns.old.items ++ turn ∷ []) }
{
    turns.push(turn)?;
    Ok(())
}

// The turn that produces these bytes.
fn turn_of(alloc: Global, bytes: &[u8], answer: Answer) -> Result<WriterTurn, OutOfMemory>
    ensures { IfOk result (λ turn. turn ≡ turn_of_bytes bytes.now answer) }
{
    if bytes.len() > MOST_ITEMS as usize {
        return Err(OutOfMemory);
    }
    let values = bytes.to_vec(alloc)?;
    let items = Items::of_values(alloc, values)?;
    Ok(WriterTurn { items, answer })
}

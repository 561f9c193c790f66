//! The words behind the program's name, read exactly as they are spelled.
//!
//! Meaning: `Asking.antt`. Ours.

ghost use Rattle.std.specs.Prelude.{◌≡◌, ◌≤◌, ℕ, List, [], length, map, count_by, All, IfOk, IfSome, Ok, Some, None, string_bytes};
ghost use Rattle.strm_lines.specs.Reading.{number_within};
ghost use Rattle.strm_chain.specs.declared.stages.Stage.{Stage as IsAStage};
ghost use Rattle.strm_chain.specs.Faults.{is_twice};
ghost use Rattle.strm_chain.specs.Asking.{Asks, IsChainAsked};
ghost use Rattle.strm_chain.specs.WordReading.{numbered_read, stage_read, SpellsStages};

use crate::faults::{MAX_STAGES, MAX_TWICE, count_twice};
use crate::stages::Stage;
use std::alloc::Global;
use strm_codes::counts::OutOfMemory;
use strm_lines::words::{behind, number_within};

/// What the words ask for.
#[derive(Drop)]
pub(crate) struct Plan {
    pub(crate) chunk: u32,
    pub(crate) stages: Vec<Stage>,
}

// A number that is a byte.
fn byte_of(word: &[u8]) -> Option<u8>
    ensures { result ≡ number_within 0 255 word.now }
{
    let number = number_within(word, 0, 255)?;
    Some(number as u8)
}

// The stage of a word that ends with a number.
#[tactic(auto, unfolding(crate::specs::WordReading::numbered_read))]
fn numbered_stage_of(word: &[u8]) -> Option<Stage>
    ensures { result ≡ numbered_read word.now }
{
    if let Some(rest) = behind(word, b"add:") {
        return byte_of(rest).map(Stage::Add);
    }
    if let Some(rest) = behind(word, b"without:") {
        return byte_of(rest).map(Stage::Without);
    }
    match behind(word, b"first:") {
        Some(rest) => number_within(rest, 0, u32::MAX).map(Stage::First),
        None => None,
    }
}

// The stage of a word.
#[tactic(auto, unfolding(crate::specs::WordReading::stage_read))]
fn stage_of(word: &[u8]) -> Option<Stage>
    ensures { result ≡ stage_read word.now }
{
    if word == b"copy".as_slice() {
        Some(Stage::Copy)
    } else if word == b"twice".as_slice() {
        Some(Stage::Twice)
    } else if word == b"sum".as_slice() {
        Some(Stage::Sum)
    } else {
        numbered_stage_of(word)
    }
}

// The stages of these words, where each has one.
fn stages_of(alloc: Global, words: &[String]) -> Result<Option<Vec<Stage>>, OutOfMemory>
    ensures some { IfOk result (λ o.
        IfSome o (λ list. SpellsStages (map string_bytes words.now) list.items)) }
    ensures none { result ≡ Ok None → (list : List IsAStage)
        → ¬ SpellsStages (map string_bytes words.now) list }
{
    let mut stages = Vec::new(alloc);
    for word in words {
        let Some(stage) = stage_of(word.as_bytes()) else {
            return Ok(None);
        };
        stages.push(stage)?;
    }
    Ok(Some(stages))
}

// The stages of these words, where they make a chain.
fn chain_of(alloc: Global, words: &[String]) -> Result<Option<Vec<Stage>>, OutOfMemory>
    ensures some { IfOk result (λ o.
        IfSome o (λ list. SpellsStages (map string_bytes words.now) list.items)) }
    ensures few { IfOk result (λ o. IfSome o (λ list. length list.items ≤ 8)) }
    ensures few_twice { IfOk result (λ o. IfSome o (λ list. count_by is_twice list.items ≤ 2)) }
    ensures none { result ≡ Ok None → (list : List IsAStage) → length list ≤ 8
        → count_by is_twice list ≤ 2 →
        ¬ SpellsStages (map string_bytes words.now) list }
{
    if words.len() > MAX_STAGES {
        return Ok(None);
    }
    let Some(stages) = stages_of(alloc, words)? else {
        return Ok(None);
    };
    if count_twice(stages.as_slice()) > MAX_TWICE {
        return Ok(None);
    }
    Ok(Some(stages))
}

/// The chain that the words ask for.
pub(crate) fn plan_of(alloc: Global, words: &[String]) -> Result<Option<Plan>, OutOfMemory>
    ensures some { IfOk result (λ o.
        IfSome o (λ p. Asks (map string_bytes words.now) p.chunk p.stages.items)) }
    ensures none { result ≡ Ok None → ¬ IsChainAsked (map string_bytes words.now) }
{
    let Some((first, rest)) = words.split_first() else {
        return Ok(None);
    };
    let Some(chunk) = number_within(first.as_bytes(), 16, 64) else {
        return Ok(None);
    };
    let Some(stages) = chain_of(alloc, rest)? else {
        return Ok(None);
    };
    Ok(Some(Plan { chunk, stages }))
}

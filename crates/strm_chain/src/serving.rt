//! The program of a pipeline: words and bytes in, bytes and a status out.
//!
//! Meaning: `Serving.antt`. Ours.

ghost use Rattle.std.specs.Prelude.{◌≡◌, ◌≢◌, ◌≤◌, ℕ, List, map, IfOk, string_bytes};
ghost use Rattle.strm_codes.specs.Counters.{Rose};
ghost use Rattle.strm_input_output.specs.Serving.{ReadsWithin, WritesWhole, WritesPart};
ghost use Rattle.strm_chain.specs.Asking.{Asks, IsChainAsked};
ghost use Rattle.strm_chain.specs.Serving.{IsPipedBy, IsChainOutput, IsChainStatus, IsChainComplete, chain_usage_text};

use crate::asking::{Plan, plan_of};
use crate::chains::chain_all;
use crate::faults::{ChainError, MAX_INPUT};
use crate::lists::Bytes8;
use std::alloc::Global;
use strm_codes::counts::OutOfMemory;
use strm_input_output::answers::write_answer;
use strm_input_output::ports::{Sink, Source};
pub use strm_input_output::statuses::{
    DONE, OUT_OF_MEMORY, READ_FAULT, TOO_LONG, USAGE, WRITE_FAULT,
};
use strm_input_output::whole::{InputError, read_within};
use strm_lines::texts::{read_fault_text, too_long_text};

// A status, and the bytes that are written with it.
#[derive(Drop)]
struct Output {
    status: u8,
    bytes: Bytes8,
}

/// Passes what a source has through the stages that the words behind the program's name ask for, to a sink,
/// and answers the status of the program. All that is written is made before the first write.
pub fn chain_serve<S: Source, K: Sink>(
    alloc: Global,
    words: &Vec<String>,
    source: &mut S,
    sink: &mut K,
) -> u8
    ensures known { IsChainStatus result }
    ensures told { result ≢ WRITE_FAULT → result ≢ OUT_OF_MEMORY → WritesWhole
        (IsChainOutput (map string_bytes words.now.items) (S.left source.old) (S.left source.new)
        (S.faults source.old) (S.faults source.new)) (K.taken sink.old) (K.taken sink.new) result }
    ensures part { result ≡ WRITE_FAULT → WritesPart
        (IsChainOutput (map string_bytes words.now.items) (S.left source.old) (S.left source.new)
        (S.faults source.old) (S.faults source.new)) (K.taken sink.old) (K.taken sink.new) }
    ensures write_fault { result ≡ WRITE_FAULT → Rose (K.faults sink.old) (K.faults sink.new) }
    ensures nothing { result ≡ OUT_OF_MEMORY → sink.new ≡ sink.old }
    ensures read { ReadsWithin MAX_INPUT (S.left source.old) (S.left source.new) }
    ensures unread { ¬ IsChainAsked (map string_bytes words.now.items) → source.new ≡ source.old }

    // Which status comes, but for faults and running out of memory, by causes that a caller sees.
    ensures complete { IsChainComplete (map string_bytes words.now.items) (S.left source.old)
        (S.faults source.old) (S.faults source.new) (K.faults sink.old) (K.faults sink.new) result }
{
    match answer_words(alloc, words.as_slice(), source) {
        Ok(output) => write_answer(sink, output.status, output.bytes.as_slice()),
        Err(_) => OUT_OF_MEMORY,
    }
}

// What is to be written.
fn answer_words<S: Source>(
    alloc: Global,
    words: &[String],
    source: &mut S,
) -> Result<Output, OutOfMemory>
    ensures told { IfOk result (λ a.
        IsChainOutput (map string_bytes words.now) (S.left source.old) (S.left source.new)
        (S.faults source.old) (S.faults source.new) a.status a.bytes) }
    ensures read { ReadsWithin MAX_INPUT (S.left source.old) (S.left source.new) }
    ensures unread { ¬ IsChainAsked (map string_bytes words.now) → source.new ≡ source.old }
{
    match plan_of(alloc, words)? {
        Some(plan) => answer_plan(alloc, &plan, source),
        None => fixed(alloc, USAGE, b"usage: chain CHUNK STAGE..\n".as_slice()),
    }
}

// A status with a text that is always the same.
fn fixed(alloc: Global, status: u8, text: &[u8]) -> Result<Output, OutOfMemory>
    ensures { IfOk result (λ a. (a.status ≡ status) × (a.bytes ≡ text.now)) }
{
    let mut bytes = Bytes8::new(alloc);
    bytes.extend(text)?;
    Ok(Output { status, bytes })
}

// What is to be written for a chain.
fn answer_plan<S: Source>(alloc: Global, plan: &Plan, source: &mut S) -> Result<Output, OutOfMemory>
    requires chunk { (16 ≤ plan.now.chunk) × (plan.now.chunk ≤ 64) }
    ensures told { (words : List (List ℕ)) → Asks words plan.now.chunk plan.now.stages.items →
        IfOk result (λ a. IsChainOutput words (S.left source.old) (S.left source.new)
        (S.faults source.old) (S.faults source.new) a.status a.bytes) }
    ensures read { ReadsWithin MAX_INPUT (S.left source.old) (S.left source.new) }
{
    match read_within(alloc, source, MAX_INPUT as u32) {
        Ok(input) => answer_input(alloc, plan, input.as_slice()),
        Err(InputError::TooLong) => fixed(alloc, TOO_LONG, too_long_text()),
        Err(InputError::Fault) => fixed(alloc, READ_FAULT, read_fault_text()),
        Err(InputError::OutOfMemory) => Err(OutOfMemory),
    }
}

// What is to be written for an input that was read.
fn answer_input(alloc: Global, plan: &Plan, input: &[u8]) -> Result<Output, OutOfMemory>
    requires chunk { (16 ≤ plan.now.chunk) × (plan.now.chunk ≤ 64) }
    ensures { IfOk result (λ a. (a.status ≡ DONE)
        × IsPipedBy plan.now.chunk plan.now.stages.items input.now a.bytes) }
{
    let Ok(copy) = input.to_vec(alloc) else {
        return Err(OutOfMemory);
    };
    match chain_all(alloc, plan.stages.as_slice(), copy, plan.chunk) {
        Ok(end) => Ok(Output {
            status: DONE,
            bytes: end.output,
        }),
        Err(_) => Err(OutOfMemory),
    }
}

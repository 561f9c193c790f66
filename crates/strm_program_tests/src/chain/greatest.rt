//! The limits: eight stages, two that double, and 65,536 bytes; and one more of each.

use crate::rows::holds;
use crate::words::{bytes_again, words_of};
use std::alloc::{AllocError, Global};
use std::process::Abort;
use strm_chain::chains::{Chain, ChainEnd, chain_all, chain_run};
use strm_chain::faults::{ChainError, MAX_INPUT};
use strm_chain::serving::chain_serve;
use strm_chain::stages::Stage;
use strm_input_output::in_memory::{BytesSink, BytesSource};

// Eight stages, which put each byte four times.
const FOUR_TIMES: &[Stage] = &[
    Stage::Copy,
    Stage::Add(3),
    Stage::Twice,
    Stage::Copy,
    Stage::Add(253),
    Stage::Twice,
    Stage::First(4_294_967_295),
    Stage::Without(251),
];

// Whether a list has each of the bytes four times.
fn is_four_times(list: &[u8], count: usize) -> bool {
    let mut is = list.len() / 4 == count && list.len() % 4 == 0;
    for (k, byte) in list.iter().enumerate() {
        is = is && *byte == (k / 4 % 251) as u8;
    }
    is
}

// Whether a chain has ended, and put out each of so many bytes four times.
fn is_whole(end: &ChainEnd, count: usize) -> bool {
    end.ended && is_four_times(end.output.as_slice(), count)
}

// So many rounds of ten guests, the last one first.
fn rounds(alloc: Global, count: usize) -> Result<Vec<u32>, AllocError> {
    let mut schedule: Vec<u32> = Vec::new(alloc);
    for _ in 0..count {
        schedule.extend_from_slice(&[9, 8, 7, 6, 5, 4, 3, 2, 1, 0])?;
    }
    Ok(schedule)
}

fn run_is_whole(alloc: Global, count: usize) -> Result<bool, ChainError> {
    let schedule = rounds(alloc, 40_000)?;
    let input = bytes_again(alloc, count)?;
    let end = chain_run(alloc, FOUR_TIMES, input, 64, schedule.as_slice())?;
    Ok(is_whole(&end, count))
}

#[test]
fn the_greatest_input_by_a_schedule(rt: HostRuntime) {
    holds(&rt, run_is_whole(rt.alloc(), MAX_INPUT), "run");
}

// A caller who gives the guests their turns, and asks for what came of them.
fn driven_is_whole(alloc: Global, count: usize) -> Result<bool, ChainError> {
    let mut chain = Chain::new(alloc, FOUR_TIMES, bytes_again(alloc, count)?, 64)?;
    for _ in 0..40_000u32 {
        for who in 0..10u32 {
            if who < chain.guests() {
                chain.turn(who)?;
            }
        }
    }
    let ended = chain.ended();
    let end = chain.finish()?;
    Ok(ended && is_whole(&end, count))
}

#[test]
fn the_greatest_input_turn_by_turn(rt: HostRuntime) {
    holds(&rt, driven_is_whole(rt.alloc(), MAX_INPUT), "driven");
}

const WORDS: [&str; 9] = [
    "16",
    "copy",
    "add:3",
    "twice",
    "copy",
    "add:253",
    "twice",
    "first:4294967295",
    "without:251",
];

fn served_is_whole(alloc: Global, count: usize) -> Result<bool, AllocError> {
    let words = words_of(alloc, &WORDS)?;
    let mut source = BytesSource::new(bytes_again(alloc, count)?, 40_000, Vec::new(alloc));
    let mut sink = BytesSink::new(alloc, 40_000, Vec::new(alloc));
    let status = chain_serve(alloc, &words, &mut source, &mut sink);
    Ok(status == 0 && is_four_times(sink.taken(), count))
}

#[test]
fn the_greatest_input_of_the_program(rt: HostRuntime) {
    holds(&rt, served_is_whole(rt.alloc(), MAX_INPUT), "served");
}

// The error of a chain of these stages and so many bytes.
fn error_of(
    alloc: Global,
    stages: &[Stage],
    count: usize,
) -> Result<Option<ChainError>, AllocError> {
    let input = bytes_again(alloc, count)?;
    match chain_all(alloc, stages, input, 16) {
        Ok(_) => Ok(None),
        Err(error) => Ok(Some(error)),
    }
}

fn is(rt: &impl Abort, found: Result<Option<ChainError>, AllocError>, wanted: ChainError) {
    assert_eq!(rt; found, Ok(Some(wanted)));
}

const NINE: &[Stage] = &[Stage::Twice; 9];

const THREE: &[Stage] = &[Stage::Twice; 3];

// The first fault is told, in the order of stages, doublings and bytes.
#[test]
fn one_more_of_each(rt: HostRuntime) {
    let alloc = rt.alloc();
    is(
        &rt,
        error_of(alloc, NINE, MAX_INPUT + 1),
        ChainError::TooManyStages,
    );
    is(
        &rt,
        error_of(alloc, THREE, MAX_INPUT + 1),
        ChainError::TooManyTwice,
    );
    is(
        &rt,
        error_of(alloc, &[], MAX_INPUT + 1),
        ChainError::TooLong,
    );
}

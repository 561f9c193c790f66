//! Lines that are in the grammar, and lines that are not.

use std::alloc::Global;
use std::process::Abort;
use strm_session::parsing::{ParseError, parse};

const TOO_LONG: u32 = u32::MAX;

// What an input is told: 0 where its lines spell steps, else the number of the first bad line.
fn told(alloc: Global, input: &[u8]) -> u32 {
    match parse(alloc, input) {
        Ok(_) => 0,
        Err(ParseError::BadLine { line }) => line,
        Err(ParseError::TooLong) => TOO_LONG,
        Err(ParseError::OutOfMemory) => TOO_LONG - 1,
    }
}

fn is_told(rt: &impl Abort, found: u32, wanted: u32, input: &str) {
    assert_eq!(rt; found, wanted, "{input}");
}

// Inputs that are read.
const GOOD: [&str; 20] = [
    "",
    "guest 0\n",
    "guest 4294967295",
    "new 0 stream:u8\n",
    "pair 0 1 stream:u8\n",
    "new 0 stream:none\nnew 0 future:char\npair 0 0 stream:(s64)",
    "pair 1 0 future:(bool,s8,u8,s16,u16,s32,u32,s64)",
    "write 0 future:(u64,char) 1 0\nread 0 future:none 1 0",
    "write 0 stream:u8 1 4294967295 268435455\n",
    "write 0 stream:u8 1 0 268435456\n",
    "read 0 stream:u8 0 0 0\n",
    "read 0 stream:u8 1 0 4294967295\n",
    "event 0 1\nevent 4294967295 4294967295",
    "drop-write 0 stream:u8 1\n",
    "drop-read 0 stream:u8 4294967295\n",
    "cancel-write 0 stream:u8 1\n",
    "cancel-read 0 stream:u8 4294967295\n",
    "poke 0 0 00\n",
    "dump 0 0 1\ndump 0 0 64\n",
    "pipe 0 4294967295\ngrant 4294967295 0\n",
];

#[test]
fn good_lines(rt: HostRuntime) {
    for input in &GOOD {
        is_told(&rt, told(rt.alloc(), input.as_bytes()), 0, input);
    }
}

// Lines of a guest that are not in the grammar: blanks, signs, zeros and sizes.
const BAD_NUMBERS: [&str; 14] = [
    "",
    "guest",
    "guest ",
    "guest  1",
    " guest 1",
    "guest 1 ",
    "guest 1 2",
    "guest\t1",
    "guest 1\r",
    "guest 01",
    "guest +1",
    "guest -1",
    "guest 4294967296",
    "Guest 1",
];

// Lines whose type is none.
const BAD_TYPES: [&str; 13] = [
    "pair 0 1 Stream:u8",
    "pair 0 1 stream:",
    "pair 0 1 stream:u128",
    "pair 0 1 stream:()",
    "pair 0 1 stream:(u8",
    "pair 0 1 stream:(u8)8",
    "pair 0 1 stream:(u8,)",
    "pair 0 1 stream:(u8, u8)",
    "pair 0 1 stream:(none)",
    "pair 0 1 stream:((u8),u8)",
    "pair 0 1 stream:(u8,u8,u8,u8,u8,u8,u8,u8,u8)",
    "new 0 u8",
    "new 0 futures:u8",
];

// Lines with too much or too little, or a number that is too large.
const BAD_OPERANDS: [&str; 10] = [
    "write 0 future:u8 1 0 1",
    "read 0 future:u8 1",
    "write 0 stream:u8 1 0 4294967296",
    "read 0 stream:u8 1 0",
    "event 0",
    "event 0 1 2",
    "event 0 stream:u8 1",
    "pipe 0",
    "pipe 0 stream:u8 0",
    "grant 0 end",
];

// Lines of ends, memories and unknown words.
const BAD_COMMANDS: [&str; 16] = [
    "drop-write 0 1",
    "drop-write 0 stream:u8 1 0",
    "drop 0 stream:u8 1",
    "cancel-write 0 1",
    "cancel-write 0 stream:u8 1 0",
    "cancel-read 0 stream:u8 01",
    "cancel 0 stream:u8 1",
    "poke 0 0 ",
    "poke 0 0 0",
    "poke 0 0 0A",
    "poke 0 0 0g",
    "dump 0 0 0",
    "dump 0 0 65",
    "new 0",
    "new 0 stream:u8 1",
    "drive 1",
];

// What is told of a line between two that are good.
fn told_between(alloc: Global, line: &str) -> u32 {
    match format!(in alloc; "guest 1\n{line}\nguest 1\n") {
        Ok(input) => told(alloc, input.as_bytes()),
        Err(_) => TOO_LONG - 1,
    }
}

fn are_bad(rt: &impl Abort, alloc: Global, lines: &[&str]) {
    for line in lines {
        is_told(rt, told_between(alloc, line), 2, line);
    }
}

#[test]
fn bad_lines(rt: HostRuntime) {
    are_bad(&rt, rt.alloc(), &BAD_NUMBERS);
    are_bad(&rt, rt.alloc(), &BAD_TYPES);
    are_bad(&rt, rt.alloc(), &BAD_OPERANDS);
    are_bad(&rt, rt.alloc(), &BAD_COMMANDS);
}

// What is told of so many lines without a word.
fn told_of_empty_lines(alloc: Global, count: usize) -> u32 {
    match vec![in alloc; b'\n'; count] {
        Ok(input) => told(alloc, &input),
        Err(_) => TOO_LONG - 1,
    }
}

#[test]
fn limits_of_lines(rt: HostRuntime) {
    for (count, wanted) in [(1, 1), (262_144, 1), (262_145, TOO_LONG)] {
        is_told(
            &rt,
            told_of_empty_lines(rt.alloc(), count),
            wanted,
            "empty lines",
        );
    }
}

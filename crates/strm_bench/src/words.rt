//! What is timed, by the program's words: `mux` and `tape`, each with a number of bytes, choose these alone, `shared`
//! the store that threads share, with the rounds of a thread and a part of it, a number of turns the rest, with what
//! an item of the rounds is; without a word all is timed.

use crate::threads::Part;
use std::{env, io};
use strm_codes::payloads::Payload;
use strm_codes::scalars::Scalar;

/// What is timed.
#[derive(Clone, Copy)]
pub enum Timed {
    All,
    Store,
    Frames,
    Tapes,
    Shared,
}

/// Turns without a word.
const TURNS: u32 = 2_000_000;

/// The bytes of a stream of frames, or of a tape, without a word.
const BYTES: usize = 4_194_304;

/// Rounds of a thread, of three calls each, without a word.
const ROUNDS: u32 = 10_000;

/// What the first word chooses.
pub(crate) fn choice(rt: &HostRuntime) -> io::Result<Timed> {
    match env::args(rt)?.nth(1) {
        None => Ok(Timed::All),
        Some(word) => Ok(chosen(word.as_str())),
    }
}

// What this first word chooses.
fn chosen(word: &str) -> Timed {
    if word == "mux" {
        Timed::Frames
    } else if word == "tape" {
        Timed::Tapes
    } else if word == "shared" {
        Timed::Shared
    } else {
        Timed::Store
    }
}

/// The first word, a number of turns.
pub(crate) fn turns(rt: &HostRuntime) -> io::Result<u32> {
    match env::args(rt)?.nth(1) {
        Some(word) => Ok(word.as_str().parse::<u32>().unwrap_or(TURNS)),
        None => Ok(TURNS),
    }
}

/// The second word, a number of bytes.
pub(crate) fn bytes(rt: &HostRuntime) -> io::Result<usize> {
    match env::args(rt)?.nth(2) {
        Some(word) => Ok(word.as_str().parse::<usize>().unwrap_or(BYTES)),
        None => Ok(BYTES),
    }
}

/// The second word, the rounds of a thread.
pub(crate) fn rounds(rt: &HostRuntime) -> io::Result<u32> {
    match env::args(rt)?.nth(2) {
        Some(word) => Ok(word.as_str().parse::<u32>().unwrap_or(ROUNDS)),
        None => Ok(ROUNDS),
    }
}

/// The third word, a part of what is timed of threads.
pub(crate) fn part(rt: &HostRuntime) -> io::Result<Part> {
    match env::args(rt)?.nth(3) {
        Some(word) => Ok(part_named(word.as_str())),
        None => Ok(Part::All),
    }
}

// The part of a word, all of it if it is none.
fn part_named(word: &str) -> Part {
    let names = [
        ("bare", Part::Bare),
        ("one", Part::One),
        ("two", Part::Two),
        ("four", Part::Four),
        ("pairs", Part::Pairs),
        ("wait", Part::Wait),
    ];
    for (name, part) in names {
        if word == name {
            return part;
        }
    }
    Part::All
}

/// The second word, what an item of the rounds is.
pub(crate) fn items(rt: &HostRuntime) -> io::Result<Payload> {
    match env::args(rt)?.nth(2) {
        Some(word) => Ok(payload(word.as_str())),
        None => Ok(crate::BYTES),
    }
}

// The payload of a word, bytes if it is none: the compiler does not know which.
fn payload(word: &str) -> Payload {
    let numbers = [
        ("char", Scalar::Char),
        ("u16", Scalar::U16),
        ("u32", Scalar::U32),
        ("u64", Scalar::U64),
    ];
    for (name, scalar) in numbers {
        if word == name {
            return Payload::One(scalar);
        }
    }
    if word == "nothing" {
        Payload::Nothing
    } else {
        crate::BYTES
    }
}

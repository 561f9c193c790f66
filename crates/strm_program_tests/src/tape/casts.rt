//! All host ends of a run, which follow scripts of which turns may be others.

use crate::scripts::{Taking, add_reader, add_writer, no_hosts};
use std::alloc::Global;
use std::process::Abort;
use strm_buffers::answers::Answer;
use strm_buffers::hosts::Hosts;
use strm_codes::codes::TransmitKind;
use strm_codes::payloads::Payload;
use strm_codes::scalars::Scalar;
use strm_program_ends::byte_scripts::ByteTurn;

const BYTE: Payload = Payload::One(Scalar::U8);

/// The turns of each host writer and of each host reader, all of bytes.
pub(crate) struct Cast {
    pub writers: &'static [&'static [ByteTurn]],
    pub readers: &'static [&'static [Taking]],
}

/// A turn that is another: of which host end, writers before readers, which of its turns, and whether it is by its
/// answer; else it is by its items.
#[derive(Clone, Copy)]
pub(crate) struct Change {
    pub end: usize,
    pub at: usize,
    pub answer: bool,
}

// Whether a turn is another by its answer, if it is another.
fn change_of(changes: &[Change], end: usize, at: usize) -> Option<bool> {
    for change in changes {
        if change.end == end && change.at == at {
            return Some(change.answer);
        }
    }
    None
}

fn turn_of(change: Option<bool>, turn: ByteTurn) -> ByteTurn {
    match change {
        Some(true) => (turn.0, Answer::Dropped),
        Some(false) => (b"\x63\x64", turn.1),
        None => turn,
    }
}

fn taking_of(change: Option<bool>, taking: Taking) -> Taking {
    match change {
        Some(true) => (taking.0, Answer::Dropped),
        Some(false) => (1, taking.1),
        None => taking,
    }
}

// The turns of a host writer, but for changes.
fn turns_of(
    rt: &impl Abort,
    alloc: Global,
    turns: &[ByteTurn],
    changes: &[Change],
    end: usize,
) -> Vec<ByteTurn> {
    let mut changed = Vec::new(alloc);
    for (at, turn) in turns.iter().enumerate() {
        let turn = turn_of(change_of(changes, end, at), *turn);
        changed.push(turn).expect(rt, "memory");
    }
    changed
}

// The same of a host reader.
fn takings_of(
    rt: &impl Abort,
    alloc: Global,
    takings: &[Taking],
    changes: &[Change],
    end: usize,
) -> Vec<Taking> {
    let mut changed = Vec::new(alloc);
    for (at, taking) in takings.iter().enumerate() {
        let taking = taking_of(change_of(changes, end, at), *taking);
        changed.push(taking).expect(rt, "memory");
    }
    changed
}

/// Host ends of these turns, but for changes. The readers are numbered behind the writers.
pub(crate) fn hosts_of(rt: &impl Abort, alloc: Global, cast: &Cast, changes: &[Change]) -> Hosts {
    let mut hosts = no_hosts(alloc);
    for (end, turns) in cast.writers.iter().enumerate() {
        let turns = turns_of(rt, alloc, turns, changes, end);
        add_writer(
            rt,
            alloc,
            &mut hosts,
            TransmitKind::Stream,
            turns.as_slice(),
        );
    }
    add_readers(rt, alloc, &mut hosts, cast, changes);
    hosts
}

// The host readers.
fn add_readers(rt: &impl Abort, alloc: Global, hosts: &mut Hosts, cast: &Cast, changes: &[Change]) {
    for (number, takings) in cast.readers.iter().enumerate() {
        let end = cast.writers.len().wrapping_add(number);
        let takings = takings_of(rt, alloc, takings, changes, end);
        add_reader(
            rt,
            alloc,
            hosts,
            TransmitKind::Stream,
            BYTE,
            takings.as_slice(),
        );
    }
}

/// 64 host writers and 64 host readers, all of these turns.
pub(crate) fn most_hosts(
    rt: &impl Abort,
    alloc: Global,
    turns: &[ByteTurn],
    takings: &[Taking],
) -> Hosts {
    let mut hosts = no_hosts(alloc);
    for _ in 0..64usize {
        add_writer(rt, alloc, &mut hosts, TransmitKind::Stream, turns);
        add_reader(rt, alloc, &mut hosts, TransmitKind::Stream, BYTE, takings);
    }
    hosts
}

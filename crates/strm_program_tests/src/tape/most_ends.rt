//! 64 host writers, each piped to one of 64 host readers: a run that is taken on tape, and played among such
//! ends and among those that follow the tape. Memory is found for all of it.

use crate::scripts::{Taking, no_hosts};
use crate::tape::casts::most_hosts;
use crate::tape::ends::{played, taken};
use std::alloc::Global;
use std::process::Abort;
use strm_buffers::answers::Answer;
use strm_buffers::hosts::Hosts;
use strm_buffers::readers::HostReader;
use strm_buffers::writers::HostWriter;
use strm_program_ends::byte_scripts::ByteTurn;
use strm_tape::tape::Tape;
use strm_tape_ends::replay_reader::ReplayReader;
use strm_tape_ends::replay_writer::ReplayWriter;
use strm_tape_runs::runs::Taped;

const TURNS: &[ByteTurn] = &[
    (b"\x01\x02", Answer::Completed),
    (b"\x03", Answer::Completed),
];

const TAKINGS: &[Taking] = &[(2, Answer::Completed), (1, Answer::Completed)];

// Lines that pipe each host writer to the host reader of its number, and poll both in two rounds.
fn lines(rt: &impl Abort, alloc: Global) -> String {
    let mut lines = String::new(alloc);
    for n in 0..64u32 {
        let pair = format!(in alloc; "host {n}\npipe {n} {n}\n").expect(rt, "memory");
        lines.push_str(pair.as_str()).expect(rt, "memory");
    }
    lines.push_str("drive\ndrive\n").expect(rt, "memory");
    lines
}

// The tape of the run.
fn tape_of(rt: &impl Abort, alloc: Global) -> Tape {
    let mut hosts = most_hosts(rt, alloc, TURNS, TAKINGS);
    match taken(alloc, lines(rt, alloc).as_str(), &mut hosts) {
        Ok(taped) => whole(rt, taped),
        Err(_) => panic!(rt; "not taken"),
    }
}

// The tape of a run that came to its end.
fn whole(rt: &impl Abort, taped: Taped) -> Tape {
    let Taped { end, tape } = taped;
    assert!(rt; end.is_ok());
    tape
}

// It is played to its end.
fn is_played(rt: &impl Abort, alloc: Global, tape: &Tape, hosts: &mut Hosts) {
    match played(alloc, tape, hosts) {
        Ok(Ok(_)) => {}
        _ => panic!(rt; "not played"),
    }
}

fn add_writer(alloc: Global, hosts: &mut Hosts, tape: &Tape, n: u32) -> bool {
    if n >= tape.writers() {
        return false;
    }
    let Ok(writer) = ReplayWriter::new(alloc, tape, n) else {
        return false;
    };
    let Ok(writer) = Box::new(alloc, writer) else {
        return false;
    };
    let writer: Box<dyn HostWriter> = writer;
    hosts.writers.push(writer).is_ok()
}

fn add_reader(alloc: Global, hosts: &mut Hosts, tape: &Tape, r: u32) -> bool {
    if r >= tape.readers() {
        return false;
    }
    let Ok(reader) = ReplayReader::new(alloc, tape, r) else {
        return false;
    };
    let Ok(reader) = Box::new(alloc, reader) else {
        return false;
    };
    let reader: Box<dyn HostReader> = reader;
    hosts.readers.push(reader).is_ok()
}

// Host ends that follow it.
fn followers(rt: &impl Abort, alloc: Global, tape: &Tape) -> Hosts {
    let mut hosts = no_hosts(alloc);
    for n in 0..64u32 {
        assert!(rt; add_writer(alloc, &mut hosts, tape, n));
        assert!(rt; add_reader(alloc, &mut hosts, tape, n));
    }
    hosts
}

// Whether the host writer and the host reader of a number have two records each.
fn have_two(tape: &Tape, n: u32) -> bool {
    n < tape.writers()
        && n < tape.readers()
        && tape.writer(n).len() == 2
        && tape.reader(n).said.len() == 2
}

fn have_records(rt: &impl Abort, tape: &Tape) {
    assert!(rt; tape.writers() == 64 && tape.readers() == 64);
    for n in 0..64u32 {
        assert!(rt; have_two(tape, n));
    }
}

#[test]
fn memory_is_found_for_64_ends_of_each_side(rt: HostRuntime) {
    let tape = tape_of(&rt, rt.alloc());
    have_records(&rt, &tape);
    let mut hosts = most_hosts(&rt, rt.alloc(), TURNS, TAKINGS);
    is_played(&rt, rt.alloc(), &tape, &mut hosts);
    let mut hosts = followers(&rt, rt.alloc(), &tape);
    is_played(&rt, rt.alloc(), &tape, &mut hosts);
}

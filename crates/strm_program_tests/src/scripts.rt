//! Host ends that follow scripts.

use std::alloc::Global;
use std::process::Abort;
use strm_buffers::answers::Answer;
use strm_buffers::hosts::Hosts;
use strm_buffers::readers::HostReader;
use strm_buffers::writers::HostWriter;
use strm_codes::codes::TransmitKind;
use strm_codes::payloads::Payload;
use strm_program_ends::byte_scripts::ByteTurn;
use strm_program_ends::scripted_reader::{ReaderTurn, ScriptedReader};
use strm_program_ends::scripted_writer::ScriptedWriter;

/// How many items one poll of a host reader takes at most, and what it answers.
pub(crate) type Taking = (u32, Answer);

/// No host ends.
pub(crate) fn no_hosts(alloc: Global) -> Hosts {
    Hosts {
        writers: Vec::new(alloc),
        readers: Vec::new(alloc),
    }
}

/// A host writer of bytes that does these turns, at the end of the list.
pub(crate) fn add_writer(
    rt: &impl Abort,
    alloc: Global,
    hosts: &mut Hosts,
    kind: TransmitKind,
    turns: &[ByteTurn],
) {
    let writer = ScriptedWriter::of_bytes(alloc, kind, turns).expect(rt, "memory");
    let writer = Box::new(alloc, writer).expect(rt, "memory");
    let writer: Box<dyn HostWriter> = writer;
    hosts.writers.push(writer).expect(rt, "memory");
}

fn turns_of(rt: &impl Abort, alloc: Global, takings: &[Taking]) -> Vec<ReaderTurn> {
    let mut turns = Vec::new(alloc);
    for (take, answer) in takings {
        let (take, answer) = (*take, *answer);
        turns.push(ReaderTurn { take, answer }).expect(rt, "memory");
    }
    turns
}

/// A host reader that takes so, at the end of the list.
pub(crate) fn add_reader(
    rt: &impl Abort,
    alloc: Global,
    hosts: &mut Hosts,
    kind: TransmitKind,
    payload: Payload,
    takings: &[Taking],
) {
    let turns = turns_of(rt, alloc, takings);
    let reader = ScriptedReader::new(alloc, kind, payload, turns);
    let reader = Box::new(alloc, reader).expect(rt, "memory");
    let reader: Box<dyn HostReader> = reader;
    hosts.readers.push(reader).expect(rt, "memory");
}

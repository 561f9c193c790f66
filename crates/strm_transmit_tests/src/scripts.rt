//! Host ends that follow scripts.

use std::alloc::Global;
use strm_buffers::answers::Answer;
use strm_buffers::hosts::Hosts;
use strm_buffers::readers::HostReader;
use strm_buffers::writers::HostWriter;
use strm_codes::codes::TransmitKind;
use strm_codes::payloads::Payload;
use strm_program_ends::byte_scripts::ByteTurn;
use strm_program_ends::scripted_reader::{ReaderTurn, ScriptedReader};
use strm_program_ends::scripted_writer::ScriptedWriter;

/// How many items one poll of a host reader takes at most, and what it answers.
pub(crate) type Takes = (u32, Answer);

/// A host writer of bytes that does these turns, at the end of the list; whether memory was found.
pub(crate) fn add_writer(
    alloc: Global,
    hosts: &mut Hosts,
    kind: TransmitKind,
    turns: &[ByteTurn],
) -> bool {
    let Ok(writer) = ScriptedWriter::of_bytes(alloc, kind, turns) else {
        return false;
    };
    let Ok(writer) = Box::new(alloc, writer) else {
        return false;
    };
    let writer: Box<dyn HostWriter> = writer;
    hosts.writers.push(writer).is_ok()
}

fn takings(alloc: Global, turns: &[Takes]) -> Vec<ReaderTurn> {
    let mut script = Vec::new(alloc);
    for (take, answer) in turns {
        let turn = ReaderTurn {
            take: *take,
            answer: *answer,
        };
        if script.push(turn).is_err() {
            return script;
        }
    }
    script
}

/// A host reader that does these turns, at the end of the list; whether memory was found.
pub(crate) fn add_reader(
    alloc: Global,
    hosts: &mut Hosts,
    kind: TransmitKind,
    payload: Payload,
    turns: &[Takes],
) -> bool {
    let script = takings(alloc, turns);
    let is_whole = script.len() == turns.len();
    let reader = ScriptedReader::new(alloc, kind, payload, script);
    let Ok(reader) = Box::new(alloc, reader) else {
        return false;
    };
    let reader: Box<dyn HostReader> = reader;
    hosts.readers.push(reader).is_ok() && is_whole
}

//! A store among host ends that does calls, row by row.
//!
//! What the store's calls promise is looked at once for each call, here. A test is a table of rows, so that
//! it costs next to nothing to prove.

ghost use Rattle.strm_host_machine.specs.Does.{Fits};

use crate::calls::{BYTES, Call, End, Type, WORDS, index_of};
use crate::scripts::{Takes, add_reader, add_writer};
use crate::told::{
    Told, code, count, done, end, event, guest, member, next, number, pair, reply, type_of,
};
use std::alloc::Global;
use std::process::Abort;
use strm_buffers::hosts::Hosts;
use strm_codes::codes::{ReturnCode, TransmitKind};
use strm_codes::payloads::Payload;
use strm_machine::chunks::Chunk;
use strm_machine::limits::Limits;
use strm_machine::steps::Step;
use strm_program_ends::byte_scripts::ByteTurn;
use strm_transmit::host_ends::HostEnds;
use strm_transmit::steps::apply;
use strm_transmit::store::Store;

/// More than any test needs.
pub(crate) const AMPLE: Limits = Limits {
    handles: 100,
    places: 100,
};

/// A call, and what it is to answer.
pub(crate) type Row = (Call, Told);

/// A host writer of bytes, and what its polls give and answer.
pub(crate) type Writer = (TransmitKind, &'static [ByteTurn]);

/// A host reader, and how much its polls take and what they answer.
pub(crate) type Reader = (TransmitKind, Payload, &'static [Takes]);

/// A store of this tag and these limits does calls, among no host ends.
pub(crate) fn plays(rt: &impl Abort, alloc: Global, tag: u64, limits: Limits, rows: &[Row]) {
    let mut store = Store::new(alloc, tag, limits);
    let mut hosts = no_hosts(alloc);
    play(rt, alloc, &mut store, &mut hosts, rows);
}

/// A store does calls among these host ends.
pub(crate) fn plays_among(
    rt: &impl Abort,
    alloc: Global,
    writers: &[Writer],
    readers: &[Reader],
    rows: &[Row],
) {
    let mut store = Store::new(alloc, 0, AMPLE);
    let mut hosts = no_hosts(alloc);
    for (kind, turns) in writers {
        assert!(rt; add_writer(alloc, &mut hosts, *kind, turns));
    }
    for (kind, payload, turns) in readers {
        assert!(rt; add_reader(alloc, &mut hosts, *kind, *payload, turns));
    }
    play(rt, alloc, &mut store, &mut hosts, rows);
}

fn no_hosts(alloc: Global) -> Hosts {
    Hosts {
        writers: Vec::new(alloc),
        readers: Vec::new(alloc),
    }
}

fn play(rt: &impl Abort, alloc: Global, store: &mut Store, hosts: &mut Hosts, rows: &[Row]) {
    for (at, (call, wanted)) in rows.iter().enumerate() {
        let told = answer(rt, alloc, store, hosts, call);
        assert!(rt; told == *wanted, "row {at}");
    }
}

fn answer(
    rt: &impl Abort,
    alloc: Global,
    store: &mut Store,
    hosts: &mut Hosts,
    call: &Call,
) -> Told {
    match *call {
        Call::WriterPolls(writer) => writer_polls(hosts, writer),
        Call::ReaderPolls(reader) => reader_polls(hosts, reader),
        Call::Again => {
            *store = Store::new(alloc, 0, AMPLE);
            Told::Done
        }
        _ => hosted(rt, store, hosts, call),
    }
}

fn writer_polls(hosts: &Hosts, writer: usize) -> Told {
    match hosts.writers.get(writer) {
        Some(writer) => Told::Count(writer.records() as u128),
        None => Told::Nothing,
    }
}

fn reader_polls(hosts: &Hosts, reader: usize) -> Told {
    match hosts.readers.get(reader) {
        Some(reader) => Told::Count(reader.records() as u128),
        None => Told::Nothing,
    }
}

// The host ends are those that the store needs.
fn must_fit<H: HostEnds>(rt: &impl Abort, store: &Store, hosts: &H)
    ensures { Fits store.now (H.tells hosts.now) }
{
    if store.fits(hosts) {
        return;
    }
    panic!(rt; "other host ends");
}

// Reads and writes, and what host ends have part in.
fn hosted(rt: &impl Abort, store: &mut Store, hosts: &mut Hosts, call: &Call) -> Told {
    must_fit(rt, store, hosts);
    match *call {
        Call::Read(end, address, count) => {
            code(store.stream_read(hosts, end.0, BYTES, end.1, address, count))
        }
        Call::Write(end, address, count) => {
            code(store.stream_write(hosts, end.0, BYTES, end.1, address, count))
        }
        Call::ReadValue(end, address) => {
            code(store.future_read(hosts, end.0, WORDS, end.1, address))
        }
        Call::WriteValue(end, address) => {
            code(store.future_write(hosts, end.0, WORDS, end.1, address))
        }
        Call::HostNew(writer) => number(store.host_new(hosts, writer)),
        Call::Pipe(stream, reader) => done(store.pipe(hosts, stream, reader)),
        Call::Drive => done(store.drive_once(hosts)),
        _ => drops(rt, store, hosts, call),
    }
}

// Ends that go.
fn drops(rt: &impl Abort, store: &mut Store, hosts: &mut Hosts, call: &Call) -> Told {
    must_fit(rt, store, hosts);
    match *call {
        Call::DropReader(end) => done(store.stream_drop_readable(hosts, end.0, BYTES, end.1)),
        Call::DropWriter(end) => done(store.stream_drop_writable(hosts, end.0, BYTES, end.1)),
        Call::DropValueReader(end) => done(store.future_drop_readable(hosts, end.0, WORDS, end.1)),
        Call::DropValueWriter(end) => done(store.future_drop_writable(hosts, end.0, WORDS, end.1)),
        Call::Close(reader) => done(store.close(hosts, reader)),
        Call::StepGuest(size) => steps(rt, store, hosts, &Step::Guest { size }),
        Call::StepDump(guest) => steps(rt, store, hosts, &dump_of(guest)),
        Call::StepWrite(end) => steps(rt, store, hosts, &write_of(end)),
        Call::StepRead(end) => steps(rt, store, hosts, &read_of(end)),
        _ => makes(store, call),
    }
}

fn steps(rt: &impl Abort, store: &mut Store, hosts: &mut Hosts, step: &Step) -> Told {
    must_fit(rt, store, hosts);
    reply(apply(store, hosts, step))
}

fn dump_of(guest: u32) -> Step {
    Step::Dump {
        guest,
        address: 0,
        len: 5,
    }
}

fn write_of(end: End) -> Step {
    Step::Write {
        guest: end.0,
        ty: index_of(Type::Chars),
        handle: end.1,
        address: 0,
        count: 1,
    }
}

fn read_of(end: End) -> Step {
    Step::Read {
        guest: end.0,
        ty: index_of(Type::Chars),
        handle: end.1,
        address: 0,
        count: 1,
    }
}

// Guests, streams and futures.
fn makes(store: &mut Store, call: &Call) -> Told {
    match *call {
        Call::Guest(size) => number(store.add_guest(size)),
        Call::Poke(guest, address, bytes) => pokes(store, guest, address, bytes),
        Call::Between(writer, reader, ty) => pair(store.new_between(writer, reader, index_of(ty))),
        Call::Stream(guest) => pair(store.stream_new(guest, BYTES)),
        Call::Future(guest) => pair(store.future_new(guest, WORDS)),
        _ => ends(store, call),
    }
}

fn pokes(store: &mut Store, guest: u32, address: u32, bytes: [u8; 4]) -> Told {
    match Chunk::new(&bytes) {
        Some(chunk) => done(store.poke(guest, address, &chunk)),
        None => Told::Nothing,
    }
}

// What ends are told, cancels, and ends that move.
fn ends(store: &mut Store, call: &Call) -> Told {
    match *call {
        Call::Event(end) => event(store.take_event(end.0, end.1)),
        Call::Ready(from) => guest(store.next_ready_guest(from)),
        Call::CancelRead(end) => code(store.stream_cancel_read(end.0, BYTES, end.1)),
        Call::CancelWrite(end) => code(store.stream_cancel_write(end.0, BYTES, end.1)),
        Call::CancelReadValue(end) => code(store.future_cancel_read(end.0, WORDS, end.1)),
        Call::CancelWriteValue(end) => code(store.future_cancel_write(end.0, WORDS, end.1)),
        _ => moves(store, call),
    }
}

fn moves(store: &mut Store, call: &Call) -> Told {
    match *call {
        Call::Move(end, to) => number(store.stream_transfer(end.0, BYTES, end.1, to)),
        Call::MoveValue(end, to) => number(store.future_transfer(end.0, WORDS, end.1, to)),
        Call::Lift(end, ty) => number(store.lift(end.0, index_of(ty), end.1)),
        Call::Lower(reader, guest, ty) => number(store.lower(reader, guest, index_of(ty))),
        _ => sets(store, call),
    }
}

// Waitable sets.
fn sets(store: &mut Store, call: &Call) -> Told {
    match *call {
        Call::SetNew(guest) => number(store.set_new(guest)),
        Call::SetJoin(end, set) => done(store.set_join(end.0, set, end.1)),
        Call::SetPoll(guest, set) => member(store.set_poll(guest, set)),
        Call::SetDrop(guest, set) => done(store.set_drop(guest, set)),
        _ => contexts(store, call),
    }
}

// Error contexts.
fn contexts(store: &mut Store, call: &Call) -> Told {
    match *call {
        Call::Context(guest, len) => number(store.error_context_new(guest, 0, len)),
        Call::Share(end, to) => number(store.error_context_transfer(end.0, end.1, to)),
        Call::Text(end, address) => number(store.error_context_message(end.0, end.1, address)),
        Call::DropContext(end) => done(store.error_context_drop(end.0, end.1)),
        Call::Rep(end) => number(store.error_context_rep(end.0, end.1)),
        Call::LowerContext(context, guest) => number(store.error_context_lower(context, guest)),
        _ => asks(store, call),
    }
}

// What is asked.
fn asks(store: &Store, call: &Call) -> Told {
    match *call {
        Call::Tag => Told::Count(store.tag() as u128),
        Call::Trapped => Told::Is(store.trapped()),
        Call::Streams => Told::Number(store.streams()),
        Call::Moved(stream) => moved(store, stream),
        Call::TypeOf(stream) => stream_type(store, stream),
        Call::Begins(guest, bytes) => Told::Is(begins(store, guest, bytes)),
        Call::Holds(guest, address, bytes) => Told::Is(holds(store, guest, address, bytes)),
        _ => looks(store, call),
    }
}

fn moved(store: &Store, stream: u32) -> Told {
    match store.moved(stream) {
        Some(count) => Told::Count(count),
        None => Told::Nothing,
    }
}

fn stream_type(store: &Store, stream: u32) -> Told {
    match store.transmit_index(stream) {
        Some(ty) => Told::Type(type_of(&ty)),
        None => Told::Nothing,
    }
}

fn begins(store: &Store, guest: u32, bytes: [u8; 4]) -> bool {
    match store.memory(guest) {
        Some(memory) => memory.starts_with(&bytes),
        None => false,
    }
}

fn holds(store: &Store, guest: u32, address: u32, bytes: [u8; 4]) -> bool {
    match store.dump(guest, address, 4) {
        Ok(chunk) => chunk.as_slice() == bytes.as_slice(),
        Err(_) => false,
    }
}

// What is asked of handles.
fn looks(store: &Store, call: &Call) -> Told {
    match *call {
        Call::Cell(end) => cell(store, end.0, end.1),
        Call::Look(handle) => end(store.handle(handle.0, handle.1)),
        Call::Next(after) => next(store.next_handle(after.0, after.1)),
        Call::Handles(guest) => count(store.handle_count(guest)),
        _ => Told::Nothing,
    }
}

fn cell(store: &Store, guest: u32, handle: u32) -> Told {
    match store.cell(guest, handle) {
        Some(cell) => kept(cell.code()),
        None => Told::NoCell,
    }
}

fn kept(code: Option<&ReturnCode>) -> Told {
    match code {
        Some(code) => Told::Code(code.encode()),
        None => Told::Nothing,
    }
}

//! A store with ready host ends: bytes that a host feeds go through two guests to a host reader, and through a pipe; a
//! future does; the turn of one stream; and what guests have beside host ends.

use crate::calls::BYTES;
use std::alloc::Global;
use std::process::Abort;
use strm_codes::codes::{ReturnCode, TransmitIndex};
use strm_host_store::host_store::HostStore;
use strm_machine::limits::Limits;
use strm_transmit::errors::StoreError;

const LIMITS: Limits = Limits {
    handles: 64,
    places: 64,
};

/// What an error is told as, and an event that there is none.
const NOT: u32 = 99;

const BLOCKED: u32 = 0xffff_ffff;

/// A call of a store, of streams of bytes.
#[derive(Clone, Copy)]
enum Call {
    Guest(u32),
    Between(u32, u32),
    /// Of a guest and a handle.
    Lift(u32, u32),
    /// Of a stream and a guest.
    Lower(u32, u32),
    /// Of a guest, a handle, an address and a count.
    Read(u32, u32, u32, u32),
    Write(u32, u32, u32, u32),
    Event(u32, u32),
    DropRead(u32, u32),
    Drive,
    /// The turn of a stream.
    Turn(u32),
    HostWriter,
    /// A host writer of a future of a byte.
    HostFuture,
    /// Of a host writer.
    Feed(u32, [u8; 5]),
    FeedOne(u32, u8),
    End(u32),
    Held(u32),
    Shut(u32),
    /// Of a stream.
    HostReader(u32),
    /// Of a host reader and a count.
    Grant(u32, u32),
    Kept(u32),
    Credit(u32),
    Closed(u32),
    Finish(u32),
    /// Of a host reader: the first byte that it keeps.
    Collect(u32),
    /// Of a guest.
    SetNew(u32),
    /// Of a guest, a set and a handle.
    SetJoin(u32, u32, u32),
    /// Of a guest and a set: the code that its least ready member is told.
    SetPoll(u32, u32),
    SetDrop(u32, u32),
    /// The least guest from a number on that is ready.
    Ready(u32),
    /// Of a guest, an address and how many bytes.
    ContextNew(u32, u32, u32),
    /// Of a guest, a handle and an address.
    ContextMessage(u32, u32, u32),
    /// Of a guest and a handle: another handle in the same guest, by the context's number.
    ContextLower(u32, u32),
    /// The same as a transfer to it.
    ContextTransfer(u32, u32),
    ContextDrop(u32, u32),
    /// How many handles a guest has.
    Handles(u32),
    /// How many of error contexts.
    Contexts(u32),
    /// The least handle of a guest above a number.
    NextHandle(u32, u32),
    /// Whether a handle of a guest is of anything.
    Handle(u32, u32),
    /// Whether a guest is there, in use, with a memory of the store's own.
    IsUsed(u32),
    /// Of a guest: a byte put at its fourth, where the memory lies being told first.
    PutAtFour(u32, u8),
    /// The byte of a guest at an address.
    ByteAt(u32, u32),
}

type Row = (Call, u32);

fn number(answer: Result<u32, StoreError>) -> u32 {
    match answer {
        Ok(number) => number,
        Err(_) => NOT,
    }
}

fn code(answer: Result<ReturnCode, StoreError>) -> u32 {
    match answer {
        Ok(code) => code.encode(),
        Err(_) => NOT,
    }
}

fn event(answer: Result<Option<ReturnCode>, StoreError>) -> u32 {
    match answer {
        Ok(Some(code)) => code.encode(),
        _ => NOT,
    }
}

fn done(is_ok: bool) -> u32 {
    if is_ok { 0 } else { NOT }
}

fn count(some: Option<u32>) -> u32 {
    match some {
        Some(count) => count,
        None => NOT,
    }
}

fn flag(some: Option<bool>) -> u32 {
    match some {
        Some(flag) => u32::from(flag),
        None => NOT,
    }
}

fn first_byte(store: &mut HostStore, reader: u32) -> u32 {
    let mut bytes = [0u8; 1];
    match store.reader_payload(reader) {
        Some(payload) if payload == BYTES => {}
        _ => return NOT,
    }
    match store.collect(reader, &mut bytes, 1) {
        Ok(1) => u32::from(bytes[0]),
        _ => NOT,
    }
}

fn among_guests(store: &mut HostStore, call: Call) -> u32 {
    let ty = TransmitIndex::Stream(BYTES);
    match call {
        Call::Guest(size) => number(store.add_guest(size)),
        Call::Between(writer, reader) => done(store.new_between(writer, reader, ty).is_ok()),
        Call::Lift(guest, handle) => number(store.lift(guest, ty, handle)),
        Call::Lower(stream, guest) => number(store.lower(stream, guest, ty)),
        Call::Read(guest, handle, address, count) => {
            code(store.stream_read(guest, BYTES, handle, address, count))
        }
        Call::Write(guest, handle, address, count) => {
            code(store.stream_write(guest, BYTES, handle, address, count))
        }
        Call::Event(guest, handle) => event(store.take_event(guest, handle)),
        Call::DropRead(guest, handle) => {
            done(store.stream_drop_readable(guest, BYTES, handle).is_ok())
        }
        _ => NOT,
    }
}

fn is_asked(store: &mut HostStore, call: Call) -> u32 {
    match call {
        Call::Held(writer) => count(store.held(writer)),
        Call::Shut(writer) => flag(store.is_shut(writer)),
        Call::Kept(reader) => count(store.kept(reader)),
        Call::Credit(reader) => count(store.credit(reader)),
        Call::Closed(reader) => flag(store.is_closed(reader)),
        _ => among_guests(store, call),
    }
}

fn of_hosts(store: &mut HostStore, call: Call) -> u32 {
    match call {
        Call::Drive => done(store.drive().is_ok()),
        Call::Turn(stream) => done(store.drive_stream(stream).is_ok()),
        Call::HostFuture => done(store.host_writer(TransmitIndex::Future(BYTES)).is_ok()),
        Call::FeedOne(writer, byte) => done(store.feed(writer, &[byte], 1).is_ok()),
        Call::HostWriter => done(store.host_writer(TransmitIndex::Stream(BYTES)).is_ok()),
        Call::Feed(writer, bytes) => done(store.feed(writer, &bytes, 5).is_ok()),
        Call::End(writer) => done(store.end(writer).is_ok()),
        Call::HostReader(stream) => done(store.host_reader(stream).is_ok()),
        Call::Grant(reader, count) => done(store.grant(reader, count).is_ok()),
        Call::Finish(reader) => done(store.finish(reader).is_ok()),
        Call::Collect(reader) => first_byte(store, reader),
        _ => is_asked(store, call),
    }
}

// Whether a guest is there and in use, with a memory of the store's own.
fn is_used(store: &HostStore, guest: u32) -> bool {
    store.has_guest(guest) && store.is_in_use(guest) && !store.is_lent(guest)
}

// A byte is put into a guest's memory, after it was told where that lies.
fn puts_at_four(store: &mut HostStore, guest: u32, byte: u8) -> bool {
    if !store.has_guest(guest) {
        return false;
    }
    let _ = store.memory_base(guest);
    if !store.has_guest(guest) {
        return false;
    }
    let memory = store.memory_mut(guest);
    if memory.len() < 5 {
        return false;
    }
    memory[4] = byte;
    true
}

fn byte_at(store: &HostStore, guest: u32, address: u32) -> u32 {
    let mut bytes = [0u8; 1];
    match store.read_memory(guest, address, &mut bytes) {
        Ok(()) => u32::from(bytes[0]),
        Err(_) => NOT,
    }
}

fn polled(store: &mut HostStore, guest: u32, set: u32) -> u32 {
    match store.set_poll(guest, set) {
        Ok(Some(member)) => member.code.encode(),
        _ => NOT,
    }
}

fn ready_guest(store: &mut HostStore, from: u32) -> u32 {
    match store.next_ready_guest(from) {
        Ok(Some(guest)) => guest,
        _ => NOT,
    }
}

fn next_handle(store: &HostStore, guest: u32, after: u32) -> u32 {
    match store.next_handle(guest, after) {
        Ok(Some(found)) => found.0,
        _ => NOT,
    }
}

fn contexts(store: &HostStore, guest: u32) -> u32 {
    match store.guest_counts(guest) {
        Ok(counts) => counts.contexts,
        Err(_) => NOT,
    }
}

fn handles(store: &HostStore, guest: u32) -> u32 {
    match store.handle_count(guest) {
        Ok(count) => count,
        Err(_) => NOT,
    }
}

fn lowered(store: &mut HostStore, guest: u32, handle: u32) -> u32 {
    match store.error_context_rep(guest, handle) {
        Ok(rep) => number(store.error_context_lower(rep, guest)),
        Err(_) => NOT,
    }
}

fn of_sets(store: &mut HostStore, call: Call) -> u32 {
    match call {
        Call::SetNew(guest) => number(store.set_new(guest)),
        Call::SetJoin(guest, set, handle) => done(store.set_join(guest, set, handle).is_ok()),
        Call::SetPoll(guest, set) => polled(store, guest, set),
        Call::SetDrop(guest, set) => done(store.set_drop(guest, set).is_ok()),
        Call::Ready(from) => ready_guest(store, from),
        Call::ContextNew(guest, address, len) => {
            number(store.error_context_new(guest, address, len))
        }
        Call::ContextMessage(guest, handle, address) => {
            number(store.error_context_message(guest, handle, address))
        }
        Call::ContextLower(guest, handle) => lowered(store, guest, handle),
        Call::ContextTransfer(guest, handle) => {
            number(store.error_context_transfer(guest, handle, guest))
        }
        Call::ContextDrop(guest, handle) => done(store.error_context_drop(guest, handle).is_ok()),
        _ => of_hosts(store, call),
    }
}

fn of_guests(store: &mut HostStore, call: Call) -> u32 {
    match call {
        Call::Handles(guest) => handles(store, guest),
        Call::Contexts(guest) => contexts(store, guest),
        Call::NextHandle(guest, after) => next_handle(store, guest, after),
        Call::Handle(guest, handle) => done(store.handle(guest, handle).is_ok()),
        Call::IsUsed(guest) => done(is_used(store, guest)),
        Call::PutAtFour(guest, byte) => done(puts_at_four(store, guest, byte)),
        Call::ByteAt(guest, address) => byte_at(store, guest, address),
        _ => of_sets(store, call),
    }
}

fn plays(rt: &impl Abort, alloc: Global, rows: &[Row]) {
    let mut store = HostStore::new(alloc, 0, LIMITS);
    for (at, (call, wanted)) in rows.iter().enumerate() {
        let told = of_guests(&mut store, *call);
        assert!(rt; told == *wanted, "row {at}");
    }
}

// From a host writer into guest 0, from there to guest 1, and from there to a host reader.
const THROUGH: [Row; 30] = [
    (Call::Guest(16), 0),
    (Call::Guest(16), 1),
    (Call::HostWriter, 0),
    (Call::Lower(0, 0), 1),
    (Call::Read(0, 1, 0, 4), BLOCKED),
    (Call::Feed(0, *b"hello"), 0),
    (Call::Drive, 0),
    (Call::Event(0, 1), 0x40),
    (Call::Held(0), 1),
    (Call::Between(0, 1), 0),
    (Call::Write(0, 2, 0, 4), BLOCKED),
    (Call::Read(1, 1, 8, 4), 0x40),
    (Call::Between(1, 1), 0),
    (Call::Lift(1, 2), 2),
    (Call::HostReader(2), 0),
    (Call::Write(1, 3, 8, 4), BLOCKED),
    (Call::Grant(0, 3), 0),
    (Call::Drive, 0),
    (Call::Event(1, 3), 0x30),
    (Call::Kept(0), 3),
    (Call::Collect(0), 0x68),
    (Call::Collect(0), 0x65),
    (Call::Kept(0), 1),
    (Call::Finish(0), 0),
    (Call::Write(1, 3, 8, 4), 1),
    (Call::End(0), 0),
    (Call::Read(0, 1, 0, 4), 0x10),
    (Call::Read(0, 1, 0, 4), 1),
    (Call::DropRead(0, 1), 0),
    (Call::Feed(0, *b"hello"), NOT),
];

/// What a host feeds is what the host collects, in order; who waits is told by its event.
#[test]
fn bytes_go_from_host_to_host_through_guests(rt: HostRuntime) {
    plays(&rt, rt.alloc(), &THROUGH);
}

const A_PIPE: [Row; 14] = [
    (Call::HostReader(0), NOT),
    (Call::HostWriter, 0),
    (Call::Feed(1, *b"hello"), NOT),
    (Call::HostReader(5), NOT),
    (Call::HostReader(0), 0),
    (Call::HostReader(0), NOT),
    (Call::Feed(0, *b"hello"), 0),
    (Call::Grant(0, 3), 0),
    (Call::Grant(1, 3), NOT),
    (Call::Drive, 0),
    (Call::Kept(0), 3),
    (Call::Grant(0, 3), 0),
    (Call::Drive, 0),
    (Call::Kept(0), 5),
];

/// A host reader of a host writer's stream: a drive passes on what was granted.
#[test]
fn a_drive_passes_along_a_pipe(rt: HostRuntime) {
    plays(&rt, rt.alloc(), &A_PIPE);
}

const ONE_STREAM: [Row; 20] = [
    (Call::Turn(0), NOT),
    (Call::Guest(16), 0),
    (Call::HostWriter, 0),
    (Call::HostWriter, 0),
    (Call::Lower(0, 0), 1),
    (Call::Lower(1, 0), 2),
    (Call::Read(0, 1, 0, 4), BLOCKED),
    (Call::Read(0, 2, 8, 4), BLOCKED),
    (Call::Feed(0, *b"hello"), 0),
    (Call::Feed(1, *b"there"), 0),
    (Call::Turn(1), 0),
    (Call::Event(0, 1), NOT),
    (Call::Event(0, 2), 0x40),
    (Call::Held(0), 5),
    (Call::Turn(1), 0),
    (Call::Turn(2), NOT),
    (Call::Held(1), 1),
    (Call::Turn(0), 0),
    (Call::Event(0, 1), 0x40),
    (Call::Held(0), 1),
];

/// The turn of one stream serves its host end and no other; no stream of a number that none got has one.
#[test]
fn a_turn_serves_one_stream(rt: HostRuntime) {
    plays(&rt, rt.alloc(), &ONE_STREAM);
}

const A_FUTURE: [Row; 18] = [
    (Call::HostFuture, 0),
    (Call::HostReader(0), 0),
    (Call::Shut(0), 0),
    (Call::Shut(1), NOT),
    (Call::FeedOne(0, 0x68), 0),
    (Call::FeedOne(0, 0x65), NOT),
    (Call::Shut(0), 1),
    (Call::Grant(0, 1), 0),
    (Call::Credit(0), 1),
    (Call::Credit(1), NOT),
    (Call::Closed(0), 0),
    (Call::Turn(0), 0),
    (Call::Credit(0), 0),
    (Call::Closed(0), 1),
    (Call::Closed(1), NOT),
    (Call::Held(0), 0),
    (Call::Collect(0), 0x68),
    (Call::Kept(0), 0),
];

/// The one item of a future goes from host to host, and both ends are gone then.
#[test]
fn a_future_goes_from_host_to_host(rt: HostRuntime) {
    plays(&rt, rt.alloc(), &A_FUTURE);
}

const A_SET_TELLS: [Row; 16] = [
    (Call::Guest(16), 0),
    (Call::HostWriter, 0),
    (Call::Lower(0, 0), 1),
    (Call::Read(0, 1, 0, 4), BLOCKED),
    (Call::Feed(0, *b"hello"), 0),
    (Call::SetNew(0), 2),
    (Call::SetJoin(0, 2, 1), 0),
    (Call::Ready(0), NOT),
    (Call::SetPoll(0, 2), NOT),
    (Call::Turn(0), 0),
    (Call::Ready(0), 0),
    (Call::SetPoll(0, 2), 0x40),
    (Call::SetPoll(0, 2), NOT),
    (Call::SetDrop(0, 2), NOT),
    (Call::SetJoin(0, 0, 1), 0),
    (Call::SetDrop(0, 2), 0),
];

/// An end across from a host writer is a member of a set, which tells it once it has something to be told.
#[test]
fn a_set_tells_of_an_end_across_from_a_host(rt: HostRuntime) {
    plays(&rt, rt.alloc(), &A_SET_TELLS);
}

const WHAT_GUESTS_HAVE: [Row; 25] = [
    (Call::Guest(16), 0),
    (Call::HostWriter, 0),
    (Call::Lower(0, 0), 1),
    (Call::Read(0, 1, 0, 4), BLOCKED),
    (Call::Feed(0, *b"hello"), 0),
    (Call::Turn(0), 0),
    (Call::ByteAt(0, 3), 0x6c),
    (Call::ByteAt(0, 16), NOT),
    (Call::IsUsed(0), 0),
    (Call::IsUsed(1), NOT),
    (Call::PutAtFour(0, 0x21), 0),
    (Call::PutAtFour(1, 0x21), NOT),
    (Call::ContextNew(0, 0, 5), 2),
    (Call::ContextMessage(0, 2, 8), 5),
    (Call::ByteAt(0, 12), 0x21),
    (Call::ContextLower(0, 2), 3),
    (Call::ContextTransfer(0, 2), 4),
    (Call::Handles(0), 4),
    (Call::Contexts(0), 3),
    (Call::NextHandle(0, 1), 2),
    (Call::NextHandle(0, 4), NOT),
    (Call::ContextDrop(0, 2), 0),
    (Call::Handle(0, 2), NOT),
    (Call::Handle(0, 3), 0),
    (Call::Handles(1), NOT),
];

/// Memories, error contexts and handles of a guest with a host end across, however they are looked at.
#[test]
fn guests_have_all_else_beside_host_ends(rt: HostRuntime) {
    plays(&rt, rt.alloc(), &WHAT_GUESTS_HAVE);
}

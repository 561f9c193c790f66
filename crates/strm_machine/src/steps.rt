//! The steps of a run.
//!
//! Source: each names one call of the store, which is a built-in of the Canonical ABI or ours.

use crate::chunks::Chunk;
use strm_codes::codes::TransmitIndex;

/// One step. Guests are numbered from 0, handles from 1; addresses and sizes are in bytes, counts
/// in items.
#[derive(Clone, Copy)]
pub enum Step {
    /// A guest with a memory of so many zero bytes. Ours.
    Guest {
        size: u32,
    },
    /// `canon stream.new` or `canon future.new`: the guest gets both ends.
    New {
        guest: u32,
        ty: TransmitIndex,
    },
    /// A stream or future from one guest to another. Ours: `canon stream.new` and a transfer.
    Between {
        writer: u32,
        reader: u32,
        ty: TransmitIndex,
    },
    /// `canon stream.write` or `canon future.write`, whose count is not looked at.
    Write {
        guest: u32,
        ty: TransmitIndex,
        handle: u32,
        address: u32,
        count: u32,
    },
    /// `canon stream.read` or `canon future.read`, whose count is not looked at.
    Read {
        guest: u32,
        ty: TransmitIndex,
        handle: u32,
        address: u32,
        count: u32,
    },
    /// `canon stream.drop-writable` or `canon future.drop-writable`.
    DropWrite {
        guest: u32,
        ty: TransmitIndex,
        handle: u32,
    },
    /// `canon stream.drop-readable` or `canon future.drop-readable`.
    DropRead {
        guest: u32,
        ty: TransmitIndex,
        handle: u32,
    },
    /// `canon stream.cancel-write` or `canon future.cancel-write`.
    CancelWrite {
        guest: u32,
        ty: TransmitIndex,
        handle: u32,
    },
    /// `canon stream.cancel-read` or `canon future.cancel-read`.
    CancelRead {
        guest: u32,
        ty: TransmitIndex,
        handle: u32,
    },
    /// An end, read or write, from one guest to another, which may be the same. Canonical ABI,
    /// `lift_stream` and `lower_stream` of a call from one component to another; of a write end ours.
    Move {
        guest: u32,
        ty: TransmitIndex,
        handle: u32,
        to: u32,
    },
    /// A read end out of a guest: it is loose then. Canonical ABI, `lift_stream`; wasmtime,
    /// `lift_from_index`.
    Lift {
        guest: u32,
        ty: TransmitIndex,
        handle: u32,
    },
    /// The loose read end of a stream, by the stream's number, into a guest. Canonical ABI,
    /// `lower_stream`; wasmtime, `lower_to_index`.
    Lower {
        reader: u32,
        guest: u32,
        ty: TransmitIndex,
    },
    /// The loose read end of a stream, by the stream's number, is dropped. wasmtime,
    /// `StreamReader::close`.
    Close {
        reader: u32,
    },
    /// A stream or future that a host writer writes, by the writer's number; its read end is loose.
    /// wasmtime, `StreamReader::new` and `FutureReader::new`.
    HostNew {
        host: u32,
    },
    /// Bytes from outside for a host writer, by its number; none where no more will come. Ours.
    Feed {
        host: u32,
        bytes: Chunk,
    },
    /// The loose read end of a stream, by the stream's number, goes to a host reader, by the reader's.
    /// wasmtime, `StreamReader::pipe` and `FutureReader::pipe`.
    Pipe {
        reader: u32,
        host: u32,
    },
    /// So many items more that a host reader may take, by its number; none where it is to end. Ours.
    Grant {
        host: u32,
        count: u32,
    },
    /// One turn of each stream whose host ends have something to do, by the streams' numbers. Ours:
    /// wasmtime's event loop.
    Drive,
    /// What an end is to be told, whatever its type: an event of `canon waitable-set.poll`.
    Event {
        guest: u32,
        handle: u32,
    },
    /// `canon waitable-set.new`.
    SetNew {
        guest: u32,
    },
    /// `canon waitable.join`: the end joins the set, and leaves the one that it was in; of set 0 it
    /// leaves that alone.
    SetJoin {
        guest: u32,
        set: u32,
        handle: u32,
    },
    /// `canon waitable-set.poll`: the least member that has a report is told it.
    SetPoll {
        guest: u32,
        set: u32,
    },
    /// `canon waitable-set.drop`.
    SetDrop {
        guest: u32,
        set: u32,
    },
    /// `canon error-context.new` of so many bytes of the guest's memory.
    ErrNew {
        guest: u32,
        address: u32,
        len: u32,
    },
    /// `canon error-context.debug-message`: the message's bytes are put at an address of the guest's
    /// memory.
    ErrText {
        guest: u32,
        handle: u32,
        address: u32,
    },
    /// An error context to another guest, or to the same; the guest keeps its handle. wasmtime,
    /// `error_context_transfer`.
    ErrMove {
        guest: u32,
        handle: u32,
        to: u32,
    },
    /// `canon error-context.drop`.
    ErrDrop {
        guest: u32,
        handle: u32,
    },
    /// Bytes put into a guest's memory. Ours.
    Poke {
        guest: u32,
        address: u32,
        bytes: Chunk,
    },
    /// Bytes read from a guest's memory, at most 64. Ours.
    Dump {
        guest: u32,
        address: u32,
        len: u32,
    },
}

//! The calls of a store, as a row names them.
//!
//! A row has plain numbers alone: one that holds a reference, a payload or a reply takes ten times as long to
//! prove.

use strm_codes::codes::TransmitIndex;
use strm_codes::payloads::Payload;
use strm_codes::scalars::Scalar;

pub(crate) const BYTES: Payload = Payload::One(Scalar::U8);

pub(crate) const WORDS: Payload = Payload::One(Scalar::U32);

pub(crate) const CHARS: Payload = Payload::One(Scalar::Char);

/// The types that tests have.
#[derive(Clone, Copy, PartialEq)]
pub(crate) enum Type {
    /// A stream of bytes, of words or of chars.
    Bytes,
    Words,
    Chars,
    /// A future of a byte or of a word.
    Byte,
    Word,
}

/// What a type stands for.
pub(crate) fn index_of(ty: Type) -> TransmitIndex {
    match ty {
        Type::Bytes => TransmitIndex::Stream(BYTES),
        Type::Words => TransmitIndex::Stream(WORDS),
        Type::Chars => TransmitIndex::Stream(CHARS),
        Type::Byte => TransmitIndex::Future(BYTES),
        Type::Word => TransmitIndex::Future(WORDS),
    }
}

/// The guest and the handle of an end.
pub(crate) type End = (u32, u32);

/// A call of a store. Streams are of bytes and futures of a word, where no type is named.
#[derive(Clone, Copy)]
pub(crate) enum Call {
    /// A guest with so many bytes.
    Guest(u32),
    /// Bytes into a guest's memory at an address.
    Poke(u32, u32, [u8; 4]),
    /// Whether a guest's memory has these bytes at an address.
    Holds(u32, u32, [u8; 4]),
    /// Whether it begins with these bytes.
    Begins(u32, [u8; 4]),
    /// A stream or future between two guests.
    Between(u32, u32, Type),
    /// A stream within a guest.
    Stream(u32),
    /// A future within a guest.
    Future(u32),
    /// Of an end, an address and a count.
    Read(End, u32, u32),
    Write(End, u32, u32),
    /// Of an end of chars, an address and a count.
    ReadChars(End, u32, u32),
    WriteChars(End, u32, u32),
    /// The item at which a read of so many chars to address 0 would stop.
    BadItem(End, u32),
    /// Of an end and an address.
    ReadValue(End, u32),
    WriteValue(End, u32),
    CancelRead(End),
    CancelWrite(End),
    CancelReadValue(End),
    CancelWriteValue(End),
    DropReader(End),
    DropWriter(End),
    DropValueReader(End),
    DropValueWriter(End),
    /// What an end is told, if anything.
    Event(End),
    /// An end to another guest.
    Move(End, u32),
    MoveValue(End, u32),
    /// A read end leaves its guest.
    Lift(End, Type),
    /// A loose read end comes into a guest.
    Lower(u32, u32, Type),
    /// The loose read end of a stream goes.
    Close(u32),
    SetNew(u32),
    /// An end joins a set; with set 0 it leaves its own.
    SetJoin(End, u32),
    SetPoll(u32, u32),
    SetDrop(u32, u32),
    /// An error context of a message of so many bytes at address 0.
    Context(u32, u32),
    /// A handle more of a guest to the error context of a handle.
    Share(End, u32),
    /// The message is put at an address.
    Text(End, u32),
    DropContext(End),
    /// The number that a handle of an error context names.
    Rep(End),
    /// A handle more of a guest to the error context of a number.
    LowerContext(u32, u32),
    /// A stream of a host writer.
    HostNew(u32),
    /// The loose read end of a stream goes to a host reader.
    Pipe(u32, u32),
    /// A drive round.
    Drive,
    /// How many polls a host writer recorded.
    WriterPolls(usize),
    ReaderPolls(usize),
    /// The same as steps: a guest, a dump of a guest, and a write and a read of a char by a handle.
    StepGuest(u32),
    StepDump(u32),
    StepWrite(End),
    StepRead(End),
    /// What is asked of a store: of itself,
    Tag,
    Trapped,
    /// how many streams it has,
    Streams,
    /// how many items moved on a stream, and its type,
    Moved(u32),
    TypeOf(u32),
    /// what the cell of an end keeps for it to be told,
    Cell(End),
    /// what an end is,
    Look(End),
    /// the next handle of a guest, and how many it has.
    Next(End),
    Handles(u32),
    /// The least guest, from a number on, that has something to be told.
    Ready(u32),
    /// A guest may have so many handles, ends and bytes.
    Limit(u32, u32, u32, u64),
    /// What it may have.
    LimitsOf(u32),
    /// How many handles a guest has, and the ends and the error contexts among them.
    Counts(u32),
    /// A guest ends, or begins with so many bytes where it has nothing, and whether it has something.
    EndGuest(u32),
    BeginGuest(u32, u32),
    InUse(u32),
    /// Another store of no guest, among the same host ends.
    Again,
}

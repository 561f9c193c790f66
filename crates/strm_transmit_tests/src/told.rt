//! What a call of a store answers, as one type, so that a row can say it.

use crate::calls::Type;
use std::alloc::AllocError;
use strm_codes::codes::{ReturnCode, TransmitIndex};
use strm_codes::payloads::Payload;
use strm_codes::refusals::Refusal;
use strm_codes::scalars::Scalar;
use strm_machine::replies::{Member, Pair, Reply};
use strm_machine::streams::{HostEnd, Owner, Side};
use strm_transmit::Handle;
use strm_transmit::errors::StoreError;

/// The word of a code that says that the end has to wait.
pub(crate) const BLOCKED: u32 = 0xffff_ffff;

/// What a call answers. Codes are told by their words.
#[derive(Clone, Copy, PartialEq)]
pub(crate) enum Told {
    Done,
    Number(u32),
    Count(u128),
    Is(bool),
    Type(Type),
    /// A read end's handle, a write end's, and the number of their stream.
    Ends(u32, u32, u32),
    /// The word of a code.
    Code(u32),
    /// No event, no member, no such stream or handle, no guest.
    Nothing,
    /// A handle, and the word of the code that it was told.
    Member(u32, u32),
    /// A handle, and what it is of: an end, a set or an error context.
    Handle(u32, char),
    /// An end's type, whether it reads, its stream, the word of what it is to be told, and who has the other
    /// end.
    End(Type, bool, u32, Option<u32>, Owner),
    /// No end is there that a cell could be of.
    NoCell,
    /// Handles, and the ends and the error contexts among them.
    Counts(u32, u32, u32),
    /// How many handles, ends and bytes a guest may have.
    Limits(u32, u32, u64),
    /// The guest would pass its limit.
    PastLimit,
    Refused(Refusal),
    /// A step's reply that is a refusal.
    RefusedReply(Refusal),
    BadItem(u32),
    /// The guest that writes an item that is none, its handle, and the item's place.
    BadItemOf(u32, u32, u32),
    HostFailed(HostEnd),
    HostBroke(HostEnd),
    Trapped,
    OutOfMemory,
    /// None of these.
    Other,
}

fn error(error: StoreError) -> Told {
    match error {
        StoreError::Refused(refusal) => Told::Refused(refusal),
        StoreError::BadItem { stream } => Told::BadItem(stream),
        StoreError::HostFailed { end } => Told::HostFailed(end),
        StoreError::HostBroke { end } => Told::HostBroke(end),
        StoreError::StoreTrapped => Told::Trapped,
        StoreError::OutOfMemory => Told::OutOfMemory,
    }
}

pub(crate) fn type_of(index: &TransmitIndex) -> Type {
    match index {
        TransmitIndex::Stream(Payload::One(Scalar::U8)) => Type::Bytes,
        TransmitIndex::Stream(Payload::One(Scalar::Char)) => Type::Chars,
        TransmitIndex::Future(Payload::One(Scalar::U8)) => Type::Byte,
        TransmitIndex::Future(_) => Type::Word,
        TransmitIndex::Stream(_) => Type::Words,
    }
}

pub(crate) fn done(answer: Result<(), StoreError>) -> Told {
    match answer {
        Ok(()) => Told::Done,
        Err(why) => error(why),
    }
}

pub(crate) fn number(answer: Result<u32, StoreError>) -> Told {
    match answer {
        Ok(number) => Told::Number(number),
        Err(why) => error(why),
    }
}

pub(crate) fn pair(answer: Result<Pair, StoreError>) -> Told {
    match answer {
        Ok(pair) => Told::Ends(pair.read, pair.write, pair.stream),
        Err(why) => error(why),
    }
}

pub(crate) fn code(answer: Result<ReturnCode, StoreError>) -> Told {
    match answer {
        Ok(code) => Told::Code(code.encode()),
        Err(why) => error(why),
    }
}

pub(crate) fn event(answer: Result<Option<ReturnCode>, StoreError>) -> Told {
    match answer {
        Ok(Some(code)) => Told::Code(code.encode()),
        Ok(None) => Told::Nothing,
        Err(why) => error(why),
    }
}

pub(crate) fn member(answer: Result<Option<Member>, StoreError>) -> Told {
    match answer {
        Ok(Some(member)) => Told::Member(member.handle, member.code.encode()),
        Ok(None) => Told::Nothing,
        Err(why) => error(why),
    }
}

pub(crate) fn reply(answer: Result<Reply, StoreError>) -> Told {
    match answer {
        Ok(Reply::Number(number)) => Told::Number(number),
        Ok(Reply::Code(code)) => Told::Code(code.encode()),
        Ok(Reply::Refused(refusal)) => Told::RefusedReply(refusal),
        Ok(_) => Told::Other,
        Err(why) => error(why),
    }
}

pub(crate) fn count(answer: Result<u32, Refusal>) -> Told {
    match answer {
        Ok(count) => Told::Number(count),
        Err(refusal) => Told::Refused(refusal),
    }
}

fn reads(side: Side) -> bool {
    match side {
        Side::Reading => true,
        Side::Writing => false,
    }
}

fn word(event: Option<ReturnCode>) -> Option<u32> {
    match event {
        Some(code) => Some(code.encode()),
        None => None,
    }
}

pub(crate) fn end(answer: Result<Handle, Refusal>) -> Told {
    match answer {
        Ok(Handle::End(end)) => Told::End(
            type_of(&end.ty),
            reads(end.side),
            end.stream,
            word(end.event),
            end.other,
        ),
        Ok(_) => Told::Nothing,
        Err(refusal) => Told::Refused(refusal),
    }
}

// What a handle is of, as a letter.
fn letter(handle: &Handle) -> char {
    match handle {
        Handle::End(_) => 'e',
        Handle::WaitableSet => 's',
        Handle::ErrorContext => 'c',
        Handle::Other => 'o',
    }
}

pub(crate) fn next(answer: Result<Option<(u32, Handle)>, Refusal>) -> Told {
    match answer {
        Ok(Some((number, handle))) => Told::Handle(number, letter(&handle)),
        Ok(None) => Told::Nothing,
        Err(refusal) => Told::Refused(refusal),
    }
}

pub(crate) fn guest(answer: Result<Option<u32>, AllocError>) -> Told {
    match answer {
        Ok(Some(guest)) => Told::Number(guest),
        Ok(None) => Told::Nothing,
        Err(_) => Told::OutOfMemory,
    }
}

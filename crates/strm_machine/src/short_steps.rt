//! Steps as they are kept in a list: 32 bytes each, with chunks at places of their own.
//!
//! Meaning: `ShortSteps.antt`. Ours.

use strm_codes::codes::TransmitIndex;

/// A step, of whose chunk it has the place, in a list of chunks.
#[derive(Clone, Copy)]
pub enum ShortStep {
    Guest {
        size: u32,
    },
    New {
        guest: u32,
        ty: TransmitIndex,
    },
    Between {
        writer: u32,
        reader: u32,
        ty: TransmitIndex,
    },
    Write {
        guest: u32,
        ty: TransmitIndex,
        handle: u32,
        address: u32,
        count: u32,
    },
    Read {
        guest: u32,
        ty: TransmitIndex,
        handle: u32,
        address: u32,
        count: u32,
    },
    DropWrite {
        guest: u32,
        ty: TransmitIndex,
        handle: u32,
    },
    DropRead {
        guest: u32,
        ty: TransmitIndex,
        handle: u32,
    },
    CancelWrite {
        guest: u32,
        ty: TransmitIndex,
        handle: u32,
    },
    CancelRead {
        guest: u32,
        ty: TransmitIndex,
        handle: u32,
    },
    Move {
        guest: u32,
        ty: TransmitIndex,
        handle: u32,
        to: u32,
    },
    Lift {
        guest: u32,
        ty: TransmitIndex,
        handle: u32,
    },
    Lower {
        reader: u32,
        guest: u32,
        ty: TransmitIndex,
    },
    Close {
        reader: u32,
    },
    HostNew {
        host: u32,
    },
    Feed {
        host: u32,
        bytes: usize,
    },
    Pipe {
        reader: u32,
        host: u32,
    },
    Grant {
        host: u32,
        count: u32,
    },
    Drive,
    Event {
        guest: u32,
        handle: u32,
    },
    SetNew {
        guest: u32,
    },
    SetJoin {
        guest: u32,
        set: u32,
        handle: u32,
    },
    SetPoll {
        guest: u32,
        set: u32,
    },
    SetDrop {
        guest: u32,
        set: u32,
    },
    ErrNew {
        guest: u32,
        address: u32,
        len: u32,
    },
    ErrText {
        guest: u32,
        handle: u32,
        address: u32,
    },
    ErrMove {
        guest: u32,
        handle: u32,
        to: u32,
    },
    ErrDrop {
        guest: u32,
        handle: u32,
    },
    Poke {
        guest: u32,
        address: u32,
        bytes: usize,
    },
    Dump {
        guest: u32,
        address: u32,
        len: u32,
    },
}

/// A step of one type as one of the other, with the same fields; those with a chunk are written out.
#[macro_export]
macro_rules! same_step {
    ($step:expr, $from:ident => $to:ident, $($with_chunk:tt)*) => {
        match $step {
            $from::Guest { size } => $to::Guest { size },
            $from::New { guest, ty } => $to::New { guest, ty },
            $from::Between { writer, reader, ty } => $to::Between { writer, reader, ty },
            $from::Write { guest, ty, handle, address, count } => $to::Write { guest, ty, handle, address, count },
            $from::Read { guest, ty, handle, address, count } => $to::Read { guest, ty, handle, address, count },
            $from::DropWrite { guest, ty, handle } => $to::DropWrite { guest, ty, handle },
            $from::DropRead { guest, ty, handle } => $to::DropRead { guest, ty, handle },
            $from::CancelWrite { guest, ty, handle } => $to::CancelWrite { guest, ty, handle },
            $from::CancelRead { guest, ty, handle } => $to::CancelRead { guest, ty, handle },
            $from::Move { guest, ty, handle, to } => $to::Move { guest, ty, handle, to },
            $from::Lift { guest, ty, handle } => $to::Lift { guest, ty, handle },
            $from::Lower { reader, guest, ty } => $to::Lower { reader, guest, ty },
            $from::Close { reader } => $to::Close { reader },
            $from::HostNew { host } => $to::HostNew { host },
            $from::Pipe { reader, host } => $to::Pipe { reader, host },
            $from::Grant { host, count } => $to::Grant { host, count },
            $from::Drive => $to::Drive,
            $from::Event { guest, handle } => $to::Event { guest, handle },
            $from::SetNew { guest } => $to::SetNew { guest },
            $from::SetJoin { guest, set, handle } => $to::SetJoin { guest, set, handle },
            $from::SetPoll { guest, set } => $to::SetPoll { guest, set },
            $from::SetDrop { guest, set } => $to::SetDrop { guest, set },
            $from::ErrNew { guest, address, len } => $to::ErrNew { guest, address, len },
            $from::ErrText { guest, handle, address } => $to::ErrText { guest, handle, address },
            $from::ErrMove { guest, handle, to } => $to::ErrMove { guest, handle, to },
            $from::ErrDrop { guest, handle } => $to::ErrDrop { guest, handle },
            $from::Dump { guest, address, len } => $to::Dump { guest, address, len },
            $($with_chunk)*
        }
    };
}

//! A step, seen by what it does: below this view nothing looks at the kinds of steps.
//!
//! Ours. Steps come in pairs, one for each end of a stream, and in groups that name the same things.

ghost use Rattle.std.specs.Prelude.{◌≡◌};
ghost use Rattle.strm_machine.specs.Acts.{act_of, end_named_by};
ghost use Rattle.strm_machine.specs.declared.acts.Act.TheVariants.{Make, OnEnd, OnLoose, OnSet, OnContext};
ghost use Rattle.strm_machine.specs.declared.acts.Making.TheVariants.{Between};
ghost use Rattle.strm_machine.specs.declared.streams.Side.TheVariants.{Writing, Reading};

use crate::chunks::Chunk;
use crate::steps::Step;
use crate::streams::Side;
use strm_codes::codes::TransmitIndex;

/// The end that a step names: a guest's handle for an end of a type.
#[derive(Clone, Copy)]
pub struct NamedEnd {
    pub guest: u32,
    pub ty: TransmitIndex,
    pub handle: u32,
}

/// What is made.
#[derive(Clone, Copy)]
pub enum Making {
    /// A guest with a memory of so many zero bytes.
    Guest {
        size: u32,
    },
    /// A stream or future from one guest to another, which may be the same.
    Between {
        writer: u32,
        reader: u32,
        ty: TransmitIndex,
    },
    /// A waitable set of a guest, without members.
    Set {
        guest: u32,
    },
    /// An error context of a guest, whose message is so many bytes of its memory from `address` on.
    Context {
        guest: u32,
        address: u32,
        len: u32,
    },
}

/// What is done to the end that is named.
#[derive(Clone, Copy)]
pub enum EndAct {
    /// It reads or writes so many items, from `address` on in its guest's memory; a future's count
    /// is not looked at.
    Operate { address: u32, count: u32 },
    /// It is dropped.
    Drop,
    /// Its read or write is cancelled.
    Cancel,
    /// It leaves its guest, and is loose.
    Lift,
}

/// What is done to the loose read end of a stream.
#[derive(Clone, Copy)]
pub enum LooseAct {
    /// It comes into a guest, as one of this type.
    Lower { guest: u32, ty: TransmitIndex },
    /// It is dropped.
    Close,
}

/// What is done to a host end: to a host writer in the first two, else to a host reader.
#[derive(Clone, Copy)]
pub enum HostAct {
    /// It becomes the write end of a stream of its kind and payload, whose read end is loose.
    New,
    /// Bytes from outside are passed on to it; none where no more will come.
    Feed { bytes: Chunk },
    /// It becomes the read end of the stream of this number, whose read end is loose.
    Pipe { reader: u32 },
    /// It may take so many items more; none where it is to end.
    Grant { count: u32 },
}

/// What is done to a waitable set.
#[derive(Clone, Copy)]
pub enum SetAct {
    /// The end that a handle names joins it; of set 0, it leaves the set that it is in.
    Join { handle: u32 },
    /// Its least member that has a report is told that.
    Poll,
    /// It is dropped.
    Drop,
}

/// What is done to the error context that a handle names, or to the handle.
#[derive(Clone, Copy)]
pub enum ContextAct {
    /// Its message is put into the guest's memory, from `address` on.
    Text { address: u32 },
    /// Another guest, or the same, gets a handle to it; the guest keeps its own.
    Move { to: u32 },
    /// The handle is dropped, and the error context with its last one.
    Drop,
}

/// What is done to the bytes of a guest's memory, from `address` on.
#[derive(Clone, Copy)]
pub enum MemoryAct {
    /// They are put there.
    Poke { address: u32, bytes: Chunk },
    /// They are read, at most 64.
    Dump { address: u32, len: u32 },
}

/// What a step does.
#[derive(Clone, Copy)]
pub enum Act {
    /// It makes a guest, a stream, a set or an error context.
    Make {
        making: Making,
    },
    /// It does something to the end on a side of a stream, which a guest's handle names.
    OnEnd {
        side: Side,
        end: NamedEnd,
        act: EndAct,
    },
    /// The end that a guest's handle names, whichever of the two it is, goes to another guest, or to the
    /// same under a new handle.
    Transfer {
        end: NamedEnd,
        to: u32,
    },
    /// It does something to the loose read end of a stream, by the stream's number.
    OnLoose {
        reader: u32,
        act: LooseAct,
    },
    /// It does something to the host end of a number.
    OnHost {
        host: u32,
        act: HostAct,
    },
    /// It gives each host end that has something to do its turn.
    Drive,
    /// It asks what the end that a handle names is to be told, whatever its type.
    Event {
        guest: u32,
        handle: u32,
    },
    /// It does something to the waitable set that a guest's handle names.
    OnSet {
        guest: u32,
        set: u32,
        act: SetAct,
    },
    /// It does something to the error context that a guest's handle names.
    OnContext {
        guest: u32,
        handle: u32,
        act: ContextAct,
    },
    /// It does something to a guest's memory alone.
    OnMemory {
        guest: u32,
        act: MemoryAct,
    },
}

impl Act {
    /// What a step does.
    #[inline(always)]
    pub fn of(step: &Step) -> Act
        ensures { result ≡ act_of step.now }
    {
        match *step {
            Step::Guest { size } => make(Making::Guest { size }),
            Step::New { guest, ty } => make_between(guest, guest, ty),
            Step::Between { writer, reader, ty } => make_between(writer, reader, ty),
            Step::Write {
                guest,
                ty,
                handle,
                address,
                count,
            } => on_writer(guest, ty, handle, EndAct::Operate { address, count }),
            Step::Read {
                guest,
                ty,
                handle,
                address,
                count,
            } => on_reader(guest, ty, handle, EndAct::Operate { address, count }),
            Step::DropWrite { guest, ty, handle } => on_writer(guest, ty, handle, EndAct::Drop),
            Step::DropRead { guest, ty, handle } => on_reader(guest, ty, handle, EndAct::Drop),
            Step::CancelWrite { guest, ty, handle } => on_writer(guest, ty, handle, EndAct::Cancel),
            Step::CancelRead { guest, ty, handle } => on_reader(guest, ty, handle, EndAct::Cancel),
            Step::Move {
                guest,
                ty,
                handle,
                to,
            } => Act::Transfer {
                end: NamedEnd { guest, ty, handle },
                to,
            },
            Step::Lift { guest, ty, handle } => on_reader(guest, ty, handle, EndAct::Lift),
            Step::Lower { reader, guest, ty } => on_loose(reader, LooseAct::Lower { guest, ty }),
            Step::Close { reader } => on_loose(reader, LooseAct::Close),
            Step::HostNew { host } => Act::OnHost {
                host,
                act: HostAct::New,
            },
            Step::Feed { host, bytes } => Act::OnHost {
                host,
                act: HostAct::Feed { bytes },
            },
            Step::Pipe { reader, host } => Act::OnHost {
                host,
                act: HostAct::Pipe { reader },
            },
            Step::Grant { host, count } => Act::OnHost {
                host,
                act: HostAct::Grant { count },
            },
            Step::Drive => Act::Drive,
            Step::Event { guest, handle } => Act::Event { guest, handle },
            Step::SetNew { guest } => make(Making::Set { guest }),
            Step::SetJoin { guest, set, handle } => on_set(guest, set, SetAct::Join { handle }),
            Step::SetPoll { guest, set } => on_set(guest, set, SetAct::Poll),
            Step::SetDrop { guest, set } => on_set(guest, set, SetAct::Drop),
            Step::ErrNew {
                guest,
                address,
                len,
            } => make(Making::Context {
                guest,
                address,
                len,
            }),
            Step::ErrText {
                guest,
                handle,
                address,
            } => on_context(guest, handle, ContextAct::Text { address }),
            Step::ErrMove { guest, handle, to } => on_context(
                guest,
                handle,
                ContextAct::Move { to },
            ),
            Step::ErrDrop { guest, handle } => on_context(guest, handle, ContextAct::Drop),
            Step::Poke {
                guest,
                address,
                bytes,
            } => Act::OnMemory {
                guest,
                act: MemoryAct::Poke { address, bytes },
            },
            Step::Dump {
                guest,
                address,
                len,
            } => Act::OnMemory {
                guest,
                act: MemoryAct::Dump { address, len },
            },
        }
    }
}

#[inline(always)]
fn make(making: Making) -> Act
    ensures { result ≡ Make making }
{
    Act::Make { making }
}

#[inline(always)]
fn make_between(writer: u32, reader: u32, ty: TransmitIndex) -> Act
    ensures { result ≡ Make (Between writer reader ty) }
{
    make(Making::Between { writer, reader, ty })
}

#[inline(always)]
fn on_writer(guest: u32, ty: TransmitIndex, handle: u32, act: EndAct) -> Act
    ensures { result ≡ OnEnd Writing (end_named_by guest ty handle) act }
{
    Act::OnEnd {
        side: Side::Writing,
        end: NamedEnd { guest, ty, handle },
        act,
    }
}

#[inline(always)]
fn on_reader(guest: u32, ty: TransmitIndex, handle: u32, act: EndAct) -> Act
    ensures { result ≡ OnEnd Reading (end_named_by guest ty handle) act }
{
    Act::OnEnd {
        side: Side::Reading,
        end: NamedEnd { guest, ty, handle },
        act,
    }
}

#[inline(always)]
fn on_loose(reader: u32, act: LooseAct) -> Act
    ensures { result ≡ OnLoose reader act }
{
    Act::OnLoose { reader, act }
}

#[inline(always)]
fn on_set(guest: u32, set: u32, act: SetAct) -> Act
    ensures { result ≡ OnSet guest set act }
{
    Act::OnSet { guest, set, act }
}

#[inline(always)]
fn on_context(guest: u32, handle: u32, act: ContextAct) -> Act
    ensures { result ≡ OnContext guest handle act }
{
    Act::OnContext { guest, handle, act }
}

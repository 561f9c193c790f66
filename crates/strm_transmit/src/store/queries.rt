//! What is asked of a guest's handles: what one is of, which one is next, and how many there are; and which guest
//! has one that is to be told something.
//!
//! Meaning: `Queries.antt` and `ReadyGuests.antt`. Source: Canonical ABI, "Table State"; wasmtime, `handle_table.rs`,
//! `HandleTable`. Ours: the calls. They change no guest and no stream, and a store that was trapped answers them
//! as any other. They take no memory, but for `next_ready_guest` at its first call.

ghost use Rattle.std.specs.Prelude.{◌≡◌, ◌<◌, length, IfOk, Some, is_some, option_copied};
ghost use Rattle.strm_handles.specs.Handles.{entry_at};
ghost use Rattle.strm_machine.specs.State.{guest_in};
ghost use Rattle.strm_machine.specs.Soundness.{types_of, EntryIsNamed};
ghost use Rattle.strm_transmit.specs.ReadyGuests.{next_ready_guest};
ghost use Rattle.strm_transmit.specs.Queries.{end_told, told_of, handle_told, handle_answer, next_above, handle_with_told, next_handle_answer, count_answer};

use crate::store::refusals::side_of;
use crate::store::{Store, type_with};
use std::alloc::AllocError;
use strm_channels::sides::opposite;
use strm_codes::codes::{ReturnCode, TransmitIndex};
use strm_codes::refusals::Refusal;
use strm_handles::entries::{Entry, TransmitEnd};
use strm_handles::tables::HandleTable;
use strm_machine::streams::{Owner, Side};

/// What a handle of a guest is of.
#[derive(Clone, Copy)]
pub enum Handle {
    /// An end of a stream or future.
    End(EndInfo),
    WaitableSet,
    ErrorContext,
    /// A resource or a subtask, of which no call of a store makes one.
    Other,
}

/// What is told of an end.
#[derive(Clone, Copy)]
pub struct EndInfo {
    /// The type of its stream or future.
    pub ty: TransmitIndex,
    pub side: Side,
    /// The number of its stream or future.
    pub stream: u32,
    /// What it is to be told, if anything. It stays until `take_event` or `set_poll` takes it.
    pub event: Option<ReturnCode>,
    /// Who has the other end.
    pub other: Owner,
}

// Whether a number of a table stands for something.
fn is_there(table: &HandleTable, number: u32) -> bool
    ensures { result ≡ is_some (entry_at table.now.handles number) }
{
    match table.entry(number) {
        Some(_) => true,
        None => false,
    }
}

// The least number of a table above another that stands for something. From handle to handle it goes
// over a table once.
fn next_above(table: &HandleTable, after: u32) -> Option<u32>
    ensures { result ≡ next_above table.now.handles after }
{
    for index in after..table.last() {
        if is_there(table, index + 1) {
            return Some(index + 1);
        }
    }
    None
}

impl Store {
    // What a number of a guest's table stands for; the stream of an end was made.
    pub(crate) fn entry(&self, guest: u32, number: u32) -> Option<&Entry>
        requires { guest < length self.now.guests }
        ensures exact { option_copied result
            ≡ entry_at (guest_in self.now.guests guest).handles number }
        ensures named { EntryIsNamed (types_of self.now.streams) (option_copied result) }
    {
        self.guests[guest as usize].table.entry(number)
    }

    // What is told of an end, by what a guest's table keeps of it.
    fn end_told(&self, end: &TransmitEnd) -> EndInfo
        requires { end.now.rep < length self.now.streams }
        ensures { result ≡ end_told self.now end.now }
    {
        let (stream, side) = (self.stream(end.rep), side_of(end.state));
        EndInfo {
            ty: type_with(stream.kind(), stream.payload()),
            side,
            stream: end.rep,
            event: stream.report(side),
            other: stream.owner(opposite(side)),
        }
    }

    // What is told of what a handle stands for.
    fn told_of(&self, entry: &Entry) -> Handle
        requires { EntryIsNamed (types_of self.now.streams) (Some entry.now) }
        ensures { result ≡ told_of self.now entry.now }
    {
        match entry {
            Entry::Stream(end) => Handle::End(self.end_told(end)),
            Entry::Future(end) => Handle::End(self.end_told(end)),
            Entry::WaitableSet { .. } => Handle::WaitableSet,
            Entry::ErrorContext { .. } => Handle::ErrorContext,
            _ => Handle::Other,
        }
    }

    // What is told of a handle of a guest, if it stands for anything.
    fn handle_told(&self, guest: u32, number: u32) -> Option<Handle>
        requires { guest < length self.now.guests }
        ensures { result ≡ handle_told self.now guest number }
    {
        match self.entry(guest, number) {
            Some(entry) => Some(self.told_of(entry)),
            None => None,
        }
    }

    // The same with the handle.
    fn with_told(&self, guest: u32, number: u32) -> Option<(u32, Handle)>
        requires { guest < length self.now.guests }
        ensures { result ≡ handle_with_told self.now guest (Some number) }
    {
        match self.handle_told(guest, number) {
            Some(told) => Some((number, told)),
            None => None,
        }
    }

    /// What a handle of a guest is of, and of an end its type and side, its stream, what it is to be told,
    /// and who has the other end. Nothing is taken. A trapped store answers too. Refused: UnknownGuest,
    /// UnknownHandle.
    pub fn handle(&self, guest: u32, handle: u32) -> Result<Handle, Refusal>
        ensures exact { result ≡ handle_answer self.now guest handle }
    {
        if self.is_unknown_guest(guest) {
            return Err(Refusal::UnknownGuest);
        }
        match self.handle_told(guest, handle) {
            Some(told) => Ok(told),
            None => Err(Refusal::UnknownHandle),
        }
    }

    /// The least handle of a guest above a number, and what it is of; none where no handle is above it.
    /// From 0 on, and then from each handle that it answers, it tells all of them, and goes over the
    /// guest's table once. A trapped store answers too. Refused: UnknownGuest.
    pub fn next_handle(&self, guest: u32, after: u32) -> Result<Option<(u32, Handle)>, Refusal>
        ensures exact { result ≡ next_handle_answer self.now guest after }
    {
        if self.is_unknown_guest(guest) {
            return Err(Refusal::UnknownGuest);
        }
        match next_above(&self.guests[guest as usize].table, after) {
            Some(number) => Ok(self.with_told(guest, number)),
            None => Ok(None),
        }
    }

    /// How many handles a guest has. It looks at none of them. A trapped store answers too. Refused:
    /// UnknownGuest.
    pub fn handle_count(&self, guest: u32) -> Result<u32, Refusal>
        ensures exact { result ≡ count_answer self.now guest }
    {
        if self.is_unknown_guest(guest) {
            return Err(Refusal::UnknownGuest);
        }
        Ok(self.guests[guest as usize].table.len())
    }

    /// The least guest, of those from a number on, that has an end which is to be told something; none where
    /// there is none. It is told as long as that is so, whoever asked before. No guest is looked at in vain:
    /// of 1,048,576 guests 11 words are at most. A trapped store answers too.
    ///
    /// The first call counts the ends of all streams, and takes memory for one number a guest and for which guests
    /// each stream is counted; where there is none it answers so, and the next call begins anew. From then on a
    /// call that changes a stream lists it, and the next call of this one counts again what is listed, each stream
    /// once. Who never asks pays nothing.
    pub fn next_ready_guest(&mut self, from: u32) -> Result<Option<u32>, AllocError>
        ensures exact { IfOk result (λ guest. guest ≡ next_ready_guest self.old from) }
        ensures same { self.new ≡ self.old }
    {
        self.ready.count(&self.guests, &self.streams, self.alloc)?;
        Ok(self.ready.next_guest(from))
    }
}

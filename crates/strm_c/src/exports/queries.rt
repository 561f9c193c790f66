//! What is asked of a guest's handles.
//!
//! Source: Canonical ABI, "Table State". Ours: the calls.

ghost use Rattle.std.specs.Prelude.{◌≡◌, None, IfSome};
ghost use Rattle.strm_transmit.specs.Queries.{handle_answer, next_handle_answer, count_answer};
ghost use Rattle.strm_c.specs.Queries.{side_word, owner_word, guest_word, handle_word, bare_handle, end_handle, told_handle, maybe_handle, answer_handle, answer_next, answer_count};
ghost use Rattle.strm_c.specs.Statuses.{event_word, no_store, found_status};

use crate::handles::StoreHandle;
use crate::payloads::type_word;
use crate::statuses::{NO_EVENT, NO_STORE, Status};
use strm_codes::codes::ReturnCode;
use strm_codes::refusals::Refusal;
use strm_machine::streams::{Owner, Side};
use strm_transmit::{EndInfo, Handle};

/// The handle is of an end of a stream or future.
pub const KIND_END: u32 = 1;

/// The handle is of a waitable set.
pub const KIND_WAITABLE_SET: u32 = 2;

/// The handle is of an error context.
pub const KIND_ERROR_CONTEXT: u32 = 3;

/// The handle is of something that no call makes.
pub const KIND_OTHER: u32 = 4;

/// The end is the write end.
pub const SIDE_WRITING: u32 = 1;

/// The end is the read end.
pub const SIDE_READING: u32 = 2;

/// A guest has the other end.
pub const OTHER_GUEST: u32 = 1;

/// The other end is loose: it was lifted, and not lowered since.
pub const OTHER_LOOSE: u32 = 2;

/// The other end is gone: it was dropped or closed.
pub const OTHER_GONE: u32 = 3;

// A host end has the other end. It can't: there is none.
const OTHER_HOST: u32 = 4;

/// A handle of a guest, and what it is of. What is not told is 0, and an event STRM_NO_EVENT.
#[repr(C)]
#[derive(Drop)]
pub struct StrmHandle {
    /// Of an end, the type of its stream or future.
    pub ty: u64,
    /// The handle's number; 0 where there is none.
    pub handle: u32,
    /// What it is of, by its kind; 0 where there is no handle.
    pub kind: u32,
    /// Of an end, which of the two it is.
    pub side: u32,
    /// Of an end, the number of its stream or future.
    pub stream: u32,
    /// Of an end, the code that it is to be told, and still is; else STRM_NO_EVENT.
    pub event: u32,
    /// Of an end, who has the other one.
    pub other: u32,
    /// The guest that has the other end, if one has.
    pub other_guest: u32,
    /// The handle under which that guest has it.
    pub other_handle: u32,
}

/// Puts at `out` what a handle of a guest is of, and of an end all that a runtime asks of it. Nothing is
/// taken of what it is to be told. Refused: UnknownGuest, UnknownHandle.
#[unsafe(no_mangle)]
pub extern "C" fn strm_handle_info(
    store: &mut StoreHandle,
    guest: u32,
    handle: u32,
    out: &mut StrmHandle,
) -> Status
    ensures status { IfSome store.old.state (λ s.
        result ≡ found_status (handle_answer s guest handle)) }
    ensures told { IfSome store.old.state (λ s.
        out.new ≡ answer_handle handle (handle_answer s guest handle) out.old) }
    ensures none { store.old.state ≡ None → (result ≡ no_store) × (out.new ≡ out.old) }
    ensures same { store.new.state ≡ store.old.state }
    ensures limits { store.new.limits ≡ store.old.limits }
{
    let Some(store) = store.get_mut() else {
        return NO_STORE;
    };
    told(handle, store.handle(guest, handle), out)
}

/// Puts at `out` the least handle of a guest above `after`, and what it is of, as strm_handle_info does; where
/// no handle is above it, its number and kind are 0. From 0 on, and then from each handle, it tells all of them,
/// and goes over the guest's table once. Refused: UnknownGuest.
#[unsafe(no_mangle)]
pub extern "C" fn strm_next_handle(
    store: &mut StoreHandle,
    guest: u32,
    after: u32,
    out: &mut StrmHandle,
) -> Status
    ensures status { IfSome store.old.state (λ s.
        result ≡ found_status (next_handle_answer s guest after)) }
    ensures told { IfSome store.old.state (λ s.
        out.new ≡ answer_next (next_handle_answer s guest after) out.old) }
    ensures none { store.old.state ≡ None → (result ≡ no_store) × (out.new ≡ out.old) }
    ensures same { store.new.state ≡ store.old.state }
    ensures limits { store.new.limits ≡ store.old.limits }
{
    let Some(store) = store.get_mut() else {
        return NO_STORE;
    };
    next(store.next_handle(guest, after), out)
}

/// Puts at `out` how many handles a guest has, and looks at none of them. Refused: UnknownGuest.
#[unsafe(no_mangle)]
pub extern "C" fn strm_handle_count(store: &mut StoreHandle, guest: u32, out: &mut u32) -> Status
    ensures status { IfSome store.old.state (λ s. result ≡ found_status (count_answer s guest)) }
    ensures count { IfSome store.old.state (λ s.
        out.new ≡ answer_count (count_answer s guest) out.old) }
    ensures none { store.old.state ≡ None → (result ≡ no_store) × (out.new ≡ out.old) }
    ensures same { store.new.state ≡ store.old.state }
    ensures limits { store.new.limits ≡ store.old.limits }
{
    let Some(store) = store.get_mut() else {
        return NO_STORE;
    };
    count(store.handle_count(guest), out)
}

// The word of a side.
fn side_word(side: Side) -> u32
    ensures { result ≡ side_word side }
{
    match side {
        Side::Writing => SIDE_WRITING,
        Side::Reading => SIDE_READING,
    }
}

// What an end is to be told, as a word.
fn event_word(event: Option<ReturnCode>) -> u32
    ensures { result ≡ event_word event }
{
    match event {
        Some(code) => code.encode(),
        None => NO_EVENT,
    }
}

// The words of who has an end: who, the guest, and its handle there.
fn owner_words(owner: Owner) -> (u32, u32, u32)
    ensures { result ≡ (owner_word owner, guest_word owner, handle_word owner) }
{
    match owner {
        Owner::Held { guest, handle } => (OTHER_GUEST, guest, handle),
        Owner::Loose => (OTHER_LOOSE, 0, 0),
        Owner::Gone => (OTHER_GONE, 0, 0),
        Owner::Host { .. } => (OTHER_HOST, 0, 0),
    }
}

// A handle of which no more is told than its kind.
fn bare(handle: u32, kind: u32) -> StrmHandle
    ensures { result ≡ bare_handle handle kind }
{
    StrmHandle {
        ty: 0,
        handle,
        kind,
        side: 0,
        stream: 0,
        event: NO_EVENT,
        other: 0,
        other_guest: 0,
        other_handle: 0,
    }
}

// The handle of an end.
fn of_end(handle: u32, end: &EndInfo) -> StrmHandle
    ensures { result ≡ end_handle handle end.now }
{
    let (other, other_guest, other_handle) = owner_words(end.other);
    StrmHandle {
        ty: type_word(&end.ty),
        handle,
        kind: KIND_END,
        side: side_word(end.side),
        stream: end.stream,
        event: event_word(end.event),
        other,
        other_guest,
        other_handle,
    }
}

// A handle, with what is told of it.
fn with_told(handle: u32, told: &Handle) -> StrmHandle
    ensures { result ≡ told_handle handle told.now }
{
    match told {
        Handle::End(end) => of_end(handle, end),
        Handle::WaitableSet => bare(handle, KIND_WAITABLE_SET),
        Handle::ErrorContext => bare(handle, KIND_ERROR_CONTEXT),
        Handle::Other => bare(handle, KIND_OTHER),
    }
}

// What is told of a handle, put at `out`.
fn told(handle: u32, answer: Result<Handle, Refusal>, out: &mut StrmHandle) -> Status
    ensures status { result ≡ found_status answer }
    ensures told { out.new ≡ answer_handle handle answer out.old }
{
    match answer {
        Ok(told) => {
            *out = with_told(handle, &told);
            0
        }
        Err(refusal) => u32::from(refusal.number()),
    }
}

// A handle, if there is one, with what is told of it.
fn maybe(next: &Option<(u32, Handle)>) -> StrmHandle
    ensures { result ≡ maybe_handle next.now }
{
    match next {
        Some((handle, told)) => with_told(*handle, told),
        None => bare(0, 0),
    }
}

// The next handle, put at `out`.
fn next(answer: Result<Option<(u32, Handle)>, Refusal>, out: &mut StrmHandle) -> Status
    ensures status { result ≡ found_status answer }
    ensures told { out.new ≡ answer_next answer out.old }
{
    match answer {
        Ok(next) => {
            *out = maybe(&next);
            0
        }
        Err(refusal) => u32::from(refusal.number()),
    }
}

// A count, put at `out`.
fn count(answer: Result<u32, Refusal>, out: &mut u32) -> Status
    ensures status { result ≡ found_status answer }
    ensures count { out.new ≡ answer_count answer out.old }
{
    match answer {
        Ok(count) => {
            *out = count;
            0
        }
        Err(refusal) => u32::from(refusal.number()),
    }
}

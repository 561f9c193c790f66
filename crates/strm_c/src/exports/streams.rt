//! Streams.
//!
//! Source: Canonical ABI, `canon stream.new` and the others.

ghost use Rattle.std.specs.Prelude.{◌≡◌, ◌≢◌};
ghost use Rattle.strm_codes.specs.declared.codes.TransmitIndex.TheVariants as index;
ghost use Rattle.strm_machine.specs.Reactions.{react};
ghost use Rattle.strm_machine.specs.declared.steps.Step.TheVariants as steps;
ghost use Rattle.strm_places.specs.Again.{reacts_at};
ghost use Rattle.strm_guest_store.specs.Limits.{is_past};
ghost use Rattle.strm_guest_store.specs.declared.guest_limits.Gain.TheVariants.{Ends};
ghost use Rattle.strm_c.specs.Limits.{WithinLimits, is_past_of};
ghost use Rattle.strm_c.specs.Making.{AnswersMaking};
ghost use Rattle.strm_c.specs.Named.{AnswersNamed, AnswersOperation};
ghost use Rattle.strm_c.specs.Payloads.{payload_at};
ghost use Rattle.strm_c.specs.Statuses.{AnswersCall};

use crate::exports::pairs::{StrmPair, pair};
use crate::handles::StoreHandle;
use crate::payloads::{number_payload_at, payload_at};
use crate::statuses::{
    GUEST_LIMIT, NO_STORE, Status, UNKNOWN_PAYLOAD, code, done, event, operated,
};

/// Makes a stream whose two ends the guest gets, and puts their handles and the stream's number at `out`,
/// which may be that of a stream both of whose ends are gone. `canon stream.new`. Refused: UnknownGuest,
/// IndexOverflow, HandleLimit, Full. GUEST_LIMIT, OUT_OF_MEMORY, UNKNOWN_PAYLOAD.
#[tactic(auto, using(crate::proofs::MakingLemmas::is_made))]
#[unsafe(no_mangle)]
pub extern "C" fn strm_stream_new(
    store: &mut StoreHandle,
    guest: u32,
    payload: u64,
    out: &mut StrmPair,
) -> Status
    ensures answers { WithinLimits store.old store.new
        (is_past_of store.old (payload_at payload) (λ s limits. is_past s limits guest (Ends 2)))
        result 0 0
        (AnswersMaking store.old.state (payload_at payload)
        (λ n s payload. reacts_at n s (steps.New guest (index.Stream payload)))
        result out.old out.new store.new.state) }
    ensures kept { result ≢ 0 → out.new ≡ out.old }
{
    let Some(store) = store.limited_mut() else {
        return NO_STORE;
    };
    let Some(payload) = payload_at(payload) else {
        return UNKNOWN_PAYLOAD;
    };
    let Ok(answer) = store.stream_new(guest, payload) else {
        return GUEST_LIMIT;
    };
    pair(answer, out)
}

/// Writes `count` items that lie from `address` of the guest's memory on, and puts the code at `out`. A
/// write that waits (STRM_BLOCKED) leaves its items where they are until they move. `canon stream.write`.
/// Refused: UnknownGuest, StreamOpTooBig, OutOfBounds, NotAligned, UnknownHandle, WrongKind, WrongType,
/// ConcurrentFutureStreamOp, WriteToDroppedStream, IntraComponent. BAD_ITEM, UNKNOWN_PAYLOAD.
#[tactic(auto, using(crate::proofs::OperateLemmas::is_operated))]
#[unsafe(no_mangle)]
pub extern "C" fn strm_stream_write(
    store: &mut StoreHandle,
    guest: u32,
    payload: u64,
    handle: u32,
    address: u32,
    count: u32,
    out: &mut u32,
) -> Status
    ensures answers { AnswersOperation store.old store.new payload
        (λ payload. steps.Write guest (index.Stream payload) handle address count)
        result out.old out.new }
    ensures limits { store.new.limits ≡ store.old.limits }
{
    let Some(payload) = number_payload_at(payload) else {
        return write_apart(store, guest, payload, handle, address, count, out);
    };
    let Some(store) = store.get_mut() else {
        return NO_STORE;
    };
    let answer = store.stream_write(guest, payload, handle, address, count);
    operated(answer, out)
}

// The same of any word, apart from the code for numbers.
#[tactic(auto, using(crate::proofs::OperateLemmas::is_operated))]
#[cold]
#[inline(never)]
fn write_apart(
    store: &mut StoreHandle,
    guest: u32,
    payload: u64,
    handle: u32,
    address: u32,
    count: u32,
    out: &mut u32,
) -> Status
    ensures answers { AnswersOperation store.old store.new payload
        (λ payload. steps.Write guest (index.Stream payload) handle address count)
        result out.old out.new }
    ensures limits { store.new.limits ≡ store.old.limits }
{
    let Some(store) = store.get_mut() else {
        return NO_STORE;
    };
    let Some(payload) = payload_at(payload) else {
        return UNKNOWN_PAYLOAD;
    };
    let answer = store.stream_write(guest, payload, handle, address, count);
    operated(answer, out)
}

/// Reads `count` items to `address` of the guest's memory on, and puts the code at `out`.
/// `canon stream.read`. Refused: UnknownGuest, StreamOpTooBig, OutOfBounds, NotAligned, UnknownHandle,
/// WrongKind, WrongType, ConcurrentFutureStreamOp, ReadFromDroppedStream, IntraComponent. BAD_ITEM,
/// UNKNOWN_PAYLOAD.
#[tactic(auto, using(crate::proofs::OperateLemmas::is_operated))]
#[unsafe(no_mangle)]
pub extern "C" fn strm_stream_read(
    store: &mut StoreHandle,
    guest: u32,
    payload: u64,
    handle: u32,
    address: u32,
    count: u32,
    out: &mut u32,
) -> Status
    ensures answers { AnswersOperation store.old store.new payload
        (λ payload. steps.Read guest (index.Stream payload) handle address count)
        result out.old out.new }
    ensures limits { store.new.limits ≡ store.old.limits }
{
    let Some(payload) = number_payload_at(payload) else {
        return read_apart(store, guest, payload, handle, address, count, out);
    };
    let Some(store) = store.get_mut() else {
        return NO_STORE;
    };
    let answer = store.stream_read(guest, payload, handle, address, count);
    operated(answer, out)
}

// The same of any word, apart from the code for numbers.
#[tactic(auto, using(crate::proofs::OperateLemmas::is_operated))]
#[cold]
#[inline(never)]
fn read_apart(
    store: &mut StoreHandle,
    guest: u32,
    payload: u64,
    handle: u32,
    address: u32,
    count: u32,
    out: &mut u32,
) -> Status
    ensures answers { AnswersOperation store.old store.new payload
        (λ payload. steps.Read guest (index.Stream payload) handle address count)
        result out.old out.new }
    ensures limits { store.new.limits ≡ store.old.limits }
{
    let Some(store) = store.get_mut() else {
        return NO_STORE;
    };
    let Some(payload) = payload_at(payload) else {
        return UNKNOWN_PAYLOAD;
    };
    let answer = store.stream_read(guest, payload, handle, address, count);
    operated(answer, out)
}

/// Cancels the write that waits, and puts the code at `out`. `canon stream.cancel-write`. Refused: UnknownGuest,
/// UnknownHandle, WrongKind, WrongType, WrongEnd, NoPending. UNKNOWN_PAYLOAD.
#[unsafe(no_mangle)]
pub extern "C" fn strm_stream_cancel_write(
    store: &mut StoreHandle,
    guest: u32,
    payload: u64,
    handle: u32,
    out: &mut u32,
) -> Status
    ensures answers { AnswersNamed store.old store.new payload
        (λ payload. steps.CancelWrite guest (index.Stream payload) handle)
        result out.old out.new }
    ensures limits { store.new.limits ≡ store.old.limits }
{
    let Some(store) = store.get_mut() else {
        return NO_STORE;
    };
    let Some(payload) = payload_at(payload) else {
        return UNKNOWN_PAYLOAD;
    };
    code(store.stream_cancel_write(guest, payload, handle), out)
}

/// Cancels the read that waits, and puts the code at `out`. `canon stream.cancel-read`. Refused: UnknownGuest,
/// UnknownHandle, WrongKind, WrongType, WrongEnd, NoPending. UNKNOWN_PAYLOAD.
#[unsafe(no_mangle)]
pub extern "C" fn strm_stream_cancel_read(
    store: &mut StoreHandle,
    guest: u32,
    payload: u64,
    handle: u32,
    out: &mut u32,
) -> Status
    ensures answers { AnswersNamed store.old store.new payload
        (λ payload. steps.CancelRead guest (index.Stream payload) handle)
        result out.old out.new }
    ensures limits { store.new.limits ≡ store.old.limits }
{
    let Some(store) = store.get_mut() else {
        return NO_STORE;
    };
    let Some(payload) = payload_at(payload) else {
        return UNKNOWN_PAYLOAD;
    };
    code(store.stream_cancel_read(guest, payload, handle), out)
}

/// Drops the write end. `canon stream.drop-writable`. Refused: UnknownGuest, UnknownHandle, WrongKind,
/// WrongType, WrongEnd, Busy. UNKNOWN_PAYLOAD.
#[unsafe(no_mangle)]
pub extern "C" fn strm_stream_drop_writable(
    store: &mut StoreHandle,
    guest: u32,
    payload: u64,
    handle: u32,
) -> Status
    ensures answers { AnswersNamed store.old store.new payload
        (λ payload. steps.DropWrite guest (index.Stream payload) handle)
        result 0 0 }
    ensures limits { store.new.limits ≡ store.old.limits }
{
    let Some(store) = store.get_mut() else {
        return NO_STORE;
    };
    let Some(payload) = payload_at(payload) else {
        return UNKNOWN_PAYLOAD;
    };
    done(store.stream_drop_writable(guest, payload, handle))
}

/// Drops the read end. `canon stream.drop-readable`. Refused: UnknownGuest, UnknownHandle, WrongKind,
/// WrongType, WrongEnd, Busy. UNKNOWN_PAYLOAD.
#[unsafe(no_mangle)]
pub extern "C" fn strm_stream_drop_readable(
    store: &mut StoreHandle,
    guest: u32,
    payload: u64,
    handle: u32,
) -> Status
    ensures answers { AnswersNamed store.old store.new payload
        (λ payload. steps.DropRead guest (index.Stream payload) handle)
        result 0 0 }
    ensures limits { store.new.limits ≡ store.old.limits }
{
    let Some(store) = store.get_mut() else {
        return NO_STORE;
    };
    let Some(payload) = payload_at(payload) else {
        return UNKNOWN_PAYLOAD;
    };
    done(store.stream_drop_readable(guest, payload, handle))
}

/// Puts what an end, of a stream or a future, is to be told at `out`: a code, or STRM_NO_EVENT. It ends
/// the read or write that it tells of. Refused: UnknownGuest, UnknownHandle, WrongKind.
#[unsafe(no_mangle)]
pub extern "C" fn strm_take_event(
    store: &mut StoreHandle,
    guest: u32,
    handle: u32,
    out: &mut u32,
) -> Status
    ensures answers { AnswersCall store.old.state (λ s. react s (steps.Event guest handle))
        result out.old out.new store.new.state }
    ensures limits { store.new.limits ≡ store.old.limits }
{
    let Some(store) = store.get_mut() else {
        return NO_STORE;
    };
    event(store.take_event(guest, handle), out)
}

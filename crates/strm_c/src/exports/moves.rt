//! Ends from guest to guest.
//!
//! Source: Canonical ABI, `lift_stream` and `lower_stream`.

ghost use Rattle.std.specs.Prelude.{◌≡◌, ◌≢◌};
ghost use Rattle.strm_codes.specs.declared.codes.TransmitIndex.TheVariants as index;
ghost use Rattle.strm_machine.specs.Reactions.{react};
ghost use Rattle.strm_machine.specs.declared.steps.Step.TheVariants as steps;
ghost use Rattle.strm_guest_store.specs.Limits.{is_past};
ghost use Rattle.strm_guest_store.specs.declared.guest_limits.Gain.TheVariants.{Ends};
ghost use Rattle.strm_c.specs.Limits.{WithinLimits, is_past_of};
ghost use Rattle.strm_c.specs.Making.{AnswersBetween};
ghost use Rattle.strm_c.specs.Named.{AnswersMove};
ghost use Rattle.strm_c.specs.Payloads.{type_at};
ghost use Rattle.strm_c.specs.Statuses.{AnswersCall, AnswersOf, AnswersOfOr, no_memory};

use crate::exports::pairs::{StrmPair, pair};
use crate::handles::StoreHandle;
use crate::payloads::{payload_at, scalar_future_at, scalar_stream_at, type_at};
use crate::statuses::{GUEST_LIMIT, NO_STORE, Status, UNKNOWN_PAYLOAD, done, number};

/// Makes a stream or future from one guest to another, which may be the same, and puts the handles of its
/// ends and its number at `out`, as strm_stream_new does. Refused: UnknownGuest, IndexOverflow, HandleLimit,
/// Full. GUEST_LIMIT, OUT_OF_MEMORY, UNKNOWN_PAYLOAD.
#[tactic(auto, using(crate::proofs::MakingLemmas::is_made))]
#[unsafe(no_mangle)]
pub extern "C" fn strm_new_between(
    store: &mut StoreHandle,
    writer: u32,
    reader: u32,
    ty: u64,
    out: &mut StrmPair,
) -> Status
    ensures answers { AnswersBetween store.old store.new writer reader (type_at ty)
        result out.old out.new }
    ensures kept { result ≢ 0 → out.new ≡ out.old }
{
    let Some(ty) = scalar_stream_at(ty) else {
        return other_between(store, writer, reader, ty, out);
    };
    let Some(store) = store.limited_mut() else {
        return NO_STORE;
    };
    let Ok(answer) = store.new_between(writer, reader, ty) else {
        return GUEST_LIMIT;
    };
    pair(answer, out)
}

// The same of any word, apart from the code for streams of scalars.
#[tactic(auto, using(crate::proofs::MakingLemmas::is_made))]
#[inline(never)]
fn other_between(
    store: &mut StoreHandle,
    writer: u32,
    reader: u32,
    word: u64,
    out: &mut StrmPair,
) -> Status
    ensures answers { AnswersBetween store.old store.new writer reader (type_at word)
        result out.old out.new }
    ensures kept { result ≢ 0 → out.new ≡ out.old }
{
    let Some(ty) = scalar_future_at(word) else {
        return between_apart(store, writer, reader, word, out);
    };
    let Some(store) = store.limited_mut() else {
        return NO_STORE;
    };
    let Ok(answer) = store.new_between(writer, reader, ty) else {
        return GUEST_LIMIT;
    };
    pair(answer, out)
}

// The same of any word, apart from the code for scalars.
#[tactic(auto, using(crate::proofs::MakingLemmas::is_made))]
#[cold]
#[inline(never)]
fn between_apart(
    store: &mut StoreHandle,
    writer: u32,
    reader: u32,
    word: u64,
    out: &mut StrmPair,
) -> Status
    ensures answers { AnswersBetween store.old store.new writer reader (type_at word)
        result out.old out.new }
    ensures kept { result ≢ 0 → out.new ≡ out.old }
{
    let Some(store) = store.limited_mut() else {
        return NO_STORE;
    };
    let Some(ty) = type_at(word) else {
        return UNKNOWN_PAYLOAD;
    };
    let Ok(answer) = store.new_between(writer, reader, ty) else {
        return GUEST_LIMIT;
    };
    pair(answer, out)
}

/// Moves an end of a stream, read or write, to the guest `to`, which may be the same, and puts its handle there
/// at `out`. Refused: UnknownGuest, UnknownHandle, WrongKind, WrongType, Busy, LiftDropped, LiftInSet,
/// IndexOverflow. GUEST_LIMIT, OUT_OF_MEMORY, where the two guests differ; UNKNOWN_PAYLOAD.
#[unsafe(no_mangle)]
pub extern "C" fn strm_stream_transfer(
    store: &mut StoreHandle,
    guest: u32,
    payload: u64,
    handle: u32,
    to: u32,
    out: &mut u32,
) -> Status
    ensures answers { AnswersMove store.old store.new payload guest to
        (λ payload. steps.Move guest (index.Stream payload) handle to)
        result out.old out.new }
    ensures takes_no_memory { guest ≡ to → result ≢ no_memory }
{
    let Some(store) = store.limited_mut() else {
        return NO_STORE;
    };
    let Some(payload) = payload_at(payload) else {
        return UNKNOWN_PAYLOAD;
    };
    let Ok(answer) = store.stream_transfer(guest, payload, handle, to) else {
        return GUEST_LIMIT;
    };
    number(answer, out)
}

/// Moves an end of a future, read or write, to the guest `to`, which may be the same, and puts its handle there
/// at `out`. Refused: UnknownGuest, UnknownHandle, WrongKind, WrongType, Busy, LiftDropped, LiftInSet,
/// IndexOverflow. GUEST_LIMIT, OUT_OF_MEMORY, where the two guests differ; UNKNOWN_PAYLOAD.
#[unsafe(no_mangle)]
pub extern "C" fn strm_future_transfer(
    store: &mut StoreHandle,
    guest: u32,
    payload: u64,
    handle: u32,
    to: u32,
    out: &mut u32,
) -> Status
    ensures answers { AnswersMove store.old store.new payload guest to
        (λ payload. steps.Move guest (index.Future payload) handle to)
        result out.old out.new }
    ensures takes_no_memory { guest ≡ to → result ≢ no_memory }
{
    let Some(store) = store.limited_mut() else {
        return NO_STORE;
    };
    let Some(payload) = payload_at(payload) else {
        return UNKNOWN_PAYLOAD;
    };
    let Ok(answer) = store.future_transfer(guest, payload, handle, to) else {
        return GUEST_LIMIT;
    };
    number(answer, out)
}

/// Takes a read end out of a guest, and puts the number of its stream at `out`, by which strm_lower and
/// strm_close name it: while the end is loose no other stream gets that number. Refused: UnknownGuest,
/// UnknownHandle, WrongKind, WrongType, WrongEnd, Busy, LiftDropped, LiftInSet. UNKNOWN_PAYLOAD.
#[unsafe(no_mangle)]
pub extern "C" fn strm_lift(
    store: &mut StoreHandle,
    guest: u32,
    ty: u64,
    handle: u32,
    out: &mut u32,
) -> Status
    ensures answers { AnswersOf store.old.state (type_at ty)
        (λ s ty. react s (steps.Lift guest ty handle))
        result out.old out.new store.new.state }
    ensures limits { store.new.limits ≡ store.old.limits }
{
    let Some(store) = store.get_mut() else {
        return NO_STORE;
    };
    let Some(ty) = type_at(ty) else {
        return UNKNOWN_PAYLOAD;
    };
    number(store.lift(guest, ty, handle), out)
}

/// Gives a guest the loose read end of a stream, and puts its handle at `out`. Refused: UnknownGuest,
/// UnknownReader, WrongKind, WrongType, IndexOverflow, HandleLimit. GUEST_LIMIT, OUT_OF_MEMORY, UNKNOWN_PAYLOAD.
#[unsafe(no_mangle)]
pub extern "C" fn strm_lower(
    store: &mut StoreHandle,
    reader: u32,
    guest: u32,
    ty: u64,
    out: &mut u32,
) -> Status
    ensures answers { WithinLimits store.old store.new
        (is_past_of store.old (type_at ty) (λ s limits. is_past s limits guest (Ends 1)))
        result out.old out.new
        (AnswersOfOr store.old.state (type_at ty)
        (λ s ty. react s (steps.Lower reader guest ty))
        result out.old out.new store.new.state) }
{
    let Some(store) = store.limited_mut() else {
        return NO_STORE;
    };
    let Some(ty) = type_at(ty) else {
        return UNKNOWN_PAYLOAD;
    };
    let Ok(answer) = store.lower(reader, guest, ty) else {
        return GUEST_LIMIT;
    };
    number(answer, out)
}

/// Drops the loose read end of a stream. Refused: UnknownReader.
#[unsafe(no_mangle)]
pub extern "C" fn strm_close(store: &mut StoreHandle, reader: u32) -> Status
    ensures answers { AnswersCall store.old.state (λ s. react s (steps.Close reader))
        result 0 0 store.new.state }
    ensures limits { store.new.limits ≡ store.old.limits }
{
    let Some(store) = store.get_mut() else {
        return NO_STORE;
    };
    done(store.close(reader))
}

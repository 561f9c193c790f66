//! Error contexts.
//!
//! Source: Canonical ABI, `canon error-context.new` and the others.

ghost use Rattle.std.specs.Prelude.{◌≡◌, None, IfSome};
ghost use Rattle.strm_machine.specs.Reactions.{react, lowers_context};
ghost use Rattle.strm_machine.specs.declared.steps.Step.TheVariants as steps;
ghost use Rattle.strm_guest_store.specs.Limits.{is_past};
ghost use Rattle.strm_guest_store.specs.declared.guest_limits.Gain.TheVariants.{Context};
ghost use Rattle.strm_c.specs.Limits.{WithinLimits, is_past_in};
ghost use Rattle.strm_c.specs.Queries.{context_answer};
ghost use Rattle.strm_c.specs.Statuses.{AnswersCall, AnswersOr, no_store, answer_status, answer_word};

use crate::handles::StoreHandle;
use crate::statuses::{GUEST_LIMIT, NO_STORE, Status, done, number};

/// Makes an error context of `len` bytes from `address` of the guest's memory on, its message, and puts its
/// handle at `out`. `canon error-context.new`. Refused: UnknownGuest, MessageTooLong, OutOfBounds, BadText,
/// IndexOverflow, HandleLimit, Full. GUEST_LIMIT, OUT_OF_MEMORY.
#[unsafe(no_mangle)]
pub extern "C" fn strm_error_context_new(
    store: &mut StoreHandle,
    guest: u32,
    address: u32,
    len: u32,
    out: &mut u32,
) -> Status
    ensures answers { WithinLimits store.old store.new
        (is_past_in store.old (λ s limits. is_past s limits guest Context))
        result out.old out.new
        (AnswersOr store.old.state (λ s. react s (steps.ErrNew guest address len))
        result out.old out.new store.new.state) }
{
    let Some(store) = store.limited_mut() else {
        return NO_STORE;
    };
    let Ok(answer) = store.error_context_new(guest, address, len) else {
        return GUEST_LIMIT;
    };
    number(answer, out)
}

/// Puts the message of an error context at `address` of the guest's memory, and its bytes' number at `out`.
/// `canon error-context.debug-message`. Refused: UnknownGuest, UnknownHandle, WrongKind, OutOfBounds.
#[unsafe(no_mangle)]
pub extern "C" fn strm_error_context_message(
    store: &mut StoreHandle,
    guest: u32,
    handle: u32,
    address: u32,
    out: &mut u32,
) -> Status
    ensures answers { AnswersCall store.old.state
        (λ s. react s (steps.ErrText guest handle address)) result out.old out.new store.new.state }
    ensures limits { store.new.limits ≡ store.old.limits }
{
    let Some(store) = store.get_mut() else {
        return NO_STORE;
    };
    number(store.error_context_message(guest, handle, address), out)
}

/// Gives the guest `to` a handle to an error context, and puts it at `out`; the first guest keeps its own.
/// Refused: UnknownGuest, UnknownHandle, WrongKind, IndexOverflow, HandleLimit. GUEST_LIMIT, OUT_OF_MEMORY.
#[unsafe(no_mangle)]
pub extern "C" fn strm_error_context_transfer(
    store: &mut StoreHandle,
    guest: u32,
    handle: u32,
    to: u32,
    out: &mut u32,
) -> Status
    ensures answers { WithinLimits store.old store.new
        (is_past_in store.old (λ s limits. is_past s limits to Context))
        result out.old out.new
        (AnswersOr store.old.state (λ s. react s (steps.ErrMove guest handle to))
        result out.old out.new store.new.state) }
{
    let Some(store) = store.limited_mut() else {
        return NO_STORE;
    };
    let Ok(answer) = store.error_context_transfer(guest, handle, to) else {
        return GUEST_LIMIT;
    };
    number(answer, out)
}

/// Puts the number of the error context of a handle at `out`, by which strm_error_context_lower names it.
/// Refused: UnknownGuest, UnknownHandle, WrongKind.
#[unsafe(no_mangle)]
pub extern "C" fn strm_error_context_rep(
    store: &mut StoreHandle,
    guest: u32,
    handle: u32,
    out: &mut u32,
) -> Status
    ensures status { IfSome store.old.state (λ s.
        result ≡ answer_status (context_answer s guest handle)) }
    ensures number { IfSome store.old.state (λ s.
        out.new ≡ answer_word (λ number. number) (context_answer s guest handle) out.old) }
    ensures none { store.old.state ≡ None → (result ≡ no_store) × (out.new ≡ out.old) }
    ensures same { store.new.state ≡ store.old.state }
    ensures limits { store.new.limits ≡ store.old.limits }
{
    let Some(store) = store.get_mut() else {
        return NO_STORE;
    };
    number(store.error_context_rep(guest, handle), out)
}

/// Gives a guest a handle to the error context of a number, and puts it at `out`. Refused: UnknownGuest,
/// UnknownHandle, IndexOverflow, HandleLimit. GUEST_LIMIT, OUT_OF_MEMORY.
#[unsafe(no_mangle)]
pub extern "C" fn strm_error_context_lower(
    store: &mut StoreHandle,
    rep: u32,
    guest: u32,
    out: &mut u32,
) -> Status
    ensures answers { WithinLimits store.old store.new
        (is_past_in store.old (λ s limits. is_past s limits guest Context))
        result out.old out.new
        (AnswersOr store.old.state (λ s. lowers_context s rep guest)
        result out.old out.new store.new.state) }
{
    let Some(store) = store.limited_mut() else {
        return NO_STORE;
    };
    let Ok(answer) = store.error_context_lower(rep, guest) else {
        return GUEST_LIMIT;
    };
    number(answer, out)
}

/// Gives up a handle of an error context, and the context with the last. `canon error-context.drop`.
/// Refused: UnknownGuest, UnknownHandle, WrongKind.
#[unsafe(no_mangle)]
pub extern "C" fn strm_error_context_drop(
    store: &mut StoreHandle,
    guest: u32,
    handle: u32,
) -> Status
    ensures answers { AnswersCall store.old.state (λ s. react s (steps.ErrDrop guest handle))
        result 0 0 store.new.state }
    ensures limits { store.new.limits ≡ store.old.limits }
{
    let Some(store) = store.get_mut() else {
        return NO_STORE;
    };
    done(store.error_context_drop(guest, handle))
}

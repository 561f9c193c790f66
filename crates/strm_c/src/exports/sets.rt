//! Waitable sets.
//!
//! Source: Canonical ABI, `canon waitable-set.new` and the others.

ghost use Rattle.std.specs.Prelude.{◌≡◌, ◌≢◌, IfSome};
ghost use Rattle.strm_machine.specs.Reactions.{react};
ghost use Rattle.strm_machine.specs.declared.steps.Step.TheVariants as steps;
ghost use Rattle.strm_guest_store.specs.Limits.{is_past};
ghost use Rattle.strm_guest_store.specs.declared.guest_limits.Gain.TheVariants.{Set};
ghost use Rattle.strm_c.specs.Limits.{WithinLimits, is_past_in};
ghost use Rattle.strm_c.specs.Members.{answer_member, member_in};
ghost use Rattle.strm_c.specs.Statuses.{AnswersCall, AnswersOr, answer_status};

use crate::handles::StoreHandle;
use crate::statuses::{GUEST_LIMIT, NO_EVENT, NO_STORE, Status, done, error_status, number};
use strm_machine::replies::Member;
use strm_transmit::errors::StoreError;

/// Makes a waitable set, and puts its handle at `out`. `canon waitable-set.new`. Refused: UnknownGuest,
/// IndexOverflow, HandleLimit, Full. GUEST_LIMIT, OUT_OF_MEMORY.
#[unsafe(no_mangle)]
pub extern "C" fn strm_set_new(store: &mut StoreHandle, guest: u32, out: &mut u32) -> Status
    ensures answers { WithinLimits store.old store.new
        (is_past_in store.old (λ s limits. is_past s limits guest Set))
        result out.old out.new
        (AnswersOr store.old.state (λ s. react s (steps.SetNew guest))
        result out.old out.new store.new.state) }
{
    let Some(store) = store.limited_mut() else {
        return NO_STORE;
    };
    let Ok(answer) = store.set_new(guest) else {
        return GUEST_LIMIT;
    };
    number(answer, out)
}

/// An end joins a set, and leaves the one that it was in; of set 0 it leaves that alone.
/// `canon waitable.join`. Refused: UnknownGuest, UnknownHandle, WrongKind. OUT_OF_MEMORY.
#[unsafe(no_mangle)]
pub extern "C" fn strm_set_join(
    store: &mut StoreHandle,
    guest: u32,
    set: u32,
    handle: u32,
) -> Status
    ensures answers { AnswersOr store.old.state (λ s. react s (steps.SetJoin guest set handle))
        result 0 0 store.new.state }
    ensures limits { store.new.limits ≡ store.old.limits }
{
    let Some(store) = store.get_mut() else {
        return NO_STORE;
    };
    done(store.set_join(guest, set, handle))
}

/// Tells the member of the least handle that has something to be told, and puts its handle and code at
/// `out`; where none has, the code is STRM_NO_EVENT, and the handle stays. `canon waitable-set.poll`.
/// Refused: UnknownGuest, UnknownHandle, WrongKind.
#[unsafe(no_mangle)]
pub extern "C" fn strm_set_poll(
    store: &mut StoreHandle,
    guest: u32,
    set: u32,
    out: &mut StrmMember,
) -> Status
    ensures answers { AnswersCall store.old.state (λ s. react s (steps.SetPoll guest set))
        result 0 0 store.new.state }
    ensures member { IfSome store.old.state (λ s.
        out.new ≡ member_in (react s (steps.SetPoll guest set)).reply out.old) }
    ensures kept { result ≢ 0 → out.new ≡ out.old }
    ensures limits { store.new.limits ≡ store.old.limits }
{
    let Some(store) = store.get_mut() else {
        return NO_STORE;
    };
    member(store.set_poll(guest, set), out)
}

/// Gives up a set without members. `canon waitable-set.drop`. Refused: UnknownGuest, UnknownHandle,
/// WrongKind, SetNotEmpty.
#[unsafe(no_mangle)]
pub extern "C" fn strm_set_drop(store: &mut StoreHandle, guest: u32, set: u32) -> Status
    ensures answers { AnswersCall store.old.state (λ s. react s (steps.SetDrop guest set))
        result 0 0 store.new.state }
    ensures limits { store.new.limits ≡ store.old.limits }
{
    let Some(store) = store.get_mut() else {
        return NO_STORE;
    };
    done(store.set_drop(guest, set))
}

/// A member of a set and what it was told: its handle, and a code, or STRM_NO_EVENT.
#[repr(C)]
#[derive(Drop)]
pub struct StrmMember {
    pub handle: u32,
    pub code: u32,
}

// A member, put at `out`.
fn member(answer: Result<Option<Member>, StoreError>, out: &mut StrmMember) -> Status
    ensures status { result ≡ answer_status answer }
    ensures ok { out.new ≡ answer_member answer out.old }
{
    match answer {
        Ok(Some(member)) => {
            out.handle = member.handle;
            out.code = member.code.encode();
            0
        }
        Ok(None) => {
            out.code = NO_EVENT;
            0
        }
        Err(error) => error_status(error),
    }
}

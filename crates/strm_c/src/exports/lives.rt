//! Guests that end, and guests that begin under the number of one that ended.
//!
//! Ours.

ghost use Rattle.std.specs.Prelude.{◌≡◌, ◌≢◌, ◌<◌, false, length, None, Some, IfSome};
ghost use Rattle.std.specs.Vec.{vec_ptr};
ghost use Rattle.strm_machine.specs.State.{no_guest, guest_in};
ghost use Rattle.strm_places.specs.Lives.{ended, is_in_use, begins, begins_at};
ghost use Rattle.strm_c.specs.Limits.{guest_answer};
ghost use Rattle.strm_c.specs.Lives.{use_status};
ghost use Rattle.strm_c.specs.Statuses.{IsAnswer, IsAnswerOr, IsNothing, no_store, found_status};

use crate::handles::StoreHandle;
use crate::lent_bytes::LentBytes;
use crate::statuses::{IN_USE, NO_STORE, Status, done, found};
use std_alloc::vec::Lodged;
use strm_codes::refusals::Refusal;
use strm_guest_store::guest_store::GuestStore;

/// Ends a guest: each of its ends, by rising handle, is cancelled (what was moved stays moved) and dropped, and
/// whoever has the other end is told so by its event, the reader of a future that never gets its value too. Then its
/// waitable sets and error contexts go, and its memory: nobody may read or write there any more, and bytes that the
/// caller lent are the caller's again. The number stays a guest's that has nothing, until one begins under it; the
/// limits that were set of the number stay. Refused: UnknownGuest.
#[unsafe(no_mangle)]
pub extern "C" fn strm_end_guest(store: &mut StoreHandle, guest: u32) -> Status
    ensures status { IfSome store.old.state (λ s. result ≡ found_status (guest_answer s guest)) }
    ensures ended { IfSome store.old.state (λ s. result ≡ 0 →
        store.new.state ≡ Some (ended s guest)) }
    // It is as one that was never made.
    ensures nothing { IfSome store.new.state (λ s. result ≡ 0 →
        guest_in s.guests guest ≡ no_guest) }
    ensures none { store.old.state ≡ None → result ≡ no_store }
    ensures same { result ≢ 0 → store.new.state ≡ store.old.state }
    ensures limits { store.new.limits ≡ store.old.limits }
{
    let Some(store) = store.get_mut() else {
        return NO_STORE;
    };
    found(store.end_guest(guest))
}

/// Begins a guest under the number of one that has nothing, as one that ended, with a memory of `size` zero bytes.
/// Refused: UnknownGuest, MemoryTooBig (268,435,456 bytes of all guests together, without those that were lent).
/// IN_USE, which comes between the two. OUT_OF_MEMORY.
#[unsafe(no_mangle)]
pub extern "C" fn strm_begin_guest(store: &mut StoreHandle, guest: u32, size: u32) -> Status
    ensures used { IfSome store.old.state (λ s. use_status s guest ≢ 0 →
        IsNothing (Some s) (use_status s guest) result 0 0 store.new.state) }
    ensures begun { IfSome store.old.state (λ s. use_status s guest ≡ 0 →
        IsAnswerOr s (begins s guest size) result 0 0 store.new.state) }
    ensures none { store.old.state ≡ None → IsNothing None no_store result 0 0 store.new.state }
    ensures limits { store.new.limits ≡ store.old.limits }
{
    let Some(store) = store.get_mut() else {
        return NO_STORE;
    };
    begin(store, guest, size)
}

/// Begins a guest under the number of one that has nothing, as one that ended, whose memory is `len` bytes that the
/// caller lends, from `bytes` on, as by strm_add_guest_at. They are the caller's again once the guest ended or the
/// store is given up, or at once where nothing begins. Refused: UnknownGuest, MemoryTooBig (4,294,967,296 bytes or
/// more). IN_USE, which comes between the two.
#[unsafe(no_mangle)]
pub extern "C" fn strm_begin_guest_at(
    store: &mut StoreHandle,
    guest: u32,
    bytes: LentBytes,
) -> Status
    ensures used { IfSome store.old.state (λ s. use_status s guest ≢ 0 →
        IsNothing (Some s) (use_status s guest) result 0 0 store.new.state) }
    ensures begun { IfSome store.old.state (λ s. use_status s guest ≡ 0 →
        IsAnswer (begins_at s guest bytes.items bytes.at) result 0 0 store.new.state) }
    ensures none { store.old.state ≡ None → IsNothing None no_store result 0 0 store.new.state }
    ensures limits { store.new.limits ≡ store.old.limits }
{
    let Some(store) = store.get_mut() else {
        return NO_STORE;
    };
    begin_at(store, guest, bytes.into_vec())
}

// Why a guest's number is not free for one that begins, or 0 where it is.
fn use_status(store: &GuestStore, guest: u32) -> Status
    ensures status { result ≡ use_status store.now guest }
    ensures there { result ≡ 0 → guest < length store.now.guests }
    ensures unused { result ≡ 0 → is_in_use store.now guest ≡ false }
{
    if !store.has_guest(guest) {
        return u32::from(Refusal::UnknownGuest.number());
    }
    if store.is_in_use(guest) {
        return IN_USE;
    }
    0
}

// A guest begins, if its number is free.
fn begin(store: &mut GuestStore, guest: u32, size: u32) -> Status
    ensures used { use_status store.old guest ≢ 0 →
        IsNothing (Some store.old) (use_status store.old guest) result 0 0 (Some store.new) }
    ensures begun { use_status store.old guest ≡ 0 →
        IsAnswerOr store.old (begins store.old guest size) result 0 0 (Some store.new) }
{
    let status = use_status(store, guest);
    if status != 0 {
        return status;
    }
    done(store.begin_guest(guest, size))
}

// The same over bytes that are lent.
fn begin_at(store: &mut GuestStore, guest: u32, bytes: Vec<u8, Lodged>) -> Status
    ensures used { use_status store.old guest ≢ 0 →
        IsNothing (Some store.old) (use_status store.old guest) result 0 0 (Some store.new) }
    ensures begun { use_status store.old guest ≡ 0 →
        IsAnswer (begins_at store.old guest bytes.items (vec_ptr bytes)) result 0 0
        (Some store.new) }
{
    let status = use_status(store, guest);
    if status != 0 {
        return status;
    }
    done(store.begin_guest_at(guest, bytes))
}

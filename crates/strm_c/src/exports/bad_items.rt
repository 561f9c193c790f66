//! Whose the item is at which a read or write stops.
//!
//! Source: Canonical ABI, `load` of a char, which traps. Ours: the call.

ghost use Rattle.std.specs.Prelude.{◌≡◌};
ghost use Rattle.strm_c.specs.BadItems.{item_in, side_of_word, TellsBadItem};
ghost use Rattle.strm_c.specs.Payloads.{type_at};
ghost use Rattle.strm_transmit.specs.BadItems.{operation_step};

use crate::exports::queries::SIDE_READING;
use crate::handles::StoreHandle;
use crate::payloads::type_at;
use crate::statuses::{NO_BAD_ITEM, NO_STORE, Status, UNKNOWN_PAYLOAD};
use strm_machine::streams::Side;
use strm_transmit::BadItem;

/// An item that is none of its type: who writes it, and which of its write's items it is.
#[repr(C)]
#[derive(Drop)]
pub struct StrmBadItem {
    /// The guest that has the write end.
    pub guest: u32,
    /// Its handle of that end.
    pub handle: u32,
    /// The item's place among all items of the write, from 0.
    pub index: u32,
}

// The side of a word.
fn side_at(word: u32) -> Side
    ensures { result ≡ side_of_word word }
{
    if word == SIDE_READING {
        Side::Reading
    } else {
        Side::Writing
    }
}

// An item, put at `out`.
fn found(item: BadItem, out: &mut StrmBadItem)
    ensures { item_in out.new ≡ item }
{
    *out = StrmBadItem {
        guest: item.guest,
        handle: item.handle,
        index: item.index,
    };
}

/// Puts the item at `out` at which a read (`side` is STRM_SIDE_READING) or a write (any other `side`) with
/// these arguments stops: the guest that writes it, its handle of the write end, and the item's place among
/// all items of that write, from 0. So whoever is told of a bad item asks whose it is, with the arguments of
/// that call; of a future `count` is not looked at. NO_BAD_ITEM where it would stop at none. UNKNOWN_PAYLOAD.
#[unsafe(no_mangle)]
pub extern "C" fn strm_find_bad_item(
    store: &mut StoreHandle,
    side: u32,
    guest: u32,
    ty: u64,
    handle: u32,
    address: u32,
    count: u32,
    out: &mut StrmBadItem,
) -> Status
    ensures tells { TellsBadItem store.old.state (type_at ty)
        (λ named. operation_step (side_of_word side)
        (record { guest = guest; ty = named; handle = handle }) address count)
        result out.old out.new }
    ensures same { store.new.state ≡ store.old.state }
    ensures limits { store.new.limits ≡ store.old.limits }
{
    let Some(store) = store.get_mut() else {
        return NO_STORE;
    };
    let Some(ty) = type_at(ty) else {
        return UNKNOWN_PAYLOAD;
    };
    match store.find_bad_item(side_at(side), guest, ty, handle, address, count) {
        Some(item) => {
            found(item, out);
            0
        }
        None => NO_BAD_ITEM,
    }
}

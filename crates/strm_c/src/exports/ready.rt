//! Which guest is ready.
//!
//! Ours.

ghost use Rattle.std.specs.Prelude.{◌≡◌, ◌≢◌, None, IfOk, OnErr, IfSome};
ghost use Rattle.strm_transmit.specs.ReadyGuests.{next_ready_guest};
ghost use Rattle.strm_c.specs.Ready.{guest_or_none};
ghost use Rattle.strm_c.specs.Statuses.{no_memory, no_store};

use crate::handles::StoreHandle;
use crate::statuses::{NO_STORE, OUT_OF_MEMORY, Status};
use std::alloc::AllocError;

/// The number of no guest: none gets it.
pub const NO_GUEST: u32 = 4_294_967_295;

/// Puts at `out` the least guest, of those from a number on, that has an end which is to be told something, or
/// STRM_NO_GUEST where none has. It is told as long as that is so, whoever asked before. From 0 on, and then from
/// behind each guest, it tells all that are ready, and looks at no guest in vain. strm_next_handle tells which ends
/// they are, or strm_set_poll of those in a set. The first call makes counts: it goes over all streams, and takes
/// 8 to 17 bytes for each guest and 24 for each stream; later ones go over the streams that changed since, each
/// once. OUT_OF_MEMORY, of the first call alone, after which nothing is counted.
#[unsafe(no_mangle)]
pub extern "C" fn strm_next_ready_guest(store: &mut StoreHandle, from: u32, out: &mut u32) -> Status
    ensures guest { IfSome store.old.state (λ s. result ≡ 0 →
        out.new ≡ guest_or_none (next_ready_guest s from)) }
    ensures status { IfSome store.old.state (λ s. result ≢ 0 → result ≡ no_memory) }
    ensures kept { result ≢ 0 → out.new ≡ out.old }
    ensures none { store.old.state ≡ None → result ≡ no_store }
    ensures same { store.new.state ≡ store.old.state }
    ensures limits { store.new.limits ≡ store.old.limits }
{
    let Some(store) = store.get_mut() else {
        return NO_STORE;
    };
    next(store.next_ready_guest(from), out)
}

// The guest that is next, put at `out`.
fn next(answer: Result<Option<u32>, AllocError>, out: &mut u32) -> Status
    ensures guest { IfOk answer (λ guest. (result ≡ 0) × (out.new ≡ guest_or_none guest)) }
    ensures err { OnErr answer ((result ≡ no_memory) × (out.new ≡ out.old)) }
{
    match answer {
        Ok(guest) => {
            *out = number_of(guest);
            0
        }
        Err(_) => OUT_OF_MEMORY,
    }
}

// The number of a guest, if there is one.
fn number_of(guest: Option<u32>) -> u32
    ensures { result ≡ guest_or_none guest }
{
    match guest {
        Some(guest) => guest,
        None => NO_GUEST,
    }
}

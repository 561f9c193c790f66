//! A store as a whole: made, given up, and what it tells.
//!
//! Source: wasmtime, `ConcurrentState`.

ghost use Rattle.std.specs.Prelude.{◌≡◌, ◌≢◌, ◌*◌, ◌<◌, ◌↔◌, ◌≤◌, [], Some, None, IfSome, IsTrue, length};
ghost use Rattle.strm_codes.specs.Types.{kind_of, payload_of};
ghost use Rattle.strm_machine.specs.State.{empty, is_live, stream_at};
ghost use Rattle.strm_machine.specs.Soundness.{type_of};
ghost use Rattle.strm_c.specs.Payloads.{type_word};
ghost use Rattle.strm_c.specs.Queries.{count_in_words};
ghost use Rattle.strm_c.specs.Statuses.{no_memory, no_store, no_stream_status};

use crate::handles::StoreHandle;
use crate::payloads::type_word;
use crate::statuses::{NO_STORE, OUT_OF_MEMORY, Status, UNKNOWN_STREAM};
use std::alloc::Global;
use strm_codes::codes::TransmitIndex;
use strm_guest_store::limited_store::LimitedStore;
use strm_machine::limits::Limits;

/// Makes a store without guests, in a handle of none ({NULL}). It keeps `handles` live handles of all
/// guests together at most, and `places` places: a stream takes three, a waitable set and an error
/// context one each. `tag` is a number of the caller's own. OUT_OF_MEMORY.
#[unsafe(no_mangle)]
pub extern "C" fn strm_store_new(
    alloc: Global,
    store: &mut StoreHandle,
    tag: u64,
    handles: usize,
    places: u32,
) -> Status
    requires { store.old.state ≡ None }
    ensures made { result ≡ 0 → store.new.state
        ≡ Some (empty tag (record { handles = handles; places = places })) }
    ensures limits { result ≡ 0 → store.new.limits ≡ [] }
    ensures not_made { result ≢ 0 → (result ≡ no_memory) × (store.new.state ≡ None) }
{
    match Box::new(
        alloc,
        LimitedStore::new(alloc, tag, Limits { handles, places }),
    ) {
        Ok(made) => {
            *store = StoreHandle::of(made);
            0
        }
        Err(_) => OUT_OF_MEMORY,
    }
}

/// Gives a store up, with the memories of its guests, and leaves {NULL}. Of {NULL} it does nothing.
#[unsafe(no_mangle)]
pub extern "C" fn strm_store_free(alloc: Global, store: &mut StoreHandle)
    ensures gone { store.new.state ≡ None }
    ensures nothing { store.old.state ≡ None → store.new ≡ store.old }
{
    drop(store.take(alloc));
}

/// The number that the store was made with; 0 of {NULL}.
#[unsafe(no_mangle)]
pub extern "C" fn strm_tag(store: &mut StoreHandle) -> u64
    ensures tag { IfSome store.old.state (λ s. result ≡ s.tag) }
    ensures none { store.old.state ≡ None → result ≡ 0 }
    ensures same { store.new.state ≡ store.old.state }
    ensures limits { store.new.limits ≡ store.old.limits }
{
    let Some(store) = store.get_mut() else {
        return 0;
    };
    store.tag()
}

/// The numbers that streams and futures got so far are below this; 0 of {NULL}. One is given again once both ends
/// of its stream are gone, so it never passes a third of `places`: a store keeps room for no more streams than
/// that, and no making is refused since streams were made and dropped before.
#[unsafe(no_mangle)]
pub extern "C" fn strm_streams(store: &mut StoreHandle) -> u32
    ensures count { IfSome store.old.state (λ s. result ≡ length s.streams) }
    ensures few { IfSome store.old.state (λ s. 3 * result ≤ s.limits.places) }
    ensures none { store.old.state ≡ None → result ≡ 0 }
    ensures same { store.new.state ≡ store.old.state }
    ensures limits { store.new.limits ≡ store.old.limits }
{
    let Some(store) = store.get_mut() else {
        return 0;
    };
    store.streams()
}

/// A count of 128 bits: low + 2^64 * high.
#[repr(C)]
#[derive(Drop)]
pub struct StrmCount {
    pub low: u64,
    pub high: u64,
}

/// Puts at `out` how many items were received so far on the stream that got this number last. UNKNOWN_STREAM
/// where none got it.
#[unsafe(no_mangle)]
pub extern "C" fn strm_moved(store: &mut StoreHandle, stream: u32, out: &mut StrmCount) -> Status
    ensures made { IfSome store.old.state (λ s. result ≡ 0 ↔ (stream < length s.streams)) }
    ensures unknown { IfSome store.old.state (λ s.
        result ≡ no_stream_status ↔ (length s.streams ≤ stream)) }
    ensures none { store.old.state ≡ None → result ≡ no_store }
    ensures count { IfSome store.old.state (λ s. result ≡ 0 →
        count_in_words out.new ≡ (stream_at s stream).received) }
    ensures kept { result ≢ 0 → out.new ≡ out.old }
    ensures same { store.new.state ≡ store.old.state }
    ensures limits { store.new.limits ≡ store.old.limits }
{
    let Some(store) = store.get_mut() else {
        return NO_STORE;
    };
    count(store.moved(stream), out)
}

/// Puts at `out` the type of the stream that has this number, while an end of it is there. UNKNOWN_STREAM of any
/// other.
#[unsafe(no_mangle)]
pub extern "C" fn strm_transmit_index(store: &mut StoreHandle, stream: u32, out: &mut u64) -> Status
    ensures live { IfSome store.old.state
        (λ s. result ≡ 0 ↔ IsTrue (is_live (stream_at s stream))) }
    ensures gone { IfSome store.old.state (λ s. result ≢ 0 → result ≡ no_stream_status) }
    ensures none { store.old.state ≡ None → result ≡ no_store }
    ensures ty { IfSome store.old.state (λ s. result ≡ 0 →
        out.new ≡ type_word (type_of (stream_at s stream))) }
    ensures kept { result ≢ 0 → out.new ≡ out.old }
    ensures same { store.new.state ≡ store.old.state }
    ensures limits { store.new.limits ≡ store.old.limits }
{
    let Some(store) = store.get_mut() else {
        return NO_STORE;
    };
    word(store.transmit_index(stream), out)
}

// A count, put at `out`.
fn count(count: Option<u128>, out: &mut StrmCount) -> Status
    ensures some { IfSome count (λ count. (result ≡ 0) × (count_in_words out.new ≡ count)) }
    ensures none { count ≡ None → (result ≡ no_stream_status) × (out.new ≡ out.old) }
{
    let Some(count) = count else {
        return UNKNOWN_STREAM;
    };
    out.low = (count % 18_446_744_073_709_551_616) as u64;
    out.high = (count / 18_446_744_073_709_551_616) as u64;
    0
}

// A type's word, put at `out`.
fn word(ty: Option<TransmitIndex>, out: &mut u64) -> Status
    ensures some { IfSome ty (λ ty. (result ≡ 0) × (out.new ≡ type_word ty)) }
    ensures none { ty ≡ None → (result ≡ no_stream_status) × (out.new ≡ out.old) }
{
    let Some(ty) = ty else {
        return UNKNOWN_STREAM;
    };
    *out = type_word(&ty);
    0
}

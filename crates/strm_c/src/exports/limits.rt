//! How much each guest may have at once.
//!
//! Ours.

ghost use Rattle.std.specs.Prelude.{◌≡◌, ◌≢◌, ◌<◌, ℕ, None, IfSome, length};
ghost use Rattle.strm_guest_store.specs.Limits.{limits_of, limits_answer};
ghost use Rattle.strm_c.specs.Limits.{answer_limits, guest_answer};
ghost use Rattle.strm_c.specs.Statuses.{found_status, no_memory, no_store};

use crate::handles::StoreHandle;
use crate::statuses::{NO_STORE, Status, done};
use strm_codes::refusals::Refusal;
use strm_guest_store::guest_limits::GuestLimits;

/// How much a guest may have at once. UINT32_MAX handles or ends and UINT64_MAX bytes are no bound, and hold of
/// a guest until its limits are set.
#[repr(C)]
#[derive(Drop)]
pub struct StrmLimits {
    /// Bytes that the store keeps for it: 4,096 for each handle of an error context, the longest that a message
    /// can be.
    pub bytes: u64,
    /// Handles, of whatever kind.
    pub handles: u32,
    /// Ends of streams and futures among them, so it is at that many streams and futures at most.
    pub ends: u32,
}

/// Sets how much a guest may have at once: handles of whatever kind, ends of streams and futures among them, and
/// bytes that the store keeps for it, 4,096 for each handle of an error context. What it has stays, also where
/// that is more; it only gets no more of it. It takes 16 bytes for each guest up to this one. Refused:
/// UnknownGuest. OUT_OF_MEMORY.
#[unsafe(no_mangle)]
pub extern "C" fn strm_set_guest_limits(
    store: &mut StoreHandle,
    guest: u32,
    handles: u32,
    ends: u32,
    bytes: u64,
) -> Status
    ensures set { result ≡ 0 → limits_of store.new.limits guest
        ≡ record { handles = handles; ends = ends; bytes = bytes } }
    ensures others { result ≡ 0 → (g : ℕ) → g ≢ guest →
        limits_of store.new.limits g ≡ limits_of store.old.limits g }
    ensures kept { result ≢ 0 → store.new.limits ≡ store.old.limits }
    ensures status { IfSome store.old.state (λ s. result ≢ no_memory →
        result ≡ found_status (guest_answer s guest)) }
    ensures memory { IfSome store.old.state (λ s. result ≡ no_memory → guest < length s.guests) }
    ensures none { store.old.state ≡ None → result ≡ no_store }
    ensures same { store.new.state ≡ store.old.state }
{
    let Some(store) = store.limited_mut() else {
        return NO_STORE;
    };
    let limits = GuestLimits {
        handles,
        ends,
        bytes,
    };
    done(store.set_guest_limits(guest, limits))
}

/// Puts at `out` how much a guest may have at once. Refused: UnknownGuest.
#[unsafe(no_mangle)]
pub extern "C" fn strm_guest_limits(
    store: &mut StoreHandle,
    guest: u32,
    out: &mut StrmLimits,
) -> Status
    ensures status { IfSome store.old.state (λ s.
        result ≡ found_status (limits_answer s store.old.limits guest)) }
    ensures told { IfSome store.old.state (λ s.
        out.new ≡ answer_limits (limits_answer s store.old.limits guest) out.old) }
    ensures none { store.old.state ≡ None → (result ≡ no_store) × (out.new ≡ out.old) }
    ensures same { store.new.state ≡ store.old.state }
    ensures limits { store.new.limits ≡ store.old.limits }
{
    let Some(store) = store.limited_mut() else {
        return NO_STORE;
    };
    limits(store.guest_limits(guest), out)
}

// How much a guest may have, put at `out`.
fn limits(answer: Result<GuestLimits, Refusal>, out: &mut StrmLimits) -> Status
    ensures status { result ≡ found_status answer }
    ensures told { out.new ≡ answer_limits answer out.old }
{
    match answer {
        Ok(limits) => {
            out.bytes = limits.bytes;
            out.handles = limits.handles;
            out.ends = limits.ends;
            0
        }
        Err(refusal) => u32::from(refusal.number()),
    }
}

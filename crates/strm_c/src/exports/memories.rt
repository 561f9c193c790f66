//! Guests and their memories.
//!
//! Ours.

ghost use Rattle.std.specs.Prelude.{◌≡◌, ◌≢◌, ◌+◌, ◌<◌, ◌↔◌, ◌≤◌, Some, None, IsSome, IfSome, length, take, drop};
ghost use Rattle.std.specs.Vec.{vec_ptr};
ghost use Rattle.strm_machine.specs.State.{memory_in};
ghost use Rattle.strm_machine.specs.Bases.{base_in, with_base_in};
ghost use Rattle.strm_machine.specs.Growth.{adds_guest_at, grown, moved_to};
ghost use Rattle.strm_machine.specs.Reactions.{react};
ghost use Rattle.strm_machine.specs.declared.steps.Step.TheVariants as steps;
ghost use Rattle.strm_c.specs.Bytes.{growth_status, size_with, IsBehind, BeginWith};
ghost use Rattle.strm_c.specs.Queries.{bytes_answer};
ghost use Rattle.strm_c.specs.Statuses.{AnswersCall, AnswersOr, no_store, found_status};

use crate::handles::StoreHandle;
use crate::lent_bytes::LentBytes;
use crate::statuses::{NO_STORE, NOT_LENT, SHORTER, Status, done, found, number};
use std_alloc::vec::Lodged;
use strm_codes::refusals::Refusal;
use strm_guest_store::guest_store::GuestStore;

/// The bytes of a memory that is lent are fewer.
const SIZE_LIMIT: usize = 4_294_967_296;

/// Adds a guest with a memory of `size` zero bytes, and puts its number at `out`; the first is 0. Refused:
/// MemoryTooBig (268,435,456 bytes of all guests together, without those that were lent), Full (1,048,576
/// guests). OUT_OF_MEMORY.
#[unsafe(no_mangle)]
pub extern "C" fn strm_add_guest(store: &mut StoreHandle, size: u32, out: &mut u32) -> Status
    ensures answers { AnswersOr store.old.state (λ s. react s (steps.Guest size))
        result out.old out.new store.new.state }
    ensures limits { store.new.limits ≡ store.old.limits }
{
    let Some(store) = store.get_mut() else {
        return NO_STORE;
    };
    number(store.add_guest(size), out)
}

/// Adds a guest whose memory is `len` bytes that the caller lends, from `bytes` on, and puts its number at
/// `out`. They stay where they are, are touched only as the guest's memory is, and are not freed: they are the
/// caller's again once the guest ended or the store is given up, or at once where nothing is added. There is no
/// limit on those of all guests. Refused: MemoryTooBig (4,294,967,296 bytes or more), Full (1,048,576 guests).
/// OUT_OF_MEMORY.
#[unsafe(no_mangle)]
pub extern "C" fn strm_add_guest_at(
    store: &mut StoreHandle,
    bytes: LentBytes,
    out: &mut u32,
) -> Status
    ensures answers { AnswersOr store.old.state (λ s. adds_guest_at s bytes.items bytes.at)
        result out.old out.new store.new.state }
    ensures limits { store.new.limits ≡ store.old.limits }
{
    let Some(store) = store.get_mut() else {
        return NO_STORE;
    };
    number(store.add_guest_at(bytes.into_vec()), out)
}

/// Tells that a memory which the caller lent has `len` bytes more, from `more` on, which lie directly behind
/// its end: it grew where it lies. Reads and writes that wait go on. Refused: UnknownGuest, MemoryTooBig
/// (4,294,967,296 bytes or more in all). NOT_LENT.
#[unsafe(no_mangle)]
pub extern "C" fn strm_memory_grown(store: &mut StoreHandle, guest: u32, more: LentBytes) -> Status
    requires behind { IfSome store.old.state (λ s.
        growth_status s guest (size_with s guest more.items) ≡ 0 → IsBehind s guest more.at) }
    ensures status { IfSome store.old.state (λ s.
        result ≡ growth_status s guest (size_with s guest more.items)) }
    ensures grown { IfSome store.old.state (λ s. result ≡ 0 →
        store.new.state ≡ Some (grown s guest more.items)) }
    ensures none { store.old.state ≡ None → result ≡ no_store }
    ensures same { result ≢ 0 → store.new.state ≡ store.old.state }
    ensures limits { store.new.limits ≡ store.old.limits }
{
    let Some(store) = store.get_mut() else {
        return NO_STORE;
    };
    grow(store, guest, more.into_vec())
}

/// Tells that a memory which the caller lent goes on in `len` bytes from `bytes` on, which begin with all that
/// it had: it grew, and lies elsewhere. Reads and writes that wait go on there, and the bytes where it was are
/// the caller's again. Refused: UnknownGuest, MemoryTooBig (4,294,967,296 bytes or more). NOT_LENT, SHORTER.
#[unsafe(no_mangle)]
pub extern "C" fn strm_memory_moved(store: &mut StoreHandle, guest: u32, bytes: LentBytes) -> Status
    requires begins { IfSome store.old.state (λ s.
        growth_status s guest (length bytes.items) ≡ 0 → BeginWith s guest bytes.items) }
    ensures status { IfSome store.old.state (λ s.
        result ≡ growth_status s guest (length bytes.items)) }
    ensures moved { IfSome store.old.state (λ s. result ≡ 0 → store.new.state ≡ Some (moved_to s guest
        (drop (length (memory_in s.guests guest)) bytes.items) bytes.at)) }
    ensures none { store.old.state ≡ None → result ≡ no_store }
    ensures same { result ≢ 0 → store.new.state ≡ store.old.state }
    ensures limits { store.new.limits ≡ store.old.limits }
{
    let Some(store) = store.get_mut() else {
        return NO_STORE;
    };
    relocate(store, guest, bytes.into_vec())
}

/// Copies `len` bytes into a guest's memory, from `address` on. Refused: UnknownGuest, OutOfBounds.
#[unsafe(no_mangle)]
pub extern "C" fn strm_memory_write(
    store: &mut StoreHandle,
    guest: u32,
    address: u32,
    bytes: &[u8],
) -> Status
    ensures answers { AnswersCall store.old.state
        (λ s. react s (steps.Poke guest address bytes.now)) result 0 0 store.new.state }
    ensures limits { store.new.limits ≡ store.old.limits }
{
    let Some(store) = store.get_mut() else {
        return NO_STORE;
    };
    done(store.write_memory(guest, address, bytes))
}

/// Copies `len` bytes of a guest's memory out, from `address` on. Refused: UnknownGuest, OutOfBounds.
#[unsafe(no_mangle)]
pub extern "C" fn strm_memory_read(
    store: &mut StoreHandle,
    guest: u32,
    address: u32,
    out: &mut [u8],
) -> Status
    ensures status { IfSome store.old.state (λ s.
        result ≡ found_status (bytes_answer s guest address (length out.old))) }
    ensures bytes { IfSome store.old.state (λ s. result ≡ 0 → out.new
        ≡ take (length out.old) (drop address (memory_in s.guests guest))) }
    ensures none { store.old.state ≡ None → result ≡ no_store }
    ensures kept { result ≢ 0 → out.new ≡ out.old }
    ensures same { store.new.state ≡ store.old.state }
    ensures limits { store.new.limits ≡ store.old.limits }
{
    let Some(store) = store.get_mut() else {
        return NO_STORE;
    };
    let status = found(store.read_memory(guest, address, out));
    status
}

// How many bytes a guest's memory has.
fn len_of(store: &GuestStore, guest: u32) -> Option<usize>
    ensures there { IsSome result ↔ (guest < length store.now.guests) }
    ensures len { IfSome result (λ len. len ≡ length (memory_in store.now.guests guest)) }
    ensures small { IfSome result (λ len. len < 9223372036854775808) }
{
    match store.memory(guest) {
        Some(memory) => Some(memory.len()),
        None => None,
    }
}

// Whether a guest's memory is to have so many bytes, of those that an engine lent.
fn growth_status(store: &GuestStore, guest: u32, size: usize) -> Status
    ensures { result ≡ growth_status store.now guest size }
{
    let Some(len) = len_of(store, guest) else {
        return u32::from(Refusal::UnknownGuest.number());
    };
    if size >= SIZE_LIMIT {
        return u32::from(Refusal::MemoryTooBig.number());
    }
    if !store.is_lent(guest) {
        return NOT_LENT;
    }
    if size < len {
        return SHORTER;
    }
    0
}

// How many bytes a guest's memory has, and so many more; of no guest it has none.
fn size_with(store: &GuestStore, guest: u32, more: usize) -> usize
    requires { more < 9223372036854775808 }
    ensures { result ≡ length (memory_in store.now.guests guest) + more }
{
    match len_of(store, guest) {
        Some(len) => len + more,
        None => more,
    }
}

// A memory that grew where it lies, if it may.
fn grow(store: &mut GuestStore, guest: u32, more: Vec<u8, Lodged>) -> Status
    requires behind { growth_status store.old guest (size_with store.old guest more.items) ≡ 0 →
        IsBehind store.old guest (vec_ptr more) }
    ensures status { result
        ≡ growth_status store.old guest (size_with store.old guest more.items) }
    ensures grown { result ≡ 0 → store.new ≡ grown store.old guest more.items }
    ensures same { result ≢ 0 → store.new ≡ store.old }
{
    let size = size_with(store, guest, more.len());
    let status = growth_status(store, guest, size);
    if status == 0 {
        store.memory_grown(guest, more);
    }
    status
}

// A memory that goes on elsewhere, if it may. The bytes where it was are let go.
fn relocate(store: &mut GuestStore, guest: u32, bytes: Vec<u8, Lodged>) -> Status
    requires begins { growth_status store.old guest (length bytes.items) ≡ 0 →
        BeginWith store.old guest bytes.items }
    ensures status { result ≡ growth_status store.old guest (length bytes.items) }
    ensures moved { result ≡ 0 → store.new ≡ moved_to store.old guest
        (drop (length (memory_in store.old.guests guest)) bytes.items) (vec_ptr bytes) }
    ensures same { result ≢ 0 → store.new ≡ store.old }
{
    let status = growth_status(store, guest, bytes.len());
    if status == 0 {
        drop(store.memory_moved(guest, bytes));
    }
    status
}

// Tells where a guest's memory lies, and how many bytes it has.
fn tell(store: &mut GuestStore, guest: u32, out: &mut *const u8, len: &mut usize) -> Status
    ensures there { result ≡ 0 ↔ (guest < length store.old.guests) }
    ensures unknown { result ≡ 1 ↔ (length store.old.guests ≤ guest) }
    ensures told { result ≡ 0 → store.new ≡ with_base_in store.old guest out.new }
    ensures again { result ≡ 0 → IfSome (base_in store.old.guests guest) (λ base. out.new ≡ base.at) }
    ensures size { result ≡ 0 → len.new ≡ length (memory_in store.old.guests guest) }
    ensures kept { result ≢ 0 → (out.new ≡ out.old) × (len.new ≡ len.old) }
    ensures same { result ≢ 0 → store.new ≡ store.old }
{
    match len_of(store, guest) {
        Some(found) => {
            *len = found;
            *out = store.memory_base(guest);
            0
        }
        None => u32::from(Refusal::UnknownGuest.number()),
    }
}

/// Puts at `out` where a guest's memory lies, and at `len` how many bytes it has; of no bytes `out` is an
/// address that may not be read. The store's own lie there until the guest ends or the store is given up, from
/// the beginning of a block of malloc's on, at a multiple of 16; those that the caller lent until it tells that they
/// moved. The caller may read and write them between calls, and must not during one. Refused: UnknownGuest.
#[unsafe(no_mangle)]
pub extern "C" fn strm_memory_at(
    store: &mut StoreHandle,
    guest: u32,
    out: &mut *const u8,
    len: &mut usize,
) -> Status
    ensures there { IfSome store.old.state (λ s. result ≡ 0 ↔ (guest < length s.guests)) }
    ensures unknown { IfSome store.old.state (λ s. result ≡ 1 ↔ (length s.guests ≤ guest)) }
    ensures none { store.old.state ≡ None → result ≡ no_store }
    ensures told { IfSome store.old.state (λ s. result ≡ 0 →
        store.new.state ≡ Some (with_base_in s guest out.new)) }
    ensures again { IfSome store.old.state (λ s. result ≡ 0 →
        IfSome (base_in s.guests guest) (λ base. out.new ≡ base.at)) }
    ensures size { IfSome store.old.state (λ s. result ≡ 0 →
        len.new ≡ length (memory_in s.guests guest)) }
    ensures kept { result ≢ 0 → (out.new ≡ out.old) × (len.new ≡ len.old) }
    ensures same { result ≢ 0 → store.new.state ≡ store.old.state }
    ensures limits { store.new.limits ≡ store.old.limits }
{
    let Some(store) = store.get_mut() else {
        return NO_STORE;
    };
    tell(store, guest, out, len)
}

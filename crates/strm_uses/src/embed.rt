//! A store among guests alone: three bytes go from one guest to another.

ghost use Rattle.std.specs.Prelude.{◌≡◌, ◌≢◌, ◌<◌, ℕ, take, length, true, false, Some, None, Ok, IfOk, IfSome};
ghost use Rattle.strm_codes.specs.declared.codes.ReturnCode.TheVariants.{Completed};
ghost use Rattle.strm_machine.specs.State.{memory_in, stream_at};
ghost use Rattle.strm_machine.specs.declared.streams.Owner.TheVariants.{Held};
ghost use Rattle.strm_transmit.specs.ReadyGuests.{is_ready_guest};
ghost use Rattle.strm_uses.specs.Across.{owner_across};
ghost use Rattle.strm_uses.specs.declared.embed.Told.TheVariants.{Trap};

use std::alloc::{AllocError, Global};
use strm_codes::codes::{ReturnCode, TransmitIndex};
use strm_codes::payloads::Payload;
use strm_codes::scalars::Scalar;
use strm_guest_store::guest_store::GuestStore;
use strm_guest_store::operations::OperateError;
use strm_guest_store::{Chunk, Handle, Limits, Owner, StoreError};

const BYTES: Payload = Payload::One(Scalar::U8);

const CHARS: Payload = Payload::One(Scalar::Char);

const LIMITS: Limits = Limits {
    handles: 2,
    places: 3,
};

/// Why nothing was handed over.
#[derive(Clone, Copy, Debug)]
pub enum HandError {
    Store(StoreError),
    Operate(OperateError),
}

impl From<StoreError> for HandError {
    fn from(error: StoreError) -> HandError {
        HandError::Store(error)
    }
}

impl From<OperateError> for HandError {
    fn from(error: OperateError) -> HandError {
        HandError::Operate(error)
    }
}

/// A store of guests alone, after bytes were handed over: the read's answer, and the write's event.
#[derive(Drop)]
pub struct Handed {
    pub store: GuestStore,
    pub read: ReturnCode,
    pub told: Option<ReturnCode>,
}

/// Hands three bytes from the memory of one guest to another's, over a stream between them.
pub fn hand_three(alloc: Global, bytes: &Chunk) -> Result<Handed, HandError>
    requires { length bytes.now ≡ 3 }
    ensures memory { IfOk result (λ handed.
        take 3 (memory_in handed.store.guests 1) ≡ bytes.now) }
    ensures read { IfOk result (λ handed. handed.read ≡ Completed 3) }
    ensures told { IfOk result (λ handed. handed.told ≡ Some (Completed 3)) }
    ensures moved { IfOk result (λ handed. (stream_at handed.store 0).received ≡ 3) }
{
    let mut store = GuestStore::new(alloc, 0, LIMITS);
    let writer = store.add_guest(16)?;
    let reader = store.add_guest(16)?;
    let pair = store.new_between(writer, reader, TransmitIndex::Stream(BYTES))?;
    bytes.sound();
    store.write_memory(writer, 0, bytes.as_slice())?;
    store.stream_write(writer, BYTES, pair.write, 0, 3)?;
    let read = store.stream_read(reader, BYTES, pair.read, 0, 3)?;
    let told = store.take_event(writer, pair.write)?;
    Ok(Handed { store, read, told })
}

/// What comes of a guest's read.
#[derive(Clone, Copy, Debug)]
pub enum Told {
    /// The guest goes on with this word, that of its read's code.
    Word(u32),
    /// This guest traps: it asked for what may not be done, or writes an item that is none.
    Trap(u32),
}

/// Reads for a guest. Where that may not be done, the guest traps; where an item is none, the guest that
/// writes it, which may be another. Nothing has changed then, and all others go on.
pub fn read_for(store: &mut GuestStore, guest: u32, handle: u32, address: u32, count: u32) -> Told
    ensures { (other : ℕ) → result ≡ Trap other → store.new ≡ store.old }
{
    match store.stream_read(guest, CHARS, handle, address, count) {
        Ok(code) => Told::Word(code.encode()),
        Err(OperateError::Refused(_)) => Told::Trap(guest),
        Err(OperateError::BadItem(item)) => Told::Trap(item.guest),
    }
}

/// The guest that has the other end of a guest's end, and its handle there: whom a runtime wakes once the
/// end was written, read or dropped. None where the handle is no end, or no guest has the other one.
pub fn across(store: &GuestStore, guest: u32, handle: u32) -> Option<(u32, u32)>
    ensures { IfSome result (λ other.
        owner_across store.now guest handle ≡ Held other.0 other.1) }
{
    match store.handle(guest, handle) {
        Ok(Handle::End(end)) => match end.other {
            Owner::Held { guest, handle } => Some((guest, handle)),
            _ => None,
        },
        _ => None,
    }
}

/// Fills a guest's memory in place; false where there is no such guest.
pub fn fill(store: &mut GuestStore, guest: u32, byte: u8) -> bool
    ensures unknown { result ≡ false → store.new ≡ store.old }
    ensures others { (other : ℕ) → other ≢ guest → memory_in store.new.guests other
        ≡ memory_in store.old.guests other }
{
    if !store.has_guest(guest) {
        return false;
    }
    store.memory_mut(guest).fill(byte);
    true
}

/// Reads for a guest, and asks before and after where its memory lies: at the same address, whatever the
/// read answered. None where there is no such guest.
pub fn read_in_place(
    store: &mut GuestStore,
    guest: u32,
    handle: u32,
    address: u32,
    count: u32,
) -> Option<(*const u8, *const u8)>
    ensures { IfSome result (λ bases. bases.0 ≡ bases.1) }
{
    if !store.has_guest(guest) {
        return None;
    }
    let before = store.memory_base(guest);
    let _ = store.stream_read(guest, BYTES, handle, address, count);
    if !store.has_guest(guest) {
        return None;
    }
    let after = store.memory_base(guest);
    Some((before, after))
}

/// The guest that has the next turn, in a round by number: the least behind the last one that has something to be
/// told, or else the least of all. None where none has.
pub fn next_turn(store: &mut GuestStore, last: u32) -> Result<Option<u32>, AllocError>
    ensures ready { IfOk result (λ guest. IfSome guest (λ guest.
        is_ready_guest store.old guest ≡ true)) }
    ensures none { result ≡ Ok None → (guest : ℕ) → guest < length store.old.guests →
        is_ready_guest store.old guest ≡ false }
    ensures same { store.new ≡ store.old }
{
    match store.next_ready_guest(last.saturating_add(1))? {
        Some(guest) => Ok(Some(guest)),
        None => store.next_ready_guest(0),
    }
}

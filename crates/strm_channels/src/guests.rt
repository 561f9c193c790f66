//! Guests: a memory, a handle table and waitable sets each.
//!
//! Source: wasmtime, the component instances that a store keeps.

ghost use Rattle.std.specs.Prelude.{◌≡◌, ◌≢◌, ◌+◌, ◌*◌, ◌<◌, ◌≤◌, [], ◌++◌, length, take, drop, false, true, IfSome};
ghost use denote.RawPtr.{◌+ₚ◌};
ghost use Rattle.std.specs.Vec.{vec_ptr};
ghost use Rattle.strm_codes.specs.Layout.{item_type};
ghost use Rattle.strm_codes.specs.ItemTypes.{item_size};
ghost use Rattle.strm_memory.specs.Bytes.{put_at};
ghost use Rattle.strm_memory.specs.Region.{bytes_out_of_bounds};
ghost use Rattle.strm_machine.specs.State.{memory_in, with_memory};
ghost use Rattle.strm_machine.specs.Bases.{base_in, is_lent_in, with_base};
ghost use Rattle.strm_memory.specs.Linear.{untold, of_engine};
ghost use Rattle.strm_channels.specs.Guests.{guests_of, linear_in, with_linear, Receives};

use std::alloc::Global;
use std::mem;
use std_alloc::vec::Lodged;
use strm_codes::counts::ItemCount;
use strm_codes::payloads::Payload;
use strm_handles::tables::HandleTable;
use strm_memory::copies::BadItem;
use strm_memory::memories::GuestMemory;
use strm_waitable_sets::sets::WaitableSets;

/// A guest.
#[derive(Drop)]
pub struct Guest {
    pub memory: GuestMemory,
    pub table: HandleTable,
    pub sets: WaitableSets,
}

/// The memory of a guest.
#[inline(always)]
pub fn memory(guests: &Vec<Guest>, guest: usize) -> &GuestMemory
    requires { guest < length guests.now.items }
    ensures { result.now ≡ linear_in (guests_of guests.now.items) guest }
{
    &guests[guest].memory
}

/// Takes a guest's memory out, and leaves no bytes.
#[inline(always)]
pub fn take_memory(alloc: Global, guests: &mut Vec<Guest>, guest: usize) -> GuestMemory
    requires { guest < length guests.old.items }
    ensures memory { result ≡ linear_in (guests_of guests.old.items) guest }
    ensures rest { guests_of guests.new.items
        ≡ with_linear (guests_of guests.old.items) guest (untold []) }
    ensures count { length guests.new.items ≡ length guests.old.items }
{
    mem::replace(&mut guests[guest].memory, GuestMemory::empty(alloc))
}

/// Gives a guest another memory.
#[inline(always)]
pub fn put_memory(guests: &mut Vec<Guest>, guest: usize, memory: GuestMemory)
    requires { guest < length guests.old.items }
    ensures guests { guests_of guests.new.items
        ≡ with_linear (guests_of guests.old.items) guest memory }
    ensures count { length guests.new.items ≡ length guests.old.items }
{
    guests[guest].memory = memory;
}

// Items of a guest's memory received in the memory of a guest behind it.
#[inline(always)]
fn receive_behind(
    guests: &mut [Guest],
    from: usize,
    source: u32,
    to: usize,
    target: u32,
    payload: Payload,
    count: ItemCount,
) -> Result<(), BadItem>
    requires behind { from < to }
    requires there { to < length guests.old }
    requires source_holds { source + item_size (item_type payload) * count
        ≤ length (memory_in (guests_of guests.old) from) }
    requires target_holds { target + item_size (item_type payload) * count
        ≤ length (memory_in (guests_of guests.old) to) }
    ensures received { Receives payload count (guests_of guests.old) (guests_of guests.new)
        from source to target result }
    ensures length { length guests.new ≡ length guests.old }
{
    let (low, high) = guests.split_at_mut(to);
    let reader = &mut high[0];
    let writer = &low[from];
    reader
        .memory
        .receive(target, &writer.memory, source, payload, count)
}

// The same of a guest before it.
#[inline(always)]
fn receive_before(
    guests: &mut [Guest],
    from: usize,
    source: u32,
    to: usize,
    target: u32,
    payload: Payload,
    count: ItemCount,
) -> Result<(), BadItem>
    requires before { to < from }
    requires there { from < length guests.old }
    requires source_holds { source + item_size (item_type payload) * count
        ≤ length (memory_in (guests_of guests.old) from) }
    requires target_holds { target + item_size (item_type payload) * count
        ≤ length (memory_in (guests_of guests.old) to) }
    ensures received { Receives payload count (guests_of guests.old) (guests_of guests.new)
        from source to target result }
    ensures length { length guests.new ≡ length guests.old }
{
    let (low, high) = guests.split_at_mut(from);
    let reader = &mut low[to];
    let writer = &high[0];
    reader
        .memory
        .receive(target, &writer.memory, source, payload, count)
}

/// Copies so many items from an address of a guest's memory to one of another guest's, where both lie.
#[inline(always)]
pub fn receive_between(
    guests: &mut Vec<Guest>,
    from: usize,
    source: u32,
    to: usize,
    target: u32,
    payload: Payload,
    count: ItemCount,
) -> Result<(), BadItem>
    requires apart { from ≢ to }
    requires from_there { from < length guests.old.items }
    requires to_there { to < length guests.old.items }
    requires source_holds { source + item_size (item_type payload) * count
        ≤ length (memory_in (guests_of guests.old.items) from) }
    requires target_holds { target + item_size (item_type payload) * count
        ≤ length (memory_in (guests_of guests.old.items) to) }
    ensures received { Receives payload count (guests_of guests.old.items)
        (guests_of guests.new.items) from source to target result }
    ensures length { length guests.new.items ≡ length guests.old.items }
{
    if from < to {
        receive_behind(
            guests.as_mut_slice(),
            from,
            source,
            to,
            target,
            payload,
            count,
        )
    } else {
        receive_before(
            guests.as_mut_slice(),
            from,
            source,
            to,
            target,
            payload,
            count,
        )
    }
}

/// Where a guest's memory lies, which is told: from now on it lies there. Takes no memory.
pub fn tell_base(guests: &mut Vec<Guest>, guest: usize) -> *const u8
    requires { guest < length guests.old.items }
    ensures told { guests_of guests.new.items
        ≡ with_base (guests_of guests.old.items) guest result }
    ensures again { IfSome (base_in (guests_of guests.old.items) guest) (λ base. result ≡ base.at) }
    ensures count { length guests.new.items ≡ length guests.old.items }
{
    let memory = &mut guests[guest].memory;
    memory.tell_base()
}

/// Whether an engine lent a guest's memory.
pub fn is_lent(guests: &Vec<Guest>, guest: usize) -> bool
    requires { guest < length guests.now.items }
    ensures { result ≡ is_lent_in (guests_of guests.now.items) guest }
{
    memory(guests, guest).is_lent()
}

/// A guest's memory, which an engine lent, has these bytes too, which lie behind its end. Takes no memory.
pub fn grow_memory(guests: &mut Vec<Guest>, guest: usize, more: Vec<u8, Lodged>)
    requires there { guest < length guests.old.items }
    requires lent { is_lent_in (guests_of guests.old.items) guest ≡ true }
    requires behind { IfSome (base_in (guests_of guests.old.items) guest) (λ base.
        vec_ptr more ≡ base.at +ₚ length (memory_in (guests_of guests.old.items) guest)) }
    requires small { length (memory_in (guests_of guests.old.items) guest) + length more.items
        < 4294967296 }
    ensures grown { guests_of guests.new.items ≡ with_memory (guests_of guests.old.items) guest
        (memory_in (guests_of guests.old.items) guest ++ more.items) }
    ensures count { length guests.new.items ≡ length guests.old.items }
{
    let memory = &mut guests[guest].memory;
    memory.grown(more);
}

/// A guest's memory, which an engine lent, goes on in these bytes, which begin with all of its own. Answers
/// the bytes in which it was. Takes no memory.
pub fn move_memory(guests: &mut Vec<Guest>, guest: usize, bytes: Vec<u8, Lodged>) -> Vec<u8, Lodged>
    requires there { guest < length guests.old.items }
    requires lent { is_lent_in (guests_of guests.old.items) guest ≡ true }
    requires begins { take (length (memory_in (guests_of guests.old.items) guest)) bytes.items
        ≡ memory_in (guests_of guests.old.items) guest }
    ensures moved { guests_of guests.new.items ≡ with_linear (guests_of guests.old.items) guest
        (of_engine bytes.items (vec_ptr bytes)) }
    ensures left { of_engine result.items (vec_ptr result)
        ≡ linear_in (guests_of guests.old.items) guest }
    ensures count { length guests.new.items ≡ length guests.old.items }
{
    let memory = &mut guests[guest].memory;
    memory.moved(bytes)
}

/// Puts bytes into a guest's memory.
pub fn write_bytes(guests: &mut Vec<Guest>, guest: usize, address: u32, bytes: &[u8])
    requires there { guest < length guests.old.items }
    requires inside { bytes_out_of_bounds (length (memory_in (guests_of guests.old.items) guest))
        address (length bytes.now) ≡ false }
    ensures guests { guests_of guests.new.items ≡ with_memory (guests_of guests.old.items) guest
        (put_at (memory_in (guests_of guests.old.items) guest) address bytes.now) }
    ensures count { length guests.new.items ≡ length guests.old.items }
{
    let memory = &mut guests[guest].memory;
    memory.store(address, bytes).unwrap();
}

/// So many bytes of a guest's memory.
pub fn read_bytes(guests: &Vec<Guest>, guest: usize, address: u32, len: u32) -> &[u8]
    requires there { guest < length guests.now.items }
    requires inside { bytes_out_of_bounds (length (memory_in (guests_of guests.now.items) guest))
        address len ≡ false }
    ensures exact { result.now
        ≡ take len (drop address (memory_in (guests_of guests.now.items) guest)) }
    ensures most { length result.now ≤ len }
{
    let bytes = memory(guests, guest).bytes();
    let from = (address as usize).min(bytes.len());
    &bytes[from..from + len as usize]
}

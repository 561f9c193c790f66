//! Items kept as their bytes.
//!
//! Source: ours. Layout: Canonical ABI, "Loading" and "Storing".

ghost use Rattle.std.specs.Prelude.{◌≡◌, ◌+◌, ◌*◌, ◌^◌, ◌<◌, ◌≤◌, [], ◌∷◌, ◌++◌, length, take, drop, map, replicate, slice_get, Some, None, IsOk, IfOk, OnOk, OnErr};
ghost use Rattle.strm_codes.specs.Layout.{item_type};
ghost use Rattle.strm_codes.specs.ItemTypes.{item_size};
ghost use Rattle.strm_codes.specs.Begins.{FitsItem};
ghost use Rattle.strm_codes.specs.declared.payloads.Payload.TheVariants.{One};
ghost use Rattle.strm_codes.specs.declared.scalars.Scalar.TheVariants.{U8};
ghost use Rattle.strm_memory.specs.Linear.{with_contents};
ghost use Rattle.strm_memory.specs.Items.{stored, stored_at, AreItems, byte_items};
ghost use Rattle.strm_buffers.specs.Keeping.{with_space};
ghost use Rattle.strm_buffers.specs.Windows.{IsUntold};
ghost use Rattle.strm_buffers.specs.Listing.{kept_items, items_in, AreItemsKept, LieIn, AreStored};

use crate::item_bytes::ItemBytes;
use crate::kept_bytes::are_bytes;
use bytes::Bytes;
use std::alloc::Global;
use std::marker::Model;
use strm_codes::counts::OutOfMemory;
use strm_codes::payloads::Payload;
use strm_codes::scalars::Scalar;
use strm_codes::values::Value;
use strm_memory::copies::copy_region;
use strm_memory::items::{lift_item_into, lower_item_at};
use strm_memory::memories::GuestMemory;
use strm_memory::moves::append_zeros;
use strm_memory::payloaded::{Payloaded, put_values};

/// The most items that one list can hold.
pub const MOST_ITEMS: u32 = 4_294_967_294;

/// At most `MOST_ITEMS` values of one payload.
#[derive(Drop)]
pub struct Items {
    payload: Payload,
    bytes: ItemBytes,
    // Where the first item lies; nothing stands behind the last.
    start: usize,
    len: usize,
}

impl Model for Items {
    ghost use Rattle.strm_buffers.specs.Listing.{TypedItems, kept_items, AreItemsKept};

    ghost Value = { TypedItems };

    ghost view = { λ s. kept_items s.payload s.bytes s.start s.len };

    ghost invariant = { λ s. AreItemsKept s.payload s.bytes s.start s.len };
}

impl Items {
    /// No items. Takes no memory.
    pub fn new(alloc: Global, payload: Payload) -> Items
        ensures payload { result.payload ≡ payload }
        ensures items { result.items ≡ [] }
    {
        Items {
            payload,
            bytes: ItemBytes::of_vec(Vec::new(alloc)),
            start: 0,
            len: 0,
        }
    }

    /// So many items, which these bytes are. Takes no memory.
    pub fn of_bytes(payload: Payload, bytes: Vec<u8>, len: usize) -> Items
        requires { AreItemsKept payload bytes.items 0 len }
        ensures { result ≡ kept_items payload bytes.items 0 len }
    {
        Items {
            payload,
            bytes: ItemBytes::of_vec(bytes),
            start: 0,
            len,
        }
    }

    /// The items of payload u8 that the bytes of a block are. No byte is copied. Takes no memory.
    pub fn of_shared(alloc: Global, bytes: Bytes) -> Items
        requires { length bytes < 4294967295 }
        ensures payload { result.payload ≡ One U8 }
        ensures items { result.items ≡ byte_items bytes }
    {
        let len = bytes.len();
        are_bytes(bytes.as_slice());
        Items {
            payload: Payload::One(Scalar::U8),
            bytes: ItemBytes::of_shared(alloc, bytes),
            start: 0,
            len,
        }
    }

    /// Makes them ready to be copied without a copy of their bytes, by `copy`: until one of them grows,
    /// all have the same block. Where there is no memory for its count of owners, nothing has changed.
    pub fn share(&mut self)
        ensures { self.new ≡ self.old }
    {
        self.bytes.share();
    }

    /// The items that these values are. After `OutOfMemory`, which does not come where the values are
    /// bytes, nothing was kept.
    pub fn of_values<T: Payloaded>(alloc: Global, values: Vec<T>) -> Result<Items, OutOfMemory>
        requires { length values.items < 4294967295 }
        ensures payload { IfOk result (λ items. items.payload ≡ T.payload) }
        ensures items { IfOk result (λ items. items.items ≡ map T.item values.items) }
        ensures bytes { T.payload ≡ One U8 → IsOk result }
    {
        let count = values.len();
        let bytes = bytes_of_values(alloc, values)?;
        Ok(Items::of_bytes(T::payload(), bytes, count))
    }

    // The bytes of the items.
    pub(crate) fn bytes(&self) -> &[u8]
        ensures lie { LieIn (item_type self.now.payload) result.now 0 (length self.now.items) }
        ensures items { items_in (item_type self.now.payload) result.now 0 (length self.now.items)
            ≡ self.now.items }
        ensures all { length result.now
            ≡ item_size (item_type self.now.payload) * length self.now.items }
    {
        self.bytes.as_slice().split_at(self.start).1
    }

    // The bytes of so many items from a place on.
    pub(crate) fn bytes_of(&self, start: usize, count: usize) -> &[u8]
        requires { start + count ≤ length self.now.items }
        ensures lie { LieIn (item_type self.now.payload) result.now 0 count }
        ensures items { items_in (item_type self.now.payload) result.now 0 count
            ≡ take count (drop start self.now.items) }
        ensures all { length result.now ≡ item_size (item_type self.now.payload) * count }
    {
        let size = self.payload.size() as usize;
        let (_, behind) = self.bytes().split_at(size * start);
        behind.split_at(size * count).0
    }

    /// What one item is.
    pub fn payload(&self) -> Payload
        ensures { result ≡ self.now.payload }
    {
        self.payload
    }

    /// Each fits the payload: what a caller may have to know of them. It does nothing.
    pub fn sound(&self)
        ensures { AreItems (item_type self.now.payload) self.now.items }
    {
        let _ = &self.bytes;
    }

    /// How many items there are.
    pub fn len(&self) -> usize
        ensures exact { result ≡ length self.now.items }
        ensures most { result < 4294967295 }
    {
        self.len
    }

    /// An item, from 0.
    pub fn get(&self, index: usize) -> Value
        requires { index < length self.now.items }
        ensures exact { slice_get self.now.items index ≡ Some result }
        ensures fits { FitsItem (item_type self.now.payload) result }
    {
        let mut item = Value::empty();
        self.get_into(index, &mut item);
        item
    }

    // The same, put into an empty item.
    pub(crate) fn get_into(&self, index: usize, item: &mut Value)
        requires inside { index < length self.now.items }
        requires empty { item.old ≡ [] }
        ensures exact { slice_get self.now.items index ≡ Some item.new }
        ensures fits { FitsItem (item_type self.now.payload) item.new }
    {
        let size = self.payload.size() as usize;
        if !lift_item_into(
            self.bytes.as_slice(),
            self.start + size * index,
            &self.payload,
            item,
        ) {
            unreachable!();
        }
    }

    /// Adds an item behind the others. After `OutOfMemory` nothing has changed.
    pub fn push(&mut self, item: &Value) -> Result<(), OutOfMemory>
        requires fits { FitsItem (item_type self.old.payload) item.now }
        requires few { length self.old.items + 1 < 4294967295 }
        ensures payload { self.new.payload ≡ self.old.payload }
        ensures ok { OnOk result (self.new.items ≡ self.old.items ++ item.now ∷ []) }
        ensures err { OnErr result (self.new ≡ self.old) }
    {
        let end = self.bytes.len();
        self.bytes.append_item(end, item, self.payload)?;
        self.len += 1;
        Ok(())
    }

    /// Adds items behind the others. After `OutOfMemory` nothing has changed.
    pub fn append(&mut self, more: &Items) -> Result<(), OutOfMemory>
        requires payload { more.now.payload ≡ self.old.payload }
        requires few { length self.old.items + length more.now.items < 4294967295 }
        ensures payload { self.new.payload ≡ self.old.payload }
        ensures ok { OnOk result (self.new.items ≡ self.old.items ++ more.now.items) }
        ensures err { OnErr result (self.new ≡ self.old) }
    {
        self.bytes.extend(more.bytes())?;
        self.len += more.len();
        Ok(())
    }

    /// A copy. After `OutOfMemory` nothing was kept.
    pub fn copy(&self) -> Result<Items, OutOfMemory>
        ensures { IfOk result (λ items. items ≡ self.now) }
    {
        let bytes = self.bytes.copy_from(self.start)?;
        Ok(Items {
            payload: self.payload,
            bytes,
            start: 0,
            len: self.len,
        })
    }

    /// Writes the items over bytes from their front on, one behind the other, all at once. Padding stays as
    /// it was. Takes no memory.
    pub fn write_over(&self, bytes: &mut [u8])
        requires { item_size (item_type self.now.payload) * length self.now.items
            ≤ length bytes.old }
        ensures { bytes.new ≡ stored (item_type self.now.payload) bytes.old self.now.items }
    {
        write_from(self.bytes(), bytes, self.payload(), self.len());
    }

    /// Takes so many items off the front.
    pub fn skip(&mut self, count: usize)
        requires { count ≤ length self.old.items }
        ensures payload { self.new.payload ≡ self.old.payload }
        ensures items { self.new.items ≡ drop count self.old.items }
    {
        // For the sum: how many bytes there can be.
        let _ = self.bytes.len();
        self.start += self.payload.size() as usize * count;
        self.len -= count;
    }
}

// Where the item of this number lies, from 0, behind those before it.
pub(crate) fn item_place(address: usize, payload: Payload, index: u32) -> usize
    requires { address + item_size (item_type payload) * index < 2 ^ 64 }
    ensures { result ≡ address + item_size (item_type payload) * index }
{
    address + payload.size() as usize * index as usize
}

// Cuts bytes off at a place, and puts an item there. After `OutOfMemory` nothing has changed.
pub(crate) fn append_item(
    bytes: &mut Vec<u8>,
    at: usize,
    item: &Value,
    payload: Payload,
) -> Result<(), OutOfMemory>
    requires fits { FitsItem (item_type payload) item.now }
    requires inside { at ≤ length bytes.old.items }
    ensures ok { OnOk result (bytes.new.items ≡ stored_at (item_type payload)
        (take at bytes.old.items ++ replicate (item_size (item_type payload)) 0) at
        (item.now ∷ [])) }
    ensures err { OnErr result (bytes.new.items ≡ bytes.old.items) }
{
    append_zeros(bytes, at, payload.size() as usize)?;
    lower_item_at(item, payload, bytes.as_mut_slice(), at);
    Ok(())
}

// Space for so many items at a place: a stated room has it, else it is made, and the bytes behind the
// place are given up. After `OutOfMemory`, which comes only where no room is stated, nothing has
// changed.
#[inline(always)]
pub(crate) fn make_space(
    memory: &mut GuestMemory,
    room: Option<u32>,
    at: usize,
    payload: Payload,
    count: u32,
) -> Result<(), OutOfMemory>
    requires inside { at ≤ length memory.old.bytes }
    requires untold { IsUntold room memory.old.base }
    ensures ok { OnOk result (memory.new ≡ with_contents memory.old
        (with_space room memory.old.bytes at (item_size (item_type payload) * count))) }
    ensures err { OnErr result (memory.new ≡ memory.old) }
    ensures out_of_memory { OnErr result (room ≡ None) }
{
    match room {
        Some(_) => Ok(()),
        None => memory.append_zeros(at, payload.size() as usize * count as usize),
    }
}

// Writes an item at a place.
pub(crate) fn write_item(memory: &mut GuestMemory, at: usize, item: &Value, payload: Payload)
    requires fits { FitsItem (item_type payload) item.now }
    requires inside { at + item_size (item_type payload) ≤ length memory.old.bytes }
    ensures { memory.new ≡ with_contents memory.old
        (stored_at (item_type payload) memory.old.bytes at (item.now ∷ [])) }
{
    lower_item_at(item, payload, memory.bytes_mut(), at);
}

// Writes so many items with which a source begins over bytes from their front on.
fn write_from(source: &[u8], bytes: &mut [u8], payload: Payload, count: usize)
    requires lie { LieIn (item_type payload) source.now 0 count }
    requires inside { item_size (item_type payload) * count ≤ length bytes.old }
    ensures { bytes.new ≡ stored (item_type payload) bytes.old
        (items_in (item_type payload) source.now 0 count) }
{
    match copy_region(source, 0, bytes, 0, payload, count) {
        Ok(()) => {}
        Err(_) => unreachable!(),
    }
}

// Writes so many items at a place with which a source begins.
pub(crate) fn write_items(
    memory: &mut GuestMemory,
    at: usize,
    source: &[u8],
    payload: Payload,
    count: u32,
)
    requires lie { LieIn (item_type payload) source.now 0 count }
    requires inside { at + item_size (item_type payload) * count ≤ length memory.old.bytes }
    ensures { memory.new ≡ with_contents memory.old (stored_at (item_type payload)
        memory.old.bytes at (items_in (item_type payload) source.now 0 count)) }
{
    match copy_region(source, 0, memory.bytes_mut(), at, payload, count as usize) {
        Ok(()) => {}
        Err(_) => unreachable!(),
    }
}

// The bytes of the items that these values are: their own, where they are bytes, else new ones.
fn bytes_of_values<T: Payloaded>(alloc: Global, mut values: Vec<T>) -> Result<Vec<u8>, OutOfMemory>
    requires { length values.items < 4294967295 }
    ensures stored { IfOk result
        (λ bytes. AreStored (item_type T.payload) bytes.items (map T.item values.items)) }
    ensures bytes { T.payload ≡ One U8 → IsOk result }
{
    match T::take_bytes(&mut values) {
        Some(bytes) => {
            are_bytes(&bytes);
            Ok(bytes)
        }
        None => store_values(alloc, &values),
    }
}

// The same in new bytes, one behind the other.
fn store_values<T: Payloaded>(alloc: Global, values: &[T]) -> Result<Vec<u8>, OutOfMemory>
    requires { length values.now < 4294967295 }
    ensures { IfOk result
        (λ bytes. AreStored (item_type T.payload) bytes.items (map T.item values.now)) }
{
    let mut bytes = Vec::new(alloc);
    append_zeros(&mut bytes, 0, T::payload().size() as usize * values.len())?;
    put_values(values, bytes.as_mut_slice());
    Ok(bytes)
}

//! Items that wait in order, as their bytes: put behind the others, and taken off the front.
//!
//! Meaning: `Waiting.antt`. Source: ours. Layout: Canonical ABI, "Loading" and "Storing".

ghost use Rattle.std.specs.Prelude.{◌≡◌, ◌+◌, ◌*◌, ◌<◌, ◌≤◌, [], ◌++◌, length, take, drop, OnOk, OnErr};
ghost use Rattle.strm_codes.specs.Layout.{item_type};
ghost use Rattle.strm_codes.specs.ItemTypes.{item_size};
ghost use Rattle.strm_memory.specs.Items.{stored, AreItems};
ghost use Rattle.strm_buffers.specs.Listing.{LieIn, items_in};
ghost use Rattle.strm_buffers.specs.Tells.{Fills};
ghost use Rattle.strm_buffers.specs.Windows.{Between, HasRoom};

use bytes::BytesMut;
use std::alloc::Global;
use std::marker::Model;
use strm_buffers::windows::Window;
use strm_codes::counts::OutOfMemory;
use strm_codes::payloads::Payload;
use strm_memory::copies::copy_region;

/// At most `MOST_ITEMS` items of one payload, as `strm_buffers` has it. Memory that was taken is used again:
/// what stays moves to the front only where at least as much was given up before it.
#[derive(Drop)]
pub struct ItemQueue {
    payload: Payload,
    bytes: BytesMut,
    len: usize,
}

impl Model for ItemQueue {
    ghost use Rattle.strm_ready_ends.specs.Waiting.{Waiting, waiting_kept};
    ghost use Rattle.strm_buffers.specs.Listing.{AreItemsKept};

    ghost Value = { Waiting };

    ghost view = { λ q. waiting_kept q.payload q.bytes.items q.len q.bytes.spare };

    ghost invariant = { λ q. AreItemsKept q.payload q.bytes.items 0 q.len };
}

impl ItemQueue {
    /// No items. Takes no memory.
    pub fn new(alloc: Global, payload: Payload) -> ItemQueue
        ensures payload { result.payload ≡ payload }
        ensures items { result.items ≡ [] }
    {
        ItemQueue {
            payload,
            bytes: BytesMut::new(alloc),
            len: 0,
        }
    }

    /// What one item is.
    pub fn payload(&self) -> Payload
        ensures { result ≡ self.now.payload }
    {
        self.payload
    }

    /// How many items wait. Each fits the payload.
    pub fn len(&self) -> usize
        ensures exact { result ≡ length self.now.items }
        ensures most { result < 4294967295 }
        ensures fit { AreItems (item_type self.now.payload) self.now.items }
    {
        self.len
    }

    /// Takes the memory for so many items more. After `OutOfMemory` no item has changed.
    pub fn reserve(&mut self, count: u32) -> Result<(), OutOfMemory>
        ensures payload { self.new.payload ≡ self.old.payload }
        ensures items { self.new.items ≡ self.old.items }
        ensures grows { self.old.room ≤ self.new.room }
        ensures room { OnOk result
            (item_size (item_type self.old.payload) * count ≤ self.new.room) }
    {
        self.bytes
            .reserve(self.payload.size() as usize * count as usize)?;
        Ok(())
    }

    /// Puts so many items behind the others, which these bytes are: there is room for them.
    pub fn push_reserved(&mut self, bytes: &[u8], count: u32)
        requires all { length bytes.now ≡ item_size (item_type self.old.payload) * count }
        requires lie { LieIn (item_type self.old.payload) bytes.now 0 count }
        requires few { length self.old.items + count < 4294967295 }
        requires room { length bytes.now ≤ self.old.room }
        ensures payload { self.new.payload ≡ self.old.payload }
        ensures items { self.new.items
            ≡ self.old.items ++ items_in (item_type self.old.payload) bytes.now 0 count }
        ensures left { self.new.room + length bytes.now ≡ self.old.room }
    {
        self.bytes.extend_reserved(bytes);
        self.len += count as usize;
    }

    /// Puts so many items behind the others, which these bytes are. After `OutOfMemory` nothing has changed.
    pub fn push(&mut self, bytes: &[u8], count: u32) -> Result<(), OutOfMemory>
        requires all { length bytes.now ≡ item_size (item_type self.old.payload) * count }
        requires lie { LieIn (item_type self.old.payload) bytes.now 0 count }
        requires few { length self.old.items + count < 4294967295 }
        ensures payload { self.new.payload ≡ self.old.payload }
        ensures ok { OnOk result (self.new.items
            ≡ self.old.items ++ items_in (item_type self.old.payload) bytes.now 0 count) }
        ensures err { OnErr result (self.new.items ≡ self.old.items) }
    {
        self.reserve(count)?;
        self.push_reserved(bytes, count);
        Ok(())
    }

    /// The bytes of the first so many items, one behind the other.
    pub fn first(&self, count: usize) -> &[u8]
        requires { count ≤ length self.now.items }
        ensures lie { LieIn (item_type self.now.payload) result.now 0 count }
        ensures items { items_in (item_type self.now.payload) result.now 0 count
            ≡ take count self.now.items }
        ensures all { length result.now ≡ item_size (item_type self.now.payload) * count }
    {
        let size = self.payload.size() as usize;
        // For the product: how many bytes there can be.
        let _ = self.bytes.len();
        self.bytes.as_slice().split_at(size * count).0
    }

    /// Writes the first so many items over bytes from their front on, one behind the other. Padding stays as
    /// it was.
    pub fn write_first(&self, count: usize, bytes: &mut [u8])
        requires there { count ≤ length self.now.items }
        requires room { item_size (item_type self.now.payload) * count ≤ length bytes.old }
        ensures { bytes.new
            ≡ stored (item_type self.now.payload) bytes.old (take count self.now.items) }
    {
        write_from(self.first(count), bytes, self.payload(), count);
    }

    /// Marks the first so many items in a window. `OutOfMemory` comes only between host ends, and then nothing has
    /// changed.
    pub fn mark_first(&self, window: &mut Window, count: usize) -> Result<(), OutOfMemory>
        requires payload { window.old.payload ≡ self.now.payload }
        requires nothing_marked { window.old.marked ≡ [] }
        requires there { count ≤ length self.now.items }
        requires room { HasRoom window.old.place 0 count }
        ensures marked { OnOk result (window.new.marked ≡ take count self.now.items) }
        ensures err { OnErr result (window.new ≡ window.old) }
        ensures out_of_memory { OnErr result (window.old.place ≡ Between) }
        ensures fills { Fills window.old window.new }
    {
        // For the count: it is below 2^32.
        let _few = self.len();
        window.put_all(self.first(count), count as u32)
    }

    /// Takes so many items off the front.
    pub fn skip(&mut self, count: usize)
        requires { count ≤ length self.old.items }
        ensures payload { self.new.payload ≡ self.old.payload }
        ensures items { self.new.items ≡ drop count self.old.items }
        ensures room { self.old.room ≤ self.new.room }
    {
        // For the product: how many bytes there can be.
        let _ = self.bytes.len();
        give_up(&mut self.bytes, self.payload.size() as usize * count);
        self.len -= count;
    }
}

// Takes so many bytes off the front. Where none are left, the next ones come where these were.
fn give_up(bytes: &mut BytesMut, count: usize)
    requires { count ≤ length bytes.old.items }
    ensures items { bytes.new.items ≡ drop count bytes.old.items }
    ensures room { bytes.old.spare ≤ bytes.new.spare }
{
    if count == bytes.len() {
        bytes.clear();
    } else {
        bytes.advance(count);
    }
}

// Writes so many items with which a source begins over bytes from their front on.
fn write_from(source: &[u8], bytes: &mut [u8], payload: Payload, count: usize)
    requires lie { LieIn (item_type payload) source.now 0 count }
    requires inside { item_size (item_type payload) * count ≤ length bytes.old }
    ensures { bytes.new
        ≡ stored (item_type payload) bytes.old (items_in (item_type payload) source.now 0 count) }
{
    match copy_region(source, 0, bytes, 0, payload, count) {
        Ok(()) => {}
        Err(_) => unreachable!(),
    }
}

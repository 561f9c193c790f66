//! All that a writer was fed: the items, and the bytes of each feed.
//!
//! The bytes of all items lie one after the other, so that those of a poll are copied at once, and
//! the others apart from them: each byte is kept once. Source: ours.

ghost use Rattle.std.specs.Prelude.{◌≡◌, true, ◌+◌, ◌*◌, ◌<◌, ◌≤◌, [], ◌++◌, length, take, drop, IfOk, OnOk, OnErr};
ghost use Rattle.strm_codes.specs.Layout.{item_type};
ghost use Rattle.strm_codes.specs.declared.payloads.Payload.TheVariants.{One};
ghost use Rattle.strm_codes.specs.declared.scalars.Scalar.TheVariants.{U8};
ghost use Rattle.strm_memory.specs.Items.{AreItems};
ghost use Rattle.strm_buffers.specs.Windows.{HasRoom};
ghost use Rattle.strm_buffers.specs.Tells.{Fills};
ghost use Rattle.strm_program_ends.specs.Fed.{nothing_fed, more_fed};

use crate::counting::count_items;
use bytes::BytesMut;
use std::alloc::Global;
use std::marker::Model;
use strm_buffers::items::Items;
use strm_buffers::windows::Window;
use strm_codes::counts::OutOfMemory;
use strm_codes::payloads::Payload;
use strm_codes::scalars::Scalar;

// A feed: how many records there were, and how many bytes are those of its items and how many are
// others. Its bytes lie behind those of the feeds before it.
#[derive(Clone, Copy, Debug)]
pub(crate) struct Feed {
    records: usize,
    len: usize,
    rest_len: usize,
}

const _: () = prove!(size_of::<Feed>() <= 24);

// All feeds of a writer.
#[derive(Drop)]
pub(crate) struct Feeds {
    payload: Payload,
    // The bytes of the items, and how many items these are.
    bytes: BytesMut,
    len: usize,
    // The bytes that are no items.
    rest: Vec<u8>,
    feeds: Vec<Feed>,
}

impl Model for Feeds {
    ghost use Rattle.strm_program_ends.specs.Fed.{AllFed, fed_kept, IsQueueFed};

    ghost Value = { AllFed };

    ghost view = { λ f. fed_kept f.payload f.bytes.items f.len f.rest.items f.feeds.items };

    ghost invariant = { λ f. IsQueueFed f.payload f.bytes.items f.len f.rest.items f.feeds.items };
}

impl Feeds {
    // Nothing fed. Takes no memory.
    pub(crate) fn new(alloc: Global, payload: Payload) -> Feeds
        ensures { result ≡ nothing_fed payload }
    {
        Feeds {
            payload,
            bytes: BytesMut::new(alloc),
            len: 0,
            rest: Vec::new(alloc),
            feeds: Vec::new(alloc),
        }
    }

    // What one item is.
    pub(crate) fn payload(&self) -> Payload
        ensures { result ≡ self.now.payload }
    {
        self.payload
    }

    // How many items were fed.
    pub(crate) fn len(&self) -> usize
        ensures { result ≡ length self.now.items }
    {
        self.len
    }

    // Each fits the payload. It does nothing.
    pub(crate) fn sound(&self)
        ensures { AreItems (item_type self.now.payload) self.now.items }
    {
        let _ = &self.bytes;
    }

    // Adds a feed, behind so many records. After `OutOfMemory` nothing has changed.
    pub(crate) fn feed(&mut self, records: usize, bytes: &[u8]) -> Result<(), OutOfMemory>
        ensures ok { OnOk result (self.new ≡ more_fed self.old records bytes.now) }
        ensures err { OnErr result (self.new ≡ self.old) }
    {
        let count = count_items(bytes, &self.payload);
        let (items, rest) = bytes.split_at(self.payload.size() as usize * count);
        if self.feeds.reserve(1).is_err() {
            return Err(OutOfMemory);
        }
        let rest_before = self.rest.len();
        append(&mut self.rest, rest)?;
        match self.bytes.extend_from_slice(items) {
            Ok(()) => {}
            Err(_) => {
                self.rest.truncate(rest_before);
                return Err(OutOfMemory);
            }
        }
        self.feeds.push_reserved(Feed {
            records,
            len: items.len(),
            rest_len: rest.len(),
        });
        // For the sum: how many bytes there can be.
        let _ = self.bytes.len();
        self.len += count;
        Ok(())
    }

    // A copy of so many items from a place on. After `OutOfMemory` nothing was kept.
    pub(crate) fn copy(&self, start: usize, count: u32) -> Result<Items, OutOfMemory>
        requires there { start + count ≤ length self.now.items }
        requires few { count < 4294967295 }
        ensures { IfOk result (λ copy.
            copy ≡ record {
              payload = self.now.payload;
              items = take count (drop start self.now.items);
            }) }
    {
        let mut bytes = Vec::new(*self.bytes.allocator());
        match bytes.extend_from_slice(self.bytes_of(start, count)) {
            Ok(()) => Ok(Items::of_bytes(self.payload(), bytes, count as usize)),
            Err(_) => Err(OutOfMemory),
        }
    }

    // Marks so many items from a place on.
    pub(crate) fn mark(
        &self,
        window: &mut Window,
        start: usize,
        count: u32,
    ) -> Result<(), OutOfMemory>
        requires payload { window.old.payload ≡ self.now.payload }
        requires nothing_marked { window.old.marked ≡ [] }
        requires room { HasRoom window.old.place 0 count }
        requires there { start + count ≤ length self.now.items }
        ensures marked { OnOk result (window.new.marked ≡ take count (drop start self.now.items)) }
        ensures fills { Fills window.old window.new }
    {
        let bytes = self.bytes_of(start, count);
        if is_byte(self.payload) {
            return window.write(bytes);
        }
        window.put_all(bytes, count)
    }
}

impl Feeds {
    ghost use Rattle.strm_codes.specs.ItemTypes.{item_size};
    ghost use Rattle.strm_buffers.specs.Listing.{LieIn, items_in};

    // The bytes of so many items from a place on.
    fn bytes_of(&self, start: usize, count: u32) -> &[u8]
        requires { start + count ≤ length self.now.items }
        ensures lie { LieIn (item_type self.now.payload) result.now 0 count }
        ensures items { items_in (item_type self.now.payload) result.now 0 count
            ≡ take count (drop start self.now.items) }
        ensures all { length result.now ≡ item_size (item_type self.now.payload) * count }
    {
        let size = self.payload.size() as usize;
        // For the products: how many bytes there can be.
        let _ = self.bytes.len();
        let (_, behind) = self.bytes.as_slice().split_at(size * start);
        behind.split_at(size * count as usize).0
    }
}

// Whether an item is one byte as it stands.
fn is_byte(payload: Payload) -> bool
    ensures { result ≡ true → payload ≡ One U8 }
{
    match payload {
        Payload::One(Scalar::U8) => true,
        _ => false,
    }
}

// Puts bytes behind others. After `OutOfMemory` nothing has changed.
fn append(bytes: &mut Vec<u8>, more: &[u8]) -> Result<(), OutOfMemory>
    ensures ok { OnOk result (bytes.new.items ≡ bytes.old.items ++ more.now) }
    ensures err { OnErr result (bytes.new.items ≡ bytes.old.items) }
{
    if more.is_empty() {
        return Ok(());
    }
    bytes.extend_from_slice(more)?;
    Ok(())
}

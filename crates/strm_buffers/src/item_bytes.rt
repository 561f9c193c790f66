//! The bytes that items are kept as: a vector's own, or a part of a block that others have too.
//!
//! Source: ours.

ghost use Rattle.std.specs.Prelude.{◌≡◌, ◌+◌, ◌^◌, ◌<◌, ◌≤◌, [], ◌∷◌, ◌++◌, length, take, drop, replicate, IfOk, IfErr, OnOk, OnErr};
ghost use Rattle.strm_codes.specs.Layout.{item_type};
ghost use Rattle.strm_codes.specs.ItemTypes.{item_size};
ghost use Rattle.strm_codes.specs.Begins.{FitsItem};
ghost use Rattle.strm_memory.specs.Items.{stored_at};
ghost use Rattle.strm_buffers.specs.Holding.{bytes_held};

use crate::items::append_item;
use bytes::Bytes;
use std::alloc::Global;
use std::marker::Model;
use std::mem;
use strm_codes::counts::OutOfMemory;
use strm_codes::payloads::Payload;
use strm_codes::values::Value;

// Whose bytes they are.
#[derive(Drop)]
pub(crate) enum Held {
    Own { bytes: Vec<u8> },
    Shared { bytes: Bytes },
}

// Bytes of items. Those that are shared are copied before they grow.
#[derive(Drop)]
pub(crate) struct ItemBytes {
    held: Held,
    alloc: Global,
}

impl Model for ItemBytes {
    ghost use Rattle.std.specs.Prelude.{ℕ, List};
    ghost use Rattle.strm_buffers.specs.Holding.{bytes_held};

    ghost Value = { List ℕ };

    ghost view = { λ b. bytes_held b.held };
}

impl ItemBytes {
    // A vector's own.
    pub(crate) fn of_vec(bytes: Vec<u8>) -> ItemBytes
        ensures { result ≡ bytes.items }
    {
        let alloc = *bytes.allocator();
        ItemBytes {
            held: Held::Own { bytes },
            alloc,
        }
    }

    // A part of a block.
    pub(crate) fn of_shared(alloc: Global, bytes: Bytes) -> ItemBytes
        ensures { result ≡ bytes }
    {
        ItemBytes {
            held: Held::Shared { bytes },
            alloc,
        }
    }

    pub(crate) fn as_slice(&self) -> &[u8]
        ensures { result.now ≡ self.now }
    {
        match &self.held {
            Held::Own { bytes } => bytes.as_slice(),
            Held::Shared { bytes } => bytes.as_slice(),
        }
    }

    pub(crate) fn len(&self) -> usize
        ensures exact { result ≡ length self.now }
        ensures bound { result < 2 ^ 63 }
    {
        match &self.held {
            Held::Own { bytes } => bytes.len(),
            Held::Shared { bytes } => bytes.len(),
        }
    }

    // Makes a block of them that may be shared; where there is no memory for its count of owners they
    // stay a vector's own. No byte is copied.
    pub(crate) fn share(&mut self)
        ensures { self.new ≡ self.old }
    {
        self.held = shared(self.take_held());
    }

    // The same bytes from a place on: of a block another part, else a copy. After `OutOfMemory` nothing
    // was kept.
    pub(crate) fn copy_from(&self, start: usize) -> Result<ItemBytes, OutOfMemory>
        requires { start ≤ length self.now }
        ensures { IfOk result (λ copy. copy ≡ drop start self.now) }
    {
        match &self.held {
            Held::Own { bytes } => copy_of(self.alloc, bytes.as_slice().split_at(start).1),
            Held::Shared { bytes } => part_of(self.alloc, bytes, start),
        }
    }

    // Puts bytes behind them. After `OutOfMemory` nothing has changed.
    pub(crate) fn extend(&mut self, more: &[u8]) -> Result<(), OutOfMemory>
        ensures ok { OnOk result (self.new ≡ self.old ++ more.now) }
        ensures err { OnErr result (self.new ≡ self.old) }
    {
        let (held, done) = extended(self.alloc, self.take_held(), more);
        self.held = held;
        done
    }

    // Cuts them off at a place, and puts an item there. After `OutOfMemory` nothing has changed.
    pub(crate) fn append_item(
        &mut self,
        at: usize,
        item: &Value,
        payload: Payload,
    ) -> Result<(), OutOfMemory>
        requires fits { FitsItem (item_type payload) item.now }
        requires inside { at ≤ length self.old }
        ensures ok { OnOk result (self.new ≡ stored_at (item_type payload)
            (take at self.old ++ replicate (item_size (item_type payload)) 0) at (item.now ∷ [])) }
        ensures err { OnErr result (self.new ≡ self.old) }
    {
        let (held, done) = with_item(self.alloc, self.take_held(), at, item, payload);
        self.held = held;
        done
    }

    // All of them, and none are left.
    fn take_held(&mut self) -> Held
        ensures held { bytes_held result ≡ self.old }
        ensures none { self.new ≡ [] }
    {
        let bytes = Bytes::new();
        mem::replace(&mut self.held, Held::Shared { bytes })
    }
}

// A copy as a vector's own. After `OutOfMemory` nothing was kept.
fn copy_of(alloc: Global, bytes: &[u8]) -> Result<ItemBytes, OutOfMemory>
    ensures { IfOk result (λ copy. copy ≡ bytes.now) }
{
    let bytes = Vec::from_slice(alloc, bytes)?;
    Ok(ItemBytes::of_vec(bytes))
}

// The part of a block from a place on. After `OutOfMemory` nothing was kept.
fn part_of(alloc: Global, bytes: &Bytes, start: usize) -> Result<ItemBytes, OutOfMemory>
    requires { start ≤ length bytes.now }
    ensures { IfOk result (λ part. part ≡ drop start bytes.now) }
{
    match bytes.clone() {
        Ok(mut part) => {
            part.advance(start);
            Ok(ItemBytes::of_shared(alloc, part))
        }
        Err(_) => Err(OutOfMemory),
    }
}

// The same bytes as a block that may be shared, where there is memory for its count of owners.
fn shared(held: Held) -> Held
    ensures { bytes_held result ≡ bytes_held held }
{
    match held {
        Held::Shared { bytes } => Held::Shared { bytes },
        Held::Own { bytes } => match Bytes::from_vec(bytes) {
            Ok(bytes) => Held::Shared { bytes },
            Err(failed) => Held::Own {
                bytes: failed.value,
            },
        },
    }
}

// The same bytes as a vector's own; those of a block are copied, and are given back where there is no
// memory for it.
fn owned(alloc: Global, held: Held) -> Result<Vec<u8>, Held>
    ensures ok { IfOk result (λ bytes. bytes.items ≡ bytes_held held) }
    ensures err { IfErr result (λ same. bytes_held same ≡ bytes_held held) }
{
    match held {
        Held::Own { bytes } => Ok(bytes),
        Held::Shared { bytes } => match Vec::from_slice(alloc, bytes.as_slice()) {
            Ok(own) => Ok(own),
            Err(_) => Err(Held::Shared { bytes }),
        },
    }
}

// Bytes, and others behind them, where there is memory for it; else the same bytes.
fn extended(alloc: Global, held: Held, more: &[u8]) -> (Held, Result<(), OutOfMemory>)
    ensures ok { OnOk result.1 (bytes_held result.0 ≡ bytes_held held ++ more.now) }
    ensures err { OnErr result.1 (bytes_held result.0 ≡ bytes_held held) }
{
    match owned(alloc, held) {
        Ok(mut bytes) => {
            let done = match bytes.extend_from_slice(more) {
                Ok(()) => Ok(()),
                Err(_) => Err(OutOfMemory),
            };
            (Held::Own { bytes }, done)
        }
        Err(held) => (held, Err(OutOfMemory)),
    }
}

// Bytes that are cut off at a place, and an item there, where there is memory for it; else the same
// bytes.
fn with_item(
    alloc: Global,
    held: Held,
    at: usize,
    item: &Value,
    payload: Payload,
) -> (Held, Result<(), OutOfMemory>)
    requires fits { FitsItem (item_type payload) item.now }
    requires inside { at ≤ length (bytes_held held) }
    ensures ok { OnOk result.1 (bytes_held result.0 ≡ stored_at (item_type payload)
        (take at (bytes_held held) ++ replicate (item_size (item_type payload)) 0) at
        (item.now ∷ [])) }
    ensures err { OnErr result.1 (bytes_held result.0 ≡ bytes_held held) }
{
    match owned(alloc, held) {
        Ok(mut bytes) => {
            let done = append_item(&mut bytes, at, item, payload);
            (Held::Own { bytes }, done)
        }
        Err(held) => (held, Err(OutOfMemory)),
    }
}

//! Bytes moved, and numbers moved within one memory by their bytes.
//!
//! Source: wasmtime, `futures_and_streams.rs`, the plain copies of `copy`. The calls are ours.

ghost use Rattle.std.specs.Prelude.{◌≡◌, ◌+◌, ◌*◌, ◌≤◌, ◌++◌, length, take, replicate, IsTrue, IsSomeAnd, OnOk, OnErr};
ghost use Rattle.strm_codes.specs.Layout.{item_type};
ghost use Rattle.strm_codes.specs.ItemTypes.{item_size};
ghost use Rattle.strm_memory.specs.Bytes.{put_at, bytes_at};
ghost use Rattle.strm_memory.specs.Items.{items_at, stored_at, is_number_or_none};

use crate::numbers::hold_bytes;
use strm_codes::counts::{ItemCount, OutOfMemory};
use strm_codes::payloads::Payload;

/// Copies all bytes. Takes no memory.
pub fn move_bytes(source: &[u8], destination: &mut [u8])
    requires { length source.now ≡ length destination.old }
    ensures { destination.new ≡ source.now }
{
    destination.copy_from_slice(source);
}

/// Moves so many bytes from one address to another, as they stood before. Takes no memory.
pub fn move_within(memory: &mut [u8], from: u32, to: u32, len: u32)
    requires from_inside { from + len ≤ length memory.old }
    requires to_inside { to + len ≤ length memory.old }
    ensures { memory.new ≡ put_at memory.old to (bytes_at memory.old from len) }
{
    move_region(memory, from as usize, to as usize, len as usize);
}

// The same by wider numbers.
fn move_region(memory: &mut [u8], from: usize, to: usize, len: usize)
    requires from_inside { from + len ≤ length memory.old }
    requires to_inside { to + len ≤ length memory.old }
    ensures { memory.new ≡ put_at memory.old to (bytes_at memory.old from len) }
{
    memory.copy_within(from..from + len, to);
}

/// Copies so many items from one address to another of one memory, as by lifting all of them and
/// then lowering them, however the two regions overlap. Takes no memory.
pub fn copy_within_items(memory: &mut [u8], from: u32, to: u32, payload: Payload, count: ItemCount)
    requires number_or_none { IsTrue (is_number_or_none payload) }
    requires from_inside { from + item_size (item_type payload) * count ≤ length memory.old }
    requires to_inside { to + item_size (item_type payload) * count ≤ length memory.old }
    ensures { IsSomeAnd (items_at (item_type payload) memory.old from count)
        (λ xs. memory.new ≡ stored_at (item_type payload) memory.old to xs) }
{
    hold_bytes(memory);
    let len = payload.size() as usize * count.as_usize();
    move_region(memory, from as usize, to as usize, len);
}

/// Cuts bytes off at a place, and appends so many that are 0. After `OutOfMemory` nothing has changed.
pub fn append_zeros(bytes: &mut Vec<u8>, at: usize, count: usize) -> Result<(), OutOfMemory>
    requires { at ≤ length bytes.old.items }
    ensures ok { OnOk result (bytes.new.items ≡ take at bytes.old.items ++ replicate count 0) }
    ensures err { OnErr result (bytes.new.items ≡ bytes.old.items) }
{
    let behind = bytes.len() - at;
    if bytes.reserve(count.saturating_sub(behind)).is_err() {
        return Err(OutOfMemory);
    }
    bytes.truncate(at);
    match bytes.resize(at + count, 0) {
        Ok(()) => {}
        Err(_) => unreachable!(),
    }
    Ok(())
}

// So many bytes from one slice to another, as they are.
pub(crate) fn copy_bytes(source: &[u8], from: usize, destination: &mut [u8], to: usize, len: usize)
    requires source_holds { from + len ≤ length source.now }
    requires destination_holds { to + len ≤ length destination.old }
    ensures { destination.new ≡ put_at destination.old to (bytes_at source.now from len) }
{
    destination[to..to + len].copy_from_slice(&source[from..from + len]);
}

//! Items copied from one memory to another.
//!
//! Source: Canonical ABI, `ReadableBufferGuestImpl` and `WritableBufferGuestImpl`, where items are
//! lifted and then lowered; wasmtime, `futures_and_streams.rs`, `copy`. That numbers move as bytes,
//! and that a bad item is found before any item moves, are ours.

ghost use Rattle.std.specs.Prelude.{◌≡◌, ◌+◌, ◌*◌, ◌≤◌, ◌↔◌, length, IsTrue, IsNone, IsSomeAnd, IsOk, IsErr, OnOk, OnErr};
ghost use Rattle.strm_codes.specs.ItemTypes.{fields_type, item_size};
ghost use Rattle.strm_codes.specs.Layout.{item_type};
ghost use Rattle.strm_memory.specs.Bytes.{put_at, bytes_at};
ghost use Rattle.strm_memory.specs.Items.{items, stored, items_at, stored_at, is_number_or_none};
ghost use Rattle.strm_memory.specs.Copying.{CopiesItems};

use crate::compounds::copy_compounds;
use crate::good_items::are_good_items;
use crate::limits::copy_good_items;
use crate::moves::copy_bytes;
use strm_codes::counts::ItemCount;
use strm_codes::payloads::Payload;
use strm_codes::scalars::Scalar;
use thiserror::Error;

/// An item holds a character that is no Unicode scalar value, or the number of a case that there is not.
#[derive(Clone, Copy, Debug, PartialEq, Eq, Error)]
#[error("an item is none of its type")]
pub struct BadItem;

/// Copies so many items from the front of one slice to the front of another, as by lifting all of
/// them and then lowering them. Takes no memory.
pub fn copy_items(
    source: &[u8],
    destination: &mut [u8],
    payload: Payload,
    count: ItemCount,
) -> Result<(), BadItem>
    requires source_holds { item_size (item_type payload) * count ≤ length source.now }
    requires destination_holds { item_size (item_type payload) * count ≤ length destination.old }
    ensures ok { OnOk result (IsSomeAnd (items (item_type payload) source.now count)
        (λ xs. destination.new ≡ stored (item_type payload) destination.old xs)) }
    ensures bad { IsErr result ↔ IsNone (items (item_type payload) source.now count) }
    ensures err { OnErr result (destination.new ≡ destination.old) }
    ensures number_or_none { IsTrue (is_number_or_none payload) → IsOk result }
{
    copy_region(source, 0, destination, 0, payload, count.as_usize())
}

/// The same from an address and to one, of any number of items.
#[inline(always)]
pub fn copy_region(
    source: &[u8],
    from: usize,
    destination: &mut [u8],
    to: usize,
    payload: Payload,
    count: usize,
) -> Result<(), BadItem>
    requires source_holds { from + item_size (item_type payload) * count ≤ length source.now }
    requires room { to + item_size (item_type payload) * count ≤ length destination.old }
    ensures ok { OnOk result (IsSomeAnd (items_at (item_type payload) source.now from count)
        (λ xs. destination.new ≡ stored_at (item_type payload) destination.old to xs)) }
    ensures bad { IsErr result ↔ IsNone (items_at (item_type payload) source.now from count) }
    ensures err { OnErr result (destination.new ≡ destination.old) }
    ensures number_or_none { IsTrue (is_number_or_none payload) → IsOk result }
    ensures numbers { IsTrue (is_number_or_none payload) → destination.new
        ≡ put_at destination.old to
        (bytes_at source.now from (item_size (item_type payload) * count)) }
{
    match payload {
        Payload::Nothing => Ok(()),
        Payload::One(scalar) if scalar.is_numeric() => {
            let len = payload.size() as usize * count;
            copy_bytes(source, from, destination, to, len);
            Ok(())
        }
        _ => copy_tested(source, from, destination, to, payload, count),
    }
}

// The same of a payload that is neither nothing nor a plain number, apart from the code of those.
#[inline(never)]
fn copy_tested(
    source: &[u8],
    from: usize,
    destination: &mut [u8],
    to: usize,
    payload: Payload,
    count: usize,
) -> Result<(), BadItem>
    requires source_holds { from + item_size (item_type payload) * count ≤ length source.now }
    requires room { to + item_size (item_type payload) * count ≤ length destination.old }
    ensures { CopiesItems (item_type payload) source.now from destination.old destination.new to
        count result }
{
    let size = payload.size() as usize;
    match payload {
        Payload::Compound(compound) => {
            copy_compounds(
                compound.as_slice(),
                source,
                from,
                destination,
                to,
                size,
                count,
            )
        }
        _ => copy_fields(
            source,
            from,
            destination,
            to,
            payload.scalars(),
            size,
            count,
        ),
    }
}

// The same where items have characters, flags or padding: all are tested first, then copied.
fn copy_fields(
    source: &[u8],
    from: usize,
    destination: &mut [u8],
    to: usize,
    fields: &[Scalar],
    size: usize,
    count: usize,
) -> Result<(), BadItem>
    requires few { length fields.now ≤ 8 }
    requires size { size ≡ item_size (fields_type fields.now) }
    requires source_holds { from + size * count ≤ length source.now }
    requires destination_holds { to + size * count ≤ length destination.old }
    ensures { CopiesItems (fields_type fields.now) source.now from destination.old destination.new to
        count result }
{
    if !are_good_items(fields, source, from, size, count) {
        return Err(BadItem);
    }
    copy_good_items(source, from, destination, to, fields, size, count);
    Ok(())
}

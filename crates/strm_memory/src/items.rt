//! Items lifted from bytes, and lowered into them.
//!
//! Source: Canonical ABI, "Loading" and "Storing", for lists.

ghost use Rattle.std.specs.Prelude.{◌≡◌, ℕ, ◌+◌, ◌*◌, ◌<◌, ◌≤◌, [], ◌∷◌, ◌++◌, length, take, drop, Err, IsErrOf, IsSomeAnd, OnOk, OnErr, vec_len, vec_capacity};
ghost use Rattle.std.specs.Bool.{then_some};
ghost use Rattle.strm_codes.specs.Begins.{FitsItem};
ghost use Rattle.strm_codes.specs.Fields.{end_offset, FitsFields};
ghost use Rattle.strm_codes.specs.ItemTypes.{fields_type, item_size};
ghost use Rattle.strm_codes.specs.Layout.{item_type};
ghost use Rattle.strm_memory.specs.Items.{items, items_at, stored, stored_at, AreItems, IsFirstBadItem};
ghost use Rattle.strm_memory.specs.Loads.{decode, encode};

use crate::compounds::{lift_compound, lower_compound};
use crate::fields::{field_start, lift_field, lower_field};
use strm_codes::counts::ItemCount;
use strm_codes::payloads::Payload;
use strm_codes::scalars::Scalar;
use strm_codes::values::Value;
use thiserror::Error;

/// Why items were not lifted. The vector is as it was.
#[derive(Clone, Copy, Debug, PartialEq, Eq, Error)]
pub enum LiftError {
    /// The first item, from 0, that holds a character which is no Unicode scalar value, or the number of a
    /// case that there is not.
    #[error("item {index} is none of its type")]
    BadItem { index: u32 },
    /// The vector had no room and could not grow.
    #[error("out of memory")]
    OutOfMemory,
}

/// Appends so many items from the front of the bytes.
pub fn lift_items(
    bytes: &[u8],
    payload: Payload,
    count: ItemCount,
    out: &mut Vec<Value>,
) -> Result<(), LiftError>
    requires { item_size (item_type payload) * count ≤ length bytes.now }
    ensures ok { OnOk result (IsSomeAnd (items (item_type payload) bytes.now count)
        (λ xs. out.new.items ≡ out.old.items ++ xs)) }
    ensures bad_item { (index : ℕ) → IsErrOf result (LiftError.BadItem index) →
        IsFirstBadItem (item_type payload) bytes.now count index }
    ensures out_of_memory { IsErrOf result LiftError.OutOfMemory →
        vec_capacity out.old < vec_len out.old + count }
    ensures err { OnErr result (out.new.items ≡ out.old.items) }
{
    lift_from(bytes, 0, &payload, count.as_u32(), out)
}

// The same from an address on.
pub(crate) fn lift_from(
    bytes: &[u8],
    from: usize,
    payload: &Payload,
    count: u32,
    out: &mut Vec<Value>,
) -> Result<(), LiftError>
    requires holds { from + item_size (item_type payload.now) * count ≤ length bytes.now }
    ensures ok { OnOk result (IsSomeAnd (items_at (item_type payload.now) bytes.now from count)
        (λ xs. out.new.items ≡ out.old.items ++ xs)) }
    ensures bad_item { (index : ℕ) → IsErrOf result (LiftError.BadItem index) →
        IsFirstBadItem (item_type payload.now) (drop from bytes.now) count index }
    ensures out_of_memory { IsErrOf result LiftError.OutOfMemory →
        vec_capacity out.old < vec_len out.old + count }
    ensures err { OnErr result (out.new.items ≡ out.old.items) }
{
    match out.reserve(count as usize) {
        Ok(()) => {}
        Err(_) => return Err(LiftError::OutOfMemory),
    }
    let size = payload.size() as usize;
    let start = out.len();
    let mut at = from;
    for k in 0..count {
        let mut item = Value::empty();
        if !lift_item_into(bytes, at, payload, &mut item) {
            out.truncate(start);
            return Err(LiftError::BadItem { index: k });
        }
        out.push_reserved(item);
        at += size;
    }
    Ok(())
}

/// The item that lies in the bytes from a place on; none where it holds a character that is no
/// Unicode scalar value, or the number of a case that there is not. Takes no memory.
pub fn lift_item_at(bytes: &[u8], from: usize, payload: Payload) -> Option<Value>
    requires { from + item_size (item_type payload) ≤ length bytes.now }
    ensures { result ≡ decode (item_type payload) (drop from bytes.now) }
{
    let mut item = Value::empty();
    if lift_item_into(bytes, from, &payload, &mut item) {
        Some(item)
    } else {
        None
    }
}

/// The same, put into an empty item: whether there is one, else what it holds then is no item. A
/// caller that keeps the item moves it once less than an `Option` of it.
pub fn lift_item_into(bytes: &[u8], from: usize, payload: &Payload, item: &mut Value) -> bool
    requires holds { from + item_size (item_type payload.now) ≤ length bytes.now }
    requires empty { item.old ≡ [] }
    ensures { then_some result item.new ≡ decode (item_type payload.now) (drop from bytes.now) }
{
    match payload {
        Payload::Compound(compound) => lift_compound(compound.as_slice(), bytes, from, item),
        _ => lift_fields_into(payload.scalars(), bytes, from, item),
    }
}

/// Stores one item in the bytes from a place on. Padding stays as it was. Takes no memory.
pub fn lower_item_at(item: &Value, payload: Payload, bytes: &mut [u8], to: usize)
    requires fits { FitsItem (item_type payload) item.now }
    requires holds { to + item_size (item_type payload) ≤ length bytes.old }
    ensures { bytes.new ≡ stored_at (item_type payload) bytes.old to (item.now ∷ []) }
{
    match payload {
        Payload::Compound(compound) => lower_compound(compound.as_slice(), item, bytes, to),
        _ => lower_fields(payload.scalars(), item, bytes, to),
    }
}

// Lifts an item into an empty one, field by field: whether there is one. Each number is written once.
fn lift_fields_into(fields: &[Scalar], bytes: &[u8], from: usize, item: &mut Value) -> bool
    requires few { length fields.now ≤ 8 }
    requires holds { from + end_offset 0 fields.now ≤ length bytes.now }
    requires empty { item.old ≡ [] }
    ensures { then_some result item.new ≡ decode (fields_type fields.now) (drop from bytes.now) }
{
    let mut at = 0;
    for k in 0..fields.len() {
        let scalar = fields[k];
        let start = field_start(fields, k, at);
        match lift_field(bytes, from + start, scalar) {
            Some(number) => item.push(number),
            None => return false,
        }
        at = start + scalar.size() as usize;
    }
    true
}

/// Stores items from the front of the bytes on, one after the other. Padding stays as it was. Takes
/// no memory.
pub fn lower_items(items: &[Value], payload: Payload, bytes: &mut [u8])
    requires fit { AreItems (item_type payload) items.now }
    requires holds { item_size (item_type payload) * length items.now ≤ length bytes.old }
    ensures { bytes.new ≡ stored (item_type payload) bytes.old items.now }
{
    lower_from(items, &payload, bytes, 0)
}

// The same from an address on.
pub(crate) fn lower_from(items: &[Value], payload: &Payload, bytes: &mut [u8], to: usize)
    requires fit { AreItems (item_type payload.now) items.now }
    requires holds { to + item_size (item_type payload.now) * length items.now
        ≤ length bytes.old }
    ensures { bytes.new ≡ stored_at (item_type payload.now) bytes.old to items.now }
{
    let size = payload.size() as usize;
    let mut at = to;
    for k in 0..items.len() {
        lower_item_at(&items[k], *payload, bytes, at);
        at += size;
    }
}

// Stores one item there, field by field.
fn lower_fields(fields: &[Scalar], value: &Value, bytes: &mut [u8], to: usize)
    requires fits { FitsFields fields.now value.now }
    requires holds { to + end_offset 0 fields.now ≤ length bytes.old }
    ensures { bytes.new
        ≡ take to bytes.old ++ encode (fields_type fields.now) (drop to bytes.old) value.now }
{
    let numbers = value.as_slice();
    let mut at = 0;
    for k in 0..fields.len() {
        let scalar = fields[k];
        let start = field_start(fields, k, at);
        lower_field(bytes, to + start, scalar, numbers[k]);
        at = start + scalar.size() as usize;
    }
}

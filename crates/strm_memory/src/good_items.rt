//! Which items of a region are good: each whose bytes stand for one.
//!
//! Ours. Of scalars the bytes of a character alone can stand for none, so where no field is one nothing is
//! looked at; else many items are tested at once, field by field. Items of other types are tested one by one.

ghost use Rattle.std.specs.Prelude.{◌≡◌, ◌+◌, ◌*◌, ◌-◌, ◌<◌, ◌≤◌, min, true, false, length, drop, is_some};
ghost use Rattle.strm_codes.specs.ItemTypes.{fields_type, item_size};
ghost use Rattle.strm_codes.specs.Layout.{item_type};
ghost use Rattle.strm_memory.specs.Items.{items_at, good_items};

use crate::columns::{Column, is_good_column};
use crate::compounds::count_good_compounds;
use crate::fields::field_start;
use strm_codes::payloads::Payload;
use strm_codes::scalars::Scalar;

/// How many of so many items from a place on are good, up to the first that is none. Takes no memory.
pub fn count_good_items(bytes: &[u8], from: usize, payload: &Payload, count: usize) -> usize
    requires { from + item_size (item_type payload.now) * count ≤ length bytes.now }
    ensures { result ≡ length (good_items (item_type payload.now) (drop from bytes.now) count) }
{
    if let Payload::Compound(compound) = payload {
        let size = payload.size() as usize;
        return count_good_compounds(compound.as_slice(), bytes, from, size, count);
    }
    let fields = payload.scalars();
    if !fields.contains(&Scalar::Char) {
        return count;
    }
    count_tested(fields, bytes, from, payload.size() as usize, count)
}

// The same by a test of each: of many at once, and one by one where a bad one is among these.
fn count_tested(fields: &[Scalar], bytes: &[u8], from: usize, size: usize, count: usize) -> usize
    requires size { size ≡ item_size (fields_type fields.now) }
    requires holds { from + size * count ≤ length bytes.now }
    ensures { result ≡ length (good_items (fields_type fields.now) (drop from bytes.now) count) }
{
    let most = items_in_block(size);
    let done = count_in_blocks(fields, bytes, from, size, count, most);
    let block = most.min(count - done);
    done + count_in_blocks(fields, bytes, from + size * done, size, block, 1)
}

// How many items there are in blocks of at most so many, up to the first block in which one is bad.
fn count_in_blocks(
    fields: &[Scalar],
    bytes: &[u8],
    from: usize,
    size: usize,
    count: usize,
    most: usize,
) -> usize
    requires size { size ≡ item_size (fields_type fields.now) }
    requires holds { from + size * count ≤ length bytes.now }
    requires some { 0 < most }
    ensures within { result ≤ count }
    ensures good { is_some (items_at (fields_type fields.now) bytes.now from result) ≡ true }
    ensures bad { result < count → is_some (items_at (fields_type fields.now) bytes.now (from + size * result)
        (min most (count - result))) ≡ false }
{
    let mut done = 0;
    while done < count {
        let block = most.min(count - done);
        if !is_good_block(fields, bytes, from + size * done, size, block) {
            return done;
        }
        done += block;
    }
    done
}

// How many items are tested at once, field by field: at most 8,192 bytes of them, which stay near.
fn items_in_block(size: usize) -> usize
    ensures { 0 < result }
{
    match size {
        0 | 1 => 8192,
        2..=8 => 1024,
        _ => 128,
    }
}

// Whether each item's bytes stand for one.
pub(crate) fn are_good_items(
    fields: &[Scalar],
    source: &[u8],
    from: usize,
    size: usize,
    count: usize,
) -> bool
    requires size { size ≡ item_size (fields_type fields.now) }
    requires holds { from + size * count ≤ length source.now }
    ensures { result ≡ is_some (items_at (fields_type fields.now) source.now from count) }
{
    let most = items_in_block(size);
    count_in_blocks(fields, source, from, size, count, most) == count
}

// The same, field by field.
fn is_good_block(fields: &[Scalar], source: &[u8], from: usize, size: usize, count: usize) -> bool
    requires size { size ≡ item_size (fields_type fields.now) }
    requires holds { from + size * count ≤ length source.now }
    ensures { result ≡ is_some (items_at (fields_type fields.now) source.now from count) }
{
    let mut at = 0;
    for k in 0..fields.len() {
        let scalar = fields[k];
        let start = field_start(fields, k, at);
        if !is_good_column(source, from, scalar, Column { start, size, count }) {
            return false;
        }
        at = start + scalar.size() as usize;
    }
    true
}

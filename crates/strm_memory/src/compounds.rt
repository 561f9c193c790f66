//! Items of types that hold other types: lifted, lowered and copied by their words.
//!
//! Source: Canonical ABI, `ReadableBufferGuestImpl` and `WritableBufferGuestImpl`, where items are lifted
//! and then lowered.

ghost use Rattle.std.specs.Prelude.{◌≡◌, ◌+◌, ◌*◌, ◌≤◌, false, [], ◌++◌, length, take, drop, is_some, IsTrue, IsSomeAnd};
ghost use Rattle.std.specs.Bool.{then_some};
ghost use Rattle.strm_codes.specs.Begins.{FitsItem};
ghost use Rattle.strm_codes.specs.ItemTypes.{item_size};
ghost use Rattle.strm_codes.specs.Spellings.{first_type, spelled, IsCompound};
ghost use Rattle.strm_memory.specs.Copying.{CopiesItems};
ghost use Rattle.strm_memory.specs.Items.{good_items};
ghost use Rattle.strm_memory.specs.Loads.{decode, encode};
ghost use Rattle.strm_memory.specs.Walks.{item_on};

use crate::copies::BadItem;
use crate::lifts::lift_parts;
use crate::lowers::lower_parts;
use crate::numbers::hold_bytes;
use strm_codes::nodes::Node;
use strm_codes::values::Value;

// Lifts an item into an empty one: whether there is one.
pub(crate) fn lift_compound(nodes: &[Node], bytes: &[u8], from: usize, item: &mut Value) -> bool
    requires one { IsCompound nodes.now }
    requires holds { from + item_size (first_type (spelled nodes.now)) ≤ length bytes.now }
    requires empty { item.old ≡ [] }
    ensures { then_some result item.new
        ≡ decode (first_type (spelled nodes.now)) (drop from bytes.now) }
{
    lift_parts(nodes, 1, bytes, from, 0, item)
}

// Stores an item from a place on. Bytes of other cases and padding stay.
pub(crate) fn lower_compound(nodes: &[Node], item: &Value, bytes: &mut [u8], to: usize)
    requires one { IsCompound nodes.now }
    requires fits { FitsItem (first_type (spelled nodes.now)) item.now }
    requires holds { to + item_size (first_type (spelled nodes.now)) ≤ length bytes.old }
    ensures { bytes.new ≡ take to bytes.old
        ++ encode (first_type (spelled nodes.now)) (drop to bytes.old) item.now }
{
    let _left = lower_parts(nodes, 1, item.as_slice(), bytes, to, 0);
}

// Lifts an item from one place and lowers it at another: whether it is one. Else nothing is written.
fn move_item(nodes: &[Node], source: &[u8], from: usize, destination: &mut [u8], to: usize) -> bool
    requires one { IsCompound nodes.now }
    requires source_holds { from + item_size (first_type (spelled nodes.now))
        ≤ length source.now }
    requires room { to + item_size (first_type (spelled nodes.now)) ≤ length destination.old }
    ensures good { result
        ≡ is_some (decode (first_type (spelled nodes.now)) (drop from source.now)) }
    ensures moved { IsTrue result
        → IsSomeAnd (decode (first_type (spelled nodes.now)) (drop from source.now))
        (λ xs. destination.new
        ≡ item_on (first_type (spelled nodes.now)) xs to destination.old) }
    ensures stays { result ≡ false → destination.new ≡ destination.old }
{
    hold_bytes(source);
    let mut item = Value::empty();
    if !lift_parts(nodes, 1, source, from, 0, &mut item) {
        return false;
    }
    let _left = lower_parts(nodes, 1, item.as_slice(), destination, to, 0);
    true
}

// How many of so many items from a place on are good, up to the first that is none.
pub(crate) fn count_good_compounds(
    nodes: &[Node],
    bytes: &[u8],
    from: usize,
    size: usize,
    count: usize,
) -> usize
    requires one { IsCompound nodes.now }
    requires size { size ≡ item_size (first_type (spelled nodes.now)) }
    requires holds { from + size * count ≤ length bytes.now }
    ensures { result
        ≡ length (good_items (first_type (spelled nodes.now)) (drop from bytes.now) count) }
{
    // Items of no bytes are all good.
    if size == 0 {
        return count;
    }
    for k in 0..count {
        let mut item = Value::empty();
        if !lift_compound(nodes, bytes, from + size * k, &mut item) {
            return k;
        }
    }
    count
}

// Copies so many items, all of which are looked at before the first is written.
pub(crate) fn copy_compounds(
    nodes: &[Node],
    source: &[u8],
    from: usize,
    destination: &mut [u8],
    to: usize,
    size: usize,
    count: usize,
) -> Result<(), BadItem>
    requires one { IsCompound nodes.now }
    requires size { size ≡ item_size (first_type (spelled nodes.now)) }
    requires source_holds { from + size * count ≤ length source.now }
    requires room { to + size * count ≤ length destination.old }
    ensures { CopiesItems (first_type (spelled nodes.now)) source.now from destination.old
        destination.new to count result }
{
    // Of items of no bytes nothing moves.
    if size == 0 {
        return Ok(());
    }
    if count_good_compounds(nodes, source, from, size, count) < count {
        return Err(BadItem);
    }
    for k in 0..count {
        let _is_good = move_item(nodes, source, from + size * k, destination, to + size * k);
    }
    Ok(())
}

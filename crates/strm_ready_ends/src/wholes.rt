//! Whether bytes from outside are so many items.
//!
//! Meaning: `Wholes.antt`. Ours.

ghost use Rattle.std.specs.Prelude.{◌≡◌, ◌+◌, ◌*◌, ◌≤◌, true, length, drop};
ghost use Rattle.strm_codes.specs.Layout.{item_type};
ghost use Rattle.strm_codes.specs.ItemTypes.{item_size};
ghost use Rattle.strm_memory.specs.Bytes.{IsBytes};
ghost use Rattle.strm_memory.specs.Items.{good_items};
ghost use Rattle.strm_buffers.specs.Listing.{LieIn, items_in};
ghost use Rattle.strm_ready_ends.specs.Wholes.{are_whole, AreWhole};

use strm_codes::payloads::Payload;
use strm_memory::good_items::count_good_items;

/// Whether these bytes are so many items of a payload, each of them good, with none left over.
pub fn are_whole(bytes: &[u8], payload: &Payload, count: u32) -> bool
    ensures exact { result ≡ are_whole payload.now bytes.now count }
    ensures whole { result ≡ true → AreWhole payload.now bytes.now count }
{
    are_bytes(bytes);
    let count = count as usize;
    if bytes.len() != payload.size() as usize * count {
        return false;
    }
    count_good_items(bytes, 0, payload, count) == count
}

// Of so many items that lie from a place on, how many are good, up to the first that is none.
fn count_good(bytes: &[u8], from: usize, payload: &Payload, count: u32) -> u32
    requires { from + item_size (item_type payload.now) * count ≤ length bytes.now }
    ensures exact { result
        ≡ length (good_items (item_type payload.now) (drop from bytes.now) count) }
    ensures few { result ≤ count }
    ensures inside { from + item_size (item_type payload.now) * result ≤ length bytes.now }
{
    let good = count_good_items(bytes, from, payload, count as usize);
    good.min(count as usize) as u32
}

// The good ones at the front of so many items that lie from a place on: their bytes, and how many they are.
pub(crate) fn good_front<'a>(
    bytes: &'a [u8],
    from: usize,
    payload: &Payload,
    count: u32,
) -> (&'a [u8], u32)
    requires { from + item_size (item_type payload.now) * count ≤ length bytes.now }
    ensures exact { result.1
        ≡ length (good_items (item_type payload.now) (drop from bytes.now) count) }
    ensures few { result.1 ≤ count }
    ensures lie { LieIn (item_type payload.now) result.0.now 0 result.1 }
    ensures items { items_in (item_type payload.now) result.0.now 0 result.1
        ≡ items_in (item_type payload.now) bytes.now from result.1 }
    ensures counted { length (items_in (item_type payload.now) bytes.now from result.1) ≡ result.1 }
    ensures all { length result.0.now ≡ item_size (item_type payload.now) * result.1 }
{
    are_bytes(bytes);
    let good = count_good(bytes, from, payload, count);
    let (_, behind) = bytes.split_at(from);
    let (front, _) = behind.split_at(payload.size() as usize * good as usize);
    (front, good)
}

// Each byte is below 256.
fn are_bytes(bytes: &[u8])
    ensures { IsBytes bytes.now }
{}

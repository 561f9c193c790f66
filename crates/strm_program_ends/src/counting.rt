//! How many items the bytes of a feed are.
//!
//! Meaning: `Queues.antt`. Source: ours.

ghost use Rattle.std.specs.Prelude.{◌≡◌, ◌*◌, ◌≤◌, length, Some};
ghost use Rattle.strm_codes.specs.Layout.{item_type};
ghost use Rattle.strm_codes.specs.ItemTypes.{item_size};
ghost use Rattle.strm_memory.specs.Bytes.{IsBytes};
ghost use Rattle.strm_memory.specs.Items.{items, AreItems};
ghost use Rattle.strm_program_ends.specs.Queues.{most_items, items_fed};

use strm_codes::payloads::Payload;
use strm_memory::good_items::count_good_items;

// How many items these bytes are: as many as fit in them, up to the first that is none.
pub(crate) fn count_items(bytes: &[u8], payload: &Payload) -> usize
    ensures lie { items (item_type payload.now) bytes.now result
        ≡ Some (items_fed payload.now bytes.now) }
    ensures fit { AreItems (item_type payload.now) (items_fed payload.now bytes.now) }
    ensures within { item_size (item_type payload.now) * result ≤ length bytes.now }
    ensures few { result ≤ length bytes.now }
{
    are_bytes(bytes);
    let most = most_items(bytes.len(), payload.size() as usize);
    count_good_items(bytes, 0, payload, most)
}

// How many items of a size fit in so many bytes; of size 0 as many as there are bytes.
fn most_items(len: usize, size: usize) -> usize
    ensures exact { result ≡ most_items size len }
    ensures within { size * result ≤ len }
    ensures few { result ≤ len }
{
    match size {
        0 | 1 => len,
        _ => len / size,
    }
}

// Each byte is below 256.
fn are_bytes(bytes: &[u8])
    ensures { IsBytes bytes.now }
{}

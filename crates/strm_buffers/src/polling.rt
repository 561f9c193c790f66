//! What host ends do in a poll: mark the items that there is room for, and take so many.
//!
//! Source: ours.

ghost use Rattle.std.specs.Prelude.{◌≡◌, ◌≤◌, true, [], length, take, drop, IfOk, OnOk, OnErr};
ghost use Rattle.strm_codes.specs.Layout.{item_type};
ghost use Rattle.strm_buffers.specs.Windows.{Between, room_of, HasRoom};
ghost use Rattle.strm_buffers.specs.Said.{in_room, past_room};
ghost use Rattle.strm_buffers.specs.Tells.{Fills, first_lent};
ghost use Rattle.strm_buffers.specs.Offers.{after_taking, IsBadNext};

use crate::items::Items;
use crate::offers::Offer;
use crate::windows::Window;
use strm_codes::counts::OutOfMemory;

/// Marks the first of these items, as many as there is room for: their number. After `OutOfMemory`,
/// which comes only between host ends, nothing has changed.
pub fn mark_in_room(window: &mut Window, items: &Items) -> Result<usize, OutOfMemory>
    requires payload { items.now.payload ≡ window.old.payload }
    requires nothing_marked { window.old.marked ≡ [] }
    ensures marked { OnOk result (window.new.marked ≡
        in_room (room_of window.old.place) items.now.items) }
    ensures count { IfOk result (λ count. count ≤ length items.now.items) }
    ensures behind { IfOk result (λ count. drop count items.now.items ≡
        past_room (room_of window.old.place) items.now.items) }
    ensures err { OnErr result (window.new ≡ window.old) }
    ensures out_of_memory { OnErr result (window.old.place ≡ Between) }
    ensures fills { Fills window.old window.new }
{
    mark_rest(window, items)
}

/// Marks the first of these items, as many as there is room for, where some of them are marked
/// already: the number of all of them. After `OutOfMemory`, which comes only between host ends,
/// nothing has changed.
pub fn mark_rest(window: &mut Window, items: &Items) -> Result<usize, OutOfMemory>
    requires payload { items.now.payload ≡ window.old.payload }
    requires begun { window.old.marked ≡ take (length window.old.marked) items.now.items }
    ensures marked { OnOk result (window.new.marked ≡
        in_room (room_of window.old.place) items.now.items) }
    ensures count { IfOk result (λ count. count ≤ length items.now.items) }
    ensures behind { IfOk result (λ count. drop count items.now.items ≡
        past_room (room_of window.old.place) items.now.items) }
    ensures err { OnErr result (window.new ≡ window.old) }
    ensures out_of_memory { OnErr result (window.old.place ≡ Between) }
    ensures fills { Fills window.old window.new }
{
    let count = count_in_room(window, items);
    mark_first(window, items, count)?;
    Ok(count)
}

// How many of these items there is room for, where the first are marked.
fn count_in_room(window: &Window, items: &Items) -> usize
    requires { window.now.marked ≡ take (length window.now.marked) items.now.items }
    ensures least { length window.now.marked ≤ result }
    ensures most { result ≤ length items.now.items }
    ensures room { HasRoom window.now.place 0 result }
    ensures first { take result items.now.items
        ≡ in_room (room_of window.now.place) items.now.items }
    ensures behind { drop result items.now.items
        ≡ past_room (room_of window.now.place) items.now.items }
{
    window.sound();
    let _ = window.marked();
    match window.room() {
        Some(room) => items.len().min(room as usize),
        None => items.len(),
    }
}

// Marks so many of the first of these items, where fewer of them are marked.
fn mark_first(window: &mut Window, items: &Items, count: usize) -> Result<(), OutOfMemory>
    requires payload { items.now.payload ≡ window.old.payload }
    requires there { count ≤ length items.now.items }
    requires begun { window.old.marked ≡ take (length window.old.marked) items.now.items }
    requires least { length window.old.marked ≤ count }
    requires room { HasRoom window.old.place 0 count }
    ensures ok { OnOk result (window.new.marked ≡ take count items.now.items) }
    ensures err { OnErr result (window.new ≡ window.old) }
    ensures fills { Fills window.old window.new }
    ensures out_of_memory { OnErr result (window.old.place ≡ Between) }
{
    let _few = items.len();
    let first = window.marked() as usize;
    let more = count - first;
    window.put_all(items.bytes_of(first, more), more as u32)
}

/// Takes as many items as are wanted or left; it stops at a bad one, and does not take that.
pub fn take_up_to(offer: &mut Offer, wanted: u32)
    ensures takes { offer.new ≡ after_taking wanted offer.old }
    ensures counted { length
        (first_lent (item_type offer.old.payload) offer.old.source offer.new.taken)
        ≡ offer.new.taken }
    ensures next { offer.new.bad ≡ true
        → IsBadNext (item_type offer.old.payload) offer.old.source offer.new.taken }
{
    offer.sound();
    let count = wanted.min(offer.remaining());
    let good = offer.count_good(count);
    offer.pass(good);
    if good < count {
        let _bad = offer.next();
    }
}

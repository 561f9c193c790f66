//! Waitable sets with their handles, and their members.
//!
//! Meaning: `WaitableSets.antt` of `strm_machine`, and `Sets.antt` of `strm_waitable_sets`. Source: Canonical
//! ABI, `canon waitable-set.{new,drop}` and `canon waitable.join`; the room that is taken before the
//! set is made is ours.

ghost use Rattle.std.specs.Prelude.{◌≡◌, Ok, ◌+◌, ◌^◌, ◌<◌, ◌≤◌, true, length, is_some, IfOk, OnOk, OnErr};
ghost use Rattle.strm_handles.specs.Handles.{next_index, inserted, live_of};
ghost use Rattle.strm_handles.specs.Counters.{counted, uncounted};
ghost use Rattle.strm_handles.specs.Lookups.{waitable_set_rep_of};
ghost use Rattle.strm_handles.specs.declared.entries.Entry.TheVariants.{WaitableSet};
ghost use Rattle.strm_waitable_sets.specs.Sets.{members, set_of, is_set_there, handle_joined, handle_left, HasNoMember};
ghost use Rattle.strm_machine.specs.State.{guest_in, sets_in, with_sets};
ghost use Rattle.strm_machine.specs.WaitableSets.{has_some};
ghost use Rattle.strm_channels.specs.Changes.{GivesHandle, FreesHandle};
ghost use Rattle.strm_channels.specs.Guests.{guest_of, guests_of, live_in, sets_among, with_set_of, with_set_in, without_set_in};

use crate::guests::Guest;
use strm_codes::counts::OutOfMemory;
use strm_handles::counters::HandleCounter;
use strm_handles::tables::HandleTable;

// A set's handle, in a table that has room for it.
fn insert_set(table: &mut HandleTable, counter: &mut HandleCounter, set: u32) -> u32
    requires room { 0 < table.old.room }
    requires small { next_index table.old.handles < 2 ^ 28 }
    requires below { counter.old.live < counter.old.limit }
    ensures number { result ≡ next_index table.old.handles }
    ensures handles { table.new.handles ≡ inserted table.old.handles (WaitableSet set) }
    ensures counter { counter.new ≡ counted counter.old }
    ensures live { live_of table.new.handles ≡ live_of table.old.handles + 1 }
{
    table.sound();
    table.waitable_set_insert(counter, set).unwrap()
}

// A set more in a guest, under its table's next handle: answers that. The room for the handle is
// taken first, so that nothing is wanted once the set is made.
fn make_set(guest: &mut Guest, counter: &mut HandleCounter) -> Result<u32, OutOfMemory>
    requires small { next_index guest.old.table.handles < 2 ^ 28 }
    requires below { counter.old.live < counter.old.limit }
    ensures number { IfOk result (λ number. number ≡ next_index guest.old.table.handles) }
    ensures ok { OnOk result (guest_of guest.new ≡ with_set_of (guest_of guest.old)) }
    ensures counter { OnOk result (counter.new ≡ counted counter.old) }
    ensures live { OnOk result
        (live_of guest.new.table.handles ≡ live_of guest.old.table.handles + 1) }
    ensures err { OnErr result (guest_of guest.new ≡ guest_of guest.old) }
    ensures kept { OnErr result (counter.new ≡ counter.old) }
{
    match guest.table.reserve(1) {
        Ok(()) => {}
        Err(_) => return Err(OutOfMemory),
    }
    let set = guest.sets.set_new()?;
    Ok(insert_set(&mut guest.table, counter, set))
}

/// A waitable set more in a guest, without members, under its table's next handle: answers that.
/// After running out of memory nothing has changed.
pub fn give_set(
    guests: &mut Vec<Guest>,
    counter: &mut HandleCounter,
    guest: usize,
) -> Result<u32, OutOfMemory>
    requires there { guest < length guests.old.items }
    requires small { next_index (guest_in (guests_of guests.old.items) guest).handles < 2 ^ 28 }
    requires below { counter.old.live < counter.old.limit }
    ensures gives { GivesHandle (guests_of guests.old.items) (guests_of guests.new.items)
        (with_set_in (guests_of guests.old.items) guest) guest counter.old counter.new result }
    ensures sets { OnOk result
        (sets_among (guests_of guests.new.items) ≡ sets_among (guests_of guests.old.items) + 1) }
    ensures count { length guests.new.items ≡ length guests.old.items }
{
    make_set(&mut guests[guest], counter)
}

/// Takes a waitable set away that has no member, by its handle and its number; the handle is freed.
pub fn remove_set(
    guests: &mut Vec<Guest>,
    counter: &mut HandleCounter,
    guest: usize,
    handle: u32,
    set: u32,
)
    requires there { guest < length guests.old.items }
    requires named { waitable_set_rep_of (guest_in (guests_of guests.old.items) guest).handles
        handle ≡ Ok set }
    requires made { is_set_there (sets_in (guests_of guests.old.items) guest) set ≡ true }
    requires empty { HasNoMember (sets_in (guests_of guests.old.items) guest) set }
    requires live { live_in (guests_of guests.old.items) ≤ counter.old.live }
    ensures frees { FreesHandle (guests_of guests.old.items) (guests_of guests.new.items)
        (without_set_in (guests_of guests.old.items) guest handle set) counter.old counter.new }
    ensures sets { sets_among (guests_of guests.new.items) + 1
        ≡ sets_among (guests_of guests.old.items) }
    ensures count { length guests.new.items ≡ length guests.old.items }
{
    let guest = &mut guests[guest];
    let _ = guest.table.waitable_set_remove(counter, handle).unwrap();
    guest.sets.remove(set).unwrap();
}

/// Puts a handle into a set of its guest; it leaves the one that it was in. After running out of memory
/// nothing has changed.
pub fn join_set(
    guests: &mut Vec<Guest>,
    guest: usize,
    set: u32,
    handle: u32,
) -> Result<(), OutOfMemory>
    requires there { guest < length guests.old.items }
    requires made { is_set_there (sets_in (guests_of guests.old.items) guest) set ≡ true }
    ensures ok { OnOk result (guests_of guests.new.items ≡ with_sets (guests_of guests.old.items)
        guest (handle_joined (sets_in (guests_of guests.old.items) guest) handle set)) }
    ensures err { OnErr result (guests_of guests.new.items ≡ guests_of guests.old.items) }
    ensures count { length guests.new.items ≡ length guests.old.items }
{
    guests[guest].sets.join(handle, set)
}

/// Takes a handle out of the set of its guest that it is in, if it is in one.
pub fn leave_set(guests: &mut Vec<Guest>, guest: usize, handle: u32)
    requires there { guest < length guests.old.items }
    ensures guests { guests_of guests.new.items ≡ with_sets (guests_of guests.old.items) guest
        (handle_left (sets_in (guests_of guests.old.items) guest) handle) }
    ensures count { length guests.new.items ≡ length guests.old.items }
{
    guests[guest].sets.leave(handle);
}

/// Whether a guest's handle is in a set.
pub fn is_in_set(guests: &Vec<Guest>, guest: usize, handle: u32) -> bool
    requires { guest < length guests.now.items }
    ensures { result ≡ is_some (set_of (sets_in (guests_of guests.now.items) guest) handle) }
{
    guests[guest].sets.set_of(handle).is_some()
}

/// Whether a guest's set has a member.
pub fn has_member(guests: &Vec<Guest>, guest: usize, set: u32) -> bool
    requires there { guest < length guests.now.items }
    requires made { is_set_there (sets_in (guests_of guests.now.items) guest) set ≡ true }
    ensures { result ≡ has_some (members (sets_in (guests_of guests.now.items) guest) set) }
{
    guests[guest].sets.has_member(set)
}

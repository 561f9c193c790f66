//! What stands behind a set number: how many members its set has, if a set has it.
//!
//! Meaning: `Slots.antt`. Ours: who the members are is known by the handles alone.

ghost use Rattle.std.specs.Prelude.{◌≡◌, ℕ, ◌+◌, ◌^◌, ◌<◌, ◌≤◌, true, not, ◌↔◌, IsTrue, nat_eq, length, map, None, is_some, if◌then◌else◌, OnOk, OnErr};
ghost use Rattle.std.specs.List.{position_or_len};
ghost use Rattle.strm_codes.specs.OptionalNumbers.{is_number};
ghost use Rattle.strm_waitable_sets.specs.Sets.{set_placed};
ghost use Rattle.strm_waitable_sets.specs.Slots.{slot_at, count_of_slot, set_count_at};

use strm_codes::counts::OutOfMemory;

/// How many members a set has.
#[derive(Clone, Copy)]
pub(crate) struct Members {
    count: usize,
}

/// The set of a number, if it is there.
pub(crate) type Slot = Option<Members>;

/// Whether the set has a member.
pub(crate) fn has_member(slot: &Slot) -> bool
    ensures { IsTrue result ↔ (0 < count_of_slot slot.now) }
{
    match slot {
        Some(members) => members.count > 0,
        None => false,
    }
}

/// A set has a member more.
pub(crate) fn add_member(slots: &mut Vec<Slot>, set: u32)
    requires there { is_some (slot_at slots.old.items set) ≡ true }
    requires few { set_count_at slots.old.items set ≤ 2 ^ 32 }
    ensures flags { map is_some slots.new.items ≡ map is_some slots.old.items }
    ensures counts { (number : ℕ) → set_count_at slots.new.items number
        ≡ set_count_at slots.old.items number + (if nat_eq set number then 1 else 0) }
{
    if let Some(members) = &mut slots[set as usize] {
        members.count += 1;
    }
}

/// The set that a handle was in, if it was in one, has a member less.
pub(crate) fn remove_member(slots: &mut Vec<Slot>, home: Option<u32>)
    requires some { (number : ℕ) → is_number home number ≡ true
        → 0 < set_count_at slots.old.items number }
    ensures flags { map is_some slots.new.items ≡ map is_some slots.old.items }
    ensures counts { (number : ℕ) → set_count_at slots.new.items number
        + (if is_number home number then 1 else 0) ≡ set_count_at slots.old.items number }
{
    let Some(set) = home else {
        return;
    };
    if let Some(members) = &mut slots[set as usize] {
        members.count -= 1;
    }
}

/// Puts a set without members under a number that has none, which is one of the slots or the next
/// one. Where there is no memory, nothing changes.
pub(crate) fn place(slots: &mut Vec<Slot>, number: usize) -> Result<(), OutOfMemory>
    requires inside { number ≤ length slots.old.items }
    requires vacant { slot_at slots.old.items number ≡ None }
    ensures flags { OnOk result
        (map is_some slots.new.items ≡ set_placed (map is_some slots.old.items) number) }
    ensures counts { OnOk result ((at : ℕ) →
        set_count_at slots.new.items at ≡ set_count_at slots.old.items at) }
    ensures err { OnErr result (slots.new.items ≡ slots.old.items) }
{
    let slot = Some(Members { count: 0 });
    if number < slots.len() {
        slots[number] = slot;
    } else if slots.push(slot).is_err() {
        return Err(OutOfMemory);
    }
    Ok(())
}

/// The first number that has no set, where each number below the hint has one.
pub(crate) fn first_free(slots: &[Slot], hint: usize) -> usize
    requires inside { hint ≤ length slots.now }
    requires taken { (number : ℕ) → number < hint → is_some (slot_at slots.now number) ≡ true }
    ensures first { result ≡ position_or_len not (map is_some slots.now) }
    ensures inside { result ≤ length slots.now }
    ensures vacant { slot_at slots.now result ≡ None }
    ensures taken { (number : ℕ) → number < result → is_some (slot_at slots.now number) ≡ true }
{
    let mut number = hint;
    while number < slots.len() {
        if slots[number].is_none() {
            return number;
        }
        number += 1;
    }
    number
}

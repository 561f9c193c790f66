//! The members of sets that are ready, in order: the least stands last, so that it is told in one step.
//!
//! Meaning: `Ready.antt`. Source: ours. A mark and its loss look for the place by halves, and move those
//! behind it; neither takes memory. What makes a handle ready is not known here.

ghost use Rattle.std.specs.Prelude.{◌≡◌, ℕ, ◌+◌, ◌<◌, ◌≤◌, Bool, true, false, not, ◌&&◌, ◌||◌, nat_eq, List, [], length, slice_index_or, if◌then◌else◌, Option, IfSome, IfNone, IfOk, IfErr};
ghost use Rattle.std.specs.List.{insert};
ghost use Rattle.std.specs.Option.{option_map};
ghost use Rattle.strm_waitable_sets.specs.Ready.{is_in, IsFalling, known, Says, SaysStill};

use std::alloc::Global;
use std::marker::Model;

/// The ready members of a set.
#[derive(Drop)]
pub struct ReadyMembers {
    // Falling.
    handles: Vec<u32>,
    // How many members there is to be room for.
    members: usize,
}

impl Model for ReadyMembers {
    ghost use Rattle.std.specs.Prelude.{ℕ, List};
    ghost use Rattle.strm_waitable_sets.specs.Ready.{IsFalling};

    ghost Value = { List ℕ };

    ghost view = { λ r. r.handles.items };

    ghost invariant = { λ r. IsFalling r.handles.items };
}

// How many handles are above one.
fn above(handles: &[u32], handle: u32) -> usize
    requires { IsFalling handles.now }
    ensures inside { result ≤ length handles.now }
    ensures before { (k : ℕ) → k < result → handle < slice_index_or handles.now k 0 }
    ensures behind { (k : ℕ) → result ≤ k → k < length handles.now
        → slice_index_or handles.now k 0 ≤ handle }
{
    let (mut low, mut high) = (0, handles.len());
    while low < high {
        let middle = low + (high - low) / 2;
        if handles[middle] > handle {
            low = middle + 1;
        } else {
            high = middle;
        }
    }
    low
}

// Where a handle is, or where it would be.
fn find(handles: &[u32], handle: u32) -> Result<usize, usize>
    requires { IsFalling handles.now }
    ensures there { IfOk result (λ place. place < length handles.now) }
    ensures is { IfOk result (λ place. slice_index_or handles.now place 0 ≡ handle) }
    ensures inside { IfErr result (λ place. place ≤ length handles.now) }
    ensures before { IfErr result (λ place. (k : ℕ) → k < place
        → handle < slice_index_or handles.now k 0) }
    ensures behind { IfErr result (λ place. (k : ℕ) → place ≤ k → k < length handles.now
        → slice_index_or handles.now k 0 < handle) }
{
    let place = above(handles, handle);
    if place == handles.len() {
        return Err(place);
    }
    if handles[place] == handle {
        return Ok(place);
    }
    Err(place)
}

// Puts one at its place: whether there was room for it.
fn insert_at(handles: &mut Vec<u32>, place: usize, handle: u32) -> bool
    requires inside { place ≤ length handles.old.items }
    ensures { handles.new.items
        ≡ (if result then insert handles.old.items place handle else handles.old.items) }
{
    if handles.len() == handles.capacity() {
        return false;
    }
    handles.insert(place, handle).is_ok()
}

impl ReadyMembers {
    // None is ready. It takes no memory.
    fn new(alloc: Global) -> ReadyMembers
        ensures { result ≡ [] }
    {
        ReadyMembers {
            handles: Vec::new(alloc),
            members: 0,
        }
    }

    // One member more is to have room, where there is memory.
    fn expect(&mut self)
        ensures { self.new ≡ self.old }
    {
        self.members = self.members.saturating_add(1);
        let more = self.members.saturating_sub(self.handles.len());
        let _ = self.handles.reserve(more);
    }

    // A handle is ready from now on: whether there was room for it. It takes no memory.
    fn mark(&mut self, handle: u32) -> bool
        ensures others { result ≡ true → (other : ℕ) → is_in self.new other
            ≡ (nat_eq other handle || is_in self.old other) }
    {
        match find(self.handles.as_slice(), handle) {
            Ok(_place) => true,
            Err(place) => insert_at(&mut self.handles, place, handle),
        }
    }

    // A handle is not ready from now on. It takes no memory.
    fn unmark(&mut self, handle: u32)
        ensures others { (other : ℕ) → is_in self.new other
            ≡ (not (nat_eq other handle) && is_in self.old other) }
    {
        match find(self.handles.as_slice(), handle) {
            Ok(place) => {
                let _ = self.handles.remove(place);
            }
            Err(_place) => {}
        }
    }

    // A handle is no member any more.
    fn lose(&mut self, handle: u32)
        ensures others { (other : ℕ) → is_in self.new other
            ≡ (not (nat_eq other handle) && is_in self.old other) }
    {
        self.members = self.members.saturating_sub(1);
        self.unmark(handle);
    }

    /// The least ready member. No other is looked at.
    pub fn least(&self) -> Option<u32>
        ensures ready { IfSome result (λ handle. is_in self.now handle ≡ true) }
        ensures least { IfSome result (λ handle. (other : ℕ) → other < handle
            → is_in self.now other ≡ false) }
        ensures none { IfNone result ((other : ℕ) → is_in self.now other ≡ false) }
    {
        let len = self.handles.len();
        if len == 0 {
            return None;
        }
        Some(self.handles[len - 1])
    }
}

// A member is ready or not from now on: whether that can be told without memory.
fn tell(slot: &mut Option<ReadyMembers>, handle: u32, ready: bool) -> bool
    ensures told { result ≡ true → IfSome slot.new (λ handles. is_in handles handle ≡ ready) }
    ensures others { result ≡ true → (other : ℕ) (b : Bool)
        → IfSome slot.old (λ handles. is_in handles other ≡ b) → (other ≡ handle → b ≡ ready)
        → IfSome slot.new (λ handles. is_in handles other ≡ b) }
{
    match slot {
        Some(members) => {
            if ready {
                members.mark(handle)
            } else {
                members.unmark(handle);
                true
            }
        }
        None => true,
    }
}

// The same, or nothing is known any more.
fn tell_or_forget(slot: &mut Option<ReadyMembers>, handle: u32, ready: bool)
    ensures told { IfSome slot.new (λ handles. is_in handles handle ≡ ready) }
    ensures others { (other : ℕ) (b : Bool)
        → IfSome slot.old (λ handles. is_in handles other ≡ b) → (other ≡ handle → b ≡ ready)
        → IfSome slot.new (λ handles. is_in handles other ≡ b) }
{
    if !tell(slot, handle, ready) {
        *slot = None;
    }
}

// A handle is no member any more.
fn lose(slot: &mut Option<ReadyMembers>, handle: u32)
    ensures told { IfSome slot.new (λ handles. is_in handles handle ≡ false) }
    ensures others { (other : ℕ) (b : Bool)
        → IfSome slot.old (λ handles. is_in handles other ≡ b) → (other ≡ handle → b ≡ false)
        → IfSome slot.new (λ handles. is_in handles other ≡ b) }
{
    if let Some(members) = slot {
        members.lose(handle);
    }
}

// One member more is to have room; where nothing is known of a set without members, none is ready.
fn expect(slot: &mut Option<ReadyMembers>, is_empty: bool, alloc: Global)
    ensures { (other : ℕ) (b : Bool) → IfSome slot.old (λ handles. is_in handles other ≡ b)
        → (is_empty ≡ true → b ≡ false) → IfSome slot.new (λ handles. is_in handles other ≡ b) }
{
    if is_empty && slot.is_none() {
        *slot = Some(ReadyMembers::new(alloc));
    }
    if let Some(members) = slot {
        members.expect();
    }
}

/// What is known of the ready members of a guest's sets, by the numbers of the sets.
#[derive(Drop)]
pub struct ReadySets {
    slots: Vec<Option<ReadyMembers>>,
    alloc: Global,
}

impl Model for ReadySets {
    ghost use Rattle.std.specs.Prelude.{ℕ, List, Option};

    ghost Value = { List (Option (List ℕ)) };

    ghost view = { λ s. s.slots.items };
}

// Places up to that of a number, where there is memory; nothing is known of the sets of new ones.
fn widen(slots: &mut Vec<Option<ReadyMembers>>, number: usize)
    ensures { (other : ℕ) → known slots.new.items other ≡ known slots.old.items other }
{
    while slots.len() <= number {
        if slots.push(None).is_err() {
            return;
        }
    }
}

impl ReadySets {
    /// Nothing is known. It takes no memory.
    pub fn new(alloc: Global) -> ReadySets
        ensures { result ≡ [] }
    {
        ReadySets {
            slots: Vec::new(alloc),
            alloc,
        }
    }

    /// Whether no set was ever joined, so that nothing is known of any.
    #[inline(always)]
    pub fn is_empty(&self) -> bool
        ensures { result ≡ true → self.now ≡ [] }
    {
        self.slots.is_empty()
    }

    /// The ready members of a set, where they are known.
    #[inline(always)]
    pub fn known(&self, set: u32) -> Option<&ReadyMembers>
        ensures { option_map (λ members. members.now) result ≡ known self.now set }
    {
        match self.slots.get(set as usize) {
            Some(slot) => slot.as_ref(),
            None => None,
        }
    }

    /// A member of a set is ready or not from now on. It takes no memory; where there is no room for
    /// it, the ready members of the set are not known any more.
    pub fn set_ready(&mut self, set: u32, handle: u32, ready: bool)
        ensures told { Says self.new set handle ready }
        ensures others { SaysStill self.old self.new set handle ready }
    {
        let set = set as usize;
        if set < self.slots.len() {
            tell_or_forget(&mut self.slots[set], handle, ready);
        }
    }

    /// A handle is no member of a set any more. It takes no memory.
    pub fn leave(&mut self, set: u32, handle: u32)
        ensures told { Says self.new set handle false }
        ensures others { SaysStill self.old self.new set handle false }
    {
        let set = set as usize;
        if set < self.slots.len() {
            lose(&mut self.slots[set], handle);
        }
    }

    /// A set is to have one member more, and room for its mark, where there is memory. Of one that had
    /// no member before, it is known from now on that none is ready.
    pub fn join(&mut self, set: u32, is_empty: bool)
        ensures { (number other : ℕ) (b : Bool) → Says self.old number other b
            → (number ≡ set → is_empty ≡ true → b ≡ false) → Says self.new number other b }
    {
        let set = set as usize;
        widen(&mut self.slots, set);
        if set < self.slots.len() {
            expect(&mut self.slots[set], is_empty, self.alloc);
        }
    }
}

//! Slots in a row, the free ones threaded from the one freed last.
//!
//! Source: wasmtime, `handle_table.rs`, `HandleTable::insert` and `remove`.

ghost use Rattle.std.specs.Prelude.{◌≡◌, ◌+◌, ◌^◌, ◌<◌, ◌≤◌, ◌↔◌, IsTrue, IsSome, OnOk, OnErr, IfErr, Err, option_copied, length};
ghost use Rattle.strm_handles.specs.Handles.{no_handles, next_index, entry_at, inserted, removed, with_entry, occupied, IsTable};
ghost use Rattle.strm_handles.specs.Changes.{Inserts};
ghost use Rattle.strm_handles.specs.Counters.{uncounted};

use crate::counters::HandleCounter;
use crate::entries::{Entry, MAX_HANDLE};
use crate::errors::HandleError;
use std::alloc::Global;
use std::marker::Model;

#[derive(Clone, Copy)]
enum Slot<E> {
    /// The index of the slot that was freed before this one.
    Free(u32),
    Full(E),
}

const _: () = prove!(size_of::<Slot<Entry>>() <= 52);

/// Slots, each of which holds an entry or is free. The slot at an index has the number above it.
#[derive(Drop)]
pub(crate) struct Slots<E> {
    slots: Vec<Slot<E>>,
    /// The index of the slot freed last, where one is free.
    first: u32,
    /// How many slots are free.
    free: u32,
}

impl<E> Model for Slots<E> {
    ghost use Rattle.strm_handles.specs.Handles.{TableOf};

    ghost Value = { TableOf E };

    ghost use Rattle.strm_handles.specs.Chain.{table_of, IsThreaded};

    ghost view = { table_of };

    ghost invariant = { IsThreaded };
}

impl<E: Copy> Slots<E> {
    pub(crate) fn new(alloc: Global) -> Slots<E>
        ensures handles { result.handles ≡ no_handles }
        ensures room { result.room ≡ 0 }
    {
        Slots {
            slots: Vec::new(alloc),
            first: 0,
            free: 0,
        }
    }

    pub(crate) fn sound(&self)
        ensures { IsTable self.now.handles }
    {
        let _ = &self.free;
    }

    pub(crate) fn is_empty(&self) -> bool
        ensures { IsTrue result ↔ (occupied self.now.handles ≡ 0) }
    {
        self.free as usize == self.slots.len()
    }

    /// How many slots hold an entry.
    pub(crate) fn len(&self) -> u32
        ensures { result ≡ occupied self.now.handles }
    {
        self.slots.len() as u32 - self.free
    }

    /// How many slots there are: the greatest number that was ever given.
    pub(crate) fn last(&self) -> u32
        ensures exact { result ≡ length self.now.handles.entries }
        ensures most { result < MAX_HANDLE }
    {
        self.slots.len() as u32
    }

    /// The number that the next insert gives.
    #[inline(always)]
    pub(crate) fn next_index(&self) -> u32
        ensures exact { result ≡ next_index self.now.handles }
        ensures some { 0 < result }
        ensures most { result ≤ MAX_HANDLE }
    {
        if self.free == 0 {
            self.slots.len() as u32 + 1
        } else {
            self.first + 1
        }
    }

    /// The number that the insert after the next one gives.
    pub(crate) fn second_index(&self) -> u32
        ensures exact { (e : E) → result ≡ next_index (inserted self.now.handles e) }
        ensures most { result ≤ MAX_HANDLE + 1 }
    {
        if self.free < 2 {
            return self.slots.len() as u32 + 2 - self.free;
        }
        match self.slots[self.first as usize] {
            Slot::Free(next) => next + 1,
            Slot::Full(_) => unreachable!(),
        }
    }

    /// Room for so many inserts.
    #[inline(always)]
    pub(crate) fn reserve(&mut self, count: u32) -> Result<(), HandleError>
        ensures ok { OnOk result (count ≤ self.new.room) }
        ensures handles { self.new.handles ≡ self.old.handles }
        ensures room { self.old.room ≤ self.new.room }
        ensures err { OnErr result (self.new ≡ self.old) }
        ensures memory { OnErr result (self.old.room < count) }
        ensures errors { IfErr result (λ e. e ≡ HandleError.OutOfMemory) }
    {
        if count <= self.free {
            return Ok(());
        }
        match self.slots.reserve((count - self.free) as usize) {
            Ok(()) => Ok(()),
            Err(_) => Err(HandleError::OutOfMemory),
        }
    }

    /// What a number stands for.
    #[inline(always)]
    pub(crate) fn get(&self, number: u32) -> Option<&E>
        ensures { option_copied result ≡ entry_at self.now.handles number }
    {
        // One test for both: 0 leads past every slot.
        let index = number.wrapping_sub(1) as usize;
        if index >= self.slots.len() {
            return None;
        }
        match &self.slots[index] {
            Slot::Free(_) => None,
            Slot::Full(entry) => Some(entry),
        }
    }

    /// Adds an entry, and counts it.
    #[inline(always)]
    pub(crate) fn insert(
        &mut self,
        counter: &mut HandleCounter,
        entry: E,
    ) -> Result<u32, HandleError>
        ensures { Inserts self.old self.new counter.old counter.new entry result }
    {
        if self.free == 0 {
            return self.append(counter, entry);
        }
        if counter.is_full() {
            return Err(HandleError::HandleLimit);
        }
        let number = self.refill(entry);
        counter.count();
        Ok(number)
    }

    // Adds an entry in a new slot.
    #[inline(always)]
    fn append(&mut self, counter: &mut HandleCounter, entry: E) -> Result<u32, HandleError>
        requires { length self.old.handles.freed ≡ 0 }
        ensures { Inserts self.old self.new counter.old counter.new entry result }
    {
        let number = self.next_index();
        if number == MAX_HANDLE {
            return Err(HandleError::IndexOverflow);
        }
        if counter.is_full() {
            return Err(HandleError::HandleLimit);
        }
        if self.slots.reserve(1).is_err() {
            return Err(HandleError::OutOfMemory);
        }
        self.slots.push_reserved(Slot::Full(entry));
        counter.count();
        Ok(number)
    }

    // Puts an entry in the slot that was freed last: its number.
    #[inline(always)]
    fn refill(&mut self, entry: E) -> u32
        requires { 0 < length self.old.handles.freed }
        ensures number { result ≡ next_index self.old.handles }
        ensures some { 0 < result }
        ensures small { result < MAX_HANDLE }
        ensures handles { self.new.handles ≡ inserted self.old.handles entry }
        ensures room { self.old.room ≡ self.new.room + 1 }
    {
        let at = self.first;
        match self.slots[at as usize] {
            Slot::Free(next) => {
                self.slots[at as usize] = Slot::Full(entry);
                self.first = next;
                self.free -= 1;
                at + 1
            }
            Slot::Full(_) => unreachable!(),
        }
    }

    /// Puts another entry in a number's place.
    #[inline(always)]
    pub(crate) fn change(&mut self, number: u32, entry: E)
        requires { IsSome (entry_at self.old.handles number) }
        ensures handles { self.new.handles ≡ with_entry self.old.handles number entry }
        ensures room { self.new.room ≡ self.old.room }
    {
        self.slots[number as usize - 1] = Slot::Full(entry);
    }

    /// Frees a number, which is given first from now on.
    #[inline(always)]
    pub(crate) fn remove(&mut self, counter: &mut HandleCounter, number: u32)
        requires here { IsSome (entry_at self.old.handles number) }
        requires live { occupied self.old.handles ≤ counter.old.live }
        ensures handles { self.new.handles ≡ removed self.old.handles number }
        ensures room { self.new.room ≡ self.old.room + 1 }
        ensures live { counter.new ≡ uncounted counter.old }
    {
        counter.uncount();
        self.slots[number as usize - 1] = Slot::Free(self.first);
        self.first = number - 1;
        self.free += 1;
    }
}

//! The handle table of a guest.
//!
//! Source: wasmtime, `handle_table.rs`, `HandleTable`; Canonical ABI, "Table State".

ghost use Rattle.std.specs.Prelude.{◌≡◌, ◌+◌, ◌<◌, ◌≤◌, ◌↔◌, IsTrue, OnOk, OnErr, IfErr, option_copied, length};
ghost use Rattle.strm_handles.specs.Handles.{no_handles, next_index, entry_at, inserted, occupied, IsTable};

use crate::entries::{Entry, MAX_HANDLE};
use crate::errors::HandleError;
use crate::slots::Slots;
use std::alloc::Global;
use std::marker::Model;

mod ends;
mod kinds;
mod others;
mod resources;

/// The handles of a guest. Every insert counts its handle in the counter that it is passed, and
/// every removal counts it off, so that one counter may serve the tables of many guests.
#[derive(Drop)]
pub struct HandleTable {
    slots: Slots<Entry>,
    // How many numbers stand for error contexts.
    contexts: u32,
    // How many stand for ends of streams and futures.
    ends: u32,
}

impl Model for HandleTable {
    ghost use Rattle.strm_handles.specs.Handles.{Table};

    ghost Value = { Table };

    ghost use Rattle.strm_handles.specs.Kinds.{IsTallied};

    ghost view = { λ t. t.slots };

    ghost invariant = { IsTallied };
}

impl HandleTable {
    /// An empty table, which takes no memory.
    pub fn new(alloc: Global) -> HandleTable
        ensures empty { result.handles ≡ no_handles }
        ensures room { result.room ≡ 0 }
    {
        HandleTable {
            slots: Slots::new(alloc),
            ends: 0,
            contexts: 0,
        }
    }

    /// The freed numbers are those that were given and stand for nothing, each once. Does nothing.
    pub fn sound(&self)
        ensures { IsTable self.now.handles }
    {
        self.slots.sound();
    }

    /// No number stands for anything.
    pub fn is_empty(&self) -> bool
        ensures { IsTrue result ↔ (occupied self.now.handles ≡ 0) }
    {
        self.slots.is_empty()
    }

    /// How many numbers stand for something. It looks at none of them.
    pub fn len(&self) -> u32
        ensures { result ≡ occupied self.now.handles }
    {
        self.slots.len()
    }

    /// The greatest number that was ever given, whether it stands for something or not; 0 of a new table.
    pub fn last(&self) -> u32
        ensures exact { result ≡ length self.now.handles.entries }
        ensures most { result < MAX_HANDLE }
    {
        self.slots.last()
    }

    /// What a number stands for, if anything. Canonical ABI, `Table.get`.
    pub fn entry(&self, number: u32) -> Option<&Entry>
        ensures { option_copied result ≡ entry_at self.now.handles number }
    {
        self.slots.get(number)
    }

    /// The number that the next insert gives; 2^28 where it gives none.
    pub fn next_index(&self) -> u32
        ensures exact { result ≡ next_index self.now.handles }
        ensures some { 0 < result }
        ensures most { result ≤ MAX_HANDLE }
    {
        self.slots.next_index()
    }

    /// The number that the insert after the next one gives; 2^28 and above where it gives none.
    pub fn second_index(&self) -> u32
        ensures exact { (entry : Entry) → result ≡ next_index (inserted self.now.handles entry) }
        ensures most { result ≤ MAX_HANDLE + 1 }
    {
        self.slots.second_index()
    }

    /// Takes room for so many inserts, which then take no memory.
    #[inline(always)]
    pub fn reserve(&mut self, count: u32) -> Result<(), HandleError>
        ensures ok { OnOk result (count ≤ self.new.room) }
        ensures handles { self.new.handles ≡ self.old.handles }
        ensures room { self.old.room ≤ self.new.room }

        // It fails only where that room was missing.
        ensures errors { IfErr result (λ e. e ≡ HandleError.OutOfMemory) }
        ensures memory { OnErr result (self.old.room < count) }
        ensures err { OnErr result (self.new ≡ self.old) }
    {
        self.slots.reserve(count)
    }
}

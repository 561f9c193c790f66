//! The handle table of a guest's threads.
//!
//! Source: wasmtime, `handle_table.rs`, the calls of these names.

ghost use Rattle.std.specs.Prelude.{◌≡◌, ◌≤◌, IsSome, OnOk};
ghost use Rattle.strm_handles.specs.Handles.{no_handles, entry_at, occupied, IsTable};
ghost use Rattle.strm_handles.specs.Changes.{Inserts, Removes};
ghost use Rattle.strm_handles.specs.Lookups.{guest_thread_rep_of};

use crate::counters::HandleCounter;
use crate::errors::HandleError;
use crate::slots::Slots;
use std::alloc::Global;
use std::marker::Model;

/// The threads of a guest, in a table of their own.
#[derive(Drop)]
pub struct ThreadHandleTable {
    slots: Slots<u32>,
}

impl Model for ThreadHandleTable {
    ghost use Rattle.std.specs.Prelude.{ℕ};
    ghost use Rattle.strm_handles.specs.Handles.{TableOf};

    ghost Value = { TableOf ℕ };

    ghost view = { λ t. t.slots };
}

impl ThreadHandleTable {
    /// An empty table, which takes no memory.
    pub fn new(alloc: Global) -> ThreadHandleTable
        ensures empty { result.handles ≡ no_handles }
        ensures room { result.room ≡ 0 }
    {
        ThreadHandleTable {
            slots: Slots::new(alloc),
        }
    }

    /// `HandleTable::sound`, of threads.
    pub fn sound(&self)
        ensures { IsTable self.now.handles }
    {
        self.slots.sound();
    }

    /// Adds a thread.
    pub fn guest_thread_insert(
        &mut self,
        counter: &mut HandleCounter,
        rep: u32,
    ) -> Result<u32, HandleError>
        ensures { Inserts self.old self.new counter.old counter.new rep result }
    {
        self.slots.insert(counter, rep)
    }

    /// The number of a thread.
    pub fn guest_thread_rep(&self, idx: u32) -> Result<u32, HandleError>
        ensures answer { result ≡ guest_thread_rep_of self.now.handles idx }
        ensures here { OnOk result (IsSome (entry_at self.now.handles idx)) }
    {
        match self.slots.get(idx) {
            Some(rep) => Ok(*rep),
            None => Err(HandleError::UnknownHandle),
        }
    }

    /// Removes a thread: its number.
    pub fn guest_thread_remove(
        &mut self,
        counter: &mut HandleCounter,
        idx: u32,
    ) -> Result<u32, HandleError>
        requires { occupied self.old.handles ≤ counter.old.live }
        ensures answer { result ≡ guest_thread_rep_of self.old.handles idx }
        ensures removes { Removes self.old self.new counter.old counter.new idx result }
    {
        let rep = self.guest_thread_rep(idx)?;
        self.slots.remove(counter, idx);
        Ok(rep)
    }
}

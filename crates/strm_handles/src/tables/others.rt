//! Error contexts, subtasks and waitable sets in a handle table.
//!
//! Source: wasmtime, `handle_table.rs`, the calls of these names.

ghost use Rattle.std.specs.Prelude.{◌≡◌, ◌≤◌, true, false, IsSome, OnOk};
ghost use Rattle.strm_handles.specs.Handles.{entry_at, live_of};
ghost use Rattle.strm_handles.specs.Changes.{Inserts, Removes};
ghost use Rattle.strm_handles.specs.Lookups.{error_context_rep_of, subtask_rep_of, waitable_set_rep_of, waitable_rep_of};

use crate::counters::HandleCounter;
use crate::entries::{Entry, Waitable};
use crate::errors::HandleError;
use crate::tables::HandleTable;

impl HandleTable {
    /// Adds a handle of an error context.
    pub fn error_context_insert(
        &mut self,
        counter: &mut HandleCounter,
        rep: u32,
    ) -> Result<u32, HandleError>
        ensures { Inserts self.old self.new counter.old counter.new
            (Entry.ErrorContext rep) result }
    {
        self.insert(counter, Entry::ErrorContext { rep })
    }

    /// The number of an error context.
    pub fn error_context_rep(&self, idx: u32) -> Result<u32, HandleError>
        ensures answer { result ≡ error_context_rep_of self.now.handles idx }
        ensures here { OnOk result (IsSome (entry_at self.now.handles idx)) }
    {
        match self.slots.get(idx) {
            Some(Entry::ErrorContext { rep }) => Ok(*rep),
            Some(_) => Err(HandleError::WrongKind),
            None => Err(HandleError::UnknownHandle),
        }
    }

    /// Removes a handle of an error context: its number.
    pub fn error_context_drop(
        &mut self,
        counter: &mut HandleCounter,
        idx: u32,
    ) -> Result<u32, HandleError>
        requires { live_of self.old.handles ≤ counter.old.live }
        ensures answer { result ≡ error_context_rep_of self.old.handles idx }
        ensures removes { Removes self.old self.new counter.old counter.new idx result }
    {
        let rep = self.error_context_rep(idx)?;
        self.remove(counter, idx);
        Ok(rep)
    }

    /// Adds a task of a guest.
    pub fn subtask_insert_guest(
        &mut self,
        counter: &mut HandleCounter,
        rep: u32,
    ) -> Result<u32, HandleError>
        ensures { Inserts self.old self.new counter.old counter.new
            (Entry.Subtask rep false) result }
    {
        self.insert(
            counter,
            Entry::Subtask {
                rep,
                is_host: false,
            },
        )
    }

    /// Adds a task of the host.
    pub fn subtask_insert_host(
        &mut self,
        counter: &mut HandleCounter,
        rep: u32,
    ) -> Result<u32, HandleError>
        ensures { Inserts self.old self.new counter.old counter.new
            (Entry.Subtask rep true) result }
    {
        self.insert(counter, Entry::Subtask { rep, is_host: true })
    }

    /// The number of a subtask, and whether it is a host task.
    pub fn subtask_rep(&self, idx: u32) -> Result<(u32, bool), HandleError>
        ensures answer { result ≡ subtask_rep_of self.now.handles idx }
        ensures here { OnOk result (IsSome (entry_at self.now.handles idx)) }
    {
        match self.slots.get(idx) {
            Some(Entry::Subtask { rep, is_host }) => Ok((*rep, *is_host)),
            Some(_) => Err(HandleError::WrongKind),
            None => Err(HandleError::UnknownHandle),
        }
    }

    /// Removes a subtask: its number, and whether it is a host task.
    pub fn subtask_remove(
        &mut self,
        counter: &mut HandleCounter,
        idx: u32,
    ) -> Result<(u32, bool), HandleError>
        requires { live_of self.old.handles ≤ counter.old.live }
        ensures answer { result ≡ subtask_rep_of self.old.handles idx }
        ensures removes { Removes self.old self.new counter.old counter.new idx result }
    {
        let task = self.subtask_rep(idx)?;
        self.remove(counter, idx);
        Ok(task)
    }

    /// Adds a waitable set.
    pub fn waitable_set_insert(
        &mut self,
        counter: &mut HandleCounter,
        rep: u32,
    ) -> Result<u32, HandleError>
        ensures { Inserts self.old self.new counter.old counter.new
            (Entry.WaitableSet rep) result }
    {
        self.insert(counter, Entry::WaitableSet { rep })
    }

    /// The number of a waitable set.
    pub fn waitable_set_rep(&self, idx: u32) -> Result<u32, HandleError>
        ensures answer { result ≡ waitable_set_rep_of self.now.handles idx }
        ensures here { OnOk result (IsSome (entry_at self.now.handles idx)) }
    {
        match self.slots.get(idx) {
            Some(Entry::WaitableSet { rep }) => Ok(*rep),
            Some(_) => Err(HandleError::WrongKind),
            None => Err(HandleError::UnknownHandle),
        }
    }

    /// Removes a waitable set: its number.
    pub fn waitable_set_remove(
        &mut self,
        counter: &mut HandleCounter,
        idx: u32,
    ) -> Result<u32, HandleError>
        requires { live_of self.old.handles ≤ counter.old.live }
        ensures answer { result ≡ waitable_set_rep_of self.old.handles idx }
        ensures removes { Removes self.old self.new counter.old counter.new idx result }
    {
        let rep = self.waitable_set_rep(idx)?;
        self.remove(counter, idx);
        Ok(rep)
    }

    /// The number and the kind of a subtask, or of an end of a stream or future.
    pub fn waitable_rep(&self, idx: u32) -> Result<(u32, Waitable), HandleError>
        ensures { result ≡ waitable_rep_of self.now.handles idx }
    {
        match self.slots.get(idx) {
            Some(Entry::Subtask { rep, is_host }) => Ok((
                *rep,
                Waitable::Subtask { is_host: *is_host },
            )),
            Some(Entry::Future(end)) => Ok((end.rep, Waitable::Future)),
            Some(Entry::Stream(end)) => Ok((end.rep, Waitable::Stream)),
            Some(_) => Err(HandleError::WrongKind),
            None => Err(HandleError::UnknownHandle),
        }
    }
}

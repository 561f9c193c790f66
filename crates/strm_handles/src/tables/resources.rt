//! Resources in a handle table, own and borrowed.
//!
//! Source: wasmtime, `handle_table.rs`, the calls of these names; Canonical ABI, "Resource State".

ghost use Rattle.std.specs.Prelude.{◌≡◌, ◌≤◌, ◌<◌, if◌then◌else◌, IsSome, IfOk, OnOk};
ghost use Rattle.strm_handles.specs.Handles.{entry_at, live_of};
ghost use Rattle.strm_handles.specs.Changes.{Inserts, Removes, ChangesInPlace};
ghost use Rattle.strm_handles.specs.Counters.{counted, uncounted};
ghost use Rattle.strm_handles.specs.Lookups.{resource_rep_of};
ghost use Rattle.strm_handles.specs.Lends.{resource_lend_of, resource_undo_lend_of, HasLend, lent, returned, remove_resource_of};

use crate::counters::HandleCounter;
use crate::entries::{Entry, RemovedResource, Scope, TypedResource, TypedResourceIndex};
use crate::errors::HandleError;
use crate::tables::HandleTable;

impl HandleTable {
    /// Adds a resource that the guest owns, with no lend.
    pub fn resource_own_insert(
        &mut self,
        counter: &mut HandleCounter,
        resource: TypedResource,
    ) -> Result<u32, HandleError>
        ensures { Inserts self.old self.new counter.old counter.new
            (Entry.ResourceOwn resource 0) result }
    {
        self.insert(
            counter,
            Entry::ResourceOwn {
                resource,
                lend_count: 0,
            },
        )
    }

    /// Adds a resource that is lent to the guest for a call.
    pub fn resource_borrow_insert(
        &mut self,
        counter: &mut HandleCounter,
        resource: TypedResource,
        scope: Scope,
    ) -> Result<u32, HandleError>
        ensures { Inserts self.old self.new counter.old counter.new
            (Entry.ResourceBorrow resource scope) result }
    {
        self.insert(counter, Entry::ResourceBorrow { resource, scope })
    }

    /// The number of a resource, own or borrowed.
    pub fn resource_rep(&self, idx: TypedResourceIndex) -> Result<u32, HandleError>
        ensures { result ≡ resource_rep_of self.now.handles idx }
    {
        match self.slots.get(idx.index) {
            Some(Entry::ResourceOwn { resource, .. } | Entry::ResourceBorrow { resource, .. }) => {
                resource.typed_rep(idx.ty)
            }
            Some(_) => Err(HandleError::WrongKind),
            None => Err(HandleError::UnknownHandle),
        }
    }

    /// Lends a resource: its number, and whether the guest owns it. The lend of an own resource is
    /// counted until it is undone.
    pub fn resource_lend(
        &mut self,
        counter: &mut HandleCounter,
        idx: TypedResourceIndex,
    ) -> Result<(u32, bool), HandleError>
        ensures answer { result ≡ resource_lend_of self.old.handles counter.old idx }
        ensures ok { OnOk result (self.new.handles ≡ lent self.old.handles idx.index) }
        ensures live { IfOk result
            (λ r. counter.new ≡ (if r.1 then counted counter.old else counter.old)) }
        ensures stays { ChangesInPlace self.old self.new counter.old counter.new result }
    {
        match self.slots.get(idx.index) {
            Some(
                Entry::ResourceOwn {
                    resource,
                    lend_count,
                },
            ) => {
                let (resource, lend_count) = (*resource, *lend_count);
                let rep = resource.typed_rep(idx.ty)?;
                if lend_count == u32::MAX {
                    return Err(HandleError::TooManyLends);
                }
                if counter.is_full() {
                    return Err(HandleError::HandleLimit);
                }
                let lend_count = lend_count + 1;
                self.change(
                    idx.index,
                    Entry::ResourceOwn {
                        resource,
                        lend_count,
                    },
                );
                counter.count();
                Ok((rep, true))
            }
            Some(Entry::ResourceBorrow { resource, .. }) => {
                let rep = resource.typed_rep(idx.ty)?;
                Ok((rep, false))
            }
            Some(_) => Err(HandleError::WrongKind),
            None => Err(HandleError::UnknownHandle),
        }
    }

    /// Ends a lend of an own resource.
    pub fn resource_undo_lend(
        &mut self,
        counter: &mut HandleCounter,
        idx: TypedResourceIndex,
    ) -> Result<(), HandleError>
        requires live { live_of self.old.handles ≤ counter.old.live }
        requires lent { HasLend (entry_at self.old.handles idx.index) }
        ensures answer { result ≡ resource_undo_lend_of self.old.handles idx }
        ensures ok { OnOk result (self.new.handles ≡ returned self.old.handles idx.index) }
        ensures live { OnOk result (counter.new ≡ uncounted counter.old) }
        ensures stays { ChangesInPlace self.old self.new counter.old counter.new result }
    {
        match self.slots.get(idx.index) {
            Some(
                Entry::ResourceOwn {
                    resource,
                    lend_count,
                },
            ) => {
                let (resource, lend_count) = (*resource, *lend_count - 1);
                self.change(
                    idx.index,
                    Entry::ResourceOwn {
                        resource,
                        lend_count,
                    },
                );
                counter.uncount();
                Ok(())
            }
            Some(_) => Err(HandleError::WrongKind),
            None => Err(HandleError::UnknownHandle),
        }
    }

    /// Removes a resource, own or borrowed: what it was.
    pub fn remove_resource(
        &mut self,
        counter: &mut HandleCounter,
        idx: TypedResourceIndex,
    ) -> Result<RemovedResource, HandleError>
        requires { live_of self.old.handles ≤ counter.old.live }
        ensures answer { result ≡ remove_resource_of self.old.handles idx }
        ensures removes { Removes self.old self.new counter.old counter.new idx.index result }
    {
        let resource = self.removable_resource(idx)?;
        self.remove(counter, idx.index);
        Ok(resource)
    }

    fn removable_resource(&self, idx: TypedResourceIndex) -> Result<RemovedResource, HandleError>
        ensures answer { result ≡ remove_resource_of self.now.handles idx }
        ensures here { OnOk result (IsSome (entry_at self.now.handles idx.index)) }
    {
        match self.slots.get(idx.index) {
            Some(
                Entry::ResourceOwn {
                    resource,
                    lend_count,
                },
            ) => {
                if *lend_count != 0 {
                    return Err(HandleError::Lent);
                }
                let rep = resource.typed_rep(idx.ty)?;
                Ok(RemovedResource::Own { rep })
            }
            Some(Entry::ResourceBorrow { resource, scope }) => {
                resource.typed_rep(idx.ty)?;
                Ok(RemovedResource::Borrow { scope: *scope })
            }
            Some(_) => Err(HandleError::WrongKind),
            None => Err(HandleError::UnknownHandle),
        }
    }
}

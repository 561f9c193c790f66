//! A store without host ends.
//!
//! Meaning: `Reaching.antt`; each call is a step of `strm_machine` alone. Ours.

ghost use Rattle.std.specs.Prelude.{◌≡◌, false, IfOk, OnErr, MatchOption};
ghost use Rattle.strm_machine.specs.State.{empty};
ghost use Rattle.strm_machine.specs.Reactions.{goes, react};
ghost use Rattle.strm_machine.specs.WaitableSets.{is_in_set};
ghost use Rattle.strm_machine.specs.declared.steps.Step.TheVariants as steps;
ghost use Rattle.strm_shared.specs.Places.{is_host_step, IsBusy};
ghost use Rattle.strm_shared.specs.Reaching.{IsStateReached};
ghost use Rattle.strm_shared.specs.Waits.{DeliversReport};

use crate::entry::Place;
use std::alloc::Global;
use std::marker::Model;
use strm_buffers::hosts::Hosts;
use strm_codes::counts::OutOfMemory;
use strm_machine::limits::Limits;
use strm_machine::replies::Reply;
use strm_machine::steps::Step;
use strm_transmit::errors::StoreError;
use strm_transmit::steps::apply;
use strm_transmit::store::Store;

/// A store without host ends.
#[derive(Drop)]
pub struct LoneStore {
    store: Store,
}

impl Model for LoneStore {
    ghost use Rattle.strm_machine.specs.State.{State};
    ghost use Rattle.std.specs.Coded.{codes};
    ghost use Rattle.strm_error_contexts.specs.Contexts.{contexts_code};
    ghost use Rattle.strm_waitable_sets.specs.Sets.{sets_code};

    ghost Value = { State };

    ghost coded = { Prim.hlevel (codes, sets_code, contexts_code) };

    ghost view = { λ s. s.store };
}

impl LoneStore {
    // A store without guests.
    pub(crate) fn new(alloc: Global, limits: Limits) -> LoneStore
        ensures { result ≡ empty 0 limits }
    {
        LoneStore {
            store: Store::new(alloc, 0, limits),
        }
    }

    // Whether a guest's handle is in a set.
    pub(crate) fn is_in_set(&self, guest: u32, handle: u32) -> bool
        ensures { result ≡ is_in_set self.now guest handle }
    {
        self.store.is_in_set(guest, handle)
    }

    // Does a step.
    pub(crate) fn apply_alone(&mut self, alloc: Global, step: &Step) -> Result<Reply, OutOfMemory>
        requires reached { IsStateReached self.old }
        requires guests { is_host_step step.now ≡ false }
        ensures ok { IfOk result (λ reply. react self.old step.now ≡ goes reply self.new) }
        ensures err { OnErr result (self.new ≡ self.old) }
    {
        apply_alone(alloc, &mut self.store, step)
    }

    // The reply to the event of a busy end, if that is there: it takes no memory.
    pub(crate) fn take_report(&mut self, place: Place) -> Option<Reply>
        requires busy { IsBusy self.old place }
        ensures { MatchOption result (self.new ≡ self.old) (λ reply. DeliversReport reply
            × (react self.old (steps.Event place.guest place.handle) ≡ goes reply self.new)) }
    {
        take_report(&mut self.store, place)
    }

    // The store itself.
    pub(crate) fn into_store(self) -> Store
        ensures { result ≡ self }
    {
        self.store
    }
}

// A step where no host end is.
fn apply_alone(alloc: Global, store: &mut Store, step: &Step) -> Result<Reply, OutOfMemory>
    requires reached { IsStateReached store.old }
    requires guests { is_host_step step.now ≡ false }
    ensures ok { IfOk result (λ reply. react store.old step.now ≡ goes reply store.new) }
    ensures err { OnErr result (store.new ≡ store.old) }
{
    let mut hosts = Hosts {
        writers: Vec::new(alloc),
        readers: Vec::new(alloc),
    };
    match apply(store, &mut hosts, step) {
        Ok(reply) => Ok(reply),
        Err(StoreError::BadItem { stream }) => Ok(Reply::BadItem { stream }),
        Err(StoreError::StoreTrapped) => Ok(Reply::StoreTrapped),
        Err(StoreError::OutOfMemory) => Err(OutOfMemory),
        Err(StoreError::Refused(_)) => unreachable!(),
        Err(StoreError::HostFailed { end: _ }) => unreachable!(),
        Err(StoreError::HostBroke { end: _ }) => unreachable!(),
    }
}

// The report of a read or write that waits, if it is there; else nothing has changed.
fn take_report(store: &mut Store, place: Place) -> Option<Reply>
    requires busy { IsBusy store.old place }
    ensures { MatchOption result (store.new ≡ store.old) (λ reply. DeliversReport reply
        × (react store.old (steps.Event place.guest place.handle) ≡ goes reply store.new)) }
{
    match store.take_event(place.guest, place.handle) {
        Ok(None) => None,
        Ok(Some(code)) => Some(Reply::Event(Some(code))),
        Err(StoreError::StoreTrapped) => Some(Reply::StoreTrapped),
        Err(StoreError::Refused(_)) => unreachable!(),
        Err(StoreError::BadItem { stream: _ }) => unreachable!(),
        Err(StoreError::OutOfMemory) => unreachable!(),
        Err(StoreError::HostFailed { end: _ }) => unreachable!(),
        Err(StoreError::HostBroke { end: _ }) => unreachable!(),
    }
}

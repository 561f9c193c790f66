//! What a turn has: the store beside its history, and what it does to both.
//!
//! Meaning: `Accounts.antt`, and what it keeps `IsKept` of `Waits.antt`. Ours.

ghost use Rattle.std.specs.Prelude.{◌≡◌, ◌-◌, ◌^◌, ◌<◌, [], ◌∷◌, true, false, IfOk, OnErr, Some, MatchOption};
ghost use Rattle.strm_machine.specs.WaitableSets.{is_in_set};
ghost use Rattle.strm_machine.specs.declared.steps.Step.TheVariants as steps;
ghost use Rattle.strm_shared.specs.Places.{place_named, operated, is_host_step, is_move, is_refused_busy};
ghost use Rattle.strm_shared.specs.Histories.{entry, state_after, IsLegal};
ghost use Rattle.strm_shared.specs.Waits.{wait, waits_by, without, waits_begun, IsClear, AreWaits, Has, DeliversReport};
ghost use Rattle.strm_shared.specs.Accounts.{account, opened, entered, entered_with, idled};

use crate::entry::{Place, Wait};
use crate::history::History;
use crate::lone_store::LoneStore;
use crate::steps::{is_refused_busy, named};
use crate::waits::{drop_waits, keep_wait, seat_at};
use std::alloc::Global;
use std::marker::Model;
use strm_codes::counts::OutOfMemory;
use strm_machine::limits::Limits;
use strm_machine::replies::Reply;
use strm_machine::steps::Step;
use strm_transmit::store::Store;

/// The store beside its history. Contracts see its limits, the history, the number of idle turns and the
/// waits.
#[derive(Drop)]
pub struct Ledger {
    limits: Limits,
    store: LoneStore,
    history: History,
    // Turns that made no entry.
    idle: u64,
    waits: Vec<Wait>,
}

impl Model for Ledger {
    ghost use Rattle.strm_shared.specs.Accounts.{Account, account};
    ghost use Rattle.strm_shared.specs.Waits.{IsSlotKept};

    ghost Value = { Account };

    ghost view = { λ l. account l.limits l.history.items l.idle l.waits.items };

    ghost invariant = { λ l.
        IsSlotKept l.limits l.store l.history.items l.waits.items l.history.room };
}

impl Ledger {
    // An empty store and no history.
    pub(crate) fn new(alloc: Global, limits: Limits) -> Ledger
        ensures { result ≡ opened limits }
    {
        Ledger {
            limits,
            store: LoneStore::new(alloc, limits),
            history: History::new(alloc),
            idle: 0,
            waits: Vec::new(alloc),
        }
    }

    // What is kept of the waits: it does nothing.
    pub(crate) fn sound(&self)
        ensures { AreWaits self.now.limits self.now.log self.now.waits }
    {
        let _waits = &self.waits;
    }

    // The seat that waits for the handle that the step names.
    pub(crate) fn waiter(&self, step: &Step) -> Option<u64>
        ensures { MatchOption result (IsClear step.now self.now.waits) (λ seat. (there : _)
            × (place_named step.now ≡ Some there) × Has (wait seat there) self.now.waits) }
    {
        let place = named(step)?;
        seat_at(&self.waits, place)
    }

    // Whether a handle is in a set.
    pub(crate) fn is_member(&self, place: Place) -> bool
        ensures { result
            ≡ is_in_set (state_after self.now.limits self.now.log) place.guest place.handle }
    {
        self.store.is_in_set(place.guest, place.handle)
    }

    // Does a step, and enters it. For each wait room for one entry more is kept.
    pub(crate) fn enter(
        &mut self,
        alloc: Global,
        seat: u64,
        step: &Step,
    ) -> Result<Reply, OutOfMemory>
        requires clear { IsClear step.now self.old.waits }
        requires guests { is_host_step step.now ≡ false }
        ensures ok { IfOk result
            (λ reply. self.new ≡ entered self.old (entry seat step.now reply)) }
        ensures legal { IsLegal self.new.limits self.new.log }
        ensures err { OnErr result (self.new ≡ self.old) }
    {
        let spare = self.waits.len() + 1;
        self.history.reserve(spare)?;
        let reply = self.store.apply_alone(alloc, step)?;
        self.history.push(seat, step, &reply);
        Ok(reply)
    }

    // Begins a read or write, and a wait where it is answered Blocked: with room for the entry of its
    // report, so that this takes no memory.
    pub(crate) fn begin(
        &mut self,
        alloc: Global,
        seat: u64,
        step: &Step,
        place: Place,
    ) -> Result<Reply, OutOfMemory>
        requires operates { operated step.now ≡ Some place }
        requires free { is_in_set (state_after self.old.limits self.old.log)
            place.guest place.handle ≡ false }
        ensures ok { IfOk result (λ reply. self.new ≡ entered_with self.old
            (entry seat step.now reply) (waits_begun reply self.old.waits (wait seat place))) }
        ensures legal { IsLegal self.new.limits self.new.log }
        ensures err { OnErr result (self.new ≡ self.old) }
    {
        let spare = self.waits.len() + 2;
        self.history.reserve(spare)?;
        self.waits.reserve(1)?;
        let reply = self.store.apply_alone(alloc, step)?;
        self.history.push(seat, step, &reply);
        keep_wait(&mut self.waits, &reply, Wait { seat, place });
        Ok(reply)
    }

    // Takes the report for which the seat waits, if it is there, or counts an idle turn. It takes no
    // memory.
    pub(crate) fn deliver(&mut self, seat: u64, place: Place) -> Option<Reply>
        requires waits { waits_by seat self.old.waits ≡ place ∷ [] }
        requires room { self.old.idle < 2 ^ 64 - 1 }
        ensures turn { MatchOption result (self.new ≡ idled self.old) (λ reply. DeliversReport reply
            × (self.new ≡ entered_with self.old
            (entry seat (steps.Event place.guest place.handle) reply)
            (without seat self.old.waits))) }
        ensures legal { IsLegal self.new.limits self.new.log }
    {
        let Some(reply) = self.store.take_report(place) else {
            self.idle += 1;
            return None;
        };
        let step = Step::Event {
            guest: place.guest,
            handle: place.handle,
        };
        self.history.push(seat, &step, &reply);
        drop_waits(&mut self.waits, seat);
        Some(reply)
    }

    // Moves an end, and enters that. Where it is refused since the end has an operation, it counts an
    // idle turn.
    pub(crate) fn shift(
        &mut self,
        alloc: Global,
        seat: u64,
        step: &Step,
    ) -> Result<Option<Reply>, OutOfMemory>
        requires moves { is_move step.now ≡ true }
        requires room { self.old.idle < 2 ^ 64 - 1 }
        ensures ok { IfOk result (λ found. MatchOption found (self.new ≡ idled self.old) (λ reply.
            (is_refused_busy reply ≡ false)
            × (self.new ≡ entered self.old (entry seat step.now reply)))) }
        ensures legal { IsLegal self.new.limits self.new.log }
        ensures err { OnErr result (self.new ≡ self.old) }
    {
        let spare = self.waits.len() + 1;
        self.history.reserve(spare)?;
        let reply = self.store.apply_alone(alloc, step)?;
        if is_refused_busy(&reply) {
            self.idle += 1;
            return Ok(None);
        }
        self.history.push(seat, step, &reply);
        Ok(Some(reply))
    }

    // Counts a turn that makes no entry.
    pub(crate) fn pass_idle(&mut self)
        requires { self.old.idle < 2 ^ 64 - 1 }
        ensures idle { self.new ≡ idled self.old }
        ensures legal { IsLegal self.new.limits self.new.log }
    {
        self.idle += 1;
    }

    // The store and the history.
    pub(crate) fn into_parts(self) -> (Store, History)
        ensures legal { IsLegal self.limits self.log }
        ensures parts { (result.0 ≡ state_after self.limits self.log)
            × (result.1.items ≡ self.log) }
    {
        let Ledger {
            limits: _,
            store,
            history,
            idle: _,
            waits: _,
        } = self;
        (store.into_store(), history)
    }
}

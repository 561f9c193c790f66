//! Waitable sets: made, joined, polled and dropped.
//!
//! Meaning: `WaitableSets.antt` of `strm_machine`, and `joins`, `polls` and `on_set` of its
//! `Reactions.antt`. Source: Canonical ABI, `canon waitable-set.{new,poll,drop}` and
//! `canon waitable.join`. Ours: a poll answers the least member that is ready.

ghost use Rattle.std.specs.Prelude.{◌≡◌, ◌≢◌, ℕ, ◌<◌, ◌+◌, ◌&&◌, ◌∷◌, [], true, length, Err, Some, None, IfOk, IfErr, IfSome};
ghost use Rattle.strm_codes.specs.declared.refusals.Refusal.TheVariants as refusals;
ghost use Rattle.strm_waitable_sets.specs.Ready.{is_in};
ghost use Rattle.strm_waitable_sets.specs.Sets.{is_set_there, is_member};
ghost use Rattle.strm_machine.specs.State.{sets_in};
ghost use Rattle.strm_machine.specs.WaitableSets.{set_named, number_named, has_member, is_in_set, is_ready, ready_member, without_set_named};
ghost use Rattle.strm_machine.specs.Refusals.{where_, refusal, first_of, slot_reasons, joined_reasons};
ghost use Rattle.strm_machine.specs.Reactions.{goes, joins, polls, performs, react};
ghost use Rattle.strm_machine.specs.declared.acts.Act.TheVariants.{Make, OnSet};
ghost use Rattle.strm_machine.specs.declared.acts.Making.TheVariants.{Set};
ghost use Rattle.strm_machine.specs.declared.acts.SetAct.TheVariants.{Join, Poll, Drop};
ghost use Rattle.strm_machine.specs.declared.replies.Reply.TheVariants as replies;
ghost use Rattle.strm_machine.specs.declared.steps.Step.TheVariants as steps;
ghost use Rattle.strm_machine.proofs.NameLemmas.{IsEndError};
ghost use Rattle.strm_transmit.specs.Meets.{Meets, as_reply, or_found};
ghost use Rattle.strm_transmit.specs.Hosted.{StillFits};

use crate::errors::StoreError;
use crate::store::Store;
use crate::store::refusals::{refusal_of, side_of};
use crate::telling::home_of;
use strm_channels::sets::{give_set, has_member, is_in_set, join_set, leave_set, remove_set};
use strm_codes::refusals::Refusal;
use strm_handles::errors::HandleError;
use strm_machine::replies::Member;
use strm_waitable_sets::ready::ReadyMembers;

// One more than a count that is below a limit, which is there for the contract alone.
fn one_more(count: u32, limit: u32) -> u32
    requires { count < limit }
    ensures { result ≡ count + 1 }
{
    count + 1
}

impl Store {
    // The number of the set that a handle names.
    fn set_name(&self, guest: u32, set: u32) -> Result<u32, HandleError>
        requires { guest < length self.now.guests }
        ensures answer { result ≡ set_named self.now guest set }
        ensures there { IfOk result (λ number.
            is_set_there (sets_in self.now.guests guest) number ≡ true) }
        ensures others { IfErr result IsEndError }
    {
        self.guests[guest as usize].table.waitable_set_rep(set)
    }

    // The same as a refusal or the number.
    fn set_found(&self, guest: u32, set: u32) -> Result<u32, Refusal>
        requires { guest < length self.now.guests }
        ensures exact { result ≡ or_found (first_of (slot_reasons (set_named self.now guest set)))
            (number_named (set_named self.now guest set)) }
        ensures there { IfOk result (λ number.
            is_set_there (sets_in self.now.guests guest) number ≡ true) }
    {
        match self.set_name(guest, set) {
            Ok(number) => Ok(number),
            Err(error) => Err(refusal_of(error)),
        }
    }

    // Whether a guest may have a set more.
    #[tactic(auto, unfolding(strm_machine::specs::Refusals::refusal))]
    fn set_fits(&self, guest: u32) -> Result<(), Refusal>
        ensures { result ≡ or_found (refusal self.now (Make (Set guest))) tt }
    {
        if self.is_unknown_guest(guest) {
            return Err(Refusal::UnknownGuest);
        }
        match self.placed_refusal(guest) {
            Some(refusal) => Err(refusal),
            None => Ok(()),
        }
    }

    // A set more. After running out of memory nothing has changed.
    #[tactic(auto, unfolding(strm_machine::specs::Reactions::performs))]
    fn make_set(&mut self, guest: u32) -> Result<u32, StoreError>
        requires { refusal self.old (Make (Set guest)) ≡ None }
        ensures { Meets self.old self.new (as_reply replies.Number result)
            (performs self.old (Make (Set guest))) }
    {
        let (guests, counter) = (&mut self.guests, &mut self.counter);
        let handle = give_set(guests, counter, guest as usize)?;
        self.live_sets = one_more(self.live_sets, self.limits.places);
        Ok(handle)
    }

    /// A waitable set of a guest, without members: the answer is its handle. `canon waitable-set.new`.
    /// Refused: UnknownGuest, IndexOverflow, HandleLimit, Full. OutOfMemory.
    pub fn set_new(&mut self, guest: u32) -> Result<u32, StoreError>
        ensures meets { Meets self.old self.new (as_reply replies.Number result)
            (react self.old (steps.SetNew guest)) }
        ensures fits { StillFits self.old self.new }
    {
        self.admit(self.set_fits(guest))?;
        self.make_set(guest)
    }

    // The number of the set that is to be joined; set 0 is none.
    fn joined_found(&self, guest: u32, set: u32) -> Result<u32, Refusal>
        requires { guest < length self.now.guests }
        ensures { result ≡ or_found (first_of (joined_reasons self.now guest set))
            (number_named (set_named self.now guest set)) }
    {
        if set == 0 {
            Ok(0)
        } else {
            self.set_found(guest, set)
        }
    }

    // The number of the set that a handle of a guest may join.
    #[tactic(auto, unfolding(strm_machine::specs::Refusals::refusal))]
    fn join_found(&self, guest: u32, set: u32, handle: u32) -> Result<u32, Refusal>
        ensures { result ≡ or_found (refusal self.now (OnSet guest set (Join handle)))
            (number_named (set_named self.now guest set)) }
    {
        if self.is_unknown_guest(guest) {
            return Err(Refusal::UnknownGuest);
        }
        let number = self.joined_found(guest, set)?;
        self.end_found(guest, handle)?;
        Ok(number)
    }

    // A handle joins the set of a number, or leaves its own. After running out of memory nothing has changed.
    fn join_number(
        &mut self,
        guest: u32,
        set: u32,
        handle: u32,
        number: u32,
    ) -> Result<(), StoreError>
        requires may { refusal self.old (OnSet guest set (Join handle)) ≡ None }
        requires number { number ≡ number_named (set_named self.old guest set) }
        ensures { Meets self.old self.new (as_reply (λ _. replies.Done) result)
            (joins self.old guest set handle) }
    {
        let home = home_of(&self.guests, guest as usize, handle);
        if set == 0 {
            leave_set(&mut self.guests, guest as usize, handle);
            self.ready.leave(guest as usize, home, handle);
            return Ok(());
        }
        let is_empty = !has_member(&self.guests, guest as usize, number);
        let is_ready = self.is_ready(guest, handle);
        join_set(&mut self.guests, guest as usize, number, handle)?;
        let (ready, guest) = (&mut self.ready, guest as usize);
        ready.leave(guest, home, handle);
        ready.join(guest, number, is_empty, handle, is_ready, self.alloc);
        Ok(())
    }

    /// The end that a handle names joins a waitable set of its guest, and leaves the one that it was
    /// in; with `set` 0 it leaves that alone. `canon waitable.join`. Refused: UnknownGuest, and
    /// UnknownHandle, WrongKind of the set's handle, and then of the end's. OutOfMemory.
    pub fn set_join(&mut self, guest: u32, set: u32, handle: u32) -> Result<(), StoreError>
        ensures meets { Meets self.old self.new (as_reply (λ _. replies.Done) result)
            (react self.old (steps.SetJoin guest set handle)) }
        ensures fits { StillFits self.old self.new }
    {
        let number = self.admit(self.join_found(guest, set, handle))?;
        self.join_number(guest, set, handle, number)
    }

    /// Whether a guest's handle is in a waitable set. None is of a guest that isn't there.
    pub fn is_in_set(&self, guest: u32, handle: u32) -> bool
        ensures { result ≡ is_in_set self.now guest handle }
    {
        if self.is_unknown_guest(guest) {
            return false;
        }
        is_in_set(&self.guests, guest as usize, handle)
    }

    // Whether a handle of a guest names an end that is to be told something.
    fn is_ready(&self, guest: u32, handle: u32) -> bool
        requires { guest < length self.now.guests }
        ensures { result ≡ is_ready self.now guest handle }
    {
        match self.end_name(guest, handle) {
            Ok(name) => self.stream(name.0).report(side_of(name.1)).is_some(),
            Err(_) => false,
        }
    }

    // The ready members of a set, where they are known.
    fn known(&self, guest: u32, number: u32) -> Option<&ReadyMembers>
        ensures { IfSome result (λ members. (handle : ℕ) → is_in members.now handle ≡ (is_member
            (sets_in self.now.guests guest) number handle && is_ready self.now guest handle)) }
    {
        self.ready.known(guest, number)
    }

    // The least member of a set that is ready, where the members are asked one by one. No member behind
    // it is looked at.
    fn first_ready(&self, guest: u32, number: u32) -> Option<u32>
        requires there { guest < length self.now.guests }
        requires made { is_set_there (sets_in self.now.guests guest) number ≡ true }
        ensures exact { result ≡ ready_member self.now guest number }
        ensures ready { IfSome result (λ handle. is_ready self.now guest handle ≡ true) }
    {
        let sets = &self.guests[guest as usize].sets;
        sets.poll(number, |handle| self.is_ready(guest, handle))
    }

    // The least member of a set that is ready. Where the ready members are known, no other is looked at.
    fn ready_member(&self, guest: u32, number: u32) -> Option<u32>
        requires there { guest < length self.now.guests }
        requires made { is_set_there (sets_in self.now.guests guest) number ≡ true }
        ensures exact { result ≡ ready_member self.now guest number }
        ensures ready { IfSome result (λ handle. is_ready self.now guest handle ≡ true) }
    {
        match self.known(guest, number) {
            Some(members) => members.least(),
            None => self.first_ready(guest, number),
        }
    }

    // A member that is ready is told its report.
    fn tell_member(&mut self, guest: u32, handle: u32) -> Option<Member>
        requires there { guest < length self.old.guests }
        requires ready { is_ready self.old guest handle ≡ true }
        ensures { polls self.old guest (Some handle) ≡ goes (replies.Member result) self.new }
    {
        match self.end_name(guest, handle) {
            Ok(name) => match self.tell(name.0, side_of(name.1)) {
                Some(code) => Some(Member { handle, code }),
                None => None,
            },
            Err(_) => unreachable!(),
        }
    }

    // The least member of a set that is ready is told its report.
    fn poll_number(&mut self, guest: u32, number: u32) -> Option<Member>
        requires there { guest < length self.old.guests }
        requires made { is_set_there (sets_in self.old.guests guest) number ≡ true }
        ensures { polls self.old guest (ready_member self.old guest number)
            ≡ goes (replies.Member result) self.new }
    {
        match self.ready_member(guest, number) {
            Some(handle) => self.tell_member(guest, handle),
            None => None,
        }
    }

    // The number of the set that is to be polled.
    #[tactic(auto, unfolding(strm_machine::specs::Refusals::refusal))]
    fn poll_found(&self, guest: u32, set: u32) -> Result<u32, Refusal>
        ensures exact { result ≡ or_found (refusal self.now (OnSet guest set Poll))
            (number_named (set_named self.now guest set)) }
        ensures guest { IfOk result (λ _. guest < length self.now.guests) }
        ensures there { IfOk result (λ number.
            is_set_there (sets_in self.now.guests guest) number ≡ true) }
    {
        if self.is_unknown_guest(guest) {
            return Err(Refusal::UnknownGuest);
        }
        self.set_found(guest, set)
    }

    /// The least member of a waitable set that has a report is told it, as by `take_event`: the answer
    /// is its handle and the code, or none. `canon waitable-set.poll`. Refused: UnknownGuest,
    /// UnknownHandle, WrongKind.
    pub fn set_poll(&mut self, guest: u32, set: u32) -> Result<Option<Member>, StoreError>
        ensures meets { Meets self.old self.new (as_reply replies.Member result)
            (react self.old (steps.SetPoll guest set)) }
        ensures fits { StillFits self.old self.new }
        ensures takes_no_memory { result ≢ Err StoreError.OutOfMemory }
    {
        let number = self.admit(self.poll_found(guest, set))?;
        Ok(self.poll_number(guest, number))
    }

    // Why a set may not be dropped.
    fn drop_refusal(&self, guest: u32, number: u32) -> Option<Refusal>
        requires there { guest < length self.now.guests }
        requires made { is_set_there (sets_in self.now.guests guest) number ≡ true }
        ensures { result
            ≡ first_of (where_ (has_member self.now guest number) refusals.SetNotEmpty ∷ []) }
    {
        if has_member(&self.guests, guest as usize, number) {
            return Some(Refusal::SetNotEmpty);
        }
        None
    }

    // The number of the set that may be dropped.
    #[tactic(auto, unfolding(strm_machine::specs::Refusals::refusal))]
    fn set_drop_found(&self, guest: u32, set: u32) -> Result<u32, Refusal>
        ensures { result ≡ or_found (refusal self.now (OnSet guest set Drop))
            (number_named (set_named self.now guest set)) }
    {
        if self.is_unknown_guest(guest) {
            return Err(Refusal::UnknownGuest);
        }
        let number = self.set_found(guest, set)?;
        match self.drop_refusal(guest, number) {
            Some(refusal) => Err(refusal),
            None => Ok(number),
        }
    }

    // A set that has no member is gone, and its handle freed.
    pub(crate) fn drop_number(&mut self, guest: u32, set: u32, number: u32)
        requires may { refusal self.old (OnSet guest set Drop) ≡ None }
        requires number { number ≡ number_named (set_named self.old guest set) }
        ensures { self.new ≡ without_set_named self.old guest set }
    {
        let (guests, counter) = (&mut self.guests, &mut self.counter);
        remove_set(guests, counter, guest as usize, set, number);
        self.live_sets -= 1;
    }

    /// Drops a waitable set, whose handle is freed. `canon waitable-set.drop`. Refused: UnknownGuest,
    /// UnknownHandle, WrongKind, SetNotEmpty.
    pub fn set_drop(&mut self, guest: u32, set: u32) -> Result<(), StoreError>
        ensures meets { Meets self.old self.new (as_reply (λ _. replies.Done) result)
            (react self.old (steps.SetDrop guest set)) }
        ensures fits { StillFits self.old self.new }
        ensures takes_no_memory { result ≢ Err StoreError.OutOfMemory }
    {
        let number = self.admit(self.set_drop_found(guest, set))?;
        self.drop_number(guest, set, number);
        Ok(())
    }
}

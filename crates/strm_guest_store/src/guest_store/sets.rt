//! Waitable sets.
//!
//! Meaning: `Reactions.antt` of `strm_machine`. Source: Canonical ABI, `canon waitable-set.new` and the
//! others.

ghost use Rattle.std.specs.Prelude.{◌≢◌, Err};
ghost use Rattle.strm_machine.specs.Bases.{BasesStay};
ghost use Rattle.strm_machine.specs.Reactions.{react};
ghost use Rattle.strm_machine.specs.declared.replies.Reply.TheVariants as replies;
ghost use Rattle.strm_machine.specs.declared.steps.Step.TheVariants as steps;
ghost use Rattle.strm_transmit.specs.Meets.{Meets, as_reply};

use crate::guest_store::GuestStore;
use strm_machine::replies::Member;
use strm_transmit::errors::StoreError;

#[tactic(auto, using(crate::proofs::AmongLemmas::plain_among, crate::proofs::BaseLemmas::plain_stays))]
impl GuestStore {
    /// A new waitable set. Answers its handle. `canon waitable-set.new`.
    pub fn set_new(&mut self, guest: u32) -> Result<u32, StoreError>
        ensures meets { Meets self.old self.new (as_reply replies.Number result)
            (react self.old (steps.SetNew guest)) }
        ensures stays { BasesStay self.old.guests self.new.guests }
    {
        self.store.set_new(guest)
    }

    /// An end joins a set, and leaves the one that it was in; of set 0 it leaves that alone.
    /// `canon waitable.join`.
    pub fn set_join(&mut self, guest: u32, set: u32, handle: u32) -> Result<(), StoreError>
        ensures meets { Meets self.old self.new (as_reply (λ _. replies.Done) result)
            (react self.old (steps.SetJoin guest set handle)) }
        ensures stays { BasesStay self.old.guests self.new.guests }
    {
        self.store.set_join(guest, set, handle)
    }

    /// The member of the least handle that has a report is told it. `canon waitable-set.poll`.
    pub fn set_poll(&mut self, guest: u32, set: u32) -> Result<Option<Member>, StoreError>
        ensures meets { Meets self.old self.new (as_reply replies.Member result)
            (react self.old (steps.SetPoll guest set)) }
        ensures stays { BasesStay self.old.guests self.new.guests }
        ensures takes_no_memory { result ≢ Err StoreError.OutOfMemory }
    {
        self.store.set_poll(guest, set)
    }

    /// A set without members is given up. `canon waitable-set.drop`. One that has any is refused
    /// (SetNotEmpty).
    pub fn set_drop(&mut self, guest: u32, set: u32) -> Result<(), StoreError>
        ensures meets { Meets self.old self.new (as_reply (λ _. replies.Done) result)
            (react self.old (steps.SetDrop guest set)) }
        ensures stays { BasesStay self.old.guests self.new.guests }
        ensures takes_no_memory { result ≢ Err StoreError.OutOfMemory }
    {
        self.store.set_drop(guest, set)
    }
}

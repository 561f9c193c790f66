//! Waitable sets.
//!
//! Meaning: `Reactions.antt` of `strm_machine`. Source: Canonical ABI, `canon waitable-set.new` and the
//! others.

ghost use Rattle.std.specs.Prelude.{◌≢◌, Err};
ghost use Rattle.strm_machine.specs.Reactions.{react};
ghost use Rattle.strm_machine.specs.declared.replies.Reply.TheVariants as replies;
ghost use Rattle.strm_machine.specs.declared.steps.Step.TheVariants as steps;
ghost use Rattle.strm_transmit.specs.Meets.{as_reply};
ghost use Rattle.strm_host_store.specs.Calls.{MeetsBeside};

use crate::host_store::HostStore;
use strm_machine::replies::Member;
use strm_transmit::errors::StoreError;

#[tactic(auto, using(crate::proofs::FitLemmas::beside_fits))]
impl HostStore {
    /// A new waitable set. Answers its handle. `canon waitable-set.new`.
    pub fn set_new(&mut self, guest: u32) -> Result<u32, StoreError>
        ensures meets { MeetsBeside self.old self.new (as_reply replies.Number result)
            (react self.old.state (steps.SetNew guest)) }
    {
        self.store.set_new(guest)
    }

    /// An end joins a set, and leaves the one that it was in; of set 0 it leaves that alone.
    /// `canon waitable.join`.
    pub fn set_join(&mut self, guest: u32, set: u32, handle: u32) -> Result<(), StoreError>
        ensures meets { MeetsBeside self.old self.new (as_reply (λ _. replies.Done) result)
            (react self.old.state (steps.SetJoin guest set handle)) }
    {
        self.store.set_join(guest, set, handle)
    }

    /// The member of the least handle that has a report is told it. `canon waitable-set.poll`.
    pub fn set_poll(&mut self, guest: u32, set: u32) -> Result<Option<Member>, StoreError>
        ensures meets { MeetsBeside self.old self.new (as_reply replies.Member result)
            (react self.old.state (steps.SetPoll guest set)) }
        ensures takes_no_memory { result ≢ Err StoreError.OutOfMemory }
    {
        self.store.set_poll(guest, set)
    }

    /// A set without members is given up. `canon waitable-set.drop`. One that has any is refused
    /// (SetNotEmpty).
    pub fn set_drop(&mut self, guest: u32, set: u32) -> Result<(), StoreError>
        ensures meets { MeetsBeside self.old self.new (as_reply (λ _. replies.Done) result)
            (react self.old.state (steps.SetDrop guest set)) }
        ensures takes_no_memory { result ≢ Err StoreError.OutOfMemory }
    {
        self.store.set_drop(guest, set)
    }
}

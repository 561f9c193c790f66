//! Error contexts.
//!
//! Meaning: `Contexts.antt` and `Reactions.antt` of `strm_machine`. Source: Canonical ABI,
//! `canon error-context.new` and the others.

ghost use Rattle.std.specs.Prelude.{◌≡◌, ◌≢◌, Err};
ghost use Rattle.strm_machine.specs.Reactions.{react, lowers_context};
ghost use Rattle.strm_machine.specs.Refusals.{first_of, context_reasons};
ghost use Rattle.strm_machine.specs.ErrorContexts.{context_number};
ghost use Rattle.strm_machine.specs.declared.replies.Reply.TheVariants as replies;
ghost use Rattle.strm_machine.specs.declared.steps.Step.TheVariants as steps;
ghost use Rattle.strm_transmit.specs.Meets.{as_reply, admitted, or_found};
ghost use Rattle.strm_host_store.specs.Calls.{MeetsBeside};

use crate::host_store::HostStore;
use strm_transmit::errors::StoreError;

#[tactic(auto, using(crate::proofs::FitLemmas::beside_fits))]
impl HostStore {
    /// An error context of so many bytes of the guest's memory, which are its message, in UTF-8. Answers
    /// its handle. `canon error-context.new`.
    pub fn error_context_new(
        &mut self,
        guest: u32,
        address: u32,
        len: u32,
    ) -> Result<u32, StoreError>
        ensures meets { MeetsBeside self.old self.new (as_reply replies.Number result)
            (react self.old.state (steps.ErrNew guest address len)) }
    {
        self.store.error_context_new(guest, address, len)
    }

    /// Puts the message of an error context at an address of the guest's memory. Answers its bytes.
    /// `canon error-context.debug-message`.
    pub fn error_context_message(
        &mut self,
        guest: u32,
        handle: u32,
        address: u32,
    ) -> Result<u32, StoreError>
        ensures meets { MeetsBeside self.old self.new (as_reply replies.Number result)
            (react self.old.state (steps.ErrText guest handle address)) }
        ensures takes_no_memory { result ≢ Err StoreError.OutOfMemory }
    {
        self.store.error_context_message(guest, handle, address)
    }

    /// An error context to another guest, or to the same; the guest keeps its handle. Answers the handle
    /// there. wasmtime, `error_context_transfer`.
    pub fn error_context_transfer(
        &mut self,
        guest: u32,
        handle: u32,
        to: u32,
    ) -> Result<u32, StoreError>
        ensures meets { MeetsBeside self.old self.new (as_reply replies.Number result)
            (react self.old.state (steps.ErrMove guest handle to)) }
    {
        self.store.error_context_transfer(guest, handle, to)
    }

    /// A handle to the error context of a number, which `error_context_rep` tells. Answers the handle.
    pub fn error_context_lower(&mut self, rep: u32, guest: u32) -> Result<u32, StoreError>
        ensures meets { MeetsBeside self.old self.new (as_reply replies.Number result)
            (lowers_context self.old.state rep guest) }
    {
        self.store.error_context_lower(rep, guest)
    }

    /// A handle of an error context is given up, and the context with the last. `canon
    /// error-context.drop`.
    pub fn error_context_drop(&mut self, guest: u32, handle: u32) -> Result<(), StoreError>
        ensures meets { MeetsBeside self.old self.new (as_reply (λ _. replies.Done) result)
            (react self.old.state (steps.ErrDrop guest handle)) }
        ensures takes_no_memory { result ≢ Err StoreError.OutOfMemory }
    {
        self.store.error_context_drop(guest, handle)
    }

    /// The number of the error context of a handle, by which `error_context_lower` names it.
    pub fn error_context_rep(&self, guest: u32, handle: u32) -> Result<u32, StoreError>
        ensures exact { result ≡ admitted self.now.state
            (or_found (first_of (context_reasons self.now.state guest handle))
            (context_number self.now.state guest handle)) }
        ensures takes_no_memory { result ≢ Err StoreError.OutOfMemory }
    {
        self.store.error_context_rep(guest, handle)
    }
}

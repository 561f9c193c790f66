//! Cancels of reads and writes, and what an end is told. No host end is polled by them.
//!
//! Meaning: `Reactions.antt` of `strm_machine`. Source: Canonical ABI, `canon stream.cancel-read` and the others.

ghost use Rattle.std.specs.Prelude.{◌≢◌, Err};
ghost use Rattle.strm_codes.specs.declared.codes.TransmitIndex.TheVariants as index;
ghost use Rattle.strm_machine.specs.Reactions.{react};
ghost use Rattle.strm_machine.specs.declared.replies.Reply.TheVariants as replies;
ghost use Rattle.strm_machine.specs.declared.steps.Step.TheVariants as steps;
ghost use Rattle.strm_transmit.specs.Meets.{as_reply};
ghost use Rattle.strm_host_store.specs.Calls.{MeetsBeside};

use crate::host_store::HostStore;
use strm_codes::codes::ReturnCode;
use strm_codes::payloads::Payload;
use strm_transmit::errors::StoreError;

#[tactic(auto, using(crate::proofs::FitLemmas::beside_fits))]
impl HostStore {
    /// Cancels the write of a stream. One that waits for a host reader is asked to stop: Blocked, until `drive` has
    /// its turn, and an event then. `canon stream.cancel-write`.
    pub fn stream_cancel_write(
        &mut self,
        guest: u32,
        payload: Payload,
        handle: u32,
    ) -> Result<ReturnCode, StoreError>
        ensures meets { MeetsBeside self.old self.new (as_reply replies.Code result)
            (react self.old.state (steps.CancelWrite guest (index.Stream payload) handle)) }
        ensures takes_no_memory { result ≢ Err StoreError.OutOfMemory }
    {
        self.store.stream_cancel_write(guest, payload, handle)
    }

    /// Cancels the read of a stream. One that waits for a host writer is asked to stop. `canon stream.cancel-read`.
    pub fn stream_cancel_read(
        &mut self,
        guest: u32,
        payload: Payload,
        handle: u32,
    ) -> Result<ReturnCode, StoreError>
        ensures meets { MeetsBeside self.old self.new (as_reply replies.Code result)
            (react self.old.state (steps.CancelRead guest (index.Stream payload) handle)) }
        ensures takes_no_memory { result ≢ Err StoreError.OutOfMemory }
    {
        self.store.stream_cancel_read(guest, payload, handle)
    }

    /// Cancels the write of a future. `canon future.cancel-write`.
    pub fn future_cancel_write(
        &mut self,
        guest: u32,
        payload: Payload,
        handle: u32,
    ) -> Result<ReturnCode, StoreError>
        ensures meets { MeetsBeside self.old self.new (as_reply replies.Code result)
            (react self.old.state (steps.CancelWrite guest (index.Future payload) handle)) }
        ensures takes_no_memory { result ≢ Err StoreError.OutOfMemory }
    {
        self.store.future_cancel_write(guest, payload, handle)
    }

    /// Cancels the read of a future. `canon future.cancel-read`.
    pub fn future_cancel_read(
        &mut self,
        guest: u32,
        payload: Payload,
        handle: u32,
    ) -> Result<ReturnCode, StoreError>
        ensures meets { MeetsBeside self.old self.new (as_reply replies.Code result)
            (react self.old.state (steps.CancelRead guest (index.Future payload) handle)) }
        ensures takes_no_memory { result ≢ Err StoreError.OutOfMemory }
    {
        self.store.future_cancel_read(guest, payload, handle)
    }

    /// What an end is to be told, of a stream or a future, if anything: an event of `canon waitable-set.poll` for one
    /// waitable.
    pub fn take_event(&mut self, guest: u32, handle: u32) -> Result<Option<ReturnCode>, StoreError>
        ensures meets { MeetsBeside self.old self.new (as_reply replies.Event result)
            (react self.old.state (steps.Event guest handle)) }
        ensures takes_no_memory { result ≢ Err StoreError.OutOfMemory }
    {
        self.store.take_event(guest, handle)
    }
}

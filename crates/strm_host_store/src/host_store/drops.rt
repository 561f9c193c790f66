//! Ends are dropped. A host end across goes with them: what a writer holds is given up, and what a reader keeps stays
//! to be collected.
//!
//! Meaning: `Attaching.antt` of `strm_host_machine`. Source: Canonical ABI, `canon stream.drop-readable` and the
//! others.

ghost use Rattle.std.specs.Prelude.{◌≢◌, Err};
ghost use Rattle.strm_codes.specs.declared.codes.TransmitIndex.TheVariants as index;
ghost use Rattle.strm_machine.specs.Acts.{act_of};
ghost use Rattle.strm_machine.specs.declared.replies.Reply.TheVariants as replies;
ghost use Rattle.strm_machine.specs.declared.steps.Step.TheVariants as steps;
ghost use Rattle.strm_transmit.specs.Meets.{as_reply};
ghost use Rattle.strm_host_store.specs.Calls.{MeetsAmong};

use crate::host_store::HostStore;
use strm_codes::payloads::Payload;
use strm_transmit::errors::StoreError;

#[tactic(auto, using(crate::proofs::FitLemmas::among_fits))]
impl HostStore {
    /// Drops the write end of a stream. `canon stream.drop-writable`.
    pub fn stream_drop_writable(
        &mut self,
        guest: u32,
        payload: Payload,
        handle: u32,
    ) -> Result<(), StoreError>
        ensures meets { MeetsAmong self.old self.new (as_reply (λ _. replies.Done) result)
            (act_of (steps.DropWrite guest (index.Stream payload) handle)) }
        ensures takes_no_memory { result ≢ Err StoreError.OutOfMemory }
    {
        self.store
            .stream_drop_writable(&mut self.ends, guest, payload, handle)
    }

    /// Drops the read end of a stream. `canon stream.drop-readable`.
    pub fn stream_drop_readable(
        &mut self,
        guest: u32,
        payload: Payload,
        handle: u32,
    ) -> Result<(), StoreError>
        ensures meets { MeetsAmong self.old self.new (as_reply (λ _. replies.Done) result)
            (act_of (steps.DropRead guest (index.Stream payload) handle)) }
        ensures takes_no_memory { result ≢ Err StoreError.OutOfMemory }
    {
        self.store
            .stream_drop_readable(&mut self.ends, guest, payload, handle)
    }

    /// Drops the write end of a future. `canon future.drop-writable`.
    pub fn future_drop_writable(
        &mut self,
        guest: u32,
        payload: Payload,
        handle: u32,
    ) -> Result<(), StoreError>
        ensures meets { MeetsAmong self.old self.new (as_reply (λ _. replies.Done) result)
            (act_of (steps.DropWrite guest (index.Future payload) handle)) }
        ensures takes_no_memory { result ≢ Err StoreError.OutOfMemory }
    {
        self.store
            .future_drop_writable(&mut self.ends, guest, payload, handle)
    }

    /// Drops the read end of a future. `canon future.drop-readable`.
    pub fn future_drop_readable(
        &mut self,
        guest: u32,
        payload: Payload,
        handle: u32,
    ) -> Result<(), StoreError>
        ensures meets { MeetsAmong self.old self.new (as_reply (λ _. replies.Done) result)
            (act_of (steps.DropRead guest (index.Future payload) handle)) }
        ensures takes_no_memory { result ≢ Err StoreError.OutOfMemory }
    {
        self.store
            .future_drop_readable(&mut self.ends, guest, payload, handle)
    }

    /// Drops the loose read end of a stream.
    pub fn close(&mut self, reader: u32) -> Result<(), StoreError>
        ensures meets { MeetsAmong self.old self.new (as_reply (λ _. replies.Done) result)
            (act_of (steps.Close reader)) }
        ensures takes_no_memory { result ≢ Err StoreError.OutOfMemory }
    {
        self.store.close(&mut self.ends, reader)
    }
}

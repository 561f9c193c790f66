//! Ends from guest to guest, out of a guest and into one.
//!
//! Meaning: `Moves.antt` of `strm_machine`. Source: Canonical ABI, `lift_stream` and `lower_stream`; wasmtime,
//! `lift_from_index` and `lower_to_index`.

ghost use Rattle.std.specs.Prelude.{◌≡◌, ◌≢◌, Err};
ghost use Rattle.strm_codes.specs.declared.codes.TransmitIndex.TheVariants as index;
ghost use Rattle.strm_machine.specs.Reactions.{react};
ghost use Rattle.strm_machine.specs.declared.replies.Reply.TheVariants as replies;
ghost use Rattle.strm_machine.specs.declared.steps.Step.TheVariants as steps;
ghost use Rattle.strm_transmit.specs.Meets.{as_reply};
ghost use Rattle.strm_host_store.specs.Calls.{MeetsBeside};

use crate::host_store::HostStore;
use strm_codes::codes::TransmitIndex;
use strm_codes::payloads::Payload;
use strm_transmit::errors::StoreError;

#[tactic(auto, using(crate::proofs::FitLemmas::beside_fits))]
impl HostStore {
    /// An end of a stream, read or write, from one guest to another, which may be the same. Answers the handle there.
    pub fn stream_transfer(
        &mut self,
        guest: u32,
        payload: Payload,
        handle: u32,
        to: u32,
    ) -> Result<u32, StoreError>
        ensures meets { MeetsBeside self.old self.new (as_reply replies.Number result)
            (react self.old.state (steps.Move guest (index.Stream payload) handle to)) }
        ensures takes_no_memory { guest ≡ to → result ≢ Err StoreError.OutOfMemory }
    {
        self.store.stream_transfer(guest, payload, handle, to)
    }

    /// An end of a future from one guest to another. Answers the handle there.
    pub fn future_transfer(
        &mut self,
        guest: u32,
        payload: Payload,
        handle: u32,
        to: u32,
    ) -> Result<u32, StoreError>
        ensures meets { MeetsBeside self.old self.new (as_reply replies.Number result)
            (react self.old.state (steps.Move guest (index.Future payload) handle to)) }
        ensures takes_no_memory { guest ≡ to → result ≢ Err StoreError.OutOfMemory }
    {
        self.store.future_transfer(guest, payload, handle, to)
    }

    /// A read end out of a guest: it is loose then. Answers the stream's number, by which `lower`, `close` and
    /// `host_reader` name it. Canonical ABI, `lift_stream` and `lift_future`.
    pub fn lift(&mut self, guest: u32, ty: TransmitIndex, handle: u32) -> Result<u32, StoreError>
        ensures meets { MeetsBeside self.old self.new (as_reply replies.Number result)
            (react self.old.state (steps.Lift guest ty handle)) }
        ensures takes_no_memory { result ≢ Err StoreError.OutOfMemory }
    {
        self.store.lift(guest, ty, handle)
    }

    /// The loose read end of a stream into a guest. Answers its handle. Canonical ABI, `lower_stream` and
    /// `lower_future`.
    pub fn lower(&mut self, reader: u32, guest: u32, ty: TransmitIndex) -> Result<u32, StoreError>
        ensures meets { MeetsBeside self.old self.new (as_reply replies.Number result)
            (react self.old.state (steps.Lower reader guest ty)) }
    {
        self.store.lower(reader, guest, ty)
    }
}

//! Streams and futures of guests are made. Their numbers are never given again.
//!
//! Source: Canonical ABI, `canon stream.new` and `canon future.new`; two guests at once are ours.

ghost use Rattle.strm_codes.specs.declared.codes.TransmitIndex.TheVariants as index;
ghost use Rattle.strm_machine.specs.Reactions.{react};
ghost use Rattle.strm_machine.specs.declared.replies.Reply.TheVariants as replies;
ghost use Rattle.strm_machine.specs.declared.steps.Step.TheVariants as steps;
ghost use Rattle.strm_transmit.specs.Meets.{as_reply};
ghost use Rattle.strm_host_store.specs.Calls.{MeetsBeside};

use crate::host_store::HostStore;
use strm_codes::codes::TransmitIndex;
use strm_codes::payloads::Payload;
use strm_machine::replies::Pair;
use strm_transmit::errors::StoreError;

#[tactic(auto, using(crate::proofs::FitLemmas::beside_fits))]
impl HostStore {
    /// A new stream whose ends one guest gets: their handles go into its table, the read end's first.
    /// `canon stream.new`. Refused, in this order, are an unknown guest, a table without a number left, handles past
    /// their limit, and a stream past the limit on places.
    pub fn stream_new(&mut self, guest: u32, payload: Payload) -> Result<Pair, StoreError>
        ensures meets { MeetsBeside self.old self.new (as_reply replies.Pair result)
            (react self.old.state (steps.New guest (index.Stream payload))) }
    {
        self.store.stream_new(guest, payload)
    }

    /// A new future whose ends one guest gets. `canon future.new`. Refused as `stream_new`.
    pub fn future_new(&mut self, guest: u32, payload: Payload) -> Result<Pair, StoreError>
        ensures meets { MeetsBeside self.old self.new (as_reply replies.Pair result)
            (react self.old.state (steps.New guest (index.Future payload))) }
    {
        self.store.future_new(guest, payload)
    }

    /// A stream or future between two guests, which may be one: the read end's handle goes into the reader's table
    /// first, and then the write end's into the writer's. Refused as `stream_new`.
    pub fn new_between(
        &mut self,
        writer: u32,
        reader: u32,
        ty: TransmitIndex,
    ) -> Result<Pair, StoreError>
        ensures meets { MeetsBeside self.old self.new (as_reply replies.Pair result)
            (react self.old.state (steps.Between writer reader ty)) }
    {
        self.store.new_between(writer, reader, ty)
    }
}

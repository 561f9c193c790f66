//! Streams and futures that are made. A number is given again once both ends of its stream are gone, so a store
//! keeps places for no more streams than have room at once under its limit.
//!
//! Meaning: `Again.antt` of `strm_places`. Source: Canonical ABI, `canon stream.new` and `canon future.new`;
//! wasmtime, `ResourceTable::push`; two guests at once are ours.

ghost use Rattle.strm_codes.specs.declared.codes.TransmitIndex.TheVariants as index;
ghost use Rattle.strm_machine.specs.Bases.{BasesStay};
ghost use Rattle.strm_machine.specs.declared.replies.Reply.TheVariants as replies;
ghost use Rattle.strm_machine.specs.declared.steps.Step.TheVariants as steps;
ghost use Rattle.strm_places.specs.Again.{reacts_at};
ghost use Rattle.strm_transmit.specs.Again.{MeetsAt};
ghost use Rattle.strm_transmit.specs.Meets.{as_reply};

use crate::guest_store::GuestStore;
use strm_codes::codes::TransmitIndex;
use strm_codes::payloads::Payload;
use strm_machine::replies::Pair;
use strm_transmit::errors::StoreError;

#[tactic(auto, using(crate::proofs::AgainLemmas::again_among, crate::proofs::AgainLemmas::again_stays))]
impl GuestStore {
    /// A new stream whose ends one guest gets: their handles go into its table, the read end's first.
    /// `canon stream.new`. Its number may be that of a stream both of whose ends are gone. Refused, in this
    /// order, are an unknown guest, a table without a number left, handles past their limit, and a stream
    /// past the limit on places.
    pub fn stream_new(&mut self, guest: u32, payload: Payload) -> Result<Pair, StoreError>
        ensures meets { MeetsAt self.old self.new (as_reply replies.Pair result)
            (λ n. reacts_at n self.old (steps.New guest (index.Stream payload))) }
        ensures stays { BasesStay self.old.guests self.new.guests }
    {
        let ty = TransmitIndex::Stream(payload);
        self.store.new_between_again(guest, guest, ty)
    }

    /// A new future whose ends one guest gets: their handles go into its table, the read end's first.
    /// `canon future.new`. Its number is chosen, and it is refused, as those of `stream_new`.
    pub fn future_new(&mut self, guest: u32, payload: Payload) -> Result<Pair, StoreError>
        ensures meets { MeetsAt self.old self.new (as_reply replies.Pair result)
            (λ n. reacts_at n self.old (steps.New guest (index.Future payload))) }
        ensures stays { BasesStay self.old.guests self.new.guests }
    {
        let ty = TransmitIndex::Future(payload);
        self.store.new_between_again(guest, guest, ty)
    }

    /// A stream or future between two guests, which may be one: the read end's handle goes into the
    /// reader's table first, and then the write end's into the writer's. Its number is chosen, and it is
    /// refused, as those of `stream_new`.
    #[inline(always)]
    pub fn new_between(
        &mut self,
        writer: u32,
        reader: u32,
        ty: TransmitIndex,
    ) -> Result<Pair, StoreError>
        ensures meets { MeetsAt self.old self.new (as_reply replies.Pair result)
            (λ n. reacts_at n self.old (steps.Between writer reader ty)) }
        ensures stays { BasesStay self.old.guests self.new.guests }
    {
        self.store.new_between_again(writer, reader, ty)
    }
}

//! One poll of a host reader for a write, through an offer over the memory of the write's guest.
//!
//! Source: wasmtime, `futures_and_streams.rs`, `poll_consume` of a guest's write.

ghost use Rattle.std.specs.Prelude.{◌≡◌, IfOk, OnErr};
ghost use Rattle.strm_machine.specs.Soundness.{sizes_of, IsPlaced};
ghost use Rattle.strm_buffers.specs.Tells.{KeepsReader};
ghost use Rattle.strm_channels.specs.Guests.{guests_of};
ghost use Rattle.strm_host_turns.specs.ReaderPolls.{PollsFrom};

use crate::regions::{lend_items, return_items};
use std::alloc::Global;
use strm_buffers::answers::ReaderSaid;
use strm_buffers::boxes::poll_reader;
use strm_buffers::readers::HostReader;
use strm_channels::guests::Guest;
use strm_codes::counts::OutOfMemory;
use strm_codes::payloads::Payload;
use strm_machine::streams::Operation;

/// Polls a host reader once with the items that a write has left, so many being taken since it was last
/// ready: its record. The memory is lent, and not copied.
#[inline(always)]
pub fn poll_from(
    alloc: Global,
    guests: &mut Vec<Guest>,
    payload: &Payload,
    reader: &mut Box<dyn HostReader>,
    write: &Operation,
    since: u32,
) -> Result<ReaderSaid, OutOfMemory>
    requires placed { IsPlaced (sizes_of (guests_of guests.old.items)) payload.now write.now }
    requires payload { (reader_tells reader.old).payload ≡ payload.now }
    ensures guests { guests_of guests.new.items ≡ guests_of guests.old.items }
    ensures ok { IfOk result (λ said. PollsFrom (reader_tells reader.old) (reader_tells reader.new)
        (guests_of guests.old.items) payload.now since write.now said) }
    ensures no_memory { OnErr result
        (KeepsReader (reader_tells reader.old) (reader_tells reader.new)) }
{
    let mut offer = lend_items(alloc, guests, payload, write, since);
    let turn = poll_reader(reader, &mut offer, write.asked);
    let bad = offer.bad();
    let taken = return_items(guests, write.guest, offer);
    match turn.answer() {
        Some(answer) => Ok(ReaderSaid {
            offered: write.left.as_u32(),
            since,
            finish: write.asked,
            taken,
            bad,
            answer,
        }),
        None => Err(OutOfMemory),
    }
}

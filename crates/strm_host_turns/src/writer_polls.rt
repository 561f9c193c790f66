//! One poll of a host writer for a read, through a window over the memory of the read's guest.
//!
//! Source: wasmtime, `futures_and_streams.rs`, `poll_produce` of a guest's read.

ghost use Rattle.std.specs.Prelude.{◌≡◌, [], IfOk, OnErr};
ghost use Rattle.strm_machine.specs.Soundness.{sizes_of, IsPlaced};
ghost use Rattle.strm_buffers.specs.Tells.{KeepsWriter};
ghost use Rattle.strm_channels.specs.Guests.{guests_of};
ghost use Rattle.strm_host_turns.specs.WriterPolls.{PollsInto, LowersForRead};

use crate::regions::{lend_region, return_region};
use std::alloc::Global;
use strm_buffers::answers::Answer;
use strm_buffers::boxes::poll_writer;
use strm_buffers::writers::HostWriter;
use strm_channels::guests::Guest;
use strm_codes::counts::OutOfMemory;
use strm_codes::payloads::Payload;
use strm_machine::streams::Operation;

/// Polls a host writer once for a read, which receives what there was room for: what it answered, and
/// how many items those are. The memory is lent, and not copied.
#[inline(always)]
pub fn poll_into(
    alloc: Global,
    guests: &mut Vec<Guest>,
    payload: &Payload,
    writer: &mut Box<dyn HostWriter>,
    read: &Operation,
) -> Result<(Answer, u32), OutOfMemory>
    requires placed { IsPlaced (sizes_of (guests_of guests.old.items)) payload.now read.now }
    requires payload { (writer_tells writer.old).payload ≡ payload.now }
    requires nothing_held { (writer_tells writer.old).holds ≡ [] }
    ensures ok { IfOk result (λ r. PollsInto (writer_tells writer.old) (writer_tells writer.new)
        (guests_of guests.old.items) (guests_of guests.new.items) payload.now read.now r.0 r.1) }
    ensures no_memory { OnErr result
        (KeepsWriter (writer_tells writer.old) (writer_tells writer.new)) }
    ensures lowers { OnErr result (LowersForRead (guests_of guests.old.items)
        (guests_of guests.new.items) payload.now read.now) }
{
    let mut window = lend_region(alloc, guests, payload, read);
    match window.prepare() {
        Ok(()) => {}
        Err(error) => {
            return_region(guests, read.guest, window);
            return Err(error);
        }
    }
    let turn = poll_writer(writer, &mut window, read.asked);
    let marked = return_region(guests, read.guest, window);
    match turn.answer() {
        Some(answer) => Ok((answer, marked)),
        None => Err(OutOfMemory),
    }
}

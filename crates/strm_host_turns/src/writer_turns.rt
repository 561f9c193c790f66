//! The turn of a host writer for the open read on its stream.
//!
//! Meaning: `WriterTurn.antt` of `strm_host_machine`. Source: wasmtime, `futures_and_streams.rs`,
//! `guest_read` with `WriteState::HostReady`, and what `set_producer` makes of it.

ghost use Rattle.std.specs.Prelude.{◌≡◌, ◌+◌, ◌^◌, ◌<◌, ◌||◌, [], true, nat_lt, Some};
ghost use Rattle.strm_codes.specs.declared.codes.StreamResult.TheVariants.{Dropped};
ghost use Rattle.strm_machine.specs.declared.streams.Side.TheVariants.{Reading};
ghost use Rattle.strm_host_machine.specs.WriterTurn.{is_last};
ghost use Rattle.strm_host_machine.specs.Settling.{moved_on};
ghost use Rattle.strm_machine.specs.Soundness.{sizes_of, AreSmall, IsPlaced};
ghost use Rattle.strm_channels.specs.Guests.{guests_of};
ghost use Rattle.strm_host_turns.specs.WriterTurns.{writer_scene, writer_verdict, handed_over, IsWriterPoll, IsWriterTurn};

use crate::regions::{lend_region, return_region};
use crate::settling::{count_of, move_on, produced_result};
use crate::writer_polls::poll_into;
use std::alloc::Global;
use strm_buffers::answers::Answer;
use strm_buffers::boxes::{give, held_by};
use strm_buffers::writers::HostWriter;
use strm_channels::channels::Channel;
use strm_channels::guests::Guest;
use strm_codes::codes::{StreamResult, TransmitKind};
use strm_codes::counts::ItemCount;
use strm_machine::streams::{Operation, Producer, Side};
use thiserror::Error;

/// Why a turn stops its step.
#[derive(Clone, Copy, Debug, PartialEq, Eq, Error)]
pub enum WriterStops {
    /// The host writer failed.
    #[error("the host writer failed")]
    Failed,
    /// Out of memory. No record was added.
    #[error("out of memory")]
    OutOfMemory,
    /// The host writer broke its rules.
    #[error("the host writer broke its rules")]
    Broke,
}

/// Whether a writer holds items is kept of it.
pub fn note_held(producer: &mut Producer, held: usize)
    ensures { producer.new ≡ record producer.old { holding = nat_lt 0 held } }
{
    producer.holding = held > 0;
}

/// A writer that answered Dropped has no more to come, and so many items are held.
pub fn note_answer(producer: &mut Producer, answer: Answer, held: usize)
    ensures { producer.new ≡ record producer.old {
      over = producer.old.over || is_last answer;
      holding = nat_lt 0 held;
    } }
{
    producer.over = producer.over || answer == Answer::Dropped;
    note_held(producer, held);
}

/// Why an answer to a poll for a read, in which so many items were produced, stops the step, if it does.
#[inline(always)]
pub fn judge_writer(
    kind: TransmitKind,
    answer: Answer,
    read: &Operation,
    produced: usize,
) -> Result<(), WriterStops>
    ensures { result ≡ writer_verdict kind answer read.now produced }
{
    if answer == Answer::Failed {
        return Err(WriterStops::Failed);
    }
    if answer.breaks_as_writer(kind, Some(read.left.as_u32()), read.asked, produced) {
        return Err(WriterStops::Broke);
    }
    Ok(())
}

// Held items are handed over, as many as there is room for. Takes no memory.
#[inline(always)]
fn hand_over(
    alloc: Global,
    guests: &mut Vec<Guest>,
    stream: &mut Channel,
    producer: &mut Producer,
    writer: &mut Box<dyn HostWriter>,
    read: Operation,
)
    requires waiting { stream.old.reader.operation ≡ Some read }
    requires open { read.is_open ≡ true }
    requires placed { IsPlaced (sizes_of (guests_of guests.old.items)) stream.old.payload read }
    requires sizes { AreSmall (sizes_of (guests_of guests.old.items)) }
    requires payload { (writer_tells writer.old).payload ≡ stream.old.payload }
    ensures { writer_scene (guests_of guests.new.items) stream.new producer.new
        (writer_tells writer.new)
        ≡ handed_over (writer_scene (guests_of guests.old.items) stream.old producer.old
        (writer_tells writer.old)) read }
{
    let mut window = lend_region(alloc, guests, &stream.payload(), &read);
    match give(writer, &mut window) {
        Ok(()) => {}
        Err(_) => unreachable!(),
    }
    let marked = return_region(guests, read.guest, window);
    note_held(producer, held_by(writer));
    let count = count_of(marked);
    move_on(
        stream,
        Side::Reading,
        &read,
        count,
        Some(StreamResult::Completed),
    );
}

/// A writer that has no more to come, and holds nothing, is gone.
#[inline(always)]
pub fn end_read(stream: &mut Channel, read: Operation)
    requires waiting { stream.old.reader.operation ≡ Some read }
    requires open { read.is_open ≡ true }
    requires counted { read.moved + read.left < 2 ^ 28 }
    ensures { stream.new ≡ moved_on Reading stream.old read 0 (Some Dropped) }
{
    move_on(
        stream,
        Side::Reading,
        &read,
        ItemCount::ZERO,
        Some(StreamResult::Dropped),
    );
}

// One poll, of a writer that holds nothing and has more to come.
#[inline(always)]
fn poll_writer_once(
    alloc: Global,
    guests: &mut Vec<Guest>,
    stream: &mut Channel,
    producer: &mut Producer,
    writer: &mut Box<dyn HostWriter>,
    read: Operation,
) -> Result<(), WriterStops>
    requires waiting { stream.old.reader.operation ≡ Some read }
    requires open { read.is_open ≡ true }
    requires placed { IsPlaced (sizes_of (guests_of guests.old.items)) stream.old.payload read }
    requires sizes { AreSmall (sizes_of (guests_of guests.old.items)) }
    requires payload { (writer_tells writer.old).payload ≡ stream.old.payload }
    requires nothing_held { (writer_tells writer.old).holds ≡ [] }
    ensures { IsWriterPoll result
        (writer_scene (guests_of guests.old.items) stream.old producer.old
        (writer_tells writer.old))
        (writer_scene (guests_of guests.new.items) stream.new producer.new
        (writer_tells writer.new))
        read }
{
    let (answer, marked) = match poll_into(alloc, guests, &stream.payload(), writer, &read) {
        Ok(polled) => polled,
        Err(_) => return Err(WriterStops::OutOfMemory),
    };
    let held = held_by(writer);
    judge_writer(stream.kind(), answer, &read, marked as usize + held)?;
    note_answer(producer, answer, held);
    let count = count_of(marked);
    move_on(
        stream,
        Side::Reading,
        &read,
        count,
        produced_result(answer, held),
    );
    Ok(())
}

/// The turn of a stream's host writer for the open read on it: what the writer holds is handed over,
/// or else it is polled once, unless it has no more to come. Only the poll takes memory.
#[inline(always)]
pub fn writer_turn(
    alloc: Global,
    guests: &mut Vec<Guest>,
    stream: &mut Channel,
    producer: &mut Producer,
    writer: &mut Box<dyn HostWriter>,
    read: &Operation,
) -> Result<(), WriterStops>
    requires waiting { stream.old.reader.operation ≡ Some read.now }
    requires open { read.now.is_open ≡ true }
    requires placed { IsPlaced (sizes_of (guests_of guests.old.items)) stream.old.payload read.now }
    requires sizes { AreSmall (sizes_of (guests_of guests.old.items)) }
    requires payload { (writer_tells writer.old).payload ≡ stream.old.payload }
    ensures { IsWriterTurn result
        (writer_scene (guests_of guests.old.items) stream.old producer.old
        (writer_tells writer.old))
        (writer_scene (guests_of guests.new.items) stream.new producer.new
        (writer_tells writer.new))
        read.now }
{
    if held_by(writer) > 0 {
        hand_over(alloc, guests, stream, producer, writer, *read);
        return Ok(());
    }
    if producer.over {
        end_read(stream, *read);
        return Ok(());
    }
    poll_writer_once(alloc, guests, stream, producer, writer, *read)
}

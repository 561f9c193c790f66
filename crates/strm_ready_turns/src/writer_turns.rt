//! The turn of a ready host writer for the open read on its stream.
//!
//! Meaning: `WriterTurn.antt` of `strm_host_machine`, and `WriterTurns.antt` of `strm_host_turns`. Source: wasmtime,
//! `futures_and_streams.rs`, `guest_read` with `WriteState::HostReady`.

ghost use Rattle.std.specs.Prelude.{◌≡◌, ◌+◌, ◌^◌, ◌<◌, [], true, Some, IsOk};
ghost use Rattle.strm_machine.specs.Soundness.{sizes_of, AreSmall, IsPlaced};
ghost use Rattle.strm_channels.specs.Guests.{guests_of};
ghost use Rattle.strm_host_turns.specs.WriterTurns.{writer_scene, handed_over, IsWriterTurn};
ghost use Rattle.strm_ready_ends.specs.SendQueues.{ready_tells};
ghost use Rattle.strm_ready_turns.specs.ReadyTurns.{polled_scene, IsPollOfNone};

use std::alloc::Global;
use strm_buffers::writers::HostWriter;
use strm_channels::channels::Channel;
use strm_channels::guests::Guest;
use strm_codes::codes::StreamResult;
use strm_codes::counts::ItemCount;
use strm_host_turns::regions::{lend_region, return_region};
use strm_host_turns::settling::{count_of, move_on, produced_result};
use strm_host_turns::writer_turns::{WriterStops, end_read, judge_writer, note_answer, note_held};
use strm_machine::streams::{Operation, Producer, Side};
use strm_ready_ends::ready_writers::ReadyWriter;

// Held items are handed over, as many as there is room for, by one copy. Takes no memory.
#[inline(always)]
fn hand_over(
    alloc: Global,
    guests: &mut Vec<Guest>,
    stream: &mut Channel,
    producer: &mut Producer,
    writer: &mut ReadyWriter,
    read: Operation,
)
    requires waiting { stream.old.reader.operation ≡ Some read }
    requires open { read.is_open ≡ true }
    requires placed { IsPlaced (sizes_of (guests_of guests.old.items)) stream.old.payload read }
    requires sizes { AreSmall (sizes_of (guests_of guests.old.items)) }
    requires payload { writer.old.payload ≡ stream.old.payload }
    ensures hands { writer_scene (guests_of guests.new.items) stream.new producer.new
        (ready_tells writer.new)
        ≡ handed_over (writer_scene (guests_of guests.old.items) stream.old producer.old
        (ready_tells writer.old)) read }
    ensures ended { writer.new.ended ≡ writer.old.ended }
{
    let mut window = lend_region(alloc, guests, &stream.payload(), &read);
    match writer.give(&mut window) {
        Ok(()) => {}
        Err(_) => unreachable!(),
    }
    let marked = return_region(guests, read.guest, window);
    note_held(producer, writer.held());
    let outcome = Some(StreamResult::Completed);
    move_on(stream, Side::Reading, &read, count_of(marked), outcome);
}

// One poll, of a writer that holds nothing and has more to come: it produces nothing, so no window is lent.
#[inline(always)]
fn poll_writer_once(
    stream: &mut Channel,
    producer: &mut Producer,
    writer: &mut ReadyWriter,
    read: Operation,
) -> Result<(), WriterStops>
    requires waiting { stream.old.reader.operation ≡ Some read }
    requires open { read.is_open ≡ true }
    requires counted { read.moved + read.left < 2 ^ 28 }
    requires payload { writer.old.payload ≡ stream.old.payload }
    requires nothing_held { writer.old.items ≡ [] }
    ensures polls { IsPollOfNone result
        (polled_scene stream.old producer.old (ready_tells writer.old))
        (polled_scene stream.new producer.new (ready_tells writer.new)) read }
    ensures ended { writer.new.ended ≡ writer.old.ended }
    ensures goes { writer.old.kind ≡ stream.old.kind → writer.old.said ≡ [] → IsOk result }
{
    let room = Some(read.left.as_u32());
    let answer = match writer.poll_empty(room, read.asked) {
        Ok(answer) => answer,
        Err(_) => return Err(WriterStops::OutOfMemory),
    };
    judge_writer(stream.kind(), answer, &read, 0)?;
    note_answer(producer, answer, 0);
    let outcome = produced_result(answer, 0);
    move_on(stream, Side::Reading, &read, ItemCount::ZERO, outcome);
    Ok(())
}

/// The turn of a stream's ready host writer for the open read on it: what the writer holds is handed over, or else it
/// is polled once, unless it has no more to come. An end of the stream's kind whose records were forgotten stops no
/// step.
#[inline(always)]
pub fn ready_writer_turn(
    alloc: Global,
    guests: &mut Vec<Guest>,
    stream: &mut Channel,
    producer: &mut Producer,
    writer: &mut ReadyWriter,
    read: &Operation,
) -> Result<(), WriterStops>
    requires waiting { stream.old.reader.operation ≡ Some read.now }
    requires open { read.now.is_open ≡ true }
    requires placed { IsPlaced (sizes_of (guests_of guests.old.items)) stream.old.payload read.now }
    requires sizes { AreSmall (sizes_of (guests_of guests.old.items)) }
    requires payload { writer.old.payload ≡ stream.old.payload }
    ensures turns { IsWriterTurn result
        (writer_scene (guests_of guests.old.items) stream.old producer.old (ready_tells writer.old))
        (writer_scene (guests_of guests.new.items) stream.new producer.new (ready_tells writer.new))
        read.now }
    ensures ended { writer.new.ended ≡ writer.old.ended }
    ensures goes { writer.old.kind ≡ stream.old.kind → writer.old.said ≡ [] → IsOk result }
{
    if writer.held() > 0 {
        hand_over(alloc, guests, stream, producer, writer, *read);
        return Ok(());
    }
    if producer.over {
        end_read(stream, *read);
        return Ok(());
    }
    poll_writer_once(stream, producer, writer, *read)
}

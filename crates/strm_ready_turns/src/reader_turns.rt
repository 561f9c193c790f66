//! The turn of a ready host reader for the open write on its stream.
//!
//! Meaning: `ReaderTurn.antt` of `strm_host_machine`, and `ReaderTurns.antt` of `strm_host_turns`. Source: wasmtime,
//! `futures_and_streams.rs`, `guest_write` with `ReadState::HostReady`.

ghost use Rattle.std.specs.Prelude.{◌≡◌, [], true, Some, Ok, IsOk, IfOk, OnErr};
ghost use Rattle.strm_machine.specs.Soundness.{sizes_of, AreSmall, IsPlaced};
ghost use Rattle.strm_channels.specs.Guests.{guests_of};
ghost use Rattle.strm_host_turns.specs.ReaderPolls.{PollsFrom};
ghost use Rattle.strm_host_turns.specs.ReaderTurns.{reader_scene, reader_verdict, IsReaderTurn};
ghost use Rattle.strm_ready_ends.specs.ReceiveQueues.{ready_reader_tells};
ghost use Rattle.strm_ready_ends.specs.SendQueues.{is_future};
ghost use Rattle.strm_ready_turns.specs.ReadyTurns.{TakesGranted};

use strm_buffers::answers::ReaderSaid;
use strm_channels::channels::Channel;
use strm_channels::guests::{Guest, memory};
use strm_codes::counts::OutOfMemory;
use strm_codes::payloads::Payload;
use strm_host_turns::reader_turns::{ReaderStops, judge_reader, since_after};
use strm_host_turns::regions::region_address;
use strm_host_turns::settling::{count_of, move_on, result_of};
use strm_machine::streams::{Consumer, Operation, Side};
use strm_ready_ends::ready_readers::ReadyReader;

// One poll with the good items that a write has left, so many being taken since the reader was last ready: its record.
#[inline(always)]
fn poll_from(
    guests: &Vec<Guest>,
    payload: &Payload,
    reader: &mut ReadyReader,
    write: &Operation,
    since: u32,
) -> Result<ReaderSaid, OutOfMemory>
    requires placed { IsPlaced (sizes_of (guests_of guests.now.items)) payload.now write.now }
    requires payload { reader.old.payload ≡ payload.now }
    ensures ok { IfOk result (λ said.
        PollsFrom (ready_reader_tells reader.old) (ready_reader_tells reader.new)
        (guests_of guests.now.items) payload.now since write.now said) }
    ensures no_memory { OnErr result (reader.new ≡ reader.old) }
    ensures granted { TakesGranted reader.old reader.new }
    ensures goes { reader.old.said ≡ [] → IsOk result }
    ensures keeps { IfOk result (λ said. (is_future reader.old.kind ≡ true → since ≡ 0) →
        reader_verdict reader.old.kind said ≡ Ok tt) }
{
    let from = region_address(payload, write) as usize;
    let bytes = memory(guests, write.guest as usize).bytes();
    reader.take_good(bytes, from, write.left.as_u32(), since, write.asked)
}

// One poll with the items that a write has left.
#[inline(always)]
fn poll_reader_once(
    guests: &Vec<Guest>,
    stream: &mut Channel,
    consumer: &mut Consumer,
    reader: &mut ReadyReader,
    write: Operation,
) -> Result<(), ReaderStops>
    requires waiting { stream.old.writer.operation ≡ Some write }
    requires open { write.is_open ≡ true }
    requires placed { IsPlaced (sizes_of (guests_of guests.now.items)) stream.old.payload write }
    requires sizes { AreSmall (sizes_of (guests_of guests.now.items)) }
    requires payload { reader.old.payload ≡ stream.old.payload }
    ensures takes { IsReaderTurn result
        (reader_scene (guests_of guests.now.items) stream.old consumer.old
        (ready_reader_tells reader.old))
        (reader_scene (guests_of guests.now.items) stream.new consumer.new
        (ready_reader_tells reader.new))
        write }
    ensures granted { TakesGranted reader.old reader.new }
    ensures goes { reader.old.kind ≡ stream.old.kind → reader.old.said ≡ [] →
        (is_future reader.old.kind ≡ true → consumer.old.since ≡ 0) → IsOk result }
{
    let since = consumer.since;
    let said = match poll_from(guests, &stream.payload(), reader, &write, since) {
        Ok(said) => said,
        Err(_) => return Err(ReaderStops::OutOfMemory),
    };
    judge_reader(stream.kind(), &said)?;
    consumer.since = since_after(said.answer, since, said.taken);
    let count = count_of(said.taken);
    move_on(stream, Side::Writing, &write, count, result_of(said.answer));
    Ok(())
}

/// The turn of a stream's ready host reader for the open write on it: it takes what it was granted of the good items
/// that the write has left, by one copy, and asks for none that is bad. An end of the stream's kind whose records were
/// forgotten stops no step, where it took no item of a future since it was ready.
#[inline(always)]
pub fn ready_reader_turn(
    guests: &Vec<Guest>,
    stream: &mut Channel,
    consumer: &mut Consumer,
    reader: &mut ReadyReader,
    write: &Operation,
) -> Result<(), ReaderStops>
    requires waiting { stream.old.writer.operation ≡ Some write.now }
    requires open { write.now.is_open ≡ true }
    requires placed { IsPlaced (sizes_of (guests_of guests.now.items)) stream.old.payload
        write.now }
    requires sizes { AreSmall (sizes_of (guests_of guests.now.items)) }
    requires payload { reader.old.payload ≡ stream.old.payload }
    ensures takes { IsReaderTurn result
        (reader_scene (guests_of guests.now.items) stream.old consumer.old
        (ready_reader_tells reader.old))
        (reader_scene (guests_of guests.now.items) stream.new consumer.new
        (ready_reader_tells reader.new))
        write.now }
    ensures granted { TakesGranted reader.old reader.new }
    ensures goes { reader.old.kind ≡ stream.old.kind → reader.old.said ≡ [] →
        (is_future reader.old.kind ≡ true → consumer.old.since ≡ 0) → IsOk result }
{
    poll_reader_once(guests, stream, consumer, reader, *write)
}

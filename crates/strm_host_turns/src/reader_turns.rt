//! The turn of a host reader for the open write on its stream.
//!
//! Meaning: `ReaderTurn.antt` of `strm_host_machine`. Source: wasmtime, `futures_and_streams.rs`,
//! `guest_write` with `ReadState::HostReady`, and what `set_consumer` makes of it.

ghost use Rattle.std.specs.Prelude.{◌≡◌, true, Some};
ghost use Rattle.strm_machine.specs.Soundness.{sizes_of, AreSmall, IsPlaced};
ghost use Rattle.strm_host_machine.specs.Settling.{since_after};
ghost use Rattle.strm_channels.specs.Guests.{guests_of};
ghost use Rattle.strm_host_turns.specs.ReaderTurns.{reader_scene, reader_verdict, IsReaderTurn};

use crate::reader_polls::poll_from;
use crate::settling::{count_of, move_on, result_of};
use std::alloc::Global;
use strm_buffers::answers::{Answer, ReaderSaid};
use strm_buffers::readers::HostReader;
use strm_channels::channels::Channel;
use strm_channels::guests::Guest;
use strm_codes::codes::TransmitKind;
use strm_machine::streams::{Consumer, Operation, Side};
use thiserror::Error;

/// Why a turn of a host reader stops its step.
#[derive(Clone, Copy, Debug, PartialEq, Eq, Error)]
pub enum ReaderStops {
    /// The host reader failed.
    #[error("the host reader failed")]
    Failed,
    /// Out of memory. No record was added.
    #[error("out of memory")]
    OutOfMemory,
    /// The host reader asked for an item that is none of its type.
    #[error("the host reader asked for an item that is none of its type")]
    BadItem,
    /// The host reader broke its rules.
    #[error("the host reader broke its rules")]
    Broke,
}

/// Why a poll with this record stops the step, if it does.
#[inline(always)]
pub fn judge_reader(kind: TransmitKind, said: &ReaderSaid) -> Result<(), ReaderStops>
    ensures { result ≡ reader_verdict kind said.now }
{
    if said.answer == Answer::Failed {
        return Err(ReaderStops::Failed);
    }
    if said.bad {
        return Err(ReaderStops::BadItem);
    }
    if said.breaks_rules(kind) {
        return Err(ReaderStops::Broke);
    }
    Ok(())
}

/// How many items were taken since the host reader was last ready, once it took so many more and
/// answered so.
pub fn since_after(answer: Answer, since: u32, taken: u32) -> u32
    ensures { result ≡ since_after answer since taken }
{
    match answer {
        Answer::Completed | Answer::Cancelled => 0,
        Answer::Pending | Answer::Dropped | Answer::Failed => since.saturating_add(taken),
    }
}

// One poll with the items that a write has left.
#[inline(always)]
fn poll_reader_once(
    alloc: Global,
    guests: &mut Vec<Guest>,
    stream: &mut Channel,
    consumer: &mut Consumer,
    reader: &mut Box<dyn HostReader>,
    write: Operation,
) -> Result<(), ReaderStops>
    requires waiting { stream.old.writer.operation ≡ Some write }
    requires open { write.is_open ≡ true }
    requires placed { IsPlaced (sizes_of (guests_of guests.old.items)) stream.old.payload write }
    requires sizes { AreSmall (sizes_of (guests_of guests.old.items)) }
    requires payload { (reader_tells reader.old).payload ≡ stream.old.payload }
    ensures { IsReaderTurn result
        (reader_scene (guests_of guests.old.items) stream.old consumer.old
        (reader_tells reader.old))
        (reader_scene (guests_of guests.new.items) stream.new consumer.new
        (reader_tells reader.new))
        write }
{
    let since = consumer.since;
    let said = match poll_from(alloc, guests, &stream.payload(), reader, &write, since) {
        Ok(said) => said,
        Err(_) => return Err(ReaderStops::OutOfMemory),
    };
    judge_reader(stream.kind(), &said)?;
    consumer.since = since_after(said.answer, since, said.taken);
    let count = count_of(said.taken);
    move_on(stream, Side::Writing, &write, count, result_of(said.answer));
    Ok(())
}

/// The turn of a stream's host reader for the open write on it: it is polled once with the items that
/// the write has left. The guests stay as they are. Only the poll takes memory.
#[inline(always)]
pub fn reader_turn(
    alloc: Global,
    guests: &mut Vec<Guest>,
    stream: &mut Channel,
    consumer: &mut Consumer,
    reader: &mut Box<dyn HostReader>,
    write: &Operation,
) -> Result<(), ReaderStops>
    requires waiting { stream.old.writer.operation ≡ Some write.now }
    requires open { write.now.is_open ≡ true }
    requires placed { IsPlaced (sizes_of (guests_of guests.old.items)) stream.old.payload
        write.now }
    requires sizes { AreSmall (sizes_of (guests_of guests.old.items)) }
    requires payload { (reader_tells reader.old).payload ≡ stream.old.payload }
    ensures { IsReaderTurn result
        (reader_scene (guests_of guests.old.items) stream.old consumer.old
        (reader_tells reader.old))
        (reader_scene (guests_of guests.new.items) stream.new consumer.new
        (reader_tells reader.new))
        write.now }
{
    poll_reader_once(alloc, guests, stream, consumer, reader, *write)
}

//! The two polls of a round of a pipe between ready host ends: the writer has nothing, or what it holds is kept, and is
//! offered to the reader.
//!
//! Meaning: `Piping.antt` of `strm_host_machine` and of `strm_host_turns`. Source: wasmtime, `futures_and_streams.rs`,
//! `set_consumer` on `WriteState::HostReady`.

ghost use Rattle.std.specs.Prelude.{◌≡◌, ◌++◌, [], true, None, IsOk, IfOk, OnOk, OnErr};
ghost use Rattle.strm_buffers.specs.Tells.{KeepsReader, writer_given};
ghost use Rattle.strm_host_turns.specs.Piping.{fetching, Fetches, offering, Offers, PassedSo, GathersNone};
ghost use Rattle.strm_ready_ends.specs.ReceiveQueues.{ready_reader_tells};
ghost use Rattle.strm_ready_ends.specs.SendQueues.{ready_tells, is_future};
ghost use Rattle.strm_ready_turns.specs.ReadyTurns.{TakesGranted};

use std::alloc::Global;
use std::mem;
use strm_buffers::answers::{Answer, ReaderSaid};
use strm_buffers::items::{Items, MOST_ITEMS};
use strm_buffers::offers::Offer;
use strm_buffers::windows::Window;
use strm_buffers::writers::HostWriter;
use strm_channels::channels::Channel;
use strm_codes::codes::TransmitKind;
use strm_codes::counts::OutOfMemory;
use strm_host_turns::pipes::judge_fetch;
use strm_host_turns::reader_turns::{ReaderStops, judge_reader, since_after};
use strm_host_turns::settling::receive_some;
use strm_host_turns::writer_turns::{WriterStops, note_answer};
use strm_machine::streams::{Consumer, Producer};
use strm_ready_ends::ready_readers::ReadyReader;
use strm_ready_ends::ready_writers::ReadyWriter;

/// Polls the ready host writer of a pipe on which nothing is held: it produces nothing, so nothing is kept. An end of
/// the stream's kind whose records were forgotten stops no step.
pub fn ready_fetch(
    alloc: Global,
    kind: TransmitKind,
    producer: &mut Producer,
    kept: &mut Items,
    writer: &mut ReadyWriter,
) -> Result<(), WriterStops>
    requires payload { writer.old.payload ≡ kept.old.payload }
    requires nothing_held { writer.old.items ≡ [] }
    ensures fetches { Fetches result kind
        (fetching producer.old kept.old.items (ready_tells writer.old))
        (fetching producer.new kept.new.items (ready_tells writer.new)) }
    ensures payload { kept.new.payload ≡ kept.old.payload }
    ensures ended { writer.new.ended ≡ writer.old.ended }
    ensures goes { writer.old.kind ≡ kind → writer.old.said ≡ [] → IsOk result }
{
    let answer = match writer.poll_empty(None, false) {
        Ok(answer) => answer,
        Err(_) => return Err(WriterStops::OutOfMemory),
    };
    judge_fetch(kind, answer, 0)?;
    note_answer(producer, answer, 0);
    *kept = Items::new(alloc, kept.payload());
    Ok(())
}

// What a ready host writer holds is kept too, behind what was kept. After running out of memory the writer holds its
// items still, or gave them all; those are lost, and only where some were kept besides.
fn gather(alloc: Global, kept: &mut Items, writer: &mut ReadyWriter) -> Result<(), OutOfMemory>
    requires payload { writer.old.payload ≡ kept.old.payload }
    ensures payload { kept.new.payload ≡ kept.old.payload }
    ensures items { OnOk result (kept.new.items ≡ kept.old.items ++ writer.old.items) }
    ensures ok { OnOk result
        (ready_tells writer.new ≡ writer_given (ready_tells writer.old) None) }
    ensures no_memory { OnErr result
        (GathersNone (ready_tells writer.old) (ready_tells writer.new)) }
    ensures ended { writer.new.ended ≡ writer.old.ended }
{
    if writer.held() == 0 {
        return Ok(());
    }
    if kept.len() + writer.held() > MOST_ITEMS as usize {
        return Err(OutOfMemory);
    }
    let mut window = Window::unbounded(alloc, kept.payload());
    writer.give(&mut window)?;
    let given = window.into_items();
    if kept.len() > 0 {
        return kept.append(&given);
    }
    *kept = given;
    Ok(())
}

// One poll of a ready host reader, which is offered what is kept, so many being taken since it was last ready: its
// record.
fn poll_kept(
    alloc: Global,
    kept: &mut Items,
    reader: &mut ReadyReader,
    since: u32,
) -> Result<ReaderSaid, OutOfMemory>
    requires payload { reader.old.payload ≡ kept.old.payload }
    ensures kept { kept.new ≡ kept.old }
    ensures ok { IfOk result (λ said.
        PassedSo (ready_reader_tells reader.old) (ready_reader_tells reader.new) kept.old.items
        since said) }
    ensures no_memory { OnErr result
        (KeepsReader (ready_reader_tells reader.old) (ready_reader_tells reader.new)) }
    ensures granted { TakesGranted reader.old reader.new }
{
    let none = Items::new(alloc, kept.payload());
    let mut offer = Offer::of_items(mem::replace(kept, none), since);
    let said = reader.take_from(&mut offer, false);
    *kept = offer.into_items().0;
    said
}

/// Polls the ready host reader of a pipe once with all that is held on it: what is kept, and what the ready host writer
/// holds, which is kept from then on. What it takes leaves the front. Only what the writer holds takes memory.
pub fn ready_offer(
    alloc: Global,
    stream: &mut Channel,
    consumer: &mut Consumer,
    kept: &mut Items,
    writer: &mut ReadyWriter,
    reader: &mut ReadyReader,
) -> Result<Answer, ReaderStops>
    requires writer { writer.old.payload ≡ kept.old.payload }
    requires reader { reader.old.payload ≡ kept.old.payload }
    ensures offers { Offers result
        (offering stream.old consumer.old kept.old.items
        (ready_tells writer.old) (ready_reader_tells reader.old))
        (offering stream.new consumer.new kept.new.items
        (ready_tells writer.new) (ready_reader_tells reader.new)) }
    ensures payload { kept.new.payload ≡ kept.old.payload }
    ensures ended { writer.new.ended ≡ writer.old.ended }
    ensures granted { TakesGranted reader.old reader.new }
{
    let since = consumer.since;
    let Ok(()) = gather(alloc, kept, writer) else {
        return Err(ReaderStops::OutOfMemory);
    };
    let Ok(said) = poll_kept(alloc, kept, reader, since) else {
        return Err(ReaderStops::OutOfMemory);
    };
    judge_reader(stream.kind(), &said)?;
    kept.skip(said.taken as usize);
    consumer.since = since_after(said.answer, since, said.taken);
    consumer.resting = said.answer == Answer::Pending;
    receive_some(stream, said.taken);
    Ok(said.answer)
}

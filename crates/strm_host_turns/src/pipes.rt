//! The two polls of a pipe's round: what a host writer produces is kept, and what is kept is offered to
//! a host reader.
//!
//! Meaning: `Piping.antt` of `strm_host_machine`. Source: wasmtime, `futures_and_streams.rs`, `set_consumer` on
//! `WriteState::HostReady`. Ours: items that the reader does not take are kept as their bytes.

ghost use Rattle.std.specs.Prelude.{◌≡◌, ◌++◌, [], length, None, IfOk, OnOk, OnErr};
ghost use Rattle.strm_buffers.specs.Tells.{KeepsWriter, KeepsReader, writer_given};
ghost use Rattle.strm_host_turns.specs.Piping.{fetching, Fetches, offering, Offers, FetchedSo, PassedSo, GathersNone, fetch_verdict};

use crate::reader_turns::{ReaderStops, judge_reader, since_after};
use crate::settling::receive_some;
use crate::writer_turns::{WriterStops, note_answer};
use std::alloc::Global;
use std::mem;
use strm_buffers::answers::{Answer, ReaderSaid};
use strm_buffers::boxes::{give, held_by, poll_reader, poll_writer};
use strm_buffers::items::{Items, MOST_ITEMS};
use strm_buffers::offers::Offer;
use strm_buffers::readers::HostReader;
use strm_buffers::windows::Window;
use strm_buffers::writers::HostWriter;
use strm_channels::channels::Channel;
use strm_codes::codes::TransmitKind;
use strm_codes::counts::OutOfMemory;
use strm_codes::payloads::Payload;
use strm_machine::streams::{Consumer, Producer};

// One poll of a host writer that holds nothing, for as many items as it likes: those, and its answer.
fn poll_all(
    alloc: Global,
    payload: Payload,
    writer: &mut Box<dyn HostWriter>,
) -> Result<(Items, Answer), OutOfMemory>
    requires payload { (writer_tells writer.old).payload ≡ payload }
    requires nothing_held { (writer_tells writer.old).holds ≡ [] }
    ensures payload { IfOk result (λ polled. polled.0.payload ≡ payload) }
    ensures ok { IfOk result (λ polled.
        FetchedSo (writer_tells writer.old) (writer_tells writer.new) polled.0.items polled.1) }
    ensures no_memory { OnErr result
        (KeepsWriter (writer_tells writer.old) (writer_tells writer.new)) }
{
    let mut window = Window::unbounded(alloc, payload);
    let turn = poll_writer(writer, &mut window, false);
    let items = window.into_items();
    match turn.answer() {
        Some(answer) => Ok((items, answer)),
        None => Err(OutOfMemory),
    }
}

/// Why an answer to the poll of a fetch, in which so many items were produced, stops the step, if it does.
pub fn judge_fetch(kind: TransmitKind, answer: Answer, produced: usize) -> Result<(), WriterStops>
    ensures { result ≡ fetch_verdict kind answer produced }
{
    if answer == Answer::Failed {
        return Err(WriterStops::Failed);
    }
    if answer.breaks_as_writer(kind, None, false, produced) {
        return Err(WriterStops::Broke);
    }
    Ok(())
}

/// Polls the host writer of a pipe on which nothing is held, for as many items as it likes, which are
/// kept. After an error none are.
pub fn fetch(
    alloc: Global,
    kind: TransmitKind,
    producer: &mut Producer,
    kept: &mut Items,
    writer: &mut Box<dyn HostWriter>,
) -> Result<(), WriterStops>
    requires payload { (writer_tells writer.old).payload ≡ kept.old.payload }
    requires nothing_held { (writer_tells writer.old).holds ≡ [] }
    ensures fetches { Fetches result kind
        (fetching producer.old kept.old.items (writer_tells writer.old))
        (fetching producer.new kept.new.items (writer_tells writer.new)) }
    ensures payload { kept.new.payload ≡ kept.old.payload }
{
    let (items, answer) = match poll_all(alloc, kept.payload(), writer) {
        Ok(polled) => polled,
        Err(_) => return Err(WriterStops::OutOfMemory),
    };
    judge_fetch(kind, answer, items.len())?;
    note_answer(producer, answer, 0);
    *kept = items;
    Ok(())
}

// What a host writer holds is kept too, behind what was kept. After running out of memory the writer holds its
// items still, or gave them all; those are lost, and only where some were kept besides.
fn gather(
    alloc: Global,
    kept: &mut Items,
    writer: &mut Box<dyn HostWriter>,
) -> Result<(), OutOfMemory>
    requires payload { (writer_tells writer.old).payload ≡ kept.old.payload }
    ensures payload { kept.new.payload ≡ kept.old.payload }
    ensures items { OnOk result
        (kept.new.items ≡ kept.old.items ++ (writer_tells writer.old).holds) }
    ensures ok { OnOk result
        (writer_tells writer.new ≡ writer_given (writer_tells writer.old) None) }
    ensures no_memory { OnErr result
        (GathersNone (writer_tells writer.old) (writer_tells writer.new)) }
{
    let holds = held_by(writer);
    if holds == 0 {
        return Ok(());
    }
    if kept.len() + holds > MOST_ITEMS as usize {
        return Err(OutOfMemory);
    }
    let mut window = Window::unbounded(alloc, kept.payload());
    give(writer, &mut window)?;
    let given = window.into_items();
    if kept.len() == 0 {
        *kept = given;
        return Ok(());
    }
    kept.append(&given)
}

// One poll of a host reader, which is offered what is kept, so many being taken since it was last ready:
// its record.
fn poll_kept(
    alloc: Global,
    kept: &mut Items,
    reader: &mut Box<dyn HostReader>,
    since: u32,
) -> Result<ReaderSaid, OutOfMemory>
    requires payload { (reader_tells reader.old).payload ≡ kept.old.payload }
    ensures kept { kept.new ≡ kept.old }
    ensures ok { IfOk result (λ said.
        PassedSo (reader_tells reader.old) (reader_tells reader.new) kept.old.items since said) }
    ensures no_memory { OnErr result
        (KeepsReader (reader_tells reader.old) (reader_tells reader.new)) }
{
    let none = Items::new(alloc, kept.payload());
    let lent = mem::replace(kept, none);
    let offered = lent.len() as u32;
    let mut offer = Offer::of_items(lent, since);
    let turn = poll_reader(reader, &mut offer, false);
    let bad = offer.bad();
    let (items, taken) = offer.into_items();
    *kept = items;
    match turn.answer() {
        Some(answer) => Ok(ReaderSaid {
            offered,
            since,
            finish: false,
            taken,
            bad,
            answer,
        }),
        None => Err(OutOfMemory),
    }
}

/// Polls the host reader of a pipe once with all that is held on it: what is kept, and what the writer
/// holds, which is kept from then on. What it takes leaves the front.
pub fn offer(
    alloc: Global,
    stream: &mut Channel,
    consumer: &mut Consumer,
    kept: &mut Items,
    writer: &mut Box<dyn HostWriter>,
    reader: &mut Box<dyn HostReader>,
) -> Result<Answer, ReaderStops>
    requires writer { (writer_tells writer.old).payload ≡ kept.old.payload }
    requires reader { (reader_tells reader.old).payload ≡ kept.old.payload }
    ensures offers { Offers result
        (offering stream.old consumer.old kept.old.items
        (writer_tells writer.old) (reader_tells reader.old))
        (offering stream.new consumer.new kept.new.items
        (writer_tells writer.new) (reader_tells reader.new)) }
    ensures payload { kept.new.payload ≡ kept.old.payload }
{
    match gather(alloc, kept, writer) {
        Ok(()) => {}
        Err(_) => return Err(ReaderStops::OutOfMemory),
    }
    let since = consumer.since;
    let said = match poll_kept(alloc, kept, reader, since) {
        Ok(said) => said,
        Err(_) => return Err(ReaderStops::OutOfMemory),
    };
    judge_reader(stream.kind(), &said)?;
    kept.skip(said.taken as usize);
    consumer.since = since_after(said.answer, since, said.taken);
    consumer.resting = said.answer == Answer::Pending;
    receive_some(stream, said.taken);
    Ok(said.answer)
}

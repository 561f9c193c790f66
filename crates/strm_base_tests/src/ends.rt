//! A host reader that follows a script, and what it keeps of what it takes.

ghost use Rattle.std.specs.Prelude.{◌≡◌};
ghost use Rattle.strm_codes.specs.declared.payloads.Payload.TheVariants.{One};
ghost use Rattle.strm_codes.specs.declared.scalars.Scalar.TheVariants.{U8};

use crate::answers::is;
use std::alloc::Global;
use std::process::Abort;
use strm_buffers::answers::{Answer, HostTurn, StreamResult, Turn};
use strm_buffers::items::Items;
use strm_buffers::offers::Offer;
use strm_buffers::readers::HostReader;
use strm_codes::codes::TransmitKind;
use strm_codes::payloads::Payload;
use strm_codes::scalars::Scalar;
use strm_memory::payloaded::Payloaded;
use strm_program_ends::scripted_reader::{ReaderTurn, ScriptedReader};

const BYTES: Payload = Payload::One(Scalar::U8);

const COMPLETED: HostTurn = Turn::Ready(StreamResult::Completed);

// Three bytes as items.
fn three_bytes(rt: &impl Abort, alloc: Global) -> Items
    ensures { result.payload ≡ One U8 }
{
    let mut items = Items::new(alloc, BYTES);
    is(rt, items.push(&7u8.lower()), Ok(()));
    is(rt, items.push(&8u8.lower()), Ok(()));
    is(rt, items.push(&9u8.lower()), Ok(()));
    items
}

// A turn of a script.
fn push(rt: &impl Abort, turns: &mut Vec<ReaderTurn>, take: u32, answer: Answer) {
    turns.push(ReaderTurn { take, answer }).expect(rt, "memory");
}

// Polls a reader that is in no box, which is offered the three bytes.
fn offer_three(rt: &impl Abort, alloc: Global, reader: &mut ScriptedReader, taken: u32)
    requires { reader.old.payload ≡ One U8 }
    ensures { reader.new.payload ≡ One U8 }
{
    let mut offer = Offer::of_items(three_bytes(rt, alloc), 0);
    is(rt, reader.poll(&mut offer, false), COMPLETED);
    is(rt, offer.taken(), taken);
}

// A reader of a script that takes two items, and then all.
fn two_and_all(rt: &impl Abort, alloc: Global) -> Vec<ReaderTurn> {
    let mut turns = Vec::new(alloc);
    push(rt, &mut turns, 2, Answer::Completed);
    push(rt, &mut turns, 9, Answer::Completed);
    turns
}

#[test]
fn a_scripted_reader_keeps_what_it_takes(rt: HostRuntime) {
    let turns = two_and_all(&rt, rt.alloc());
    let mut reader = ScriptedReader::new(rt.alloc(), TransmitKind::Stream, BYTES, turns);
    offer_three(&rt, rt.alloc(), &mut reader, 2);
    offer_three(&rt, rt.alloc(), &mut reader, 3);
    is(&rt, reader.taken_bytes(), [7, 8, 7, 8, 9].as_slice());
}

#[test]
fn one_that_discards_keeps_nothing(rt: HostRuntime) {
    let turns = two_and_all(&rt, rt.alloc());
    let stream = TransmitKind::Stream;
    let mut reader = ScriptedReader::discarding(rt.alloc(), stream, BYTES, turns);
    offer_three(&rt, rt.alloc(), &mut reader, 2);
    is(&rt, reader.taken_bytes(), [].as_slice());
}

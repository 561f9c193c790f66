//! A host reader whose items are collected after they came.

ghost use Rattle.std.specs.Prelude.{◌≡◌};
ghost use Rattle.strm_codes.specs.declared.payloads.Payload.TheVariants.{One};
ghost use Rattle.strm_codes.specs.declared.scalars.Scalar.TheVariants.{U8, Char};

use crate::answers::{is, vector};
use std::alloc::Global;
use std::process::Abort;
use strm_buffers::answers::{Answer, HostTurn, StreamResult, Turn};
use strm_buffers::offers::Offer;
use strm_buffers::readers::HostReader;
use strm_codes::codes::TransmitKind;
use strm_codes::payloads::Payload;
use strm_codes::scalars::Scalar;
use strm_memory::memories::GuestMemory;
use strm_ready_ends::errors::GrantError;
use strm_ready_ends::ready_readers::ReadyReader;

const BYTES: Payload = Payload::One(Scalar::U8);

const CHARS: Payload = Payload::One(Scalar::Char);

const COMPLETED: HostTurn = Turn::Ready(StreamResult::Completed);

const DROPPED: HostTurn = Turn::Ready(StreamResult::Dropped);

const CANCELLED: HostTurn = Turn::Ready(StreamResult::Cancelled);

// Offers a reader these bytes, and forgets: what it answers, and how many it took.
fn takes(
    rt: &impl Abort,
    alloc: Global,
    reader: &mut ReadyReader,
    bytes: &[u8],
    finish: bool,
    wanted: (HostTurn, u32),
)
    requires { reader.old.payload ≡ One U8 }
    ensures { reader.new.payload ≡ One U8 }
{
    let memory = GuestMemory::of_bytes(vector(rt, alloc, bytes));
    let len = memory.len();
    assert!(rt; len <= 8);
    let mut offer = Offer::of_memory(memory, BYTES, 0, len as u32, 0);
    is(rt, reader.poll(&mut offer, finish), wanted.0);
    is(rt, offer.taken(), wanted.1);
    is(rt, reader.records(), 1);
    reader.forget();
    is(rt, reader.records(), 0);
}

// Collects as many as there is room for in four bytes.
fn collects(rt: &impl Abort, reader: &mut ReadyReader, wanted: &[u8; 4], count: u32)
    requires { reader.old.payload ≡ One U8 }
    ensures { reader.new.payload ≡ One U8 }
{
    let mut bytes = [0; 4];
    is(rt, reader.collect(&mut bytes, 4), count);
    is(rt, bytes.as_slice(), wanted.as_slice());
}

#[test]
fn what_was_taken_is_collected_in_order(rt: HostRuntime) {
    let mut reader = ReadyReader::new(rt.alloc(), TransmitKind::Stream, BYTES);
    takes(
        &rt,
        rt.alloc(),
        &mut reader,
        &[1, 2],
        false,
        (Turn::Pending, 0),
    );
    is(&rt, reader.grant_items(6), Ok(()));
    takes(
        &rt,
        rt.alloc(),
        &mut reader,
        &[1, 2, 3, 4, 5],
        false,
        (COMPLETED, 5),
    );
    assert!(&rt; reader.kept() >= 2);
    is(&rt, reader.first_bytes(2), [1, 2].as_slice());
    collects(&rt, &mut reader, &[1, 2, 3, 4], 4);
    takes(&rt, rt.alloc(), &mut reader, &[6, 7], false, (COMPLETED, 1));
    is(&rt, reader.kept(), 2);
    collects(&rt, &mut reader, &[5, 6, 0, 0], 2);
    collects(&rt, &mut reader, &[0, 0, 0, 0], 0);
    takes(&rt, rt.alloc(), &mut reader, &[7], true, (CANCELLED, 0));
}

#[test]
fn one_that_wants_no_more_is_done(rt: HostRuntime) {
    let mut reader = ReadyReader::new(rt.alloc(), TransmitKind::Stream, BYTES);
    is(&rt, reader.grant_items(3), Ok(()));
    takes(&rt, rt.alloc(), &mut reader, &[], false, (COMPLETED, 0));
    is(&rt, reader.finish(), Ok(()));
    is(&rt, reader.grant_items(1), Err(GrantError::Ended));
    takes(&rt, rt.alloc(), &mut reader, &[1, 2], false, (DROPPED, 0));
    reader.close();
    is(&rt, reader.grant_items(u32::MAX), Err(GrantError::Ended));
}

#[test]
fn a_future_is_taken_whoever_wants_it(rt: HostRuntime) {
    let mut reader = ReadyReader::new(rt.alloc(), TransmitKind::Future, BYTES);
    takes(
        &rt,
        rt.alloc(),
        &mut reader,
        &[1],
        false,
        (Turn::Pending, 0),
    );
    is(&rt, reader.finish(), Ok(()));
    takes(&rt, rt.alloc(), &mut reader, &[1], false, (COMPLETED, 1));
    is(&rt, reader.kept(), 1);
}

#[test]
fn more_than_can_be_counted_is_not_granted(rt: HostRuntime) {
    let mut reader = ReadyReader::new(rt.alloc(), TransmitKind::Stream, BYTES);
    is(&rt, reader.grant_items(u32::MAX), Err(GrantError::TooMany));
    is(&rt, reader.grant_items(1), Ok(()));
    is(
        &rt,
        reader.grant_items(u32::MAX - 1),
        Err(GrantError::TooMany),
    );
}

// Offers a reader the second and the third character of some: what it answers, and how many it took.
fn takes_good(
    rt: &impl Abort,
    reader: &mut ReadyReader,
    bytes: &[u8; 12],
    answer: Answer,
    taken: u32,
)
    requires { reader.old.payload ≡ One Char }
    ensures { reader.new.payload ≡ One Char }
{
    let said = reader.take_good(bytes, 4, 2, 0, false).expect(rt, "memory");
    is(
        rt,
        (said.answer, said.taken, said.bad),
        (answer, taken, false),
    );
    reader.forget();
}

/// The one behind the good one is a surrogate.
#[test]
fn a_bad_item_is_not_asked_for(rt: HostRuntime) {
    let mut reader = ReadyReader::new(rt.alloc(), TransmitKind::Stream, CHARS);
    is(&rt, reader.grant_items(3), Ok(()));
    let surrogate = [9, 0, 0, 0, 1, 0, 0, 0, 0, 0xd8, 0, 0];
    takes_good(&rt, &mut reader, &surrogate, Answer::Completed, 1);
    let good = [9, 0, 0, 0, 1, 0, 0, 0, 2, 0, 0, 0];
    takes_good(&rt, &mut reader, &good, Answer::Completed, 2);
    takes_good(&rt, &mut reader, &good, Answer::Pending, 0);
}

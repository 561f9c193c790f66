//! A host writer that is fed before it is asked.

ghost use Rattle.std.specs.Prelude.{◌≡◌, ◌+◌, ◌≤◌, [], length};
ghost use Rattle.strm_codes.specs.declared.payloads.Payload.TheVariants.{One};
ghost use Rattle.strm_codes.specs.declared.scalars.Scalar.TheVariants.{U8};

use crate::answers::{is, vector};
use std::alloc::Global;
use std::process::Abort;
use strm_buffers::answers::{HostTurn, StreamResult, Turn};
use strm_buffers::windows::Window;
use strm_buffers::writers::HostWriter;
use strm_codes::codes::TransmitKind;
use strm_codes::payloads::Payload;
use strm_codes::scalars::Scalar;
use strm_memory::memories::GuestMemory;
use strm_ready_ends::errors::FeedError;
use strm_ready_ends::ready_writers::ReadyWriter;

const BYTES: Payload = Payload::One(Scalar::U8);

const CHARS: Payload = Payload::One(Scalar::Char);

const DROPPED: HostTurn = Turn::Ready(StreamResult::Dropped);

const CANCELLED: HostTurn = Turn::Ready(StreamResult::Cancelled);

// Gives a writer room for so many bytes: those that it marks, and how many.
fn gives(
    rt: &impl Abort,
    alloc: Global,
    writer: &mut ReadyWriter,
    room: u32,
    wanted: &[u8],
    count: u32,
)
    requires { writer.old.payload ≡ One U8 }
    ensures { writer.new.payload ≡ One U8 }
{
    let memory = GuestMemory::of_bytes(vector(rt, alloc, &[0; 8]));
    assert!(rt; room as usize <= memory.len());
    let mut window = Window::over(memory, BYTES, 0, room);
    is(rt, writer.give(&mut window), Ok(()));
    let (memory, marked) = window.into_memory();
    is(rt, memory.bytes(), wanted);
    is(rt, marked, count);
}

// Polls a writer that holds nothing, and forgets.
fn answers(rt: &impl Abort, alloc: Global, writer: &mut ReadyWriter, finish: bool, wanted: HostTurn)
    requires payload { writer.old.payload ≡ One U8 }
    ensures payload { writer.new.payload ≡ One U8 }
{
    assert!(rt; writer.held() == 0);
    let memory = GuestMemory::of_bytes(vector(rt, alloc, &[0; 8]));
    assert!(rt; memory.len() >= 4);
    let mut window = Window::over(memory, BYTES, 0, 4);
    is(rt, window.prepare(), Ok(()));
    is(rt, writer.poll(&mut window, finish), wanted);
    is(rt, writer.records(), 1);
    writer.forget();
    is(rt, writer.records(), 0);
}

#[test]
fn what_was_fed_is_given_in_order(rt: HostRuntime) {
    let mut writer = ReadyWriter::new(rt.alloc(), TransmitKind::Stream, BYTES);
    is(&rt, writer.feed_items(&[1, 2, 3], 3), Ok(()));
    is(&rt, writer.feed_items(&[], 0), Ok(()));
    is(&rt, writer.feed_items(&[4, 5], 2), Ok(()));
    gives(
        &rt,
        rt.alloc(),
        &mut writer,
        2,
        &[1, 2, 0, 0, 0, 0, 0, 0],
        2,
    );
    is(&rt, writer.feed_items(&[6], 1), Ok(()));
    gives(
        &rt,
        rt.alloc(),
        &mut writer,
        8,
        &[3, 4, 5, 6, 0, 0, 0, 0],
        4,
    );
    is(&rt, writer.held(), 0);
    answers(&rt, rt.alloc(), &mut writer, false, Turn::Pending);
    answers(&rt, rt.alloc(), &mut writer, true, CANCELLED);
    is(&rt, writer.end(), true);
    answers(&rt, rt.alloc(), &mut writer, true, DROPPED);
}

#[test]
fn what_may_not_be_fed_changes_nothing(rt: HostRuntime) {
    let mut chars = ReadyWriter::new(rt.alloc(), TransmitKind::Stream, CHARS);
    is(&rt, chars.feed_items(&[1, 0, 0, 0], 1), Ok(()));
    is(
        &rt,
        chars.feed_items(&[1, 0, 0], 1),
        Err(FeedError::BadItems),
    );
    is(
        &rt,
        chars.feed_items(&[1, 0, 0, 0], 2),
        Err(FeedError::BadItems),
    );
    // A surrogate behind a good one.
    let surrogate = [1, 0, 0, 0, 0, 0xd8, 0, 0];
    is(
        &rt,
        chars.feed_items(&surrogate, 2),
        Err(FeedError::BadItems),
    );
    is(&rt, chars.held(), 1);
    let _ = chars.end();
    is(
        &rt,
        chars.feed_items(&[1, 0, 0, 0], 1),
        Err(FeedError::Ended),
    );
    is(&rt, chars.is_shut(), true);
}

#[test]
fn a_future_is_fed_once(rt: HostRuntime) {
    let mut future = ReadyWriter::new(rt.alloc(), TransmitKind::Future, BYTES);
    is(&rt, future.end(), false);
    is(
        &rt,
        future.feed_items(&[1, 2], 2),
        Err(FeedError::WrongCount),
    );
    answers(&rt, rt.alloc(), &mut future, false, Turn::Pending);
    is(&rt, future.feed_items(&[1], 1), Ok(()));
    is(&rt, future.feed_items(&[1], 1), Err(FeedError::Ended));
    is(&rt, future.end(), true);
    gives(
        &rt,
        rt.alloc(),
        &mut future,
        1,
        &[1, 0, 0, 0, 0, 0, 0, 0],
        1,
    );
    answers(&rt, rt.alloc(), &mut future, false, Turn::Pending);
}

/// Whose records are forgotten never has more than one, however often it is polled.
#[test]
fn polls_keep_nothing(rt: HostRuntime) {
    let mut writer = ReadyWriter::new(rt.alloc(), TransmitKind::Stream, BYTES);
    for _poll in 0..100_000usize {
        let answer = writer.poll_empty(Some(4), false);
        assert!(&rt; answer.is_ok());
        writer.forget();
    }
    is(&rt, writer.records(), 0);
}

#[test]
fn a_close_gives_up_what_is_held(rt: HostRuntime) {
    let mut writer = ReadyWriter::new(rt.alloc(), TransmitKind::Stream, BYTES);
    is(&rt, writer.feed_items(&[1, 2, 3], 3), Ok(()));
    writer.close();
    is(&rt, writer.held(), 0);
    is(&rt, writer.feed_items(&[1], 1), Err(FeedError::Ended));
}

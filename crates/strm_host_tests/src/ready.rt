//! Each ready producer once, boxed, and one that a user would write.

ghost use Rattle.std.specs.Prelude.{◌≡◌};

use crate::answers::is;
use crate::countdown::Countdown;
use crate::polls::{BYTES, COMPLETED, DROPPED, give_rest, memory, poll, poll_over};
use bytes::{Bytes, BytesMut};
use std::alloc::Global;
use std::process::Abort;
use strm_buffers::answers::{HostTurn, StreamResult, Turn};
use strm_buffers::boxes::{held_by, writer_kind};
use strm_buffers::windows::Window;
use strm_buffers::writers::HostWriter;
use strm_codes::codes::TransmitKind;
use strm_host::empty::Empty;
use strm_host::erased::Erased;
use strm_host::turning::Turning;

const CANCELLED: HostTurn = Turn::Ready(StreamResult::Cancelled);

fn vector(rt: &impl Abort, alloc: Global, bytes: &[u8]) -> Vec<u8>
    ensures { result.items ≡ bytes.now }
{
    bytes.to_vec(alloc).expect(rt, "memory")
}

#[test]
fn a_vector_gives_what_there_is_room_for_and_holds_the_rest(rt: HostRuntime) {
    let alloc = rt.alloc();
    let erased = Erased::stream(alloc, vector(&rt, alloc, &[7, 8, 9]));
    let mut writer: Box<dyn HostWriter> = Box::new(alloc, erased).expect(&rt, "memory");
    let window = Window::over(memory(&rt, alloc, 4), BYTES, 1, 2);
    let bytes = &[0, 7, 8, 0];
    poll_over(&rt, alloc, &mut writer, window, DROPPED, 2, bytes);
    is(&rt, held_by(&writer), 1);
}

#[test]
fn a_vector_gives_all_once(rt: HostRuntime) {
    let alloc = rt.alloc();
    let erased = Erased::stream(alloc, vector(&rt, alloc, &[7, 8, 9]));
    let mut writer: Box<dyn HostWriter> = Box::new(alloc, erased).expect(&rt, "memory");
    poll(&rt, alloc, &mut writer, false, DROPPED, &[7, 8, 9]);
    poll(&rt, alloc, &mut writer, true, DROPPED, &[]);
}

#[test]
fn a_block_of_bytes_gives_what_there_is_room_for_and_holds_the_rest(rt: HostRuntime) {
    let alloc = rt.alloc();
    let bytes = Bytes::from_vec(vector(&rt, alloc, &[7, 8, 9])).expect(&rt, "memory");
    let erased = Erased::stream(alloc, bytes);
    let mut writer: Box<dyn HostWriter> = Box::new(alloc, erased).expect(&rt, "memory");
    let window = Window::over(memory(&rt, alloc, 4), BYTES, 1, 2);
    let bytes = &[0, 7, 8, 0];
    poll_over(&rt, alloc, &mut writer, window, DROPPED, 2, bytes);
    is(&rt, held_by(&writer), 1);
    give_rest(&rt, alloc, &mut writer, &[9]);
}

#[test]
fn a_growing_block_gives_all_once(rt: HostRuntime) {
    let alloc = rt.alloc();
    let erased = Erased::stream(alloc, BytesMut::from_vec(vector(&rt, alloc, &[7, 8])));
    let mut writer: Box<dyn HostWriter> = Box::new(alloc, erased).expect(&rt, "memory");
    poll(&rt, alloc, &mut writer, false, DROPPED, &[7, 8]);
    poll(&rt, alloc, &mut writer, true, DROPPED, &[]);
}

#[test]
fn a_boxed_slice_gives_all(rt: HostRuntime) {
    let alloc = rt.alloc();
    let items = [7u16, 8].to_vec(alloc).expect(&rt, "memory");
    let erased = Erased::stream(alloc, items.into_boxed_slice());
    let mut writer: Box<dyn HostWriter> = Box::new(alloc, erased).expect(&rt, "memory");
    poll(&rt, alloc, &mut writer, false, DROPPED, &[7, 8]);
}

#[test]
fn an_empty_stream_ends_at_once(rt: HostRuntime) {
    let alloc = rt.alloc();
    let empty: Empty<u8> = Empty::new();
    let erased = Erased::stream(alloc, empty);
    let mut writer: Box<dyn HostWriter> = Box::new(alloc, erased).expect(&rt, "memory");
    is(&rt, writer_kind(&writer), TransmitKind::Stream);
    poll(&rt, alloc, &mut writer, false, DROPPED, &[]);
}

#[test]
fn a_countdown_gives_each_number(rt: HostRuntime) {
    let alloc = rt.alloc();
    let erased = Erased::stream(alloc, Countdown { left: 2 });
    let mut writer: Box<dyn HostWriter> = Box::new(alloc, erased).expect(&rt, "memory");
    poll(&rt, alloc, &mut writer, false, COMPLETED, &[2]);
    poll(&rt, alloc, &mut writer, false, COMPLETED, &[1]);
    poll(&rt, alloc, &mut writer, false, DROPPED, &[]);
}

#[test]
fn a_future_gives_its_value_and_then_fails(rt: HostRuntime) {
    let alloc = rt.alloc();
    let erased = Erased::future(alloc, Turning::ready(7u8));
    let mut writer: Box<dyn HostWriter> = Box::new(alloc, erased).expect(&rt, "memory");
    is(&rt, writer_kind(&writer), TransmitKind::Future);
    poll(&rt, alloc, &mut writer, false, COMPLETED, &[7]);
    poll(&rt, alloc, &mut writer, true, Turn::Failed, &[]);
}

#[test]
fn a_future_without_a_value_gives_up(rt: HostRuntime) {
    let alloc = rt.alloc();
    let turning: Turning<u8> = Turning::pending();
    let erased = Erased::future(alloc, turning);
    let mut writer: Box<dyn HostWriter> = Box::new(alloc, erased).expect(&rt, "memory");
    poll(&rt, alloc, &mut writer, false, Turn::Pending, &[]);
    poll(&rt, alloc, &mut writer, true, CANCELLED, &[]);
    is(&rt, writer.records(), 2);
}

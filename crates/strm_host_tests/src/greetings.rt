//! Greetings by example: bytes written straight to where they are read, and more in a buffer.

use crate::answers::is;
use crate::greeting::Greeting;
use crate::polls::{BYTES, COMPLETED, give_rest, items_told, memory, poll, poll_over};
use strm_buffers::boxes::held_by;
use strm_buffers::windows::Window;
use strm_buffers::writers::HostWriter;
use strm_host::erased::Erased;

#[test]
fn written_bytes_come_before_the_buffer(rt: HostRuntime) {
    let alloc = rt.alloc();
    let erased = Erased::stream(alloc, Greeting { alloc });
    let mut writer: Box<dyn HostWriter> = Box::new(alloc, erased).expect(&rt, "memory");
    let window = Window::over(memory(&rt, alloc, 4), BYTES, 0, 4);
    let bytes = &[7, 8, 9, 10];
    poll_over(&rt, alloc, &mut writer, window, COMPLETED, 4, bytes);
    is(&rt, held_by(&writer), 1);
    is(&rt, items_told(&rt, &writer), 5);
    give_rest(&rt, alloc, &mut writer, &[11]);
    is(&rt, held_by(&writer), 0);
}

#[test]
fn a_room_of_one_byte_is_filled_first(rt: HostRuntime) {
    let alloc = rt.alloc();
    let erased = Erased::stream(alloc, Greeting { alloc });
    let mut writer: Box<dyn HostWriter> = Box::new(alloc, erased).expect(&rt, "memory");
    let window = Window::over(memory(&rt, alloc, 2), BYTES, 1, 1);
    poll_over(&rt, alloc, &mut writer, window, COMPLETED, 1, &[0, 7]);
    is(&rt, held_by(&writer), 3);
}

#[test]
fn all_is_marked_between_host_ends(rt: HostRuntime) {
    let alloc = rt.alloc();
    let erased = Erased::stream(alloc, Greeting { alloc });
    let mut writer: Box<dyn HostWriter> = Box::new(alloc, erased).expect(&rt, "memory");
    let items = &[7, 8, 9, 10, 11];
    poll(&rt, alloc, &mut writer, false, COMPLETED, items);
    is(&rt, held_by(&writer), 0);
}

//! A small tape of each version, of one step, host writers and a host reader, with every byte changed to every
//! other value, and cut at every place.

use crate::tape::rows::{is_tape, is_written_again};
use std::alloc::Global;
use std::process::Abort;

// `dump` of 4 bytes at 16; a stream of pairs of bool and u16, of which one was produced, with a byte of
// padding between the two; a future of u8, whose reader took 3 of 3, asked for one that is none, and
// failed.
const SMALL: [u8; 69] = [
    0x53, 0x54, 0x52, 0x54, 0x01, 0x01, 0x00, 0x00, 0x00, 0x1d, 0x00, 0x00, 0x00, 0x00, 0x10, 0x00,
    0x00, 0x00, 0x04, 0x00, 0x00, 0x00, 0x01, 0x00, 0x02, 0x02, 0x00, 0x03, 0x01, 0x00, 0x00, 0x00,
    0xff, 0xff, 0xff, 0xff, 0x01, 0x01, 0x00, 0x00, 0x00, 0x01, 0x00, 0x34, 0x12, 0x01, 0x01, 0x01,
    0x01, 0x02, 0x01, 0x00, 0x00, 0x00, 0x03, 0x00, 0x00, 0x00, 0x00, 0x00, 0x00, 0x00, 0x00, 0x03,
    0x00, 0x00, 0x00, 0x01, 0x04,
];

// At this place the values from one to another are those of other tapes.
type Other = (usize, u8, u8);

const OTHERS: [Other; 40] = [
    (9, 21, 21),
    (9, 24, 26),
    (10, 1, 255),
    (11, 1, 255),
    (12, 1, 255),
    (13, 1, 255),
    (14, 0, 15),
    (14, 17, 255),
    (15, 1, 255),
    (16, 1, 255),
    (17, 1, 255),
    (18, 1, 3),
    (18, 5, 64),
    (23, 1, 1),
    (26, 1, 4),
    (27, 4, 4),
    (35, 0, 15),
    (36, 0, 0),
    (41, 0, 0),
    (43, 0, 51),
    (43, 53, 255),
    (44, 0, 17),
    (44, 19, 255),
    (45, 0, 0),
    (45, 2, 4),
    (47, 0, 0),
    (49, 0, 1),
    (49, 3, 9),
    (54, 4, 255),
    (55, 1, 255),
    (56, 1, 255),
    (57, 1, 255),
    (58, 1, 255),
    (59, 1, 255),
    (60, 1, 255),
    (61, 1, 255),
    (62, 1, 1),
    (63, 0, 2),
    (67, 0, 0),
    (68, 0, 3),
];

// `new` of a future of result<record<u8,f32>,enum<3>>; a stream of option<u16>, of which none and 0x1234 were
// produced; a stream of variant<_,u8,flags<3>>, of which one item of each case was; a future of f64, whose
// reader took it.
const SECOND: [u8; 100] = [
    0x53, 0x54, 0x52, 0x54, 0x02, 0x01, 0x00, 0x00, 0x00, 0x02, 0x00, 0x00, 0x00, 0x00, 0x01, 0x03,
    0x05, 0x0f, 0x12, 0x03, 0x0b, 0x82, 0x02, 0x00, 0x03, 0x02, 0x0e, 0x05, 0x01, 0x00, 0x00, 0x00,
    0xff, 0xff, 0xff, 0xff, 0x01, 0x02, 0x00, 0x00, 0x00, 0x00, 0x00, 0x00, 0x00, 0x01, 0x00, 0x34,
    0x12, 0x01, 0x00, 0x03, 0x04, 0x23, 0x0d, 0x03, 0x32, 0x01, 0x00, 0x00, 0x00, 0x03, 0x00, 0x00,
    0x00, 0x00, 0x03, 0x00, 0x00, 0x00, 0x00, 0x00, 0x01, 0xff, 0x02, 0x05, 0x00, 0x01, 0x01, 0x01,
    0x0b, 0x01, 0x00, 0x00, 0x00, 0x01, 0x00, 0x00, 0x00, 0x00, 0x00, 0x00, 0x00, 0x00, 0x01, 0x00,
    0x00, 0x00, 0x00, 0x01,
];

const SECOND_OTHERS: [Other; 71] = [
    (9, 21, 21),
    (9, 24, 26),
    (10, 1, 255),
    (11, 1, 255),
    (12, 1, 255),
    (13, 1, 255),
    (14, 0, 0),
    (17, 18, 18),
    (17, 34, 34),
    (18, 15, 15),
    (18, 34, 34),
    (19, 1, 2),
    (19, 4, 13),
    (19, 48, 79),
    (19, 128, 255),
    (20, 1, 10),
    (20, 12, 13),
    (20, 48, 79),
    (20, 128, 255),
    (21, 1, 13),
    (21, 48, 79),
    (21, 128, 129),
    (21, 131, 255),
    (23, 1, 1),
    (27, 4, 4),
    (27, 60, 63),
    (35, 0, 15),
    (36, 0, 0),
    (41, 1, 1),
    (47, 0, 51),
    (47, 53, 255),
    (48, 0, 17),
    (48, 19, 255),
    (49, 0, 0),
    (49, 2, 4),
    (50, 1, 1),
    (54, 1, 3),
    (54, 48, 55),
    (54, 128, 255),
    (55, 2, 2),
    (55, 55, 55),
    (56, 2, 3),
    (56, 51, 55),
    (56, 133, 255),
    (61, 0, 2),
    (61, 4, 255),
    (62, 1, 255),
    (63, 1, 255),
    (64, 1, 15),
    (65, 1, 1),
    (70, 1, 2),
    (73, 0, 254),
    (74, 1, 1),
    (75, 0, 4),
    (75, 6, 7),
    (76, 1, 4),
    (78, 0, 0),
    (80, 0, 10),
    (85, 2, 255),
    (86, 1, 255),
    (87, 1, 255),
    (88, 1, 255),
    (89, 1, 255),
    (90, 1, 255),
    (91, 1, 255),
    (92, 1, 255),
    (93, 1, 1),
    (94, 0, 0),
    (98, 1, 1),
    (99, 0, 0),
    (99, 2, 4),
];

// Whether another value at this place makes another tape.
fn is_other(others: &[Other], place: usize, value: u8) -> bool {
    for (at, low, high) in others {
        if place == *at && *low <= value && value <= *high {
            return true;
        }
    }
    false
}

// These bytes with another value at a place.
fn changed(rt: &impl Abort, alloc: Global, bytes: &[u8], place: usize, value: u8) -> Vec<u8> {
    let mut changed = Vec::new(alloc);
    for (at, byte) in bytes.iter().enumerate() {
        let byte = if at == place { value } else { *byte };
        changed.push(byte).expect(rt, "memory");
    }
    changed
}

// Each changed byte makes another tape where it is among these, and else none.
fn every_byte_changes(rt: &impl Abort, alloc: Global, bytes: &[u8], others: &[Other]) {
    for (place, byte) in bytes.iter().enumerate() {
        for value in 0..=255u8 {
            let changed = changed(rt, alloc, bytes, place, value);
            let wanted = value == *byte || is_other(others, place, value);
            assert!(rt;
                is_tape(rt, alloc, changed.as_slice()) == wanted,
                "{value} at {place}"
            );
        }
    }
}

// No front of these bytes is a tape.
fn no_front_is_a_tape(rt: &impl Abort, alloc: Global, bytes: &[u8]) {
    for len in 0..bytes.len() {
        let (front, _) = bytes.split_at(len);
        assert!(rt; !is_tape(rt, alloc, front), "{len} bytes");
    }
}

#[test]
fn it_is_written_as_it_was_read(rt: HostRuntime) {
    is_written_again(&rt, rt.alloc(), &SMALL, 1, 1, 1);
    is_written_again(&rt, rt.alloc(), &SECOND, 1, 2, 1);
}

#[test]
fn every_byte_changed(rt: HostRuntime) {
    every_byte_changes(&rt, rt.alloc(), &SMALL, &OTHERS);
}

#[test]
fn every_byte_of_the_second_changed(rt: HostRuntime) {
    every_byte_changes(&rt, rt.alloc(), &SECOND, &SECOND_OTHERS);
}

#[test]
fn no_front_of_it_is_a_tape(rt: HostRuntime) {
    no_front_is_a_tape(&rt, rt.alloc(), &SMALL);
    no_front_is_a_tape(&rt, rt.alloc(), &SECOND);
}

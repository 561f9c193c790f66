//! The bytes of worked cases, and each public call once with ample memory.

ghost use Rattle.std.specs.Prelude.{◌≡◌, length};

use crate::answers::is;
use crate::codes::items;
use crate::payloads::tuple;
use std::alloc::Global;
use std::process::Abort;
use strm_codes::counts::ItemCount;
use strm_codes::payloads::Payload;
use strm_codes::scalars::Scalar;
use strm_codes::values::Value;
use strm_memory::items::{LiftError, lift_items, lower_items};
use strm_memory::memories::{GuestMemory, OutOfBounds};

const BYTES: Payload = Payload::One(Scalar::U8);

pub(crate) fn value(rt: &impl Abort, numbers: &[i128]) -> Value {
    Value::new(numbers).expect(rt, "a value")
}

// Items lifted from 16 bytes; `OutOfMemory` stands for bytes that are too few.
pub(crate) fn lifted(
    payload: Payload,
    count: u32,
    bytes: &[u8; 16],
    out: &mut Vec<Value>,
) -> Result<(), LiftError> {
    let count = items(count);
    if payload.size() as usize * count.as_usize() > 16 {
        return Err(LiftError::OutOfMemory);
    }
    lift_items(bytes, payload, count, out)
}

#[test]
fn items_are_lifted(rt: HostRuntime) {
    let mut out = Vec::new(rt.alloc());
    let pair = b"\x07\xff\xff\xff\x78\x56\x34\x12\xff\xff\xff\xff\xff\xff\xff\xff";
    let found = lifted(tuple(&[Scalar::U8, Scalar::U32]), 1, pair, &mut out);
    is(&rt, found, Ok(()));
    let text = b"\x41\x00\x00\x00\xff\xff\x10\x00\x00\xd8\x00\x00\x00\xd8\x00\x00";
    let found = lifted(Payload::One(Scalar::Char), 4, text, &mut out);
    is(&rt, found, Err(LiftError::BadItem { index: 2 }));
    is(
        &rt,
        out.as_slice(),
        [value(&rt, &[7, 305_419_896])].as_slice(),
    );
}

// One item lowered over 8 bytes aa.
pub(crate) fn lowered(payload: Payload, value: Value) -> [u8; 8] {
    let mut bytes = [0xaa; 8];
    if payload.size() <= 8 && value.fits(payload) {
        lower_items(&[value], payload, &mut bytes);
    }
    bytes
}

#[test]
fn floats_are_their_bits(rt: HostRuntime) {
    let mut out = Vec::new(rt.alloc());
    let nans = b"\x01\x00\x80\x7f\x00\x00\xc0\xff\x00\x00\x80\x3f\x00\x00\x00\x80";
    is(
        &rt,
        lifted(Payload::One(Scalar::F32), 4, nans, &mut out),
        Ok(()),
    );
    let double = b"\x01\x00\x00\x00\x00\x00\xf0\x7f\x00\x00\x00\x00\x00\x00\xf8\xff";
    is(
        &rt,
        lifted(Payload::One(Scalar::F64), 1, double, &mut out),
        Ok(()),
    );
    let wanted = [
        value(&rt, &[0x7f80_0001]),
        value(&rt, &[0xffc0_0000]),
        value(&rt, &[0x3f80_0000]),
        value(&rt, &[0x8000_0000]),
        value(&rt, &[0x7ff0_0000_0000_0001]),
    ];
    is(&rt, out.as_slice(), wanted.as_slice());
}

#[test]
fn items_are_lowered(rt: HostRuntime) {
    let pair = value(&rt, &[7, 305_419_896]);
    let found = lowered(tuple(&[Scalar::U8, Scalar::U32]), pair);
    is(&rt, found, *b"\x07\xaa\xaa\xaa\x78\x56\x34\x12");
    let signalling = value(&rt, &[0x7ff0_0000_0000_0001]);
    let found = lowered(Payload::One(Scalar::F64), signalling);
    is(&rt, found, *b"\x01\x00\x00\x00\x00\x00\xf0\x7f");
    let signed = value(&rt, &[-2, -1]);
    let found = lowered(tuple(&[Scalar::S16, Scalar::S32]), signed);
    is(&rt, found, *b"\xfe\xff\xaa\xaa\xff\xff\xff\xff");
}

fn made(rt: &impl Abort, alloc: Global, size: u32) -> GuestMemory
    ensures { length result.bytes ≡ size }
{
    GuestMemory::new(alloc, size).expect(rt, "memory")
}

// A memory of 8 bytes that holds the bytes 1, 2, 3 from an address on.
fn filled(rt: &impl Abort, alloc: Global, address: u32) -> GuestMemory
    ensures { length result.bytes ≡ 8 }
{
    let mut memory = made(rt, alloc, 8);
    is(rt, memory.store(address, b"\x01\x02\x03"), Ok(()));
    memory
}

#[test]
fn stores_lie_inside(rt: HostRuntime) {
    is(&rt, GuestMemory::empty(rt.alloc()).len(), 0);
    let mut memory = made(&rt, rt.alloc(), 8);
    is(&rt, memory.store(6, b"\x01\x02\x03"), Err(OutOfBounds));
    is(&rt, memory.store(9, b""), Ok(()));
    is(&rt, memory.store(1, b"\x01\x02\x03"), Ok(()));
    is(&rt, memory.len(), 8);
}

// Three of them.
fn three(rt: &impl Abort) -> ItemCount
    ensures { result ≡ 3 }
{
    let count = items(3);
    is(rt, count.as_u32(), 3);
    count
}

#[test]
fn memories_lend_and_lift(rt: HostRuntime) {
    let memory = filled(&rt, rt.alloc(), 4);
    is(&rt, memory.slice(4, 3), b"\x01\x02\x03".as_slice());
    let mut out = Vec::new(rt.alloc());
    is(&rt, memory.lift(4, BYTES, three(&rt), &mut out), Ok(()));
    is(&rt, out.get(1).copied(), Some(value(&rt, &[2])));
}

#[test]
fn memories_copy_and_lower(rt: HostRuntime) {
    let mut memory = filled(&rt, rt.alloc(), 4);
    memory.copy_within(4, 5, BYTES, three(&rt));
    let value = value(&rt, &[2]);
    assert!(rt; memory.len() == 8 && value.fits(BYTES));
    memory.lower(0, &[value], BYTES);
    is(
        &rt,
        memory.bytes(),
        b"\x02\x00\x00\x00\x01\x01\x02\x03".as_slice(),
    );
    memory.bytes_mut().reverse();
    is(
        &rt,
        memory.bytes(),
        b"\x03\x02\x01\x01\x00\x00\x00\x02".as_slice(),
    );
}

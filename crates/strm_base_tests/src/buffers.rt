//! Buffers of typed items.

ghost use Rattle.std.specs.Prelude.{◌≡◌, [], ◌∷◌};

use crate::answers::{is, vector};
use bytes::{Bytes, BytesMut};
use std::alloc::Global;
use std::process::Abort;
use strm_buffers::buffers::{ReadBuffer, WriteBuffer};
use strm_buffers::slice_buffer::SliceBuffer;
use strm_buffers::vec_buffer::VecBuffer;
use strm_codes::payloads::Payload;
use strm_codes::scalars::Scalar;
use strm_memory::payloaded::Payloaded;

// One byte of three to a vector, and one to a buffer of `bytes`.
fn two_are_moved<B: WriteBuffer<u8>>(rt: &impl Abort, alloc: Global, mut buffer: B) -> B
    requires { B.items buffer ≡ 1 ∷ 2 ∷ 3 ∷ [] }
    ensures { B.items result ≡ 3 ∷ [] }
{
    let mut out: Vec<u8> = Vec::with_capacity(alloc, 1).expect(rt, "memory");
    out.move_from(&mut buffer, 1);
    is(rt, buffer.remaining(), [2, 3].as_slice());
    let mut room = BytesMut::with_capacity(alloc, 1).expect(rt, "memory");
    room.move_from(&mut buffer, 1);
    is(rt, buffer.remaining(), [3].as_slice());
    is(rt, room.as_slice(), [2].as_slice());
    buffer
}

#[test]
fn blocks_of_bytes_are_buffers(rt: HostRuntime) {
    let alloc = rt.alloc();
    let bytes = Bytes::from_vec(vector(&rt, alloc, &[1, 2, 3])).expect(&rt, "memory");
    let _ = two_are_moved(&rt, alloc, bytes);
    let bytes = BytesMut::from_vec(vector(&rt, alloc, &[1, 2, 3]));
    let _ = two_are_moved(&rt, alloc, bytes);
    let bytes = VecBuffer::from_vec(vector(&rt, alloc, &[1, 2, 3]));
    let _ = two_are_moved(&rt, alloc, bytes);
}

#[test]
fn parts_of_slices_are_buffers(rt: HostRuntime) {
    let mut part = SliceBuffer::new(vector(&rt, rt.alloc(), &[1, 2, 3]), 0, 3);
    is(&rt, part.take_first(), 1);
    is(&rt, part.remaining().len(), 2);
    let room = VecBuffer::<u8>::with_capacity(rt.alloc(), 4);
    is(&rt, room.is_ok(), true);
}

#[test]
fn tuples_are_items(rt: HostRuntime) {
    let value = (7u8, -1i16, 'a', true).lower();
    is(&rt, value.as_slice(), [7, -1, 97, 1].as_slice());
    let lifted = <(u8, i16, char, bool)>::lift(&value);
    is(&rt, lifted, Some((7, -1, 'a', true)));
    is(&rt, <(u8, u16, char, bool)>::lift(&value), None);
    is(&rt, u32::payload(), Payload::One(Scalar::U32));
}

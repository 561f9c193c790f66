//! The buffers of `bytes` as buffers of bytes. What is taken is cut off the front without a copy of
//! the rest, and no call takes memory but `take_all`.
//!
//! Source: wasmtime, `futures_and_streams/buffers.rs`, `WriteBuffer` for `Cursor<Bytes>` and
//! `Cursor<BytesMut>`, and `ReadBuffer` for `BytesMut`. Ours: a buffer is its own cursor.

ghost use Rattle.std.specs.Prelude.{◌≡◌, ◌+◌, ◌<◌, ◌≤◌, [], ◌∷◌, ◌++◌, length, take, drop, vec_len, vec_capacity};

use crate::buffers::{ReadBuffer, WriteBuffer};
use bytes::{Bytes, BytesMut};
use std::alloc::Global;

// Bytes go behind those of a vector that has room for them.
fn put_reserved(out: &mut Vec<u8>, bytes: &[u8])
    requires { vec_len out.old + length bytes.now ≤ vec_capacity out.old }
    ensures items { out.new.items ≡ out.old.items ++ bytes.now }
    ensures capacity { vec_capacity out.old ≤ vec_capacity out.new }
{
    match out.extend_from_slice(bytes) {
        Ok(()) => {}
        Err(_) => unreachable!(),
    }
}

impl WriteBuffer<u8> for Bytes {
    ghost items = { λ b. b };

    fn empty(_alloc: Global) -> Bytes {
        Bytes::new()
    }

    fn remaining(&self) -> &[u8] {
        self.as_slice()
    }

    fn len(&self) -> usize {
        Bytes::len(self)
    }

    fn skip(&mut self, count: usize) {
        self.advance(count);
    }

    fn take(&mut self, count: usize, out: &mut Vec<u8>) {
        put_reserved(out, &self.as_slice()[..count]);
        self.advance(count);
    }

    fn take_first(&mut self) -> u8 {
        let item = self.as_slice()[0];
        self.advance(1);
        item
    }
}

impl WriteBuffer<u8> for BytesMut {
    ghost items = { λ b. b.items };

    fn empty(alloc: Global) -> BytesMut
        ensures items { result.items ≡ [] }

        // It has no room, so it takes no memory.
        ensures room { result.spare ≡ 0 }
    {
        BytesMut::new(alloc)
    }

    fn remaining(&self) -> &[u8] {
        self.as_slice()
    }

    fn len(&self) -> usize {
        BytesMut::len(self)
    }

    fn skip(&mut self, count: usize) {
        self.advance(count);
    }

    fn take(&mut self, count: usize, out: &mut Vec<u8>) {
        put_reserved(out, &self.as_slice()[..count]);
        self.advance(count);
    }

    fn take_first(&mut self) -> u8 {
        let item = self.as_slice()[0];
        self.advance(1);
        item
    }
}

impl ReadBuffer<u8> for BytesMut {
    ghost items = { λ b. b.items };

    ghost room = { λ b. b.spare };

    fn remaining_capacity(&self) -> usize {
        self.capacity() - BytesMut::len(self)
    }

    fn extend(&mut self, more: Vec<u8>)
        requires { length more.items ≤ self.old.spare }
        ensures items { self.new.items ≡ self.old.items ++ more.items }
        ensures room { self.old.spare ≤ self.new.spare + length more.items }
    {
        self.extend_reserved(more.as_slice());
    }

    fn move_from<W: WriteBuffer<u8>>(&mut self, input: &mut W, count: usize) {
        self.extend_reserved(&input.remaining()[..count]);
        input.skip(count);
    }
}

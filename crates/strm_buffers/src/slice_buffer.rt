//! A buffer over a part of a vector of bytes.
//!
//! Source: wasmtime, `futures_and_streams/buffers.rs`, `SliceBuffer`.

ghost use Rattle.std.specs.Prelude.{◌≡◌, ◌+◌, ◌<◌, ◌≤◌, [], ◌∷◌, ◌++◌, length, take, drop, slice_range, vec_len, vec_capacity};

use crate::buffers::WriteBuffer;
use std::alloc::Global;

/// The bytes of a vector from an offset up to a limit.
#[derive(Drop)]
pub struct SliceBuffer {
    buffer: Vec<u8>,
    offset: usize,
    limit: usize,
    ghost ordered: { offset ≤ limit },
    ghost within: { limit ≤ length buffer.items },
}

impl SliceBuffer {
    /// The bytes from an offset up to a limit.
    pub fn new(buffer: Vec<u8>, offset: usize, limit: usize) -> SliceBuffer
        requires ordered { offset ≤ limit }
        requires within { limit ≤ length buffer.items }
        ensures buffer { result.buffer ≡ buffer }
        ensures offset { result.offset ≡ offset }
        ensures limit { result.limit ≡ limit }
    {
        SliceBuffer {
            buffer,
            offset,
            limit,
        }
    }

    /// The vector, and where the bytes that are left begin and end.
    pub fn into_parts(self) -> (Vec<u8>, usize, usize)
        ensures { result ≡ (self.buffer, self.offset, self.limit) }
    {
        let SliceBuffer {
            buffer,
            offset,
            limit,
        } = self;
        (buffer, offset, limit)
    }
}

impl WriteBuffer<u8> for SliceBuffer {
    ghost use Rattle.std.specs.Prelude.{slice_range};

    ghost items = { λ b. slice_range b.buffer.items b.offset b.limit };

    fn empty(alloc: Global) -> SliceBuffer
        ensures items { slice_range result.buffer.items result.offset result.limit ≡ [] }

        // It takes no memory.
        ensures memory { vec_capacity result.buffer ≡ 0 }
    {
        SliceBuffer {
            buffer: Vec::new(alloc),
            offset: 0,
            limit: 0,
        }
    }

    fn remaining(&self) -> &[u8] {
        &self.buffer[self.offset..self.limit]
    }

    fn len(&self) -> usize {
        self.limit - self.offset
    }

    fn skip(&mut self, count: usize)
        requires { count
            ≤ length (slice_range self.old.buffer.items self.old.offset self.old.limit) }
        ensures rest { slice_range self.new.buffer.items self.new.offset self.new.limit
            ≡ drop count (slice_range self.old.buffer.items self.old.offset self.old.limit) }

        // The vector and where its bytes end stay.
        ensures buffer { self.new.buffer ≡ self.old.buffer }
        ensures offset { self.new.offset ≡ self.old.offset + count }
        ensures limit { self.new.limit ≡ self.old.limit }
    {
        self.offset += count;
    }

    fn take(&mut self, count: usize, out: &mut Vec<u8>)
        requires items { count
            ≤ length (slice_range self.old.buffer.items self.old.offset self.old.limit) }
        requires room { vec_len out.old + count ≤ vec_capacity out.old }
        ensures moved { out.new.items ≡ out.old.items
            ++ take count (slice_range self.old.buffer.items self.old.offset self.old.limit) }
        ensures rest { slice_range self.new.buffer.items self.new.offset self.new.limit
            ≡ drop count (slice_range self.old.buffer.items self.old.offset self.old.limit) }
        ensures capacity { vec_capacity out.old ≤ vec_capacity out.new }

        // The vector and where its bytes end stay.
        ensures buffer { self.new.buffer ≡ self.old.buffer }
        ensures offset { self.new.offset ≡ self.old.offset + count }
        ensures limit { self.new.limit ≡ self.old.limit }
    {
        match out.extend_from_slice(&self.buffer[self.offset..self.offset + count]) {
            Ok(()) => {}
            Err(_) => unreachable!(),
        }
        self.offset += count;
    }

    fn take_first(&mut self) -> u8
        requires { 0 < length (slice_range self.old.buffer.items self.old.offset self.old.limit) }
        ensures first { slice_range self.old.buffer.items self.old.offset self.old.limit
            ≡ result ∷ slice_range self.new.buffer.items self.new.offset self.new.limit }

        // The vector and where its bytes end stay.
        ensures buffer { self.new.buffer ≡ self.old.buffer }
        ensures offset { self.new.offset ≡ self.old.offset + 1 }
        ensures limit { self.new.limit ≡ self.old.limit }
    {
        let item = self.buffer[self.offset];
        self.offset += 1;
        item
    }
}

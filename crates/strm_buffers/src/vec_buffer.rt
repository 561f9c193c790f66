//! A buffer over a vector.
//!
//! Source: wasmtime, `futures_and_streams/buffers.rs`, `VecBuffer`.

ghost use Rattle.std.specs.Prelude.{◌≡◌, ◌≤◌, [], length, drop, IsOk, IfOk, OnOk, OnErr, vec_capacity};

use crate::buffers::WriteBuffer;
use std::alloc::Global;
use std::mem;
use strm_codes::counts::OutOfMemory;

/// The items of a vector from a place on.
#[derive(Drop)]
pub struct VecBuffer<T: Copy> {
    buffer: Vec<T>,
    first: usize,
    ghost within: { first ≤ length buffer.items },
}

impl<T: Copy> VecBuffer<T> {
    /// No items, and room for so many. After `OutOfMemory` nothing was kept.
    pub fn with_capacity(alloc: Global, capacity: usize) -> Result<VecBuffer<T>, OutOfMemory>
        ensures empty { IfOk result (λ buffer. drop buffer.first buffer.buffer.items ≡ []) }
        ensures room { IfOk result (λ buffer. capacity ≤ vec_capacity buffer.buffer) }
        ensures whole { IfOk result (λ buffer. buffer.first ≡ 0) }
    {
        let buffer = Vec::with_capacity(alloc, capacity)?;
        Ok(VecBuffer { buffer, first: 0 })
    }

    /// The items of this vector.
    pub fn from_vec(items: Vec<T>) -> VecBuffer<T>
        ensures items { drop result.first result.buffer.items ≡ items.items }
        ensures whole { result.first ≡ 0 }
    {
        VecBuffer {
            buffer: items,
            first: 0,
        }
    }

    /// Removes all items.
    pub fn reset(&mut self)
        ensures items { drop self.new.first self.new.buffer.items ≡ [] }
        ensures whole { self.new.first ≡ 0 }
    {
        self.buffer.clear();
        self.first = 0;
    }
}

impl<T: Copy> VecBuffer<T> {
    // The items that are left.
    pub(crate) fn as_slice(&self) -> &[T]
        ensures { result.now ≡ drop self.now.first self.now.buffer.items }
    {
        &self.buffer[self.first..]
    }
}

impl<T: Copy> WriteBuffer<T> for VecBuffer<T> {
    ghost items = { λ b. drop b.first b.buffer.items };

    fn empty(alloc: Global) -> VecBuffer<T>
        ensures items { drop result.first result.buffer.items ≡ [] }

        // It takes no memory.
        ensures memory { vec_capacity result.buffer ≡ 0 }
    {
        VecBuffer {
            buffer: Vec::new(alloc),
            first: 0,
        }
    }

    fn remaining(&self) -> &[T] {
        self.as_slice()
    }

    fn len(&self) -> usize {
        self.buffer.len() - self.first
    }

    fn skip(&mut self, count: usize) {
        self.first += count;
    }

    fn take(&mut self, count: usize, out: &mut Vec<T>) {
        match out.extend_from_slice(&self.buffer[self.first..self.first + count]) {
            Ok(()) => {}
            Err(_) => unreachable!(),
        }
        self.first += count;
    }

    fn take_all(&mut self, alloc: Global) -> Result<Vec<T>, OutOfMemory>
        ensures taken { IfOk result (λ all. all.items ≡ drop self.old.first self.old.buffer.items) }
        ensures rest { OnOk result (drop self.new.first self.new.buffer.items ≡ []) }
        ensures err { OnErr result (drop self.new.first self.new.buffer.items
            ≡ drop self.old.first self.old.buffer.items) }

        // From where nothing was taken off the front: that takes no memory.
        ensures whole { self.old.first ≡ 0 → IsOk result }
    {
        let none = Vec::new(alloc);
        if self.first == 0 {
            return Ok(mem::replace(&mut self.buffer, none));
        }
        let mut all = none;
        match all.extend_from_slice(self.as_slice()) {
            Ok(()) => {
                self.first = self.buffer.len();
                Ok(all)
            }
            Err(_) => Err(OutOfMemory),
        }
    }

    fn take_first(&mut self) -> T {
        let item = self.buffer[self.first];
        self.first += 1;
        item
    }
}

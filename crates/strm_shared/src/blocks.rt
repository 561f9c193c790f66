//! A list that grows in blocks: growth moves no item.
//!
//! Ours.

ghost use Rattle.std.specs.Prelude.{◌≡◌, ◌+◌, ◌^◌, ◌<◌, ◌≤◌, length, [], ◌∷◌, ◌++◌, OnOk, slice_get, option_copied};

use std::alloc::{AllocError, Global};
use std::marker::Model;
use std::mem;

/// Items of a block, where no more are asked for at once.
const BLOCK: usize = 4096;

/// A list that grows in blocks.
#[derive(Drop)]
pub(crate) struct Blocks<T> {
    alloc: Global,
    // Earlier blocks, to which nothing is added.
    full: Vec<Vec<T>>,
    // How many items these have.
    before: usize,
    last: Vec<T>,
}

impl<T> Model for Blocks<T> {
    ghost use Rattle.std.specs.Prelude.{◌≡◌, ◌+◌, ◌^◌, ◌<◌, ◌++◌, flat_map, length, vec_capacity};
    ghost use Rattle.strm_shared.specs.Blocks.{Grown};

    ghost Value = { Grown T };

    ghost view = { λ b. record {
      items = flat_map (λ v. v.items) b.full.items ++ b.last.items;
      room = length (flat_map (λ v. v.items) b.full.items) + vec_capacity b.last;
    } };

    ghost invariant = { λ b. (b.before ≡ length (flat_map (λ v. v.items) b.full.items))
        × (b.before + vec_capacity b.last < 2 ^ 64) };
}

impl<T> Blocks<T> {
    // No items; it takes no memory.
    pub(crate) fn new(alloc: Global) -> Blocks<T>
        ensures { result.items ≡ [] }
    {
        Blocks {
            alloc,
            full: Vec::new(alloc),
            before: 0,
            last: Vec::new(alloc),
        }
    }

    // Room for so many more. Where the last block has it not, there is a new one.
    pub(crate) fn reserve(&mut self, more: usize) -> Result<(), AllocError>
        ensures same { self.new.items ≡ self.old.items }
        ensures room { self.old.room ≤ self.new.room }
        ensures ok { OnOk result (length self.new.items + more ≤ self.new.room) }
    {
        if self.last.capacity() - self.last.len() >= more {
            return Ok(());
        }
        let before = self.before + self.last.len();
        let size = more.max(BLOCK);
        if usize::MAX - before < size {
            return Err(AllocError);
        }
        self.full.reserve(1)?;
        let next = Vec::with_capacity(self.alloc, size)?;
        self.full.push_reserved(mem::replace(&mut self.last, next));
        self.before = before;
        Ok(())
    }

    // How many items there are.
    pub(crate) fn len(&self) -> usize
        ensures { result ≡ length self.now.items }
    {
        self.before + self.last.len()
    }

    // The item of this index, from 0, lent.
    pub(crate) fn get(&self, index: usize) -> Option<&T>
        ensures { option_copied result ≡ slice_get self.now.items index }
    {
        let mut left = index;
        for block in &self.full {
            if left < block.len() {
                return Some(&block[left]);
            }
            left -= block.len();
        }
        if left < self.last.len() {
            return Some(&self.last[left]);
        }
        None
    }
}

impl<T: Copy> Blocks<T> {
    // An item more, for which there is room.
    pub(crate) fn push(&mut self, item: &T)
        requires { length self.old.items < self.old.room }
        ensures items { self.new.items ≡ self.old.items ++ item.now ∷ [] }
        ensures room { self.new.room ≡ self.old.room }
    {
        self.last.push_reserved(*item);
    }
}

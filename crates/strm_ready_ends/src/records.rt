//! Records of polls that are not forgotten yet: the first lies in the list itself, others in memory.
//!
//! Meaning: `Records.antt`. Ours.

ghost use Rattle.std.specs.Prelude.{◌≡◌, ◌<◌, ◌++◌, ◌∷◌, [], length, slice_get, Some, IsOk, OnOk};

use std::alloc::Global;
use std::marker::Model;
use strm_codes::counts::OutOfMemory;

// A list of records, of which one takes no memory.
#[derive(Drop)]
pub(crate) struct Records<T: Copy> {
    first: Option<T>,
    more: Vec<T>,
}

impl<T: Copy> Model for Records<T> {
    ghost use Rattle.std.specs.Prelude.{vec_len, vec_capacity};
    ghost use Rattle.strm_ready_ends.specs.Records.{Recorded, all_records, room_behind, FirstComesFirst};

    ghost Value = { Recorded T };

    ghost view = { λ r. record { items = all_records r.first r.more.items; room = room_behind r.first (vec_capacity r.more) (vec_len r.more) } };

    ghost invariant = { λ r. FirstComesFirst r.first r.more.items };
}

impl<T: Copy> Records<T> {
    // None.
    pub(crate) fn new(alloc: Global) -> Records<T>
        ensures { result.items ≡ [] }
    {
        Records {
            first: None,
            more: Vec::new(alloc),
        }
    }

    // How many there are.
    pub(crate) fn len(&self) -> usize
        ensures { result ≡ length self.now.items }
    {
        match self.first {
            None => 0,
            Some(_) => 1 + self.more.len(),
        }
    }

    // One by its number, from 0.
    pub(crate) fn get(&self, index: usize) -> T
        requires { index < length self.now.items }
        ensures { slice_get self.now.items index ≡ Some result }
    {
        match self.first {
            None => unreachable!(),
            Some(first) if index == 0 => first,
            Some(_) => self.more[index - 1],
        }
    }

    // Takes the memory for one more. After `OutOfMemory` nothing has changed.
    pub(crate) fn reserve(&mut self) -> Result<(), OutOfMemory>
        ensures items { self.new.items ≡ self.old.items }
        ensures room { OnOk result (0 < self.new.room) }
        ensures takes_no_memory { self.old.items ≡ [] → IsOk result }
    {
        if self.first.is_none() {
            return Ok(());
        }
        self.more.reserve(1)?;
        Ok(())
    }

    // Adds one behind the others: there is room for it.
    pub(crate) fn push_reserved(&mut self, said: T)
        requires { 0 < self.old.room }
        ensures { self.new.items ≡ self.old.items ++ said ∷ [] }
    {
        match self.first {
            None => self.first = Some(said),
            Some(_) => self.more.push_reserved(said),
        }
    }

    // All are forgotten. No memory is given back.
    pub(crate) fn clear(&mut self)
        ensures { self.new.items ≡ [] }
    {
        self.first = None;
        self.more.clear();
    }
}

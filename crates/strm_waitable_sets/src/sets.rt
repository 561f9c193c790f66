//! The waitable sets of one guest.
//!
//! Meaning: `Sets.antt`. Source: Component Model, `WaitableSet`, and `canon waitable-set.{new,drop}`
//! and `canon waitable.join`; wasmtime, `WaitableSet` of `concurrent.rs`. Ours: the least number
//! that no set has, and the least member that is ready.

ghost use Rattle.std.specs.Prelude.{◌≡◌, ℕ, ◌<◌, true, false, IfSome, IfNone, IfOk, OnOk, OnErr};
ghost use Rattle.strm_waitable_sets.specs.Sets.{no_sets, is_set_there, is_member, set_of, least_free, with_new_set, handle_joined, handle_left, without_set, HasMember, HasNoMember, IsLeastReady, NoneReady, AreSetsKept};

use crate::homes::{home_at, is_home, least_ready, make_place, replace_home};
use crate::slots::{Slot, add_member, first_free, has_member, place, remove_member};
use std::alloc::Global;
use std::marker::Model;
use strm_codes::counts::OutOfMemory;
use thiserror::Error;

/// A set has members, so it is not removed.
#[derive(Clone, Copy, Debug, PartialEq, Eq, Error)]
#[error("the waitable set has a member")]
pub struct SetNotEmpty;

/// The sets of a guest, by number, and the set that each handle is in.
#[derive(Drop)]
pub struct WaitableSets {
    sets: Vec<Slot>,
    // The set of each handle, by the handle.
    homes: Vec<Option<u32>>,
    // Each number below has a set.
    hint: usize,
}

impl Model for WaitableSets {
    ghost use Rattle.std.specs.Prelude.{map as map_list, is_some};
    ghost use Rattle.strm_waitable_sets.specs.Homes.{homes_from};
    ghost use Rattle.strm_waitable_sets.specs.Sets.{Sets, sets_code};
    ghost use Rattle.strm_waitable_sets.specs.Slots.{AreSlotsTied};

    ghost Value = { Sets };

    ghost coded = { sets_code };

    ghost view = { λ s. record {
      there = map_list is_some s.sets.items;
      homes = homes_from 0 s.homes.items;
    } };

    ghost invariant = { λ s. AreSlotsTied s.sets.items s.homes.items s.hint };
}

impl WaitableSets {
    /// No sets. It allocates nothing.
    pub fn new(alloc: Global) -> WaitableSets
        ensures { result ≡ no_sets }
    {
        WaitableSets {
            sets: Vec::new(alloc),
            homes: Vec::new(alloc),
            hint: 0,
        }
    }

    /// Whether a set has this number.
    pub fn is_there(&self, set: u32) -> bool
        ensures { result ≡ is_set_there self.now set }
    {
        match self.sets.get(set as usize) {
            Some(slot) => slot.is_some(),
            None => false,
        }
    }

    /// The set that a handle is in.
    pub fn set_of(&self, handle: u32) -> Option<u32>
        ensures { result ≡ set_of self.now handle }
    {
        home_at(self.homes.as_slice(), handle)
    }

    /// Whether a handle is in the set of this number.
    pub fn is_member(&self, set: u32, handle: u32) -> bool
        ensures { result ≡ is_member self.now set handle }
    {
        is_home(self.set_of(handle), set)
    }

    /// Whether the set of this number has a member.
    pub fn has_member(&self, set: u32) -> bool
        requires there { is_set_there self.now set ≡ true }
        ensures some { result ≡ true → HasMember self.now set }
        ensures none { result ≡ false → HasNoMember self.now set }
    {
        has_member(&self.sets[set as usize])
    }

    /// A set without members, of the least number that no set has. Where there is no memory, or no
    /// number of 32 bits is left, nothing changes.
    pub fn set_new(&mut self) -> Result<u32, OutOfMemory>
        ensures number { IfOk result (λ number. number ≡ least_free self.old) }
        ensures there { IfOk result (λ number. is_set_there self.new number ≡ true) }
        ensures ok { OnOk result (self.new ≡ with_new_set self.old) }
        ensures err { OnErr result (self.new ≡ self.old) }
    {
        let number = first_free(self.sets.as_slice(), self.hint);
        let Ok(answer) = u32::try_from(number) else {
            return Err(OutOfMemory);
        };
        place(&mut self.sets, number)?;
        self.hint = number + 1;
        Ok(answer)
    }

    /// Puts a handle into a set; it leaves the set that it was in. Where there is no memory, nothing
    /// changes.
    pub fn join(&mut self, handle: u32, set: u32) -> Result<(), OutOfMemory>
        requires there { is_set_there self.old set ≡ true }
        ensures ok { OnOk result (self.new ≡ handle_joined self.old handle set) }
        ensures err { OnErr result (self.new ≡ self.old) }
    {
        make_place(&mut self.homes, handle)?;
        let left = replace_home(&mut self.homes, handle, Some(set));
        remove_member(&mut self.sets, left);
        add_member(&mut self.sets, set);
        Ok(())
    }

    /// Takes a handle out of its set, if it is in one. No memory is taken.
    pub fn leave(&mut self, handle: u32)
        ensures { self.new ≡ handle_left self.old handle }
    {
        let home = replace_home(&mut self.homes, handle, None);
        remove_member(&mut self.sets, home);
    }

    /// The least member of a set that is ready. It looks at the handles up to the one that it answers, or
    /// to the greatest that ever joined a set, by rising number. No memory is taken.
    pub fn poll<F: Fn(u32) -> bool>(&self, set: u32, ready: F) -> Option<u32>
        requires there { is_set_there self.now set ≡ true }
        requires callable { F.IsAlwaysCallable ready }
        ensures some { IfSome result (IsLeastReady (F.post ready) self.now set) }
        ensures none { IfNone result (NoneReady (F.post ready) self.now set) }
    {
        least_ready(self.homes.as_slice(), set, ready)
    }

    /// Takes a set away that has no member; its number may be given again. No memory is taken.
    pub fn remove(&mut self, set: u32) -> Result<(), SetNotEmpty>
        requires there { is_set_there self.old set ≡ true }
        ensures empty { OnOk result (HasNoMember self.old set) }
        ensures not_empty { OnErr result (HasMember self.old set) }
        ensures ok { OnOk result (self.new ≡ without_set self.old set) }
        ensures err { OnErr result (self.new ≡ self.old) }
    {
        if self.has_member(set) {
            return Err(SetNotEmpty);
        }
        self.sets[set as usize] = None;
        self.hint = self.hint.min(set as usize);
        Ok(())
    }

    /// A handle is in one set at most, which is there.
    pub fn are_kept(&self)
        ensures { AreSetsKept self.now }
    {
        let _ = &self.sets;
    }
}

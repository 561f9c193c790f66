//! What is known of ends that are to be told something, kept as ends get reports and lose them: of the
//! members of sets, so that a poll asks none, and of all ends of each guest, so that no guest is asked in
//! vain. Nothing is kept until an end joins a set or somebody asks which guest is ready, which one test behind each
//! change of a stream finds out.
//!
//! Meaning: `Telling.antt` and `ReadyGuests.antt`. Source: Component Model, `Waitable.has_pending_event`. Ours: that it
//! is kept. No memory is taken but where a handle joins a set, ends are counted first, or a guest or a stream is added
//! then.

ghost use Rattle.std.specs.Prelude.{◌≡◌, ◌≢◌, ℕ, Bool, true, false, ◌+◌, ◌<◌, ◌≤◌, [], length, replicate, slice_index_or, IfSome, IfNone, IfOk, OnOk, OnErr};
ghost use Rattle.std.specs.Option.{option_map};
ghost use Rattle.strm_waitable_sets.specs.Ready.{known};
ghost use Rattle.strm_channels.specs.Guests.{guests_of};
ghost use Rattle.strm_transmit.specs.Telling.{SaysOf, Leaves};
ghost use Rattle.strm_transmit.specs.ReadyGuests.{KnowsNothing, SameCounts, Retold, MayAdd, Added, new_entry, AreReadyCounted, AreSettled, AreWithin, IsNextCounted, HasNoneCounted};

use crate::ready_counts::ReadyCounts;
use crate::telling::{join, leave, retell};
use std::alloc::{AllocError, Global};
use std::marker::Model;
use strm_channels::channels::Channel;
use strm_channels::guests::Guest;
use strm_waitable_sets::ready::{ReadyMembers, ReadySets};

/// What is known of ends that are to be told something.
#[derive(Drop)]
pub(crate) struct Readiness {
    // Whether anything is.
    is_kept: bool,
    // Whether ends are counted: from when somebody asked first.
    is_counting: bool,
    // Of each guest's sets, which members are ready.
    sets: Vec<ReadySets>,
    // How many ends of each guest there are.
    counts: ReadyCounts,
}

impl Model for Readiness {
    ghost use Rattle.std.specs.Prelude.{◌≡◌, false};
    ghost use Rattle.strm_transmit.specs.ReadyGuests.{Known, KnowsNothing};

    ghost Value = { Known };

    ghost view = { λ r. record {
      sets = r.sets.items;
      is_counting = r.is_counting;
      counts = r.counts;
    } };

    ghost invariant = { λ r. r.is_kept ≡ false → KnowsNothing (record {
      sets = r.sets.items;
      is_counting = r.is_counting;
      counts = r.counts;
    }) };
}

// So many streams, of which none was counted, for so many guests.
fn new_counts(guests: usize, streams: usize, alloc: Global) -> Result<ReadyCounts, AllocError>
    requires { streams ≤ 4294967295 }
    ensures guests { IfOk result (λ counts. counts.guests ≡ guests) }
    ensures streams { IfOk result (λ counts. counts.streams ≡ replicate streams new_entry) }
{
    let mut counts = ReadyCounts::with_room(guests, streams, alloc)?;
    for _ in 0..streams {
        counts.add();
    }
    Ok(counts)
}

impl Readiness {
    /// Nothing is known. It takes no memory.
    pub(crate) fn new(alloc: Global) -> Readiness
        ensures { KnowsNothing result }
    {
        Readiness {
            is_kept: false,
            is_counting: false,
            sets: Vec::new(alloc),
            counts: ReadyCounts::new(alloc),
        }
    }

    /// A guest more, which has no end.
    pub(crate) fn add_guest(&mut self) -> Result<(), AllocError>
        ensures sets { self.new.sets ≡ self.old.sets }
        ensures counting { self.new.is_counting ≡ self.old.is_counting }
        ensures streams { self.new.counts.streams ≡ self.old.counts.streams }
        ensures ok { OnOk result (self.old.is_counting ≡ true
            → self.new.counts.guests ≡ self.old.counts.guests + 1) }
        ensures err { OnErr result (self.new ≡ self.old) }
    {
        if !self.is_counting {
            return Ok(());
        }
        self.counts.add_guest()
    }

    /// Room for a stream more.
    #[inline(always)]
    pub(crate) fn reserve(&mut self) -> Result<(), AllocError>
        ensures ok { OnOk result (self.old.is_counting ≡ true
            → length self.new.counts.streams < self.new.counts.room) }
        ensures sets { self.new.sets ≡ self.old.sets }
        ensures counts { SameCounts self.old self.new }
    {
        if !self.is_counting {
            return Ok(());
        }
        self.counts.reserve()
    }

    /// A handle of a guest leaves the set that it is in, if it is in one. It takes no memory.
    #[inline(always)]
    pub(crate) fn leave(&mut self, guest: usize, home: Option<u32>, handle: u32)
        ensures leaves { Leaves guest handle home self.old.sets self.new.sets }
        ensures counts { SameCounts self.old self.new }
    {
        if self.is_kept {
            leave(&mut self.sets, guest, home, handle);
        }
    }

    /// A handle of a guest joined a set, which had no member before or had some, and is ready or not.
    /// Where there is no memory, the ready members of the set are not known any more.
    pub(crate) fn join(
        &mut self,
        guest: usize,
        set: u32,
        is_empty: bool,
        handle: u32,
        is_ready: bool,
        alloc: Global,
    )
        ensures told { SaysOf self.new.sets guest set handle is_ready }
        ensures others { (g number other : ℕ) (b : Bool) → SaysOf self.old.sets g number other b
            → (g ≡ guest → number ≡ set → other ≢ handle)
            → (g ≡ guest → number ≡ set → is_empty ≡ true → b ≡ false)
            → SaysOf self.new.sets g number other b }
        ensures counts { SameCounts self.old self.new }
    {
        self.is_kept = true;
        let ready = &mut self.sets;
        join(ready, guest, set, is_empty, handle, is_ready, alloc);
    }

    /// The ready members of a guest's set, where they are known.
    #[inline(always)]
    pub(crate) fn known(&self, guest: u32, number: u32) -> Option<&ReadyMembers>
        ensures { option_map (λ members. members.now) result
            ≡ known (slice_index_or self.now.sets guest []) number }
    {
        if guest as usize >= self.sets.len() {
            return None;
        }
        self.sets[guest as usize].known(number)
    }

    /// What is known of the ends of a stream is as it is now. It takes no memory.
    #[inline(always)]
    pub(crate) fn retell(&mut self, guests: &Vec<Guest>, number: u32, stream: &Channel)
        ensures { Retold (guests_of guests.now.items) number stream.now self.old self.new }
    {
        if self.is_kept {
            self.retell_kept(guests, number, stream);
        }
    }

    // The same where anything is known, apart from the code for nothing.
    #[inline(never)]
    fn retell_kept(&mut self, guests: &Vec<Guest>, number: u32, stream: &Channel)
        ensures { Retold (guests_of guests.now.items) number stream.now self.old self.new }
    {
        self.is_kept = true;
        if self.is_counting {
            self.counts.list(number);
        }
        retell(&mut self.sets, guests, stream);
    }

    /// The same of a stream more, behind the last. Room was made.
    #[inline(always)]
    pub(crate) fn add_stream(&mut self, guests: &Vec<Guest>, stream: &Channel)
        requires { MayAdd self.old }
        ensures { Added (guests_of guests.now.items) stream.now self.old self.new }
    {
        if self.is_kept {
            self.add_kept(guests, stream);
        }
    }

    // The same where anything is known, apart from the code for nothing.
    #[inline(never)]
    fn add_kept(&mut self, guests: &Vec<Guest>, stream: &Channel)
        requires { MayAdd self.old }
        ensures { Added (guests_of guests.now.items) stream.now self.old self.new }
    {
        self.is_kept = true;
        if self.is_counting {
            self.counts.add();
        }
        retell(&mut self.sets, guests, stream);
    }

    /// Ends are counted from now on, and all streams that changed are counted again. Where there is no memory for
    /// the counts nothing changes.
    pub(crate) fn count(
        &mut self,
        guests: &Vec<Guest>,
        streams: &Vec<Channel>,
        alloc: Global,
    ) -> Result<(), AllocError>
        requires few { length streams.now.items ≤ 4294967295 }
        requires counted { AreReadyCounted (guests_of guests.now.items) streams.now.items self.old }
        requires within { AreWithin (length guests.now.items) streams.now.items }
        ensures sets { self.new.sets ≡ self.old.sets }
        ensures counting { OnOk result (self.new.is_counting ≡ true) }
        ensures counted { AreReadyCounted (guests_of guests.now.items) streams.now.items self.new }
        ensures settled { OnOk result (AreSettled self.new.counts.streams) }
    {
        if !self.is_counting {
            self.counts = new_counts(guests.len(), streams.len(), alloc)?;
            self.is_counting = true;
            self.is_kept = true;
        }
        self.counts.settle(streams);
        Ok(())
    }

    /// The least guest, from a number on, of which an end is counted.
    pub(crate) fn next_guest(&self, from: u32) -> Option<u32>
        requires { self.now.counts.guests ≤ 1048576 }
        ensures some { IfSome result (λ guest. IsNextCounted self.now.counts from guest) }
        ensures none { IfNone result (HasNoneCounted self.now.counts from) }
    {
        match self.counts.next(from as usize) {
            Some(guest) => Some(guest as u32),
            None => None,
        }
    }
}

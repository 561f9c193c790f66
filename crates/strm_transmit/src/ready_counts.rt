//! How many ends of each guest are to be told something, and beside that for which guests each stream was counted. A
//! stream that changes is only listed, once; those that are listed are counted again when somebody asks which guest is
//! ready. So a change of a stream reads nothing of it, neither before nor after.
//!
//! Meaning: `ReadyGuests.antt`, and `Counts.antt` of `strm_levels`. Ours. Memory is taken only where guests or room for
//! streams are added.

ghost use Rattle.std.specs.Prelude.{◌≡◌, ℕ, ◌+◌, ◌<◌, ◌≤◌, ◌++◌, ◌∷◌, [], true, length, vec_len, vec_capacity, IfSome, IfNone, IfOk, OnOk, OnErr, if◌then◌else◌};
ghost use Rattle.strm_codes.specs.OptionalNumbers.{is_number};
ghost use Rattle.strm_levels.specs.Counts.{count_at, has_any};
ghost use Rattle.strm_transmit.specs.ReadyGuests.{ready_at, ready_by, new_entry, listed_at, put_at, AreCounted, AreSettled, AreWithin, AreFew, MayPut, HasPut, IsNextCounted, HasNoneCounted};

use std::alloc::{AllocError, Global};
use std::marker::Model;
use strm_channels::channels::Channel;
use strm_levels::levels::Levels;
use strm_machine::streams::{Owner, Side};

/// The guests that the ends of a stream make ready, each by the end on a side.
#[derive(Clone, Copy)]
pub(crate) struct ReadyBy {
    writing: Option<u32>,
    reading: Option<u32>,
}

/// For which guests a stream was counted, and whether it may have changed since.
#[derive(Clone, Copy)]
pub(crate) struct Entry {
    counted: ReadyBy,
    is_listed: bool,
}

/// Of a stream that was never counted.
const NEW_ENTRY: Entry = Entry {
    counted: ReadyBy {
        writing: None,
        reading: None,
    },
    is_listed: true,
};

/// How many ends of each guest are to be told something, counted by stream.
#[derive(Drop)]
pub(crate) struct ReadyCounts {
    // How many ends of each guest there were when their streams were counted.
    guests: Levels,
    // Of each stream, for which guests it was counted.
    streams: Vec<Entry>,
    // The streams that may have changed since. There is room for all.
    listed: Vec<u32>,
}

impl Model for ReadyCounts {
    ghost use Rattle.std.specs.Prelude.{length, min, vec_capacity};
    ghost use Rattle.strm_transmit.specs.ReadyGuests.{Counted, AreSums, AreListed};

    ghost Value = { Counted };

    ghost view = { λ c. record {
      guests = length c.guests;
      streams = c.streams.items;
      listed = length c.listed.items;
      room = min (vec_capacity c.streams) (vec_capacity c.listed);
    } };

    ghost invariant = { λ c. record {
      sums : AreSums c.guests c.streams.items;
      listed : AreListed c.streams.items c.listed.items (vec_capacity c.listed);
    } };
}

// The guest that the end on a side of a stream makes ready.
#[inline(always)]
fn ready_at(stream: &Channel, side: Side) -> Option<u32>
    ensures { result ≡ ready_at side stream.now }
{
    if stream.report(side).is_none() {
        return None;
    }
    match stream.owner(side) {
        Owner::Held { guest, .. } => Some(guest),
        _ => None,
    }
}

// The guests that the ends of a stream make ready.
#[inline(always)]
fn ready_by(stream: &Channel) -> ReadyBy
    ensures { result ≡ ready_by stream.now }
{
    ReadyBy {
        writing: ready_at(stream, Side::Writing),
        reading: ready_at(stream, Side::Reading),
    }
}

// An end made a guest ready, or none, and does not any more.
#[inline(always)]
fn lower_for(counts: &mut Levels, was: Option<u32>)
    requires { (g : ℕ) → g < length counts.old → is_number was g ≡ true
        → has_any counts.old g ≡ true }
    ensures all { length counts.new ≡ length counts.old }
    ensures counts { (g : ℕ) → g < length counts.old →
        count_at counts.new g + (if is_number was g then 1 else 0) ≡ count_at counts.old g }
{
    let Some(guest) = was else {
        return;
    };
    counts.lower(guest as usize);
}

// An end makes a guest ready, or none.
#[inline(always)]
fn raise_for(counts: &mut Levels, is: Option<u32>)
    requires { AreFew counts.old }
    ensures all { length counts.new ≡ length counts.old }
    ensures counts { (g : ℕ) → g < length counts.old →
        count_at counts.new g ≡ count_at counts.old g + (if is_number is g then 1 else 0) }
{
    let Some(guest) = is else {
        return;
    };
    counts.raise(guest as usize);
}

// An end made one guest ready, or none, and makes another ready, or none.
#[inline(always)]
fn recount_end(counts: &mut Levels, was: Option<u32>, is: Option<u32>)
    requires counted { (g : ℕ) → g < length counts.old → is_number was g ≡ true
        → has_any counts.old g ≡ true }
    requires few { AreFew counts.old }
    ensures all { length counts.new ≡ length counts.old }
    ensures counts { (g : ℕ) → g < length counts.old →
        count_at counts.new g + (if is_number was g then 1 else 0)
        ≡ count_at counts.old g + (if is_number is g then 1 else 0) }
{
    if was == is {
        return;
    }
    lower_for(counts, was);
    raise_for(counts, is);
}

// A stream is counted as its ends are now, in place of what they were.
fn put(counts: &mut Levels, entries: &mut Vec<Entry>, number: usize, stream: &Channel)
    requires { MayPut counts.old entries.old.items number }
    ensures entries { entries.new.items ≡ put_at entries.old.items number stream.now }
    ensures len { vec_len entries.new ≡ vec_len entries.old }
    ensures capacity { vec_capacity entries.new ≡ vec_capacity entries.old }
    ensures counts { HasPut entries.old.items number stream.now counts.old counts.new }
{
    let was = entries[number].counted;
    let is = ready_by(stream);
    recount_end(counts, was.writing, is.writing);
    recount_end(counts, was.reading, is.reading);
    entries[number] = Entry {
        counted: is,
        is_listed: false,
    };
}

// So many numbers, of which none has any.
fn no_counts(guests: usize, alloc: Global) -> Result<Levels, AllocError>
    ensures all { IfOk result (λ counts. length counts ≡ guests) }
    ensures none { IfOk result (λ counts. (g : ℕ) → count_at counts g ≡ 0) }
{
    let mut counts = Levels::new(alloc);
    for _ in 0..guests {
        counts.push()?;
    }
    Ok(counts)
}

impl ReadyCounts {
    /// Of no guests and no streams. It takes no memory.
    pub(crate) fn new(alloc: Global) -> ReadyCounts
        ensures guests { result.guests ≡ 0 }
        ensures streams { result.streams ≡ [] }
    {
        ReadyCounts {
            guests: Levels::new(alloc),
            streams: Vec::new(alloc),
            listed: Vec::new(alloc),
        }
    }

    /// Of so many guests, and no streams, with room for so many.
    pub(crate) fn with_room(
        guests: usize,
        streams: usize,
        alloc: Global,
    ) -> Result<ReadyCounts, AllocError>
        ensures guests { IfOk result (λ counts. counts.guests ≡ guests) }
        ensures streams { IfOk result (λ counts. counts.streams ≡ []) }
        ensures room { IfOk result (λ counts. streams ≤ counts.room) }
    {
        let guests = no_counts(guests, alloc)?;
        let mut entries = Vec::new(alloc);
        entries.reserve(streams)?;
        let mut listed = Vec::new(alloc);
        listed.reserve(streams)?;
        Ok(ReadyCounts {
            guests,
            streams: entries,
            listed,
        })
    }

    /// A guest more, for which no stream was counted.
    pub(crate) fn add_guest(&mut self) -> Result<(), AllocError>
        ensures ok { OnOk result (self.new ≡ record self.old { guests = self.old.guests + 1 }) }
        ensures err { OnErr result (self.new ≡ self.old) }
    {
        self.guests.push()
    }

    /// Room for a stream more.
    pub(crate) fn reserve(&mut self) -> Result<(), AllocError>
        ensures ok { OnOk result (length self.new.streams < self.new.room) }
        ensures same { self.new ≡ record self.old { room = self.new.room } }
    {
        let all = self.streams.len() + 1;
        self.streams.reserve(1)?;
        self.listed.reserve(all - self.listed.len())
    }

    /// A stream more, which was counted for no guest, and is listed.
    pub(crate) fn add(&mut self)
        requires few { length self.old.streams < 4294967295 }
        requires room { length self.old.streams < self.old.room }
        ensures guests { self.new.guests ≡ self.old.guests }
        ensures streams { self.new.streams ≡ self.old.streams ++ new_entry ∷ [] }
        ensures room { self.new.room ≡ self.old.room }
    {
        let number = self.streams.len() as u32;
        self.streams.push_reserved(NEW_ENTRY);
        self.listed.push_reserved(number);
    }

    /// A stream has changed. Of one that is not there nothing does.
    #[inline(always)]
    pub(crate) fn list(&mut self, number: u32)
        ensures guests { self.new.guests ≡ self.old.guests }
        ensures streams { self.new.streams ≡ listed_at self.old.streams number }
        ensures room { self.new.room ≡ self.old.room }
    {
        if number as usize >= self.streams.len() {
            return;
        }
        let entry = &mut self.streams[number as usize];
        if !entry.is_listed {
            entry.is_listed = true;
            self.listed.push_reserved(number);
        }
    }

    // The last that is listed is counted again.
    fn settle_last(&mut self, streams: &Vec<Channel>)
        requires some { 0 < self.old.listed }
        requires counted { AreCounted streams.now.items self.old.streams }
        requires within { AreWithin self.old.guests streams.now.items }
        ensures less { self.new.listed + 1 ≡ self.old.listed }
        ensures guests { self.new.guests ≡ self.old.guests }
        ensures counted { AreCounted streams.now.items self.new.streams }
    {
        let number = self.listed.take_last() as usize;
        if number < self.streams.len() {
            put(
                &mut self.guests,
                &mut self.streams,
                number,
                &streams[number],
            );
        }
    }

    // Where none is listed, each stream is counted as its ends are.
    fn none_listed(&self)
        ensures { self.now.listed ≡ 0 → AreSettled self.now.streams }
    {
        let _ = &self.listed;
    }

    /// All that are listed are counted again.
    pub(crate) fn settle(&mut self, streams: &Vec<Channel>)
        requires counted { AreCounted streams.now.items self.old.streams }
        requires within { AreWithin self.old.guests streams.now.items }
        ensures guests { self.new.guests ≡ self.old.guests }
        ensures counted { AreCounted streams.now.items self.new.streams }
        ensures settled { AreSettled self.new.streams }
    {
        for _ in 0..self.listed.len() {
            self.settle_last(streams);
        }
        self.none_listed();
    }

    /// The least guest, from a number on, that a stream was counted for.
    pub(crate) fn next(&self, from: usize) -> Option<usize>
        ensures some { IfSome result (λ guest. IsNextCounted self.now from guest) }
        ensures none { IfNone result (HasNoneCounted self.now from) }
    {
        self.guests.next(from)
    }
}

//! Entries that come and go in a handle table, and how many it has of a kind that is bounded by itself.
//!
//! Ours.

ghost use Rattle.std.specs.Prelude.{◌≡◌, ◌+◌, ◌≤◌, Some, IsSome};
ghost use Rattle.strm_handles.specs.Handles.{entry_at, removed, with_entry, occupied};
ghost use Rattle.strm_handles.specs.Changes.{Inserts};
ghost use Rattle.strm_handles.specs.Counters.{uncounted};
ghost use Rattle.strm_handles.specs.Kinds.{end_in, ends_held, context_in, contexts_held};

use crate::counters::HandleCounter;
use crate::entries::Entry;
use crate::errors::HandleError;
use crate::tables::HandleTable;

// What an entry counts as an end.
#[inline(always)]
fn end_in(entry: &Entry) -> u32
    ensures exact { result ≡ end_in (Some entry.now) }
    ensures most { result ≤ 1 }
{
    match entry {
        Entry::Stream(_) | Entry::Future(_) => 1,
        _ => 0,
    }
}

// What it counts as an error context.
#[inline(always)]
fn context_in(entry: &Entry) -> u32
    ensures exact { result ≡ context_in (Some entry.now) }
    ensures most { result ≤ 1 }
{
    match entry {
        Entry::ErrorContext { .. } => 1,
        _ => 0,
    }
}

impl HandleTable {
    /// How many numbers stand for ends of streams and futures. It looks at none of them.
    pub fn ends(&self) -> u32
        ensures { result ≡ ends_held self.now.handles }
    {
        self.ends
    }

    /// How many numbers stand for error contexts. It looks at none of them.
    pub fn contexts(&self) -> u32
        ensures { result ≡ contexts_held self.now.handles }
    {
        self.contexts
    }

    // What a number that stands for something counts, as an end and as an error context.
    #[inline(always)]
    fn parts(&self, number: u32) -> (u32, u32)
        ensures ends { result.0 ≡ end_in (entry_at self.now.handles number) }
        ensures contexts { result.1 ≡ context_in (entry_at self.now.handles number) }
    {
        match self.slots.get(number) {
            Some(entry) => (end_in(entry), context_in(entry)),
            None => (0, 0),
        }
    }

    // Adds an entry, and counts it.
    #[inline(always)]
    pub(crate) fn insert(
        &mut self,
        counter: &mut HandleCounter,
        entry: Entry,
    ) -> Result<u32, HandleError>
        ensures { Inserts self.old self.new counter.old counter.new entry result }
    {
        self.slots.sound();
        let (ends, contexts) = (end_in(&entry), context_in(&entry));
        let number = self.slots.insert(counter, entry)?;
        self.ends += ends;
        self.contexts += contexts;
        Ok(number)
    }

    // Frees a number, which is given first from now on.
    #[inline(always)]
    pub(crate) fn remove(&mut self, counter: &mut HandleCounter, number: u32)
        requires here { IsSome (entry_at self.old.handles number) }
        requires live { occupied self.old.handles ≤ counter.old.live }
        ensures handles { self.new.handles ≡ removed self.old.handles number }
        ensures room { self.new.room ≡ self.old.room + 1 }
        ensures live { counter.new ≡ uncounted counter.old }
    {
        let (ends, contexts) = self.parts(number);
        self.slots.remove(counter, number);
        self.ends -= ends;
        self.contexts -= contexts;
    }

    // Puts another entry, which counts the same, in a number's place.
    #[inline(always)]
    pub(crate) fn change(&mut self, number: u32, entry: Entry)
        requires here { IsSome (entry_at self.old.handles number) }
        requires end { end_in (Some entry) ≡ end_in (entry_at self.old.handles number) }
        requires context { context_in (Some entry) ≡ context_in (entry_at self.old.handles number) }
        ensures handles { self.new.handles ≡ with_entry self.old.handles number entry }
        ensures room { self.new.room ≡ self.old.room }
    {
        self.slots.change(number, entry);
    }
}

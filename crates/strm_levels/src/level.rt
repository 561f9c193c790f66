//! One level of words: the counts, or words each bit of which tells of a place of the level below whether it has any.
//!
//! Meaning: `Counts.antt` and `Marks.antt`. Ours.

ghost use Rattle.std.specs.Prelude.{◌≡◌, ℕ, ◌+◌, ◌*◌, ◌/◌, ◌<◌, ◌≤◌, ◌++◌, ◌∷◌, [], true, false, length, IfSome, IfNone, IfOk, OnOk, OnErr};
ghost use Rattle.strm_levels.specs.Counts.{count_at, has_any, raised, lowered, IsNext, HasNoneFrom};
ghost use Rattle.strm_levels.specs.Marks.{width, is_marked, HasNoMark, IsNextMark, IsFirstMark, Marks};

use crate::bits::{lowest_from, with_bit};
use std::alloc::{AllocError, Global};
use std::marker::Model;

/// Of how many places a word tells.
pub(crate) const WIDTH: usize = 64;

/// The words of a level.
#[derive(Drop)]
pub(crate) struct Level {
    words: Vec<u64>,
}

impl Model for Level {
    ghost use Rattle.std.specs.Prelude.{ℕ, List};

    ghost Value = { List ℕ };

    ghost view = { λ l. l.words.items };
}

// The least place, from one on, that has any. All behind it may be looked at.
fn next_of(words: &[u64], from: usize) -> Option<usize>
    ensures some { IfSome result (λ place. IsNext words.now from place) }
    ensures none { IfNone result (HasNoneFrom words.now from) }
{
    for place in from..words.len() {
        if words[place] > 0 {
            return Some(place);
        }
    }
    None
}

impl Level {
    // Of no places. It takes no memory.
    pub(crate) fn new(alloc: Global) -> Level
        ensures { result ≡ [] }
    {
        Level {
            words: Vec::new(alloc),
        }
    }

    // Words that tell of so many places, and of one more, that they have none.
    pub(crate) fn for_places(places: usize, alloc: Global) -> Result<Level, AllocError>
        ensures room { IfOk result (λ level. places < width * length level) }
        ensures none { IfOk result (λ level. (word : ℕ) → count_at level word ≡ 0) }
    {
        let mut level = Level::new(alloc);
        while level.len() <= places / WIDTH {
            level.push()?;
        }
        Ok(level)
    }

    #[inline(always)]
    pub(crate) fn len(&self) -> usize
        ensures { result ≡ length self.now }
    {
        self.words.len()
    }

    // A place more, which has none.
    pub(crate) fn push(&mut self) -> Result<(), AllocError>
        ensures ok { OnOk result (self.new ≡ self.old ++ 0 ∷ []) }
        ensures err { OnErr result (self.new ≡ self.old) }
    {
        self.words.push(0)?;
        Ok(())
    }

    // Whether a place has any.
    #[inline(always)]
    pub(crate) fn has_any(&self, place: usize) -> bool
        requires { place < length self.now }
        ensures { result ≡ has_any self.now place }
    {
        self.words[place] > 0
    }

    // A count is one more: whether it was 0.
    #[inline(always)]
    pub(crate) fn raise(&mut self, place: usize) -> bool
        requires few { count_at self.old place < 18446744073709551615 }
        ensures raised { self.new ≡ raised self.old place }
        ensures there { result ≡ true → place < length self.old }
        ensures same { result ≡ false → has_any self.new place ≡ has_any self.old place }
    {
        if place >= self.words.len() {
            return false;
        }
        let count = self.words[place];
        self.words[place] = count + 1;
        count == 0
    }

    // A count is one less: whether it is 0.
    #[inline(always)]
    pub(crate) fn lower(&mut self, place: usize) -> bool
        requires any { place < length self.old → has_any self.old place ≡ true }
        ensures lowered { self.new ≡ lowered self.old place }
        ensures there { result ≡ true → place < length self.old }
        ensures same { result ≡ false → has_any self.new place ≡ has_any self.old place }
    {
        if place >= self.words.len() {
            return false;
        }
        let left = self.words[place] - 1;
        self.words[place] = left;
        left == 0
    }

    // A place is marked, or it is not any more: whether the word that tells of it was 0 and is not, or is and was
    // not.
    #[inline(always)]
    pub(crate) fn mark(&mut self, place: usize, any: bool) -> bool
        requires { place < width * length self.old }
        ensures marks { Marks self.old self.new place any }
        ensures same { result ≡ false
            → has_any self.new (place / width) ≡ has_any self.old (place / width) }
    {
        let was = self.words[place / WIDTH];
        let is = with_bit(was, place % WIDTH, any);
        self.words[place / WIDTH] = is;
        if was > 0 { is == 0 } else { is > 0 }
    }

    // The least place, from one on, that the word marks which tells of that one.
    #[inline(always)]
    pub(crate) fn next_mark(&self, from: usize) -> Option<usize>
        requires { from < width * length self.now }
        ensures some { IfSome result (λ place. IsNextMark self.now from place) }
        ensures none { IfNone result (HasNoMark self.now from (width * (from / width + 1))) }
    {
        match lowest_from(self.words[from / WIDTH], from % WIDTH) {
            Some(bit) => Some(WIDTH * (from / WIDTH) + bit),
            None => None,
        }
    }

    // The bit of the least place that a word marks.
    #[inline(always)]
    pub(crate) fn first_mark(&self, word: usize) -> usize
        requires { has_any self.now word ≡ true }
        ensures { IsFirstMark self.now word result }
    {
        self.words[word].trailing_zeros() as usize
    }

    // The least place, from one on, that has any. All behind it may be looked at.
    pub(crate) fn next(&self, from: usize) -> Option<usize>
        ensures some { IfSome result (λ place. IsNext self.now from place) }
        ensures none { IfNone result (HasNoneFrom self.now from) }
    {
        next_of(self.words.as_slice(), from)
    }
}

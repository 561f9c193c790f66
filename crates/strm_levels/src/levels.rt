//! Counts, and above them levels of words whose bits tell which have any: of each level at most two words are
//! looked at to find the next number that has any, and of the highest at most 64; 1,048,576 numbers have four. A
//! change of a count changes a level above only where a word becomes 0 or was it. Neither takes memory: room is
//! made where a number is added.
//!
//! Meaning: `Counts.antt` and `Marks.antt`. Source: the summaries of a van Emde Boas tree, with words of 64 bits.

ghost use Rattle.std.specs.Prelude.{◌≡◌, ℕ, ◌+◌, ◌*◌, ◌<◌, ◌≤◌, ◌++◌, ◌∷◌, [], true, length, IfSome, IfNone, IfOk, OnOk, OnErr};
ghost use Rattle.strm_levels.specs.Counts.{count_at, has_any, raised, lowered, IsNext, HasNoneFrom};
ghost use Rattle.strm_levels.specs.Marks.{width, is_marked, level_at, IsOver, AreOver, AreOverBut, HasRoom};

use crate::level::{Level, WIDTH};
use std::alloc::{AllocError, Global};
use std::marker::Model;

/// How many of something each number has, from 0 on.
#[derive(Drop)]
pub struct Levels {
    // The lowest are the counts; there is one always but before the first number.
    levels: Vec<Level>,
    alloc: Global,
}

impl Model for Levels {
    ghost use Rattle.std.specs.Prelude.{ℕ, List};
    ghost use Rattle.strm_levels.specs.Marks.{level_at, AreOver};

    ghost Value = { List ℕ };

    ghost view = { λ l. level_at l.levels.items 0 };

    ghost invariant = { λ l. AreOver l.levels.items };
}

// A count is not 0 any more, or is 0 from now on: the levels above tell so.
#[inline(never)]
fn tell_above(levels: &mut Vec<Level>, number: usize)
    requires there { number < length (level_at levels.old.items 0) }
    requires over { AreOverBut levels.old.items 0 number }
    ensures over { AreOver levels.new.items }
    ensures lowest { level_at levels.new.items 0 ≡ level_at levels.old.items 0 }
{
    let (mut level, mut place) = (0, number);
    while level + 1 < levels.len() {
        let any = levels[level].has_any(place);
        if !levels[level + 1].mark(place, any) {
            return;
        }
        place /= WIDTH;
        level += 1;
    }
}

// The words of a level tell of all places of another.
fn mark_all(low: &Level, high: &mut Level)
    requires room { length low.now < width * length high.old }
    requires none { (word : ℕ) → count_at high.old word ≡ 0 }
    ensures over { IsOver low.now high.new }
    ensures all { length high.new ≡ length high.old }
{
    for place in 0..low.len() {
        let any = low.has_any(place);
        let _ = high.mark(place, any);
    }
}

// A level over another, with room for a place more of that.
fn level_over(low: &Level, alloc: Global) -> Result<Level, AllocError>
    ensures over { IfOk result (λ high. IsOver low.now high) }
    ensures room { IfOk result (λ high. length low.now < width * length high) }
{
    let mut high = Level::for_places(low.len(), alloc)?;
    mark_all(low, &mut high);
    Ok(high)
}

// Where the highest level has as many places as a word tells of, there is one above it, with room for one more.
fn make_top(levels: &mut Vec<Level>, highest: usize, alloc: Global) -> Result<(), AllocError>
    requires highest { length levels.old.items ≡ highest + 1 }
    requires over { AreOver levels.old.items }
    ensures over { AreOver levels.new.items }
    ensures below { (k : ℕ) → k ≤ highest
        → level_at levels.new.items k ≡ level_at levels.old.items k }
    ensures more { length levels.old.items ≤ length levels.new.items }
    ensures room { OnOk result (HasRoom levels.new.items highest) }
{
    if levels[highest].len() < WIDTH {
        return Ok(());
    }
    let above = level_over(&levels[highest], alloc)?;
    levels.push(above)?;
    Ok(())
}

// The level above one has room for a place more of it, and so have those above that. Where there is no memory, it
// and all below it are as they were.
fn make_room(levels: &mut Vec<Level>, level: usize, alloc: Global) -> Result<(), AllocError>
    requires there { level < length levels.old.items }
    requires over { AreOver levels.old.items }
    ensures over { AreOver levels.new.items }
    ensures below { (k : ℕ) → k ≤ level → level_at levels.new.items k ≡ level_at levels.old.items k }
    ensures more { length levels.old.items ≤ length levels.new.items }
    ensures room { OnOk result (HasRoom levels.new.items level) }
{
    if level + 1 == levels.len() {
        return make_top(levels, level, alloc);
    }
    if levels[level].len() / WIDTH < levels[level + 1].len() {
        return Ok(());
    }
    make_room(levels, level + 1, alloc)?;
    levels[level + 1].push()
}

// There is a lowest level.
fn make_lowest(levels: &mut Vec<Level>, alloc: Global) -> Result<(), AllocError>
    requires { AreOver levels.old.items }
    ensures over { AreOver levels.new.items }
    ensures same { level_at levels.new.items 0 ≡ level_at levels.old.items 0 }
    ensures there { OnOk result (0 < length levels.new.items) }
{
    if levels.is_empty() {
        levels.push(Level::new(alloc))?;
    }
    Ok(())
}

// The least place of a level, from one on, that has any: one of the places that the same word above marks, or the
// first that the next word marks there that marks any.
fn next_at(levels: &[Level], level: usize, from: usize) -> Option<usize>
    requires there { level < length levels.now }
    requires over { AreOver levels.now }
    ensures some { IfSome result (λ place. IsNext (level_at levels.now level) from place) }
    ensures none { IfNone result (HasNoneFrom (level_at levels.now level) from) }
{
    if level + 1 == levels.len() {
        return levels[level].next(from);
    }
    if from >= levels[level].len() {
        return None;
    }
    if let Some(place) = levels[level + 1].next_mark(from) {
        return Some(place);
    }
    match next_at(levels, level + 1, from / WIDTH + 1) {
        Some(word) => {
            let bit = levels[level + 1].first_mark(word);
            Some(WIDTH * word + bit)
        }
        None => None,
    }
}

impl Levels {
    /// Of no numbers. It takes no memory.
    pub fn new(alloc: Global) -> Levels
        ensures { result ≡ [] }
    {
        Levels {
            levels: Vec::new(alloc),
            alloc,
        }
    }

    /// Whether no number was ever added.
    #[inline(always)]
    pub fn is_new(&self) -> bool
        ensures { result ≡ true → self.now ≡ [] }
    {
        self.levels.is_empty()
    }

    /// How many numbers there are.
    #[inline(always)]
    pub fn len(&self) -> usize
        ensures { result ≡ length self.now }
    {
        if self.levels.is_empty() {
            return 0;
        }
        self.levels[0].len()
    }

    /// A number more, behind the last, that has none. After running out of memory all counts are as they were.
    pub fn push(&mut self) -> Result<(), AllocError>
        ensures ok { OnOk result (self.new ≡ self.old ++ 0 ∷ []) }
        ensures err { OnErr result (self.new ≡ self.old) }
    {
        make_lowest(&mut self.levels, self.alloc)?;
        make_room(&mut self.levels, 0, self.alloc)?;
        self.levels[0].push()
    }

    /// A number has one more. Of a number that is not there nothing changes. It takes no memory.
    #[inline(always)]
    pub fn raise(&mut self, number: usize)
        requires few { count_at self.old number < 18446744073709551615 }
        ensures { self.new ≡ raised self.old number }
    {
        if self.levels.is_empty() {
            return;
        }
        if self.levels[0].raise(number) {
            tell_above(&mut self.levels, number);
        }
    }

    /// A number has one less. Of a number that is not there nothing changes. It takes no memory.
    #[inline(always)]
    pub fn lower(&mut self, number: usize)
        requires any { number < length self.old → has_any self.old number ≡ true }
        ensures { self.new ≡ lowered self.old number }
    {
        if self.levels.is_empty() {
            return;
        }
        if self.levels[0].lower(number) {
            tell_above(&mut self.levels, number);
        }
    }

    /// The least number, from one on, that has any.
    pub fn next(&self, from: usize) -> Option<usize>
        ensures some { IfSome result (λ number. IsNext self.now from number) }
        ensures none { IfNone result (HasNoneFrom self.now from) }
    {
        if self.levels.is_empty() {
            return None;
        }
        next_at(self.levels.as_slice(), 0, from)
    }
}

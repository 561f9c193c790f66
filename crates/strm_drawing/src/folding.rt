//! Rows that are folded as they come: rows that follow each other several times over are kept once.
//!
//! Meaning: `Folding.antt`. Ours. Which rows are folded is a choice; what they stand for is all rows, in order.

ghost use Rattle.std.specs.Prelude.{◌≡◌, ◌<◌, ◌≤◌, ◌+◌, ◌∷◌, ◌++◌, [], length, take, true, IsTrue, IfSome, IfOk, OnOk, OnErr};
ghost use Rattle.strm_drawing.specs.Folding.{rows_kept, spread_all, ComesAgain, IsFolding};

use crate::arrows::Row;
use crate::sameness::same_row;
use std::alloc::Global;
use std::mem;
use strm_codes::counts::OutOfMemory;

/// Rows that stand there so many times, one time behind the other.
#[derive(Drop)]
pub struct Block {
    pub rows: Vec<Row>,
    pub times: u32,
}

// The most rows that are folded together.
const LONGEST: usize = 24;

// How many rows are waited for before the first of them is kept.
const WINDOW: usize = 96;

// The least number of rows that a block spares to be worth it.
const LEAST_SPARED: usize = 4;

/// Rows, of which those that come again are kept once.
#[derive(Drop)]
pub(crate) struct FoldedRows {
    alloc: Global,
    // Whether any are folded.
    folds: bool,
    // The blocks before the last.
    done: Vec<Block>,
    // The last block.
    last: Block,
    // Whether the last block may stand there once more.
    repeats: bool,
    // The rows behind it.
    tail: Vec<Row>,
}

/// Adds an item at the end.
pub(crate) fn push_item<T: Copy>(items: &mut Vec<T>, item: &T) -> Result<(), OutOfMemory>
    ensures ok { OnOk result (items.new.items ≡ items.old.items ++ item.now ∷ []) }
    ensures err { OnErr result (items.new.items ≡ items.old.items) }
{
    items.reserve(1)?;
    items.push_reserved(*item);
    Ok(())
}

// How many rows in a run are the same as those `period` before them, from `period` on.
fn repeated(rows: &[Row], period: usize) -> usize
    requires { 0 < period }
    ensures { result ≤ length rows.now }
{
    for k in period..rows.len() {
        if !same_row(&rows[k], &rows[k - period]) {
            return k - period;
        }
    }
    rows.len().saturating_sub(period)
}

// How many rows are spared where the first `period` are kept once.
fn spared_by(rows: &[Row], period: usize) -> usize
    requires { 0 < period }
{
    repeated(rows, period) / period * period
}

// How many of the first rows are best kept once for all times that they follow each other; none where that
// spares too little.
fn best_period(rows: &[Row]) -> Option<usize>
    ensures { IfSome result (λ period. (0 < period) × (period ≤ length rows.now)) }
{
    let mut best = None;
    let mut most = LEAST_SPARED - 1;
    let longest = LONGEST.min(rows.len() / 2);
    for period in 1..=longest {
        let spared = spared_by(rows, period);
        if spared > most {
            most = spared;
            best = Some(period);
        }
    }
    best
}

// Rows from the front of others.
fn copied(alloc: Global, rows: &[Row]) -> Result<Vec<Row>, OutOfMemory>
    ensures { IfOk result (λ copy. copy.items ≡ rows.now) }
{
    let copy = Vec::from_slice(alloc, rows)?;
    Ok(copy)
}

// Whether rows begin with those of a block, which may stand there once more.
fn comes_again(block: &Block, rows: &[Row]) -> bool
    ensures { IsTrue result → ComesAgain block.now rows.now }
{
    let again = block.rows.as_slice();
    block.times < u32::MAX && again.len() <= rows.len() && begins_with(rows, again)
}

// Whether rows begin with others.
fn begins_with(rows: &[Row], others: &[Row]) -> bool
    requires { length others.now ≤ length rows.now }
    ensures { IsTrue result → take (length others.now) rows.now ≡ others.now }
{
    for k in 0..others.len() {
        if !same_next(rows, others, k) {
            return false;
        }
    }
    true
}

// Whether rows that begin with so many of others begin with one more of them.
fn same_next(rows: &[Row], others: &[Row], k: usize) -> bool
    requires rows { k < length rows.now }
    requires others { k < length others.now }
    ensures { IsTrue result → take k rows.now ≡ take k others.now →
        take (k + 1) rows.now ≡ take (k + 1) others.now }
{
    same_row(&rows[k], &others[k])
}

impl FoldedRows {
    /// No rows. Where they are not folded, each is kept as it comes.
    pub(crate) fn new(alloc: Global, folds: bool) -> FoldedRows
        ensures rows { rows_kept result ≡ [] }
        ensures folding { IsFolding result }
    {
        FoldedRows {
            alloc,
            folds,
            done: Vec::new(alloc),
            last: Block {
                rows: Vec::new(alloc),
                times: 1,
            },
            repeats: false,
            tail: Vec::new(alloc),
        }
    }

    /// A row more.
    pub(crate) fn push(&mut self, row: &Row) -> Result<(), OutOfMemory>
        requires { IsFolding self.old }
        ensures rows { OnOk result (rows_kept self.new ≡ rows_kept self.old ++ row.now ∷ []) }
        ensures folding { OnOk result (IsFolding self.new) }
    {
        push_item(&mut self.tail, row)?;
        if !self.folds || self.tail.len() >= WINDOW {
            self.settle()?;
        }
        Ok(())
    }

    // Some rows from the front of the tail go into a block.
    fn settle(&mut self) -> Result<(), OutOfMemory>
        requires some { 0 < length self.old.tail.items }
        requires folding { IsFolding self.old }
        ensures rows { OnOk result (rows_kept self.new ≡ rows_kept self.old) }
        ensures folding { OnOk result (IsFolding self.new) }
        ensures fewer { OnOk result (length self.new.tail.items < length self.old.tail.items) }
    {
        if self.repeats && comes_again(&self.last, self.tail.as_slice()) {
            return self.stand_again();
        }
        if self.folds {
            if let Some(period) = best_period(self.tail.as_slice()) {
                return self.begin(period, true);
            }
        }
        if self.repeats {
            self.begin(1, false)
        } else {
            self.go_on()
        }
    }

    // The last block stands there once more.
    fn stand_again(&mut self) -> Result<(), OutOfMemory>
        requires repeats { self.old.repeats ≡ true }
        requires again { ComesAgain self.old.last self.old.tail.items }
        requires some { 0 < length self.old.last.rows.items }
        ensures rows { OnOk result (rows_kept self.new ≡ rows_kept self.old) }
        ensures folding { OnOk result (IsFolding self.new) }
        ensures fewer { OnOk result (length self.new.tail.items < length self.old.tail.items) }
    {
        let again = self.last.rows.as_slice().len();
        let (_, rest) = self.tail.as_slice().split_at(again);
        let rest = copied(self.alloc, rest)?;
        self.last.times += 1;
        self.tail = rest;
        Ok(())
    }

    // So many rows of the tail begin a new block.
    fn begin(&mut self, count: usize, repeats: bool) -> Result<(), OutOfMemory>
        requires some { 0 < count }
        requires there { count ≤ length self.old.tail.items }
        ensures rows { OnOk result (rows_kept self.new ≡ rows_kept self.old) }
        ensures folding { OnOk result (IsFolding self.new) }
        ensures fewer { OnOk result (length self.new.tail.items < length self.old.tail.items) }
    {
        let (front, rest) = self.tail.as_slice().split_at(count);
        let rows = copied(self.alloc, front)?;
        let rest = copied(self.alloc, rest)?;
        self.done.reserve(1)?;
        let block = Block { rows, times: 1 };
        self.done.push_reserved(mem::replace(&mut self.last, block));
        self.tail = rest;
        self.repeats = repeats;
        Ok(())
    }

    // The first row of the tail goes into the last block, which stands there once.
    fn go_on(&mut self) -> Result<(), OutOfMemory>
        requires some { 0 < length self.old.tail.items }
        requires once { self.old.last.times ≡ 1 }
        ensures rows { OnOk result (rows_kept self.new ≡ rows_kept self.old) }
        ensures folding { OnOk result (IsFolding self.new) }
        ensures fewer { OnOk result (length self.new.tail.items < length self.old.tail.items) }
    {
        let first = self.tail[0];
        let (_, rest) = self.tail.as_slice().split_at(1);
        let rest = copied(self.alloc, rest)?;
        push_item(&mut self.last.rows, &first)?;
        self.tail = rest;
        Ok(())
    }

    /// All rows, as blocks.
    pub(crate) fn blocks(self) -> Result<Vec<Block>, OutOfMemory>
        requires { IsFolding self }
        ensures { IfOk result (λ blocks. spread_all blocks.items ≡ rows_kept self) }
    {
        let mut rows = self;
        while rows.tail.len() > 0 {
            rows.settle()?;
        }
        let FoldedRows { done, last, .. } = rows;
        let mut done = done;
        done.reserve(1)?;
        done.push_reserved(last);
        Ok(done)
    }
}

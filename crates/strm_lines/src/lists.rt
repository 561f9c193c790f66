//! Lists of what a session reads and writes, each seen as the list of its elements.
//!
//! Source: ours.

ghost use Rattle.std.specs.Prelude.{◌≡◌, ◌<◌, ◌≤◌, ◌+◌, ◌-◌, ◌∷◌, ◌++◌, [], IfOk, OnOk, OnErr, length, take, vec_len, vec_capacity};

use crate::one_by_one::{GivesSteps, KeepsReplies, TakesSteps};
use std::alloc::Global;
use std::marker::Model;
use strm_codes::counts::OutOfMemory;
use strm_machine::replies::Reply;
use strm_machine::steps::Step;

// Adds an item at the end. The room is made apart: the error of a push would have the item in it.
#[inline(always)]
fn push_item<T: Copy>(items: &mut Vec<T>, item: &T) -> Result<(), OutOfMemory>
    ensures ok { OnOk result (items.new.items ≡ items.old.items ++ item.now ∷ []) }
    ensures err { OnErr result (items.new.items ≡ items.old.items) }
{
    make_room(items)?;
    push_item_reserved(items, *item);
    Ok(())
}

// Makes room for an item more, where there is none.
#[inline(always)]
fn make_room<T>(items: &mut Vec<T>) -> Result<(), OutOfMemory>
    ensures same { items.new.items ≡ items.old.items }
    ensures ok { OnOk result (vec_len items.new < vec_capacity items.new) }
{
    if items.len() < items.capacity() {
        Ok(())
    } else {
        reserve_items(items, 1)
    }
}

// Adds an item at the end, where there is room for it.
#[inline(always)]
fn push_item_reserved<T: Copy>(items: &mut Vec<T>, item: T)
    requires { vec_len items.old < vec_capacity items.old }
    ensures { items.new.items ≡ items.old.items ++ item ∷ [] }
{
    items.push_reserved(item);
}

// Makes room for so many items more.
fn reserve_items<T>(items: &mut Vec<T>, additional: usize) -> Result<(), OutOfMemory>
    ensures same { items.new.items ≡ items.old.items }
    ensures ok { OnOk result (vec_len items.new + additional ≤ vec_capacity items.new) }
{
    items.reserve(additional)?;
    Ok(())
}

/// A list of steps.
#[derive(Drop)]
pub struct Steps {
    items: Vec<Step>,
}

impl Model for Steps {
    ghost use Rattle.std.specs.Prelude.{List};
    ghost use Rattle.strm_machine.specs.declared.steps.Step.{Step};

    ghost Value = { List Step };

    ghost view = { λ s. s.items.items };
}

impl Steps {
    /// An empty list, which takes no memory.
    pub fn new(alloc: Global) -> Steps
        ensures { result ≡ [] }
    {
        Steps {
            items: Vec::new(alloc),
        }
    }

    /// The steps that are given.
    pub fn given<L: GivesSteps>(alloc: Global, given: &mut L) -> Result<Steps, OutOfMemory>
        ensures { IfOk result (λ steps. steps ≡ L.left given.old) }
    {
        let mut steps = Steps::new(alloc);
        steps.reserve(given.len())?;
        let mut step = Step::Drive;
        for _ in 0..given.len() {
            given.put_next(&mut step);
            steps.push(step)?;
        }
        Ok(steps)
    }

    // These steps.
    pub(crate) fn from_vec(items: Vec<Step>) -> Steps
        ensures { result ≡ items.items }
    {
        Steps { items }
    }

    /// Asks at once for room for so many steps more.
    pub fn reserve(&mut self, additional: usize) -> Result<(), OutOfMemory>
        ensures { self.new ≡ self.old }
    {
        reserve_items(&mut self.items, additional)
    }

    /// Adds a step at the end.
    #[inline(always)]
    pub fn push(&mut self, item: Step) -> Result<(), OutOfMemory>
        ensures ok { OnOk result (self.new ≡ self.old ++ item ∷ []) }
        ensures err { OnErr result (self.new ≡ self.old) }
    {
        push_item(&mut self.items, &item)
    }

    /// The steps, lent.
    pub fn as_slice(&self) -> &[Step]
        ensures { result.now ≡ self.now }
    {
        &self.items
    }
}

impl TakesSteps for Vec<Step> {
    ghost steps = { λ v. v.items };

    ghost room = { λ v. vec_capacity v - vec_len v };

    fn reserve(&mut self, additional: usize) -> Result<(), OutOfMemory> {
        reserve_items(self, additional)
    }

    #[inline(always)]
    fn make_room(&mut self) -> Result<(), OutOfMemory> {
        make_room(self)
    }

    #[inline(always)]
    fn take(&mut self, step: Step) {
        push_item_reserved(self, step);
    }
}

/// The steps of a slice that were not yet given, seen as their list.
#[derive(Drop)]
pub struct StepsLeft<'a> {
    steps: &'a [Step],
}

impl<'a> Model for StepsLeft<'a> {
    ghost use Rattle.std.specs.Prelude.{List};
    ghost use Rattle.strm_machine.specs.declared.steps.Step.{Step};

    ghost Value = { List Step };

    ghost view = { λ s. s.steps.now };
}

impl StepsLeft<'_> {
    /// These steps.
    pub fn new(steps: &[Step]) -> StepsLeft<'_>
        ensures { result ≡ steps.now }
    {
        StepsLeft { steps }
    }
}

impl GivesSteps for StepsLeft<'_> {
    ghost left = { λ s. s };

    fn len(&self) -> usize {
        self.steps.len()
    }

    fn put_next(&mut self, step: &mut Step) {
        let Some((first, rest)) = self.steps.split_first() else {
            unreachable!()
        };
        self.steps = rest;
        *step = *first;
    }
}

/// A list of replies.
#[derive(Drop)]
pub struct Replies {
    items: Vec<Reply>,
}

impl Model for Replies {
    ghost use Rattle.std.specs.Prelude.{List};
    ghost use Rattle.strm_machine.specs.declared.replies.Reply.{Reply};

    ghost Value = { List Reply };

    ghost view = { λ s. s.items.items };
}

impl Replies {
    /// An empty list, which takes no memory.
    pub fn new(alloc: Global) -> Replies
        ensures { result ≡ [] }
    {
        Replies {
            items: Vec::new(alloc),
        }
    }

    /// Asks at once for room for so many replies more.
    pub fn reserve(&mut self, additional: usize) -> Result<(), OutOfMemory>
        ensures { self.new ≡ self.old }
    {
        reserve_items(&mut self.items, additional)
    }

    /// Adds a reply at the end.
    #[inline(always)]
    pub fn push(&mut self, item: Reply) -> Result<(), OutOfMemory>
        ensures ok { OnOk result (self.new ≡ self.old ++ item ∷ []) }
        ensures err { OnErr result (self.new ≡ self.old) }
    {
        push_item(&mut self.items, &item)
    }

    /// The replies, lent.
    pub fn as_slice(&self) -> &[Reply]
        ensures { result.now ≡ self.now }
    {
        &self.items
    }
}

impl KeepsReplies for Replies {
    ghost keeps = { λ replies told. replies ≡ told };

    fn keep(&mut self, reply: &Reply) -> Result<(), OutOfMemory> {
        self.push(*reply)
    }
}

/// A list of counts of items.
#[derive(Drop)]
pub struct Counts {
    items: Vec<u128>,
}

impl Model for Counts {
    ghost use Rattle.std.specs.Prelude.{ℕ, List};

    ghost Value = { List ℕ };

    ghost view = { λ s. s.items.items };
}

impl Counts {
    /// An empty list, which takes no memory.
    pub fn new(alloc: Global) -> Counts
        ensures { result ≡ [] }
    {
        Counts {
            items: Vec::new(alloc),
        }
    }

    /// Adds a count at the end.
    pub fn push(&mut self, item: u128) -> Result<(), OutOfMemory>
        ensures ok { OnOk result (self.new ≡ self.old ++ item ∷ []) }
        ensures err { OnErr result (self.new ≡ self.old) }
    {
        push_item(&mut self.items, &item)
    }

    /// The counts, lent.
    pub fn as_slice(&self) -> &[u128]
        ensures { result.now ≡ self.now }
    {
        &self.items
    }
}

/// A text, as its bytes.
#[derive(Drop)]
pub struct TextBytes {
    items: Vec<u8>,
}

impl Model for TextBytes {
    ghost use Rattle.std.specs.Prelude.{ℕ, List};

    ghost Value = { List ℕ };

    ghost view = { λ s. s.items.items };
}

impl TextBytes {
    /// An empty text, which takes no memory.
    pub fn new(alloc: Global) -> TextBytes
        ensures { result ≡ [] }
    {
        TextBytes {
            items: Vec::new(alloc),
        }
    }

    /// Asks at once for room for so many bytes more.
    pub fn reserve(&mut self, additional: usize) -> Result<(), OutOfMemory>
        ensures { self.new ≡ self.old }
    {
        reserve_items(&mut self.items, additional)
    }

    /// Adds a byte at the end.
    pub fn push(&mut self, item: u8) -> Result<(), OutOfMemory>
        ensures ok { OnOk result (self.new ≡ self.old ++ item ∷ []) }
        ensures err { OnErr result (self.new ≡ self.old) }
    {
        push_item(&mut self.items, &item)
    }

    /// Adds bytes at the end.
    pub fn push_slice(&mut self, bytes: &[u8]) -> Result<(), OutOfMemory>
        ensures ok { OnOk result (self.new ≡ self.old ++ bytes.now) }
        ensures err { OnErr result (self.new ≡ self.old) }
    {
        self.items.extend_from_slice(bytes)?;
        Ok(())
    }

    /// How many bytes there are.
    pub fn len(&self) -> usize
        ensures { result ≡ length self.now }
    {
        self.items.len()
    }

    // Leaves the first bytes alone.
    pub(crate) fn truncate(&mut self, len: usize)
        ensures { self.new ≡ take len self.old }
    {
        self.items.truncate(len);
    }

    /// The bytes, lent.
    pub fn as_slice(&self) -> &[u8]
        ensures { result.now ≡ self.now }
    {
        &self.items
    }
}

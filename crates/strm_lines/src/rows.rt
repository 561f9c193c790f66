//! Steps in rows of 32 bytes, with the bytes that they have in a list of their own.
//!
//! Meaning: `ShortSteps.antt` of `strm_machine`. Ours.

ghost use Rattle.std.specs.Prelude.{◌≡◌, ◌<◌, ◌+◌, ◌++◌, ◌∷◌, [], length, map, vec_len, vec_capacity, OnOk};
ghost use Rattle.strm_machine.specs.ShortSteps.{chunk_at, whole_step, chunks_of_step, IsStepPlaced};

use crate::one_by_one::{GivesSteps, TakesSteps};
use std::alloc::Global;
use std::marker::Model;
use strm_codes::counts::OutOfMemory;
use strm_machine::chunks::Chunk;
use strm_machine::same_step;
use strm_machine::short_steps::ShortStep;
use strm_machine::steps::Step;

// Keeps an item behind the others; its place.
#[inline(always)]
fn keep_item<T: Copy>(items: &mut Vec<T>, item: T) -> usize
    requires { vec_len items.old < vec_capacity items.old }
    ensures place { result ≡ length items.old.items }
    ensures items { items.new.items ≡ items.old.items ++ item ∷ [] }
    ensures len { vec_len items.new ≡ vec_len items.old + 1 }
    ensures capacity { vec_capacity items.new ≡ vec_capacity items.old }
{
    let place = items.len();
    items.push_reserved(item);
    place
}

// The row of a step, with its chunk behind the others.
#[inline(always)]
fn keep_step(chunks: &mut Vec<Chunk>, step: Step) -> ShortStep
    requires { vec_len chunks.old < vec_capacity chunks.old }
    ensures items { chunks.new.items ≡ chunks.old.items ++ chunks_of_step step }
    ensures whole { whole_step chunks.new.items result ≡ step }
    ensures placed { IsStepPlaced (length chunks.new.items) result }
{
    same_step!(step, Step => ShortStep,
        Step::Feed { host, bytes } => ShortStep::Feed { host, bytes: keep_item(chunks, bytes) },
        Step::Poke { guest, address, bytes } => ShortStep::Poke { guest, address, bytes: keep_item(chunks, bytes) },
    )
}

/// A list of steps, each of which takes 32 bytes, and 65 more where it has bytes.
#[derive(Drop)]
pub struct StepRows {
    rows: Vec<ShortStep>,
    chunks: Vec<Chunk>,
}

impl Model for StepRows {
    ghost use Rattle.std.specs.Prelude.{◌-◌, All, length, map, min, vec_len, vec_capacity};
    ghost use Rattle.strm_machine.specs.ShortSteps.{whole_step, IsStepPlaced};
    ghost use Rattle.strm_lines.specs.Rows.{RowList};

    ghost Value = { RowList };

    ghost view = { λ s. record {
      items = map (whole_step s.chunks.items) s.rows.items;
      room = min (vec_capacity s.rows - vec_len s.rows) (vec_capacity s.chunks - vec_len s.chunks);
    } };

    ghost invariant = { λ s. All (IsStepPlaced (length s.chunks.items)) s.rows.items };
}

impl StepRows {
    /// No steps; it takes no memory.
    pub fn new(alloc: Global) -> StepRows
        ensures { result.items ≡ [] }
    {
        StepRows {
            rows: Vec::new(alloc),
            chunks: Vec::new(alloc),
        }
    }

    /// Its steps, to be given one by one.
    pub fn left(&self) -> RowsLeft<'_>
        ensures { result ≡ self.now.items }
    {
        RowsLeft {
            rows: &self.rows,
            chunks: &self.chunks,
        }
    }

    // Makes room for a step where there is none.
    #[inline(never)]
    fn grow(&mut self) -> Result<(), OutOfMemory>
        ensures same { self.new.items ≡ self.old.items }
        ensures ok { OnOk result (0 < self.new.room) }
    {
        match (self.rows.reserve(1), self.chunks.reserve(1)) {
            (Ok(()), Ok(())) => Ok(()),
            _ => Err(OutOfMemory),
        }
    }
}

impl TakesSteps for StepRows {
    ghost steps = { λ s. s.items };

    ghost room = { λ s. s.room };

    fn reserve(&mut self, additional: usize) -> Result<(), OutOfMemory> {
        self.rows.reserve(additional)?;
        Ok(())
    }

    #[inline(always)]
    fn make_room(&mut self) -> Result<(), OutOfMemory> {
        if self.rows.len() < self.rows.capacity() && self.chunks.len() < self.chunks.capacity() {
            Ok(())
        } else {
            self.grow()
        }
    }

    #[inline(always)]
    fn take(&mut self, step: Step) {
        let row = keep_step(&mut self.chunks, step);
        let _place = keep_item(&mut self.rows, row);
    }
}

/// The steps of rows that were not yet given, seen as their list.
#[derive(Drop)]
pub struct RowsLeft<'a> {
    rows: &'a [ShortStep],
    chunks: &'a [Chunk],
}

impl<'a> Model for RowsLeft<'a> {
    ghost use Rattle.std.specs.Prelude.{List, map};
    ghost use Rattle.strm_machine.specs.ShortSteps.{whole_step};
    ghost use Rattle.strm_machine.specs.declared.steps.Step.{Step};

    ghost Value = { List Step };

    ghost view = { λ s. map (whole_step s.chunks.now) s.rows.now };
}

// The chunk at a place; where there is none, no bytes.
#[inline(always)]
fn find_chunk(chunks: &[Chunk], place: usize) -> Chunk
    ensures { result ≡ chunk_at chunks.now place }
{
    if place < chunks.len() {
        chunks[place]
    } else {
        Chunk::new(&[]).unwrap()
    }
}

// Puts the step of a row into its place, arm by arm: a step that all arms make would be made elsewhere, of parts,
// and moved. The arms of what has a chunk stand behind the others.
macro_rules! put_same_step {
    ($row:expr, $step:ident, $($with_chunk:tt)*) => {
        match $row {
            ShortStep::Guest { size } => *$step = Step::Guest { size },
            ShortStep::New { guest, ty } => *$step = Step::New { guest, ty },
            ShortStep::Between { writer, reader, ty } => *$step = Step::Between { writer, reader, ty },
            ShortStep::Write { guest, ty, handle, address, count } => *$step = Step::Write { guest, ty, handle, address, count },
            ShortStep::Read { guest, ty, handle, address, count } => *$step = Step::Read { guest, ty, handle, address, count },
            ShortStep::DropWrite { guest, ty, handle } => *$step = Step::DropWrite { guest, ty, handle },
            ShortStep::DropRead { guest, ty, handle } => *$step = Step::DropRead { guest, ty, handle },
            ShortStep::CancelWrite { guest, ty, handle } => *$step = Step::CancelWrite { guest, ty, handle },
            ShortStep::CancelRead { guest, ty, handle } => *$step = Step::CancelRead { guest, ty, handle },
            ShortStep::Move { guest, ty, handle, to } => *$step = Step::Move { guest, ty, handle, to },
            ShortStep::Lift { guest, ty, handle } => *$step = Step::Lift { guest, ty, handle },
            ShortStep::Lower { reader, guest, ty } => *$step = Step::Lower { reader, guest, ty },
            ShortStep::Close { reader } => *$step = Step::Close { reader },
            ShortStep::HostNew { host } => *$step = Step::HostNew { host },
            ShortStep::Pipe { reader, host } => *$step = Step::Pipe { reader, host },
            ShortStep::Grant { host, count } => *$step = Step::Grant { host, count },
            ShortStep::Drive => *$step = Step::Drive,
            ShortStep::Event { guest, handle } => *$step = Step::Event { guest, handle },
            ShortStep::SetNew { guest } => *$step = Step::SetNew { guest },
            ShortStep::SetJoin { guest, set, handle } => *$step = Step::SetJoin { guest, set, handle },
            ShortStep::SetPoll { guest, set } => *$step = Step::SetPoll { guest, set },
            ShortStep::SetDrop { guest, set } => *$step = Step::SetDrop { guest, set },
            ShortStep::ErrNew { guest, address, len } => *$step = Step::ErrNew { guest, address, len },
            ShortStep::ErrText { guest, handle, address } => *$step = Step::ErrText { guest, handle, address },
            ShortStep::ErrMove { guest, handle, to } => *$step = Step::ErrMove { guest, handle, to },
            ShortStep::ErrDrop { guest, handle } => *$step = Step::ErrDrop { guest, handle },
            ShortStep::Dump { guest, address, len } => *$step = Step::Dump { guest, address, len },
            $($with_chunk)*
        }
    };
}

// Puts the step of a row into its place, with its chunk.
#[inline(always)]
fn put_step(chunks: &[Chunk], row: &ShortStep, step: &mut Step)
    ensures { step.new ≡ whole_step chunks.now row.now }
{
    put_same_step!(*row, step,
        ShortStep::Feed { host, bytes } => *step = Step::Feed { host, bytes: find_chunk(chunks, bytes) },
        ShortStep::Poke { guest, address, bytes } => *step = Step::Poke { guest, address, bytes: find_chunk(chunks, bytes) },
    )
}

impl GivesSteps for RowsLeft<'_> {
    ghost left = { λ s. s };

    #[inline(always)]
    fn len(&self) -> usize {
        self.rows.len()
    }

    #[inline(always)]
    fn put_next(&mut self, step: &mut Step) {
        let Some((first, rest)) = self.rows.split_first() else {
            unreachable!()
        };
        self.rows = rest;
        put_step(self.chunks, first, step);
    }
}

//! The history: all calls, in their order.
//!
//! Meaning: `Histories.antt`, and how it is kept `Rows.antt`. Ours. Entries are touched here alone.

ghost use Rattle.std.specs.Prelude.{◌≡◌, ◌+◌, ◌<◌, ◌≤◌, length, [], ◌∷◌, ◌++◌, OnOk, slice_get, option_copied};
ghost use Rattle.strm_shared.specs.Histories.{entry};
ghost use Rattle.strm_machine.specs.ShortSteps.{chunk_at, whole_step, chunks_of_step, IsStepPlaced};
ghost use Rattle.strm_shared.specs.Rows.{whole_reply, chunks_of_reply, IsReplyPlaced};

use crate::blocks::Blocks;
use crate::entry::Entry;
use crate::rows::{Row, ShortReply, same_reply};
use std::alloc::Global;
use std::marker::Model;
use strm_codes::counts::OutOfMemory;
use strm_machine::chunks::Chunk;
use strm_machine::replies::Reply;
use strm_machine::same_step;
use strm_machine::short_steps::ShortStep;
use strm_machine::steps::Step;

// A chunk more, for which there is room; its place.
fn keep_chunk(chunks: &mut Blocks<Chunk>, chunk: &Chunk) -> usize
    requires { length chunks.old.items < chunks.old.room }
    ensures place { result ≡ length chunks.old.items }
    ensures items { chunks.new.items ≡ chunks.old.items ++ chunk.now ∷ [] }
    ensures room { chunks.new.room ≡ chunks.old.room }
{
    let place = chunks.len();
    chunks.push(chunk);
    place
}

// The step as it is kept, with its chunk behind the others.
fn keep_step(chunks: &mut Blocks<Chunk>, step: &Step) -> ShortStep
    requires { length chunks.old.items < chunks.old.room }
    ensures items { chunks.new.items ≡ chunks.old.items ++ chunks_of_step step.now }
    ensures room { chunks.new.room ≡ chunks.old.room }
    ensures whole { whole_step chunks.new.items result ≡ step.now }
    ensures placed { IsStepPlaced (length chunks.new.items) result }
{
    same_step!(*step, Step => ShortStep,
        Step::Feed { host, bytes } => ShortStep::Feed { host, bytes: keep_chunk(chunks, &bytes) },
        Step::Poke { guest, address, bytes } => {
            ShortStep::Poke { guest, address, bytes: keep_chunk(chunks, &bytes) }
        }
    )
}

// The reply as it is kept, with its chunk behind the others.
fn keep_reply(chunks: &mut Blocks<Chunk>, reply: &Reply) -> ShortReply
    requires { length chunks.old.items < chunks.old.room }
    ensures items { chunks.new.items ≡ chunks.old.items ++ chunks_of_reply reply.now }
    ensures room { chunks.new.room ≡ chunks.old.room }
    ensures whole { whole_reply chunks.new.items result ≡ reply.now }
    ensures placed { IsReplyPlaced (length chunks.new.items) result }
{
    same_reply!(*reply, Reply => ShortReply,
        Reply::Bytes(bytes) => ShortReply::Bytes(keep_chunk(chunks, &bytes)),
    )
}

/// All calls, in their order. Contracts see them as a list, and for how many there is room.
#[derive(Drop)]
pub struct History {
    rows: Blocks<Row>,
    chunks: Blocks<Chunk>,
}

impl Model for History {
    ghost use Rattle.strm_shared.specs.Histories.{Log};
    ghost use Rattle.strm_shared.specs.Rows.{entries, room_in_rows, AllPlaced};

    ghost Value = { Log };

    ghost view = { λ h. record {
      items = entries h.chunks.items h.rows.items;
      room = room_in_rows h.rows h.chunks;
    } };

    ghost invariant = { λ h. AllPlaced h.chunks.items h.rows.items };
}

impl History {
    // No calls; it takes no memory.
    pub(crate) fn new(alloc: Global) -> History
        ensures { result.items ≡ [] }
    {
        History {
            rows: Blocks::new(alloc),
            chunks: Blocks::new(alloc),
        }
    }

    /// How many calls there are.
    pub fn len(&self) -> usize
        ensures { result ≡ length self.now.items }
    {
        self.rows.len()
    }

    /// The call of this index, from 0.
    pub fn get(&self, index: usize) -> Option<Entry>
        ensures { result ≡ slice_get self.now.items index }
    {
        let row = self.rows.get(index)?;
        Some(Entry {
            seat: row.seat,
            step: step_of(&self.chunks, &row.step),
            reply: reply_of(&self.chunks, &row.reply),
        })
    }

    // Room for so many more.
    pub(crate) fn reserve(&mut self, more: usize) -> Result<(), OutOfMemory>
        ensures same { self.new.items ≡ self.old.items }
        ensures room { self.old.room ≤ self.new.room }
        ensures ok { OnOk result (length self.new.items + more ≤ self.new.room) }
    {
        if more > usize::MAX / 2 {
            return Err(OutOfMemory);
        }
        self.rows.reserve(more)?;
        self.chunks.reserve(2 * more)?;
        Ok(())
    }

    // A call more, for which there is room.
    pub(crate) fn push(&mut self, seat: u64, step: &Step, reply: &Reply)
        requires { length self.old.items < self.old.room }
        ensures items { self.new.items ≡ self.old.items ++ entry seat step.now reply.now ∷ [] }
        ensures room { self.old.room ≤ self.new.room }
    {
        let step = keep_step(&mut self.chunks, step);
        let reply = keep_reply(&mut self.chunks, reply);
        self.rows.push(&Row { seat, step, reply });
    }
}

// The chunk at a place; where there is none, no bytes.
fn find_chunk(chunks: &Blocks<Chunk>, place: usize) -> Chunk
    ensures { result ≡ chunk_at chunks.now.items place }
{
    match chunks.get(place) {
        Some(chunk) => *chunk,
        None => Chunk::new(&[]).unwrap(),
    }
}

// The step that was kept, with its chunk.
fn step_of(chunks: &Blocks<Chunk>, step: &ShortStep) -> Step
    ensures { result ≡ whole_step chunks.now.items step.now }
{
    same_step!(*step, ShortStep => Step,
        ShortStep::Feed { host, bytes } => Step::Feed { host, bytes: find_chunk(chunks, bytes) },
        ShortStep::Poke { guest, address, bytes } => {
            Step::Poke { guest, address, bytes: find_chunk(chunks, bytes) }
        }
    )
}

// The reply that was kept, with its chunk.
fn reply_of(chunks: &Blocks<Chunk>, reply: &ShortReply) -> Reply
    ensures { result ≡ whole_reply chunks.now.items reply.now }
{
    same_reply!(*reply, ShortReply => Reply,
        ShortReply::Bytes(bytes) => Reply::Bytes(find_chunk(chunks, bytes)),
    )
}

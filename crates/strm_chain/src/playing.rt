//! A store that is played step by step, with all steps and replies.
//!
//! Meaning: `Playing.antt`, and `play` of `Plays.antt` of `strm_machine`. Ours.

ghost use Rattle.std.specs.Prelude.{◌≡◌, ◌≤◌, ◌<◌, ◌∷◌, ◌++◌, ◌-◌, [], true, false, OnOk, IfOk, length, take};
ghost use Rattle.strm_machine.specs.State.{memory_in, stream_at};
ghost use Rattle.strm_laws.specs.Laws.{StepHasBytes};
ghost use Rattle.strm_machine.specs.declared.replies.Reply.TheVariants as replies;
ghost use Rattle.strm_machine.specs.declared.steps.Step.TheVariants as steps;
ghost use Rattle.strm_chain.specs.Playing.{bytes_type, operation, IsDone, IsAnswered, Follows};

use crate::calls::{
    BYTES, code_reply, drop_writable, dump, event_reply, operate, operation, out_of_memory, poke,
    take_event,
};
use crate::lists::Bytes8;
use std::alloc::Global;
use std::marker::Model;
use strm_codes::codes::ReturnCode;
use strm_codes::counts::OutOfMemory;
use strm_lines::lists::{Replies, Steps};
use strm_machine::chunks::Chunk;
use strm_machine::limits::Limits;
use strm_machine::replies::{Pair, Reply};
use strm_machine::steps::Step;
use strm_machine::streams::Side;
use strm_transmit::store::Store;

// The limits of a chain's store.
const LIMITS: Limits = Limits {
    handles: 1_000_000,
    places: 1_000_000,
};

// The most steps of a play: the laws speak of no more.
const MAX_STEPS: usize = 4_294_967_295;

// The most steps of a turn.
const TURN_STEPS: usize = 2;

// A store among no host ends, with the steps that it was played and their replies. Each of its calls is one
// step, which the machine does; where an allocation is refused, all that was played is forgotten.
#[derive(Drop)]
pub(crate) struct Player {
    store: Store,
    rows: Rows,
}

// Steps, and the reply of each.
#[derive(Drop)]
struct Rows {
    alloc: Global,
    steps: Steps,
    replies: Replies,
}

impl Model for Player {
    ghost use Rattle.std.specs.Coded.{codes};
    ghost use Rattle.strm_error_contexts.specs.Contexts.{contexts_code};
    ghost use Rattle.strm_waitable_sets.specs.Sets.{sets_code};
    ghost use Rattle.strm_chain.specs.Playing.{ChainPlay, Follows};

    ghost Value = { ChainPlay };

    ghost coded = { Prim.hlevel (codes, sets_code, contexts_code) };

    ghost view = { λ p. record { steps = p.rows.steps; replies = p.rows.replies; state = p.store } };

    ghost invariant = { λ p. Follows p.rows.steps p.rows.replies p.store };
}

impl Player {
    ghost use Rattle.strm_chain.specs.Playing.{no_play, Adds, IsChainPlayed, HasRoomForSteps};

    // A store that was played no step.
    pub(crate) fn new(alloc: Global) -> Player
        ensures { result ≡ no_play }
    {
        Player {
            store: Store::new(alloc, 0, LIMITS),
            rows: Rows::new(alloc),
        }
    }

    // A guest more; the answer is its number.
    pub(crate) fn add_guest(&mut self, size: u32) -> Result<u32, OutOfMemory>
        requires done { IsDone self.old.state (steps.Guest size) }
        requires room { HasRoomForSteps 1 self.old }
        ensures { IfOk result (λ number.
            Adds self.old self.new (steps.Guest size) (replies.Number number)) }
    {
        let number = match self.store.add_guest(size) {
            Ok(number) => number,
            Err(error) => return Err(out_of_memory(error)),
        };
        let step = Step::Guest { size };
        self.rows
            .keep(&mut self.store, &step, &Reply::Number(number))?;
        Ok(number)
    }

    // A stream of bytes from a guest to another.
    pub(crate) fn new_between(&mut self, writer: u32, reader: u32) -> Result<Pair, OutOfMemory>
        requires done { IsDone self.old.state (steps.Between writer reader bytes_type) }
        requires room { HasRoomForSteps 1 self.old }
        ensures { IfOk result (λ pair.
            Adds self.old self.new (steps.Between writer reader bytes_type) (replies.Pair pair)) }
    {
        let pair = match self.store.new_between(writer, reader, BYTES) {
            Ok(pair) => pair,
            Err(error) => return Err(out_of_memory(error)),
        };
        let step = Step::Between {
            writer,
            reader,
            ty: BYTES,
        };
        self.rows.keep(&mut self.store, &step, &Reply::Pair(pair))?;
        Ok(pair)
    }

    // A read or a write.
    #[inline(always)]
    pub(crate) fn operate(
        &mut self,
        side: Side,
        guest: u32,
        handle: u32,
        address: u32,
        count: u32,
    ) -> Result<ReturnCode, OutOfMemory>
        requires done { IsDone self.old.state (operation side guest handle address count) }
        requires room { HasRoomForSteps 1 self.old }
        ensures { IfOk result (λ code. Adds self.old self.new
            (operation side guest handle address count) (replies.Code code)) }
    {
        let code = operate(&mut self.store, side, guest, handle, address, count);
        let step = operation(side, guest, handle, address, count);
        self.rows.keep(&mut self.store, &step, &code_reply(&code))?;
        Ok(code)
    }

    // An event.
    #[inline(always)]
    pub(crate) fn take_event(
        &mut self,
        guest: u32,
        handle: u32,
    ) -> Result<Option<ReturnCode>, OutOfMemory>
        requires done { IsDone self.old.state (steps.Event guest handle) }
        requires room { HasRoomForSteps 1 self.old }
        ensures { IfOk result (λ code.
            Adds self.old self.new (steps.Event guest handle) (replies.Event code)) }
    {
        let code = take_event(&mut self.store, guest, handle);
        let step = Step::Event { guest, handle };
        self.rows.keep(&mut self.store, &step, &event_reply(&code))?;
        Ok(code)
    }

    // Bytes are put into a guest's memory.
    #[inline(always)]
    pub(crate) fn poke(
        &mut self,
        guest: u32,
        address: u32,
        bytes: &Chunk,
    ) -> Result<(), OutOfMemory>
        requires done { IsDone self.old.state (steps.Poke guest address bytes.now) }
        requires room { HasRoomForSteps 1 self.old }
        ensures { OnOk result (Adds self.old self.new
            (steps.Poke guest address bytes.now) replies.Done) }
    {
        poke(&mut self.store, guest, address, bytes);
        let bytes = *bytes;
        let step = Step::Poke {
            guest,
            address,
            bytes,
        };
        self.rows.keep(&mut self.store, &step, &Reply::Done)
    }

    // At most 64 bytes of a guest's memory.
    #[inline(always)]
    pub(crate) fn dump(&mut self, guest: u32, address: u32, len: u32) -> Result<Chunk, OutOfMemory>
        requires few { len ≤ 64 }
        requires done { IsDone self.old.state (steps.Dump guest address len) }
        requires room { HasRoomForSteps 1 self.old }
        ensures { IfOk result (λ bytes.
            Adds self.old self.new (steps.Dump guest address len) (replies.Bytes bytes)) }
    {
        let bytes = dump(&self.store, guest, address, len);
        let step = Step::Dump {
            guest,
            address,
            len,
        };
        self.rows
            .keep(&mut self.store, &step, &Reply::Bytes(bytes))?;
        Ok(bytes)
    }

    // A write end is dropped.
    pub(crate) fn drop_writable(&mut self, guest: u32, handle: u32) -> Result<(), OutOfMemory>
        requires done { IsDone self.old.state (steps.DropWrite guest bytes_type handle) }
        requires room { HasRoomForSteps 1 self.old }
        ensures { OnOk result (Adds self.old self.new
            (steps.DropWrite guest bytes_type handle) replies.Done) }
    {
        drop_writable(self.rows.alloc, &mut self.store, guest, handle);
        let step = Step::DropWrite {
            guest,
            ty: BYTES,
            handle,
        };
        self.rows.keep(&mut self.store, &step, &Reply::Done)
    }

    // Whether there is room for the steps of a turn.
    pub(crate) fn has_room(&self) -> bool
        ensures room { result ≡ true → HasRoomForSteps 2 self.now }
        ensures full { result ≡ false → ¬ HasRoomForSteps 2 self.now }
    {
        self.rows.steps.as_slice().len() <= MAX_STEPS - TURN_STEPS
    }

    // Puts the first bytes of a guest's memory behind these, as many as a stream has received more than
    // these are.
    pub(crate) fn add_received(
        &self,
        stream: u32,
        guest: u32,
        bytes: &mut Bytes8,
    ) -> Result<(), OutOfMemory>
        requires stream { stream < length self.now.state.streams }
        requires guest { guest < length self.now.state.guests }
        ensures { OnOk result (bytes.new ≡ bytes.old
            ++ take ((stream_at self.now.state stream).received - length bytes.old)
            (memory_in self.now.state.guests guest)) }
    {
        let (Some(received), Some(memory)) = (self.store.moved(stream), self.store.memory(guest))
        else {
            unreachable!()
        };
        let count = received.saturating_sub(bytes.as_slice().len() as u128);
        let (front, _) = memory.split_at(count.min(memory.len() as u128) as usize);
        bytes.extend(front)
    }

    // What was played led to the state. It does nothing.
    #[inline(always)]
    pub(crate) fn played(&self)
        ensures { IsChainPlayed self.now }
    {
        let _ = &self.store;
    }

    // The steps and the replies.
    pub(crate) fn finish(self) -> (Steps, Replies)
        ensures steps { result.0 ≡ self.steps }
        ensures replies { result.1 ≡ self.replies }
        ensures follows { IsChainPlayed self }
    {
        (self.rows.steps, self.rows.replies)
    }
}

impl Rows {
    // No steps.
    fn new(alloc: Global) -> Rows
        ensures steps { result.steps ≡ [] }
        ensures replies { result.replies ≡ [] }
    {
        Rows {
            alloc,
            steps: Steps::new(alloc),
            replies: Replies::new(alloc),
        }
    }

    // Keeps a step that was done, and its reply. Where an allocation is refused, all that was played is
    // forgotten.
    #[inline(always)]
    fn keep(&mut self, store: &mut Store, step: &Step, reply: &Reply) -> Result<(), OutOfMemory>
        requires played { IsAnswered self.old.steps self.old.replies step.now reply.now store.old }
        ensures follows { Follows self.new.steps self.new.replies store.new }
        ensures store { OnOk result (store.new ≡ store.old) }
        ensures steps { OnOk result (self.new.steps ≡ self.old.steps ++ step.now ∷ []) }
        ensures replies { OnOk result (self.new.replies ≡ self.old.replies ++ reply.now ∷ []) }
    {
        sound(step);
        match keep_row(&mut self.steps, &mut self.replies, step, reply) {
            Ok(()) => Ok(()),
            Err(error) => {
                self.forget(store);
                Err(error)
            }
        }
    }

    // All that was played is forgotten. Apart from the code that plays.
    #[inline(never)]
    fn forget(&mut self, store: &mut Store)
        ensures { Follows self.new.steps self.new.replies store.new }
    {
        *store = Store::new(self.alloc, 0, LIMITS);
        *self = Rows::new(self.alloc);
    }
}

// What a step puts into a memory is bytes. It does nothing.
#[inline(always)]
fn sound(step: &Step)
    ensures { StepHasBytes step.now }
{
    match step {
        Step::Poke { bytes, .. } | Step::Feed { bytes, .. } => bytes.sound(),
        _ => {}
    }
}

// Keeps a step and its reply, as long as there is memory.
#[inline(always)]
fn keep_row(
    steps: &mut Steps,
    replies: &mut Replies,
    step: &Step,
    reply: &Reply,
) -> Result<(), OutOfMemory>
    ensures steps { OnOk result (steps.new ≡ steps.old ++ step.now ∷ []) }
    ensures replies { OnOk result (replies.new ≡ replies.old ++ reply.now ∷ []) }
{
    keep_step(steps, step)?;
    keep_reply(replies, reply)
}

// Keeps a step.
#[inline(always)]
fn keep_step(steps: &mut Steps, step: &Step) -> Result<(), OutOfMemory>
    ensures { OnOk result (steps.new ≡ steps.old ++ step.now ∷ []) }
{
    steps.push(*step)
}

// Keeps a reply.
#[inline(always)]
fn keep_reply(replies: &mut Replies, reply: &Reply) -> Result<(), OutOfMemory>
    ensures { OnOk result (replies.new ≡ replies.old ++ reply.now ∷ []) }
{
    replies.push(*reply)
}

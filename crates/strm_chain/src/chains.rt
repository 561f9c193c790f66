//! Chains of guests: the guests and streams are made first, and then guests take turns.
//!
//! Meaning: `Turning.antt`, `Flowing.antt`, `Faults.antt`. Ours.

ghost use Rattle.std.specs.Prelude.{◌≡◌, ◌≢◌, ◌≤◌, ◌<◌, ◌+◌, ◌-◌, ◌*◌, ◌%◌, ◌↔◌, ℕ, List, length, map, true, false, Err, IfOk, IfErr, IsErr, OnOk, None};
ghost use Rattle.strm_chain.specs.Playing.{IsChainPlayed, HasRoomForSteps};
ghost use Rattle.strm_chain.specs.Stages.{composed};
ghost use Rattle.strm_chain.specs.Flowing.{Flows};
ghost use Rattle.strm_chain.specs.Faults.{fault_of, IsChainFault};
ghost use Rattle.strm_chain.specs.Reporting.{is_told};
ghost use Rattle.strm_chain.specs.Running.{AreTurns, AreSomeTurns, IsChainRun};
ghost use Rattle.strm_chain.specs.Keeping.{worker_at, sink_of, IsJoined, IsGoing, IsChain, ChainGoesOn};
ghost use Rattle.strm_chain.specs.Measuring.{most_of, to_do, IsStuck};
ghost use Rattle.strm_chain.specs.Turned.{Turned};
ghost use Rattle.strm_chain.specs.Chains.{chain_of, TakesTurn, ComesTo};

use crate::faults::{ChainError, fault};
use crate::lists::Bytes8;
use crate::making::make_chain;
use crate::playing::Player;
use crate::stages::Stage;
use crate::workers::{ChainTurn, Worker, take_turn};
use std::alloc::Global;
use std::marker::Model;
use strm_codes::counts::OutOfMemory;
use strm_laws::laws::conservation;
use strm_lines::lists::{Replies, Steps};

/// Guests 0 to n + 1 for n stages, joined by streams.
#[derive(Drop)]
pub struct Chain {
    player: Player,
    workers: Vec<Worker>,
    chunk: u32,
    // Out of memory.
    failed: bool,
}

impl Model for Chain {
    ghost use Rattle.std.specs.Coded.{codes};
    ghost use Rattle.strm_error_contexts.specs.Contexts.{contexts_code};
    ghost use Rattle.strm_waitable_sets.specs.Sets.{sets_code};
    ghost use Rattle.strm_chain.specs.Keeping.{ChainState, IsChain};

    ghost Value = { ChainState };

    ghost coded = { Prim.hlevel (codes, sets_code, contexts_code) };

    ghost view = { λ c. record {
      play = c.player;
      workers = c.workers.items;
      chunk = c.chunk;
      failed = c.failed;
    } };

    ghost invariant = { λ c. IsChain (record {
      play = c.player;
      workers = c.workers.items;
      chunk = c.chunk;
      failed = c.failed;
    }) };
}

/// What a chain has come to.
#[derive(Drop)]
pub struct ChainEnd {
    /// What the sink received.
    pub output: Bytes8,
    /// The sink was told that there is no more.
    pub ended: bool,
    pub steps: Steps,
    pub replies: Replies,
}

impl Chain {
    ghost use Rattle.strm_chain.specs.Keeping.{BeginsChain};

    /// A chain in which no guest has had a turn.
    pub fn new(
        alloc: Global,
        stages: &[Stage],
        input: Vec<u8>,
        chunk: u32,
    ) -> Result<Chain, ChainError>
        requires { (16 ≤ chunk) × (chunk ≤ 64) }
        ensures begins { IfOk result (BeginsChain stages.now input.items chunk) }
        ensures err { IfErr result (IsChainFault stages.now (length input.items)) }
        ensures ok { OnOk result (fault_of stages.now (length input.items) ≡ None) }
    {
        if let Some(error) = fault(stages, input.len()) {
            return Err(error);
        }
        let (player, workers) = make_chain(alloc, stages, input)?;
        Ok(Chain {
            player,
            workers,
            chunk,
            failed: false,
        })
    }

    /// One turn of a guest. After running out of memory each turn answers that.
    pub fn turn(&mut self, who: u32) -> Result<ChainTurn, ChainError>
        requires { who < length self.old.workers }

        // It is one of this guest alone, and the machine answers its steps: the guest has ended and makes none,
        // or it has an operation and is told of that, or not, or it reads, writes or drops. The chain goes on with
        // the same stages and input, and no other guest is changed.
        ensures ok { IfOk result (λ turn. TakesTurn who turn self.old self.new) }
        ensures others { (g : ℕ) → g ≢ who →
            worker_at self.new.workers g ≡ worker_at self.old.workers g }
        ensures many { length self.new.workers ≡ length self.old.workers }
        ensures error { IfErr result (λ error. error ≡ ChainError.OutOfMemory) }

        // A play without room for its two steps is answered as running out of memory: since a turn that is idle
        // may be a step too, a caller who gives turns without end comes to that.
        ensures full { ¬ HasRoomForSteps 2 self.old.play → result ≡ Err ChainError.OutOfMemory }
        ensures failed { IsErr result ↔ (self.new.failed ≡ true) }
        ensures again { self.old.failed ≡ true → result ≡ Err ChainError.OutOfMemory }
    {
        if self.failed || !self.player.has_room() {
            self.failed = true;
            return Err(ChainError::OutOfMemory);
        }
        self.turn_with_room(who)
    }

    // One turn of a guest, for which there is room.
    fn turn_with_room(&mut self, who: u32) -> Result<ChainTurn, ChainError>
        requires there { who < length self.old.workers }
        requires runs { self.old.failed ≡ false }
        requires room { HasRoomForSteps 2 self.old.play }
        ensures ok { IfOk result (λ turn. TakesTurn who turn self.old self.new) }
        ensures others { (g : ℕ) → g ≢ who →
            worker_at self.new.workers g ≡ worker_at self.old.workers g }
        ensures many { length self.new.workers ≡ length self.old.workers }
        ensures error { IfErr result (λ error. error ≡ ChainError.OutOfMemory) }
        ensures failed { IsErr result ↔ (self.new.failed ≡ true) }
    {
        match turn_in(&mut self.player, &mut self.workers, who, self.chunk) {
            Ok(turn) => Ok(turn),
            Err(_) => {
                self.failed = true;
                Err(ChainError::OutOfMemory)
            }
        }
    }

    /// How many guests take turns, the source and the sink included.
    pub fn guests(&self) -> u32
        ensures count { result ≡ length self.now.workers }
        ensures some { 2 ≤ result }
    {
        self.workers.len() as u32
    }

    /// The sink was told that there is no more.
    pub fn ended(&self) -> bool
        ensures { self.now.failed ≡ false →
            result ≡ is_told (length self.now.workers - 1)
            self.now.play.steps self.now.play.replies }
    {
        match self.workers.as_slice() {
            [.., sink] => sink.closed,
            [] => false,
        }
    }

    // As long as the sink was not told, some of at most ten guests is not stuck. It does nothing.
    fn somebody_goes(&self)
        ensures few { length self.now.workers ≤ 10 }
        ensures goes { self.now.failed ≡ false →
            is_told (length self.now.workers - 1)
            self.now.play.steps self.now.play.replies ≡ false →
            ((g : ℕ) → g < length self.now.workers →
            IsStuck g (worker_at self.now.workers g) self.now.play.state) → ⊥ }
    {
        self.player.played();
    }

    /// What the chain has come to, ended or not. After running out of memory it answers that.
    #[tactic(auto, using(crate::proofs::ChainLemmas::going_of))]
    pub fn finish(self) -> Result<ChainEnd, ChainError>
        // All that was played, with the machine's replies, and what flowed, as a run of which the laws speak. It
        // has ended exactly where the last report of the sink says that there is no more; then the output is what
        // the stages make of the input.
        ensures ok { IfOk result (λ end.
            ComesTo self.play self.workers end.output end.ended end.steps end.replies) }
        ensures error { IfErr result (λ error. error ≡ ChainError.OutOfMemory) }
        ensures again { self.failed ≡ true → result ≡ Err ChainError.OutOfMemory }
    {
        if self.failed {
            return Err(ChainError::OutOfMemory);
        }
        let Chain {
            player,
            workers,
            ..
        } = self;
        end_of(player, workers)
    }
}

// The sink of these guests.
fn take_sink(workers: Vec<Worker>) -> Worker
    requires { 2 ≤ length workers.items }
    ensures { result ≡ sink_of workers.items }
{
    let mut workers = workers;
    let Some(sink) = workers.pop() else {
        unreachable!()
    };
    sink
}

// What a chain of these guests has come to.
fn end_of(player: Player, workers: Vec<Worker>) -> Result<ChainEnd, ChainError>
    requires some { (2 ≤ length workers.items) × (length workers.items ≤ 10) }
    requires going { IsGoing player workers.items }
    ensures ok { IfOk result (λ end.
        ComesTo player workers.items end.output end.ended end.steps end.replies) }
    ensures error { IfErr result (λ error. error ≡ ChainError.OutOfMemory) }
{
    conservation();
    let stream = workers.len() as u32 - 2;
    let sink = take_sink(workers);
    let ended = sink.closed;
    let mut output = sink.made;
    player.add_received(stream, stream + 1, &mut output)?;
    let (steps, replies) = player.finish();
    Ok(ChainEnd {
        output,
        ended,
        steps,
        replies,
    })
}

// One turn of the guest of a number.
fn turn_at(
    player: &mut Player,
    workers: &mut [Worker],
    who: u32,
    chunk: u32,
) -> Result<ChainTurn, OutOfMemory>
    requires chunk { (16 ≤ chunk) × (chunk ≤ 64) }
    requires there { who < length workers.old }
    requires joined { IsJoined player.old workers.old }
    requires room { HasRoomForSteps 2 player.old }
    ensures turned { IfOk result (λ turn.
        Turned who chunk (worker_at workers.old who) player.old turn
        (worker_at workers.new who) player.new) }
    ensures others { (g : ℕ) → g ≢ who → worker_at workers.new g ≡ worker_at workers.old g }
    ensures many { length workers.new ≡ length workers.old }
    ensures before { IsChainPlayed player.old }
    ensures after { IsChainPlayed player.new }
{
    player.played();
    let turn = take_turn(player, &mut workers[who as usize], who, chunk);
    player.played();
    turn
}

// One turn in a chain, which goes on.
fn turn_in(
    player: &mut Player,
    workers: &mut [Worker],
    who: u32,
    chunk: u32,
) -> Result<ChainTurn, OutOfMemory>
    requires chain { IsChain (chain_of player.old workers.old chunk) }
    requires there { who < length workers.old }
    requires room { HasRoomForSteps 2 player.old }
    ensures kept { OnOk result (IsChain (chain_of player.new workers.new chunk)) }
    ensures ok { IfOk result (λ turn. TakesTurn who turn
        (chain_of player.old workers.old chunk) (chain_of player.new workers.new chunk)) }
    ensures others { (g : ℕ) → g ≢ who → worker_at workers.new g ≡ worker_at workers.old g }
    ensures many { length workers.new ≡ length workers.old }
{
    turn_at(player, workers, who, chunk)
}

// Turns by a schedule.
fn take_turns(chain: &mut Chain, schedule: &[u32]) -> Result<(), ChainError>
    requires { chain.old.failed ≡ false }
    ensures error { IfErr result (λ error. error ≡ ChainError.OutOfMemory) }
    ensures turns { OnOk result (AreTurns (length chain.old.workers - 1) chain.old.chunk
        (map (λ s. s % length chain.old.workers) schedule.now) chain.old.play chain.new.play) }
    ensures goes_on { OnOk result (ChainGoesOn chain.old chain.new) }
    ensures runs { OnOk result (chain.new.failed ≡ false) }
{
    for who in schedule {
        let guests = chain.guests();
        chain.turn(*who % guests)?;
    }
    Ok(())
}

// One round of all guests, which leaves less to do, in at most two steps for each of ten guests.
fn take_round(chain: &mut Chain) -> Result<(), ChainError>
    requires runs { chain.old.failed ≡ false }
    requires untold { is_told (length chain.old.workers - 1)
        chain.old.play.steps chain.old.play.replies ≡ false }
    requires room { HasRoomForSteps 20 chain.old.play }
    ensures error { IfErr result (λ error. error ≡ ChainError.OutOfMemory) }
    ensures turns { OnOk result (AreSomeTurns (length chain.old.workers - 1) chain.old.chunk
        chain.old.play chain.new.play) }
    ensures goes_on { OnOk result (ChainGoesOn chain.old chain.new) }
    ensures runs { OnOk result (chain.new.failed ≡ false) }
    ensures less { OnOk result (to_do chain.new.play.state chain.new.workers
        < to_do chain.old.play.state chain.old.workers) }
    ensures short { OnOk result (length chain.new.play.steps ≤ length chain.old.play.steps + 20) }
{
    chain.somebody_goes();
    for who in 0..chain.guests() {
        chain.turn_with_room(who)?;
    }
    Ok(())
}

/// A chain in which guests take turns by a schedule, guest `s mod (n + 2)` for each of its numbers.
pub fn chain_run(
    alloc: Global,
    stages: &[Stage],
    input: Vec<u8>,
    chunk: u32,
    schedule: &[u32],
) -> Result<ChainEnd, ChainError>
    requires { (16 ≤ chunk) × (chunk ≤ 64) }

    // The steps are those that make the chain and then those of these guests' turns, in order, and the
    // replies those of the machine's play.
    ensures runs { IfOk result (λ end. IsChainRun (length stages.now) chunk
        (map (λ s. s % (length stages.now + 2)) schedule.now) end.steps end.replies) }

    // It has ended exactly where the last report of the sink says that there is no more.
    ensures ended { IfOk result (λ end.
        end.ended ≡ is_told (length stages.now + 1) end.steps end.replies) }

    // What stream 0 received is a front of the input, and what each stream behind a stage received a front
    // of what the stage makes of what was received before it. The output is what the last one received.
    ensures flows { IfOk result (λ end. Flows stages.now input.items end.output end.steps) }

    // Where the chain has ended, the output is what the stages make of the input.
    ensures composed { IfOk result (λ end. end.ended ≡ true →
        end.output ≡ composed stages.now input.items) }

    // A run of which the laws speak: where its play has no room for a turn of the schedule, it is out of memory.
    ensures within { IfOk result (λ end. length end.steps ≤ 4294967295) }
    ensures err { IfErr result (IsChainFault stages.now (length input.items)) }
{
    let mut chain = Chain::new(alloc, stages, input, chunk)?;
    take_turns(&mut chain, schedule)?;
    chain.finish()
}

/// A chain in which all guests take turns, round by round, until the sink was told.
pub fn chain_all(
    alloc: Global,
    stages: &[Stage],
    input: Vec<u8>,
    chunk: u32,
) -> Result<ChainEnd, ChainError>
    requires { (16 ≤ chunk) × (chunk ≤ 64) }

    // The steps are those that make the chain and then those of guests' turns, and the replies those of the
    // machine's play.
    ensures runs { IfOk result (λ end. (whos : List ℕ)
        × IsChainRun (length stages.now) chunk whos end.steps end.replies) }
    ensures flows { IfOk result (λ end. Flows stages.now input.items end.output end.steps) }

    // It ends: by its last report the sink was told that there is no more. The output is what the stages make
    // of the input.
    ensures told { IfOk result (λ end.
        is_told (length stages.now + 1) end.steps end.replies ≡ true) }
    ensures ended { IfOk result (λ end. end.ended ≡ true) }
    ensures composed { IfOk result (λ end. end.output ≡ composed stages.now input.items) }

    // It takes at most 800 steps for each byte that a stream carries at most, and 819 more. These are no more
    // than a play may have: so no count of steps ends it.
    ensures few { IfOk result (λ end. length end.steps
        ≤ 800 * most_of stages.now (length input.items) + 819) }
    ensures err { IfErr result (IsChainFault stages.now (length input.items)) }
{
    let mut chain = Chain::new(alloc, stages, input, chunk)?;
    while !chain.ended() {
        take_round(&mut chain)?;
    }
    chain.finish()
}

//! The making of a chain: its guests, and the streams from each to the next.
//!
//! Meaning: `Making.antt`. Ours.

ghost use Rattle.std.specs.Prelude.{◌≡◌, ◌≤◌, ◌<◌, ◌+◌, ◌++◌, ◌∷◌, [], ℕ, List, length, slice_index_or, IfOk, OnOk, Some};
ghost use Rattle.strm_chain.specs.Playing.{IsChainPlayed, HasRoomForSteps};
ghost use Rattle.strm_chain.specs.Keeping.{new_worker, IsGoing};
ghost use Rattle.strm_chain.specs.declared.stages.Stage.{Stage};
ghost use Rattle.strm_chain.specs.declared.stages.Stage.TheVariants.{Copy};
ghost use Rattle.strm_chain.specs.Making.{AreMade, MakesPair, source_of, AreJoined, IsReady};

use crate::lists::Bytes8;
use crate::playing::Player;
use crate::stages::{Stage, Work};
use crate::workers::{Doing, Worker};
use std::alloc::Global;
use strm_codes::counts::OutOfMemory;
use strm_laws::laws::conservation;
use strm_machine::replies::Pair;

// The bytes of a guest's memory.
const MEMORY: u32 = 8_192;

/// The guests and the streams of a chain of these stages.
pub(crate) fn make_chain(
    alloc: Global,
    stages: &[Stage],
    input: Vec<u8>,
) -> Result<(Player, Vec<Worker>), OutOfMemory>
    requires { length stages.now ≤ 8 }
    ensures ready { IfOk result (λ made. IsReady stages.now input.items made.0 made.1.items) }
    ensures going { IfOk result (λ made. IsGoing made.0 made.1.items) }
    ensures played { IfOk result (λ made. IsChainPlayed made.0) }
{
    let mut player = Player::new(alloc);
    add_guests(&mut player, stages.len() as u32 + 2)?;
    let mut workers = Vec::new(alloc);
    let mut read = add_source(&mut player, &mut workers, input)?;
    for stage in stages {
        read = add_stage(alloc, &mut player, &mut workers, *stage, read)?;
    }
    add_worker(&mut workers, new_worker(alloc, Stage::Copy, read, None))?;
    player.played();
    conservation();
    Ok((player, workers))
}

// The source, and the stream that it writes on; the answer is the handle of the read end.
fn add_source(
    player: &mut Player,
    workers: &mut Vec<Worker>,
    input: Vec<u8>,
) -> Result<u32, OutOfMemory>
    requires none { workers.old.items ≡ [] }
    requires made { (guests : ℕ) × (1 < guests) × AreMade guests 0 player.old }
    requires room { HasRoomForSteps 1 player.old }
    ensures { (stages : List Stage) (guests : ℕ) → AreMade guests 0 player.old
        → IfOk result (λ read.
        AreJoined input.items 0 read stages player.new workers.new.items
        × AreMade guests 1 player.new) }
{
    let pair = make_pair(player, 0)?;
    add_worker(workers, source(input, pair.write))?;
    Ok(pair.read)
}

// A guest that does a stage: it reads under this handle, and a stream more is made, which it writes on; the
// answer is the handle of the read end.
fn add_stage(
    alloc: Global,
    player: &mut Player,
    workers: &mut Vec<Worker>,
    stage: Stage,
    read: u32,
) -> Result<u32, OutOfMemory>
    requires few { length workers.old.items ≤ 8 }
    requires made { (guests : ℕ) × (length workers.old.items + 1 < guests)
        × AreMade guests (length workers.old.items) player.old }
    requires room { HasRoomForSteps 1 player.old }
    ensures { (input : List ℕ) (stages : List Stage) (guests i : ℕ) → i < length stages
        → stage ≡ slice_index_or stages i Copy
        → AreJoined input i read stages player.old workers.old.items
        → AreMade guests (i + 1) player.old → IfOk result (λ next.
        AreJoined input (i + 1) next stages player.new workers.new.items
        × AreMade guests (i + 2) player.new) }
{
    let pair = make_pair(player, workers.len() as u32)?;
    add_worker(workers, new_worker(alloc, stage, read, Some(pair.write)))?;
    Ok(pair.read)
}

// So many guests.
fn add_guests(player: &mut Player, count: u32) -> Result<(), OutOfMemory>
    requires few { count ≤ 10 }
    requires none { AreMade 0 0 player.old }
    ensures { OnOk result (AreMade count 0 player.new) }
{
    for _made in 0..count {
        add_guest(player)?;
    }
    Ok(())
}

// A guest more; the answer is its number.
fn add_guest(player: &mut Player) -> Result<u32, OutOfMemory>
    requires made { (n : ℕ) × (n ≤ 9) × AreMade n 0 player.old }
    requires room { HasRoomForSteps 1 player.old }
    ensures { (n : ℕ) → AreMade n 0 player.old → OnOk result (AreMade (n + 1) 0 player.new) }
{
    player.played();
    player.add_guest(MEMORY)
}

// A stream from a guest to the next one.
fn make_pair(player: &mut Player, writer: u32) -> Result<Pair, OutOfMemory>
    requires few { writer ≤ 8 }
    requires made { (guests : ℕ) × (writer + 1 < guests) × AreMade guests writer player.old }
    requires room { HasRoomForSteps 1 player.old }
    ensures { IfOk result (λ pair. MakesPair writer player.old pair player.new) }
{
    player.played();
    player.new_between(writer, writer + 1)
}

// The source, which has all its bytes to write.
fn source(input: Vec<u8>, write: u32) -> Worker
    ensures { result ≡ source_of input.items write }
{
    Worker {
        read: None,
        write: Some(write),
        work: Work::of(Stage::Copy),
        made: Bytes8::from_vec(input),
        sent: 0,
        doing: Doing::Nothing,
        closed: true,
    }
}

// A guest that does a stage, or the sink.
fn new_worker(alloc: Global, stage: Stage, read: u32, write: Option<u32>) -> Worker
    ensures { result ≡ record (new_worker stage) { read = Some read; write = write } }
{
    Worker {
        read: Some(read),
        write,
        work: Work::of(stage),
        made: Bytes8::new(alloc),
        sent: 0,
        doing: Doing::Nothing,
        closed: false,
    }
}

// A guest more in the list.
fn add_worker(workers: &mut Vec<Worker>, worker: Worker) -> Result<(), OutOfMemory>
    ensures { OnOk result (workers.new.items ≡ workers.old.items ++ worker ∷ []) }
{
    workers.push(worker)?;
    Ok(())
}

//! What one guest of a chain does in one turn: it hears of the operation that waits, or begins the next.
//!
//! A guest has at most one operation. What it has put out is kept whole, and a write takes the bytes behind
//! those that were handed over; so a write that is told of fewer items than it asked for is followed by one
//! that begins behind those. Ours.

ghost use Rattle.std.specs.Prelude.{◌≡◌, ◌≤◌, ◌+◌, ◌++◌, ◌⊎◌, ℕ, length, take, drop, true, false, None, IfOk, OnOk, IfSome, IsSome};
ghost use Rattle.strm_codes.specs.Codes.{count_of_code};
ghost use Rattle.strm_codes.specs.declared.codes.ReturnCode.TheVariants as codes;
ghost use Rattle.strm_machine.specs.declared.steps.Step.TheVariants as steps;
ghost use Rattle.strm_chain.specs.Playing.{HasRoomForSteps, IsDone};
ghost use Rattle.strm_chain.specs.Keeping.{IsGuest};
ghost use Rattle.strm_chain.specs.Turning.{IsChunkCount};
ghost use Rattle.strm_chain.specs.Turned.{Turned, EndsRead, TakesIn, HandsOver};
ghost use Rattle.strm_chain.specs.declared.workers.Doing.TheVariants as doing;

use crate::lists::Bytes8;
use crate::playing::Player;
use crate::stages::Work;
use strm_codes::codes::ReturnCode;
use strm_codes::counts::OutOfMemory;
use strm_machine::chunks::Chunk;
use strm_machine::streams::Side;

// Where a guest reads to.
const READ_AT: u32 = 0;

// Where a guest writes from.
const WRITE_AT: u32 = 64;

/// What a turn of a guest was.
#[derive(Clone, Copy, Debug, PartialEq, Eq)]
pub enum ChainTurn {
    /// It read, wrote or dropped, or was told of its operation.
    Moved,
    /// It has ended, or its operation waits on.
    Idle,
}

/// What a guest is at.
#[derive(Clone, Copy, Debug, PartialEq, Eq)]
pub enum Doing {
    /// It has no operation.
    Nothing,
    /// Its read waits.
    Reading,
    /// Its write waits.
    Writing,
    /// It does nothing any more.
    Ended,
}

/// A guest of a chain.
#[derive(Drop)]
pub struct Worker {
    /// The handle of its read end; the source has none.
    pub read: Option<u32>,
    /// The handle of its write end; the sink has none.
    pub write: Option<u32>,
    /// Its stage.
    pub work: Work,
    /// All that its stage put out.
    pub made: Bytes8,
    /// So many of these were handed over.
    pub sent: usize,
    pub doing: Doing,
    /// There is nothing more to read.
    pub closed: bool,
}

// One turn of a guest.
pub(crate) fn take_turn(
    player: &mut Player,
    worker: &mut Worker,
    guest: u32,
    chunk: u32,
) -> Result<ChainTurn, OutOfMemory>
    requires chunk { (16 ≤ chunk) × (chunk ≤ 64) }
    requires guest { IsGuest guest worker.old player.old }
    requires room { HasRoomForSteps 2 player.old }
    ensures { IfOk result (λ turn.
        Turned guest chunk worker.old player.old turn worker.new player.new) }
{
    match worker.doing {
        Doing::Ended => Ok(ChainTurn::Idle),
        Doing::Reading => hear_of_read(player, worker, guest),
        Doing::Writing => hear_of_write(player, worker, guest),
        Doing::Nothing => match next_bytes(worker, chunk) {
            Some(bytes) => begin_write(player, worker, guest, chunk, &bytes),
            None if worker.closed => end(player, worker, guest),
            None => begin_read(player, worker, guest, chunk),
        },
    }
}

// The bytes that are to be written next, if there are any: at most `chunk`.
#[inline(always)]
fn next_bytes(worker: &Worker, chunk: u32) -> Option<Chunk>
    requires { (16 ≤ chunk) × (chunk ≤ 64) }
    ensures count { IfSome result (λ bytes. IsChunkCount chunk (length bytes)) }
    ensures value { IfSome result (λ bytes.
        bytes ≡ take chunk (drop worker.now.sent worker.now.made)) }
    ensures none { result ≡ None → worker.now.write ≡ None
        ⊎ (length worker.now.made ≤ worker.now.sent) }
    ensures some { IfSome result (λ _. IsSome worker.now.write) }
{
    let made = worker.made.as_slice();
    if worker.write.is_none() || worker.sent >= made.len() {
        return None;
    }
    let (_, rest) = made.split_at(worker.sent);
    let (front, _) = rest.split_at(rest.len().min(chunk as usize));
    Chunk::new(front)
}

// The guest's read waits: it is told of it, or not yet.
fn hear_of_read(
    player: &mut Player,
    worker: &mut Worker,
    guest: u32,
) -> Result<ChainTurn, OutOfMemory>
    requires guest { IsGuest guest worker.old player.old }
    requires waits { worker.old.doing ≡ doing.Reading }
    requires room { HasRoomForSteps 2 player.old }
    ensures { (chunk : ℕ) → IfOk result (λ turn.
        Turned guest chunk worker.old player.old turn worker.new player.new) }
{
    let Some(handle) = worker.read else {
        unreachable!()
    };
    match player.take_event(guest, handle)? {
        Some(code) => {
            player.played();
            take_read(player, worker, guest, code)?;
            Ok(ChainTurn::Moved)
        }
        None => Ok(ChainTurn::Idle),
    }
}

// The guest's write waits: it is told of it, or not yet.
fn hear_of_write(
    player: &mut Player,
    worker: &mut Worker,
    guest: u32,
) -> Result<ChainTurn, OutOfMemory>
    requires guest { IsGuest guest worker.old player.old }
    requires waits { worker.old.doing ≡ doing.Writing }
    requires room { HasRoomForSteps 2 player.old }
    ensures { (chunk : ℕ) → IfOk result (λ turn.
        Turned guest chunk worker.old player.old turn worker.new player.new) }
{
    let Some(handle) = worker.write else {
        unreachable!()
    };
    match player.take_event(guest, handle)? {
        Some(code) => {
            player.played();
            hand_over(worker, code);
            Ok(ChainTurn::Moved)
        }
        None => Ok(ChainTurn::Idle),
    }
}

// The guest reads.
fn begin_read(
    player: &mut Player,
    worker: &mut Worker,
    guest: u32,
    chunk: u32,
) -> Result<ChainTurn, OutOfMemory>
    requires guest { IsGuest guest worker.old player.old }
    requires rests { worker.old.doing ≡ doing.Nothing }
    requires unclosed { worker.old.closed ≡ false }
    requires some { IsChunkCount 64 chunk }
    requires room { HasRoomForSteps 2 player.old }
    ensures { IfOk result (λ turn.
        Turned guest chunk worker.old player.old turn worker.new player.new) }
{
    let Some(handle) = worker.read else {
        unreachable!()
    };
    let code = player.operate(Side::Reading, guest, handle, READ_AT, chunk)?;
    player.played();
    match code {
        ReturnCode::Blocked => worker.doing = Doing::Reading,
        ReturnCode::Completed(count) => {
            take_read(player, worker, guest, ReturnCode::Completed(count))?;
        }
        ReturnCode::Dropped(count) => {
            take_read(player, worker, guest, ReturnCode::Dropped(count))?;
        }
        ReturnCode::Cancelled(_) => unreachable!(),
    }
    Ok(ChainTurn::Moved)
}

// The guest writes these bytes.
fn begin_write(
    player: &mut Player,
    worker: &mut Worker,
    guest: u32,
    chunk: u32,
    bytes: &Chunk,
) -> Result<ChainTurn, OutOfMemory>
    requires guest { IsGuest guest worker.old player.old }
    requires rests { worker.old.doing ≡ doing.Nothing }
    requires most { chunk ≤ 64 }
    requires some { IsChunkCount chunk (length bytes.now) }
    requires next { bytes.now ≡ take chunk (drop worker.old.sent worker.old.made) }
    requires writes { IsSome worker.old.write }
    requires room { HasRoomForSteps 2 player.old }
    ensures { IfOk result (λ turn.
        Turned guest chunk worker.old player.old turn worker.new player.new) }
{
    let Some(handle) = worker.write else {
        unreachable!()
    };
    player.poke(guest, WRITE_AT, bytes)?;
    player.played();
    let count = bytes.as_slice().len() as u32;
    let code = player.operate(Side::Writing, guest, handle, WRITE_AT, count)?;
    player.played();
    match code {
        ReturnCode::Blocked => worker.doing = Doing::Writing,
        ReturnCode::Completed(count) => hand_over(worker, ReturnCode::Completed(count)),
        ReturnCode::Dropped(_) => unreachable!(),
        ReturnCode::Cancelled(_) => unreachable!(),
    }
    Ok(ChainTurn::Moved)
}

// The guest has nothing more to read and to write: its write end is dropped.
fn end(player: &mut Player, worker: &mut Worker, guest: u32) -> Result<ChainTurn, OutOfMemory>
    requires guest { IsGuest guest worker.old player.old }
    requires rests { worker.old.doing ≡ doing.Nothing }
    requires closed { worker.old.closed ≡ true }
    requires all { worker.old.write ≡ None ⊎ (length worker.old.made ≤ worker.old.sent) }
    requires room { HasRoomForSteps 2 player.old }
    ensures { (chunk : ℕ) → IfOk result (λ turn.
        Turned guest chunk worker.old player.old turn worker.new player.new) }
{
    let Some(handle) = worker.write else {
        unreachable!()
    };
    player.drop_writable(guest, handle)?;
    worker.doing = Doing::Ended;
    Ok(ChainTurn::Moved)
}

// The guest's read is over with this code: its stage takes what was read. The sink ends once it was told
// that there is no more.
#[inline(always)]
fn take_read(
    player: &mut Player,
    worker: &mut Worker,
    guest: u32,
    code: ReturnCode,
) -> Result<(), OutOfMemory>
    requires ends { EndsRead code }
    requires few { count_of_code code ≤ 64 }
    requires done { IsDone player.old.state (steps.Dump guest 0 (count_of_code code)) }
    requires room { HasRoomForSteps 1 player.old }
    ensures { OnOk result (TakesIn guest worker.old code player.old worker.new player.new) }
{
    let (count, dropped) = match code {
        ReturnCode::Completed(count) => (count, false),
        ReturnCode::Dropped(count) => (count, true),
        ReturnCode::Blocked | ReturnCode::Cancelled(_) => unreachable!(),
    };
    let bytes = player.dump(guest, READ_AT, count.as_u32())?;
    worker.work.go_on(bytes.as_slice(), &mut worker.made)?;
    worker.closed = dropped;
    worker.doing = if dropped && worker.write.is_none() {
        Doing::Ended
    } else {
        Doing::Nothing
    };
    Ok(())
}

// The guest's write is over with this code: what it says was handed over.
#[inline(always)]
fn hand_over(worker: &mut Worker, code: ReturnCode)
    requires over { code ≡ codes.Completed (count_of_code code) }
    requires within { worker.old.sent + count_of_code code ≤ length worker.old.made }
    ensures { HandsOver worker.old code worker.new }
{
    let count = match code {
        ReturnCode::Completed(count) => count.as_usize(),
        ReturnCode::Blocked | ReturnCode::Dropped(_) | ReturnCode::Cancelled(_) => unreachable!(),
    };
    let made = worker.made.as_slice().len();
    worker.sent = made.min(worker.sent.saturating_add(count));
    worker.doing = Doing::Nothing;
}

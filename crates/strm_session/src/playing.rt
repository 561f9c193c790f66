//! The play of steps that are given one by one, among host ends, with replies that are kept one by one.
//!
//! Meaning: `Playing.antt`. Source: ours.

ghost use Rattle.std.specs.Prelude.{◌≡◌, ◌≤◌, ◌<◌, ◌∷◌, ◌++◌, [], List, false, length, IfOk, IfErr};
ghost use Rattle.strm_machine.specs.Acts.{act_of};
ghost use Rattle.strm_machine.specs.declared.replies.Reply.{Reply};
ghost use Rattle.strm_laws.specs.Laws.{StepHasBytes};
ghost use Rattle.strm_host_machine.specs.Steps.{touches};
ghost use Rattle.strm_host_machine.specs.Does.{Fits};
ghost use Rattle.strm_transmit.specs.Hosted.{lone};
ghost use Rattle.strm_laws.specs.Starts.{run_start};
ghost use Rattle.strm_session.specs.Runs.{received_counts, HaveRoom};
ghost use Rattle.strm_session.specs.Playing.{IsStepped, IsSteppedAlone, IsRunPlayed, HasRun};

use crate::laws::{laws_hold, laws_hold_among};
use crate::runs::{PROGRAM_LIMITS, RunCause, cause_of};
use std::alloc::Global;
use strm_codes::counts::OutOfMemory;
use strm_lines::lists::Counts;
use strm_lines::one_by_one::{GivesSteps, KeepsReplies};
use strm_machine::replies::Reply;
use strm_machine::steps::Step;
use strm_transmit::host_ends::HostEnds;
use strm_transmit::steps::apply;
use strm_transmit::store::Store;

/// A run that came to its end.
#[derive(Drop)]
pub(crate) struct Ended {
    /// How many items were received on each stream.
    pub moved: Counts,
    /// The store after the last step.
    pub store: Store,
}

// Runs the steps on a new store, and keeps their replies.
pub(crate) fn play_all<L: GivesSteps, R: KeepsReplies, H: HostEnds>(
    alloc: Global,
    steps: &mut L,
    replies: &mut R,
    hosts: &mut H,
) -> Result<Ended, RunCause>
    requires few { length (L.left steps.old) ≤ 4294967295 }
    requires none { R.keeps replies.old [] }
    requires room { HaveRoom (H.tells hosts.old) }
    ensures { (told : List Reply) × R.keeps replies.new told
        × HasRun (H.tells hosts.old) (H.tells hosts.new) (L.left steps.old) told result }
{
    hosts.sound();
    laws_hold();
    laws_hold_among();
    let mut store = Store::new(alloc, 0, PROGRAM_LIMITS);
    match play_steps(&mut store, hosts, replies, steps) {
        Ok(()) => finished(alloc, store),
        Err(cause) => Err(cause),
    }
}

// A run that came to its end, with what it received.
fn finished(alloc: Global, store: Store) -> Result<Ended, RunCause>
    ensures ok { IfOk result (λ e. (e.store ≡ store) × (e.moved ≡ received_counts store)) }
    ensures stop { IfErr result (λ cause. cause ≡ RunCause.OutOfMemory) }
{
    match counts(alloc, &store) {
        Ok(moved) => Ok(Ended { moved, store }),
        Err(_) => Err(RunCause::OutOfMemory),
    }
}

// What was received on each stream.
fn counts(alloc: Global, store: &Store) -> Result<Counts, OutOfMemory>
    ensures { IfOk result (λ counts. counts ≡ received_counts store.now) }
{
    let mut counts = Counts::new(alloc);
    for stream in 0..store.streams() {
        match store.moved(stream) {
            Some(count) => counts.push(count)?,
            None => unreachable!(),
        }
    }
    Ok(counts)
}

// Does the steps in order, and keeps their replies.
fn play_steps<L: GivesSteps, R: KeepsReplies, H: HostEnds>(
    store: &mut Store,
    hosts: &mut H,
    replies: &mut R,
    steps: &mut L,
) -> Result<(), RunCause>
    requires begins { store.old ≡ run_start }
    requires none { R.keeps replies.old [] }
    requires few { length (L.left steps.old) ≤ 4294967295 }
    ensures { (told : List Reply) × R.keeps replies.new told
        × IsRunPlayed (H.tells hosts.old) (H.tells hosts.new)
        (L.left steps.old) told store.new result }
{
    laws_hold_among();
    let mut step = Step::Drive;
    for _ in 0..steps.len() {
        steps.put_next(&mut step);
        sound(&step);
        let _reply = step_once(store, hosts, replies, &step)?;
    }
    Ok(())
}

// What a step puts into a memory is bytes. It does nothing.
fn sound(step: &Step)
    ensures { StepHasBytes step.now }
{
    match step {
        Step::Poke { bytes, .. } | Step::Feed { bytes, .. } => bytes.sound(),
        _ => {}
    }
}

// Does one step, and keeps its reply.
#[inline(always)]
fn step_once<R: KeepsReplies, H: HostEnds>(
    store: &mut Store,
    hosts: &mut H,
    replies: &mut R,
    step: &Step,
) -> Result<Reply, RunCause>
    requires running { store.old.trapped ≡ false }
    requires fits { Fits store.old (H.tells hosts.old) }
    requires few { (told : List Reply) × R.keeps replies.old told × (length told < 4294967295) }
    ensures does { IsStepped store.old store.new
        (H.tells hosts.old) (H.tells hosts.new) step.now result }
    ensures alone { touches (lone store.old) (act_of step.now) ≡ false →
        IsSteppedAlone store.old store.new (H.tells hosts.old) (H.tells hosts.new) step.now result }
    ensures kept { (told : List Reply) → R.keeps replies.old told →
        IfOk result (λ reply. R.keeps replies.new (told ++ reply ∷ [])) }
    ensures err { (told : List Reply) → R.keeps replies.old told →
        IfErr result (λ _. R.keeps replies.new told) }
{
    match apply(store, hosts, step) {
        Ok(reply) => match replies.keep(&reply) {
            Ok(()) => Ok(reply),
            Err(_) => Err(RunCause::OutOfMemory),
        },
        Err(error) => Err(cause_of(error)),
    }
}

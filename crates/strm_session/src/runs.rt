//! The run of a list of steps on a new store, among host ends.
//!
//! Source: ours.

ghost use Rattle.std.specs.Prelude.{◌≡◌, ◌≢◌, ◌≤◌, length, Err, IfOk, IfErr};
ghost use Rattle.strm_codes.specs.declared.refusals.Refusal.{Refusal};
ghost use Rattle.strm_transmit.specs.Hosted.{call_answered};
ghost use Rattle.strm_session.specs.Records.{HostsGoOn};
ghost use Rattle.strm_session.specs.Runs.{HaveRoom, AreOfGuests, received_counts, next_step, IsWhole, HasStopped, IsDecided, stop_of};

use crate::playing::{Ended, play_all};
use std::alloc::Global;
use strm_lines::lists::{Counts, Replies, StepsLeft};
use strm_machine::limits::Limits;
use strm_machine::steps::Step;
use strm_machine::streams::HostEnd;
use strm_transmit::errors::StoreError;
use strm_transmit::host_ends::HostEnds;
use strm_transmit::store::Store;

/// The limits of a run's store.
pub const PROGRAM_LIMITS: Limits = Limits {
    handles: 1_000_000,
    places: 1_000_000,
};

/// A run that came to its end.
#[derive(Drop)]
pub struct Transcript {
    /// One reply per step.
    pub replies: Replies,
    /// How many items were received on each stream.
    pub moved: Counts,
    /// The store after the last step.
    pub store: Store,
}

/// Why a run stopped.
#[derive(Clone, Copy, Debug, PartialEq, Eq)]
pub enum RunCause {
    /// A host end failed.
    HostFailed { end: HostEnd },
    /// A host end broke its rules.
    HostBroke { end: HostEnd },
    /// An item of this stream is none of its type.
    BadItem { stream: u32 },
    /// An allocation was refused.
    OutOfMemory,
}

/// A run that stopped.
#[derive(Drop)]
pub struct RunStop {
    /// The number of the step at which it stopped, from 1; behind the last step where the counts
    /// found no memory. No number is above 4,294,967,295.
    pub at: u32,
    /// Why it stopped there.
    pub cause: RunCause,
    /// The replies to the steps before.
    pub replies: Replies,
}

/// Why a run stops where the store did not do a step.
pub fn cause_of(error: StoreError) -> RunCause
    requires refused { (refusal : Refusal) → error ≢ StoreError.Refused refusal }
    requires trapped { error ≢ StoreError.StoreTrapped }
    ensures { call_answered (Err error) ≡ Err (stop_of result) }
{
    match error {
        StoreError::HostFailed { end } => RunCause::HostFailed { end },
        StoreError::HostBroke { end } => RunCause::HostBroke { end },
        StoreError::BadItem { stream } => RunCause::BadItem { stream },
        StoreError::OutOfMemory => RunCause::OutOfMemory,
        StoreError::Refused(_) => unreachable!(),
        StoreError::StoreTrapped => unreachable!(),
    }
}

/// Runs the steps on a new store, which polls and feeds these host ends and closes those that go.
pub fn run<H: HostEnds>(alloc: Global, steps: &[Step], hosts: &mut H) -> Result<Transcript, RunStop>
    requires few { length steps.now ≤ 4294967295 }
    requires room { HaveRoom (H.tells hosts.old) }

    // It is the machine's play on the records that are added to the host ends, exactly those, and the
    // laws of every run hold after each of its steps.
    ensures ok { IfOk result (λ t.
        IsWhole (H.tells hosts.old) (H.tells hosts.new) steps.now t.replies t.store) }
    ensures received { IfOk result (λ t. t.moved ≡ received_counts t.store) }
    ensures stop { IfErr result (λ stop.
        HasStopped (H.tells hosts.old) (H.tells hosts.new) steps.now stop.replies stop.cause) }
    ensures at { IfErr result (λ stop. stop.at ≡ next_step stop.replies) }

    // What it did to the host ends: on steps of guests alone, nothing.
    ensures hosts { HostsGoOn (H.tells hosts.old) (H.tells hosts.new) }
    ensures alone { AreOfGuests steps.now → H.tells hosts.new ≡ H.tells hosts.old }

    // How it comes out, by causes that a caller sees.
    ensures decided { IsDecided (H.tells hosts.old) (H.tells hosts.new) steps.now result }
{
    let mut replies = Replies::new(alloc);
    // Where there is no room for all, each reply asks for its own.
    let _room = replies.reserve(steps.len());
    match play_all(alloc, &mut StepsLeft::new(steps), &mut replies, hosts) {
        Ok(Ended { moved, store }) => Ok(Transcript {
            replies,
            moved,
            store,
        }),
        Err(cause) => Err(stopped(cause, replies)),
    }
}

// A run that stopped behind these replies.
fn stopped(cause: RunCause, replies: Replies) -> RunStop
    requires few { length replies ≤ 4294967295 }
    ensures { result ≡ record { at = next_step replies; cause = cause; replies = replies } }
{
    RunStop {
        at: (replies.as_slice().len() as u32).saturating_add(1),
        cause,
        replies,
    }
}

//! Lanes carried from one guest to another, over one stream of bytes.
//!
//! Meaning: `OneStream.antt` of `strm_carry_laws`, for the steps and what they bring; `Carrying.antt`, for the
//! lanes. Ours.

ghost use Rattle.std.specs.Prelude.{◌≡◌, ◌≤◌, ◌∷◌, [], List, ℕ, length, IfOk, IfErr};
ghost use Rattle.strm_frames.specs.Demuxes.{IsDemuxFed};
ghost use Rattle.strm_frames.specs.Frames.{Frame};
ghost use Rattle.strm_frames.specs.Muxes.{MuxCarries};
ghost use Rattle.strm_laws.specs.Conservation.{moments, state_after_steps, replies_of};
ghost use Rattle.strm_machine.specs.Plays.{play, Ends};
ghost use Rattle.strm_laws.specs.Starts.{run_start};
ghost use Rattle.strm_memory.specs.Bytes.{IsBytes};
ghost use Rattle.strm_mux.specs.Carrying.{AreCarried, DeliversFrames, IsOneCount};
ghost use Rattle.strm_carry_laws.specs.OneStream.{AreSettled};
ghost use Rattle.strm_session.specs.Runs.{AreOfGuests, received_counts};

use crate::hearing::heard;
use crate::scripts::script;
use std::alloc::Global;
use strm_buffers::hosts::Hosts;
use strm_carry_laws::carries;
use strm_frames::demuxes::Demux;
use strm_frames::errors::MuxError;
use strm_frames::muxes::Mux;
use strm_lines::lists::{Replies, Steps};
use strm_machine::steps::Step;
use strm_session::runs::{RunCause, Transcript, run};

/// What was carried.
#[derive(Drop)]
pub struct Carried {
    /// The lanes, taken apart again.
    pub demux: Demux,
    /// The steps by which they were carried.
    pub steps: Steps,
    /// The machine's replies.
    pub replies: Replies,
    /// How many bytes came over the stream.
    pub moved: u64,
}

/// Carries all bytes of a mux over a new store, from guest 0 to guest 1, on one stream: they are written in
/// pieces of `write` bytes, read in pieces of `read`, and fed to a new demux.
pub fn carry(alloc: Global, mux: &Mux, write: u32, read: u32) -> Result<Carried, MuxError>
    requires write { (16 ≤ write) × (write ≤ 64) }
    requires read { (16 ≤ read) × (read ≤ 64) }
    requires few { length mux.now.bytes ≤ 1048576 }

    // The steps are those of these pieces, and the replies the machine's; the stream got the mux's bytes, and as
    // many were received.
    ensures carried { IfOk result (λ c.
        AreCarried write read mux.now.bytes c.steps c.replies c.moved) }

    // Each lane is what was put on it.
    ensures fed { IfOk result (λ c. IsDemuxFed c.demux mux.now.bytes) }
    ensures delivers { (given : List Frame) → MuxCarries mux.now given →
        IfOk result (λ c. DeliversFrames c.demux given) }

    // Nothing but running out of memory is an error.
    ensures err { IfErr result (λ error. error ≡ MuxError.OutOfMemory) }
{
    carries();
    let bytes = mux.bytes();
    hold_bytes(bytes);
    let steps = script(alloc, bytes, write, read)?;
    let played = play_all(alloc, steps.as_slice())?;
    let demux = heard(alloc, played.replies.as_slice())?;
    Ok(Carried {
        demux,
        steps,
        replies: played.replies,
        moved: played.moved,
    })
}

// What lies behind a slice of bytes is bytes.
fn hold_bytes(bytes: &[u8])
    ensures { IsBytes bytes.now }
{}

// What a run on one stream told.
#[derive(Drop)]
struct Played {
    replies: Replies,
    moved: u64,
}

// The count of the only stream.
fn only_count(counts: &[u128]) -> u64
    requires { IsOneCount counts.now }
    ensures { result ∷ [] ≡ counts.now }
{
    counts[0] as u64
}

// What is kept of a run on one stream.
fn told(transcript: Transcript) -> Played
    requires { IsOneCount transcript.moved }
    ensures replies { result.replies ≡ transcript.replies }
    ensures moved { result.moved ∷ [] ≡ transcript.moved }
{
    Played {
        moved: only_count(transcript.moved.as_slice()),
        replies: transcript.replies,
    }
}

// A run of guests alone that goes on behind each reply, on one stream.
fn play_all(alloc: Global, steps: &[Step]) -> Result<Played, MuxError>
    requires few { length steps.now ≤ 4294967295 }
    requires guests { AreOfGuests steps.now }
    requires settled { AreSettled (replies_of (moments run_start steps.now)) }
    requires one { IsOneCount (received_counts (state_after_steps run_start steps.now)) }
    ensures played { IfOk result (λ p.
        play [] run_start steps.now ≡ Ends p.replies (state_after_steps run_start steps.now)) }
    ensures told { IfOk result (λ p. p.replies ≡ replies_of (moments run_start steps.now)) }
    ensures moved { IfOk result (λ p.
        p.moved ∷ [] ≡ received_counts (state_after_steps run_start steps.now)) }
    ensures err { IfErr result (λ error. error ≡ MuxError.OutOfMemory) }
{
    let mut hosts = Hosts {
        writers: Vec::new(alloc),
        readers: Vec::new(alloc),
    };
    match run(alloc, steps, &mut hosts) {
        Ok(transcript) => Ok(told(transcript)),
        Err(stop) => match stop.cause {
            RunCause::OutOfMemory => Err(MuxError::OutOfMemory),
            RunCause::HostFailed { .. } => unreachable!(),
            RunCause::HostBroke { .. } => unreachable!(),
            RunCause::BadItem { .. } => unreachable!(),
        },
    }
}

//! Lanes: two on one stream, which is cut anywhere; and one that is carried over a store.

ghost use Rattle.std.specs.Prelude.{◌≡◌, ◌∷◌, [], true, false, slice_index_or, IfOk, IfSome};
ghost use Rattle.strm_machine.specs.Moments.{received};
ghost use Rattle.strm_laws.specs.Conservation.{state_after_steps};
ghost use Rattle.strm_laws.specs.Starts.{run_start};
ghost use Rattle.strm_frames.specs.Frames.{Data};
ghost use Rattle.strm_frames.specs.Muxes.{MuxCarries};
ghost use Rattle.strm_mux.specs.Carrying.{DeliversFrames};

use std::alloc::Global;
use strm_frames::demuxes::Demux;
use strm_frames::errors::MuxError;
use strm_frames::laws::one_reading;
use strm_frames::muxes::Mux;
use strm_mux::carrying::{Carried, carry};

/// Puts bytes on lanes 0 and 1 and ends lane 0, and takes the stream apart again, which comes in two pieces:
/// the first one has `cut` bytes, or all.
pub fn two_lanes(alloc: Global, first: &[u8], second: &[u8], cut: usize) -> Result<Demux, MuxError>
    ensures first { IfOk result (λ demux. slice_index_or demux.lanes 0 [] ≡ first.now) }
    ensures second { IfOk result (λ demux. slice_index_or demux.lanes 1 [] ≡ second.now) }
    ensures ended { IfOk result (λ demux. slice_index_or demux.ended 0 false ≡ true) }
    ensures unended { IfOk result (λ demux. slice_index_or demux.ended 1 false ≡ false) }
    ensures rest { IfOk result (λ demux. demux.rest ≡ []) }
{
    let mut mux = Mux::new(alloc);
    mux.put(0, first)?;
    mux.put(1, second)?;
    mux.end(0)?;
    let bytes = mux.bytes();
    let (front, back) = bytes.split_at(cut.min(bytes.len()));
    let mut demux = Demux::new(alloc);
    demux.feed(front)?;
    demux.feed(back)?;
    one_reading();
    Ok(demux)
}

// A mux of bytes on lane 0.
fn on_lane_0(alloc: Global, bytes: &[u8]) -> Result<Mux, MuxError>
    ensures { IfOk result (λ mux. MuxCarries mux (Data 0 bytes.now ∷ [])) }
{
    let mut mux = Mux::new(alloc);
    mux.put(0, bytes)?;
    Ok(mux)
}

/// Carries bytes on lane 0 from one guest to another over a new store, in pieces of 16 bytes; none where their
/// frames are more than a carry takes.
pub fn carry_lane(alloc: Global, bytes: &[u8]) -> Result<Option<Carried>, MuxError>
    ensures delivers { IfOk result (λ answer. IfSome answer (λ carried.
        DeliversFrames carried.demux (Data 0 bytes.now ∷ []))) }
    ensures moved { IfOk result (λ answer. IfSome answer (λ carried.
        carried.moved ≡ received 0 (state_after_steps run_start carried.steps))) }
{
    let mux = on_lane_0(alloc, bytes)?;
    if mux.bytes().len() > 1_048_576 {
        return Ok(None);
    }
    let carried = carry(alloc, &mux, 16, 16)?;
    Ok(Some(carried))
}

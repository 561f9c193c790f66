//! What the dumps of a run tell a demux.
//!
//! Meaning: `dumped` of `OneStream.antt` of `strm_carry_laws`, and `Hearing.antt`. Ours.

ghost use Rattle.std.specs.Prelude.{◌≡◌, ◌++◌, List, ℕ, None, IfOk, IfErr, OnOk};
ghost use Rattle.strm_frames.specs.Demuxes.{IsDemuxFed};
ghost use Rattle.strm_frames.specs.Streams.{AreWhole};
ghost use Rattle.strm_mux.specs.Hearing.{HearsOn};
ghost use Rattle.strm_carry_laws.specs.OneStream.{dumped, dumped_in};

use std::alloc::Global;
use strm_frames::demuxes::Demux;
use strm_frames::errors::MuxError;
use strm_machine::replies::Reply;

// Feeds a piece of whole frames.
fn feed(demux: &mut Demux, piece: &[u8]) -> Result<(), MuxError>
    requires { HearsOn demux.old piece.now }
    ensures ok { OnOk result ((before : List ℕ) →
        IsDemuxFed demux.old before → IsDemuxFed demux.new (before ++ piece.now)) }
    ensures well { OnOk result (demux.new.fault ≡ None) }
    ensures err { IfErr result (λ error. error ≡ MuxError.OutOfMemory) }
{
    match demux.feed(piece) {
        Ok(()) => Ok(()),
        Err(MuxError::OutOfMemory) => Err(MuxError::OutOfMemory),
        Err(MuxError::BadKind { .. }) => unreachable!(),
        Err(MuxError::EmptyFrame { .. }) => unreachable!(),
        Err(MuxError::AfterEnd { .. }) => unreachable!(),
        Err(MuxError::Ended { .. }) => unreachable!(),
    }
}

// Feeds the bytes that a reply tells, if it tells some.
fn hear(demux: &mut Demux, reply: &Reply) -> Result<(), MuxError>
    requires { HearsOn demux.old (dumped_in reply.now) }
    ensures ok { OnOk result ((before : List ℕ) →
        IsDemuxFed demux.old before → IsDemuxFed demux.new (before ++ dumped_in reply.now)) }
    ensures well { OnOk result (demux.new.fault ≡ None) }
    ensures err { IfErr result (λ error. error ≡ MuxError.OutOfMemory) }
{
    if let Reply::Bytes(chunk) = reply {
        feed(demux, chunk.as_slice())
    } else {
        Ok(())
    }
}

// What all these bytes tell, which are whole frames.
pub(crate) fn heard(alloc: Global, replies: &[Reply]) -> Result<Demux, MuxError>
    requires { AreWhole (dumped replies.now) }
    ensures ok { IfOk result (λ demux. IsDemuxFed demux (dumped replies.now)) }
    ensures err { IfErr result (λ error. error ≡ MuxError.OutOfMemory) }
{
    let mut demux = Demux::new(alloc);
    for reply in replies {
        hear(&mut demux, reply)?;
    }
    Ok(demux)
}

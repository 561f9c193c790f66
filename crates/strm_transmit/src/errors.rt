//! Why a call of the store did not answer.
//!
//! Ours: wasmtime answers with texts and traps.

ghost use Rattle.std.specs.Prelude.{◌≡◌};
ghost use Rattle.strm_transmit.specs.declared.errors.StoreError.TheVariants.{Refused as IsRefused, OutOfMemory as NoMemory};

use std::alloc::AllocError;
use strm_codes::counts::OutOfMemory;
use strm_codes::refusals::Refusal;
use strm_machine::streams::HostEnd;
use thiserror::Error;

/// Why a call did not answer.
#[derive(Clone, Copy, Debug, PartialEq, Eq, Error)]
pub enum StoreError {
    /// What was asked may not be done now: the first refusal that holds of those that the call's own line
    /// names, in their order there. Nothing has changed.
    #[error("refused: {0}")]
    Refused(Refusal),
    /// This host end failed. The store is trapped from now on.
    #[error("{end} failed")]
    HostFailed { end: HostEnd },
    /// This host end broke its rules. The store is trapped from now on.
    #[error("{end} broke its rules")]
    HostBroke { end: HostEnd },
    /// An item that was asked for on this stream is none of its type. None was moved, and the store is
    /// trapped from now on.
    #[error("an item of stream {stream} is none of its type")]
    BadItem { stream: u32 },
    /// An earlier call trapped the store. Nothing has changed.
    #[error("the store is trapped")]
    StoreTrapped,
    /// An allocation was refused. In a drive round, in a read that a host writer is to fill, and in a
    /// write that a host reader is to take from, the store is trapped from now on; anywhere else nothing
    /// has changed.
    #[error("out of memory")]
    OutOfMemory,
}

impl From<Refusal> for StoreError {
    ghost from_gives = { λ refusal error. error ≡ IsRefused refusal };

    fn from(refusal: Refusal) -> StoreError {
        StoreError::Refused(refusal)
    }
}

impl From<OutOfMemory> for StoreError {
    ghost from_gives = { λ _ error. error ≡ NoMemory };

    fn from(_error: OutOfMemory) -> StoreError {
        StoreError::OutOfMemory
    }
}

impl From<AllocError> for StoreError {
    ghost from_gives = { λ _ error. error ≡ NoMemory };

    fn from(_error: AllocError) -> StoreError {
        StoreError::OutOfMemory
    }
}

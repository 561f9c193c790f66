//! Why lanes were not carried.
//!
//! Meaning: `Streams.antt`. Ours.

ghost use Rattle.std.specs.Prelude.{◌≡◌};
ghost use Rattle.strm_frames.specs.Demuxes.{error_of};

use thiserror::Error;

/// The first fault of a stream, with the place of its frame's first byte. No place is above 2^64 - 1.
#[derive(Clone, Copy, Debug, PartialEq, Eq, Error)]
pub enum Fault {
    /// A frame begins neither with 00 nor with 01.
    #[error("the frame at byte {at} is of no kind")]
    BadKind { at: u64 },
    /// A data frame has no bytes.
    #[error("the frame at byte {at} has no bytes")]
    EmptyFrame { at: u64 },
    /// A whole frame names a lane that ended before.
    #[error("the frame at byte {at} names a lane that ended")]
    AfterEnd { at: u64 },
}

/// Why a mux or a demux did not do what it was asked.
#[derive(Clone, Copy, Debug, PartialEq, Eq, Error)]
pub enum MuxError {
    /// This lane ended before. Nothing has changed.
    #[error("lane {lane} ended")]
    Ended { lane: u8 },
    /// A frame begins neither with 00 nor with 01. The piece was not taken, and each later feed answers
    /// this again.
    #[error("the frame at byte {at} is of no kind")]
    BadKind { at: u64 },
    /// A data frame has no bytes. As for `BadKind`.
    #[error("the frame at byte {at} has no bytes")]
    EmptyFrame { at: u64 },
    /// A whole frame names a lane that ended before. As for `BadKind`.
    #[error("the frame at byte {at} names a lane that ended")]
    AfterEnd { at: u64 },
    /// An allocation was refused. Nothing has changed.
    #[error("out of memory")]
    OutOfMemory,
}

impl Fault {
    /// How it is answered.
    pub fn error(self) -> MuxError
        ensures { result ≡ error_of self }
    {
        match self {
            Fault::BadKind { at } => MuxError::BadKind { at },
            Fault::EmptyFrame { at } => MuxError::EmptyFrame { at },
            Fault::AfterEnd { at } => MuxError::AfterEnd { at },
        }
    }
}

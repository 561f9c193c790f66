//! Why there is no tape, or a run is not played as a tape says.
//!
//! Source: ours.

use thiserror::Error;

/// Why bytes were not made a tape, a run was not taken on tape, or a tape was not played.
#[derive(Clone, Copy, Debug, PartialEq, Eq, Error)]
pub enum TapeError {
    /// The bytes are no tape's spelling.
    #[error("not a tape")]
    NotATape,
    /// This host writer holds items before the run. It is the first that does.
    #[error("holding")]
    Holding { writer: u32 },
    /// A step has no place on a tape: the count of a future's read or write is not 1, a dump is not of 1
    /// to 64 bytes, or a poke is of none.
    #[error("not tapable")]
    NotTapable,
    /// The records that a host end added differ from the tape's: the first such end, host writers before
    /// host readers, and the first place at which they differ.
    #[error("differs")]
    Differs { reader: bool, end: u32, at: u32 },
    /// An allocation was refused. Nothing was kept.
    #[error("out of memory")]
    OutOfMemory,
}

//! Why a call of a shared store did not answer.
//!
//! Ours.

use thiserror::Error;

/// Why a call did not answer. It made no entry, but for a `Worn` after a read or write that waits.
#[derive(Clone, Copy, Debug, PartialEq, Eq, Error)]
pub enum SharedError {
    /// The step names a host end, or an end that is of no guest, or takes one from its guest. Nothing
    /// was tried.
    #[error("the step is of a host end")]
    HostStep,
    /// A read or write that may wait names a member of a waitable set, whose poll could take its report.
    #[error("the end is in a waitable set")]
    InSet,
    /// The step could take the report for which this other seat waits.
    #[error("seat {seat} waits for the report")]
    Waiting { seat: u64 },
    /// No ticket is left: all of these were drawn. The seat can make no call any more.
    #[error("no ticket is left after {ticket}")]
    Worn { ticket: u64 },
    /// No number is left for a new seat: all of these were given.
    #[error("no seat is left after {seats}")]
    NoSeat { seats: u64 },
    /// An allocation was refused. The store is as it was.
    #[error("out of memory")]
    OutOfMemory,
}

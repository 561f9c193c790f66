//! Why what was asked of a host end was not done. Ours.

use strm_ready_ends::errors::{FeedError, GrantError};
use strm_transmit::errors::StoreError;
use thiserror::Error;

/// Why the host ends of a stream had no turn, or why their turn stopped.
#[derive(Clone, Copy, Debug, PartialEq, Eq, Error)]
pub enum DriveError {
    /// An earlier call trapped the store. Nothing has changed.
    #[error("the store is trapped")]
    StoreTrapped,
    /// No stream got the number yet. Nothing has changed.
    #[error("no stream has that number")]
    UnknownStream,
    /// The turn stopped. The store is trapped from now on.
    #[error("stopped: {0}")]
    Stopped(StoreError),
}

/// No host end of this side has the number. Nothing has changed.
#[derive(Clone, Copy, Debug, PartialEq, Eq, Error)]
#[error("no host end has that number")]
pub struct UnknownHost;

/// Why a host writer was not fed. Nothing has changed.
#[derive(Clone, Copy, Debug, PartialEq, Eq, Error)]
pub enum HostFeedError {
    /// No host writer has the number.
    #[error("no host writer has that number")]
    UnknownHost,
    /// The host writer does not take it.
    #[error("not fed: {0}")]
    Refused(FeedError),
}

/// Why a host reader was not granted items. Nothing has changed.
#[derive(Clone, Copy, Debug, PartialEq, Eq, Error)]
pub enum HostGrantError {
    /// No host reader has the number.
    #[error("no host reader has that number")]
    UnknownHost,
    /// The host reader does not take it.
    #[error("not granted: {0}")]
    Refused(GrantError),
}

/// Why a host reader still wants items. Nothing has changed.
#[derive(Clone, Copy, Debug, PartialEq, Eq, Error)]
pub enum FinishError {
    /// No host reader has the number.
    #[error("no host reader has that number")]
    UnknownHost,
    /// An allocation was refused: the reader of a future needs room for its one item.
    #[error("out of memory")]
    OutOfMemory,
}

//! Why a read or write was not done, which in a store among guests traps nothing.
//!
//! Meaning: `Operations.antt`. Source: Canonical ABI, which traps the instance that lifts a bad char. Ours: that
//! the embedder is told whose it is, and ends that guest.

use strm_codes::refusals::Refusal;
use strm_transmit::BadItem;
use thiserror::Error;

/// Why a read or write was not done. Nothing has changed.
#[derive(Clone, Copy, Debug, PartialEq, Eq, Error)]
pub enum OperateError {
    /// What was asked may not be done now.
    #[error("refused: {0}")]
    Refused(Refusal),
    /// An item that was to move is none of its type. All other guests go on; this call answers the same
    /// again until the guest that writes the item, or the one that reads it, does something else.
    #[error("an item is none of its type")]
    BadItem(BadItem),
}

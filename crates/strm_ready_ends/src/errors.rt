//! Why a feed or a grant was not taken. Ours.

use thiserror::Error;

/// Why a feed was not taken: the first that holds, in this order. Nothing has changed.
#[derive(Clone, Copy, Debug, PartialEq, Eq, Error)]
pub enum FeedError {
    /// It was ended, or its stream is gone.
    #[error("no more may be fed")]
    Ended,
    /// A future is fed one item, and a writer holds at most 4,294,967,294.
    #[error("as many items may not be fed")]
    WrongCount,
    /// The bytes are not so many items, or one of these is none of its type.
    #[error("the bytes are not so many items")]
    BadItems,
    /// An allocation was refused.
    #[error("out of memory")]
    OutOfMemory,
}

/// Why a grant was not taken: the first that holds, in this order. Nothing has changed.
#[derive(Clone, Copy, Debug, PartialEq, Eq, Error)]
pub enum GrantError {
    /// It wants no more, or its stream is gone.
    #[error("no more is taken")]
    Ended,
    /// With what it keeps and what it was granted before there would be more than 4,294,967,294.
    #[error("too many items")]
    TooMany,
    /// An allocation was refused.
    #[error("out of memory")]
    OutOfMemory,
}

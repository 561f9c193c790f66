//! Why a call of a reader did not answer.
//!
//! Ours: wasmtime panics where a reader is used again or in another store, and answers the others by
//! texts.

ghost use Rattle.std.specs.Prelude.{◌≡◌};
ghost use Rattle.strm_host.specs.declared.reader_errors.ReaderError.TheVariants.{Store as OfStore};

use strm_codes::codes::TransmitKind;
use strm_codes::payloads::Payload;
use strm_transmit::errors::StoreError;
use thiserror::Error;

/// Why a call of a reader did not answer. Nothing has changed, but as `Store` says.
#[derive(Clone, Copy, Debug, PartialEq, Eq, Error)]
pub enum ReaderError {
    /// It was closed, piped, or given to a guest before.
    #[error("the reader was used before")]
    AlreadyClosed,
    /// It is of a store with the tag `reader`, and this one's is `store`.
    #[error("the reader is of another store")]
    ForeignReader {
        reader: u64,
        store: u64,
    },
    /// Its items are `found`, where `expected` was asked for.
    #[error("the reader has items of another type")]
    TypeMismatch {
        expected: Payload,
        found: Payload,
    },
    /// The host writer is of a stream or of a future, and not the one that was asked for.
    #[error("the host writer is of the other kind")]
    KindMismatch {
        expected: TransmitKind,
        found: TransmitKind,
    },
    /// The store did not answer, and what has changed is as it says.
    #[error("the store did not answer: {0}")]
    Store(StoreError),
}

impl From<StoreError> for ReaderError {
    ghost from_gives = { λ error reader. reader ≡ OfStore error };

    fn from(error: StoreError) -> ReaderError {
        ReaderError::Store(error)
    }
}

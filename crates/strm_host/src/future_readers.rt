//! The loose read end of a future, as a reader: its names, and how it changes its type.
//!
//! Source: wasmtime, `futures_and_streams.rs`, `FutureReader`, `GuardedFutureReader` and `FutureAny`.

ghost use Rattle.std.specs.Prelude.{◌≡◌};
ghost use Rattle.strm_host.specs.ReadEnds.{tested, any_tested, converted};

use crate::reader_errors::ReaderError;
use crate::readers::{AnyReader, GuardedReader, Reader, ReaderKind};
use strm_codes::codes::TransmitIndex;
use strm_codes::payloads::Payload;
use strm_memory::payloaded::Payloaded;
use strm_transmit::store::Store;

/// What is of futures.
#[derive(Clone, Copy, PartialEq)]
pub struct Futures;

impl ReaderKind for Futures {
    ghost use Rattle.std.specs.Prelude.{codes};
    ghost use Rattle.strm_codes.specs.declared.codes.TransmitIndex.TheVariants.{Future};

    ghost ty = { Future };

    ghost reader_name = { codes "FutureReader" };

    ghost any_name = { codes "FutureAny" };

    fn index(payload: Payload) -> TransmitIndex {
        TransmitIndex::Future(payload)
    }

    fn name() -> &'static str {
        "FutureReader"
    }

    fn name_of_any() -> &'static str {
        "FutureAny"
    }
}

/// The loose read end of a future of `T`s.
pub type FutureReader<T> = Reader<Futures, T>;

/// The same, closed or given back, and never forgotten.
pub type GuardedFutureReader<T> = GuardedReader<Futures, T>;

/// The loose read end of a future, of whatever items.
pub type FutureAny = AnyReader<Futures>;

impl<T: Payloaded> Reader<Futures, T> {
    /// Without its type. It comes back where it was used, or is of another store.
    pub fn try_into_future_any(
        self,
        store: &Store,
    ) -> Result<FutureAny, (FutureReader<T>, ReaderError)>
        ensures { result ≡ converted (tested self store.now.tag)
            (record { end = self; payload = T.payload; kind = record {} }) self }
    {
        self.without_type(store)
    }

    /// With its type again. What was given comes back where it was used, or has items of another type.
    pub fn try_from_future_any(any: FutureAny) -> Result<FutureReader<T>, (FutureAny, ReaderError)>
        ensures { result ≡ converted (any_tested any.end any.payload T.payload) any.end any }
    {
        Reader::with_type(any)
    }
}

impl<T: Payloaded> GuardedReader<Futures, T> {
    /// The reader, without the guard.
    pub fn into_future(self) -> FutureReader<T>
        ensures { result ≡ self.reader }
    {
        self.into_reader()
    }
}

impl AnyReader<Futures> {
    /// `FutureReader::try_from_future_any`.
    pub fn try_into_future_reader<T: Payloaded>(
        self,
    ) -> Result<FutureReader<T>, (FutureAny, ReaderError)>
        ensures { result ≡ converted (any_tested self.end self.payload T.payload) self.end self }
    {
        Reader::with_type(self)
    }

    /// `FutureReader::try_into_future_any`.
    pub fn try_from_future_reader<T: Payloaded>(
        store: &Store,
        reader: FutureReader<T>,
    ) -> Result<FutureAny, (FutureReader<T>, ReaderError)>
        ensures { result ≡ converted (tested reader store.now.tag)
            (record { end = reader; payload = T.payload; kind = record {} }) reader }
    {
        reader.without_type(store)
    }
}

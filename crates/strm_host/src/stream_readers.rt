//! The loose read end of a stream, as a reader: its names, and the call that streams alone have.
//!
//! Source: wasmtime, `futures_and_streams.rs`, `StreamReader`, `GuardedStreamReader` and `StreamAny`.

ghost use Rattle.std.specs.Prelude.{◌≡◌};
ghost use Rattle.strm_transmit.specs.Hosted.{StillFits, StillKnows};
ghost use Rattle.strm_host.specs.ReadEnds.{tested, any_tested, converted, Releases, left_by};

use crate::reader_errors::ReaderError;
use crate::readers::{AnyReader, GuardedReader, Reader, ReaderKind};
use strm_codes::codes::TransmitIndex;
use strm_codes::payloads::Payload;
use strm_memory::payloaded::Payloaded;
use strm_transmit::store::Store;

/// What is of streams.
#[derive(Clone, Copy, PartialEq)]
pub struct Streams;

impl ReaderKind for Streams {
    ghost use Rattle.std.specs.Prelude.{codes};
    ghost use Rattle.strm_codes.specs.declared.codes.TransmitIndex.TheVariants.{Stream};

    ghost ty = { Stream };

    ghost reader_name = { codes "StreamReader" };

    ghost any_name = { codes "StreamAny" };

    fn index(payload: Payload) -> TransmitIndex {
        TransmitIndex::Stream(payload)
    }

    fn name() -> &'static str {
        "StreamReader"
    }

    fn name_of_any() -> &'static str {
        "StreamAny"
    }
}

/// The loose read end of a stream of `T`s.
pub type StreamReader<T> = Reader<Streams, T>;

/// The same, closed or given back, and never forgotten.
pub type GuardedStreamReader<T> = GuardedReader<Streams, T>;

/// The loose read end of a stream, of whatever items.
pub type StreamAny = AnyReader<Streams>;

impl<T: Payloaded> Reader<Streams, T> {
    /// Takes the host writer back from its stream, which is removed, and closes nothing
    /// (`Store::try_release`): its number, and the reader is then used. None, and the reader stays, where
    /// no host writer writes the stream, or it has no more to come or holds items.
    pub fn try_into(&mut self, store: &mut Store) -> Result<Option<u32>, ReaderError>
        ensures calls { Releases self.old store.old store.new result }
        ensures left { self.new ≡ left_by result self.old }
        ensures fits { StillFits store.old store.new }
        ensures known { StillKnows store.old store.new }
    {
        self.end.try_release(store)
    }

    /// Without its type. It comes back where it was used, or is of another store.
    pub fn try_into_stream_any(
        self,
        store: &Store,
    ) -> Result<StreamAny, (StreamReader<T>, ReaderError)>
        ensures { result ≡ converted (tested self store.now.tag)
            (record { end = self; payload = T.payload; kind = record {} }) self }
    {
        self.without_type(store)
    }

    /// With its type again. What was given comes back where it was used, or has items of another type.
    pub fn try_from_stream_any(any: StreamAny) -> Result<StreamReader<T>, (StreamAny, ReaderError)>
        ensures { result ≡ converted (any_tested any.end any.payload T.payload) any.end any }
    {
        Reader::with_type(any)
    }
}

impl<T: Payloaded> GuardedReader<Streams, T> {
    /// The reader, without the guard.
    pub fn into_stream(self) -> StreamReader<T>
        ensures { result ≡ self.reader }
    {
        self.into_reader()
    }
}

impl AnyReader<Streams> {
    /// `StreamReader::try_from_stream_any`.
    pub fn try_into_stream_reader<T: Payloaded>(
        self,
    ) -> Result<StreamReader<T>, (StreamAny, ReaderError)>
        ensures { result ≡ converted (any_tested self.end self.payload T.payload) self.end self }
    {
        Reader::with_type(self)
    }

    /// `StreamReader::try_into_stream_any`.
    pub fn try_from_stream_reader<T: Payloaded>(
        store: &Store,
        reader: StreamReader<T>,
    ) -> Result<StreamAny, (StreamReader<T>, ReaderError)>
        ensures { result ≡ converted (tested reader store.now.tag)
            (record { end = reader; payload = T.payload; kind = record {} }) reader }
    {
        reader.without_type(store)
    }
}

//! The loose read end of a stream or future as a value of its item's type that is used once; the same
//! under a guard, and without the type.
//!
//! Source: wasmtime, `futures_and_streams.rs`, `StreamReader`, `FutureReader` and what is made of them,
//! which are written twice there. Ours: the store's tag is kept, and a reader that was used or is of
//! another store is an error, and no panic.

ghost use Rattle.std.specs.Prelude.{◌≡◌, ◌≢◌, Err, OnOk, OnErr, IfErr};
ghost use Rattle.strm_host_machine.specs.Does.{Fits};
ghost use Rattle.strm_transmit.specs.Hosted.{StillFits};
ghost use Rattle.strm_host.specs.ReadEnds.{used_read_end, reader_no_memory, tested, any_tested, converted, refused_only, Makes, Lifts, LowersReadEnd, PipesTo, Closes};

use crate::read_ends::ReadEnd;
use crate::reader_errors::ReaderError;
use std::fmt;
use std::marker::{Model, PhantomData};
use strm_codes::codes::TransmitIndex;
use strm_codes::payloads::Payload;
use strm_memory::payloaded::Payloaded;
use strm_transmit::host_ends::HostEnds;
use strm_transmit::store::Store;

/// What a reader is of, streams or futures, and how it prints.
pub trait ReaderKind {
    ghost use Rattle.std.specs.Prelude.{List, ℕ};
    ghost use Rattle.strm_codes.specs.declared.codes.TransmitIndex.{TransmitIndex};
    ghost use Rattle.strm_codes.specs.declared.payloads.Payload.{Payload};

    // The type of one with these items.
    ghost ty: { Payload → TransmitIndex };

    // The name of a reader, and that of one without its item's type.
    ghost reader_name: { List ℕ };

    ghost any_name: { List ℕ };

    /// The type of one with these items.
    fn index(payload: Payload) -> TransmitIndex
        ensures { result ≡ ty payload };

    /// What a reader prints as.
    fn name() -> &'static str
        ensures { result.now ≡ reader_name };

    /// What a reader without its item's type prints as.
    fn name_of_any() -> &'static str
        ensures { result.now ≡ any_name };
}

/// The loose read end of a stream or future of `T`s: a `StreamReader<T>` or a `FutureReader<T>`. A contract
/// sees it as its store's tag and the number of its stream or future.
pub struct Reader<K: ReaderKind, T: Payloaded> {
    pub(crate) end: ReadEnd,
    kind: PhantomData<K>,
    items: PhantomData<T>,
}

impl<K: ReaderKind, T: Payloaded> Model for Reader<K, T> {
    ghost use Rattle.strm_host.specs.declared.read_ends.ReadEnd.{ReadEnd};

    ghost Value = { ReadEnd };

    ghost view = { λ reader. reader.end };

    ghost inverse = { λ end. record { end = end; kind = record {}; items = record {} } };
}

impl<K: ReaderKind, T: Payloaded> Drop for Reader<K, T> {
    fn drop(self) {
        let Reader {
            end: _,
            kind: _,
            items: _,
        } = self;
    }
}

impl<K: ReaderKind, T: Payloaded> Reader<K, T> {
    // The reader of this end.
    fn of(end: ReadEnd) -> Reader<K, T>
        ensures { result ≡ end }
    {
        Reader {
            end,
            kind: PhantomData,
            items: PhantomData,
        }
    }

    // The type of its stream or future.
    fn ty() -> TransmitIndex
        ensures { result ≡ K.ty T.payload }
    {
        K::index(T::payload())
    }

    /// A stream or future that a host writer writes (`Store::host_new`). Refused, in this order, are a
    /// number of no host writer, one of the other kind, one of another type, one that was used, and a stream
    /// or future past the limit on places.
    pub fn new<H: HostEnds>(
        store: &mut Store,
        hosts: &H,
        writer: u32,
    ) -> Result<Reader<K, T>, ReaderError>
        requires fits { Fits store.old (H.tells hosts.now) }
        ensures calls { Makes store.old store.new (H.tells hosts.now) writer (K.ty T.payload)
            result }
        ensures fits { Fits store.new (H.tells hosts.now) }
    {
        let end = ReadEnd::host(store, hosts, writer, Reader::<K, T>::ty())?;
        Ok(Reader::of(end))
    }

    /// Takes the read end out of a guest (`Store::lift`).
    pub fn lift(store: &mut Store, guest: u32, handle: u32) -> Result<Reader<K, T>, ReaderError>
        ensures calls { Lifts store.old store.new guest (K.ty T.payload) handle result }
        ensures fits { StillFits store.old store.new }
        ensures takes_no_memory { result ≢ Err reader_no_memory }
    {
        let end = ReadEnd::lift(store, guest, Reader::<K, T>::ty(), handle)?;
        Ok(Reader::of(end))
    }

    /// Gives a guest the read end (`Store::lower`): its handle. The reader is then used; an error leaves
    /// it.
    pub fn lower(&mut self, store: &mut Store, guest: u32) -> Result<u32, ReaderError>
        ensures calls { LowersReadEnd self.old store.old store.new guest (K.ty T.payload) result }
        ensures ok { OnOk result (self.new ≡ used_read_end self.old) }
        ensures err { OnErr result (self.new ≡ self.old) }
        ensures fits { StillFits store.old store.new }
    {
        self.end.lower(store, guest, Reader::<K, T>::ty())
    }

    /// Gives the read end to a host reader, by its number (`Store::pipe`). Nothing is polled. The reader is
    /// then used; an error leaves it.
    pub fn pipe<H: HostEnds>(
        &mut self,
        store: &mut Store,
        hosts: &mut H,
        reader: u32,
    ) -> Result<(), ReaderError>
        requires fits { Fits store.old (H.tells hosts.old) }
        ensures calls { PipesTo self.old store.old store.new (H.tells hosts.old) (H.tells hosts.new)
            reader result }
        ensures ok { OnOk result (self.new ≡ used_read_end self.old) }
        ensures err { OnErr result (self.new ≡ self.old) }
        ensures fits { Fits store.new (H.tells hosts.new) }
        ensures takes_no_memory { result ≢ Err reader_no_memory }
    {
        self.end.pipe(store, hosts, reader)
    }

    /// Drops the read end (`Store::close`). The reader is then used; an error leaves it.
    pub fn close<H: HostEnds>(
        &mut self,
        store: &mut Store,
        hosts: &mut H,
    ) -> Result<(), ReaderError>
        requires fits { Fits store.old (H.tells hosts.old) }
        ensures calls { Closes self.old store.old store.new (H.tells hosts.old) (H.tells hosts.new)
            result }
        ensures ok { OnOk result (self.new ≡ used_read_end self.old) }
        ensures err { OnErr result (self.new ≡ self.old) }
        ensures fits { Fits store.new (H.tells hosts.new) }
        ensures takes_no_memory { result ≢ Err reader_no_memory }
    {
        self.end.close(store, hosts)
    }

    /// Under a guard, which has to be spent.
    pub fn guard(self) -> GuardedReader<K, T>
        ensures { result.reader ≡ self }
    {
        GuardedReader { reader: self }
    }

    /// Without its type. It comes back where it was used, or is of another store.
    pub(crate) fn without_type(
        self,
        store: &Store,
    ) -> Result<AnyReader<K>, (Reader<K, T>, ReaderError)>
        ensures { result ≡ converted (tested self store.now.tag)
            (record { end = self; payload = T.payload; kind = record {} }) self }
    {
        match self.end.test(store) {
            Some(error) => Err((self, error)),
            None => Ok(AnyReader {
                end: self.end,
                payload: T::payload(),
                kind: PhantomData,
            }),
        }
    }

    /// With its type again. What was given comes back where it was used, or has items of another type.
    pub(crate) fn with_type(any: AnyReader<K>) -> Result<Reader<K, T>, (AnyReader<K>, ReaderError)>
        ensures { result ≡ converted (any_tested any.end any.payload T.payload) any.end any }
    {
        match any.end.test_any(any.payload, T::payload()) {
            Some(error) => Err((any, error)),
            None => Ok(Reader::of(any.end)),
        }
    }
}

impl<K: ReaderKind, T: Payloaded> fmt::Debug for Reader<K, T> {
    ghost use Rattle.std.specs.Prelude.{Some};
    ghost use Rattle.strm_host.specs.ReadEnds.{reader_text};

    ghost debug_output = { λ reader. Some (reader_text K.reader_name reader) };

    fn fmt<W: fmt::Write>(&self, f: &mut fmt::Formatter<W>) -> fmt::Result {
        let id = self.end.id();
        let name = K::name();
        write!(f, "{name} {{ id: {id:?} }}")
    }
}

/// A reader that is closed or given back, and never forgotten: a `GuardedStreamReader<T>` or a
/// `GuardedFutureReader<T>`.
pub struct GuardedReader<K: ReaderKind, T: Payloaded> {
    reader: Reader<K, T>,
}

impl<K: ReaderKind, T: Payloaded> GuardedReader<K, T> {
    /// Guards a reader.
    pub fn new(reader: Reader<K, T>) -> GuardedReader<K, T>
        ensures { result.reader ≡ reader }
    {
        GuardedReader { reader }
    }

    /// The reader, without the guard.
    pub(crate) fn into_reader(self) -> Reader<K, T>
        ensures { result ≡ self.reader }
    {
        let GuardedReader { reader } = self;
        reader
    }

    /// `Reader::close`. The guard comes back with an error.
    pub fn close<H: HostEnds>(
        self,
        store: &mut Store,
        hosts: &mut H,
    ) -> Result<(), (GuardedReader<K, T>, ReaderError)>
        requires fits { Fits store.old (H.tells hosts.old) }
        ensures calls { Closes self.reader store.old store.new (H.tells hosts.old)
            (H.tells hosts.new) (refused_only result) }
        ensures back { IfErr result (λ back. back.0.reader ≡ self.reader) }
        ensures fits { Fits store.new (H.tells hosts.new) }
        ensures takes_no_memory { refused_only result ≢ Err reader_no_memory }
    {
        let GuardedReader { mut reader } = self;
        match reader.close(store, hosts) {
            Ok(()) => Ok(()),
            Err(error) => Err((GuardedReader { reader }, error)),
        }
    }
}

/// The loose read end of a stream or future, of whatever items: a `StreamAny` or a `FutureAny`.
#[derive(Clone, Copy, PartialEq)]
pub struct AnyReader<K: ReaderKind> {
    end: ReadEnd,
    payload: Payload,
    kind: PhantomData<K>,
}

impl<K: ReaderKind> AnyReader<K> {
    /// What one item is.
    pub fn payload(&self) -> Payload
        ensures { result ≡ self.now.payload }
    {
        self.payload
    }

    /// `Reader::close`.
    pub fn close<H: HostEnds>(
        &mut self,
        store: &mut Store,
        hosts: &mut H,
    ) -> Result<(), ReaderError>
        requires fits { Fits store.old (H.tells hosts.old) }
        ensures calls { Closes self.old.end store.old store.new (H.tells hosts.old)
            (H.tells hosts.new) result }
        ensures ok { OnOk result (self.new ≡ record self.old { end = used_read_end self.old.end }) }
        ensures err { OnErr result (self.new ≡ self.old) }
        ensures fits { Fits store.new (H.tells hosts.new) }
        ensures takes_no_memory { result ≢ Err reader_no_memory }
    {
        self.end.close(store, hosts)
    }
}

impl<K: ReaderKind> fmt::Debug for AnyReader<K> {
    ghost use Rattle.std.specs.Prelude.{Some};
    ghost use Rattle.strm_host.specs.ReadEnds.{reader_text};

    ghost debug_output = { λ any. Some (reader_text K.any_name any.end) };

    fn fmt<W: fmt::Write>(&self, f: &mut fmt::Formatter<W>) -> fmt::Result {
        let id = self.end.id();
        let name = K::name_of_any();
        write!(f, "{name} {{ id: {id:?} }}")
    }
}

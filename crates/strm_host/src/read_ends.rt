//! What readers of streams and of futures, and those without their type, have in common: the loose read
//! end that each of them stands for, and the calls that use it up.
//!
//! Source: wasmtime, `futures_and_streams.rs`, `StreamReader`, `FutureReader`, `StreamAny`,
//! `FutureAny`. Ours: the store's tag.

ghost use Rattle.std.specs.Prelude.{◌≡◌, ◌≢◌, ◌==◌, Err, OnOk, OnErr};
ghost use Rattle.strm_host_machine.specs.Does.{Fits};
ghost use Rattle.strm_transmit.specs.Hosted.{StillFits, StillKnows};
ghost use Rattle.strm_host.specs.ReadEnds.{loose_read_end, used_read_end, reader_no_memory, tested, host_tested, any_tested, Makes, Lifts, LowersReadEnd, PipesTo, Closes, UsesUp, Releases, left_by};

use crate::reader_errors::ReaderError;
use strm_codes::codes::TransmitIndex;
use strm_codes::ids::{TableId, TransmitHandle};
use strm_codes::payloads::Payload;
use strm_transmit::host_ends::HostEnds;
use strm_transmit::store::Store;

// The number of a read end that was used. No stream has it.
const USED: u32 = 4_294_967_295;

/// A loose read end: the tag of its store, and the number of its stream.
#[derive(Clone, Copy, PartialEq)]
pub struct ReadEnd {
    tag: u64,
    id: TableId<TransmitHandle>,
}

impl ReadEnd {
    // The read end of this stream of the store with this tag.
    fn of(tag: u64, stream: u32) -> ReadEnd
        ensures { result ≡ loose_read_end tag stream }
    {
        ReadEnd {
            tag,
            id: TableId::new(stream),
        }
    }

    /// The number of its stream.
    pub(crate) fn id(&self) -> TableId<TransmitHandle>
        ensures { result ≡ self.now.id }
    {
        self.id
    }

    // Whether it was used.
    fn is_used(&self) -> bool
        ensures { result ≡ (self.now.id == 4294967295) }
    {
        self.id.rep() == USED
    }

    // It is used from now on.
    fn use_up(&mut self)
        ensures { self.new ≡ used_read_end self.old }
    {
        self.id = TableId::new(USED);
    }

    /// Why a call of it is refused before its store is asked, if it is.
    pub(crate) fn test(&self, store: &Store) -> Option<ReaderError>
        ensures { result ≡ tested self.now store.now.tag }
    {
        if self.is_used() {
            return Some(ReaderError::AlreadyClosed);
        }
        if self.tag == store.tag() {
            return None;
        }
        Some(ReaderError::ForeignReader {
            reader: self.tag,
            store: store.tag(),
        })
    }

    /// Why it is no read end of this payload, if it isn't: its own is `payload`.
    pub(crate) fn test_any(&self, payload: Payload, expected: Payload) -> Option<ReaderError>
        ensures { result ≡ any_tested self.now payload expected }
    {
        if self.is_used() {
            return Some(ReaderError::AlreadyClosed);
        }
        if expected == payload {
            return None;
        }
        Some(ReaderError::TypeMismatch {
            expected,
            found: payload,
        })
    }

    /// `Store::host_new` of a host writer of this type.
    pub(crate) fn host<H: HostEnds>(
        store: &mut Store,
        hosts: &H,
        writer: u32,
        ty: TransmitIndex,
    ) -> Result<ReadEnd, ReaderError>
        requires fits { Fits store.old (H.tells hosts.now) }
        ensures calls { Makes store.old store.new (H.tells hosts.now) writer ty result }
        ensures fits { Fits store.new (H.tells hosts.now) }
    {
        match test_host(store, hosts, writer, &ty) {
            Some(error) => return Err(error),
            None => {}
        }
        let tag = store.tag();
        let stream = store.host_new(hosts, writer)?;
        Ok(ReadEnd::of(tag, stream))
    }

    /// `Store::lift` of an end of this type.
    pub(crate) fn lift(
        store: &mut Store,
        guest: u32,
        ty: TransmitIndex,
        handle: u32,
    ) -> Result<ReadEnd, ReaderError>
        ensures calls { Lifts store.old store.new guest ty handle result }
        ensures fits { StillFits store.old store.new }
        ensures takes_no_memory { result ≢ Err reader_no_memory }
    {
        let tag = store.tag();
        let stream = store.lift(guest, ty, handle)?;
        Ok(ReadEnd::of(tag, stream))
    }

    /// `Store::lower`. After Ok it is used.
    pub(crate) fn lower(
        &mut self,
        store: &mut Store,
        guest: u32,
        ty: TransmitIndex,
    ) -> Result<u32, ReaderError>
        ensures calls { LowersReadEnd self.old store.old store.new guest ty result }
        ensures ok { OnOk result (self.new ≡ used_read_end self.old) }
        ensures err { OnErr result (self.new ≡ self.old) }
        ensures fits { StillFits store.old store.new }
    {
        match self.test(store) {
            Some(error) => return Err(error),
            None => {}
        }
        let handle = store.lower(self.id.rep(), guest, ty)?;
        self.use_up();
        Ok(handle)
    }

    /// `Store::pipe`. After Ok it is used.
    pub(crate) fn pipe<H: HostEnds>(
        &mut self,
        store: &mut Store,
        hosts: &mut H,
        reader: u32,
    ) -> Result<(), ReaderError>
        requires fits { Fits store.old (H.tells hosts.old) }
        ensures calls { PipesTo self.old store.old store.new (H.tells hosts.old) (H.tells hosts.new)
            reader result }
        ensures uses_up { UsesUp self.old self.new store.new (H.tells hosts.new) result }
    {
        match self.test(store) {
            Some(error) => return Err(error),
            None => {}
        }
        store.pipe(hosts, self.id.rep(), reader)?;
        self.use_up();
        Ok(())
    }

    /// `Store::try_release`. After a number it is used.
    pub(crate) fn try_release(&mut self, store: &mut Store) -> Result<Option<u32>, ReaderError>
        ensures calls { Releases self.old store.old store.new result }
        ensures left { self.new ≡ left_by result self.old }
        ensures fits { StillFits store.old store.new }
        ensures known { StillKnows store.old store.new }
    {
        match self.test(store) {
            Some(error) => return Err(error),
            None => {}
        }
        match store.try_release(self.id.rep()) {
            Some(number) => {
                self.use_up();
                Ok(Some(number))
            }
            None => Ok(None),
        }
    }

    /// `Store::close`. After Ok it is used.
    pub(crate) fn close<H: HostEnds>(
        &mut self,
        store: &mut Store,
        hosts: &mut H,
    ) -> Result<(), ReaderError>
        requires fits { Fits store.old (H.tells hosts.old) }
        ensures calls { Closes self.old store.old store.new (H.tells hosts.old) (H.tells hosts.new)
            result }
        ensures uses_up { UsesUp self.old self.new store.new (H.tells hosts.new) result }
    {
        match self.test(store) {
            Some(error) => return Err(error),
            None => {}
        }
        store.close(hosts, self.id.rep())?;
        self.use_up();
        Ok(())
    }
}

// Why a host writer is not of a type, if it isn't.
fn test_host<H: HostEnds>(
    store: &Store,
    hosts: &H,
    writer: u32,
    ty: &TransmitIndex,
) -> Option<ReaderError>
    ensures { result ≡ host_tested store.now (H.tells hosts.now) writer ty.now }
{
    let number = writer as usize;
    if store.trapped() || number >= hosts.count_writers() || number >= 64 {
        return None;
    }
    let (kind, payload) = (hosts.writer_kind(number), hosts.writer_payload(number));
    if ty.kind() != kind {
        return Some(ReaderError::KindMismatch {
            expected: ty.kind(),
            found: kind,
        });
    }
    if ty.payload() != payload {
        return Some(ReaderError::TypeMismatch {
            expected: ty.payload(),
            found: payload,
        });
    }
    None
}

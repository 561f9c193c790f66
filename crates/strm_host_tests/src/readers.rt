//! Readers, guards and error contexts on a store, and what they refuse.

ghost use Rattle.std.specs.Prelude.{◌≡◌};
ghost use Rattle.strm_host_machine.specs.Does.{Fits};

use crate::answers::is;
use crate::copying::Copying;
use crate::polls::{BYTES, DROPPED, poll};
use std::alloc::Global;
use std::process::Abort;
use strm_buffers::hosts::Hosts;
use strm_buffers::readers::HostReader;
use strm_buffers::writers::HostWriter;
use strm_codes::codes::TransmitKind;
use strm_codes::payloads::Payload;
use strm_codes::refusals::Refusal;
use strm_codes::scalars::Scalar;
use strm_codes::vals::Val;
use strm_host::erased::Erased;
use strm_host::erased_readers::ErasedReader;
use strm_host::error_contexts::{ErrorContext, NotErrorContext};
use strm_host::future_readers::FutureReader;
use strm_host::reader_errors::ReaderError;
use strm_host::stream_readers::{StreamAny, StreamReader};
use strm_memory::payloaded::Payloaded;
use strm_transmit::Limits;
use strm_transmit::errors::StoreError;
use strm_transmit::host_ends::HostEnds;
use strm_transmit::store::Store;

const LIMITS: Limits = Limits {
    handles: 9,
    places: 9,
};

const WORDS: Payload = Payload::One(Scalar::U32);

// A store of this tag with one guest of 16 bytes.
fn store_of(rt: &impl Abort, alloc: Global, tag: u64) -> Store {
    let mut store = Store::new(alloc, tag, LIMITS);
    is(rt, store.add_guest(16), Ok(0));
    store
}

// A list of this host writer.
fn hosts_of(rt: &impl Abort, alloc: Global, writer: Box<dyn HostWriter>) -> Hosts {
    let mut writers = Vec::new(alloc);
    writers.push(writer).expect(rt, "memory");
    Hosts {
        writers,
        readers: Vec::new(alloc),
    }
}

// The host ends are those that the store needs.
fn must_fit<H: HostEnds>(rt: &impl Abort, store: &Store, hosts: &H)
    ensures { Fits store.now (H.tells hosts.now) }
{
    if store.fits(hosts) {
        return;
    }
    panic!(rt; "other host ends");
}

// No reader of host writer 0 is made as of a stream of these items.
fn is_refused<T: Payloaded>(
    rt: &impl Abort,
    store: &mut Store,
    hosts: &Hosts,
    wanted: ReaderError,
) {
    must_fit(rt, store, hosts);
    let answer: Result<StreamReader<T>, ReaderError> = StreamReader::new(store, hosts, 0);
    match answer {
        Ok(_) => panic!(rt; "a reader"),
        Err(error) => is(rt, error, wanted),
    }
}

// Nor as of a future.
fn is_no_future(rt: &impl Abort, store: &mut Store, hosts: &Hosts, wanted: ReaderError) {
    must_fit(rt, store, hosts);
    let answer: Result<FutureReader<u8>, ReaderError> = FutureReader::new(store, hosts, 0);
    match answer {
        Ok(_) => panic!(rt; "a reader"),
        Err(error) => is(rt, error, wanted),
    }
}

// A reader of host writer 0, of bytes.
fn reader_of(rt: &impl Abort, store: &mut Store, hosts: &Hosts) -> StreamReader<u8> {
    must_fit(rt, store, hosts);
    match StreamReader::new(store, hosts, 0) {
        Ok(reader) => reader,
        Err(_) => panic!(rt; "no reader"),
    }
}

fn closes(
    rt: &impl Abort,
    reader: &mut StreamReader<u8>,
    store: &mut Store,
    hosts: &mut Hosts,
    wanted: Result<(), ReaderError>,
) {
    must_fit(rt, store, hosts);
    is(rt, reader.close(store, hosts), wanted);
}

#[test]
fn a_reader_is_of_its_type_and_is_used_once(rt: HostRuntime) {
    let alloc = rt.alloc();
    let bytes = [7u8, 8].to_vec(alloc).expect(&rt, "memory");
    let writer = Box::new(alloc, Erased::stream(alloc, bytes)).expect(&rt, "memory");
    let mut hosts = hosts_of(&rt, alloc, writer);
    let mut store = store_of(&rt, alloc, 0);
    let expected = WORDS;
    let found = BYTES;
    let mismatch = ReaderError::TypeMismatch { expected, found };
    is_refused::<u32>(&rt, &mut store, &hosts, mismatch);
    let expected = TransmitKind::Future;
    let found = TransmitKind::Stream;
    let mismatch = ReaderError::KindMismatch { expected, found };
    is_no_future(&rt, &mut store, &hosts, mismatch);
    let mut reader = reader_of(&rt, &mut store, &hosts);
    let used = ReaderError::Store(StoreError::Refused(Refusal::HostUsed));
    is_refused::<u8>(&rt, &mut store, &hosts, used);
    let mut other = store_of(&rt, alloc, 1);
    let foreign = ReaderError::ForeignReader {
        reader: 0,
        store: 1,
    };
    is(&rt, reader.lower(&mut other, 0), Err(foreign));
    closes(&rt, &mut reader, &mut store, &mut hosts, Ok(()));
    let closed = Err(ReaderError::AlreadyClosed);
    closes(&rt, &mut reader, &mut store, &mut hosts, closed);
}

// The read end of a stream of bytes between a guest and itself, and the handle of its write end.
fn lifted(rt: &impl Abort, store: &mut Store) -> (StreamReader<u8>, u32) {
    let pair = store.stream_new(0, BYTES).expect(rt, "a stream");
    match StreamReader::lift(store, 0, pair.read) {
        Ok(reader) => (reader, pair.write),
        Err(_) => panic!(rt; "no read end"),
    }
}

// The number of the host writer that a reader gives back, if it does.
fn gives_back(
    rt: &impl Abort,
    reader: &mut StreamReader<u8>,
    store: &mut Store,
    wanted: Result<Option<u32>, ReaderError>,
) {
    is(rt, StreamReader::try_into(reader, store), wanted);
}

// It gives nothing back, and can't be closed.
fn is_used_up(
    rt: &impl Abort,
    reader: &mut StreamReader<u8>,
    store: &mut Store,
    hosts: &mut Hosts,
) {
    gives_back(rt, reader, store, Err(ReaderError::AlreadyClosed));
    closes(rt, reader, store, hosts, Err(ReaderError::AlreadyClosed));
}

// The writer that was given back is used outside its list, which the store needs no more.
fn is_had_again(rt: &impl Abort, alloc: Global, store: &Store, hosts: &mut Hosts) {
    match hosts.writers.pop() {
        Some(mut writer) => poll(rt, alloc, &mut writer, false, DROPPED, &[7, 8]),
        None => panic!(rt; "no writer"),
    }
    is(rt, store.fits(hosts), true);
}

/// It is not closed, and its stream is removed.
#[test]
fn a_host_writer_is_given_back(rt: HostRuntime) {
    let alloc = rt.alloc();
    let bytes = [7u8, 8].to_vec(alloc).expect(&rt, "memory");
    let writer = Box::new(alloc, Erased::stream(alloc, bytes)).expect(&rt, "memory");
    let mut hosts = hosts_of(&rt, alloc, writer);
    let mut store = store_of(&rt, alloc, 0);
    let mut reader = reader_of(&rt, &mut store, &hosts);
    gives_back(&rt, &mut reader, &mut store, Ok(Some(0)));
    is_used_up(&rt, &mut reader, &mut store, &mut hosts);
    is(&rt, store.transmit_index(0), None);
    is_had_again(&rt, alloc, &store, &mut hosts);
}

/// Of a guest's stream there is none to give back.
#[test]
fn a_reader_of_a_guest_gives_nothing_back(rt: HostRuntime) {
    let mut hosts = Hosts {
        writers: Vec::new(rt.alloc()),
        readers: Vec::new(rt.alloc()),
    };
    let mut store = store_of(&rt, rt.alloc(), 0);
    let (mut reader, _) = lifted(&rt, &mut store);
    gives_back(&rt, &mut reader, &mut store, Ok(None));
    closes(&rt, &mut reader, &mut store, &mut hosts, Ok(()));
}

// It is piped to host reader 0, to which the guest then writes.
fn pipes(rt: &impl Abort, store: &mut Store, hosts: &mut Hosts) {
    let (mut reader, handle) = lifted(rt, store);
    must_fit(rt, store, hosts);
    is(rt, reader.pipe(store, hosts, 0), Ok(()));
    must_fit(rt, store, hosts);
    is(
        rt,
        reader.pipe(store, hosts, 0),
        Err(ReaderError::AlreadyClosed),
    );
    must_fit(rt, store, hosts);
    match store.stream_write(hosts, 0, BYTES, handle, 0, 3) {
        Ok(code) => is(rt, code.encode(), 0x30),
        Err(_) => panic!(rt; "no code"),
    }
}

#[test]
fn a_consumer_takes_what_a_guest_writes(rt: HostRuntime) {
    let alloc = rt.alloc();
    let copying = Copying {
        bytes: Vec::new(alloc),
    };
    let erased = ErasedReader::stream(alloc, copying);
    let reader: Box<dyn HostReader> = Box::new(alloc, erased).expect(&rt, "memory");
    let mut readers = Vec::new(alloc);
    readers.push(reader).expect(&rt, "memory");
    let mut hosts = Hosts {
        writers: Vec::new(alloc),
        readers,
    };
    let mut store = store_of(&rt, alloc, 0);
    pipes(&rt, &mut store, &mut hosts);
    is(&rt, store.moved(0), Some(3));
}

// Without its type.
fn any_of(rt: &impl Abort, store: &Store, reader: StreamReader<u8>) -> StreamAny {
    match reader.try_into_stream_any(store) {
        Ok(any) => any,
        Err(_) => panic!(rt; "a type"),
    }
}

// With another type than its own it comes back.
fn comes_back(rt: &impl Abort, any: StreamAny, wanted: ReaderError) -> StreamAny {
    match any.try_into_stream_reader::<u32>() {
        Ok(_) => panic!(rt; "a reader of words"),
        Err((any, error)) => {
            is(rt, error, wanted);
            any
        }
    }
}

// With its own type again.
fn typed(rt: &impl Abort, any: StreamAny) -> StreamReader<u8> {
    match any.try_into_stream_reader() {
        Ok(reader) => reader,
        Err(_) => panic!(rt; "no reader of bytes"),
    }
}

#[test]
fn a_type_is_taken_off_and_put_on_again(rt: HostRuntime) {
    let alloc = rt.alloc();
    let mut store = store_of(&rt, alloc, 0);
    let (reader, _) = lifted(&rt, &mut store);
    let any = any_of(&rt, &store, reader);
    is(&rt, any.payload(), BYTES);
    let expected = WORDS;
    let found = BYTES;
    let mismatch = ReaderError::TypeMismatch { expected, found };
    let any = comes_back(&rt, any, mismatch);
    let guarded = typed(&rt, any).guard();
    let mut reader = guarded.into_stream();
    is(&rt, reader.lower(&mut store, 0), Ok(1));
    let again = reader.lower(&mut store, 0);
    is(&rt, again, Err(ReaderError::AlreadyClosed));
}

#[test]
fn an_error_context_passes_through_a_value(rt: HostRuntime) {
    let alloc = rt.alloc();
    let mut store = store_of(&rt, alloc, 0);
    let handle = store.error_context_new(0, 0, 0).expect(&rt, "a context");
    let context = ErrorContext::lift(&store, 0, handle).expect(&rt, "a context");
    is(
        &rt,
        ErrorContext::from_val(&context.into_val()),
        Ok(context),
    );
    let item = Val::Item(7u8.lower());
    is(&rt, ErrorContext::from_val(&item), Err(NotErrorContext));
    is(&rt, context.lower(&mut store, 0), Ok(2));
}

//! Each consumer once, boxed; a future's; and a read that meets a bad item.

ghost use Rattle.std.specs.Prelude.{◌≡◌};

use crate::answers::is;
use crate::awaited::Awaited;
use crate::copying::Copying;
use crate::latest::Latest;
use crate::polls::COMPLETED;
use crate::summing::Summing;
use std::alloc::Global;
use std::marker::PhantomData;
use std::process::Abort;
use strm_buffers::answers::{HostTurn, Turn};
use strm_buffers::boxes::{close_reader, grant, poll_reader, reader_kind, reader_payload};
use strm_buffers::offers::Offer;
use strm_buffers::readers::HostReader;
use strm_codes::codes::TransmitKind;
use strm_codes::payloads::Payload;
use strm_codes::scalars::Scalar;
use strm_host::erased_readers::ErasedReader;
use strm_host::sources::{ReadError, Source};
use strm_memory::memories::GuestMemory;

// A boxed reader is offered these bytes as so many items of a stream: its turn, and how many it took.
fn poll(
    rt: &impl Abort,
    alloc: Global,
    reader: &mut Box<dyn HostReader>,
    bytes: &[u8],
    count: u32,
    turn: HostTurn,
    taken: u32,
) {
    let payload = reader_payload(reader);
    let size = payload.size() as u64 * count as u64;
    is(rt, bytes.len() as u64, size);
    let memory = GuestMemory::of_bytes(bytes.to_vec(alloc).expect(rt, "memory"));
    let mut offer = Offer::of_memory(memory, payload, 0, count, 0);
    is(rt, poll_reader(reader, &mut offer, false), turn);
    is(rt, offer.taken(), taken);
}

#[test]
fn a_sum_takes_all_that_is_offered(rt: HostRuntime) {
    let alloc = rt.alloc();
    let erased = ErasedReader::stream(alloc, Summing { alloc, sum: 0 });
    let mut reader: Box<dyn HostReader> = Box::new(alloc, erased).expect(&rt, "memory");
    is(&rt, reader_kind(&reader), TransmitKind::Stream);
    let bytes = &[1, 0, 0, 0, 2, 1, 0, 0];
    poll(&rt, alloc, &mut reader, bytes, 2, COMPLETED, 2);
    poll(&rt, alloc, &mut reader, &[], 0, COMPLETED, 0);
    is(&rt, grant(&mut reader, 3), Ok(()));
    close_reader(&mut reader);
    is(&rt, reader.records(), 2);
}

#[test]
fn one_item_a_poll_is_taken(rt: HostRuntime) {
    let alloc = rt.alloc();
    let erased = ErasedReader::stream(alloc, Latest { last: None });
    let mut reader: Box<dyn HostReader> = Box::new(alloc, erased).expect(&rt, "memory");
    let bytes = &[1, 0, 0, 0, 2, 1, 0, 0];
    poll(&rt, alloc, &mut reader, bytes, 2, COMPLETED, 1);
}

#[test]
fn bytes_are_read_where_they_lie(rt: HostRuntime) {
    let alloc = rt.alloc();
    let bytes = Vec::new(alloc);
    let erased = ErasedReader::stream(alloc, Copying { bytes });
    let mut reader: Box<dyn HostReader> = Box::new(alloc, erased).expect(&rt, "memory");
    poll(&rt, alloc, &mut reader, &[7, 8, 9], 3, COMPLETED, 3);
}

#[test]
fn a_future_is_completed_by_its_value(rt: HostRuntime) {
    let alloc = rt.alloc();
    let erased = ErasedReader::future(alloc, Awaited { value: None });
    let mut reader: Box<dyn HostReader> = Box::new(alloc, erased).expect(&rt, "memory");
    is(&rt, reader_kind(&reader), TransmitKind::Future);
    poll(&rt, alloc, &mut reader, &[], 0, Turn::Pending, 0);
    poll(&rt, alloc, &mut reader, &[5, 0, 0, 0], 1, COMPLETED, 1);
}

#[test]
fn a_read_stops_at_a_bad_item(rt: HostRuntime) {
    let alloc = rt.alloc();
    let bytes = [97u8, 0, 0, 0, 0, 216, 0, 0, 98, 0, 0, 0]
        .to_vec(alloc)
        .expect(&rt, "memory");
    let chars = Payload::One(Scalar::Char);
    let mut offer = Offer::of_memory(GuestMemory::of_bytes(bytes), chars, 0, 3, 0);
    let mut source: Source<'_, char> = Source {
        offer: &mut offer,
        items: PhantomData,
    };
    let mut read: Vec<char> = Vec::with_capacity(alloc, 3).expect(&rt, "memory");
    is(&rt, source.remaining(), 3);
    is(&rt, source.read(&mut read), Err(ReadError::BadItem));
    is(&rt, read.as_slice(), ['a'].as_slice());
    is(&rt, offer.taken(), 1);
    is(&rt, offer.bad(), true);
}

#[test]
fn items_are_taken_in_one_piece(rt: HostRuntime) {
    let alloc = rt.alloc();
    let bytes = [97u8, 0, 0, 0, 98, 0, 0, 0, 0, 216, 0, 0, 99, 0, 0, 0]
        .to_vec(alloc)
        .expect(&rt, "memory");
    let chars = Payload::One(Scalar::Char);
    let mut offer = Offer::of_memory(GuestMemory::of_bytes(bytes), chars, 0, 4, 0);
    let mut source: Source<'_, char> = Source {
        offer: &mut offer,
        items: PhantomData,
    };
    is(&rt, source.take_up_to(1), Ok(()));
    is(&rt, source.taken_bytes(), [97, 0, 0, 0].as_slice());
    is(&rt, source.take_up_to(4), Err(ReadError::BadItem));
    is(
        &rt,
        source.taken_bytes(),
        [97, 0, 0, 0, 98, 0, 0, 0].as_slice(),
    );
    is(&rt, offer.bad(), true);
}

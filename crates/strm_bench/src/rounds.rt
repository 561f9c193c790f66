//! Rounds on a store: a write of 8 items waits, a read takes them, and the write is told.

ghost use Rattle.strm_host_machine.specs.Does.{Fits};

use std::alloc::Global;
use strm_buffers::hosts::Hosts;
use strm_codes::codes::{ReturnCode, TransmitIndex};
use strm_codes::payloads::Payload;
use strm_machine::limits::Limits;
use strm_transmit::errors::StoreError;
use strm_transmit::host_ends::HostEnds;
use strm_transmit::store::Store;

/// The guest that is made first writes.
const WRITER: u32 = 0;

/// The other one reads.
const READER: u32 = 1;

/// The bytes of each guest's memory.
const SIZE: u32 = 1_048_576;

/// The items of a write.
const COUNT: u32 = 8;

/// Where writes begin, 8 bytes apart, so that 8 items of up to 8 bytes lie in memory.
const PLACES: u32 = 65_536;

const LIMITS: Limits = Limits {
    handles: 2,
    places: 3,
};

/// What the rounds add up to: the words of all codes that were answered or told, and the items
/// received.
#[derive(Clone, Copy)]
pub struct Told {
    pub words: u64,
    pub received: u128,
}

/// So many rounds on a new store with a stream from one guest to another.
pub(crate) fn run(alloc: Global, items: Payload, rounds: u32) -> Result<Told, StoreError> {
    let mut store = Store::new(alloc, 0, LIMITS);
    let mut hosts = Hosts {
        writers: Vec::new(alloc),
        readers: Vec::new(alloc),
    };
    run_on(&mut store, &mut hosts, items, rounds)
}

// The same on a store that is lent.
fn run_on<H: HostEnds>(
    store: &mut Store,
    hosts: &mut H,
    items: Payload,
    rounds: u32,
) -> Result<Told, StoreError>
    requires { Fits store.old (H.tells hosts.old) }
{
    store.add_guest(SIZE)?;
    store.add_guest(SIZE)?;
    let payload = items;
    let pair = store.new_between(WRITER, READER, TransmitIndex::Stream(payload))?;
    let words = repeat(store, hosts, items, pair.write, pair.read, rounds)?;
    Ok(Told {
        words,
        received: store.moved(pair.stream).unwrap_or(0),
    })
}

// So many rounds: the words of all codes.
fn repeat<H: HostEnds>(
    store: &mut Store,
    hosts: &mut H,
    items: Payload,
    write: u32,
    read: u32,
    rounds: u32,
) -> Result<u64, StoreError>
    requires { Fits store.old (H.tells hosts.old) }
{
    let mut words = 0u64;
    for round in 0..rounds {
        let address = round % PLACES * 8;
        let written = store.stream_write(hosts, WRITER, items, write, address, COUNT)?;
        let taken = store.stream_read(hosts, READER, items, read, address, COUNT)?;
        let told = store
            .take_event(WRITER, write)?
            .unwrap_or(ReturnCode::Blocked);
        words = added(words, written, taken, told);
    }
    Ok(words)
}

fn added(words: u64, written: ReturnCode, read: ReturnCode, told: ReturnCode) -> u64 {
    let words = words.wrapping_add(u64::from(written.encode()));
    let words = words.wrapping_add(u64::from(read.encode()));
    words.wrapping_add(u64::from(told.encode()))
}

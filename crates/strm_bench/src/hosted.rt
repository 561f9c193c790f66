//! Host writers on a store: feeds that a guest reads at once, and a long list that it reads in pieces.

ghost use Rattle.std.specs.Prelude.{IfOk, OnOk};
ghost use Rattle.strm_transmit.specs.Hosted.{StillFits};
ghost use Rattle.strm_host_machine.specs.Does.{Fits};

use crate::sums::sum_of;
use std::alloc::{AllocError, Global};
use strm_codes::codes::TransmitIndex;
use strm_codes::payloads::Payload;
use strm_codes::scalars::Scalar;
use strm_machine::chunks::Chunk;
use strm_machine::limits::Limits;
use strm_machine::steps::Step;
use strm_transmit::errors::StoreError;
use strm_transmit::host_ends::HostEnds;
use strm_transmit::steps::apply;
use strm_transmit::store::Store;

/// The bytes of a guest's memory that feeds are read into.
pub const FED: u32 = 1_048_576;

/// The bytes of a list.
pub const LISTED: u32 = 67_108_864;

/// The bytes of a feed or a grant, and of the read or write behind it.
pub const FEED: u32 = 64;

/// The bytes of a read from a list, and of a write of one.
pub const PIECE: u32 = 65_536;

/// The bytes of a page.
const PAGE: u32 = 4_096;

/// The payload of its streams.
pub const BYTES: Payload = Payload::One(Scalar::U8);

const LIMITS: Limits = Limits {
    handles: 1,
    places: 3,
};

/// A list of so many bytes.
pub(crate) fn list(alloc: Global, len: u32) -> Result<Vec<u8>, AllocError> {
    vec![in alloc; 7u8; len as usize]
}

// The bytes of a feed.
fn fed() -> Chunk {
    Chunk::new(&[7; 64]).unwrap()
}

/// A feed of the first host writer.
pub(crate) fn feed() -> Step {
    Step::Feed {
        host: 0,
        bytes: fed(),
    }
}

/// A byte is written to each page of the first guest's memory.
pub(crate) fn touch(store: &mut Store, size: u32) -> Result<(), StoreError>
    ensures { OnOk result (StillFits store.old store.new) }
{
    let bytes = fed();
    let mut address = 0u32;
    for _ in 0..size / PAGE {
        store.poke(0, address, &bytes)?;
        address = address.wrapping_add(PAGE);
    }
    Ok(())
}

// A new guest of so many bytes gets the stream of the first host writer: the stream's number, and
// the guest's handle.
fn prepare<H: HostEnds>(store: &mut Store, hosts: &H, size: u32) -> Result<(u32, u32), StoreError>
    requires { Fits store.old (H.tells hosts.now) }
    ensures { OnOk result (Fits store.new (H.tells hosts.now)) }
{
    store.add_guest(size)?;
    touch(store, size)?;
    let stream = store.host_new(hosts, 0)?;
    let handle = store.lower(stream, 0, TransmitIndex::Stream(BYTES))?;
    Ok((stream, handle))
}

/// A step that is no read and no write; its reply is not looked at.
pub(crate) fn done<H: HostEnds>(
    store: &mut Store,
    hosts: &mut H,
    step: &Step,
) -> Result<(), StoreError>
    requires { Fits store.old (H.tells hosts.old) }
    ensures { Fits store.new (H.tells hosts.new) }
{
    match apply(store, hosts, step) {
        Ok(_) => Ok(()),
        Err(error) => Err(error),
    }
}

/// A store with one guest, which reads the stream of the first host writer.
#[derive(Drop)]
pub struct Reading {
    store: Store,
    stream: u32,
    handle: u32,
}

impl Reading {
    /// The guest has so many bytes.
    pub(crate) fn new<H: HostEnds>(
        alloc: Global,
        hosts: &H,
        size: u32,
    ) -> Result<Reading, StoreError>
        ensures { IfOk result (λ reading. Fits reading.store (H.tells hosts.now)) }
    {
        let mut store = Store::new(alloc, 0, LIMITS);
        match prepare(&mut store, hosts, size) {
            Ok((stream, handle)) => Ok(Reading {
                store,
                stream,
                handle,
            }),
            Err(error) => Err(error),
        }
    }

    /// So many feeds, each read at once, or a list.
    pub(crate) fn work<H: HostEnds>(
        &mut self,
        hosts: &mut H,
        feeds: Option<u32>,
    ) -> Result<(), StoreError>
        requires { Fits self.old.store (H.tells hosts.old) }
    {
        match feeds {
            Some(rounds) => self.feed_and_read(hosts, rounds),
            None => self.read_list(hosts),
        }
    }

    // Feeds the writer, and reads what it was fed, so many times.
    #[inline(never)]
    fn feed_and_read<H: HostEnds>(&mut self, hosts: &mut H, rounds: u32) -> Result<(), StoreError>
        requires { Fits self.old.store (H.tells hosts.old) }
    {
        let step = feed();
        for round in 0..rounds {
            done(&mut self.store, hosts, &step)?;
            let address = round % (FED / FEED) * FEED;
            self.store
                .stream_read(hosts, 0, BYTES, self.handle, address, FEED)?;
        }
        Ok(())
    }

    // Reads a list, piece behind piece.
    #[inline(never)]
    fn read_list<H: HostEnds>(&mut self, hosts: &mut H) -> Result<(), StoreError>
        requires { Fits self.old.store (H.tells hosts.old) }
    {
        for piece in 0..LISTED / PIECE {
            self.store
                .stream_read(hosts, 0, BYTES, self.handle, piece * PIECE, PIECE)?;
        }
        Ok(())
    }

    /// How many bytes were read.
    pub(crate) fn received(&self) -> u128 {
        self.store.moved(self.stream).unwrap_or(0)
    }

    /// The sum of the guest's memory, modulo 2^64.
    pub(crate) fn sum(&self) -> u64 {
        match self.store.memory(0) {
            Some(bytes) => sum_of(bytes),
            None => 0,
        }
    }
}

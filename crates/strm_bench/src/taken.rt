//! Host readers on a store: grants that a guest's write follows at once, a long list that a guest writes
//! in pieces, and drive rounds while one write waits.

ghost use Rattle.std.specs.Prelude.{IfOk, OnOk};
ghost use Rattle.strm_transmit.specs.Hosted.{StillFits};
ghost use Rattle.strm_host_machine.specs.Does.{Fits};

use crate::hosted::{BYTES, FED, FEED, LISTED, PIECE, touch};
use std::alloc::Global;
use strm_codes::codes::TransmitIndex;
use strm_machine::limits::Limits;
use strm_transmit::errors::StoreError;
use strm_transmit::host_ends::HostEnds;
use strm_transmit::store::Store;

/// Streams beside the one that is driven.
pub const BESIDE: u32 = 20_000;

/// Drive rounds.
pub const DRIVES: u32 = 100_000;

/// What is timed of writes: so many grants, each written at once, a list, or so many drive rounds.
#[derive(Clone, Copy)]
pub(crate) enum Work {
    Grants(u32),
    List,
    Drives(u32),
}

const LIMITS: Limits = Limits {
    handles: 65_536,
    places: 65_536,
};

// So many streams from the first guest to itself.
fn fill(store: &mut Store, count: u32) -> Result<(), StoreError>
    ensures { OnOk result (StillFits store.old store.new) }
{
    for _ in 0..count {
        store.stream_new(0, BYTES)?;
    }
    Ok(())
}

// A new guest of so many bytes writes a stream that the first host reader reads, beside so many others:
// the stream's number, and the guest's handle.
fn prepare<H: HostEnds>(
    store: &mut Store,
    hosts: &mut H,
    size: u32,
    beside: u32,
) -> Result<(u32, u32), StoreError>
    requires { Fits store.old (H.tells hosts.old) }
    ensures { OnOk result (Fits store.new (H.tells hosts.new)) }
{
    store.add_guest(size)?;
    touch(store, size)?;
    fill(store, beside)?;
    let pair = store.stream_new(0, BYTES)?;
    let stream = store.lift(0, TransmitIndex::Stream(BYTES), pair.read)?;
    store.pipe(hosts, stream, 0)?;
    Ok((stream, pair.write))
}

/// A store with one guest, which writes the stream of the first host reader.
#[derive(Drop)]
pub struct Writing {
    store: Store,
    stream: u32,
    handle: u32,
}

impl Writing {
    /// The guest has so many bytes, and so many other streams.
    pub(crate) fn new<H: HostEnds>(
        alloc: Global,
        hosts: &mut H,
        size: u32,
        beside: u32,
    ) -> Result<Writing, StoreError>
        ensures { IfOk result (λ writing. Fits writing.store (H.tells hosts.new)) }
    {
        let mut store = Store::new(alloc, 0, LIMITS);
        match prepare(&mut store, hosts, size, beside) {
            Ok((stream, handle)) => Ok(Writing {
                store,
                stream,
                handle,
            }),
            Err(error) => Err(error),
        }
    }

    /// Writes, by what is timed of it.
    pub(crate) fn work<H: HostEnds>(&mut self, hosts: &mut H, work: Work) -> Result<(), StoreError>
        requires { Fits self.old.store (H.tells hosts.old) }
    {
        match work {
            Work::Grants(rounds) => self.grant_and_write(hosts, rounds),
            Work::List => self.write_list(hosts),
            Work::Drives(rounds) => self.drive(hosts, rounds),
        }
    }

    // Grants the reader some bytes, and writes as many, so many times.
    #[inline(never)]
    fn grant_and_write<H: HostEnds>(&mut self, hosts: &mut H, rounds: u32) -> Result<(), StoreError>
        requires { Fits self.old.store (H.tells hosts.old) }
    {
        for round in 0..rounds {
            self.store.grant(hosts, 0, FEED)?;
            let address = round % (FED / FEED) * FEED;
            self.store
                .stream_write(hosts, 0, BYTES, self.handle, address, FEED)?;
        }
        Ok(())
    }

    // Writes a list, piece behind piece.
    #[inline(never)]
    fn write_list<H: HostEnds>(&mut self, hosts: &mut H) -> Result<(), StoreError>
        requires { Fits self.old.store (H.tells hosts.old) }
    {
        for piece in 0..LISTED / PIECE {
            self.store
                .stream_write(hosts, 0, BYTES, self.handle, piece * PIECE, PIECE)?;
        }
        Ok(())
    }

    // Writes some bytes, for which the reader has no credit, and drives so many times.
    #[inline(never)]
    fn drive<H: HostEnds>(&mut self, hosts: &mut H, rounds: u32) -> Result<(), StoreError>
        requires { Fits self.old.store (H.tells hosts.old) }
    {
        self.store
            .stream_write(hosts, 0, BYTES, self.handle, 0, FEED)?;
        for _ in 0..rounds {
            self.store.drive_once(hosts)?;
        }
        Ok(())
    }

    /// How many bytes were taken.
    pub(crate) fn taken(&self) -> u128 {
        self.store.moved(self.stream).unwrap_or(0)
    }
}

//! Pipes from a host writer to a host reader, in drive rounds.

ghost use Rattle.std.specs.Prelude.{IfOk, OnOk};
ghost use Rattle.strm_host_machine.specs.Does.{Fits};

use crate::hosted::{FEED, done, feed};
use std::alloc::Global;
use strm_machine::limits::Limits;
use strm_transmit::errors::StoreError;
use strm_transmit::host_ends::HostEnds;
use strm_transmit::store::Store;

/// Rounds in which 64 bytes pass.
pub const ROUNDS: u32 = 100_000;

const LIMITS: Limits = Limits {
    handles: 0,
    places: 3,
};

// The first host writer is piped to the first host reader: the stream's number.
fn attach<H: HostEnds>(store: &mut Store, hosts: &mut H) -> Result<u32, StoreError>
    requires { Fits store.old (H.tells hosts.old) }
    ensures { OnOk result (Fits store.new (H.tells hosts.new)) }
{
    let stream = store.host_new(hosts, 0)?;
    store.pipe(hosts, stream, 0)?;
    Ok(stream)
}

/// A store without guests, and a pipe.
#[derive(Drop)]
pub struct Piping {
    store: Store,
    stream: u32,
}

impl Piping {
    /// From the first host writer to the first host reader.
    pub(crate) fn new<H: HostEnds>(alloc: Global, hosts: &mut H) -> Result<Piping, StoreError>
        ensures { IfOk result (λ piping. Fits piping.store (H.tells hosts.new)) }
    {
        let mut store = Store::new(alloc, 0, LIMITS);
        match attach(&mut store, hosts) {
            Ok(stream) => Ok(Piping { store, stream }),
            Err(error) => Err(error),
        }
    }

    /// So many rounds, each behind a feed and a grant, or one of a list.
    pub(crate) fn work<H: HostEnds>(
        &mut self,
        hosts: &mut H,
        feeds: Option<u32>,
    ) -> Result<(), StoreError>
        requires { Fits self.old.store (H.tells hosts.old) }
    {
        match feeds {
            Some(rounds) => self.feed_and_drive(hosts, rounds),
            None => self.store.drive_once(hosts),
        }
    }

    // Feeds the writer, grants the reader as many bytes, and drives, so many times.
    #[inline(never)]
    fn feed_and_drive<H: HostEnds>(&mut self, hosts: &mut H, rounds: u32) -> Result<(), StoreError>
        requires { Fits self.old.store (H.tells hosts.old) }
    {
        let step = feed();
        for _ in 0..rounds {
            done(&mut self.store, hosts, &step)?;
            self.store.grant(hosts, 0, FEED)?;
            self.store.drive_once(hosts)?;
        }
        Ok(())
    }

    /// How many bytes passed.
    pub(crate) fn passed(&self) -> u128 {
        self.store.moved(self.stream).unwrap_or(0)
    }
}

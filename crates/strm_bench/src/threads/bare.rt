//! The rounds on a store of one owner, which keeps no history.

ghost use Rattle.strm_host_machine.specs.Does.{Fits};

use crate::threads::calls::{GUEST, LIMITS, event, items, new, read, write};
use std::alloc::Global;
use strm_buffers::hosts::Hosts;
use strm_machine::steps::Step;
use strm_transmit::host_ends::HostEnds;
use strm_transmit::steps::apply;
use strm_transmit::store::Store;

/// So many rounds: how many items they moved.
pub(crate) fn rounds(alloc: Global, rounds: u32) -> u64 {
    let mut store = Store::new(alloc, 0, LIMITS);
    let mut hosts = Hosts {
        writers: Vec::new(alloc),
        readers: Vec::new(alloc),
    };
    if !store.fits(&hosts) {
        return 0;
    }
    repeat(&mut store, &mut hosts, rounds)
}

fn repeat<H: HostEnds>(store: &mut Store, hosts: &mut H, rounds: u32) -> u64
    requires { Fits store.old (H.tells hosts.old) }
{
    let mut moved = does(store, hosts, &GUEST).wrapping_add(does(store, hosts, &new(0)));
    for round in 0..rounds {
        moved = moved.wrapping_add(does(store, hosts, &write(0, 2, round)));
        moved = moved.wrapping_add(does(store, hosts, &read(0, 1, round)));
        moved = moved.wrapping_add(does(store, hosts, &event(0, 2)));
    }
    moved
}

// One step: how many items it moved.
fn does<H: HostEnds>(store: &mut Store, hosts: &mut H, step: &Step) -> u64
    requires { Fits store.old (H.tells hosts.old) }
    ensures { Fits store.new (H.tells hosts.new) }
{
    match apply(store, hosts, step) {
        Ok(reply) => items(&reply),
        Err(_) => 0,
    }
}

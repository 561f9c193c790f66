//! What is asked of a history: that a store of one owner gives the same replies.

ghost use Rattle.std.specs.Prelude.{OnOk};
ghost use Rattle.strm_shared.specs.Causes.{IsOf};
ghost use Rattle.strm_host_machine.specs.Does.{Fits};

use crate::shared::stores::LIMITS;
use std::alloc::Global;
use std::sync::Wait;
use strm_buffers::hosts::Hosts;
use strm_machine::replies::Reply;
use strm_machine::steps::Step;
use strm_shared::{Entry, History, Seat, SharedStore};
use strm_transmit::errors::StoreError;
use strm_transmit::host_ends::HostEnds;
use strm_transmit::steps::apply;
use strm_transmit::store::Store;

// Sees that the host ends are those that the store needs.
fn fit<H: HostEnds>(store: &Store, hosts: &H) -> Result<(), ()>
    ensures { OnOk result (Fits store.now (H.tells hosts.now)) }
{
    if store.fits(hosts) { Ok(()) } else { Err(()) }
}

// What a store of one owner replies.
fn reply_of(store: &mut Store, hosts: &mut Hosts, step: &Step) -> Option<Reply> {
    match fit(store, hosts) {
        Ok(()) => match apply(store, hosts, step) {
            Ok(reply) => Some(reply),
            Err(StoreError::BadItem { stream }) => Some(Reply::BadItem { stream }),
            Err(StoreError::StoreTrapped) => Some(Reply::StoreTrapped),
            Err(_) => None,
        },
        Err(()) => None,
    }
}

fn is_reply(store: &mut Store, hosts: &mut Hosts, entry: &Entry) -> bool {
    reply_of(store, hosts, &entry.step) == Some(entry.reply)
}

fn are_replies(store: &mut Store, hosts: &mut Hosts, history: &History) -> bool {
    let mut right = true;
    for k in 0..history.len() {
        if let Some(entry) = history.get(k) {
            right = right && is_reply(store, hosts, &entry);
        }
    }
    right
}

/// Whether a store of one owner gives the replies of a history to its steps.
pub(crate) fn is_replayed(alloc: Global, history: &History) -> bool {
    let mut store = Store::new(alloc, 0, LIMITS);
    let mut hosts = Hosts {
        writers: Vec::new(alloc),
        readers: Vec::new(alloc),
    };
    are_replies(&mut store, &mut hosts, history)
}

/// The history that a store ends with.
pub(crate) fn history<R: Wait>(rt: &R, store: SharedStore, seat: Seat) -> Option<History>
    requires { IsOf store seat }
{
    match store.close(rt, seat) {
        Ok(closed) => Some(closed.history),
        Err(_) => None,
    }
}

/// Whether a store ends with a history that a store of one owner has.
pub(crate) fn ends_right<R: Wait>(rt: &R, alloc: Global, store: SharedStore, seat: Seat) -> bool
    requires { IsOf store seat }
{
    match history(rt, store, seat) {
        Some(history) => is_replayed(alloc, &history),
        None => false,
    }
}

//! The tables by example.

use crate::answers::is;
use strm_codes::payloads::Payload;
use strm_codes::scalars::Scalar;
use strm_handles::counters::HandleCounter;
use strm_handles::entries::{
    RemovedResource, Scope, TransmitLocalState, TypedResource, TypedResourceIndex, Waitable,
};
use strm_handles::errors::HandleError;
use strm_handles::tables::HandleTable;
use strm_handles::threads::ThreadHandleTable;

const BYTES: Payload = Payload::One(Scalar::U8);

/// A resource that is lent is not removed, and a lend counts as a handle does.
#[test]
fn lends(rt: HostRuntime) {
    let mut counter = HandleCounter::new(2);
    let mut table = HandleTable::new(rt.alloc());
    let file = TypedResourceIndex::new(7, 1);
    let own = TypedResource::new(7, 70);
    is(&rt, table.resource_own_insert(&mut counter, own), Ok(1));
    is(&rt, table.resource_lend(&mut counter, file), Ok((70, true)));
    is(&rt, counter.live(), 2);
    let lent = table.remove_resource(&mut counter, file);
    is(&rt, lent, Err(HandleError::Lent));
    is(&rt, table.resource_undo_lend(&mut counter, file), Ok(()));
    let removed = table.remove_resource(&mut counter, file);
    is(&rt, removed, Ok(RemovedResource::Own { rep: 70 }));
}

/// The states of ends.
#[test]
fn states(rt: HostRuntime) {
    let mut counter = HandleCounter::new(100);
    let mut table = HandleTable::new(rt.alloc());
    let write = table.stream_insert_write(&mut counter, BYTES, 3);
    is(&rt, write, Ok(1));
    let done = TransmitLocalState::Write { done: true };
    is(&rt, table.stream_set_state(BYTES, 1, done), Ok(()));
    is(&rt, table.stream_rep(BYTES, 1), Ok((3, done)));
    let read = table.future_insert_read(&mut counter, BYTES, 4);
    is(&rt, read, Ok(2));
    let busy = TransmitLocalState::Busy { reading: true };
    is(&rt, table.future_set_state(BYTES, 2, busy), Ok(()));
    is(&rt, table.future_rep(BYTES, 2), Ok((4, busy)));
}

#[test]
fn borrows(rt: HostRuntime) {
    let mut counter = HandleCounter::new(0);
    counter.set_limit(100);
    is(&rt, counter.limit(), 100);
    let mut table = HandleTable::new(rt.alloc());
    let borrow = TypedResource::new(7, 70);
    let inserted = table.resource_borrow_insert(&mut counter, borrow, Scope(9));
    is(&rt, inserted, Ok(1));
    let index = TypedResourceIndex::new(7, 1);
    is(&rt, index.raw_index(), 1);
    is(&rt, table.resource_rep(index), Ok(70));
    let lent = table.resource_lend(&mut counter, index);
    is(&rt, lent, Ok((70, false)));
    let removed = RemovedResource::Borrow { scope: Scope(9) };
    is(&rt, table.remove_resource(&mut counter, index), Ok(removed));
}

#[test]
fn subtasks(rt: HostRuntime) {
    let mut counter = HandleCounter::new(100);
    let mut table = HandleTable::new(rt.alloc());
    is(&rt, table.subtask_insert_guest(&mut counter, 2), Ok(1));
    is(&rt, table.subtask_insert_host(&mut counter, 3), Ok(2));
    is(&rt, table.subtask_rep(1), Ok((2, false)));
    let waitable = table.waitable_rep(2);
    is(&rt, waitable, Ok((3, Waitable::Subtask { is_host: true })));
    is(&rt, table.subtask_remove(&mut counter, 2), Ok((3, true)));
}

#[test]
fn threads(rt: HostRuntime) {
    let mut counter = HandleCounter::new(1);
    let mut table = ThreadHandleTable::new(rt.alloc());
    is(&rt, table.guest_thread_insert(&mut counter, 5), Ok(1));
    is(&rt, table.guest_thread_rep(1), Ok(5));
    let over = table.guest_thread_insert(&mut counter, 6);
    is(&rt, over, Err(HandleError::HandleLimit));
    is(&rt, table.guest_thread_remove(&mut counter, 1), Ok(5));
    let found = table.guest_thread_rep(1);
    is(&rt, found, Err(HandleError::UnknownHandle));
}

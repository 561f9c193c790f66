//! The calls of a chain's store, each of a step that the machine does; and steps and replies of its streams.
//!
//! Meaning: `Playing.antt`. Ours.

ghost use Rattle.std.specs.Prelude.{◌≡◌, ◌≤◌, false};
ghost use Rattle.strm_machine.specs.Acts.{act_of};
ghost use Rattle.strm_machine.specs.Reactions.{react, goes};
ghost use Rattle.strm_machine.specs.declared.replies.Reply.TheVariants as replies;
ghost use Rattle.strm_machine.specs.declared.steps.Step.TheVariants as steps;
ghost use Rattle.strm_host_machine.specs.Steps.{touches};
ghost use Rattle.strm_host_machine.specs.Does.{Fits};
ghost use Rattle.strm_transmit.specs.Hosted.{lone};
ghost use Rattle.strm_transmit.specs.Guests.{nobody};
ghost use Rattle.strm_transmit.specs.declared.errors.StoreError.TheVariants.{OutOfMemory as NoMemory};
ghost use Rattle.strm_chain.specs.Playing.{bytes_type, operation, IsDone};

use std::alloc::Global;
use strm_buffers::hosts::Hosts;
use strm_codes::codes::{ReturnCode, TransmitIndex};
use strm_codes::counts::OutOfMemory;
use strm_codes::payloads::Payload;
use strm_codes::scalars::Scalar;
use strm_machine::acts::NamedEnd;
use strm_machine::chunks::Chunk;
use strm_machine::replies::Reply;
use strm_machine::steps::Step;
use strm_machine::streams::Side;
use strm_transmit::errors::StoreError;
use strm_transmit::store::Store;

// The streams of a chain are of bytes.
const BYTE: Payload = Payload::One(Scalar::U8);

pub(crate) const BYTES: TransmitIndex = TransmitIndex::Stream(BYTE);

// The read or write of an end.
#[inline(always)]
pub(crate) fn operation(side: Side, guest: u32, handle: u32, address: u32, count: u32) -> Step
    ensures { result ≡ operation side guest handle address count }
{
    match side {
        Side::Writing => Step::Write {
            guest,
            ty: BYTES,
            handle,
            address,
            count,
        },
        Side::Reading => Step::Read {
            guest,
            ty: BYTES,
            handle,
            address,
            count,
        },
    }
}

// Where the store does not do a step that the machine does, it is out of memory.
pub(crate) fn out_of_memory(error: StoreError) -> OutOfMemory
    requires { error ≡ NoMemory }
{
    match error {
        StoreError::OutOfMemory => OutOfMemory,
        StoreError::Refused(_)
        | StoreError::HostFailed { .. }
        | StoreError::HostBroke { .. }
        | StoreError::BadItem { .. }
        | StoreError::StoreTrapped => unreachable!(),
    }
}

// A code, as a reply.
#[inline(always)]
pub(crate) fn code_reply(code: &ReturnCode) -> Reply
    ensures { result ≡ replies.Code code.now }
{
    Reply::Code(*code)
}

// What an end was told, as a reply.
#[inline(always)]
pub(crate) fn event_reply(code: &Option<ReturnCode>) -> Reply
    ensures { result ≡ replies.Event code.now }
{
    Reply::Event(*code)
}

// A read or a write, done by the store.
#[inline(always)]
pub(crate) fn operate(
    store: &mut Store,
    side: Side,
    guest: u32,
    handle: u32,
    address: u32,
    count: u32,
) -> ReturnCode
    requires fits { Fits store.old nobody }
    requires done { IsDone store.old (operation side guest handle address count) }
    ensures fits { Fits store.new nobody }
    ensures reacts { react store.old (operation side guest handle address count)
        ≡ goes (replies.Code result) store.new }
{
    let end = NamedEnd {
        guest,
        ty: BYTES,
        handle,
    };
    match store.operate_alone(side, &end, address, count) {
        Ok(code) => code,
        Err(_) => unreachable!(),
    }
}

// An event.
#[inline(always)]
pub(crate) fn take_event(store: &mut Store, guest: u32, handle: u32) -> Option<ReturnCode>
    requires fits { Fits store.old nobody }
    requires done { IsDone store.old (steps.Event guest handle) }
    ensures fits { Fits store.new nobody }
    ensures reacts { react store.old (steps.Event guest handle)
        ≡ goes (replies.Event result) store.new }
{
    match store.take_event(guest, handle) {
        Ok(code) => code,
        Err(_) => unreachable!(),
    }
}

// Bytes are put into a memory.
#[inline(always)]
pub(crate) fn poke(store: &mut Store, guest: u32, address: u32, bytes: &Chunk)
    requires fits { Fits store.old nobody }
    requires done { IsDone store.old (steps.Poke guest address bytes.now) }
    ensures fits { Fits store.new nobody }
    ensures reacts { react store.old (steps.Poke guest address bytes.now)
        ≡ goes replies.Done store.new }
{
    match store.poke(guest, address, bytes) {
        Ok(()) => {}
        Err(_) => unreachable!(),
    }
}

// Bytes of a memory.
#[inline(always)]
pub(crate) fn dump(store: &Store, guest: u32, address: u32, len: u32) -> Chunk
    requires few { len ≤ 64 }
    requires done { IsDone store.now (steps.Dump guest address len) }
    ensures { react store.now (steps.Dump guest address len)
        ≡ goes (replies.Bytes result) store.now }
{
    match store.dump(guest, address, len) {
        Ok(bytes) => bytes,
        Err(_) => unreachable!(),
    }
}

// A write end is dropped, among no host ends.
#[inline(never)]
pub(crate) fn drop_writable(alloc: Global, store: &mut Store, guest: u32, handle: u32)
    requires fits { Fits store.old nobody }
    requires alone { touches (lone store.old) (act_of (steps.DropWrite guest bytes_type handle))
        ≡ false }
    requires done { IsDone store.old (steps.DropWrite guest bytes_type handle) }
    ensures fits { Fits store.new nobody }
    ensures reacts { react store.old (steps.DropWrite guest bytes_type handle)
        ≡ goes replies.Done store.new }
{
    let mut hosts = Hosts {
        writers: Vec::new(alloc),
        readers: Vec::new(alloc),
    };
    match store.stream_drop_writable(&mut hosts, guest, BYTE, handle) {
        Ok(()) => {}
        Err(_) => unreachable!(),
    }
}

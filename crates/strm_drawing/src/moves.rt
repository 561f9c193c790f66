//! What a step moved: on which streams the count of items received rose, by how many, and who had their ends.
//!
//! Meaning: `Moves.antt`. Ours.

ghost use Rattle.std.specs.Prelude.{◌≡◌, ◌≤◌, ◌+◌, map, length, option_to_list, IfOk};
ghost use Rattle.std.specs.List.{range_with_len};
ghost use Rattle.strm_machine.specs.Moments.{received};
ghost use Rattle.strm_machine.specs.State.{State};
ghost use Rattle.strm_drawing.specs.Moves.{handle_in, end_named_in, end_of_handle, span, span_of, move_on};

use crate::arrows::Arrow;
use crate::holders::AllHolders;
use std::alloc::Global;
use strm_codes::counts::OutOfMemory;
use strm_lines::lists::Counts;
use strm_machine::steps::Step;
use strm_transmit::store::Store;
use strm_transmit::store::queries::{EndInfo, Handle};

// A handle of a guest.
#[derive(Clone, Copy)]
pub(crate) struct GuestHandle {
    pub guest: u32,
    pub handle: u32,
}

// Streams by their numbers: so many, from the first on.
#[derive(Clone, Copy)]
pub(crate) struct Span {
    pub first: u32,
    pub count: u32,
}

// The handle by which a step names an end, or an end that joins a set.
fn handle_in(step: &Step) -> Option<GuestHandle>
    ensures { result ≡ handle_in step.now }
{
    match step {
        Step::Write { guest, handle, .. }
        | Step::Read { guest, handle, .. }
        | Step::DropWrite { guest, handle, .. }
        | Step::DropRead { guest, handle, .. }
        | Step::CancelWrite { guest, handle, .. }
        | Step::CancelRead { guest, handle, .. }
        | Step::Move { guest, handle, .. }
        | Step::Lift { guest, handle, .. }
        | Step::Event { guest, handle }
        | Step::SetJoin { guest, handle, .. } => Some(GuestHandle {
            guest: *guest,
            handle: *handle,
        }),
        _ => None,
    }
}

// What a handle of a guest names, if that is an end.
fn end_of_handle(store: &Store, at: GuestHandle) -> Option<EndInfo>
    ensures { result ≡ end_of_handle store.now at }
{
    match store.handle(at.guest, at.handle) {
        Ok(Handle::End(end)) => Some(end),
        _ => None,
    }
}

/// The end that the handle of a step names, if it names one.
pub(crate) fn end_named_in(store: &Store, step: &Step) -> Option<EndInfo>
    ensures { result ≡ end_named_in store.now step.now }
{
    match handle_in(step) {
        Some(at) => end_of_handle(store, at),
        None => None,
    }
}

// One stream.
fn span_of_one(stream: u32) -> Span
    ensures exact { result ≡ span stream 1 }
    ensures within { result.first + result.count ≤ 4294967296 }
{
    Span {
        first: stream,
        count: 1,
    }
}

// All streams that were made.
fn span_of_all(store: &Store) -> Span
    ensures exact { result ≡ span 0 (length store.now.streams) }
    ensures within { result.first + result.count ≤ 4294967296 }
{
    Span {
        first: 0,
        count: store.streams(),
    }
}

/// The streams on which a step may move items: the one whose end a read or write names, or in a drive round
/// all.
pub(crate) fn span_of(store: &Store, named: &Option<EndInfo>, step: &Step) -> Span
    ensures exact { result ≡ span_of store.now named.now step.now }
    ensures within { result.first + result.count ≤ 4294967296 }
{
    match (step, named) {
        (Step::Write { .. } | Step::Read { .. }, Some(end)) => span_of_one(end.stream),
        (Step::Drive, _) => span_of_all(store),
        _ => Span { first: 0, count: 0 },
    }
}

// How many items were received on a stream since it was made; on one that was not made, none.
fn received_on(store: &Store, stream: u32) -> u128
    ensures { result ≡ received stream store.now }
{
    match store.moved(stream) {
        Some(count) => count,
        None => 0,
    }
}

/// How many items were received on these streams.
pub(crate) fn received_before(
    alloc: Global,
    store: &Store,
    span: Span,
) -> Result<Counts, OutOfMemory>
    requires { span.first + span.count ≤ 4294967296 }
    ensures { IfOk result (λ counts.
        counts ≡ map (λ s. received s store.now) (range_with_len span.first span.count)) }
{
    let mut counts = Counts::new(alloc);
    for k in 0..span.count {
        counts.push(received_on(store, span.first + k))?;
    }
    Ok(counts)
}

/// The arrow of what a step moved on a stream, if it moved anything.
pub(crate) fn arrow_on(
    store: &Store,
    holders: &AllHolders,
    stream: u32,
    before: u128,
) -> Option<Arrow>
    ensures { (state : State) → before ≡ received stream state →
        (option_to_list result ≡ move_on holders.now state store.now stream) }
{
    let count = received_on(store, stream).saturating_sub(before);
    if count == 0 {
        return None;
    }
    let holders = holders.of(stream);
    Some(Arrow {
        stream,
        count,
        from: holders.writer,
        to: holders.reader,
    })
}

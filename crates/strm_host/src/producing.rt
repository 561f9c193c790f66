//! One poll of a producer: the window is lent to it, and what it left in its buffer becomes numbers.
//!
//! Source: ours.

ghost use Rattle.std.specs.Prelude.{◌≡◌, ◌+◌, ◌<◌, ◌≤◌, ◌++◌, length, take, drop, map, IfOk, IfSome};
ghost use Rattle.strm_buffers.specs.Windows.{room_of};
ghost use Rattle.strm_buffers.specs.Tells.{Fills, RisesOnFailed};
ghost use Rattle.strm_host.specs.Producing.{IsFreshWindow, IsProducedInRoom};

use crate::destinations::{Destination, Produced};
use crate::producers::StreamProducer;
use std::alloc::Global;
use std::marker::PhantomData;
use std::mem;
use strm_buffers::answers::Answer;
use strm_buffers::buffers::WriteBuffer;
use strm_buffers::items::Items;
use strm_buffers::polling::mark_rest;
use strm_buffers::windows::Window;
use strm_codes::counts::OutOfMemory;
use strm_memory::payloaded::Payloaded;

// What a poll answered, all items that it produced, and those that there was no room for.
#[derive(Drop)]
pub(crate) struct Fetched {
    pub answer: Answer,
    pub items: Items,
    pub held: Items,
}

// Polls a producer, and marks as many of its items as there is room for.
pub(crate) fn fetch<P: StreamProducer>(
    alloc: Global,
    producer: &mut P,
    window: &mut Window,
    finish: bool,
) -> Result<Fetched, OutOfMemory>
    requires fresh { IsFreshWindow P.Item.payload window.old }
    ensures fetched { IfOk result (λ f. IsProducedInRoom P.Item.payload (room_of window.old.place)
        window.new.marked f.items f.held) }
    ensures failed { IfOk result
        (λ f. RisesOnFailed f.answer (P.faults producer.old) (P.faults producer.new)) }
    ensures faults { P.faults producer.old ≤ P.faults producer.new }
    ensures fills { Fills window.old window.new }
    ensures plan { IfSome (P.plan producer.old) (λ next. IfOk result
        (λ f. next (room_of window.old.place) finish
        ≡ record { items = f.items.items; answer = f.answer })) }
    ensures leaves { IfOk result
        (λ _. P.leaves producer.old (room_of window.old.place) finish producer.new) }
{
    window.sound();
    let (answer, mut items) = produce(alloc, producer, window, finish)?;
    items.sound();
    // For its clause: what is marked is within the room.
    let _ = window.marked();
    let count = mark_rest(window, &items)?;
    let held = rest_of(alloc, &mut items, count)?;
    Ok(Fetched {
        answer,
        items,
        held,
    })
}

// What stands behind so many items: their bytes are not copied, but shared with these.
fn rest_of(alloc: Global, items: &mut Items, count: usize) -> Result<Items, OutOfMemory>
    requires { count ≤ length items.old.items }
    ensures payload { IfOk result (λ rest. rest.payload ≡ items.old.payload) }
    ensures items { IfOk result (λ rest. rest.items ≡ drop count items.old.items) }
    ensures same { items.new ≡ items.old }
{
    if count == items.len() {
        return Ok(Items::new(alloc, items.payload()));
    }
    items.share();
    let mut rest = items.copy()?;
    rest.skip(count);
    Ok(rest)
}

// What a poll answered, and all items that it produced: the first of them are marked.
fn produce<P: StreamProducer>(
    alloc: Global,
    producer: &mut P,
    window: &mut Window,
    finish: bool,
) -> Result<(Answer, Items), OutOfMemory>
    requires fresh { IsFreshWindow P.Item.payload window.old }
    ensures payload { IfOk result (λ done. done.1.payload ≡ P.Item.payload) }
    ensures begun { IfOk result
        (λ done. window.new.marked ≡ take (length window.new.marked) done.1.items) }
    ensures failed { IfOk result
        (λ done. RisesOnFailed done.0 (P.faults producer.old) (P.faults producer.new)) }
    ensures faults { P.faults producer.old ≤ P.faults producer.new }
    ensures fills { Fills window.old window.new }
    ensures plan { IfSome (P.plan producer.old) (λ next. IfOk result
        (λ done. next (room_of window.old.place) finish
        ≡ record { items = done.1.items; answer = done.0 })) }
    ensures leaves { IfOk result
        (λ _. P.leaves producer.old (room_of window.old.place) finish producer.new) }
{
    let lent = mem::replace(window, Window::unbounded(alloc, P::Item::payload()));
    let mut produced = Produced {
        window: lent,
        buffer: P::Buffer::empty(alloc),
        alloc,
    };
    let destination = Destination {
        produced: &mut produced,
        items: PhantomData,
    };
    let turn = producer.poll_produce(destination, finish);
    let Produced {
        window: filled,
        buffer,
        alloc: _,
    } = produced;
    let items = gather::<P>(alloc, &filled, buffer);
    *window = filled;
    match (turn.answer(), items) {
        (Some(answer), Ok(items)) => Ok((answer, items)),
        _ => Err(OutOfMemory),
    }
}

// The marked items, and behind them those of a buffer.
fn gather<P: StreamProducer>(
    alloc: Global,
    window: &Window,
    buffer: P::Buffer,
) -> Result<Items, OutOfMemory>
    requires payload { window.now.payload ≡ P.Item.payload }
    requires few { length window.now.marked + length (P.Buffer.items buffer) < 4294967295 }
    ensures payload { IfOk result (λ items. items.payload ≡ P.Item.payload) }
    ensures items { IfOk result
        (λ items. items.items ≡ window.now.marked ++ map P.Item.item (P.Buffer.items buffer)) }
{
    let items = P::items_of(alloc, buffer)?;
    put_behind_marked(window, items)
}

// The marked items, and these behind them.
fn put_behind_marked(window: &Window, items: Items) -> Result<Items, OutOfMemory>
    requires payload { window.now.payload ≡ items.payload }
    requires few { length window.now.marked + length items.items < 4294967295 }
    ensures payload { IfOk result (λ all. all.payload ≡ items.payload) }
    ensures items { IfOk result (λ all. all.items ≡ window.now.marked ++ items.items) }
{
    if window.marked() == 0 {
        return Ok(items);
    }
    let mut all = window.marked_items()?;
    all.append(&items)?;
    Ok(all)
}

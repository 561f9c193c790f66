//! A typed end as a host writer: what a producer is to a store.
//!
//! Source: ours; wasmtime erases the type of a producer behind a closure.

ghost use Rattle.std.specs.Prelude.{◌≡◌, All};
ghost use Rattle.strm_codes.specs.declared.codes.TransmitKind.TheVariants.{Stream, Future};

use crate::futures::{FutureProducer, Producer};
use crate::producers::StreamProducer;
use crate::producing::{Fetched, fetch};
use std::alloc::Global;
use strm_buffers::answers::{HostTurn, Turn};
use strm_buffers::items::Items;
use strm_buffers::polling::mark_in_room;
use strm_buffers::said::WriterSaid;
use strm_buffers::windows::Window;
use strm_buffers::writers::HostWriter;
use strm_codes::codes::TransmitKind;
use strm_codes::counts::OutOfMemory;
use strm_codes::payloads::Payload;
use strm_memory::payloaded::Payloaded;

/// A producer as a host writer.
#[derive(Drop)]
pub struct Erased<P: StreamProducer> {
    producer: P,
    kind: TransmitKind,
    // What the last poll produced past its room, and has not been given since.
    held: Items,
    said: Vec<WriterSaid>,
    closed: bool,
    alloc: Global,
    ghost holding: { held.payload ≡ P.Item.payload },
    ghost recorded: { All (λ said. said.payload ≡ P.Item.payload) said.items },
}

impl<P: StreamProducer> Erased<P> {
    ghost use Rattle.strm_host.specs.Erasing.{erased_tells, unpolled};

    /// A host writer of a stream, which asks this producer. Takes no memory.
    pub fn stream(alloc: Global, producer: P) -> Erased<P>
        ensures producer { result.producer ≡ producer }
        ensures tells { erased_tells result ≡ unpolled Stream P.Item.payload (P.faults producer) }
    {
        Erased::of(alloc, producer, TransmitKind::Stream)
    }

    // A host writer of this kind.
    pub(crate) fn of(alloc: Global, producer: P, kind: TransmitKind) -> Erased<P>
        ensures producer { result.producer ≡ producer }
        ensures tells { erased_tells result ≡ unpolled kind P.Item.payload (P.faults producer) }
    {
        let held = Items::new(alloc, P::Item::payload());
        Erased {
            producer,
            kind,
            held,
            said: Vec::new(alloc),
            closed: false,
            alloc,
        }
    }
}

impl<F: FutureProducer> Erased<Producer<F>> {
    ghost use Rattle.strm_host.specs.Erasing.{erased_tells, unpolled};

    /// A host writer of a future, which asks this producer. Takes no memory.
    pub fn future(alloc: Global, producer: F) -> Erased<Producer<F>>
        ensures producer { result.producer.future ≡ producer }
        ensures tells { erased_tells result ≡ unpolled Future F.Item.payload (F.faults producer) }
    {
        Erased::of(alloc, Producer::new(producer), TransmitKind::Future)
    }
}

impl<P: StreamProducer> HostWriter for Erased<P> {
    ghost use Rattle.std.specs.Prelude.{[], ◌++◌, true, IfSome};
    ghost use Rattle.strm_buffers.specs.Windows.{room_of};
    ghost use Rattle.strm_buffers.specs.Said.{IfAnswered, IfNoMemory};
    ghost use Rattle.strm_buffers.specs.Tells.{PollsWriter, KeepsWriter, Fills, writer_record};
    ghost use Rattle.strm_host.specs.Erasing.{erased_tells};

    ghost writer_tells = { erased_tells };

    fn kind(&self) -> TransmitKind {
        self.kind
    }

    fn payload(&self) -> Payload {
        P::Item::payload()
    }

    fn poll(&mut self, window: &mut Window, finish: bool) -> HostTurn
        requires payload { window.old.payload ≡ P.Item.payload }
        requires nothing_held { self.old.held.items ≡ [] }
        requires nothing_marked { window.old.marked ≡ [] }
        requires prepared { window.old.prepared ≡ true }
        ensures polls { IfAnswered result (λ answer. PollsWriter (erased_tells self.old)
            (erased_tells self.new)
            (writer_record window.old finish window.new.marked (erased_tells self.new).holds answer)
            window.new.marked) }
        ensures no_memory { IfNoMemory result
            (KeepsWriter (erased_tells self.old) (erased_tells self.new)) }
        ensures fills { Fills window.old window.new }

        // It does what its producer planned.
        ensures plan { IfSome (P.plan self.old.producer) (λ next. IfAnswered result (λ answer.
            next (room_of window.old.place) finish
            ≡ record { items = window.new.marked ++ self.new.held.items; answer = answer })) }

        // And its producer was polled once.
        ensures leaves { IfAnswered result (λ _.
            P.leaves self.old.producer (room_of window.old.place) finish self.new.producer) }
    {
        match self.said.reserve(1) {
            Ok(()) => {}
            Err(_) => return Turn::NoMemory,
        }
        let room = window.room();
        let fetched = match fetch(self.alloc, &mut self.producer, window, finish) {
            Ok(fetched) => fetched,
            Err(_) => return Turn::NoMemory,
        };
        let Fetched {
            answer,
            items,
            held,
        } = fetched;
        self.held = held;
        self.said.push_reserved(WriterSaid {
            room,
            finish,
            items,
            answer,
        });
        answer.turn()
    }

    fn held(&self) -> usize {
        self.held.sound();
        self.held.len()
    }

    fn give(&mut self, window: &mut Window) -> Result<(), OutOfMemory> {
        let count = mark_in_room(window, &self.held)?;
        self.held.skip(count);
        Ok(())
    }

    fn feed(&mut self, _bytes: &[u8]) -> Result<(), OutOfMemory> {
        Ok(())
    }

    fn close(&mut self) {
        self.closed = true;
    }

    fn records(&self) -> usize {
        self.said.len()
    }

    fn record_at(&self, index: usize) -> Result<WriterSaid, OutOfMemory> {
        self.said[index].copy()
    }
}

//! Host writers that are taken back from their streams.
//!
//! Meaning: `Releasing.antt` of `strm_host_machine`. Source: wasmtime, `futures_and_streams.rs`,
//! `StreamReader::try_into`.

ghost use Rattle.std.specs.Prelude.{◌≡◌};
ghost use Rattle.strm_buffers.specs.Tells.{Tells};
ghost use Rattle.strm_machine.specs.State.{producer_at, stream_at};
ghost use Rattle.strm_machine.specs.declared.streams.Owner.TheVariants.{Host};
ghost use Rattle.strm_host_machine.specs.Releasing.{KnowsHeld, unless_spent, released_among, released, after_release};
ghost use Rattle.strm_transmit.specs.Hosted.{StillFits, StillKnows};

use crate::store::Store;
use strm_machine::streams::{Owner, Side};

impl Store {
    // The host writer of a stream, unless it has no more to come or holds items.
    fn unless_spent(&self, stream: u32, number: u32) -> Option<u32>
        requires owner { (stream_at self.now stream).writer.owner ≡ Host number }
        ensures { result ≡ unless_spent self.now (λ n. (producer_at self.now n).holding) number }
    {
        let producer = self.producers[number as usize];
        if producer.over || producer.holding {
            return None;
        }
        Some(number)
    }

    // The host writer that may be released with the read end of a stream.
    fn releasable(&self, stream: u32) -> Option<u32>
        ensures { result ≡ released self.now stream }
    {
        if self.is_trapped || stream as usize >= self.streams.len() {
            return None;
        }
        let ends = self.stream(stream);
        match (ends.owner(Side::Writing), ends.owner(Side::Reading)) {
            (Owner::Host { number }, Owner::Loose) => self.unless_spent(stream, number),
            _ => None,
        }
    }

    /// Takes the host writer of a stream back with its loose read end, by the stream's number: the stream
    /// is removed, nothing is closed, and the answer is the host writer's number, which stays used. None,
    /// and nothing has changed, where the store is trapped, the read end is not loose, no host writer has
    /// the write end, or it has no more to come or holds items. It takes no memory.
    pub fn try_release(&mut self, reader: u32) -> Option<u32>
        ensures exact { (tells : Tells) → KnowsHeld self.old tells → result
            ≡ released_among self.old tells reader }
        ensures answer { result ≡ released self.old reader }
        ensures after { self.new ≡ after_release self.old reader }
        ensures fits { StillFits self.old self.new }
        ensures known { StillKnows self.old self.new }
    {
        self.served();
        let released = self.releasable(reader);
        if let Some(number) = released {
            self.end_stream(reader);
            self.retire(reader, number);
        }
        released
    }
}

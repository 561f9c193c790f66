//! A producer that counts down.

ghost use Rattle.std.specs.Prelude.{◌≡◌, ◌-◌, [], None};

use strm_buffers::answers::{HostTurn, StreamResult, Turn};
use strm_host::destinations::Destination;
use strm_host::producers::StreamProducer;

/// It gives one number a poll, down to 1.
#[derive(Drop)]
pub struct Countdown {
    pub left: u32,
}

impl StreamProducer for Countdown {
    ghost use Rattle.strm_host_tests.specs.Countdowns.{countdown_plan, given_at, turn_at};

    type Item = u32;

    type Buffer = Option<u32>;

    ghost faults = { λ c. 0 };

    ghost plan = { λ c. countdown_plan c.left };

    ghost leaves = { λ old room finish new. new.left ≡ old.left - 1 };

    fn poll_produce(
        &mut self,
        destination: Destination<'_, u32, Option<u32>>,
        _finish: bool,
    ) -> HostTurn
        requires nothing_marked { destination.produced.now.window.marked ≡ [] }
        requires nothing_buffered { destination.produced.now.buffer ≡ None }
        ensures turn { result ≡ turn_at self.old.left }
        ensures window { destination.exit.0.now.window ≡ destination.entry.produced.now.window }
        ensures buffer { destination.exit.0.now.buffer ≡ given_at self.old.left }
        ensures left { self.new.left ≡ self.old.left - 1 }
    {
        let Destination { produced, items } = destination;
        let mut destination = Destination { produced, items };
        if self.left == 0 {
            return Turn::Ready(StreamResult::Dropped);
        }
        destination.set_buffer(Some(self.left));
        self.left -= 1;
        Turn::Ready(StreamResult::Completed)
    }
}

//! The seats that wait, and for which handles.
//!
//! Meaning: `Waits.antt`. Ours.

ghost use Rattle.std.specs.Prelude.{◌≡◌, ◌≢◌, ◌<◌, MatchOption, vec_len, vec_capacity};
ghost use Rattle.strm_shared.specs.Waits.{wait, without, waits_begun, Each, Has};

use crate::entry::{Place, Wait};
use crate::steps::is_blocked;
use strm_machine::replies::Reply;

// The seat that waits for a handle.
pub(crate) fn seat_at(waits: &Vec<Wait>, place: Place) -> Option<u64>
    ensures { MatchOption result
        (Each (λ one. place ≢ one.place) waits.now.items)
        (λ seat. Has (wait seat place) waits.now.items) }
{
    for w in waits {
        if w.place == place {
            return Some(w.seat);
        }
    }
    None
}

// A wait more, where the reply is Blocked.
pub(crate) fn keep_wait(waits: &mut Vec<Wait>, reply: &Reply, wait: Wait)
    requires { vec_len waits.old < vec_capacity waits.old }
    ensures { waits.new.items ≡ waits_begun reply.now waits.old.items wait }
{
    if is_blocked(reply) {
        waits.push_reserved(wait);
    }
}

// The waits of the other seats.
pub(crate) fn drop_waits(waits: &mut Vec<Wait>, seat: u64)
    ensures { waits.new.items ≡ without seat waits.old.items }
{
    waits.retain(move |w| w.seat != seat);
}

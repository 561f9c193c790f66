//! Which guest is ready.
//!
//! Meaning: `ReadyGuests.antt` of `strm_transmit`. Ours.

ghost use Rattle.std.specs.Prelude.{◌≡◌, IfOk};
ghost use Rattle.strm_transmit.specs.ReadyGuests.{next_ready_guest};

use crate::guest_store::GuestStore;
use std::alloc::AllocError;

impl GuestStore {
    /// The least guest, of those from a number on, that has an end which is to be told something; none where there
    /// is none. It is told as long as that is so, whoever asked before, so a scheduler that asks from 0 on, and then
    /// from behind each guest that it served, leaves none out; and no guest is looked at in vain. The first call
    /// counts the ends that are to be told something, of each guest, and takes memory for that, a number a guest and
    /// an entry a stream; from then on a call lists the streams that it changes, and the next call of this one counts
    /// those again, each once. On an error nothing is counted, and the next call tries again.
    pub fn next_ready_guest(&mut self, from: u32) -> Result<Option<u32>, AllocError>
        ensures exact { IfOk result (λ guest. guest ≡ next_ready_guest self.old from) }
        ensures same { self.new ≡ self.old }
    {
        self.store.next_ready_guest(from)
    }
}

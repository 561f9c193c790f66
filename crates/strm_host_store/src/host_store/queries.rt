//! What is asked of a guest's handles: what one is of, which one is next, and how many there are; and which guest has
//! one that is to be told something.
//!
//! Meaning: `Queries.antt` and `ReadyGuests.antt` of `strm_transmit`. Source: Canonical ABI, "Table State". Ours: the
//! calls, which change nothing.

ghost use Rattle.std.specs.Prelude.{◌≡◌, IfOk};
ghost use Rattle.strm_transmit.specs.ReadyGuests.{next_ready_guest};
ghost use Rattle.strm_transmit.specs.Queries.{handle_answer, next_handle_answer, count_answer};

use crate::host_store::HostStore;
use std::alloc::AllocError;
use strm_codes::refusals::Refusal;
use strm_transmit::Handle;

impl HostStore {
    /// What a handle of a guest is of, and of an end its type and side, its stream, what it is to be told,
    /// and who has the other end. Nothing is taken. Refused: UnknownGuest, UnknownHandle.
    pub fn handle(&self, guest: u32, handle: u32) -> Result<Handle, Refusal>
        ensures exact { result ≡ handle_answer self.now.state guest handle }
    {
        self.store.handle(guest, handle)
    }

    /// The least handle of a guest above a number, and what it is of; none where no handle is above it.
    /// All of them, one after the other, cost one pass over the guest's table. Refused: UnknownGuest.
    pub fn next_handle(&self, guest: u32, after: u32) -> Result<Option<(u32, Handle)>, Refusal>
        ensures exact { result ≡ next_handle_answer self.now.state guest after }
    {
        self.store.next_handle(guest, after)
    }

    /// How many handles a guest has. It looks at none of them. Refused: UnknownGuest.
    pub fn handle_count(&self, guest: u32) -> Result<u32, Refusal>
        ensures exact { result ≡ count_answer self.now.state guest }
    {
        self.store.handle_count(guest)
    }

    /// The least guest, of those from a number on, that has an end which is to be told something; none where there is
    /// none. It is told as long as that is so, whoever asked before. The first call counts the ends that are to be told
    /// something, of each guest, and takes memory for that. On an error nothing is counted, and the next call tries
    /// again.
    pub fn next_ready_guest(&mut self, from: u32) -> Result<Option<u32>, AllocError>
        ensures exact { IfOk result (λ guest. guest ≡ next_ready_guest self.old.state from) }
        ensures same { self.new ≡ self.old }
    {
        self.store.next_ready_guest(from)
    }
}

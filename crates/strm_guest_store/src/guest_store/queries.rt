//! What is asked of a guest's handles: what one is of, which one is next, and how many there are.
//!
//! Meaning: `Queries.antt` of `strm_transmit`. Source: Canonical ABI, "Table State". Ours: the calls, which
//! change nothing and take no memory.

ghost use Rattle.std.specs.Prelude.{◌≡◌};
ghost use Rattle.strm_transmit.specs.Queries.{handle_answer, next_handle_answer, count_answer};

use crate::guest_store::GuestStore;
use strm_codes::refusals::Refusal;
use strm_transmit::Handle;

impl GuestStore {
    /// What a handle of a guest is of, and of an end its type and side, its stream, what it is to be told,
    /// and who has the other end. Nothing is taken. Refused: UnknownGuest, UnknownHandle.
    pub fn handle(&self, guest: u32, handle: u32) -> Result<Handle, Refusal>
        ensures exact { result ≡ handle_answer self.now guest handle }
    {
        self.store.handle(guest, handle)
    }

    /// The least handle of a guest above a number, and what it is of; none where no handle is above it.
    /// All of them, one after the other, cost one pass over the guest's table. Refused: UnknownGuest.
    pub fn next_handle(&self, guest: u32, after: u32) -> Result<Option<(u32, Handle)>, Refusal>
        ensures exact { result ≡ next_handle_answer self.now guest after }
    {
        self.store.next_handle(guest, after)
    }

    /// How many handles a guest has. It looks at none of them. Refused: UnknownGuest.
    pub fn handle_count(&self, guest: u32) -> Result<u32, Refusal>
        ensures exact { result ≡ count_answer self.now guest }
    {
        self.store.handle_count(guest)
    }
}

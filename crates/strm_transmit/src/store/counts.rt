//! How many handles a guest has, and of which kinds.
//!
//! Meaning: `Counts.antt`. Ours: the call, which changes nothing, takes no memory and looks at no handle.

ghost use Rattle.std.specs.Prelude.{◌≡◌};
ghost use Rattle.strm_transmit.specs.Counts.{counts_answer};

use crate::store::Store;
use strm_codes::refusals::Refusal;

/// How many handles a guest has.
#[derive(Clone, Copy)]
pub struct GuestCounts {
    /// Of whatever kind.
    pub handles: u32,
    /// Of ends of streams and futures.
    pub ends: u32,
    /// Of error contexts.
    pub contexts: u32,
}

impl Store {
    /// How many handles a guest has, and of which kinds. It looks at none of them. A trapped store answers
    /// too. Refused: UnknownGuest.
    #[inline(always)]
    pub fn guest_counts(&self, guest: u32) -> Result<GuestCounts, Refusal>
        ensures exact { result ≡ counts_answer self.now guest }
    {
        if self.is_unknown_guest(guest) {
            return Err(Refusal::UnknownGuest);
        }
        let table = &self.guests[guest as usize].table;
        Ok(GuestCounts {
            handles: table.len(),
            ends: table.ends(),
            contexts: table.contexts(),
        })
    }
}

//! How many handles a guest has, and of which kinds.
//!
//! Meaning: `Counts.antt` of `strm_transmit`. Ours.

ghost use Rattle.std.specs.Prelude.{◌≡◌};
ghost use Rattle.strm_transmit.specs.Counts.{counts_answer};
ghost use Rattle.strm_guest_store.specs.Among.{IsAmongGuests};

use crate::guest_store::GuestStore;
use strm_codes::refusals::Refusal;
use strm_transmit::GuestCounts;

impl GuestStore {
    // What holds of every store among guests: no guest has 2^28 handles. It does nothing.
    #[inline(always)]
    pub(crate) fn among_guests(&self)
        ensures { IsAmongGuests self.now }
    {
        let _ = &self.store;
    }

    /// How many handles a guest has, and of which kinds. It looks at none of them. Refused: UnknownGuest.
    #[inline(always)]
    pub fn guest_counts(&self, guest: u32) -> Result<GuestCounts, Refusal>
        ensures exact { result ≡ counts_answer self.now guest }
    {
        self.store.guest_counts(guest)
    }
}

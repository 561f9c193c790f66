//! Guests that end, and guests that begin under the number of one that ended.
//!
//! Meaning: `Lives.antt` of `strm_places`. Ours: wasmtime ends a store as a whole.

ghost use Rattle.std.specs.Prelude.{ℕ, ◌≡◌, ◌≢◌, ◌<◌, false, length, Ok, Err, OnOk, OnErr};
ghost use Rattle.std.specs.Vec.{vec_ptr};
ghost use Rattle.strm_machine.specs.Bases.{BasesStayBut};
ghost use Rattle.strm_machine.specs.State.{no_guest, guest_in};
ghost use Rattle.strm_machine.specs.declared.replies.Reply.TheVariants as replies;
ghost use Rattle.strm_places.specs.Lives.{ended, is_in_use, begins, begins_at, HasNoEnd, HasNoOperation};
ghost use Rattle.strm_transmit.specs.Meets.{Meets, as_reply};
ghost use Rattle.strm_transmit.specs.Queries.{of_guest};

use crate::guest_store::GuestStore;
use std_alloc::vec::Lodged;
use strm_codes::refusals::Refusal;
use strm_transmit::errors::StoreError;

impl GuestStore {
    /// Ends a guest: each of its ends, by rising handle, is cancelled (what moved stays moved) and dropped, and
    /// whoever has the other end is told so by its event; the reader of a future that never gets its value is told
    /// Dropped, with 0. Then its waitable sets and error contexts go, and its memory: nobody may read or write
    /// there any more, and bytes that an engine lent are the engine's again. Its number stays that of a guest which
    /// has nothing, until `begin_guest`. Every other memory stays where it lay. Takes no memory. Refused:
    /// UnknownGuest.
    pub fn end_guest(&mut self, guest: u32) -> Result<(), Refusal>
        ensures exact { result ≡ of_guest self.old guest (Ok tt) }
        ensures ok { OnOk result (self.new ≡ ended self.old guest) }
        ensures err { OnErr result (self.new ≡ self.old) }
        ensures ends { OnOk result (HasNoEnd self.new guest) }
        ensures operations { OnOk result (HasNoOperation self.new guest) }
        // It is as one that was never made.
        ensures nothing { OnOk result (guest_in self.new.guests guest ≡ no_guest) }
        // No other guest's memory, handles or sets change.
        ensures others { (g : ℕ) → g ≢ guest →
            guest_in self.new.guests g ≡ guest_in self.old.guests g }
        ensures stays { BasesStayBut guest self.old.guests self.new.guests }
    {
        self.store.end_guest(guest)
    }

    /// Whether a guest has bytes, handles, or a memory that an engine lent: it did not end, or began again.
    /// `has_guest` tells whether the guest is there.
    pub fn is_in_use(&self, guest: u32) -> bool
        requires { guest < length self.now.guests }
        ensures { result ≡ is_in_use self.now guest }
    {
        self.store.is_in_use(guest)
    }

    /// Gives a guest that has nothing, as one that ended, a memory of so many zero bytes, and so begins it again.
    /// `has_guest` and `is_in_use` tell whether it may. Refused are bytes past 268,435,456 of all guests together,
    /// without those that an engine lent.
    pub fn begin_guest(&mut self, guest: u32, size: u32) -> Result<(), StoreError>
        requires there { guest < length self.old.guests }
        requires unused { is_in_use self.old guest ≡ false }
        ensures meets { Meets self.old self.new (as_reply (λ _. replies.Done) result)
            (begins self.old guest size) }
        ensures stays { BasesStayBut guest self.old.guests self.new.guests }
    {
        self.store.begin_guest(guest, size)
    }

    /// The same over these bytes, which an engine lends, where they lie: they are touched only as the guest's
    /// memory is, and never freed, also where the call is refused. Takes no memory. Refused are 4,294,967,296 bytes
    /// or more.
    pub fn begin_guest_at(&mut self, guest: u32, bytes: Vec<u8, Lodged>) -> Result<(), StoreError>
        requires there { guest < length self.old.guests }
        requires unused { is_in_use self.old guest ≡ false }
        ensures meets { Meets self.old self.new (as_reply (λ _. replies.Done) result)
            (begins_at self.old guest bytes.items (vec_ptr bytes)) }
        ensures stays { BasesStayBut guest self.old.guests self.new.guests }
        ensures takes_no_memory { result ≢ Err StoreError.OutOfMemory }
    {
        self.store.begin_guest_at(guest, bytes)
    }
}

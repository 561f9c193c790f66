//! The store of a handle, lent. Its clause names the row of `StoreHandle`, which the file that
//! declares it cannot import.

ghost use Rattle.std.specs.Prelude.{◌≡◌, Some, IsSome, IfSome};
ghost use types.Logic.{sem};
ghost use denote.Follow.{follows};
ghost use Rattle.std.specs.Borrow.{LendsIf};
ghost use Rattle.std.specs.Option.{option_copied_mut, option_map};
ghost use Rattle.strm_guest_store.specs.contracts.guest_store.GuestStore.{the_row as store_row};
ghost use Rattle.strm_guest_store.specs.contracts.limited_store.LimitedStore.{the_row as limited_row};
ghost use Rattle.strm_guest_store.specs.declared.limited_store.LimitedStore.{LimitedStore as Limited};
ghost use Rattle.strm_c.specs.contracts.handles.StoreHandle.{the_row};
ghost use Rattle.strm_c.specs.Lent.{handle_with, handle_with_limits};

use crate::handles::StoreHandle;
use strm_guest_store::guest_store::GuestStore;
use strm_guest_store::limited_store::LimitedStore;

impl StoreHandle {
    /// The store, if it is of one. When the borrow ends, the handle has what was written through it, and the
    /// limits of guests are as they were.
    #[inline(always)]
    pub(crate) fn get_mut(&mut self) -> Option<&mut GuestStore>
        ensures* writes_back { sem 𝓛
            (LendsIf the_row store_row self.entry result (handle_with self.old) self.old) }
        ensures value { option_copied_mut result ≡ self.old.state }
    {
        match self.limited_mut() {
            Some(limited) => Some(&mut limited.store),
            None => None,
        }
    }

    /// The store with the limits of its guests, if it is of one. When the borrow ends, the handle has what was
    /// written through it.
    #[inline(always)]
    pub(crate) fn limited_mut(&mut self) -> Option<&mut LimitedStore>
        ensures* writes_back { sem 𝓛
            (LendsIf the_row limited_row self.entry result (handle_with_limits self.old) self.old) }
        ensures store { option_map (λ (limited : Limited). limited.store) (option_copied_mut result)
            ≡ self.old.state }
        ensures limits { IfSome (option_copied_mut result)
            (λ limited. limited.limits ≡ self.old.limits) }
    {
        if self.is_none() {
            None
        } else {
            Some(self.store_mut())
        }
    }

    // The store. When the borrow ends, the handle has what was written through it.
    fn store_mut(&mut self) -> &mut LimitedStore
        requires { IsSome self.old.state }
        ensures* writes_back { sem 𝓛 (follows the_row limited_row self.entry.ghost_name
            result.ghost_name (handle_with_limits self.old)) }
        ensures value { (self.old.state ≡ Some result.now.store)
            × (result.now.limits ≡ self.old.limits) }
    {
        unsafe { &mut *(self.at as *mut LimitedStore) }
    }
}

//! What C holds of a store.

ghost use Rattle.std.specs.Prelude.{◌≡◌, true, false, List, Option, Some, None, IsSome, IfSome};
ghost use Rattle.strm_machine.specs.State.{State};
ghost use Rattle.std.specs.Coded.{codes};
ghost use Rattle.strm_error_contexts.specs.Contexts.{contexts_code};
ghost use Rattle.strm_waitable_sets.specs.Sets.{sets_code};
ghost use Rattle.strm_guest_store.specs.declared.guest_limits.GuestLimits.{GuestLimits};

mod lends;

use crate::loose::Loose;
use std::alloc::Global;
use std::marker::Model;
use std::{mem, ptr};
use strm_guest_store::limited_store::LimitedStore;

/// One word, which C holds and only this library reads: a store with the limits of its guests, or none.
#[repr(C)]
#[derive(Drop)]
pub struct StoreHandle {
    at: *mut (),
    alloc: Global,
    ghost state: { Option State } by { Prim.hlevel (codes, sets_code, contexts_code) },
    ghost limits: { List GuestLimits },
}

impl Model for StoreHandle {
    ghost use Rattle.strm_c.specs.Owned.{owned};

    ghost also_owns = { λ h. owned h.alloc h.at h.state h.limits };
}

impl StoreHandle {
    // The box that holds the store, without its type.
    fn lower(loose: Loose<LimitedStore, Global>) -> StoreHandle
        ensures { (result.state ≡ Some loose.value.store)
            × (result.limits ≡ loose.value.limits) }
    {
        let Loose { at, alloc } = loose;
        StoreHandle {
            at: at as *mut (),
            alloc,
        }
    }

    // The same with its type.
    fn raise(self) -> Loose<LimitedStore, Global>
        requires { IsSome self.state }
        ensures { self.state ≡ Some result.value.store }
    {
        let StoreHandle { at, alloc } = self;
        Loose {
            at: at as *mut LimitedStore,
            alloc,
        }
    }

    // A handle of no store.
    fn none(alloc: Global) -> StoreHandle
        ensures { result.state ≡ None }
    {
        StoreHandle {
            at: ptr::null_mut(),
            alloc,
        }
    }

    // Whether it is of no store.
    #[inline(always)]
    fn is_none(&mut self) -> bool
        ensures { (result ≡ true → self.old.state ≡ None) × (result ≡ false → IsSome self.old.state)
            × (self.new ≡ self.old) }
    {
        self.at.is_null()
    }

    /// A handle of a store.
    pub(crate) fn of(store: Box<LimitedStore>) -> StoreHandle
        ensures { (result.state ≡ Some store.value.store)
            × (result.limits ≡ store.value.limits) }
    {
        StoreHandle::lower(Loose::of(store))
    }

    // The store.
    fn into_box(self) -> Box<LimitedStore>
        requires { IsSome self.state }
        ensures { self.state ≡ Some result.value.store }
    {
        self.raise().into_box()
    }

    /// Takes the store out, if it is of one, and leaves none.
    pub(crate) fn take(&mut self, alloc: Global) -> Option<Box<LimitedStore>>
        ensures taken { IfSome result (λ taken. self.old.state ≡ Some taken.value.store) }
        ensures none { result ≡ None → self.old.state ≡ None }
        ensures empty { self.new.state ≡ None }
        ensures nothing { self.old.state ≡ None → self.new ≡ self.old }
    {
        if self.is_none() {
            return None;
        }
        Some(mem::replace(self, StoreHandle::none(alloc)).into_box())
    }
}

// It may go to another thread: what it owns is plain data and a block that any thread frees.
unsafe impl Send for StoreHandle {}

//! An error context as a value of the host.
//!
//! Source: wasmtime, `futures_and_streams.rs`, `ErrorContext`. Ours: `lift` and `lower` are calls, and no
//! traits.

ghost use Rattle.std.specs.Prelude.{◌≡◌, ◌≢◌, ◌↔◌, None, Some, Ok, Err, IsErr, IfOk, IfErr};
ghost use Rattle.strm_machine.specs.ErrorContexts.{context_number};
ghost use Rattle.strm_machine.specs.Reactions.{lowers_context};
ghost use Rattle.strm_machine.specs.Refusals.{first_of, context_reasons};
ghost use Rattle.strm_machine.specs.declared.replies.Reply.TheVariants as replies;
ghost use Rattle.strm_transmit.specs.Hosted.{StillFits};
ghost use Rattle.strm_transmit.specs.Meets.{as_reply, Meets, admitted, or_found};
ghost use Rattle.strm_host.specs.ErrorContexts.{rep_of};

use strm_codes::vals::{ErrorContextAny, Val};
use strm_transmit::errors::StoreError;
use strm_transmit::store::Store;
use thiserror::Error;

/// An error context of a store, by its number there.
#[derive(Clone, Copy, Debug, PartialEq, Eq)]
pub struct ErrorContext {
    rep: u32,
}

/// A value that is an item, and no error context.
#[derive(Clone, Copy, Debug, PartialEq, Eq, Error)]
#[error("the value is no error context")]
pub struct NotErrorContext;

impl ErrorContext {
    /// As a value whose type is known only when it is there.
    pub fn into_val(self) -> Val
        ensures { rep_of result ≡ Some self.rep }
    {
        Val::ErrorContext(ErrorContextAny(self.rep))
    }

    /// The error context that a value is.
    pub fn from_val(value: &Val) -> Result<ErrorContext, NotErrorContext>
        ensures ok { IfOk result (λ context. rep_of value.now ≡ Some context.rep) }
        ensures not { IsErr result ↔ (rep_of value.now ≡ None) }
    {
        match value {
            Val::ErrorContext(any) => Ok(ErrorContext { rep: any.0 }),
            Val::Item(_) => Err(NotErrorContext),
        }
    }

    /// The error context that a handle of a guest names (`Store::error_context_rep`).
    pub fn lift(store: &Store, guest: u32, handle: u32) -> Result<ErrorContext, StoreError>
        ensures ok { IfOk result (λ context. admitted store.now
            (or_found (first_of (context_reasons store.now guest handle))
            (context_number store.now guest handle)) ≡ Ok context.rep) }
        ensures err { IfErr result (λ error. admitted store.now
            (or_found (first_of (context_reasons store.now guest handle))
            (context_number store.now guest handle)) ≡ Err error) }
        ensures takes_no_memory { result ≢ Err StoreError.OutOfMemory }
    {
        let rep = store.error_context_rep(guest, handle)?;
        Ok(ErrorContext { rep })
    }

    /// Gives a guest a handle to it (`Store::error_context_lower`).
    pub fn lower(&self, store: &mut Store, guest: u32) -> Result<u32, StoreError>
        ensures meets { Meets store.old store.new (as_reply replies.Number result)
            (lowers_context store.old self.now.rep guest) }
        ensures fits { StillFits store.old store.new }
    {
        store.error_context_lower(self.rep, guest)
    }
}

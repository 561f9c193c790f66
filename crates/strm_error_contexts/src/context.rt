//! One error context, and the key of its kind.
//!
//! Meaning: `Contexts.antt`. Source: wasmtime, `ErrorContextState` and
//! `GlobalErrorContextRefCount`, which are one here.

ghost use Rattle.std.specs.Prelude.{◌≡◌, ◌+◌, ◌-◌, ◌<◌, ◌^◌, string_bytes};
ghost use Rattle.strm_error_contexts.specs.Contexts.{context_with_handles, new_context};

use std::marker::Model;
use strm_resources::kinds::{Resident, Tag};

/// A message, and the number of handles to it in all tables.
#[derive(Drop)]
pub(crate) struct ErrorContext {
    message: String,
    handles: u64,
}

impl Model for ErrorContext {
    ghost use Rattle.std.specs.Prelude.{string_bytes};
    ghost use Rattle.strm_error_contexts.specs.Contexts.{Context, context_code};

    ghost Value = { Context };

    ghost coded = { context_code };

    ghost view = { λ c. record { message = string_bytes c.message; handles = c.handles } };
}

impl ErrorContext {
    /// A context with one handle.
    pub(crate) fn new(message: String) -> ErrorContext
        ensures { result ≡ new_context (string_bytes message) }
    {
        ErrorContext {
            message,
            handles: 1,
        }
    }

    /// Its message.
    pub(crate) fn message(&self) -> &str
        ensures { result.now ≡ self.now.message }
    {
        self.message.as_str()
    }

    /// The number of handles to it.
    pub(crate) fn handles(&self) -> u64
        ensures { result ≡ self.now.handles }
    {
        self.handles
    }

    /// Counts a handle more.
    pub(crate) fn raise(&mut self)
        requires { self.old.handles + 1 < 2 ^ 64 }
        ensures { self.new ≡ context_with_handles (self.old.handles + 1) self.old }
    {
        self.handles += 1;
    }

    /// Counts a handle less.
    pub(crate) fn lower(&mut self)
        requires { 0 < self.old.handles }
        ensures { self.new ≡ context_with_handles (self.old.handles - 1) self.old }
    {
        self.handles -= 1;
    }
}

// All are of one kind.
impl Resident for ErrorContext {
    ghost kind = { λ _. 0 };

    fn kind(&self) -> u32 {
        0
    }
}

/// The type of a context's key.
pub(crate) struct ContextKey;

impl Tag for ContextKey {
    ghost kind = { 0 };

    fn kind() -> u32 {
        0
    }
}

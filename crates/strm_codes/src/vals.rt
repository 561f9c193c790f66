//! Values whose type is known only when they are there.
//!
//! Source: wasmtime, `Val` and `ErrorContextAny`; only items and error contexts are kept.

use crate::values::Value;

/// The handle of an error context.
#[derive(Clone, Copy, Debug, PartialEq, Eq)]
pub struct ErrorContextAny(pub u32);

/// An item of a stream or future, or an error context.
#[derive(Clone, Copy, Debug, PartialEq, Eq)]
pub enum Val {
    Item(Value),
    ErrorContext(ErrorContextAny),
}

//! Why a call of a handle table does not answer.
//!
//! Source: wasmtime, `handle_table.rs`. The variants' names and the order of the tests are ours.

use thiserror::Error;

/// Why a call does not answer. Nothing has changed then.
#[derive(Clone, Copy, Debug, PartialEq, Eq, Error)]
pub enum HandleError {
    /// The number to be given would be 2^28.
    #[error("no handle number is left")]
    IndexOverflow,
    /// The live handles would pass the counter's limit.
    #[error("the live handles would pass their limit")]
    HandleLimit,
    /// No occupied slot has that number.
    #[error("no handle has that number")]
    UnknownHandle,
    /// The slot is of another kind than the call names.
    #[error("the handle is of another kind")]
    WrongKind,
    /// The slot is of another type than the call names.
    #[error("the handle is of another type")]
    WrongType,
    /// The slot is the other end, busy or idle.
    #[error("the handle is the other end")]
    WrongEnd,
    /// The end has an operation.
    #[error("the end has an operation")]
    Busy,
    /// The own resource has an open lend.
    #[error("the resource is lent")]
    Lent,
    /// The own resource has 2^32 - 1 open lends.
    #[error("no further lend of the resource can be counted")]
    TooManyLends,
    /// An allocation was refused.
    #[error("out of memory")]
    OutOfMemory,
}

//! Why a call of a resource table did not do what was asked.
//!
//! Source: wasmtime, `resource_table.rs`, `ResourceTableError`. The last three are ours, in place
//! of assertions and of an abort.

ghost use Rattle.std.specs.Prelude.{◌≡◌, Some};
ghost use Rattle.strm_resources.specs.Errors.{error_text};
ghost use Rattle.strm_resources.specs.declared.errors.ResourceTableError.TheVariants.{OutOfMemory};

use std::alloc::AllocError;
use std::error::Error;
use std::fmt;

/// An error of a resource table. All but running out of memory are refusals, which change nothing.
#[derive(Clone, Copy, Debug, PartialEq, Eq)]
pub enum ResourceTableError {
    /// No number is free, and none can be added.
    Full,
    /// The number has no value.
    NotPresent,
    /// The value is of another kind than the key.
    WrongType,
    /// The number has children.
    HasChildren,
    /// The number has a parent already.
    HasParent,
    /// The number is no child of that parent.
    NotChild,
    /// An allocation was refused. The table holds what it held.
    OutOfMemory,
}

impl ResourceTableError {
    fn text(&self) -> &'static str
        ensures { result.now ≡ error_text self.now }
    {
        match self {
            ResourceTableError::Full => "resource table has no free keys",
            ResourceTableError::NotPresent => "resource not present",
            ResourceTableError::WrongType => "resource is of another type",
            ResourceTableError::HasChildren => "resource has children",
            ResourceTableError::HasParent => "HasParent",
            ResourceTableError::NotChild => "NotChild",
            ResourceTableError::OutOfMemory => "OutOfMemory",
        }
    }
}

impl fmt::Display for ResourceTableError {
    ghost output = { λ e. Some (error_text e) };

    fn fmt<W: fmt::Write>(&self, f: &mut fmt::Formatter<W>) -> fmt::Result {
        let text = self.text();
        write!(f, "{text}")
    }
}

impl Error for ResourceTableError {}

impl From<AllocError> for ResourceTableError {
    ghost from_gives = { λ _ e. e ≡ OutOfMemory };

    fn from(_: AllocError) -> ResourceTableError {
        ResourceTableError::OutOfMemory
    }
}

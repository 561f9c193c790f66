//! What a call answered, held to what was worked out; and what tests begin with.
//!
//! A test asserts by these alone: an assertion in its own body is proved there with all its text,
//! which takes many times as long as the calls.

ghost use Rattle.std.specs.Prelude.{◌≡◌, true, length};

use std::alloc::Global;
use std::fmt::{Debug, Display};
use std::process::Abort;
use strm_memory::memories::GuestMemory;

/// Later calls of a test may rest on the answer.
pub(crate) fn is<T: Copy + Debug + PartialEq>(rt: &impl Abort, answer: T, wanted: T)
    ensures { T.eq answer wanted ≡ true }
{
    assert_eq!(rt; answer, wanted);
}

/// What `{}` prints.
pub(crate) fn display_is<T: Display>(rt: &impl Abort, alloc: Global, value: &T, wanted: &str) {
    let text = format!(in alloc; "{value}").expect(rt, "memory");
    is(rt, text.as_str(), wanted);
}

/// What `{:?}` prints.
pub(crate) fn debug_is<T: Debug>(rt: &impl Abort, alloc: Global, value: &T, wanted: &str) {
    let text = format!(in alloc; "{value:?}").expect(rt, "memory");
    is(rt, text.as_str(), wanted);
}

/// These bytes in a vector.
pub(crate) fn vector(rt: &impl Abort, alloc: Global, bytes: &[u8]) -> Vec<u8>
    ensures { result.items ≡ bytes.now }
{
    bytes.to_vec(alloc).expect(rt, "memory")
}

/// A memory of so many bytes.
pub(crate) fn memory(rt: &impl Abort, alloc: Global, size: u32) -> GuestMemory
    ensures { length result.bytes ≡ size }
{
    GuestMemory::new(alloc, size).expect(rt, "memory")
}

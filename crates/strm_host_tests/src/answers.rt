//! What a call answered, held to what was worked out.
//!
//! A test asserts by `is` alone: an assertion in its own body is proved there with all its text,
//! which takes many times as long as the calls.

ghost use Rattle.std.specs.Prelude.{◌≡◌, true};

use std::fmt::Debug;
use std::process::Abort;

/// Later calls of a test may rest on the answer.
pub(crate) fn is<T: Copy + Debug + PartialEq>(rt: &impl Abort, answer: T, wanted: T)
    ensures { T.eq answer wanted ≡ true }
{
    assert_eq!(rt; answer, wanted);
}

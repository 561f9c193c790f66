//! What a row asks for, asserted in one place: an assertion in a test's own body is proved there with all its text.

use std::fmt::{Debug, Display};
use std::process::Abort;

/// What a row asks for holds, and memory was found. A row of which that is not so is told.
pub(crate) fn holds<E: Debug + Drop, R: Display + Drop>(
    rt: &impl Abort,
    found: Result<bool, E>,
    row: R,
) {
    assert!(rt; matches!(found, Ok(true)), "{row}: {found:?}");
}

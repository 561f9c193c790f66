//! What is kept of calls: what was answered, and who waits for what.
//!
//! Meaning: `Histories.antt` and `Waits.antt`. Ours.

use strm_machine::replies::Reply;
use strm_machine::steps::Step;

/// A call, as the history has it.
#[derive(Clone, Copy)]
pub struct Entry {
    /// The number of the seat that made it.
    pub seat: u64,
    pub step: Step,
    pub reply: Reply,
}

/// A handle of a guest.
#[derive(Clone, Copy, Debug, PartialEq, Eq)]
pub struct Place {
    pub guest: u32,
    pub handle: u32,
}

/// A seat that waits, by its number, and the handle of the end for whose report it waits.
#[derive(Clone, Copy, Debug, PartialEq, Eq)]
pub struct Wait {
    pub seat: u64,
    pub place: Place,
}

//! The picture of a run: its rows, of which those that come again are folded, and why it stopped, if it did.
//!
//! Meaning: `Running.antt`. Ours.

use crate::folding::Block;
use strm_machine::stops::Stop;

/// The picture of a run.
#[derive(Drop)]
pub struct Picture {
    /// The rows of all steps that were answered.
    pub blocks: Vec<Block>,
    /// Why the step behind them stopped the run, where one did.
    pub stop: Option<Stop>,
    /// The status of the run: `DONE`, or that of the stop.
    pub status: u8,
}

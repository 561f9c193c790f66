//! Runs on tape: a run whose steps and whose host ends' records are put on a tape, and a tape that is played.
//!
//! Meaning: `Taking.antt`, `Playing.antt`, `Differing.antt`. Ours.
#![tactic(auto)]

mod differing;
pub mod laws;
mod marks;
pub mod recorded;
mod records;
pub mod replays;
pub mod runs;
mod taking;

//! The program of tapes: a script is run and taken on tape, and a tape is played.
//!
//! The grammar of tapes is that of `strm_tape`; what a run puts on a tape, and how a tape is played, is said by
//! `strm_tape_runs`.
#![tactic(auto)]

pub mod modes;
pub mod playing;
pub mod reading;
pub mod taking;
mod texts;

pub use strm_input_output::statuses;

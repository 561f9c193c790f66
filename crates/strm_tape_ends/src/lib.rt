//! Host ends that follow a tape: each poll of a writer gives what the next record of the tape says, and each
//! poll of a reader takes it.
//!
//! Meaning: `Replays.antt`, `ReaderPlans.antt`. Ours.
#![tactic(auto)]

pub mod replay_reader;
pub mod replay_writer;

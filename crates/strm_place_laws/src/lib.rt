//! What holds of a store that gives the numbers of streams again: each of its runs is one of the machine
//! with other numbers, and the laws of every run hold of its streams. Laws, no code that runs.
//!
//! Meaning: `Renaming.antt`, `Runs.antt`, `Lives.antt`, `Isolation.antt`, `Shares.antt`. Ours.
#![tactic(auto)]

pub mod lives;
pub mod renaming;
pub mod shares;

//! The laws of every run of the machine: public functions that do nothing, whose contracts are the
//! laws.
//!
//! They stand on the machine of `strm_machine` alone, and on no code that runs: a store whose calls
//! are the machine's steps has them all. `Conservation.antt` says what was written, reported and
//! received in a run, from its steps, replies, counts and memories, and from what handles name and
//! operations have moved.
#![tactic(auto)]

pub mod laws;

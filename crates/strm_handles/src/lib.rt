//! The handle tables of a guest and of its threads, and the counter of all live handles.
//!
//! A table gives numbers from 1 on, the number freed last first. `specs/Handles.antt` says what a
//! table means, apart from the list of slots that keeps it.
#![tactic(auto)]

pub mod counters;
pub mod entries;
pub mod errors;
pub mod laws;
mod slots;
pub mod tables;
pub mod threads;

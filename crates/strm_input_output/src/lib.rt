//! Where bytes come from and go to: sources and sinks that count their faults, all of an input, and
//! all of an output.
//!
//! It knows nothing of what the bytes say. A fault is told only where a count of faults rose.
#![tactic(auto)]

pub mod answers;
pub mod in_memory;
pub mod ports;
pub mod processes;
pub mod standard;
pub mod statuses;
pub mod whole;
pub mod words;

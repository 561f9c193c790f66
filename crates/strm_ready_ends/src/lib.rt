//! Host ends that are always ready: a writer that a host feeds before it is asked, and a reader whose items a
//! host collects after they came. No code of the host's is called by a poll.
//!
//! Neither keeps a record of a poll longer than its owner lets it: `forget` gives all up, and until then one
//! record takes no memory.
#![tactic(auto)]

pub mod errors;
pub mod item_queues;
pub mod laws;
mod polls;
pub mod ready_readers;
pub mod ready_writers;
mod records;
pub mod wholes;

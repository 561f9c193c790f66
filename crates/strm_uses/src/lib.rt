//! Small callers of the public crates, proved from contracts alone: one module a crate.
//!
//! Each clause says what the caller then knows. The crates' `CALLING.md` quote these callers.
#![tactic(auto)]

pub mod buffers;
pub mod chain;
pub mod embed;
pub mod handles;
pub mod host_ends;
pub mod lanes;
pub mod memory;
pub mod resources;
pub mod session;
pub mod shared;
pub mod tape;
pub mod transmit;

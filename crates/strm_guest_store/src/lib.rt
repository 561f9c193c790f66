//! A store among guests alone, for those who embed it: a runtime whose every end of a stream is a guest's.
//!
//! Each call is a step of the machine of `strm_machine`, by one form of clause (`Meets`), and takes no
//! list of host ends. An embedder's own ends are a guest too, whose memory is the embedder's buffer.
//! Nothing traps it: where the machine would be trapped by an item that is none, the call tells whose it is
//! (`MeetsOrTells`), and all is as it was. It stands on `strm_transmit`; `strm_c` gives it to C and to Rust.
#![tactic(auto)]

pub mod guest_limits;
pub mod guest_store;
pub mod laws;
pub mod limit_laws;
pub mod limited_store;
pub mod operations;

pub use strm_machine::chunks::Chunk;
pub use strm_machine::limits::Limits;
pub use strm_machine::replies::{Member, Pair};
pub use strm_machine::streams::{Owner, Side};
pub use strm_transmit::errors::StoreError;
pub use strm_transmit::{BadItem, EndInfo, GuestCounts, Handle};

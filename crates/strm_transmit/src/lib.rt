//! The store: guests, their handle tables and the streams between them, and the calls on it.
//!
//! Each call is a step of the machine of `strm_machine`, by one form of clause (`Meets`): its
//! answer is the machine's, and so is the store afterwards. One that may touch a host end is a step
//! of the machine of `strm_host_machine`, among the host ends that it is handed (`MeetsHosted`). It stands
//! on the handle tables of `strm_handles`, the memories of `strm_memory`, the waitable sets of
//! `strm_waitable_sets` and the turns of `strm_channels` and `strm_host_turns`.
#![tactic(auto)]

pub mod errors;
pub mod host_ends;
mod places;
mod readiness;
mod ready_counts;
pub mod steps;
pub mod store;
mod telling;

pub use store::bad_items::BadItem;
pub use store::counts::GuestCounts;
pub use store::queries::{EndInfo, Handle};
pub use strm_machine::chunks::Chunk;
pub use strm_machine::limits::Limits;
pub use strm_machine::replies::{Member, Pair, Reply};
pub use strm_machine::steps::Step;

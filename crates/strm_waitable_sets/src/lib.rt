//! The waitable sets of a guest.
//!
//! Which set each handle is in, and the least member that is ready. Nothing here knows what makes a
//! handle ready. Stands on the codes of `strm_codes`.
#![tactic(auto)]

mod homes;
pub mod laws;
pub mod ready;
pub mod sets;
mod slots;

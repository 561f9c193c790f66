//! The error contexts of a store.
//!
//! Messages under numbers that it gives out, and how many handles lead to each; a context goes with
//! its last handle. Nothing here knows a handle or a table of handles. Stands on the codes of
//! `strm_codes` and the resource table of `strm_resources`.
#![tactic(auto)]

mod context;
pub mod contexts;
pub mod laws;
pub mod messages;

//! The store among guests, for C and for whatever calls C: Rust first.
//!
//! Each export is one call of `strm_guest_store`, and one clause says that its status, what it wrote and the
//! store afterwards are the machine's. `embed/strm.h` has them in C's words; `embed/declare` writes it
//! from the exports.
#![tactic(auto)]

mod exports;
mod handles;
mod lent_bytes;
mod loose;
mod payloads;
mod statuses;

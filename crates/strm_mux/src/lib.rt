//! Many lanes carried on one stream of bytes from one guest to another.
//!
//! The frames are those of `strm_frames`, which knows nothing of the store; what a stream brings is a law of
//! `strm_carry_laws`; the run is that of `strm_session`. Nothing that was read is compared with what was
//! written.
#![tactic(auto)]

pub mod carrying;
mod hearing;
pub mod lines;
mod scripts;
pub mod serving;
mod texts;

//! The turns of ready host ends: what `strm_host_turns` has for boxes, without a window where nothing is held, and of
//! good items alone. An end of the stream's own kind whose records were forgotten takes no memory in a turn, and stops
//! no step by it.
//!
//! Meaning: the definitions of `strm_host_turns`.
#![tactic(auto)]

pub mod pipes;
pub mod reader_turns;
pub mod writer_turns;

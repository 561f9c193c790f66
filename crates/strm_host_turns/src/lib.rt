//! The turns of host ends: a guest's open read receives what the host writer on its stream holds, or
//! what one poll of it produces; and of a guest's open write the host reader on its stream takes items
//! in one poll. Between two host ends a writer's items are fetched, and offered to the reader.
//!
//! A turn works on the guests, on one stream and on what is kept of the stream's host end: it knows of
//! no store, and refuses nothing. `strm_transmit` finds them, opens the read or write before, and tells
//! the guest afterwards.
#![tactic(auto)]

pub mod pipes;
mod reader_polls;
pub mod reader_turns;
pub mod regions;
pub mod settling;
mod writer_polls;
pub mod writer_turns;

//! What one turn does: a read or write to its stream and the guests, an ending to an operation,
//! another owner to an end, and the handles of ends, of waitable sets and of error contexts to their
//! tables.
//!
//! Each call is a part of a step of the machine of `strm_machine`, on guests and one stream: it
//! knows of no store, and refuses nothing. `strm_transmit` finds the guests and the stream, and
//! what may be done.
#![tactic(auto)]

pub mod channels;
pub mod contexts;
pub mod endings;
pub mod ends;
pub mod guests;
pub mod meetings;
pub mod owners;
pub mod sets;
pub mod sides;

//! A store that threads share: their calls have one history.
//!
//! Each thread has a seat, and calls the store by it. A call takes a turn, in which no other has the
//! store, and makes one entry of the history: its seat, its step and the reply, which is the machine's
//! at that place (`IsLegal`). What a seat knows is its token: the history that it has seen, its own
//! entries there, and the handles for whose reports other seats wait. The store is that of
//! `strm_transmit`, without host ends; the turns go by a table of words under a rule (`atomic_table`).
//!
//! Ours: wasmtime's store has one owner at a time.
#![tactic(auto)]

mod bell;
mod blocks;
mod desk;
mod entry;
mod errors;
mod history;
mod ledger;
mod lone_store;
mod rows;
mod rule;
mod seat;
mod steps;
mod store;
mod view;
mod waits;

pub use entry::{Entry, Place, Wait};
pub use errors::SharedError;
pub use history::History;
pub use seat::Seat;
pub use store::{Closed, SharedStore, Unclosed};

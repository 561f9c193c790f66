//! The rendezvous machine: what streams between guests are, said apart from any code that runs.
//!
//! `src/` has the plain data that a list of steps and its replies are made of, and the view of a step
//! as what it does. `specs/` has the machine: its state, its refusals, the meeting of a write and a
//! read, and the play of a list of steps. `proofs/` has the facts about it that the crates above share.
#![tactic(auto)]

pub mod acts;
pub mod chunks;
pub mod limits;
pub mod replies;
pub mod short_steps;
pub mod steps;
pub mod stops;
pub mod streams;

//! A store with ready host ends of its own, for those who embed it: guests, the streams between them, and host
//! writers and host readers, which a host feeds, and whose items it collects. No call asks code of the host's.
//!
//! Each call is a step of the machine among the host ends (`Calls.antt`), or changes one host end between steps, as
//! a write to a memory does (`Feeding.antt`). What a poll of a host end records is forgotten before the call answers.
#![tactic(auto)]

pub mod errors;
pub mod host_store;
pub mod ready_ends;

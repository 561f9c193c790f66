//! The machine with host ends: what a step does where a store polls what is not a guest.
//!
//! Definitions and their lemmas, and no code that runs. A world is the state of `strm_machine` with what
//! the host ends tell and the records of their polls that are yet to come; a step that touches no host
//! end is the machine's without them (`react`), and any other uses the next records of those that it
//! polls. `Does.antt` says how code over a store and its boxed host ends meets it, whatever records
//! are yet to come.
#![tactic(auto)]

//! The laws of every run with host writers and host readers: public functions that do nothing, whose
//! contracts are the laws.
//!
//! They stand on the machine with host ends of `strm_host_machine` alone, and on no code that runs: a store
//! whose calls are its steps has them all. `HostMoments.antt` says what the moments of such a run are,
//! and `HostLaws.antt` what holds of them; `guests` has the laws of `strm_laws`, said of such runs.
#![tactic(auto)]

pub mod calls;
pub mod guests;
pub mod runs;

//! The host ends among which the programs `strm` and `tape` do their work: eight writers and eight readers,
//! made and boxed once for both.
//!
//! Meaning: `HostEnds.antt`. Ours.
#![tactic(auto)]

pub mod among;
mod ready;

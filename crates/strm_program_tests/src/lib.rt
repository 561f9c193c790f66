//! What no clause of the programs and of what they stand on says, in a module each for runs, pipelines, lanes and
//! tapes: that memory is found, and what becomes of sources, sinks and host ends that fail.
//!
//! Public calls alone, so that the crates below are not proved once more for them. What the programs' own lines
//! can show stands in `examples/`.
#![tactic(auto)]

#[cfg(test)]
mod chain;
#[cfg(test)]
mod errors;
#[cfg(test)]
mod mux;
#[cfg(test)]
mod rows;
#[cfg(test)]
mod scripts;
#[cfg(test)]
mod session;
#[cfg(test)]
mod tape;
#[cfg(test)]
mod words;

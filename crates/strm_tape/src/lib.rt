//! Tapes: the steps of a run and the records of its host ends as bytes, each in one way. `untape` reads
//! them, `tape_bytes` writes them.
#![tactic(auto)]

pub mod errors;
pub mod laws;
mod lists;
mod parts;
mod records;
pub mod sameness;
mod shapes;
mod spelled;
mod steps;
pub mod tapable;
pub mod tape;
pub mod taping;
pub mod untaping;
mod versions;
mod writing;

//! The session: bytes in, lines, a run, text, bytes out.
//!
//! Sources and sinks are those of `strm_input_output`. Lines are read as the steps that they spell, and
//! replies are written as lines, by `strm_lines`.
#![tactic(auto)]

mod laws;
mod playing;
pub mod runs;
pub mod serving;
pub mod texts;
pub mod traps;

pub use strm_input_output::{in_memory, ports, standard, whole};
pub use strm_lines::{generator, lists, parsing};

//! The picture of a run: which steps moved how many items from which end to which, as rows over lanes, and the
//! picture as a text of SVG.
//!
//! Steps are run as in the session, on the store's machine among host ends; lines are read by `strm_lines`.
#![tactic(auto)]

pub mod arrows;
mod folding;
mod holders;
mod labels;
mod lanes;
pub mod marks;
mod moves;
pub mod pictures;
pub mod running;
mod sameness;
pub mod serving;
mod shapes;
mod styles;
mod svg;

//! Runs: which lines are read, the texts of the formats, that memory is found, and what becomes of sources, sinks and
//! host ends that fail.

mod lines;
mod pieces;
mod readers;
mod serving;
mod texts;
mod writers;

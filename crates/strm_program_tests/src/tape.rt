//! Tapes: that memory is found, so that a run is taken and played, what the bytes of small tapes are, and that a
//! replay among host ends that answer otherwise differs at that very record. The bytes that may stand for others
//! were found by a decoder of the grammar in another language.

mod casts;
mod changed;
mod ends;
mod largest;
mod most_ends;
mod others;
mod programs;
mod refused;
mod rows;

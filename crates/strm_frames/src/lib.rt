//! Many lanes on one stream of bytes.
//!
//! A stream is whole frames and less than one more; a frame has bytes of a lane, or is its end. `Mux`
//! writes the frames, and `Demux` takes a stream in any pieces and tells each lane. Neither knows of the
//! store.
#![tactic(auto)]

pub mod demuxes;
pub mod errors;
mod fronts;
pub mod laws;
pub mod muxes;
mod taking;

//! A pipeline of guests joined by streams: how a scheduler of plugins drives the store.
//!
//! Guest 0 is the source, guest i does stage i, and the last one is the sink; stream i goes from guest i
//! to guest i + 1. All that they do are steps of one store.
#![tactic(auto)]

mod asking;
mod calls;
pub mod chains;
pub mod faults;
pub mod lists;
mod making;
mod playing;
pub mod serving;
pub mod stages;
pub mod workers;

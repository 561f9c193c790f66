//! A table of resources: values under numbers that it gives out, with parents and children.
#![tactic(auto)]

pub mod errors;
pub mod kinds;
mod links;
mod nodes;
mod prints;
mod slots;
pub mod tables;
pub mod walks;

//! The memories of guests, where regions of items may lie in them, and the copies of items.
//!
//! A payload is seen as the list of its scalars. `Items.antt` says which items lie in a region and
//! what a memory is with items stored in one; every copy here is said by these two alone.
#![tactic(auto)]

mod columns;
mod compounds;
pub mod copies;
mod field_lists;
mod fields;
pub mod good_items;
pub mod items;
mod joins;
pub mod laws;
mod lifts;
mod limits;
mod lowers;
pub mod memories;
pub mod moves;
mod numbers;
pub mod payloaded;
mod tuples;
pub mod typed_fields;

//! What host ends are made of: buffers of typed items, items as their bytes, the window that a poll
//! fills and the offer that a poll takes from; and what a host writer and a host reader are.
//!
//! Of the buffers' calls only `take_all` takes memory, as their types say.
#![tactic(auto)]

pub mod answers;
pub mod boxes;
pub mod buffers;
pub mod byte_buffers;
pub mod hosts;
mod item_bytes;
pub mod items;
mod kept_bytes;
pub mod offers;
pub mod polling;
pub mod readers;
pub mod said;
pub mod slice_buffer;
pub mod sources;
pub mod values;
pub mod vec_buffer;
pub mod windows;
pub mod writers;

pub use strm_memory::payloaded::Payloaded;

//! Host ends typed by Rust's types: producers and consumers of streams and futures, and the host
//! writers and host readers that are made of them.
#![tactic(auto)]

pub mod byte_producers;
pub mod consumers;
pub mod destinations;
pub mod direct;
pub mod direct_sources;
pub mod empty;
pub mod erased;
pub mod erased_readers;
pub mod error_contexts;
pub mod future_consumers;
pub mod future_readers;
pub mod futures;
pub mod lists;
pub mod producers;
mod producing;
pub mod read_ends;
pub mod reader_errors;
pub mod readers;
pub mod sources;
pub mod stream_readers;
pub mod turning;

//! The calls, by families.

mod bad_items;
mod contexts;
mod futures;
mod limits;
mod lives;
mod memories;
mod moves;
mod pairs;
mod queries;
mod ready;
mod sets;
mod stores;
mod streams;
mod types;
mod version;

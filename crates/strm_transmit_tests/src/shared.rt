//! The store that threads share by example.

mod errors;
mod histories;
mod many;
mod moves;
mod seats;
mod sleepers;
mod stores;
mod teams;
mod waits;

//! The store by example, in public calls alone: each call once, limits, what stops a store, host ends that
//! follow a script, and the store that threads share. What lines can show stands in `examples/`.
//!
//! A test is a table of rows, each a call and what it answers, which `play` does one after another: so what
//! the store's calls promise is looked at once for each call, and a test costs next to nothing to prove.
#![tactic(auto)]

#[cfg(test)]
mod bad_items;
#[cfg(test)]
mod calls;
#[cfg(test)]
mod contexts;
#[cfg(test)]
mod errors;
#[cfg(test)]
mod futures;
#[cfg(test)]
mod host_stores;
#[cfg(test)]
mod hosts;
#[cfg(test)]
mod limits;
#[cfg(test)]
mod lives;
#[cfg(test)]
mod moves;
#[cfg(test)]
mod pipes;
#[cfg(test)]
mod play;
#[cfg(test)]
mod queries;
#[cfg(test)]
mod readers;
#[cfg(test)]
mod ready;
#[cfg(test)]
mod scripts;
#[cfg(test)]
mod sets;
#[cfg(test)]
mod shared;
#[cfg(test)]
mod shares;
#[cfg(test)]
mod streams;
#[cfg(test)]
mod told;
#[cfg(test)]
mod traps;

//! What no clause of the base crates says: worked cases of codes, payloads, ids, memories, both tables,
//! buffers and host ends, and each of their calls once with ample memory that no script of `examples/` comes to.
//!
//! Public calls alone, so that the crates below are not proved once more for them.
#![tactic(auto)]

#[cfg(test)]
mod answers;
#[cfg(test)]
mod buffers;
#[cfg(test)]
mod codes;
#[cfg(test)]
mod compounds;
#[cfg(test)]
mod ends;
#[cfg(test)]
mod errors;
#[cfg(test)]
mod handles;
#[cfg(test)]
mod host_rules;
#[cfg(test)]
mod ids;
#[cfg(test)]
mod levels;
#[cfg(test)]
mod memories;
#[cfg(test)]
mod messages;
#[cfg(test)]
mod payloads;
#[cfg(test)]
mod ready_readers;
#[cfg(test)]
mod ready_writers;
#[cfg(test)]
mod resources;
#[cfg(test)]
mod sets;
mod untyped;
#[cfg(test)]
mod windows;

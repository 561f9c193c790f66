//! The words that every other crate speaks: counts, return codes, payloads with their layout,
//! values, ids and refusals. No call of this crate takes memory.
#![tactic(auto)]

pub mod codes;
pub mod compounds;
pub mod counts;
pub mod fits;
pub mod ids;
pub mod insides;
pub mod laws;
pub mod measures;
pub mod nodes;
pub mod payloads;
pub mod refusals;
pub mod scalars;
pub mod vals;
pub mod values;

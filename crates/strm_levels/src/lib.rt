//! How many of something each number has, kept so that the next number which has any is found without a look at
//! all. Nothing here knows what is counted.
#![tactic(auto)]

mod bits;
mod level;
pub mod levels;

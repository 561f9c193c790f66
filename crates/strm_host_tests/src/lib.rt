//! Producers and consumers that a user of `strm_host` would write, and tests of it by public calls
//! alone.
#![tactic(auto)]

#[cfg(test)]
mod answers;
pub mod awaited;
#[cfg(test)]
mod consumers;
pub mod copying;
pub mod countdown;
#[cfg(test)]
mod errors;
pub mod greeting;
#[cfg(test)]
mod greetings;
pub mod latest;
#[cfg(test)]
mod polls;
#[cfg(test)]
mod readers;
#[cfg(test)]
mod ready;
pub mod summing;
#[cfg(test)]
mod turning;

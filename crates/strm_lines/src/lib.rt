//! Lines: what lies between bytes and steps, and between replies and bytes.
//!
//! An input's lines are read as the steps that they spell, and a run's replies are written as
//! lines. Nothing here knows what a step does.
#![tactic(auto)]

pub mod generator;
mod lines;
pub mod lists;
pub mod one_by_one;
pub mod parsing;
pub mod replies;
pub mod rows;
mod tails;
pub mod texts;
mod type_words;
pub mod words;

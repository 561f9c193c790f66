//! Pipelines: what stages make of lists that were worked out by hand, that a chain finds memory, and what is written
//! where sources and sinks fail.

mod greatest;
mod schedules;
mod serving;
mod stages;

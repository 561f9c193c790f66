//! Lanes: that memory is found, and the statuses where sources and sinks fail. Streams are fed in every cut, and every
//! fault is met at every place of its frame.

mod carried;
mod cuts;
mod faults;
mod greatest;
mod lanes;
mod serving;

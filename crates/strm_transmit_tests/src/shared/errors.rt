//! What errors print.

use std::alloc::Global;
use std::fmt::Display;
use std::process::Abort;
use strm_shared::SharedError;

// What `{}` prints.
fn prints<T: Display>(rt: &impl Abort, alloc: Global, value: &T, wanted: &str) {
    let text = format!(in alloc; "{value}").expect(rt, "memory");
    assert_eq!(rt; text.as_str(), wanted);
}

#[test]
fn errors_of_a_shared_store_print(rt: HostRuntime) {
    let alloc = rt.alloc();
    prints(
        &rt,
        alloc,
        &SharedError::HostStep,
        "the step is of a host end",
    );
    prints(
        &rt,
        alloc,
        &SharedError::InSet,
        "the end is in a waitable set",
    );
    let waiting = SharedError::Waiting { seat: 5 };
    prints(&rt, alloc, &waiting, "seat 5 waits for the report");
    let worn = SharedError::Worn { ticket: 9 };
    prints(&rt, alloc, &worn, "no ticket is left after 9");
    let full = SharedError::NoSeat { seats: 4 };
    prints(&rt, alloc, &full, "no seat is left after 4");
    prints(&rt, alloc, &SharedError::OutOfMemory, "out of memory");
}

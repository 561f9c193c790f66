//! The sets of a guest by example.

use crate::answers::is;
use std::process::Abort;
use strm_waitable_sets::sets::{SetNotEmpty, WaitableSets};

// New sets get these numbers.
fn make(rt: &impl Abort, sets: &mut WaitableSets, numbers: &[u32]) {
    for number in numbers {
        is(rt, sets.set_new(), Ok(*number));
    }
}

// A set that is taken away is not there.
fn take(rt: &impl Abort, sets: &mut WaitableSets, set: u32) {
    is(rt, taken(sets, set), Ok(()));
    is(rt, sets.is_there(set), false);
}

/// Sets made and taken away: the least number that no set has is given.
#[test]
fn least_number(rt: HostRuntime) {
    let mut sets = WaitableSets::new(rt.alloc());
    is(&rt, sets.is_there(0), false);
    make(&rt, &mut sets, &[0, 1, 2, 3]);
    take(&rt, &mut sets, 2);
    take(&rt, &mut sets, 0);
    make(&rt, &mut sets, &[0, 2, 4]);
}

fn taken(sets: &mut WaitableSets, set: u32) -> Result<(), SetNotEmpty> {
    if sets.is_there(set) {
        return sets.remove(set);
    }
    Ok(())
}

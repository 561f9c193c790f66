//! Ids: text, order and hash.

use crate::answers::{debug_is, is};
use std::cmp::Ordering;
use std::hash::{DefaultHasher, Hash, Hasher};
use std::process::Abort;
use std::test::Fail;
use strm_codes::ids::{Resource, TableId, TransmitHandle, TransmitState};

#[test]
fn ids_print_name_and_number(rt: HostRuntime) {
    let handle: TableId<TransmitHandle> = TableId::new(5);
    debug_is(&rt, rt.alloc(), &handle, "TransmitHandle(5)");
    let state: TableId<TransmitState> = TableId::new(4294967295);
    debug_is(&rt, rt.alloc(), &state, "TransmitState(4294967295)");
}

// Of a type with no traits at all.
struct Bare;

fn compare_as<T: Ord + Copy>(rt: &impl Abort, a: &T, b: &T, wanted: Ordering) {
    is(rt, a == b, wanted == Ordering::Equal);
    is(rt, a.partial_cmp(b), Some(wanted));
    is(rt, a.cmp(b), wanted);
}

#[test]
fn ids_are_their_numbers(rt: HostRuntime) -> Result<(), Fail> {
    let two: TableId<Bare> = TableId::new(2);
    let copy = two;
    let clone = two.clone()?;
    is(&rt, two.rep(), 2);
    compare_as(&rt, &copy, &clone, Ordering::Equal);
    compare_as(&rt, &two, &TableId::new(10), Ordering::Less);
    Ok(())
}

fn hash_of<T: Hash>(value: &T) -> u64 {
    let mut state = DefaultHasher::new();
    value.hash(&mut state);
    state.finish()
}

#[test]
fn equal_ids_have_one_hash(rt: HostRuntime) {
    let two: TableId<Bare> = TableId::new(2);
    let ten: TableId<Bare> = TableId::new(10);
    is(&rt, hash_of(&two), hash_of(&TableId::<Bare>::new(2)));
    is(&rt, hash_of(&two) == hash_of(&ten), false);
}

#[test]
fn resources_have_numbers_of_ids(rt: HostRuntime) {
    let ten: TableId<Bare> = TableId::new(10);
    let resource: Resource<Bare> = ten.into();
    is(&rt, resource.rep(), 10);
    is(&rt, TableId::from(resource).rep(), 10);
    is(&rt, Resource::<Bare>::new_own(3).rep(), 3);
}

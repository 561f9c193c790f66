//! The worked cases, each call once, and texts.

ghost use Rattle.std.specs.Prelude.{◌≡◌, OnOk, OnErr};
ghost use Rattle.strm_resources.specs.Entries.{with_value};

use crate::answers::{debug_is, display_is, is};
use std::process::Abort;
use strm_codes::ids::Resource;
use strm_resources::errors::ResourceTableError;
use strm_resources::kinds::{Resident, Tag};
use strm_resources::tables::ResourceTable;

#[derive(Clone, Copy)]
struct Item {
    kind: u32,
    amount: u32,
}

impl Resident for Item {
    ghost kind = { λ item. item.kind };

    fn kind(&self) -> u32 {
        self.kind
    }
}

struct Red;

impl Tag for Red {
    ghost kind = { 1 };

    fn kind() -> u32 {
        1
    }
}

struct Blue;

impl Tag for Blue {
    ghost kind = { 2 };

    fn kind() -> u32 {
        2
    }
}

type Answer = Result<u32, ResourceTableError>;

fn push_red(table: &mut ResourceTable<Item>, amount: u32) -> Answer {
    let key: Resource<Red> = table.push(Item { kind: 1, amount })?;
    Ok(key.rep())
}

fn push_blue(table: &mut ResourceTable<Item>, amount: u32) -> Answer {
    let key: Resource<Blue> = table.push(Item { kind: 2, amount })?;
    Ok(key.rep())
}

fn push_child(table: &mut ResourceTable<Item>, parent: u32) -> Answer {
    let parent: Resource<Blue> = Resource::new_own(parent);
    let key: Resource<Red> = table.push_child(Item { kind: 1, amount: 0 }, &parent)?;
    Ok(key.rep())
}

fn add_child(table: &mut ResourceTable<Item>, child: u32, parent: u32) -> Answer {
    let child: Resource<Red> = Resource::new_own(child);
    table.add_child(&child, &Resource::<Blue>::new_own(parent))?;
    Ok(0)
}

fn remove_child(table: &mut ResourceTable<Item>, child: u32, parent: u32) -> Answer {
    let child: Resource<Red> = Resource::new_own(child);
    table.remove_child(&child, &Resource::<Blue>::new_own(parent))?;
    Ok(0)
}

fn get<T: Tag>(table: &ResourceTable<Item>, number: u32) -> Answer {
    Ok(table.get(&Resource::<T>::new_own(number))?.amount)
}

fn delete<T: Tag>(table: &mut ResourceTable<Item>, number: u32) -> Answer {
    Ok(table.delete(Resource::<T>::new_own(number))?.amount)
}

// What a caller learns of a write.
fn write<T: Tag>(table: &mut ResourceTable<Item>, key: &Resource<T>, item: Item) -> Answer
    ensures ok { OnOk result (table.new.entries ≡ with_value table.old.entries key.now item) }
    ensures err { OnErr result (table.new ≡ table.old) }
{
    *table.get_mut(key)? = item;
    Ok(item.amount)
}

fn write_any(table: &mut ResourceTable<Item>, number: u32, amount: u32) -> Answer {
    table.get_any_mut(number)?.amount = amount;
    Ok(amount)
}

fn count_children(table: &ResourceTable<Item>, parent: u32) -> Answer {
    let parent: Resource<Red> = Resource::new_own(parent);
    let mut count = 0u32;
    for number in table.iter_children(&parent)? {
        count = count.wrapping_mul(10).wrapping_add(number);
    }
    Ok(count)
}

// One call. Red values have the kind 1, blue ones the kind 2.
#[derive(Clone, Copy)]
enum Call {
    PushRed(u32),
    PushBlue(u32),
    PushChild(u32),
    AddChild(u32, u32),
    RemoveChild(u32, u32),
    // The digits of the answer are the children.
    Children(u32),
    GetRed(u32),
    GetBlue(u32),
    WriteRed(u32, u32),
    WriteBlue(u32, u32),
    WriteAny(u32, u32),
    DeleteRed(u32),
    DeleteBlue(u32),
    SetMaxCapacity(usize),
}

fn answer(table: &mut ResourceTable<Item>, call: Call) -> Answer {
    match call {
        Call::PushRed(amount) => push_red(table, amount),
        Call::PushBlue(amount) => push_blue(table, amount),
        Call::PushChild(parent) => push_child(table, parent),
        Call::AddChild(child, parent) => add_child(table, child, parent),
        Call::RemoveChild(child, parent) => remove_child(table, child, parent),
        Call::Children(parent) => count_children(table, parent),
        Call::GetRed(number) => get::<Red>(table, number),
        Call::GetBlue(number) => get::<Blue>(table, number),
        Call::WriteRed(number, amount) => {
            write::<Red>(table, &Resource::new_own(number), Item { kind: 1, amount })
        }
        Call::WriteBlue(number, amount) => {
            write::<Blue>(table, &Resource::new_own(number), Item { kind: 2, amount })
        }
        Call::WriteAny(number, amount) => write_any(table, number, amount),
        Call::DeleteRed(number) => delete::<Red>(table, number),
        Call::DeleteBlue(number) => delete::<Blue>(table, number),
        Call::SetMaxCapacity(max) => {
            table.set_max_capacity(max);
            Ok(0)
        }
    }
}

// The first call that is not answered so, from 1.
fn first_wrong(table: &mut ResourceTable<Item>, cases: &[(Call, Answer)]) -> usize {
    let mut at = 0usize;
    for (call, expected) in cases {
        at = at.wrapping_add(1);
        if answer(table, *call) != *expected {
            return at;
        }
    }
    0
}

const FREED: [(Call, Answer); 9] = [
    (Call::PushRed(7), Ok(0)),
    (Call::PushBlue(8), Ok(1)),
    (Call::DeleteRed(0), Ok(7)),
    (Call::PushRed(0), Ok(0)),
    (Call::DeleteRed(0), Ok(0)),
    (Call::DeleteBlue(1), Ok(8)),
    (Call::PushRed(0), Ok(1)),
    (Call::PushRed(0), Ok(0)),
    (Call::PushRed(0), Ok(2)),
];

#[test]
fn the_number_freed_last_is_given_first(rt: HostRuntime) {
    let mut table = ResourceTable::new(rt.alloc());
    is(&rt, table.is_empty(), true);
    is(&rt, first_wrong(&mut table, &FREED), 0);
    is(&rt, table.is_empty(), false);
}

const CAPACITIES: [(Call, Answer); 22] = [
    (Call::SetMaxCapacity(0), Ok(0)),
    (Call::PushRed(0), Err(ResourceTableError::Full)),
    (Call::SetMaxCapacity(1), Ok(0)),
    (Call::PushRed(0), Ok(0)),
    (Call::PushRed(0), Err(ResourceTableError::Full)),
    (Call::SetMaxCapacity(0), Ok(0)),
    (Call::PushRed(0), Err(ResourceTableError::Full)),
    (Call::DeleteRed(0), Ok(0)),
    (Call::PushRed(0), Ok(0)),
    (Call::DeleteRed(0), Ok(0)),
    (Call::SetMaxCapacity(10), Ok(0)),
    (Call::PushRed(0), Ok(0)),
    (Call::PushRed(0), Ok(1)),
    (Call::PushRed(0), Ok(2)),
    (Call::PushRed(0), Ok(3)),
    (Call::PushRed(0), Ok(4)),
    (Call::PushRed(0), Ok(5)),
    (Call::PushRed(0), Ok(6)),
    (Call::PushRed(0), Ok(7)),
    (Call::PushRed(0), Ok(8)),
    (Call::PushRed(0), Ok(9)),
    (Call::PushRed(0), Err(ResourceTableError::Full)),
];

#[test]
fn a_table_is_full_at_its_capacity(rt: HostRuntime) {
    let mut table = ResourceTable::with_capacity(rt.alloc(), 3).expect(&rt, "memory");
    is(&rt, table.max_capacity(), 1_000_000);
    is(&rt, first_wrong(&mut table, &CAPACITIES), 0);
}

const REFUSED: [(Call, Answer); 20] = [
    (Call::PushBlue(5), Ok(0)),
    (Call::PushChild(0), Ok(1)),
    (Call::PushChild(9), Err(ResourceTableError::NotPresent)),
    (Call::GetRed(0), Err(ResourceTableError::WrongType)),
    (Call::GetRed(9), Err(ResourceTableError::NotPresent)),
    (Call::WriteRed(0, 6), Err(ResourceTableError::WrongType)),
    (Call::WriteAny(9, 6), Err(ResourceTableError::NotPresent)),
    (Call::DeleteBlue(1), Err(ResourceTableError::WrongType)),
    (Call::GetRed(1), Ok(0)),
    (Call::DeleteRed(0), Err(ResourceTableError::HasChildren)),
    (Call::DeleteBlue(0), Err(ResourceTableError::HasChildren)),
    (Call::DeleteRed(9), Err(ResourceTableError::NotPresent)),
    (Call::GetBlue(0), Ok(5)),
    (Call::Children(0), Ok(1)),
    (Call::WriteRed(1, 7), Ok(7)),
    (Call::WriteBlue(0, 8), Ok(8)),
    (Call::GetRed(1), Ok(7)),
    (Call::WriteAny(1, 9), Ok(9)),
    (Call::GetRed(1), Ok(9)),
    (Call::GetBlue(0), Ok(8)),
];

#[test]
fn a_refused_call_changes_nothing(rt: HostRuntime) {
    let mut table = ResourceTable::new(rt.alloc());
    is(&rt, first_wrong(&mut table, &REFUSED), 0);
}

const CHILDREN: [(Call, Answer); 21] = [
    (Call::PushBlue(0), Ok(0)),
    (Call::PushChild(0), Ok(1)),
    (Call::PushRed(0), Ok(2)),
    (Call::PushBlue(0), Ok(3)),
    (Call::AddChild(9, 0), Err(ResourceTableError::NotPresent)),
    (Call::AddChild(1, 9), Err(ResourceTableError::HasParent)),
    (Call::AddChild(2, 9), Err(ResourceTableError::NotPresent)),
    (Call::AddChild(3, 0), Ok(0)),
    (Call::AddChild(2, 0), Ok(0)),
    (Call::Children(0), Ok(123)),
    (Call::Children(9), Err(ResourceTableError::NotPresent)),
    (Call::RemoveChild(9, 0), Err(ResourceTableError::NotPresent)),
    (Call::RemoveChild(1, 2), Err(ResourceTableError::NotChild)),
    (Call::RemoveChild(1, 0), Ok(0)),
    (Call::RemoveChild(1, 0), Err(ResourceTableError::NotChild)),
    (Call::DeleteRed(2), Ok(0)),
    (Call::Children(0), Ok(3)),
    (Call::DeleteBlue(3), Ok(0)),
    (Call::Children(0), Ok(0)),
    (Call::DeleteBlue(0), Ok(0)),
    (Call::DeleteRed(1), Ok(0)),
];

#[test]
fn children_come_and_go(rt: HostRuntime) {
    let mut table = ResourceTable::new(rt.alloc());
    is(&rt, first_wrong(&mut table, &CHILDREN), 0);
    is(&rt, table.is_empty(), true);
}

const PRINTED: [(Call, Answer); 4] = [
    (Call::PushBlue(0), Ok(0)),
    (Call::PushChild(0), Ok(1)),
    (Call::PushRed(0), Ok(2)),
    (Call::DeleteRed(1), Ok(0)),
];

#[test]
fn a_table_prints_its_numbers(rt: HostRuntime) {
    let mut table = ResourceTable::new(rt.alloc());
    debug_is(&rt, rt.alloc(), &table, "[]");
    is(&rt, first_wrong(&mut table, &PRINTED), 0);
    debug_is(&rt, rt.alloc(), &table, "[0, 2]");
    let keys: Vec<u32> = table.keys().collect(rt.alloc()).expect(&rt, "memory");
    is(&rt, keys.as_slice(), [0, 2].as_slice());
}

const TEXTS: [(ResourceTableError, &str); 7] = [
    (ResourceTableError::Full, "resource table has no free keys"),
    (ResourceTableError::NotPresent, "resource not present"),
    (ResourceTableError::WrongType, "resource is of another type"),
    (ResourceTableError::HasChildren, "resource has children"),
    (ResourceTableError::HasParent, "HasParent"),
    (ResourceTableError::NotChild, "NotChild"),
    (ResourceTableError::OutOfMemory, "OutOfMemory"),
];

#[test]
fn errors_print(rt: HostRuntime) {
    for (error, text) in &TEXTS {
        display_is(&rt, rt.alloc(), error, text);
    }
}

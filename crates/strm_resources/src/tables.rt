//! The resource table.
//!
//! Source: wasmtime, `resource_table.rs`, `ResourceTable`.

ghost use Rattle.std.specs.Prelude.{◌≡◌, ◌≢◌, ℕ, ◌+◌, ◌<◌, ◌≤◌, ◌==◌, ◌↔◌, if◌then◌else◌, [], ◌∷◌, ◌++◌, map, length, true, is_some, Some, None, Ok, Err, IsTrue, IsSome, IfOk, OnOk, OnErr, slice_set, option_copied, vec_len, vec_capacity};
ghost use Rattle.std.specs.Borrow.{sem};
ghost use Rattle.std.specs.Result.{result_err};
ghost use Rattle.std.specs.List.Sorted.{IsStrictlyIncreasing};
ghost use Rattle.strm_resources.specs.declared.errors.ResourceTableError.TheVariants.{OutOfMemory};
ghost use Rattle.strm_resources.specs.Errors.{refusal_of};
ghost use Rattle.strm_resources.specs.Links.{is_among};
ghost use Rattle.strm_resources.specs.Nodes.{node_at};
ghost use Rattle.strm_resources.specs.Numbers.{ListsNumbers};
ghost use Rattle.strm_resources.specs.WellKept.{IsWellKept};
ghost use Rattle.std.specs.FinSet as set;
ghost use Rattle.strm_resources.specs.Entries.{value_at, parent_of, children_of, numbers, next_number, no_entries, pushed, pushed_child, child_added, child_removed, deleted};
ghost use Rattle.strm_resources.specs.Refusals.{push_refusal, push_child_refusal, add_child_refusal, remove_child_refusal, any_refusal, get_refusal, delete_refusal};

use crate::errors::ResourceTableError;
use crate::kinds::{Resident, Tag};
use crate::links::Links;
use crate::slots::value_of;
use crate::walks::{Children, Keys};
use std::alloc::Global;
use std::marker::Model;
use strm_codes::ids::Resource;

/// Values under numbers that the table gives out: the number freed last first, else the next new
/// one. A value may be the child of another.
#[derive(Drop)]
pub struct ResourceTable<V: Resident> {
    links: Links,
    values: Vec<Option<V>>,
    max_capacity: usize,
}

impl<V: Resident> Model for ResourceTable<V> {
    ghost use Rattle.std.specs.Prelude.{◌≡◌, ◌+◌, ◌-◌, min, map, is_some, length, vec_len, vec_capacity};
    ghost use Rattle.strm_resources.specs.Entries.{EntryTable, table_code};

    ghost Value = { EntryTable V };

    ghost coded = { table_code V.code };

    ghost view = { λ t. record {
      entries = record { values = t.values.items; nodes = t.links.nodes; freed = t.links.freed };
      capacity = t.max_capacity;
      room = min t.links.room (vec_capacity t.values - vec_len t.values + length t.links.freed);
    } };

    ghost invariant = { λ t. map is_some t.values.items ≡ map is_some t.links.nodes };
}

impl<V: Resident> ResourceTable<V> {
    ghost use Rattle.strm_resources.specs.Lends.{lends_value, lends_found};

    /// An empty table, which may hold 1,000,000 values. It allocates nothing.
    pub fn new(alloc: Global) -> ResourceTable<V>
        ensures empty { result.entries ≡ no_entries }
        ensures capacity { result.capacity ≡ 1000000 }
    {
        ResourceTable {
            links: Links::new(alloc),
            values: Vec::new(alloc),
            max_capacity: 1_000_000,
        }
    }

    /// As `new`, with room for so many values.
    pub fn with_capacity(
        alloc: Global,
        capacity: usize,
    ) -> Result<ResourceTable<V>, ResourceTableError>
        ensures empty { IfOk result (λ t. t.entries ≡ no_entries) }
        ensures capacity { IfOk result (λ t. t.capacity ≡ 1000000) }
        ensures room { IfOk result (λ t. capacity ≤ t.room) }
        ensures memory { OnErr result (result ≡ Err OutOfMemory) }
    {
        Ok(ResourceTable {
            links: Links::with_capacity(alloc, capacity)?,
            values: Vec::with_capacity(alloc, capacity)?,
            max_capacity: 1_000_000,
        })
    }

    /// Whether no number is in use.
    pub fn is_empty(&self) -> bool
        ensures { IsTrue result ↔ (numbers self.now.entries ≡ []) }
    {
        self.keys().next().is_none()
    }

    /// How many values a table may hold before a push is refused.
    pub fn max_capacity(&self) -> usize
        ensures { result ≡ self.now.capacity }
    {
        self.max_capacity
    }

    /// Sets that number. Lowering it evicts nothing.
    pub fn set_max_capacity(&mut self, max: usize)
        ensures { self.new ≡ record self.old { capacity = max } }
    {
        self.max_capacity = max;
    }

    /// Every number in use, ascending, each once.
    pub fn keys(&self) -> Keys<'_>
        ensures exact { result ≡ numbers self.now.entries }
        ensures ascending { IsStrictlyIncreasing result }
    {
        self.links.keys()
    }

    fn value(&self, number: u32) -> Option<&V>
        ensures { option_copied result ≡ value_at self.now.entries number }
    {
        match self.values.get(number as usize) {
            Some(Some(value)) => Some(value),
            _ => None,
        }
    }

    fn value_mut(&mut self, number: u32) -> &mut V
        requires { is_some (value_at self.old.entries number) ≡ true }
        ensures* writes_back { sem 𝓛 (lends_value V.row V.Resident self.entry number result) }
        ensures value { value_at self.old.entries number ≡ Some result.now }
    {
        value_of(&mut self.values[number as usize])
    }

    /// The value under a number, of any kind, for writing.
    pub fn get_any_mut(&mut self, key: u32) -> Result<&mut V, ResourceTableError>
        ensures* writes_back { sem 𝓛 (lends_found V.row V.Resident self.entry key result) }
        ensures value { IfOk result (λ value. value_at self.old.entries key ≡ Some value.now) }
        ensures refused { result_err result ≡ any_refusal self.old.entries key }
        ensures takes_no_memory { result ≢ Err OutOfMemory }
    {
        if !self.contains(key) {
            return Err(ResourceTableError::NotPresent);
        }
        Ok(self.value_mut(key))
    }

    /// The value under a key, for writing. A write may change its kind.
    pub fn get_mut<T: Tag>(&mut self, key: &Resource<T>) -> Result<&mut V, ResourceTableError>
        ensures* writes_back { sem 𝓛 (lends_found V.row V.Resident self.entry key.now result) }
        ensures value { IfOk result (λ value. value_at self.old.entries key.now ≡ Some value.now) }
        ensures refused { result_err result ≡ get_refusal V.kind T.kind self.old.entries key.now }
        ensures takes_no_memory { result ≢ Err OutOfMemory }
    {
        let number = key.rep();
        if let Err(refusal) = self.get(key) {
            return Err(refusal);
        }
        Ok(self.value_mut(number))
    }

    /// The value under a key.
    pub fn get<T: Tag>(&self, key: &Resource<T>) -> Result<&V, ResourceTableError>
        ensures value { IfOk result (λ value. value_at self.now.entries key.now ≡ Some value.now) }
        ensures refused { result_err result ≡ get_refusal V.kind T.kind self.now.entries key.now }
        ensures takes_no_memory { result ≢ Err OutOfMemory }
    {
        match self.value(key.rep()) {
            None => Err(ResourceTableError::NotPresent),
            Some(value) if value.kind() == T::kind() => Ok(value),
            Some(_) => Err(ResourceTableError::WrongType),
        }
    }

    fn contains(&self, number: u32) -> bool
        ensures value { result ≡ is_some (value_at self.now.entries number) }
        ensures node { result ≡ is_some (node_at self.now.entries.nodes number) }
    {
        self.links.contains(number)
    }

    // Room for one more value.
    fn reserve(&mut self) -> Result<(), ResourceTableError>
        ensures refused { refusal_of result ≡ push_refusal self.old }
        ensures entries { self.new.entries ≡ self.old.entries }
        ensures capacity { self.new.capacity ≡ self.old.capacity }
        ensures ok { OnOk result (0 < self.new.room) }
        ensures small { OnOk result (next_number self.old.entries ≤ 4294967295) }
        ensures room { self.old.room ≤ self.new.room }
        ensures err { OnErr result (self.new ≡ self.old) }
        ensures succeeds { 0 < self.old.room → result ≢ Err OutOfMemory }
    {
        if self.links.is_full(self.max_capacity) {
            return Err(ResourceTableError::Full);
        }
        self.links.reserve()?;
        if self.links.gives_new() {
            self.values.reserve(1)?;
        }
        Ok(())
    }

    /// Ends the link between a child and its parent. No memory is taken.
    pub fn remove_child<T, U>(
        &mut self,
        child: &Resource<T>,
        parent: &Resource<U>,
    ) -> Result<(), ResourceTableError>
        ensures ok { OnOk result
            (self.new.entries ≡ child_removed self.old.entries child.now parent.now) }
        ensures refused { result_err result
            ≡ remove_child_refusal self.old.entries child.now parent.now }
        ensures takes_no_memory { result ≢ Err OutOfMemory }
        ensures capacity { self.new.capacity ≡ self.old.capacity }
        ensures room { self.new.room ≡ self.old.room }
        ensures err { OnErr result (self.new ≡ self.old) }
    {
        let child = child.rep();
        let parent = parent.rep();
        if !self.contains(child) {
            return Err(ResourceTableError::NotPresent);
        }
        match self.links.parent(child) {
            Some(found) if found == parent => {
                self.links.unlink(child, parent);
                Ok(())
            }
            _ => Err(ResourceTableError::NotChild),
        }
    }

    /// Makes one value the child of another. Whether a value comes to be below itself isn't tested.
    pub fn add_child<T, U>(
        &mut self,
        child: &Resource<T>,
        parent: &Resource<U>,
    ) -> Result<(), ResourceTableError>
        ensures ok { OnOk result
            (self.new.entries ≡ child_added self.old.entries child.now parent.now) }
        ensures refused { refusal_of result
            ≡ add_child_refusal self.old.entries child.now parent.now }
        ensures capacity { self.new.capacity ≡ self.old.capacity }
        ensures room { self.new.room ≡ self.old.room }
        ensures err { OnErr result (self.new ≡ self.old) }
    {
        let child = child.rep();
        let parent = parent.rep();
        if !self.contains(child) {
            return Err(ResourceTableError::NotPresent);
        }
        if self.links.parent(child).is_some() {
            return Err(ResourceTableError::HasParent);
        }
        if !self.contains(parent) {
            return Err(ResourceTableError::NotPresent);
        }
        self.links.link(child, parent)?;
        Ok(())
    }

    /// The children of a value, ascending, each once.
    pub fn iter_children<T>(&self, parent: &Resource<T>) -> Result<Children<'_>, ResourceTableError>
        ensures value { IfOk result (ListsNumbers (children_of self.now.entries parent.now)) }
        ensures refused { result_err result ≡ any_refusal self.now.entries parent.now }
        ensures takes_no_memory { result ≢ Err OutOfMemory }
    {
        match self.links.children(parent.rep()) {
            Some(children) => Ok(children),
            None => Err(ResourceTableError::NotPresent),
        }
    }

    /// Adds a value, under the number freed last, else under a new one. A refused value is dropped.
    pub fn push<T: Tag>(&mut self, value: V) -> Result<Resource<T>, ResourceTableError>
    where
        V: Drop,
        requires { V.kind value ≡ T.kind }
        ensures number { IfOk result (λ key. key ≡ next_number self.old.entries) }
        ensures ok { OnOk result (self.new.entries ≡ pushed self.old.entries value) }
        ensures refused { refusal_of result ≡ push_refusal self.old }
        ensures capacity { self.new.capacity ≡ self.old.capacity }
        ensures err { OnErr result (self.new ≡ self.old) }
        ensures takes_no_memory { 0 < self.old.room → result ≢ Err OutOfMemory }
        ensures room { self.old.room ≤ self.new.room + 1 }
    {
        self.reserve()?;
        let number = self.links.insert();
        put(&mut self.values, number, value);
        Ok(Resource::new_own(number))
    }

    /// Adds a value as the child of another. A refused value is dropped.
    pub fn push_child<T: Tag, U>(
        &mut self,
        value: V,
        parent: &Resource<U>,
    ) -> Result<Resource<T>, ResourceTableError>
    where
        V: Drop,
        requires { V.kind value ≡ T.kind }
        ensures number { IfOk result (λ key. key ≡ next_number self.old.entries) }
        ensures ok { OnOk result
            (self.new.entries ≡ pushed_child self.old.entries value parent.now) }
        ensures refused { refusal_of result ≡ push_child_refusal self.old parent.now }
        ensures capacity { self.new.capacity ≡ self.old.capacity }
        ensures err { OnErr result (self.new.entries ≡ self.old.entries) }
        ensures unchanged { IsSome (refusal_of result) → self.new ≡ self.old }
        ensures room { self.old.room ≤ self.new.room + 1 }
    {
        let parent = parent.rep();
        if !self.contains(parent) {
            return Err(ResourceTableError::NotPresent);
        }
        self.reserve()?;
        let number = self.links.insert_child(parent)?;
        put(&mut self.values, number, value);
        Ok(Resource::new_own(number))
    }

    /// Takes a value out, which ends the link to its parent. Its number is given first from now on.
    pub fn delete<T: Tag>(&mut self, key: Resource<T>) -> Result<V, ResourceTableError>
        ensures value { IfOk result (λ value. value_at self.old.entries key ≡ Some value) }
        ensures ok { OnOk result (self.new.entries ≡ deleted self.old.entries key) }
        ensures refused { result_err result ≡ delete_refusal V.kind T.kind self.old.entries key }
        ensures takes_no_memory { result ≢ Err OutOfMemory }
        ensures capacity { self.new.capacity ≡ self.old.capacity }
        ensures room { OnOk result (self.new.room ≡ self.old.room + 1) }
        ensures err { OnErr result (self.new ≡ self.old) }
    {
        let number = key.rep();
        if !self.contains(number) {
            return Err(ResourceTableError::NotPresent);
        }
        if !self.links.is_childless(number) {
            return Err(ResourceTableError::HasChildren);
        }
        self.get(&key)?;
        self.links.remove(number);
        match self.values[number as usize].take() {
            Some(value) => Ok(value),
            None => unreachable!(),
        }
    }
}

/// What holds of every table: each child link has its parent link and back, and a number that is
/// given again has no value.
pub fn links_have_both_ends<V: Resident>(table: &ResourceTable<V>)
    ensures well_kept { IsWellKept table.now.entries }
    ensures links { (child parent : ℕ)
        → IsTrue (set.contains (children_of table.now.entries parent) child)
        ↔ (parent_of table.now.entries child ≡ Some parent) }
    ensures freed { (number : ℕ) → IsTrue (is_among table.now.entries.freed number)
        → value_at table.now.entries number ≡ None }
    ensures next { value_at table.now.entries (next_number table.now.entries) ≡ None }
{
    table.links.are_kept();
}

// Puts a value under a number: at the end, where that is the length.
fn put<V: Drop>(values: &mut Vec<Option<V>>, number: u32, value: V)
    requires bound { number ≤ vec_len values.old }
    requires room { number ≡ vec_len values.old → vec_len values.old < vec_capacity values.old }
    ensures items { values.new.items ≡ (if number == length values.old.items
        then values.old.items ++ Some value ∷ []
        else slice_set values.old.items number (Some value)) }
    ensures len { vec_len values.new ≡ (if number == length values.old.items
        then length values.old.items + 1
        else length values.old.items) }
    ensures capacity { vec_capacity values.new ≡ vec_capacity values.old }
{
    let slot = number as usize;
    if slot == values.len() {
        values.push_reserved(Some(value));
    } else {
        values[slot] = Some(value);
    }
}

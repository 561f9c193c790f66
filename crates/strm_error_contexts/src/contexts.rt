//! The error contexts of a store.
//!
//! Meaning: `Contexts.antt`. Source: Component Model, `canon error-context.{new,debug-message,drop}`;
//! wasmtime, `error_context_new`, `error_context_debug_message`, `error_context_drop` and
//! `error_context_transfer`.

ghost use Rattle.std.specs.Prelude.{◌≡◌, ◌+◌, ◌-◌, ◌<◌, ◌^◌, ◌==◌, nat_lt, not, true, false, is_some, IfOk, OnOk, OnErr, option_copied};
ghost use Rattle.strm_resources.specs.Nodes.{is_childless};
ghost use Rattle.strm_resources.specs.Entries.{value_at, children_of, deleted};
ghost use Rattle.strm_error_contexts.specs.Contexts.{no_contexts, context_at, is_context_there, message_at, handles_of_context, context_count_at, len, next_number, inserted, raised, context_dropped, AreContextsKept};
ghost use Rattle.strm_error_contexts.specs.Inside.{with_handles_at};

use crate::context::{ContextKey, ErrorContext};
use std::alloc::Global;
use std::marker::Model;
use strm_codes::counts::OutOfMemory;
use strm_codes::ids::Resource;
use strm_resources::tables::ResourceTable;

/// Messages under numbers, each with the number of handles to it in all tables.
#[derive(Drop)]
pub struct ErrorContexts {
    table: ResourceTable<ErrorContext>,
    len: usize,
    alloc: Global,
}

impl Model for ErrorContexts {
    ghost use Rattle.strm_error_contexts.specs.Contexts.{Contexts, contexts_code};
    ghost use Rattle.strm_error_contexts.specs.Inside.{contexts_of, AreContextsHeld};

    ghost Value = { Contexts };

    ghost coded = { contexts_code };

    ghost view = { λ c. contexts_of c.table.entries };

    ghost invariant = { λ c. AreContextsHeld c.table.entries c.len };
}

impl ErrorContexts {
    /// No contexts. It allocates nothing.
    pub fn new(alloc: Global) -> ErrorContexts
        ensures { result ≡ no_contexts }
    {
        let mut table = ResourceTable::new(alloc);
        table.set_max_capacity(usize::MAX);
        ErrorContexts {
            table,
            len: 0,
            alloc,
        }
    }

    // The context of a number.
    fn context(&self, number: u32) -> Option<&ErrorContext>
        ensures { option_copied result ≡ context_at self.now number }
    {
        match self.table.get(&Resource::<ContextKey>::new_own(number)) {
            Ok(context) => Some(context),
            Err(_) => None,
        }
    }

    /// Whether a context has this number.
    pub fn is_there(&self, number: u32) -> bool
        ensures { result ≡ is_context_there self.now number }
    {
        self.context(number).is_some()
    }

    /// The message of a context. wasmtime, `error_context_debug_message`.
    pub fn message(&self, number: u32) -> Option<&str>
        ensures { option_copied result ≡ message_at self.now number }
    {
        match self.context(number) {
            Some(context) => Some(context.message()),
            None => None,
        }
    }

    /// The number of handles to a context; 0 where there is none.
    pub fn count(&self, number: u32) -> u64
        ensures { result ≡ context_count_at self.now number }
    {
        match self.context(number) {
            Some(context) => context.handles(),
            None => 0,
        }
    }

    // Whether more than one handle leads to a context.
    fn has_several(&self, number: u32) -> bool
        ensures { result ≡ nat_lt 1 (context_count_at self.now number) }
    {
        self.count(number) > 1
    }

    /// How many contexts there are.
    pub fn len(&self) -> usize
        ensures { result ≡ len self.now }
    {
        self.len
    }

    /// A context with this message and one handle, under the number freed last, else under a new
    /// one. Where there is no memory, or no number of 32 bits is left, nothing changes.
    pub fn insert(&mut self, message: &str) -> Result<u32, OutOfMemory>
        ensures number { IfOk result (λ number. number ≡ next_number self.old) }
        ensures there { IfOk result (λ number. is_context_there self.new number ≡ true) }
        ensures ok { OnOk result (self.new ≡ inserted self.old message.now) }
        ensures err { OnErr result (self.new ≡ self.old) }
    {
        let Ok(message) = String::from_str(self.alloc, message) else {
            return Err(OutOfMemory);
        };
        let context = ErrorContext::new(message);
        let key: Resource<ContextKey> = match self.table.push(context) {
            Ok(key) => key,
            Err(_) => return Err(OutOfMemory),
        };
        self.len += 1;
        Ok(key.rep())
    }

    /// Counts a handle more to a context: it was transferred or lowered. No memory is taken.
    pub fn add_handle(&mut self, number: u32)
        requires there { is_context_there self.old number ≡ true }
        requires fits { context_count_at self.old number + 1 < 2 ^ 64 }
        ensures { self.new ≡ raised self.old number }
    {
        raise_at(&mut self.table, number);
    }

    /// Counts a handle less to a context, and answers whether it was the last one; the context then
    /// goes, and its number is the one given next. No memory is taken.
    pub fn drop_handle(&mut self, number: u32) -> bool
        requires there { is_context_there self.old number ≡ true }
        ensures last { result ≡ (context_count_at self.old number == 1) }
        ensures gone { is_context_there self.new number ≡ not result }
        ensures dropped { self.new ≡ context_dropped self.old number }
    {
        if self.has_several(number) {
            lower_at(&mut self.table, number);
            return false;
        }
        remove_at(&mut self.table, number);
        self.len -= 1;
        true
    }

    /// A context that is there has a handle, and the number given next has no context.
    pub fn are_kept(&self)
        ensures kept { AreContextsKept self.now }
        ensures next { is_context_there self.now (next_number self.now) ≡ false }
    {
        let _ = &self.table;
    }
}

// Counts a handle more to the context of a number.
fn raise_at(table: &mut ResourceTable<ErrorContext>, number: u32)
    requires there { is_some (value_at table.old.entries number) ≡ true }
    requires fits { handles_of_context (value_at table.old.entries number) + 1 < 2 ^ 64 }
    ensures { table.new.entries ≡ with_handles_at table.old.entries number
        (handles_of_context (value_at table.old.entries number) + 1) }
{
    match table.get_any_mut(number) {
        Ok(context) => context.raise(),
        Err(_) => unreachable!(),
    }
}

// Counts a handle less to the context of a number.
fn lower_at(table: &mut ResourceTable<ErrorContext>, number: u32)
    requires there { is_some (value_at table.old.entries number) ≡ true }
    requires several { 0 < handles_of_context (value_at table.old.entries number) }
    ensures { table.new.entries ≡ with_handles_at table.old.entries number
        (handles_of_context (value_at table.old.entries number) - 1) }
{
    match table.get_any_mut(number) {
        Ok(context) => context.lower(),
        Err(_) => unreachable!(),
    }
}

// Takes the context of a number out, which is no other's parent.
fn remove_at(table: &mut ResourceTable<ErrorContext>, number: u32)
    requires there { is_some (value_at table.old.entries number) ≡ true }
    requires lone { is_childless (children_of table.old.entries number) ≡ true }
    ensures { table.new.entries ≡ deleted table.old.entries number }
{
    match table.delete(Resource::<ContextKey>::new_own(number)) {
        Ok(_) => {}
        Err(_) => unreachable!(),
    }
}

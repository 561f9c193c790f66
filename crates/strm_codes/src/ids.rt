//! Ids of table entries and of resources, each seen by contracts as its number.
//!
//! Source: wasmtime, `table.rs`, `TableId` and `TableDebug`; `resource_table.rs`, `Resource`;
//! `futures_and_streams.rs`, `TransmitHandle` and `TransmitState`, of which the names remain.

ghost use Rattle.std.specs.Prelude.{◌≡◌, ◌==◌, codes, Some, ⊤};
ghost use Rattle.std.proofs.Common.{rules};
ghost use Rattle.std.specs.Hash as fed;
ghost use Rattle.std.specs.Cmp.{partial_order_from_own_ties};
ghost use Rattle.std.specs.Cmp.Rules.{comparing, hashing};
ghost use Rattle.std.specs.Ordering.{nat_cmp, as_partial_cmp};
ghost use Rattle.strm_codes.specs.Ids.{id_text};

use std::alloc::AllocError;
use std::cmp::Ordering;
use std::fmt;
use std::hash::{Hash, Hasher};
use std::marker::{Model, PhantomData};

/// A type with a name to print ids of it by.
pub trait TableDebug {
    ghost use Rattle.std.specs.Prelude.{List, ℕ};

    // The bytes of `type_name`.
    ghost name: { List ℕ };

    fn type_name() -> &'static str
        ensures { result.now ≡ name };
}

/// The type that the ids of a stream's or future's ends are ids of.
pub struct TransmitHandle;

impl TableDebug for TransmitHandle {
    ghost name = { codes "TransmitHandle" };

    fn type_name() -> &'static str {
        "TransmitHandle"
    }
}

/// The type that the ids of streams and futures are ids of.
pub struct TransmitState;

impl TableDebug for TransmitState {
    ghost name = { codes "TransmitState" };

    fn type_name() -> &'static str {
        "TransmitState"
    }
}

/// The number of a `T` in a table. It is compared, ordered and hashed by the number alone.
pub struct TableId<T> {
    rep: u32,
    marker: PhantomData<T>,
}

impl<T> Model for TableId<T> {
    ghost use Rattle.std.specs.Prelude.{ℕ};

    ghost Value = { ℕ };

    ghost view = { λ id. id.rep };

    ghost inverse = { λ n. record { rep = n; marker = record {} } };
}

impl<T> TableId<T> {
    /// The id of this number.
    pub fn new(rep: u32) -> TableId<T>
        ensures { result ≡ rep }
    {
        TableId {
            rep,
            marker: PhantomData,
        }
    }

    /// The number.
    pub fn rep(&self) -> u32
        ensures { result ≡ self.now }
    {
        self.rep
    }
}

impl<T> Clone for TableId<T> {
    ghost is_clone = { λ id copy. copy ≡ id };

    ghost is_infallible = { λ _. ⊤ };

    fn clone(&self) -> Result<TableId<T>, AllocError> {
        Ok(TableId::new(self.rep))
    }
}

impl<T> Copy for TableId<T> {}

impl<T> PartialEq for TableId<T> {
    ghost eq = { ◌==◌ };

    ghost laws = { Prim.search (comparing, rules) };

    fn eq(&self, other: &TableId<T>) -> bool {
        self.rep == other.rep
    }
}

impl<T> Eq for TableId<T> {
    ghost laws = { Prim.search (comparing, rules) };
}

impl<T> PartialOrd for TableId<T> {
    ghost partial_cmp = { as_partial_cmp nat_cmp };

    ghost laws = { Prim.search (comparing, rules) };

    fn partial_cmp(&self, other: &TableId<T>) -> Option<Ordering> {
        Some(self.cmp(other))
    }
}

impl<T> Ord for TableId<T> {
    ghost cmp = { nat_cmp };

    ghost total = { Prim.search (comparing, rules) };

    ghost matches_partial_cmp = { Prim.search (comparing, rules) };

    ghost matches_eq = { Prim.search (comparing, rules) };

    fn cmp(&self, other: &TableId<T>) -> Ordering {
        self.rep.cmp(&other.rep)
    }
}

impl<T> Hash for TableId<T> {
    ghost hash_input = { fed.u32 };

    ghost respects_eq = { Prim.search (hashing, rules) };

    fn hash<H: Hasher>(&self, state: &mut H) {
        self.rep.hash(state);
    }
}

impl<T: TableDebug> fmt::Debug for TableId<T> {
    ghost debug_output = { λ id. Some (id_text T.name id) };

    fn fmt<W: fmt::Write>(&self, f: &mut fmt::Formatter<W>) -> fmt::Result {
        let name = T::type_name();
        let rep = self.rep;
        write!(f, "{name}({rep})")
    }
}

impl<T> From<Resource<T>> for TableId<T> {
    ghost from_gives = { λ resource id. id ≡ resource };

    fn from(resource: Resource<T>) -> TableId<T> {
        TableId::new(resource.rep())
    }
}

/// An owned resource of type `T`: its number in a resource table.
pub struct Resource<T> {
    id: TableId<T>,
}

impl<T> Model for Resource<T> {
    ghost use Rattle.std.specs.Prelude.{ℕ};

    ghost Value = { ℕ };

    ghost view = { λ resource. resource.id };

    ghost inverse = { λ n. record { id = n } };
}

impl<T> Drop for Resource<T> {
    fn drop(self) {
        let Resource { id: _ } = self;
    }
}

impl<T> Resource<T> {
    /// The owned resource of this number.
    pub fn new_own(rep: u32) -> Resource<T>
        ensures { result ≡ rep }
    {
        Resource {
            id: TableId::new(rep),
        }
    }

    /// The number.
    pub fn rep(&self) -> u32
        ensures { result ≡ self.now }
    {
        self.id.rep()
    }
}

impl<T> From<TableId<T>> for Resource<T> {
    ghost from_gives = { λ id resource. resource ≡ id };

    fn from(id: TableId<T>) -> Resource<T> {
        Resource::new_own(id.rep())
    }
}

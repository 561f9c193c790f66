//! The kinds of values, by which a typed key is told from another.
//!
//! Ours: in place of the downcast of wasmtime's `resource_table.rs`.

ghost use Rattle.std.specs.Prelude.{◌≡◌};

/// What a table holds: a value tells its kind.
pub trait Resident {
    ghost use Rattle.std.specs.Prelude.{ℕ};

    // The kind of a value.
    ghost kind: { Self → ℕ };

    fn kind(&self) -> u32
        ensures { result ≡ kind self.now };
}

/// The type of a key: it names the kind of the values under such keys.
pub trait Tag {
    ghost use Rattle.std.specs.Prelude.{ℕ};

    // The kind of the values.
    ghost kind: { ℕ };

    fn kind() -> u32
        ensures { result ≡ kind };
}

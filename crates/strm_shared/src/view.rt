//! What a seat knows, in proofs alone: no value of it is made.
//!
//! Meaning: `Plays.antt`. Ours.

ghost use Rattle.std.specs.Prelude.{ℕ, Bool, List, Option};
ghost use Rattle.std.specs.Borrow.{ftrue};
ghost use Rattle.strm_machine.specs.declared.limits.Limits.{Limits};
ghost use Rattle.strm_shared.specs.declared.entry.Entry.{Entry};
ghost use Rattle.strm_shared.specs.declared.entry.Place.{Place};
ghost use Rattle.strm_shared.specs.declared.entry.Wait.{Wait};

use std::marker::Model;

/// What a seat knows: the store's limits, its number, one drawn for a new seat, its ticket, whether it has
/// the turn, the history that it has seen, its own entries and those of seats that ended in it; where one
/// ended in it, the shorter of the two histories; in its turn the idle turns before it and the waits that it
/// found; the waits that its last turn left, the handles for which it waits, how many turns it had, and the
/// greatest numbers that it knows that the words had.
pub struct View {
    pub ghost limits: { Limits },
    pub ghost number: { Option ℕ },
    pub ghost fresh: { Option ℕ },
    pub ghost ticket: { Option ℕ },
    pub ghost holds: { Bool },
    pub ghost seen: { List Entry },
    pub ghost mine: { List Entry },
    pub ghost ended: { List (ℕ × List Entry) },
    pub ghost behind: { List Entry },
    pub ghost idle: { ℕ },
    pub ghost found: { List Wait },
    pub ghost left: { List Wait },
    pub ghost waiting: { List Place },
    pub ghost turns: { ℕ },
    pub ghost top_ticket: { ℕ },
    pub ghost top_seats: { ℕ },
}

impl Model for View {
    ghost also_owns = { λ _. ftrue };
}

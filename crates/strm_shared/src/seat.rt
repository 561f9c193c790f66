//! A thread's right to call the store.
//!
//! Meaning: `Tokens.antt`. Ours.

use crate::desk::Desk;
use crate::view::View;
use std::marker::Model;

/// The seat of the table, within.
pub type Inside = atomic_table::Seat<Option<Desk>, View>;

/// A thread's right to call the store. Contracts see it as its token.
#[derive(Drop)]
pub struct Seat {
    pub(crate) number: u64,
    pub(crate) inside: Inside,
}

impl Model for Seat {
    ghost use Rattle.strm_shared.specs.Tokens.{Token, token, Sits};

    ghost Value = { Token };

    ghost view = { λ s. token s.inside.table_id s.number s.inside.me.0 };

    ghost invariant = { λ s. Sits s.number s.inside.me };
}

impl Seat {
    ghost use Rattle.std.specs.Prelude.{◌≡◌};
    ghost use Rattle.strm_shared.specs.Tokens.{IsOneHistory};

    /// Its number, which its entries have. What it has seen is one legal history, in which its own entries
    /// stand and those of the seats that ended in it.
    pub fn number(&self) -> u64
        ensures number { result ≡ self.now.number }
        ensures one { IsOneHistory self.now }
    {
        self.number
    }
}

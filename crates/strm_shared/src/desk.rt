//! What lies in the table's slot: a ledger in a box, so that a turn moves one word in and out of
//! it.
//!
//! Meaning: `Accounts.antt`. Each call is the ledger's. Ours.

ghost use Rattle.std.specs.Prelude.{◌≡◌, IfOk};
ghost use Rattle.strm_shared.specs.Accounts.{opened};

use crate::ledger::Ledger;
use std::alloc::Global;
use std::marker::Model;
use std::ops::{Deref, DerefMut};
use strm_codes::counts::OutOfMemory;
use strm_machine::limits::Limits;

/// The store beside its history. Who has the turn has it, and nobody else.
#[derive(Drop)]
pub struct Desk {
    ledger: Box<Ledger>,
}

impl Model for Desk {
    ghost use Rattle.strm_shared.specs.Accounts.{Account};

    ghost Value = { Account };

    ghost view = { λ d. d.ledger.value };
}

impl Desk {
    // An empty store and no history.
    pub(crate) fn new(alloc: Global, limits: Limits) -> Result<Desk, OutOfMemory>
        ensures { IfOk result (λ desk. desk ≡ opened limits) }
    {
        let ledger = Box::new(alloc, Ledger::new(alloc, limits))?;
        Ok(Desk { ledger })
    }

    // The ledger itself.
    pub(crate) fn into_ledger(self) -> Ledger
        ensures { result ≡ self }
    {
        Box::into_inner(self.ledger)
    }
}

impl Deref for Desk {
    type Target = Ledger;

    ghost deref_gives = { λ d l. l ≡ d };

    fn deref(&self) -> &Ledger
        ensures { result.now ≡ self.now }
    {
        self.ledger.as_ref()
    }
}

impl DerefMut for Desk {
    ghost use Rattle.std.specs.Borrow.{Lends, sem};
    ghost use Rattle.strm_shared.specs.contracts.desk.Desk.{the_row};
    ghost use Rattle.strm_shared.specs.contracts.ledger.Ledger.{the_row as ledger_row};

    ghost deref_mut_gives = { λ d l. l ≡ d };

    fn deref_mut(&mut self) -> &mut Ledger
        ensures* writes_back { sem 𝓛 (Lends the_row ledger_row self.entry result (λ w. w)) }
        ensures value { result.now ≡ self.old }
    {
        self.ledger.as_mut()
    }
}

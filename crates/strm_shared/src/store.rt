//! The store that threads share: how it begins and ends.
//!
//! Meaning: `Tokens.antt` and `Causes.antt`; its calls stand in the modules below. Ours.

ghost use Rattle.std.specs.Prelude.{◌≡◌, IfOk, IfErr};
ghost use Rattle.strm_shared.specs.Plays.{first_view};

mod calls;
mod moves;
mod seats;
mod syncs;
mod turns;

use crate::bell::Bell;
use crate::desk::Desk;
use crate::errors::SharedError;
use crate::history::History;
use crate::rule::Order;
use crate::seat::Seat;
use crate::view::View;
use atomic_table::{Refused, Table};
use std::alloc::Global;
use std::sync::Wait;
use strm_machine::limits::Limits;
use strm_transmit::store::Store;

/// What a store ends with.
#[derive(Drop)]
pub struct Closed {
    pub store: Store,
    pub history: History,
}

/// No ticket was left for the last turn: all is handed back.
#[derive(Drop)]
pub struct Unclosed {
    pub store: SharedStore,
    pub seat: Seat,
    /// The last number of the ticket word, 2^64 - 1.
    pub ticket: u64,
}

/// A store that threads share. Each calls it by a seat of its own.
#[derive(Drop)]
pub struct SharedStore {
    table: Table<Option<Desk>, View, Limits, Order, Global>,
    // For those that wait for their turn.
    turns: Bell,
    // For those that wait for a report, or for an end.
    reports: Bell,
    ghost sized: { (table.shared.table_id.words ≡ 3) × (table.shared.table_id.slots ≡ 1) },
}

impl SharedStore {
    ghost use Rattle.strm_shared.specs.declared.errors.SharedError.TheVariants.{OutOfMemory};
    ghost use Rattle.strm_shared.specs.Tokens.{token, last_number, Same, HistoryStays};
    ghost use Rattle.strm_shared.specs.Causes.{StoreEnds, IsOf};

    /// A store without guests, and its first seat, of number 0. No error comes but OutOfMemory.
    pub fn open(alloc: Global, limits: Limits) -> Result<(SharedStore, Seat), SharedError>
        ensures ok { IfOk result (λ made. IsOf made.0 made.1
            × (made.1 ≡ token made.0.table.shared.table_id 0 (first_view limits))) }
        ensures err { IfErr result (λ error. error ≡ OutOfMemory) }
    {
        let Ok(mut slots) = Vec::with_capacity(alloc, 1) else {
            return Err(SharedError::OutOfMemory);
        };
        let Ok(desk) = Desk::new(alloc, limits) else {
            return Err(SharedError::OutOfMemory);
        };
        slots.push_reserved(Some(desk));
        match Table::new(alloc, &[0, 0, 1], slots, &limits) {
            Ok((table, inside)) => Ok((
                SharedStore {
                    table,
                    turns: Bell::new(),
                    reports: Bell::new(),
                },
                Seat { number: 0, inside },
            )),
            Err(Refused { slots: _ }) => Err(SharedError::OutOfMemory),
        }
    }

    /// Takes a last turn, and hands out the store and the history. Where no ticket is left, which is
    /// where the seat found the ticket word at 2^64 - 1, it hands back both. It may wait. Whoever calls
    /// it has the store alone; the other seats are of no use any more.
    pub fn close<R: Wait>(self, rt: &R, seat: Seat) -> Result<Closed, Unclosed>
        requires { IsOf self seat }
        ensures ok { IfOk result (λ closed. StoreEnds seat closed) }
        ensures err { IfErr result (λ kept. (kept.store ≡ self) × (kept.ticket ≡ last_number)
            × HistoryStays seat kept.seat × Same seat kept.seat) }
    {
        let Seat { number, mut inside } = seat;
        let Some(desk) = self.enter(rt, &mut inside) else {
            return Err(Unclosed {
                store: self,
                seat: Seat { number, inside },
                ticket: u64::MAX,
            });
        };
        let (store, history) = desk.into_ledger().into_parts();
        Ok(Closed { store, history })
    }
}

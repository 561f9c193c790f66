//! The rule of the table, and its steps.
//!
//! Meaning: `Rules.antt` and `Plays.antt`. Ours.

ghost use Rattle.strm_shared.specs.Rules.{Orderly};
ghost use Rattle.strm_shared.specs.Plays.{first_view, looks, draws, seat_waits, passes_turn, recalls, looks_seats, numbers, old_half, new_half, seats_joined, seat_spent};

use crate::desk::Desk;
use crate::view::View;
use atomic_table::{Join, Play, Split, TableRule};
use strm_machine::limits::Limits;

/// What holds between any two steps.
pub struct Order;

impl TableRule<Option<Desk>, View, Limits> for Order {
    ghost holds = { Orderly };

    ghost first = { first_view };
}

/// A look at the ticket word.
pub struct Look;

impl Play<Option<Desk>, View> for Look {
    ghost then = { looks };
}

/// A draw of a ticket.
pub struct Draw;

impl Play<Option<Desk>, View> for Draw {
    ghost then = { draws };
}

/// A look at whose turn it is.
pub struct Await;

impl Play<Option<Desk>, View> for Await {
    ghost then = { seat_waits };
}

/// The turn is passed.
pub struct Pass;

impl Play<Option<Desk>, View> for Pass {
    ghost then = { passes_turn };
}

/// A look that changes nothing.
pub struct Recall;

impl Play<Option<Desk>, View> for Recall {
    ghost then = { recalls };
}

/// A look at the word of seats.
pub struct LookSeats;

impl Play<Option<Desk>, View> for LookSeats {
    ghost then = { looks_seats };
}

/// A draw of a number for a new seat.
pub struct Number;

impl Play<Option<Desk>, View> for Number {
    ghost then = { numbers };
}

/// A seat is split in two.
pub struct Halves;

impl Split<View> for Halves {
    ghost left = { old_half };

    ghost right = { new_half };
}

/// A seat ends in another.
pub struct Both;

impl Join<View> for Both {
    ghost both = { seats_joined };

    ghost spent = { seat_spent };
}

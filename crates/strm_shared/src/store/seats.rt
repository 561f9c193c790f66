//! Seats: one is split in two, and one ends in another.
//!
//! Meaning: `Tokens.antt` and `Causes.antt`. Ours.

ghost use Rattle.std.specs.Prelude.{◌≡◌, ◌-◌, ◌^◌, ◌<◌, ◌≤◌, [], None, IfOk, IfErr, MatchOption};
ghost use Rattle.strm_shared.specs.declared.errors.SharedError.TheVariants.{NoSeat};
ghost use Rattle.strm_shared.specs.Histories.{calls_by};
ghost use Rattle.strm_shared.specs.Plays.{looked_seats, seat_numbered};
ghost use Rattle.strm_shared.specs.Tokens.{last_number, Same, IsSplit};
ghost use Rattle.strm_shared.specs.Causes.{IsOf, Keeps, Joined};

use crate::errors::SharedError;
use crate::rule::{Both, Halves, LookSeats, Number, Recall};
use crate::seat::{Inside, Seat};
use crate::store::SharedStore;
use std::sync::Wait;

const SEATS: usize = 2;

impl SharedStore {
    // Draws a number for a new seat. None where the last one is drawn.
    fn draw_number<R: Wait>(&self, rt: &R, seat: &mut Inside) -> Option<u64>
        requires id { seat.old.table_id ≡ self.now.table.shared.table_id }
        requires bare { seat.old.me.0.fresh ≡ None }
        ensures id { seat.new.table_id ≡ seat.old.table_id }
        ensures drawn { MatchOption result
            (seat.new.me ≡ (looked_seats seat.old.me.0 (2 ^ 64 - 1), seat.old.me.1))
            (λ t. (seat.new.me ≡ (seat_numbered (looked_seats seat.old.me.0 t) t, seat.old.me.1))
            × (t < 2 ^ 64 - 1) × (seat.old.me.0.top_seats ≤ t)
            × (calls_by t seat.old.me.0.seen ≡ [])) }
        ensures top { seat.old.me.0.top_seats ≤ seat.new.me.0.top_seats }
    {
        for _ in rt.forever() {
            let found = self.table.shared.load::<LookSeats>(seat, SEATS);
            if found == u64::MAX {
                return None;
            }
            let was = self
                .table
                .shared
                .compare_exchange::<Number>(seat, SEATS, found, found + 1);
            if was == found {
                return Some(found);
            }
        }
        unreachable!()
    }

    /// A new seat, of a number of its own, which has seen what this one has and made no call. NoSeat comes
    /// exactly where the word of seats was found at 2^64 - 1, and no other error. It may wait, and takes no
    /// memory.
    pub fn seat_split<R: Wait>(&self, rt: &R, seat: &mut Seat) -> Result<Seat, SharedError>
        requires { IsOf self.now seat.old }
        ensures same { Same seat.old seat.new }
        ensures kept { Keeps seat.old seat.new }
        ensures ok { IfOk result (λ new. IsSplit seat.old seat.new new) }
        ensures err { IfErr result (λ error. (error ≡ NoSeat last_number)
            × (seat.new.top_seats ≡ last_number)) }
    {
        let Some(number) = self.draw_number(rt, &mut seat.inside) else {
            return Err(SharedError::NoSeat { seats: u64::MAX });
        };
        let inside = self.table.shared.split_seat::<Halves>(&mut seat.inside);
        Ok(Seat { number, inside })
    }

    /// Ends a seat in another, which has then seen the longer of the two histories: the other is a front of
    /// it, and it has the entries of both seats. The entries of the one that ends stay as they are.
    pub fn seat_join<R: Wait>(&self, _rt: &R, into: &mut Seat, from: Seat)
        requires into { IsOf self.now into.old }
        requires from { IsOf self.now from }
        ensures same { Same into.old into.new }
        ensures joined { Joined into.old from into.new }
    {
        let Seat { number: _, inside } = from;
        self.table
            .shared
            .join_seat::<Both>(&mut into.inside, inside);
        // A view changes only by a step, and what it tells is told by one.
        self.table.shared.load::<Recall>(&mut into.inside, SEATS);
    }
}

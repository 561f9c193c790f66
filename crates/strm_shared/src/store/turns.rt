//! Turns: a ticket, the wait for it, the slot's value, and the pass.
//!
//! Meaning: `Turns.antt`, of steps as `Plays.antt` tells them. Ours.

ghost use Rattle.std.specs.Prelude.{◌≡◌, ◌-◌, ◌^◌, ◌<◌, ◌≤◌, [], ◌∷◌, true, false, None, Some, MatchOption};
ghost use Rattle.strm_shared.specs.Plays.{looked, queued, holding, turn_passed, Enters, IsTurn, RecallsAll};
ghost use Rattle.strm_shared.specs.Turns.{Taken, OutOfTickets};

use crate::desk::Desk;
use crate::rule::{Await, Draw, Look, Pass};
use crate::seat::Inside;
use crate::steps::wakes;
use crate::store::SharedStore;
use std::hint::spin_loop;
use std::sync::Wait;
use std::time::Duration;
use strm_machine::steps::Step;

const TICKET: usize = 0;

const SERVING: usize = 1;

const SEATS: usize = 2;

/// How often a thread that finds the store taken asks again, before it draws a ticket: at first it pauses
/// between two, so many times and each time twice as many; after some of these it sleeps between two.
const ASKS: u32 = 200;

const ASKS_AWAKE: u32 = 5;

const PAUSES: u32 = 32;

/// In microseconds.
const SLEEP: u64 = 50;

fn pause(times: u32) {
    for _ in 0..times {
        spin_loop();
    }
}

impl SharedStore {
    // Waits a while until nobody has the turn. It tells nothing: a ticket is right at any time. But a turn
    // that comes at once is cheap, while one that goes from thread to thread takes the store from one
    // processor to another each time.
    fn stand_back<R: Wait>(&self, rt: &R) {
        let mut pauses = PAUSES;
        for asked in 0..ASKS {
            let serving = self.table.shared.peek(SERVING);
            if self.table.shared.peek(TICKET) == serving {
                return;
            }
            if asked < ASKS_AWAKE {
                pause(pauses);
                pauses = pauses.saturating_mul(2);
            } else {
                self.sleep(rt);
            }
        }
    }

    // Sleeps for a moment: on the word of seats, which hardly changes.
    fn sleep<R: Wait>(&self, rt: &R) {
        let seats = (self.table.shared.peek(SEATS) % (1 << 32)) as u32;
        let time = Duration::from_micros(SLEEP);
        self.table.shared.park_timeout(rt, SEATS, seats, time);
    }

    // Draws a ticket. None where the last one is drawn.
    fn draw<R: Wait>(&self, rt: &R, seat: &mut Inside) -> Option<u64>
        requires id { seat.old.table_id ≡ self.now.table.shared.table_id }
        requires rests { seat.old.me.0.ticket ≡ None }
        ensures id { seat.new.table_id ≡ seat.old.table_id }
        ensures drawn { MatchOption result
            (seat.new.me ≡ (looked seat.old.me.0 (2 ^ 64 - 1), seat.old.me.1))
            (λ t. (seat.new.me ≡ (queued (looked seat.old.me.0 t) t, seat.old.me.1))
            × (t < 2 ^ 64 - 1)) }
        ensures top { seat.old.me.0.top_ticket ≤ seat.new.me.0.top_ticket }
    {
        self.stand_back(rt);
        for _ in rt.forever() {
            let found = self.table.shared.load::<Look>(seat, TICKET);
            if found == u64::MAX {
                return None;
            }
            let was = self
                .table
                .shared
                .compare_exchange::<Draw>(seat, TICKET, found, found + 1);
            if was == found {
                return Some(found);
            }
        }
        unreachable!()
    }

    // Takes the slot's value, where the turn has come.
    fn look_at_turn(&self, seat: &mut Inside, ticket: u64) -> Option<Desk>
        requires id { seat.old.table_id ≡ self.now.table.shared.table_id }
        requires limits { seat.old.me.0.limits ≡ self.now.table.shared.key }
        requires queues { (seat.old.me.0.ticket ≡ Some ticket) × (seat.old.me.0.holds ≡ false)
            × (seat.old.me.1 ≡ []) }
        ensures id { seat.new.table_id ≡ seat.old.table_id }
        ensures turn { MatchOption result (seat.new.me ≡ seat.old.me)
            (λ desk. (seat.new.me ≡ (holding seat.old.me.0 desk, (0, None) ∷ []))
            × Enters seat.old.me.0 desk) }
    {
        if self.table.shared.load::<Await>(seat, SERVING) == ticket {
            return Some(self.table.shared.exchange(seat, 0, None).unwrap());
        }
        None
    }

    // Waits for the turn, and takes the slot's value. The bell is not touched where the turn has come.
    fn take<R: Wait>(&self, rt: &R, seat: &mut Inside, ticket: u64) -> Desk
        requires id { seat.old.table_id ≡ self.now.table.shared.table_id }
        requires limits { seat.old.me.0.limits ≡ self.now.table.shared.key }
        requires queues { (seat.old.me.0.ticket ≡ Some ticket) × (seat.old.me.0.holds ≡ false)
            × (seat.old.me.1 ≡ []) }
        ensures id { seat.new.table_id ≡ seat.old.table_id }
        ensures turn { seat.new.me ≡ (holding seat.old.me.0 result, (0, None) ∷ []) }
        ensures enters { Enters seat.old.me.0 result }
    {
        if let Some(desk) = self.look_at_turn(seat, ticket) {
            return desk;
        }
        for _ in rt.forever() {
            let heard = self.turns.now();
            if let Some(desk) = self.look_at_turn(seat, ticket) {
                self.turns.forget();
                return desk;
            }
            self.turns.wait_past(rt, heard);
        }
        unreachable!()
    }

    // Draws a ticket, waits for the turn, and takes the slot's value. None where no ticket is left.
    pub(crate) fn enter<R: Wait>(&self, rt: &R, seat: &mut Inside) -> Option<Desk>
        requires id { seat.old.table_id ≡ self.now.table.shared.table_id }
        requires limits { seat.old.me.0.limits ≡ self.now.table.shared.key }
        requires rests { (seat.old.me.0.ticket ≡ None) × (seat.old.me.0.holds ≡ false)
            × (seat.old.me.1 ≡ []) }
        ensures id { seat.new.table_id ≡ seat.old.table_id }
        ensures turn { MatchOption result (OutOfTickets seat.old.me seat.new.me)
            (λ desk. Taken seat.old.me desk seat.new.me) }
    {
        let ticket = self.draw(rt, seat)?;
        let desk = self.take(rt, seat, ticket);
        desk.sound();
        Some(desk)
    }

    // Puts the value back, and passes the turn on.
    pub(crate) fn leave<R: Wait>(&self, rt: &R, seat: &mut Inside, desk: Desk)
        requires id { seat.old.table_id ≡ self.now.table.shared.table_id }
        requires limits { seat.old.me.0.limits ≡ self.now.table.shared.key }
        requires turn { (seat.old.me.0.holds ≡ true) × (seat.old.me.1 ≡ (0, None) ∷ [])
            × IsTurn seat.old.me.0 desk }
        ensures id { seat.new.table_id ≡ seat.old.table_id }
        ensures passed { seat.new.me ≡ (turn_passed seat.old.me.0 desk, []) }
        ensures recalls { RecallsAll seat.new.me.0 }
    {
        drop(self.table.shared.exchange(seat, 0, Some(desk)));
        self.table.shared.fetch_add::<Pass>(seat, SERVING, 1);
        self.turns.ring(rt);
    }

    // Wakes those that wait for a report or for an end, where the step that was made may bring one or free
    // the other. Idle turns wake none, so that nobody is busy while all wait.
    pub(crate) fn tell<R: Wait>(&self, rt: &R, step: &Step) {
        if wakes(step) {
            self.reports.ring(rt);
        }
    }
}

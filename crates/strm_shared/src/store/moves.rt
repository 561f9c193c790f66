//! A move of an end that waits until the end has no operation.
//!
//! Meaning: `Causes.antt` (`Moves`). Ours.

ghost use Rattle.std.specs.Prelude.{◌≡◌, true, false, IfOk, IfErr, MatchOption};
ghost use Rattle.strm_shared.specs.Histories.{entry};
ghost use Rattle.strm_shared.specs.Places.{is_move, is_refused_busy};
ghost use Rattle.strm_shared.specs.Tokens.{token, Sits, Same, Continues, Idles, Called};
ghost use Rattle.strm_shared.specs.Causes.{IsOf, IsInside, IsHostStep, IsWorn, Failed, Moves, MovesBy, FailsToMove, FailsToMoveBy};

use crate::errors::SharedError;
use crate::seat::{Inside, Seat};
use crate::steps::is_move;
use crate::store::SharedStore;
use std::alloc::Global;
use std::sync::Wait;
use strm_machine::replies::Reply;
use strm_machine::steps::Step;

impl SharedStore {
    // Moves an end in a turn of its own, unless it has an operation.
    fn shift<R: Wait>(
        &self,
        rt: &R,
        alloc: Global,
        seat: &mut Inside,
        number: u64,
        step: &Step,
    ) -> Result<Option<Reply>, SharedError>
        requires moves { is_move step.now ≡ true }
        requires of { IsInside self.now seat.old.table_id seat.old.me.0 }
        requires rests { Sits number seat.old.me }
        ensures of { (seat.new.table_id ≡ seat.old.table_id)
            × (seat.new.me.0.limits ≡ seat.old.me.0.limits) }
        ensures rests { Sits number seat.new.me }
        ensures ok { IfOk result (λ found. MatchOption found
            (Idles (token seat.old.table_id number seat.old.me.0)
            (token seat.new.table_id number seat.new.me.0))
            (λ reply. (is_refused_busy reply ≡ false)
            × Called (token seat.old.table_id number seat.old.me.0) (entry number step.now reply)
            (token seat.new.table_id number seat.new.me.0))) }
        ensures err { IfErr result (λ error. Failed (token seat.old.table_id number seat.old.me.0)
            step.now error (token seat.new.table_id number seat.new.me.0)) }
    {
        let Some(mut desk) = self.enter(rt, seat) else {
            return Err(SharedError::Worn { ticket: u64::MAX });
        };
        match desk.shift(alloc, number, step) {
            Ok(None) => {
                self.leave(rt, seat, desk);
                Ok(None)
            }
            Ok(Some(reply)) => {
                self.leave(rt, seat, desk);
                Ok(Some(reply))
            }
            Err(_) => {
                desk.pass_idle();
                self.leave(rt, seat, desk);
                Err(SharedError::OutOfMemory)
            }
        }
    }

    // Moves an end once it has no operation. Between two tries it holds neither the turn nor the store.
    fn shifts<R: Wait>(
        &self,
        rt: &R,
        alloc: Global,
        seat: &mut Inside,
        number: u64,
        step: &Step,
    ) -> Result<Reply, SharedError>
        requires moves { is_move step.now ≡ true }
        requires of { IsInside self.now seat.old.table_id seat.old.me.0 }
        requires rests { Sits number seat.old.me }
        ensures of { (seat.new.table_id ≡ seat.old.table_id)
            × (seat.new.me.0.limits ≡ seat.old.me.0.limits) }
        ensures rests { Sits number seat.new.me }
        ensures ok { IfOk result (λ reply. MovesBy true
            (token seat.old.table_id number seat.old.me.0) step.now reply
            (token seat.new.table_id number seat.new.me.0)) }
        ensures err { IfErr result (λ error. FailsToMoveBy true
            (token seat.old.table_id number seat.old.me.0) step.now error
            (token seat.new.table_id number seat.new.me.0)) }
    {
        for _ in rt.forever() {
            let heard = self.reports.now();
            let found = self.shift(rt, alloc, seat, number, step);
            self.reports.wait_if(rt, heard, matches!(found, Ok(None)));
            if let Some(reply) = found? {
                return Ok(reply);
            }
        }
        unreachable!()
    }

    /// Moves an end, read or write, once it has no operation: it makes one entry, after some idle turns,
    /// and never answers Refused(Busy). Any other step is as `call`, and so are the errors. It may wait.
    pub fn sync_move<R: Wait>(
        &self,
        rt: &R,
        alloc: Global,
        seat: &mut Seat,
        step: &Step,
    ) -> Result<Reply, SharedError>
        requires { IsOf self.now seat.old }
        ensures same { Same seat.old seat.new }
        ensures one { Continues seat.old seat.new }
        ensures ok { IfOk result (λ reply. Moves seat.old step.now reply seat.new) }
        ensures err { IfErr result (λ error. FailsToMove seat.old step.now error seat.new) }
        ensures host { IsHostStep step.now result }
        ensures worn { IsWorn step.now seat.new result }
    {
        if is_move(step) {
            let number = seat.number;
            return self.shifts(rt, alloc, &mut seat.inside, number, step);
        }
        self.call(rt, alloc, seat, step)
    }
}

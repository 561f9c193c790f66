//! One step, in a turn of its own.
//!
//! Meaning: `Tokens.antt` (`Called`) and `Causes.antt`. Ours.

ghost use Rattle.std.specs.Prelude.{◌≡◌, ◌≢◌, false, Err, IfOk, IfErr};
ghost use Rattle.strm_shared.specs.declared.errors.SharedError.TheVariants.{HostStep};
ghost use Rattle.strm_shared.specs.Histories.{entry};
ghost use Rattle.strm_shared.specs.Places.{is_host_step};
ghost use Rattle.strm_shared.specs.Tokens.{token, Sits, Same, Continues, Called};
ghost use Rattle.strm_shared.specs.Causes.{IsOf, IsInside, IsHostStep, IsWorn, Failed};

use crate::errors::SharedError;
use crate::seat::{Inside, Seat};
use crate::steps::is_host_step;
use crate::store::SharedStore;
use std::alloc::Global;
use std::sync::Wait;
use strm_machine::replies::Reply;
use strm_machine::steps::Step;

impl SharedStore {
    // A step in a turn of its own. Where it makes no entry, the turn is idle.
    fn make<R: Wait>(
        &self,
        rt: &R,
        alloc: Global,
        seat: &mut Inside,
        number: u64,
        step: &Step,
    ) -> Result<Reply, SharedError>
        requires guests { is_host_step step.now ≡ false }
        requires of { IsInside self.now seat.old.table_id seat.old.me.0 }
        requires rests { Sits number seat.old.me }
        ensures of { (seat.new.table_id ≡ seat.old.table_id)
            × (seat.new.me.0.limits ≡ seat.old.me.0.limits) }
        ensures rests { Sits number seat.new.me }
        ensures host { result ≢ Err HostStep }
        ensures ok { IfOk result (λ reply. Called (token seat.old.table_id number seat.old.me.0)
            (entry number step.now reply) (token seat.new.table_id number seat.new.me.0)) }
        ensures err { IfErr result (λ error. Failed (token seat.old.table_id number seat.old.me.0)
            step.now error (token seat.new.table_id number seat.new.me.0)) }
    {
        let Some(mut desk) = self.enter(rt, seat) else {
            return Err(SharedError::Worn { ticket: u64::MAX });
        };
        if let Some(other) = desk.waiter(step) {
            desk.pass_idle();
            self.leave(rt, seat, desk);
            return Err(SharedError::Waiting { seat: other });
        }
        let Ok(reply) = desk.enter(alloc, number, step) else {
            desk.pass_idle();
            self.leave(rt, seat, desk);
            return Err(SharedError::OutOfMemory);
        };
        self.leave(rt, seat, desk);
        self.tell(rt, step);
        Ok(reply)
    }

    /// Does a step: one entry in the history, whose reply is the answer, also where the step is refused,
    /// an item is bad or the store is trapped. HostStep comes exactly for the steps that name a host end;
    /// Waiting exactly where the step is an event, a cancel or a set-join of a handle for whose report
    /// another seat waits; Worn exactly where no ticket is left. It may wait.
    pub fn call<R: Wait>(
        &self,
        rt: &R,
        alloc: Global,
        seat: &mut Seat,
        step: &Step,
    ) -> Result<Reply, SharedError>
        requires { IsOf self.now seat.old }
        ensures same { Same seat.old seat.new }
        ensures one { Continues seat.old seat.new }
        ensures ok { IfOk result (λ reply.
            Called seat.old (entry seat.old.number step.now reply) seat.new) }
        ensures err { IfErr result (λ error. Failed seat.old step.now error seat.new) }
        ensures host { IsHostStep step.now result }
        ensures worn { IsWorn step.now seat.new result }
    {
        let number = seat.number;
        if is_host_step(step) {
            return Err(SharedError::HostStep);
        }
        self.make(rt, alloc, &mut seat.inside, number, step)
    }
}

//! A read or write that is answered once its report is there.
//!
//! Meaning: `Tokens.antt` (`Begun`, `Delivered`) and `Causes.antt`. Source: Component Model, the option
//! `sync` of reads and writes; the store of `strm_transmit` never waits.

ghost use Rattle.std.specs.Prelude.{◌≡◌, [], ◌∷◌, IfOk, IfErr, MatchOption};
ghost use Rattle.strm_machine.specs.declared.steps.Step.TheVariants as steps;
ghost use Rattle.strm_shared.specs.Histories.{entry};
ghost use Rattle.strm_shared.specs.Waits.{waits_for, DeliversReport, AnswersWait};
ghost use Rattle.strm_shared.specs.Tokens.{token, Pauses, Sits, Unbound, Same, Continues, Idles, Begun, Delivered};
ghost use Rattle.strm_shared.specs.Causes.{IsOf, IsInside, MayOperate, IsHostStep, IsWorn, NotBegun, GivesUp, Synced, NotSynced, CallsStep, FailsStep};

use crate::entry::Place;
use crate::errors::SharedError;
use crate::seat::{Inside, Seat};
use crate::steps::{is_blocked, operated};
use crate::store::SharedStore;
use std::alloc::Global;
use std::sync::Wait;
use strm_machine::replies::Reply;
use strm_machine::steps::Step;

impl SharedStore {
    // Begins a read or write in a turn of its own.
    fn begin<R: Wait>(
        &self,
        rt: &R,
        alloc: Global,
        seat: &mut Inside,
        number: u64,
        step: &Step,
        place: Place,
    ) -> Result<Reply, SharedError>
        requires may { MayOperate self.now seat.old.table_id number seat.old.me step.now place }
        ensures rests { Pauses number seat.new.me }
        ensures of { (seat.new.table_id ≡ seat.old.table_id)
            × (seat.new.me.0.limits ≡ seat.old.me.0.limits) }
        ensures ok { IfOk result (λ reply. (seat.new.me.0.waiting ≡ waits_for reply place) × Begun
            (token seat.old.table_id number seat.old.me.0) place (entry number step.now reply)
            (token seat.new.table_id number seat.new.me.0)) }
        ensures err { IfErr result (λ error. Unbound seat.new.me.0
            × NotBegun (token seat.old.table_id number seat.old.me.0) place error
            (token seat.new.table_id number seat.new.me.0)) }
    {
        let Some(mut desk) = self.enter(rt, seat) else {
            return Err(SharedError::Worn { ticket: u64::MAX });
        };
        if desk.is_member(place) {
            desk.pass_idle();
            self.leave(rt, seat, desk);
            return Err(SharedError::InSet);
        }
        let Ok(reply) = desk.begin(alloc, number, step, place) else {
            desk.pass_idle();
            self.leave(rt, seat, desk);
            return Err(SharedError::OutOfMemory);
        };
        self.leave(rt, seat, desk);
        self.tell(rt, step);
        Ok(reply)
    }

    // Looks for the report in a turn of its own, and takes it where it is there.
    fn look<R: Wait>(
        &self,
        rt: &R,
        seat: &mut Inside,
        number: u64,
        place: Place,
    ) -> Result<Option<Reply>, SharedError>
        requires of { IsInside self.now seat.old.table_id seat.old.me.0 }
        requires rests { Pauses number seat.old.me }
        requires waits { seat.old.me.0.waiting ≡ place ∷ [] }
        ensures of { (seat.new.table_id ≡ seat.old.table_id)
            × (seat.new.me.0.limits ≡ seat.old.me.0.limits) }
        ensures rests { Pauses number seat.new.me }
        ensures ok { IfOk result (λ found. MatchOption found
            (Idles (token seat.old.table_id number seat.old.me.0)
            (token seat.new.table_id number seat.new.me.0))
            (λ reply. (seat.new.me.0.waiting ≡ []) × DeliversReport reply
            × Delivered (token seat.old.table_id number seat.old.me.0)
            (entry number (steps.Event place.guest place.handle) reply)
            (token seat.new.table_id number seat.new.me.0))) }
        ensures err { IfErr result (λ error. GivesUp (token seat.old.table_id number seat.old.me.0)
            error (token seat.new.table_id number seat.new.me.0)) }
    {
        let Some(mut desk) = self.enter(rt, seat) else {
            return Err(SharedError::Worn { ticket: u64::MAX });
        };
        match desk.deliver(number, place) {
            None => {
                self.leave(rt, seat, desk);
                Ok(None)
            }
            Some(reply) => {
                self.leave(rt, seat, desk);
                self.reports.ring(rt);
                Ok(Some(reply))
            }
        }
    }

    // Waits for the report, and takes it. Between two looks it holds neither the turn nor the store.
    fn take_report<R: Wait>(
        &self,
        rt: &R,
        seat: &mut Inside,
        number: u64,
        place: Place,
    ) -> Result<Reply, SharedError>
        requires of { IsInside self.now seat.old.table_id seat.old.me.0 }
        requires rests { Pauses number seat.old.me }
        requires waits { seat.old.me.0.waiting ≡ place ∷ [] }
        ensures of { (seat.new.table_id ≡ seat.old.table_id)
            × (seat.new.me.0.limits ≡ seat.old.me.0.limits) }
        ensures rests { Sits number seat.new.me }
        ensures ok { IfOk result (λ reply. DeliversReport reply
            × Delivered (token seat.old.table_id number seat.old.me.0)
            (entry number (steps.Event place.guest place.handle) reply)
            (token seat.new.table_id number seat.new.me.0)) }
        ensures err { IfErr result (λ error. GivesUp (token seat.old.table_id number seat.old.me.0)
            error (token seat.new.table_id number seat.new.me.0)) }
    {
        for _ in rt.forever() {
            let heard = self.reports.now();
            let found = self.look(rt, seat, number, place);
            self.reports.wait_if(rt, heard, matches!(found, Ok(None)));
            if let Some(reply) = found? {
                return Ok(reply);
            }
        }
        unreachable!()
    }

    // A read or write, and the wait for its report.
    fn operate<R: Wait>(
        &self,
        rt: &R,
        alloc: Global,
        seat: &mut Inside,
        number: u64,
        step: &Step,
        place: Place,
    ) -> Result<Reply, SharedError>
        requires may { MayOperate self.now seat.old.table_id number seat.old.me step.now place }
        ensures rests { Sits number seat.new.me }
        ensures of { (seat.new.table_id ≡ seat.old.table_id)
            × (seat.new.me.0.limits ≡ seat.old.me.0.limits) }
        ensures ok { IfOk result (λ reply. Synced (token seat.old.table_id number seat.old.me.0)
            step.now place reply (token seat.new.table_id number seat.new.me.0)) }
        ensures err { IfErr result (λ error. NotSynced
            (token seat.old.table_id number seat.old.me.0) step.now place error
            (token seat.new.table_id number seat.new.me.0)) }
    {
        let begun = self.begin(rt, alloc, seat, number, step, place)?;
        if !is_blocked(&begun) {
            return Ok(begun);
        }
        let reply = self.take_report(rt, seat, number, place)?;
        Ok(answer(reply))
    }

    /// Does a read or write, and answers once its report is there, never Blocked. Where the machine
    /// replies Blocked, the seat waits for the report of that handle, and then makes one more entry, the
    /// event of the handle: its code is the answer, or StoreTrapped. Any other step is as `call`. InSet
    /// comes exactly where a read or write names a member of a set. OutOfMemory never comes after the
    /// step; Worn may, and then the wait stays. It may wait.
    pub fn sync<R: Wait>(
        &self,
        rt: &R,
        alloc: Global,
        seat: &mut Seat,
        step: &Step,
    ) -> Result<Reply, SharedError>
        requires { IsOf self.now seat.old }
        ensures same { Same seat.old seat.new }
        ensures one { Continues seat.old seat.new }
        ensures ok { IfOk result (λ reply. CallsStep seat.old step.now reply seat.new) }
        ensures err { IfErr result (λ error. FailsStep seat.old step.now error seat.new) }
        ensures host { IsHostStep step.now result }
        ensures worn { IsWorn step.now seat.new result }
    {
        match operated(step) {
            Some(place) => {
                let number = seat.number;
                self.operate(rt, alloc, &mut seat.inside, number, step, place)
            }
            None => self.call(rt, alloc, seat, step),
        }
    }
}

// What is answered by the reply to the event.
fn answer(reply: Reply) -> Reply
    requires { DeliversReport reply }
    ensures { AnswersWait reply result }
{
    match reply {
        Reply::Event(Some(code)) => Reply::Code(code),
        _ => Reply::StoreTrapped,
    }
}

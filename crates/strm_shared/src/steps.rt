//! What a step names, and what a reply says.
//!
//! Meaning: `Places.antt` and `Wakes.antt`. Ours.

ghost use Rattle.std.specs.Prelude.{◌≡◌, false};
ghost use Rattle.strm_shared.specs.Places.{is_refused_busy, is_host_step, is_move, place_named, operated};
ghost use Rattle.strm_machine.specs.Moments.{is_blocked};
ghost use Rattle.strm_shared.specs.Wakes.{ends_waits, WakesNone};

use crate::entry::Place;
use strm_codes::codes::ReturnCode;
use strm_codes::refusals::Refusal;
use strm_machine::acts::{Act, EndAct, SetAct};
use strm_machine::replies::Reply;
use strm_machine::steps::Step;

// Whether a read or write waits.
pub(crate) fn is_blocked(reply: &Reply) -> bool
    ensures { result ≡ is_blocked reply.now }
{
    matches!(*reply, Reply::Code(ReturnCode::Blocked))
}

// Whether a step is refused since the end that it names has an operation.
pub(crate) fn is_refused_busy(reply: &Reply) -> bool
    ensures { result ≡ is_refused_busy reply.now }
{
    matches!(*reply, Reply::Refused(Refusal::Busy))
}

// The handle that an event, a cancel or a set-join names.
pub(crate) fn named(step: &Step) -> Option<Place>
    ensures { result ≡ place_named step.now }
{
    match Act::of(step) {
        Act::OnEnd {
            side: _,
            end,
            act: EndAct::Cancel,
        } => Some(Place {
            guest: end.guest,
            handle: end.handle,
        }),
        Act::Event { guest, handle } => Some(Place { guest, handle }),
        Act::OnSet {
            guest,
            set: _,
            act: SetAct::Join { handle },
        } => Some(Place { guest, handle }),
        _ => None,
    }
}

// The handle whose end a step reads or writes.
pub(crate) fn operated(step: &Step) -> Option<Place>
    ensures { result ≡ operated step.now }
{
    match *step {
        Step::Write {
            guest,
            ty: _,
            handle,
            address: _,
            count: _,
        } => Some(Place { guest, handle }),
        Step::Read {
            guest,
            ty: _,
            handle,
            address: _,
            count: _,
        } => Some(Place { guest, handle }),
        _ => None,
    }
}

// Whether a step names a host end or an end that is of no guest, or takes one from its guest.
pub(crate) fn is_host_step(step: &Step) -> bool
    ensures { result ≡ is_host_step step.now }
{
    matches!(
        *step,
        Step::Lift { .. }
            | Step::Lower { .. }
            | Step::Close { .. }
            | Step::HostNew { .. }
            | Step::Feed { .. }
            | Step::Pipe { .. }
            | Step::Grant { .. }
            | Step::Drive
    )
}

// Whether a step may bring a report to an end, as the reads, the writes and the drops of the other end do,
// or end the operation of one, as what tells a report does.
fn ends_waits(step: &Step) -> bool
    ensures { result ≡ ends_waits step.now }
{
    matches!(
        *step,
        Step::Write { .. }
            | Step::Read { .. }
            | Step::DropWrite { .. }
            | Step::DropRead { .. }
            | Step::CancelWrite { .. }
            | Step::CancelRead { .. }
            | Step::Event { .. }
            | Step::SetPoll { .. }
    )
}

// Whether those that wait are to look again after a step: after any other nothing is new for them.
pub(crate) fn wakes(step: &Step) -> bool
    ensures ends { result ≡ ends_waits step.now }
    ensures quiet { result ≡ false → WakesNone step.now }
{
    ends_waits(step)
}

// Whether a step moves an end.
pub(crate) fn is_move(step: &Step) -> bool
    ensures { result ≡ is_move step.now }
{
    matches!(*step, Step::Move { .. })
}

//! How operations end: an end is told its report, or its operation is cancelled.
//!
//! Meaning: `Endings.antt` of `strm_machine`. Source: Canonical ABI, the events of reads and writes,
//! and `canon stream.cancel-{read,write}`; wasmtime, `guest_cancel_read` and `guest_cancel_write`.

ghost use Rattle.std.specs.Prelude.{◌≡◌, true, Some, is_some};
ghost use Rattle.strm_events.specs.Reports.{cancel_answer};
ghost use Rattle.strm_machine.specs.Sides.{end_of, with_end};
ghost use Rattle.strm_machine.specs.Endings.{report_on, told_end, waits_for_host, code_of_cancel, cancelled};

use crate::channels::Channel;
use crate::owners::is_host;
use crate::sides::opposite;
use strm_codes::codes::ReturnCode;
use strm_codes::counts::ItemCount;
use strm_events::reports::cancelled;
use strm_machine::streams::Side;

// Whether the end on a side has no report while a host end has the other one, which is to finish first.
fn waits_for_host(side: Side, stream: &Channel) -> bool
    ensures { result ≡ waits_for_host side stream.now }
{
    is_host(stream.owner(opposite(side))) && stream.report(side).is_none()
}

// Cancels the operation of the end on a side at once.
#[tactic(auto, unfolding(strm_machine::specs::Endings::delivered))]
fn cancel_at_once(stream: &mut Channel, side: Side) -> ReturnCode
    ensures code { result ≡ cancel_answer stream.old.kind (report_on side stream.old) }
    ensures stream { stream.new
        ≡ with_end side stream.old (told_end (Some result) (end_of side stream.old)) }
{
    let kind = stream.kind();
    match stream.deliver(side) {
        Some(code) => cancelled(kind, code),
        None => {
            stream.end(side);
            ReturnCode::Cancelled(ItemCount::ZERO)
        }
    }
}

/// Cancels the operation of the end on a side; where a host end is to finish first, it is asked to,
/// and the answer is Blocked.
pub fn cancel_operation(stream: &mut Channel, side: Side) -> ReturnCode
    requires busy { is_some (end_of side stream.old).operation ≡ true }
    ensures code { result ≡ code_of_cancel side stream.old }
    ensures stream { stream.new ≡ cancelled side stream.old }
{
    if waits_for_host(side, stream) {
        stream.ask(side);
        return ReturnCode::Blocked;
    }
    cancel_at_once(stream, side)
}

//! Callers of the store that threads share.

ghost use Rattle.std.specs.Prelude.{◌≡◌, ◌≢◌, ◌++◌, ◌∷◌, [], IfOk, IfSome};
ghost use mathlib.Core.List.{IsPrefix};
ghost use Rattle.strm_shared.specs.Causes.{IsOf};
ghost use Rattle.strm_shared.specs.Histories.{entry, calls_by, IsLegal};
ghost use Rattle.strm_shared.specs.Tokens.{Same};

use std::alloc::Global;
use std::sync::Wait;
use strm_codes::codes::TransmitIndex;
use strm_codes::payloads::Payload;
use strm_codes::scalars::Scalar;
use strm_machine::limits::Limits;
use strm_machine::replies::Reply;
use strm_machine::steps::Step;
use strm_shared::{Seat, SharedError, SharedStore};

const STREAM: TransmitIndex = TransmitIndex::Stream(Payload::One(Scalar::U8));

const LIMITS: Limits = Limits {
    handles: 2,
    places: 3,
};

/// Makes two calls, and knows that they are all that this seat made, in this order, in a history that
/// the machine has.
pub fn in_order<R: Wait>(
    rt: &R,
    alloc: Global,
    store: &SharedStore,
    seat: &mut Seat,
    first: &Step,
    second: &Step,
) -> Result<(Reply, Reply), SharedError>
    requires { IsOf store.now seat.old }
    ensures same { Same seat.old seat.new }
    ensures mine { IfOk result (λ replies. seat.new.mine ≡ (seat.old.mine
        ++ entry seat.old.number first.now replies.0 ∷ [])
        ++ entry seat.old.number second.now replies.1 ∷ []) }
    ensures legal { IfOk result (λ replies. IsLegal seat.new.limits seat.new.seen) }
{
    let one = store.call(rt, alloc, seat, first)?;
    let two = store.call(rt, alloc, seat, second)?;
    Ok((one, two))
}

/// Ends a seat in another, and makes a call: whatever that answers, there is one legal history, of which
/// both seats had seen a front, and in which the calls of both stand, each under its own number.
pub fn in_one_history<R: Wait>(
    rt: &R,
    alloc: Global,
    store: &SharedStore,
    seat: &mut Seat,
    other: Seat,
    step: &Step,
) -> Result<Reply, SharedError>
    requires of { IsOf store.now seat.old }
    requires other { IsOf store.now other }
    ensures same { Same seat.old seat.new }
    ensures legal { IsLegal seat.new.limits seat.new.seen }
    ensures fronts { IsPrefix seat.old.seen seat.new.seen × IsPrefix other.seen seat.new.seen }
    ensures own { calls_by seat.new.number seat.new.seen ≡ seat.new.mine }
    ensures made { IfOk result (λ reply.
        seat.new.mine ≡ seat.old.mine ++ entry seat.old.number step.now reply ∷ []) }
    ensures others { calls_by other.number seat.new.seen ≡ other.mine }
    ensures apart { other.number ≢ seat.new.number }
{
    store.seat_join(rt, seat, other);
    store.call(rt, alloc, seat, step)
}

/// A store with two guests and a stream between them, whose ends have the handle 1.
pub fn prepared<R: Wait>(rt: &R, alloc: Global) -> Option<(SharedStore, Seat)>
    ensures { IfSome result (λ made. IsOf made.0 made.1) }
{
    let Ok((store, mut seat)) = SharedStore::open(alloc, LIMITS) else {
        return None;
    };
    let guest = Step::Guest { size: 16 };
    let between = Step::Between {
        writer: 0,
        reader: 1,
        ty: STREAM,
    };
    let _ = in_order(rt, alloc, &store, &mut seat, &guest, &guest);
    let _ = store.call(rt, alloc, &mut seat, &between);
    Some((store, seat))
}

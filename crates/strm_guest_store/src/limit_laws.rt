//! What holds of a guest's limits, whatever call is made.
//!
//! Meaning: `Limits.antt`. Ours.

ghost use Rattle.std.specs.Prelude.{◌≡◌, ◌≤◌, ℕ, false, List, Result};
ghost use Rattle.strm_machine.specs.Reactions.{react, lowers_context};
ghost use Rattle.strm_machine.specs.State.{State};
ghost use Rattle.strm_machine.specs.declared.replies.Reply.{Reply};
ghost use Rattle.strm_machine.specs.declared.steps.Step.{Step};
ghost use Rattle.strm_places.specs.Again.{reacts_at};
ghost use Rattle.strm_transmit.specs.Meets.{Meets};
ghost use Rattle.strm_transmit.specs.declared.errors.StoreError.{StoreError};
ghost use Rattle.strm_codes.specs.declared.codes.ReturnCode.{ReturnCode};
ghost use Rattle.strm_guest_store.specs.Among.{IsAmongGuests};
ghost use Rattle.strm_guest_store.specs.Operations.{MeetsOrTells};
ghost use Rattle.strm_guest_store.specs.declared.operations.OperateError.{OperateError};
ghost use Rattle.strm_guest_store.specs.Limits.{limits_of, counts_in, bytes_for, messages_held, is_past, is_step_past, GetsNoMore};
ghost use Rattle.strm_guest_store.specs.declared.guest_limits.Gain.TheVariants.{Context};
ghost use Rattle.strm_guest_store.specs.declared.guest_limits.GuestLimits.{GuestLimits};

/// Whatever call is made that its test allows, and whatever it answers, each guest has afterwards no more than its
/// limits allow, or than it had: so one that is within its limits stays within them, and one whose limits were
/// set below what it has gets no more. Each call of a store that may change it is a step by its clause `meets`,
/// a making that gives a stream some number, a read or write, or a lowering. It does nothing.
pub fn limits_hold()
    ensures steps { (limits : List GuestLimits) (old new : State) (result : Result Reply StoreError)
        (step : Step) (guest : ℕ) → is_step_past old limits step ≡ false
        → Meets old new result (react old step)
        → GetsNoMore (limits_of limits guest) (counts_in old guest) (counts_in new guest) }
    ensures makings { (limits : List GuestLimits) (old new : State) (result : Result Reply StoreError)
        (n : ℕ) (step : Step) (guest : ℕ) → is_step_past old limits step ≡ false
        → Meets old new result (reacts_at n old step)
        → GetsNoMore (limits_of limits guest) (counts_in old guest) (counts_in new guest) }
    ensures operations { (limits : List GuestLimits) (old new : State)
        (result : Result ReturnCode OperateError) (step : Step) (guest : ℕ) →
        is_step_past old limits step ≡ false → MeetsOrTells old new result step
        → GetsNoMore (limits_of limits guest) (counts_in old guest) (counts_in new guest) }
    ensures lowerings { (limits : List GuestLimits) (old new : State)
        (result : Result Reply StoreError) (number to guest : ℕ) →
        is_past old limits to Context ≡ false → Meets old new result (lowers_context old number to)
        → GetsNoMore (limits_of limits guest) (counts_in old guest) (counts_in new guest) }
{}

/// The messages that a guest's handles lead to have together no more bytes than are counted for them: so a limit on
/// these is one on messages. It does nothing.
pub fn messages_are_within_bytes()
    ensures { (state : State) (guest : ℕ) → IsAmongGuests state →
        messages_held state guest ≤ bytes_for (counts_in state guest).contexts }
{}

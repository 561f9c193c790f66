//! When a store is trapped, as each of its calls with host ends says of it.
//!
//! A call that traps its store answers so: HostFailed, HostBroke, BadItem, or running out of memory where a host
//! end may be polled (`Leaves` of `strm_transmit`). What else it answers leaves the store untrapped, and
//! only a store that such a call trapped answers StoreTrapped. Source: ours.

ghost use Rattle.std.specs.Prelude.{◌≡◌, true, false, Some, Ok, Err};
ghost use Rattle.strm_buffers.specs.Tells.{Tells};
ghost use Rattle.strm_machine.specs.State.{State};
ghost use Rattle.strm_machine.specs.declared.replies.Reply.{Reply};
ghost use Rattle.strm_machine.specs.declared.steps.Step.{Step};
ghost use Rattle.strm_machine.specs.declared.stops.Stop.TheVariants as stops;
ghost use Rattle.strm_host_machine.specs.Steps.{outcome_of_step};
ghost use Rattle.strm_host_machine.specs.Does.{Does};

/// A call that answers or refuses found its store untrapped, and leaves it so; one that answers
/// StoreTrapped found it trapped. By the clause `does` of each call's `MeetsHosted`.
pub fn answers_leave_no_trap()
    ensures before { (old new : State) (tells told : Tells) (reply : Reply) (step : Step) →
        Does old new tells told (Ok reply) (λ world. outcome_of_step world step) →
        old.trapped ≡ false }
    ensures after { (old new : State) (tells told : Tells) (reply : Reply) (step : Step) →
        Does old new tells told (Ok reply) (λ world. outcome_of_step world step) →
        new.trapped ≡ false }
    ensures trapped { (old new : State) (tells told : Tells) (step : Step) →
        Does old new tells told (Err (Some stops.StoreTrapped))
        (λ world. outcome_of_step world step) → old.trapped ≡ true }
{}

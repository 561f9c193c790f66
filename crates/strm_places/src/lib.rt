//! The machine where the number of a stream that is gone is given again, as a store among guests gives it.
//! Laws, no code that runs.
//!
//! Meaning: `Again.antt`. Ours.
#![tactic(auto)]

ghost use Rattle.std.specs.Prelude.{◌≡◌, ℕ, length, false};
ghost use Rattle.strm_machine.specs.State.{State};
ghost use Rattle.strm_machine.specs.Acts.{act_of};
ghost use Rattle.strm_machine.specs.Reactions.{react};
ghost use Rattle.strm_machine.specs.declared.steps.Step.{Step};
ghost use Rattle.strm_places.specs.Again.{is_making, reacts_at};

/// Where each stream gets the number behind the last, a step is the machine's.
pub fn behind_the_last_it_is_the_machine()
    ensures { (state : State) (step : Step) →
        reacts_at (length state.streams) state step ≡ react state step }
{}

/// A step that makes no stream is the machine's, whichever number a stream would get.
pub fn only_a_making_chooses()
    ensures { (state : State) (n : ℕ) (step : Step) → is_making (act_of step) ≡ false →
        reacts_at n state step ≡ react state step }
{}

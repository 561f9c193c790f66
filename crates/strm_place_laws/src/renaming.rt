//! The renaming law: whichever free numbers a store gives again, what it does is what the machine does, which
//! gives none again, but for the numbers of streams.
//!
//! Meaning: `Renaming.antt`, `Runs.antt`. Ours.

ghost use Rattle.std.specs.Prelude.{◌≡◌, ℕ, ◌+◌, ◌≤◌, List, length, map};
ghost use Rattle.strm_machine.specs.State.{State, stream_limit};
ghost use Rattle.strm_machine.specs.Soundness.{IsSound};
ghost use Rattle.strm_machine.specs.Acts.{act_of};
ghost use Rattle.strm_machine.specs.Reactions.{react};
ghost use Rattle.strm_machine.specs.declared.steps.Step.{Step};
ghost use Rattle.strm_laws.specs.Conservation.{moments, state_after_steps};
ghost use Rattle.strm_laws.specs.Laws.{HandlesHold};
ghost use Rattle.strm_places.specs.Again.{reacts_at};
ghost use Rattle.strm_place_laws.specs.Renaming.{Renames, number_as, step_as, CanAct, ComesOut};
ghost use Rattle.strm_place_laws.specs.Runs.{Choice, moments_at, state_after_choices, AreFree, makings, steps_under, numbers_under, AreMomentsUnder, CanRun};

/// A step of a store that gives numbers again is the machine's step in a state that is equal but for the
/// numbers of streams: with the same reply but for a stream's number, and to states that are equal but for
/// numbers again. Each state is equal to itself, so this speaks of what follows any state.
pub fn a_step_is_one_under_other_numbers()
    ensures comes_out { (f : ℕ → ℕ) (n : ℕ) (slim full : State) (step : Step) →
        CanAct f n slim full (act_of step) →
        ComesOut f n full (act_of step) (reacts_at n slim step) (react full (step_as (number_as f slim full) step)) }
    ensures itself { (state : State) → Renames (λ s. s) state state }
{}

/// A run of a store that gives numbers again is, step by step, a run of the machine with other numbers, as
/// long as no more streams are made in it than the machine has numbers for. So it is from any state that is
/// sound on, whatever was made before: there it begins with the numbers as they are.
pub fn a_run_is_one_under_other_numbers()
    ensures moments { (f : ℕ → ℕ) (slim full : State) (choices : List Choice) →
        CanRun f slim full choices →
        AreMomentsUnder f (map (λ choice. choice.place) choices) (moments_at slim choices)
        (moments full (steps_under f slim full choices)) }
    ensures end { (f : ℕ → ℕ) (slim full : State) (choices : List Choice) →
        CanRun f slim full choices →
        Renames (numbers_under f slim full choices) (state_after_choices slim choices)
        (state_after_steps full (steps_under f slim full choices)) }
    ensures window { (state : State) (choices : List Choice) →
        IsSound state → HandlesHold state → AreFree state choices →
        length state.streams + makings choices ≤ stream_limit →
        AreMomentsUnder (λ s. s) (map (λ choice. choice.place) choices) (moments_at state choices)
        (moments state (steps_under (λ s. s) state state choices)) }
{}

//! Laws of the grammar of a tape. Each function does nothing: its contract is the law.

ghost use Rattle.std.specs.Prelude.{◌≡◌, ℕ, List, ◌++◌};
ghost use Rattle.strm_machine.specs.declared.steps.Step.{Step};
ghost use Rattle.strm_lines.specs.Grammar.{HasLine};
ghost use Rattle.strm_tape.specs.Spelling.{step_bytes, tape_spelling, TapeOf, IsTape};

/// No bytes begin with two steps.
pub fn steps_have_one_spelling()
    ensures { (s t : Step) (a b : List ℕ) → HasLine s → HasLine t →
        step_bytes s ++ a ≡ step_bytes t ++ b → (s ≡ t) × (a ≡ b) }
{}

/// No bytes begin with two tapes.
pub fn tapes_have_one_spelling()
    ensures { (t u : TapeOf) (a b : List ℕ) → IsTape t → IsTape u →
        tape_spelling t ++ a ≡ tape_spelling u ++ b → (t ≡ u) × (a ≡ b) }
{}

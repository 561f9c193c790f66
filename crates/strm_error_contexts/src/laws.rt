//! What follows of error contexts from their definitions.
//!
//! Meaning: `Contexts.antt`.

ghost use Rattle.std.specs.Prelude.{◌≡◌, ◌≢◌, ℕ, ◌+◌, ◌<◌, true, false, List, Some};
ghost use Rattle.strm_error_contexts.specs.Contexts.{Contexts, no_contexts, context_at, is_context_there, message_at, context_count_at, len, next_number, new_context, inserted, raised, context_dropped, AreContextsKept};

/// What a call does to the context of its number: a new one has one handle, a handle more or less
/// changes the count and keeps the message, and the last handle takes the context with it.
pub fn handles_are_counted()
    ensures new { (contexts : Contexts) (message : List ℕ) → AreContextsKept contexts
        → context_at (inserted contexts message) (next_number contexts)
        ≡ Some (new_context message) }
    ensures raised { (contexts : Contexts) (number : ℕ) → is_context_there contexts number ≡ true
        → context_count_at (raised contexts number) number ≡ context_count_at contexts number + 1 }
    ensures raised_message { (contexts : Contexts) (number : ℕ)
        → is_context_there contexts number ≡ true
        → message_at (raised contexts number) number ≡ message_at contexts number }
    ensures dropped { (contexts : Contexts) (number : ℕ) → 1 < context_count_at contexts number
        → context_count_at (context_dropped contexts number) number + 1 ≡ context_count_at contexts number }
    ensures dropped_message { (contexts : Contexts) (number : ℕ) → 1 < context_count_at contexts number
        → message_at (context_dropped contexts number) number ≡ message_at contexts number }
    ensures last { (contexts : Contexts) (number : ℕ) → context_count_at contexts number ≡ 1
        → is_context_there (context_dropped contexts number) number ≡ false }
    ensures next { (contexts : Contexts) (number : ℕ) → context_count_at contexts number ≡ 1
        → next_number (context_dropped contexts number) ≡ number }
{}

/// A call changes no other context.
pub fn others_stay()
    ensures inserted { (contexts : Contexts) (message : List ℕ) (other : ℕ)
        → AreContextsKept contexts → other ≢ next_number contexts
        → context_at (inserted contexts message) other ≡ context_at contexts other }
    ensures raised { (contexts : Contexts) (number other : ℕ)
        → is_context_there contexts number ≡ true → other ≢ number
        → context_at (raised contexts number) other ≡ context_at contexts other }
    ensures dropped { (contexts : Contexts) (number other : ℕ)
        → is_context_there contexts number ≡ true → other ≢ number
        → context_at (context_dropped contexts number) other ≡ context_at contexts other }
{}

/// Contexts stay kept, from none at all on.
pub fn contexts_stay_kept()
    ensures none { AreContextsKept no_contexts }
    ensures inserted { (contexts : Contexts) (message : List ℕ) → AreContextsKept contexts
        → AreContextsKept (inserted contexts message) }
    ensures raised { (contexts : Contexts) (number : ℕ) → is_context_there contexts number ≡ true
        → AreContextsKept contexts → AreContextsKept (raised contexts number) }
    ensures dropped { (contexts : Contexts) (number : ℕ) → is_context_there contexts number ≡ true
        → AreContextsKept contexts → AreContextsKept (context_dropped contexts number) }
{}

/// How many contexts there are after a call: one more, as many, and one less where the last handle
/// of one was dropped.
pub fn contexts_are_counted()
    ensures inserted { (contexts : Contexts) (message : List ℕ) → AreContextsKept contexts
        → len (inserted contexts message) ≡ len contexts + 1 }
    ensures raised { (contexts : Contexts) (number : ℕ) → is_context_there contexts number ≡ true
        → len (raised contexts number) ≡ len contexts }
    ensures dropped { (contexts : Contexts) (number : ℕ) → 1 < context_count_at contexts number
        → len (context_dropped contexts number) ≡ len contexts }
    ensures last { (contexts : Contexts) (number : ℕ) → context_count_at contexts number ≡ 1
        → len (context_dropped contexts number) + 1 ≡ len contexts }
{}

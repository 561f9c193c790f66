//! The laws, for whichever steps; most speak of at most 4,294,967,295 (`AreSteps`).
//!
//! Meaning: `Laws.antt`, `Conservation.antt`, and `Untouched.antt` and `Asked.antt` of
//! `strm_machine`. Ours.

ghost use Rattle.std.specs.Prelude.{◌≡◌, ◌↔◌, ℕ, ◌≤◌, List, [], ◌∷◌, ◌++◌, length, true, false};
ghost use Rattle.strm_codes.specs.declared.codes.TransmitKind.TheVariants.{Future};
ghost use Rattle.strm_machine.specs.State.{State, empty, stream_at};
ghost use Rattle.strm_machine.specs.Reactions.{react};
ghost use Rattle.strm_machine.specs.Asked.{HasBadItem};
ghost use Rattle.strm_machine.specs.declared.limits.Limits.{Limits};
ghost use Rattle.strm_machine.specs.declared.replies.Reply.TheVariants as replies;
ghost use Rattle.strm_machine.specs.declared.streams.Side.{Side};
ghost use Rattle.strm_machine.specs.declared.steps.Step.{Step};
ghost use Rattle.strm_machine.specs.Moments.{moment_of};
ghost use Rattle.strm_laws.specs.Conservation.{moments, state_after_steps, calls, got};
ghost use Rattle.strm_machine.specs.Soundness.{IsSound, both_open, AreUnmoved};
ghost use Rattle.strm_laws.specs.Laws.{AreSteps, Conserves, waiting, Stands, AreCounted, HandlesHold, HandlesAreSingle, MembersAreLive, ContextsCount};
ghost use Rattle.strm_machine.specs.Untouched.{LieThere, StaysAside};

/// On each stream, what was received is, in order, exactly the first k items of each accepted write, in the
/// order of the writes of all guests that had the write end: k is the count reported, and each item is as
/// the memory of the guest that made that write held it just before it was copied. The reports of the reads
/// speak of exactly as many items, those of either end count once each, and none speaks of more than its
/// call asked for. What carries it: a read or write that has no report yet has moved what its operation
/// says, and its next item lies behind that. A future's Completed counts one item, and no other report of
/// it any.
pub fn conservation()
    ensures conserves { (tag : ℕ) (limits : Limits) (run : List Step) (s : ℕ) → AreSteps run →
        Conserves s (moments (empty tag limits) run) (state_after_steps (empty tag limits) run) }
    ensures stands { (tag : ℕ) (limits : Limits) (run : List Step) (s : ℕ) (side : Side) →
        AreSteps run → Stands (stream_at (state_after_steps (empty tag limits) run) s).payload
        (waiting s side (state_after_steps (empty tag limits) run))
        (calls s side (moments (empty tag limits) run)) }
{}

/// On a future one item is received at most.
pub fn futures_pass_one()
    ensures { (tag : ℕ) (limits : Limits) (run : List Step) (s : ℕ) → AreSteps run →
        (stream_at (state_after_steps (empty tag limits) run) s).kind ≡ Future →
        length (got s (moments (empty tag limits) run)) ≤ 1 }
{}

/// No stream or future has both an open write and an open read, after at most 4,294,967,295 steps.
pub fn never_two_open()
    ensures { (tag : ℕ) (limits : Limits) (run : List Step) (s : ℕ) → AreSteps run →
        both_open (stream_at (state_after_steps (empty tag limits) run) s) ≡ false }
{}

/// A read or write that has not met has moved nothing: so a cancel of it says Cancelled of no item.
pub fn unmet_has_moved_none()
    ensures { (tag : ℕ) (limits : Limits) (run : List Step) (s : ℕ) → AreSteps run →
        AreUnmoved (stream_at (state_after_steps (empty tag limits) run) s) }
{}

/// The items of an operation, those that it moved and those that it has left, are below 2^28
/// together.
pub fn totals_are_counts()
    ensures { (tag : ℕ) (limits : Limits) (run : List Step) (s : ℕ) → AreSteps run →
        AreCounted (stream_at (state_after_steps (empty tag limits) run) s) }
{}

/// Every state is sound, after whichever steps: handles name streams that were made, of their type, the
/// items that an operation has left lie in its guest's memory, and each guest's table agrees with its
/// waitable sets.
pub fn states_are_sound()
    ensures { (tag : ℕ) (limits : Limits) (run : List Step) →
        IsSound (state_after_steps (empty tag limits) run) }
{}

/// An end that a handle names is held under that handle, and an end that is held is named by its
/// handle, after whichever steps. So an end has one handle at most, and none while it is loose or once it
/// is gone: no handle names a stream whose both ends are gone.
pub fn handles_hold_their_ends()
    ensures holds { (tag : ℕ) (limits : Limits) (run : List Step) →
        HandlesHold (state_after_steps (empty tag limits) run) }
    ensures single { (tag : ℕ) (limits : Limits) (run : List Step) →
        HandlesAreSingle (state_after_steps (empty tag limits) run) }
{}

/// A member of a waitable set is a live handle of a stream's or future's end, in the table of the set's
/// guest, after whichever steps. Its set is there, and has one handle; and what a handle of a set names
/// is there.
pub fn members_are_live()
    ensures { (tag : ℕ) (limits : Limits) (run : List Step) →
        MembersAreLive (state_after_steps (empty tag limits) run) }
{}

/// An error context counts the handles to it in all tables together, after whichever steps: it is there
/// as long as there is one. What a handle of one names is there, and its message is UTF-8 of at most
/// 4,096 bytes.
pub fn contexts_count_their_handles()
    ensures { (tag : ℕ) (limits : Limits) (run : List Step) →
        ContextsCount (state_after_steps (empty tag limits) run) }
{}

/// Nothing but a poke, a message and the items received changes a memory: in each step of a run all
/// other bytes of each guest stay as they were, no guest goes, and no memory changes its length.
pub fn other_bytes_stay()
    ensures { (tag : ℕ) (limits : Limits) (run : List Step) (step : Step) →
        AreSteps (run ++ step ∷ []) →
        StaysAside (moment_of (state_after_steps (empty tag limits) run) step) }
{}

/// The bytes that a step puts into a memory, those of a poke or of an error context's message, lie there
/// after it, in whichever run: exactly as many as the step names, or answers.
pub fn bytes_are_put()
    ensures { (tag : ℕ) (limits : Limits) (run : List Step) (step : Step) →
        LieThere (moment_of (state_after_steps (empty tag limits) run) step) }
{}

/// A step stops at a bad item exactly where one of the items that it asks to move at once is none, in
/// whichever state. Then none of them moves: guests, their memories and handles, and all streams stay as
/// they were, and the store is trapped. Nothing else traps a store, and a trapped one answers
/// StoreTrapped to every step, and stays as it is.
pub fn bad_items_move_nothing()
    ensures cause { (state : State) (step : Step) (s : ℕ) → state.trapped ≡ false →
        ((react state step).reply ≡ replies.BadItem s) ↔ HasBadItem state step s }
    ensures nothing_moves { (state : State) (step : Step) (s : ℕ) →
        (react state step).reply ≡ replies.BadItem s →
        (react state step).state ≡ record state { trapped = true } }
    ensures traps { (state : State) (step : Step) → state.trapped ≡ false →
        (react state step).state.trapped ≡ true → (s : ℕ) × HasBadItem state step s }
    ensures trapped { (state : State) (step : Step) →
        ((react state step).reply ≡ replies.StoreTrapped) ↔ (state.trapped ≡ true) }
    ensures stays { (state : State) (step : Step) → state.trapped ≡ true →
        (react state step).state ≡ state }
{}

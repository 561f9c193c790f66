//! The laws of every run of a store that gives numbers again, of at most 2^99 steps: those of the machine, of
//! each stream since it was made.
//!
//! Meaning: `Lives.antt`, `Runs.antt`, `Isolation.antt`; the laws' is in `Laws.antt` of `strm_laws`, and in
//! `Isolation.antt` of `strm_host_laws`. Ours.

ghost use Rattle.std.specs.Prelude.{◌≡◌, ◌↔◌, ℕ, ◌≤◌, List, [], ◌∷◌, ◌++◌, length, map, true, false, All};
ghost use Rattle.strm_codes.specs.declared.codes.TransmitKind.TheVariants.{Future};
ghost use Rattle.strm_machine.specs.State.{State, stream_at};
ghost use Rattle.strm_machine.specs.Asked.{HasBadItem};
ghost use Rattle.strm_machine.specs.declared.limits.Limits.{Limits};
ghost use Rattle.strm_machine.specs.declared.replies.Reply.TheVariants as replies;
ghost use Rattle.strm_machine.specs.declared.streams.Side.{Side};
ghost use Rattle.strm_machine.specs.declared.steps.Step.{Step};
ghost use Rattle.strm_machine.specs.Soundness.{IsSound, both_open, AreUnmoved};
ghost use Rattle.strm_machine.specs.Untouched.{LieThere, StaysAside};
ghost use Rattle.strm_laws.specs.Conservation.{calls, got};
ghost use Rattle.strm_laws.specs.Laws.{Conserves, waiting, Stands, AreCounted, HandlesHold, HandlesAreSingle, MembersAreLive, ContextsCount};
ghost use Rattle.strm_host_laws.specs.Isolation.{AnswersByItself};
ghost use Rattle.strm_places.specs.Again.{reacts_at};
ghost use Rattle.strm_place_laws.specs.Runs.{Choice, moment_at};
ghost use Rattle.strm_place_laws.specs.Lives.{life, run_of, end_of_run, CanBeRun};
ghost use Rattle.strm_place_laws.specs.Isolation.{without_hosts, among_guests, LeavesIt};
ghost use Rattle.strm_place_laws.specs.Shares.{HasNoHost};

/// Since a stream was made, what was received on it is, in order, exactly the first k items of each accepted
/// write, k the count reported, whoever had its number before: the law of conservation (`conservation` of
/// `strm_laws`) in a store that gives numbers again.
pub fn conservation_since_made()
    ensures conserves { (tag : ℕ) (limits : Limits) (choices : List Choice) (s : ℕ) →
        CanBeRun tag limits choices →
        Conserves s (life s (run_of tag limits choices)) (end_of_run tag limits choices) }
    ensures stands { (tag : ℕ) (limits : Limits) (choices : List Choice) (s : ℕ) (side : Side) →
        CanBeRun tag limits choices →
        Stands (stream_at (end_of_run tag limits choices) s).payload
        (waiting s side (end_of_run tag limits choices))
        (calls s side (life s (run_of tag limits choices))) }
{}

/// On a future one item is received at most, since it was made.
pub fn futures_pass_one_since_made()
    ensures { (tag : ℕ) (limits : Limits) (choices : List Choice) (s : ℕ) →
        CanBeRun tag limits choices →
        (stream_at (end_of_run tag limits choices) s).kind ≡ Future →
        length (got s (life s (run_of tag limits choices))) ≤ 1 }
{}

/// Streams are isolated: the codes answered for a stream since it was made are those of its kind and of its
/// own events, whatever is done to other streams between them, refused or not, and whoever had its number
/// before; and a moment since then that is no event of it leaves it whole: the law `streams_are_isolated` of
/// `strm_host_laws` in a store that gives numbers again.
pub fn streams_are_isolated_since_made()
    ensures answers { (tag : ℕ) (limits : Limits) (choices : List Choice) (s : ℕ) →
        CanBeRun tag limits choices →
        AnswersByItself s (map among_guests (life s (run_of tag limits choices)))
        (without_hosts (end_of_run tag limits choices)) }
    ensures others { (tag : ℕ) (limits : Limits) (choices : List Choice) (s : ℕ) →
        CanBeRun tag limits choices → All (LeavesIt s) (life s (run_of tag limits choices)) }
{}

/// After whichever steps a store that gives numbers again has no stream with two open sides, no operation
/// has moved anything that has not met, and the items of each are a count.
pub fn operations_keep_their_laws()
    ensures apart { (tag : ℕ) (limits : Limits) (choices : List Choice) (s : ℕ) →
        CanBeRun tag limits choices →
        both_open (stream_at (end_of_run tag limits choices) s) ≡ false }
    ensures unmoved { (tag : ℕ) (limits : Limits) (choices : List Choice) (s : ℕ) →
        CanBeRun tag limits choices → AreUnmoved (stream_at (end_of_run tag limits choices) s) }
    ensures counted { (tag : ℕ) (limits : Limits) (choices : List Choice) (s : ℕ) →
        CanBeRun tag limits choices → AreCounted (stream_at (end_of_run tag limits choices) s) }
{}

/// And it is sound: handles name streams that are there, of their type, and hold their ends, each end under
/// one handle at most; no host end has one; members of sets are live, and error contexts count their handles.
pub fn tables_keep_their_laws()
    ensures sound { (tag : ℕ) (limits : Limits) (choices : List Choice) →
        CanBeRun tag limits choices → IsSound (end_of_run tag limits choices) }
    ensures hold { (tag : ℕ) (limits : Limits) (choices : List Choice) →
        CanBeRun tag limits choices → HandlesHold (end_of_run tag limits choices) }
    ensures single { (tag : ℕ) (limits : Limits) (choices : List Choice) →
        CanBeRun tag limits choices → HandlesAreSingle (end_of_run tag limits choices) }
    ensures unhosted { (tag : ℕ) (limits : Limits) (choices : List Choice) →
        CanBeRun tag limits choices → HasNoHost (end_of_run tag limits choices) }
    ensures members { (tag : ℕ) (limits : Limits) (choices : List Choice) →
        CanBeRun tag limits choices → MembersAreLive (end_of_run tag limits choices) }
    ensures contexts { (tag : ℕ) (limits : Limits) (choices : List Choice) →
        CanBeRun tag limits choices → ContextsCount (end_of_run tag limits choices) }
{}

/// In each step the bytes that it puts into a memory lie there, and all bytes that it does not touch stay.
pub fn bytes_keep_their_laws()
    ensures there { (tag : ℕ) (limits : Limits) (choices : List Choice) (choice : Choice) →
        CanBeRun tag limits (choices ++ choice ∷ []) →
        LieThere (moment_at (end_of_run tag limits choices) choice) }
    ensures aside { (tag : ℕ) (limits : Limits) (choices : List Choice) (choice : Choice) →
        CanBeRun tag limits (choices ++ choice ∷ []) →
        StaysAside (moment_at (end_of_run tag limits choices) choice) }
{}

/// A step stops at a bad item exactly where an item that it asks to move is none, whichever number a stream
/// would get, and then nothing moves.
pub fn bad_items_keep_their_laws()
    ensures cause { (n : ℕ) (state : State) (step : Step) (s : ℕ) → state.trapped ≡ false →
        ((reacts_at n state step).reply ≡ replies.BadItem s) ↔ HasBadItem state step s }
    ensures nothing_moves { (n : ℕ) (state : State) (step : Step) (s : ℕ) →
        (reacts_at n state step).reply ≡ replies.BadItem s →
        (reacts_at n state step).state ≡ record state { trapped = true } }
{}

//! The laws of the guests, for whichever steps, of a run from an unused store among whichever host
//! ends.
//!
//! Meaning: `Laws.antt` of `strm_laws`, said of the state after the last moment of `HostMoments.antt`.
//! Ours.

ghost use Rattle.std.specs.Prelude.{◌≡◌, ℕ, ◌≤◌, List, length, true, false, All, None};
ghost use Rattle.strm_buffers.specs.Tells.{Tells};
ghost use Rattle.strm_codes.specs.declared.codes.TransmitKind.TheVariants.{Future};
ghost use Rattle.strm_machine.specs.Hosting.{HostsHold};
ghost use Rattle.strm_machine.specs.Soundness.{IsSound, both_open, AreUnmoved};
ghost use Rattle.strm_machine.specs.Untouched.{LieThere, StaysAside};
ghost use Rattle.strm_machine.specs.declared.limits.Limits.{Limits};
ghost use Rattle.strm_machine.specs.declared.steps.Step.{Step};
ghost use Rattle.strm_machine.specs.declared.streams.Side.{Side};
ghost use Rattle.strm_laws.specs.Conservation.{calls, got};
ghost use Rattle.strm_laws.specs.Laws.{AreSteps, AreCounted, Conserves, Stands, HandlesHold, HandlesAreSingle, MembersAreLive, ContextsCount, waiting};
ghost use Rattle.strm_host_machine.specs.World.{stream_in};
ghost use Rattle.strm_host_machine.specs.Does.{start_world};
ghost use Rattle.strm_host_laws.specs.HostMoments.{first_moments, end_world};
ghost use Rattle.strm_host_laws.specs.HostLaws.{plains, is_hosted, was_piped, host_got, ConservesAmong, MovesByHosts};

/// Every state is sound, after whichever steps: handles name streams that were made, of their type, the
/// items that an operation has left lie in its guest's memory, and each guest's table agrees with its
/// waitable sets. A host writer has the write end of the one stream that it serves, on which no guest
/// writes, and a host reader the read end of its one stream, on which no guest reads.
pub fn states_are_sound()
    ensures sound { (tag : ℕ) (limits : Limits) (old new : Tells) (run : List Step) (count : ℕ) →
        let first = start_world tag limits old new in
        let moments = first_moments count first run in
        IsSound (end_world first moments).state }
    ensures hosts { (tag : ℕ) (limits : Limits) (old new : Tells) (run : List Step) (count : ℕ) →
        let first = start_world tag limits old new in
        let moments = first_moments count first run in
        HostsHold (end_world first moments).state }
{}

/// An end that a handle names is held under that handle, and an end that is held is named by its
/// handle, after whichever steps. So an end has one handle at most, and none while it is loose, is a host
/// end's, or once it is gone.
pub fn handles_hold_their_ends()
    ensures holds { (tag : ℕ) (limits : Limits) (old new : Tells) (run : List Step) (count : ℕ) →
        let first = start_world tag limits old new in
        let moments = first_moments count first run in
        HandlesHold (end_world first moments).state }
    ensures single { (tag : ℕ) (limits : Limits) (old new : Tells) (run : List Step) (count : ℕ) →
        let first = start_world tag limits old new in
        let moments = first_moments count first run in
        HandlesAreSingle (end_world first moments).state }
{}

/// A member of a waitable set is a live handle of a stream's or future's end, in the table of the set's
/// guest, after whichever steps. Its set is there, and has one handle; and what a handle of a set names
/// is there.
pub fn members_are_live()
    ensures { (tag : ℕ) (limits : Limits) (old new : Tells) (run : List Step) (count : ℕ) →
        let first = start_world tag limits old new in
        let moments = first_moments count first run in
        MembersAreLive (end_world first moments).state }
{}

/// An error context counts the handles to it in all tables together, after whichever steps: it is there
/// as long as there is one. What a handle of one names is there, and its message is UTF-8 of at most
/// 4,096 bytes.
pub fn contexts_count_their_handles()
    ensures { (tag : ℕ) (limits : Limits) (old new : Tells) (run : List Step) (count : ℕ) →
        let first = start_world tag limits old new in
        let moments = first_moments count first run in
        ContextsCount (end_world first moments).state }
{}

/// No stream or future has both an open write and an open read, after at most 4,294,967,295 steps. On one
/// that was made of a host writer no guest writes at all, and on one whose read end went to a host reader
/// none reads any more.
pub fn never_two_open()
    ensures apart { (tag : ℕ) (limits : Limits) (old new : Tells) (run : List Step) (count s : ℕ) →
        let first = start_world tag limits old new in
        let moments = first_moments count first run in
        AreSteps run → both_open (stream_in (end_world first moments) s) ≡ false }
    ensures idle { (tag : ℕ) (limits : Limits) (old new : Tells) (run : List Step) (count s : ℕ) →
        let first = start_world tag limits old new in
        let moments = first_moments count first run in
        AreSteps run → is_hosted s moments ≡ true →
        (stream_in (end_world first moments) s).writer.operation ≡ None }
    ensures unread { (tag : ℕ) (limits : Limits) (old new : Tells) (run : List Step) (count s : ℕ) →
        let first = start_world tag limits old new in
        let moments = first_moments count first run in
        AreSteps run → was_piped s moments ≡ true →
        (stream_in (end_world first moments) s).reader.operation ≡ None }
{}

/// A read or write that has not met has moved nothing, on a stream that no host writer made and whose read
/// end went to no host reader: so a cancel of it says Cancelled of no item. A poll of a host end may move
/// items of a read or write that it leaves open.
pub fn unmet_has_moved_none()
    ensures { (tag : ℕ) (limits : Limits) (old new : Tells) (run : List Step) (count s : ℕ) →
        let first = start_world tag limits old new in
        let moments = first_moments count first run in
        AreSteps run → is_hosted s moments ≡ false → was_piped s moments ≡ false →
        AreUnmoved (stream_in (end_world first moments) s) }
{}

/// Of every stream: a write that has not met, and whose end is there, has moved something only while a host
/// reader has the read end, and a read that has not met, and whose end is there, only while a host writer has
/// the write end.
pub fn unmet_moves_by_host_ends()
    ensures { (tag : ℕ) (limits : Limits) (old new : Tells) (run : List Step) (count s : ℕ) →
        let first = start_world tag limits old new in
        let moments = first_moments count first run in
        AreSteps run → MovesByHosts (stream_in (end_world first moments) s) }
{}

/// The items of an operation, those that it moved and those that it has left, are below 2^28
/// together.
pub fn totals_are_counts()
    ensures { (tag : ℕ) (limits : Limits) (old new : Tells) (run : List Step) (count s : ℕ) →
        let first = start_world tag limits old new in
        let moments = first_moments count first run in
        AreCounted (stream_in (end_world first moments) s) }
{}

/// On each stream of which no host end had an end, what was received is, in order, exactly the first k items
/// of each accepted write, k the count reported, each as its guest's memory held it just before it was
/// copied, whatever host ends did on other streams. The reports of the reads speak of exactly as many
/// items, those of either end count once each, and none speaks of more than its call asked for. What
/// carries it: a read or write that has no report yet has moved what its operation says, and its next item
/// lies behind that.
pub fn conservation()
    ensures conserves { (tag : ℕ) (limits : Limits) (old new : Tells) (run : List Step)
        (count s : ℕ) →
        let first = start_world tag limits old new in
        let moments = first_moments count first run in
        AreSteps run → is_hosted s moments ≡ false → was_piped s moments ≡ false →
        Conserves s (plains moments) (end_world first moments).state }
    ensures stands { (tag : ℕ) (limits : Limits) (old new : Tells) (run : List Step) (count s : ℕ)
        (side : Side) →
        let first = start_world tag limits old new in
        let moments = first_moments count first run in
        AreSteps run → is_hosted s moments ≡ false → was_piped s moments ≡ false →
        Stands (stream_in (end_world first moments) s).payload
        (waiting s side (end_world first moments).state) (calls s side (plains moments)) }
{}

/// The same of each stream or future that guests write, where a host reader had the read end too: what was
/// received, by guests and then by the host reader, is exactly the first k items of each accepted write, k
/// the count reported, each as its guest's memory held it just before it was copied or taken. What the reads
/// report and what the host reader took are together as many items. On a future one item is received at most.
pub fn conservation_among()
    ensures conserves { (tag : ℕ) (limits : Limits) (old new : Tells) (run : List Step)
        (count s : ℕ) →
        let first = start_world tag limits old new in
        let moments = first_moments count first run in
        AreSteps run → is_hosted s moments ≡ false →
        ConservesAmong s moments (end_world first moments).state }
    ensures stands { (tag : ℕ) (limits : Limits) (old new : Tells) (run : List Step) (count s : ℕ)
        (side : Side) →
        let first = start_world tag limits old new in
        let moments = first_moments count first run in
        AreSteps run → is_hosted s moments ≡ false →
        Stands (stream_in (end_world first moments) s).payload
        (waiting s side (end_world first moments).state) (calls s side (plains moments)) }
    ensures one { (tag : ℕ) (limits : Limits) (old new : Tells) (run : List Step) (count s : ℕ) →
        let first = start_world tag limits old new in
        let moments = first_moments count first run in
        AreSteps run → is_hosted s moments ≡ false →
        (stream_in (end_world first moments) s).kind ≡ Future → length (host_got s moments) ≤ 1 }
{}

/// On a future of which no host end had an end one item is received at most.
pub fn futures_pass_one()
    ensures { (tag : ℕ) (limits : Limits) (old new : Tells) (run : List Step) (count s : ℕ) →
        let first = start_world tag limits old new in
        let moments = first_moments count first run in
        AreSteps run → is_hosted s moments ≡ false → was_piped s moments ≡ false →
        (stream_in (end_world first moments) s).kind ≡ Future →
        length (got s (plains moments)) ≤ 1 }
{}

/// Nothing but a poke, a message and the items received changes a memory: in each moment of a run all other
/// bytes of each guest stay as they were, no guest goes, and no memory changes its length. What a host
/// writer hands over touches the bytes where its items are received, and what a host reader takes touches
/// none.
pub fn other_bytes_stay()
    ensures { (tag : ℕ) (limits : Limits) (old new : Tells) (run : List Step) (count : ℕ) →
        let first = start_world tag limits old new in
        let moments = first_moments count first run in
        AreSteps run → All StaysAside (plains moments) }
{}

/// The bytes that a step puts into a memory, those of a poke or of an error context's message, lie there
/// after it, in whichever run: exactly as many as the step names, or answers.
pub fn bytes_are_put()
    ensures { (tag : ℕ) (limits : Limits) (old new : Tells) (run : List Step) (count : ℕ) →
        let first = start_world tag limits old new in
        let moments = first_moments count first run in
        All LieThere (plains moments) }
{}

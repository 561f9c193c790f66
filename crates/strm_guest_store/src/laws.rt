//! What holds of a store among guests whatever is done with its memories, and however many streams were made.
//!
//! Meaning: `Guests.antt` of `strm_transmit`, `Bases.antt` of `strm_machine`, `Again.antt` of `strm_places`. Ours.

ghost use Rattle.std.specs.Prelude.{◌≡◌, ℕ, ◌<◌, ◌≤◌, ◌^◌, true, false, List, length, Some, None, Result, Err};
ghost use Rattle.strm_codes.specs.declared.codes.ReturnCode.{ReturnCode};
ghost use Rattle.strm_memory.specs.Bytes.{bytes_at};
ghost use Rattle.strm_machine.specs.Acts.{act_of};
ghost use Rattle.strm_machine.specs.Bases.{BasesStay};
ghost use Rattle.strm_machine.specs.Endings.{report_on};
ghost use Rattle.strm_machine.specs.Growth.{grown, MayGrow};
ghost use Rattle.strm_machine.specs.Reactions.{react, lowers_context};
ghost use Rattle.strm_machine.specs.Sides.{opposite, end_of};
ghost use Rattle.strm_machine.specs.State.{State, is_gone, stream_at, memory_in, with_bytes};
ghost use Rattle.strm_machine.specs.Tests.{are_streams_full};
ghost use Rattle.strm_machine.specs.WaitableSets.{is_ready};
ghost use Rattle.strm_machine.specs.declared.replies.Reply.{Reply};
ghost use Rattle.strm_machine.specs.declared.steps.Step.{Step};
ghost use Rattle.strm_machine.specs.declared.streams.Owner.TheVariants.{Held};
ghost use Rattle.strm_machine.specs.declared.streams.Side.{Side};
ghost use Rattle.strm_places.specs.Again.{reacts_at};
ghost use Rattle.strm_places.specs.Lives.{ended, handles_given_up, OwesNone, IsGivenUp};
ghost use Rattle.strm_transmit.specs.Meets.{Meets};
ghost use Rattle.strm_transmit.specs.Queries.{handle_told};
ghost use Rattle.strm_transmit.specs.ReadyGuests.{is_ready_guest, next_ready_guest, IsNextReady};
ghost use Rattle.strm_transmit.specs.declared.errors.StoreError.{StoreError};
ghost use Rattle.strm_transmit.specs.declared.errors.StoreError.TheVariants as store_errors;
ghost use Rattle.strm_transmit.specs.declared.store.bad_items.BadItem.{BadItem};
ghost use Rattle.strm_transmit.specs.declared.store.queries.EndInfo.{EndInfo};
ghost use Rattle.strm_transmit.specs.declared.store.queries.Handle.TheVariants as handles;
ghost use Rattle.strm_guest_store.specs.Among.{IsAmongGuests, HasBytes};
ghost use Rattle.strm_guest_store.specs.Ends.{LosesEnds, IsPeer, report_alone};
ghost use Rattle.strm_guest_store.specs.Operations.{MeetsOrTells};
ghost use Rattle.strm_guest_store.specs.OwnStreams.{IsMadeReady, MakesOwnReady};
ghost use Rattle.strm_guest_store.specs.Ready.{HasReadyHandle};
ghost use Rattle.strm_guest_store.specs.declared.operations.OperateError.{OperateError};
ghost use Rattle.strm_guest_store.specs.declared.operations.OperateError.TheVariants as errors;

/// Bytes that are written into a guest's memory between two calls, as many as one likes, leave the state
/// one of a store among guests: that which a poke of these bytes leaves. So a clause of a call, which
/// speaks of whatever state it finds, holds of the next call too. It does nothing.
pub fn memories_may_be_written()
    ensures { (state : State) (guest address : ℕ) (bytes : List ℕ) → IsAmongGuests state →
        HasBytes state guest address (length bytes) →
        IsAmongGuests (with_bytes state guest address bytes) }
{}

/// Bytes that a guest's memory gets behind its end leave the state one of a store among guests: that which
/// `memory_grown` leaves, and `memory_moved` but for where the memory lies. Each operation that waits, as all
/// streams, stays as it is, and what lies in a memory lies there as before. It does nothing.
pub fn memories_may_grow()
    ensures among { (state : State) (guest : ℕ) (more : List ℕ) → IsAmongGuests state →
        MayGrow state guest more → IsAmongGuests (grown state guest more) }
    ensures streams { (state : State) (guest : ℕ) (more : List ℕ) →
        (grown state guest more).streams ≡ state.streams }
    ensures regions { (state : State) (guest other address count : ℕ) (more : List ℕ) →
        HasBytes state other address count → bytes_at (memory_in (grown state guest more).guests other)
        address count ≡ bytes_at (memory_in state.guests other) address count }
{}

/// Whatever call is made, and whatever it answers, each memory of which it was told lies where it lay. Each
/// call of `GuestStore` that may change the store is a step by its clause `meets`, a making that gives a
/// stream some number, a read or write, or a lowering; or it is `add_guest_at` or `memory_moved`, which tell where
/// the memory of one guest lies, or the end or the beginning of one, and leaves all others where they lay by its own
/// clause `stays`. It does nothing.
pub fn memories_stay()
    ensures steps { (old new : State) (result : Result Reply StoreError) (step : Step)
        → IsAmongGuests old → Meets old new result (react old step)
        → BasesStay old.guests new.guests }
    ensures makings { (old new : State) (result : Result Reply StoreError) (n : ℕ) (step : Step)
        → IsAmongGuests old → Meets old new result (reacts_at n old step)
        → BasesStay old.guests new.guests }
    ensures operations { (old new : State) (result : Result ReturnCode OperateError) (step : Step)
        → IsAmongGuests old → MeetsOrTells old new result step → BasesStay old.guests new.guests }
    ensures lowerings { (old new : State) (result : Result Reply StoreError) (number guest : ℕ) →
        Meets old new result (lowers_context old number guest) → BasesStay old.guests new.guests }
{}

/// No making is refused since streams were made before: a store among guests never has as many streams as
/// there can be, so `Full` says that those with an end left, with sets and error contexts, reached the limit on
/// places. It does nothing.
pub fn makings_go_on()
    ensures { (state : State) → IsAmongGuests state → state.limits.places < 2 ^ 32 →
        are_streams_full state ≡ false }
{}

/// Nothing traps a store among guests, and no step of it answers that it is trapped. It does nothing.
pub fn nothing_traps()
    ensures untrapped { (state : State) → IsAmongGuests state → state.trapped ≡ false }
    ensures answers { (old new : State) (step : Step) → IsAmongGuests old →
        Meets old new (Err store_errors.StoreTrapped) (react old step) → ⊥ }
{}

/// A read or write that stopped at an item which is none answers the same whenever it is made again in that
/// state, and the item is one only. It does nothing.
pub fn bad_items_are_told_again()
    ensures { (state new : State) (step : Step) (item : BadItem)
        (again : Result ReturnCode OperateError) → MeetsOrTells state state (Err (errors.BadItem item)) step
        → IsAmongGuests state → MeetsOrTells state new again step → again ≡ Err (errors.BadItem item) }
{}

/// Where a guest owes no future's value, what is given up as it ends is a play of steps that cancel and drop what it
/// has. So what holds of every play, as that no item is lost, holds of it. It does nothing.
pub fn ends_are_plays()
    ensures { (state : State) (guest : ℕ) → IsAmongGuests state → guest < length state.guests →
        OwesNone state guest → IsGivenUp guest state (handles_given_up state guest) }
{}

/// Where a guest ends, the ends that it had are gone and have no operation. All other ends are as they were, and so
/// is what was received: what moved stays moved. Whoever has the other end of one is told what an end is told whose
/// other end is gone: Dropped, with what its operation moved, or with 0, which the reader of a future is told whose
/// value never came. It does nothing.
pub fn ends_leave_others()
    ensures streams { (state : State) (guest s : ℕ) → IsAmongGuests state →
        guest < length state.guests →
        LosesEnds guest (stream_at state s) (stream_at (ended state guest) s) }
    ensures told { (state : State) (guest s : ℕ) (side : Side) → IsAmongGuests state →
        guest < length state.guests → IsPeer guest side (stream_at state s) →
        report_on side (stream_at (ended state guest) s) ≡ report_alone side (stream_at state s) }
{}

/// An end that a call makes ready is of the stream that the call is upon; a making, and the lowering of an error
/// context, make none so. Where a guest ends, an end that becomes ready, and is not gone, is across from an end of that
/// guest's. It does nothing.
pub fn ready_by_its_own_stream()
    ensures steps { (old new : State) (result : Result Reply StoreError) (step : Step) →
        Meets old new result (react old step) → MakesOwnReady (act_of step) old new }
    ensures makings { (old new : State) (result : Result Reply StoreError) (n : ℕ) (step : Step) →
        Meets old new result (reacts_at n old step) → MakesOwnReady (act_of step) old new }
    ensures operations { (old new : State) (result : Result ReturnCode OperateError) (step : Step) →
        MeetsOrTells old new result step → MakesOwnReady (act_of step) old new }
    ensures lowerings { (old new : State) (result : Result Reply StoreError) (number guest : ℕ) →
        Meets old new result (lowers_context old number guest) → (s : ℕ) (side : Side) →
        IsMadeReady side (stream_at old s) (stream_at new s) → ⊥ }
    ensures ends { (state : State) (guest s : ℕ) (side : Side) → IsAmongGuests state →
        guest < length state.guests →
        is_gone (end_of side (stream_at (ended state guest) s)).owner ≡ false →
        IsMadeReady side (stream_at state s) (stream_at (ended state guest) s) →
        IsPeer guest side (stream_at state s) }
{}

/// The handle that is told of the other end is of the end across, of the same stream, whose other end is the first. So
/// who made a call asks twice, of its own end and of the one across, and knows each end that the call made ready.
/// It does nothing.
pub fn across_is_told()
    ensures { (state : State) (g handle to other : ℕ) (end : EndInfo) → IsAmongGuests state
        → handle_told state g handle ≡ Some (handles.End end) → end.other ≡ Held to other
        → handle_told state to other ≡ Some (handles.End (record {
          ty = end.ty;
          side = opposite end.side;
          stream = end.stream;
          event = report_on (opposite end.side) (stream_at state end.stream);
          other = Held g handle;
        })) }
{}

/// The next guest that is ready is ready, and none is from the number on and before it; where none is told, none is
/// from the number on. It does nothing.
pub fn next_ready_guest_is_the_least()
    ensures next { (state : State) (from g : ℕ) → next_ready_guest state from ≡ Some g
        → IsNextReady state from g }
    ensures none { (state : State) (from g : ℕ) → next_ready_guest state from ≡ None → from ≤ g
        → g < length state.guests → is_ready_guest state g ≡ false }
{}

/// A guest that is told to be ready has a handle whose end is to be told something, and one that has such a handle is
/// told to be ready. It does nothing.
pub fn ready_guests_have_events()
    ensures has { (state : State) (g : ℕ) → IsAmongGuests state → is_ready_guest state g ≡ true →
        HasReadyHandle state g }
    ensures told { (state : State) (g handle : ℕ) → IsAmongGuests state →
        is_ready state g handle ≡ true → is_ready_guest state g ≡ true }
{}

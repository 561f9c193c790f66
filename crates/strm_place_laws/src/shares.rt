//! What a guest's share of the handles bounds: streams.
//!
//! Meaning: `Shares.antt`. Ours.

ghost use Rattle.std.specs.Prelude.{ℕ, ◌+◌, ◌≤◌, count_by};
ghost use Rattle.strm_handles.specs.Kinds.{ends_held};
ghost use Rattle.strm_machine.specs.State.{State, guest_in, is_live, handles_in_use};
ghost use Rattle.strm_laws.specs.Laws.{HandlesHold};
ghost use Rattle.strm_place_laws.specs.Shares.{HasNoHost, has_loose, has_end_of};

/// Among guests each stream that is there has an end that a handle names, or a loose one: so the streams that
/// are there are at most as many as handles and loose ends together. Whoever bounds the handles of guests,
/// and lowers or closes what was lifted, bounds the streams.
pub fn streams_are_within_handles()
    ensures { (state : State) → HandlesHold state → HasNoHost state →
        count_by is_live state.streams ≤ handles_in_use state + count_by has_loose state.streams }
{}

/// A guest is at no more streams than it has handles of ends: so whoever bounds its ends bounds the streams that
/// it is at.
pub fn streams_of_a_guest_are_within_its_ends()
    ensures { (state : State) (guest : ℕ) → HandlesHold state →
        count_by (has_end_of guest) state.streams
        ≤ ends_held (guest_in state.guests guest).handles }
{}

//! What holds of every call: functions without effect, whose contracts are laws.
//!
//! Meaning: `Live.antt`. Ours; wasmtime, `handle_table.rs`, `HandleCounter`.

ghost use Rattle.std.specs.Prelude.{◌≡◌, ◌≢◌, ℕ, ◌<◌, ◌≤◌, ◌↔◌, if◌then◌else◌, Some, Result, Err, IfOk, OnOk};
ghost use Rattle.strm_handles.specs.Words.{Payload, Entry, TransmitEnd, TransmitLocalState, TypedResourceIndex, HandleError};
ghost use Rattle.strm_handles.specs.declared.entries.Entry.TheVariants as entry;
ghost use Rattle.strm_handles.specs.declared.errors.HandleError.TheVariants.{IndexOverflow, HandleLimit, WrongType};
ghost use Rattle.strm_handles.specs.Handles.{handle_limit, Handles, TableOf, Table, no_handles, entry_at, next_index, with_entry, lends_of, live_of, occupied, IsTable};
ghost use Rattle.strm_handles.specs.Changes.{Inserts, Removes};
ghost use Rattle.strm_handles.specs.Counters.{Counter, counted, uncounted};
ghost use Rattle.strm_handles.specs.Live.{CountsAlike, CountsOccupied, RemovalsAreCounted};
ghost use Rattle.strm_handles.specs.Lookups.{stream_end_of, future_end_of, guest_thread_rep_of};
ghost use Rattle.strm_handles.specs.Lends.{resource_lend_of, resource_undo_lend_of, HasLend, lent, returned};

/// Live are the occupied slots and the open lends. A new table has none, and every call changes
/// the table's live handles as it changes the counter's: so a counter that was new with its
/// tables counts the live handles of them all, whatever was called.
pub fn live_is_counted()
    ensures new { live_of no_handles ≡ 0 }

    // Whatever is inserted has no lend yet.
    ensures insert { (old new : Table) (before after : Counter) (e : Entry)
        (result : Result ℕ HandleError) → IsTable old.handles → lends_of e ≡ 0 →
        Inserts old new before after e result →
        CountsAlike old.handles new.handles before after }
    ensures removals { RemovalsAreCounted }
    ensures lend { (h : Handles) (counter : Counter) (idx : TypedResourceIndex) →
        IfOk (resource_lend_of h counter idx) (λ r. CountsAlike h (lent h idx.index) counter
        (if r.1 then counted counter else counter)) }
    ensures undo_lend { (h : Handles) (counter : Counter) (idx : TypedResourceIndex) →
        live_of h ≤ counter.live → HasLend (entry_at h idx.index) →
        OnOk (resource_undo_lend_of h idx)
        (CountsAlike h (returned h idx.index) counter (uncounted counter)) }

    // Setting a state counts nothing.
    ensures set_state { (h : Handles) (ty : Payload) (n : ℕ) (state : TransmitLocalState) →
        IfOk (stream_end_of h ty n) (λ end.
        live_of (with_entry h n (entry.Stream (record end { state = state }))) ≡ live_of h)
        × IfOk (future_end_of h ty n) (λ end.
        live_of (with_entry h n (entry.Future (record end { state = state }))) ≡ live_of h) }
    ensures insert_thread { (old new : TableOf ℕ) (before after : Counter) (rep : ℕ)
        (result : Result ℕ HandleError) → IsTable old.handles →
        Inserts old new before after rep result →
        CountsOccupied old.handles new.handles before after }
    ensures remove_thread { (old new : TableOf ℕ) (before after : Counter) (n : ℕ) →
        occupied old.handles ≤ before.live →
        Removes old new before after n (guest_thread_rep_of old.handles n) →
        CountsOccupied old.handles new.handles before after }
{}

/// An insert answers IndexOverflow exactly where its number would be 2^28, and HandleLimit exactly
/// where it would not be, and as many handles are live as may be.
pub fn inserts_are_refused_exactly()
    ensures overflow { (old new : Table) (before after : Counter) (e : Entry)
        (result : Result ℕ HandleError) → Inserts old new before after e result →
        (result ≡ Err IndexOverflow) ↔ (handle_limit ≤ next_index old.handles) }
    ensures limit { (old new : Table) (before after : Counter) (e : Entry)
        (result : Result ℕ HandleError) → Inserts old new before after e result →
        (result ≡ Err HandleLimit)
        ↔ ((next_index old.handles < handle_limit) × (before.limit ≤ before.live)) }
{}

/// WrongType comes exactly where the end of that kind which the number stands for has another payload.
pub fn wrong_types_are_other_payloads()
    ensures stream { (h : Handles) (ty : Payload) (n : ℕ) (end : TransmitEnd) →
        entry_at h n ≡ Some (entry.Stream end) →
        (stream_end_of h ty n ≡ Err WrongType) ↔ (end.ty ≢ ty) }
    ensures future { (h : Handles) (ty : Payload) (n : ℕ) (end : TransmitEnd) →
        entry_at h n ≡ Some (entry.Future end) →
        (future_end_of h ty n ≡ Err WrongType) ↔ (end.ty ≢ ty) }
{}

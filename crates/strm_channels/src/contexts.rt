//! Error contexts with their handles, and the messages that guests give and are told.
//!
//! Meaning: `ErrorContexts.antt` of `strm_machine`, and `Contexts.antt` of `strm_error_contexts`. Source:
//! Canonical ABI, `canon error-context.{new,debug-message,drop}`; wasmtime,
//! `error_context_transfer`; the room that is taken before a context changes is ours.

ghost use Rattle.std.specs.Prelude.{◌≡◌, Ok, ◌+◌, ◌^◌, ◌<◌, ◌≤◌, true, false, length, IfOk, OnOk, OnErr};
ghost use Rattle.std.specs.Str.{is_utf8};
ghost use Rattle.strm_handles.specs.Handles.{next_index, inserted, live_of};
ghost use Rattle.strm_handles.specs.Counters.{counted, uncounted};
ghost use Rattle.strm_handles.specs.Lookups.{error_context_rep_of};
ghost use Rattle.strm_handles.specs.declared.entries.Entry.TheVariants.{ErrorContext};
ghost use Rattle.strm_memory.specs.Bytes.{bytes_at, put_at};
ghost use Rattle.strm_memory.specs.Region.{bytes_out_of_bounds};
ghost use Rattle.strm_error_contexts.specs.Contexts.{is_context_there, message_at, context_count_at, next_number, inserted as with_message, raised, context_dropped};
ghost use Rattle.strm_machine.specs.State.{guest_in, memory_in, with_memory};
ghost use Rattle.strm_machine.specs.ErrorContexts.{message_limit, bytes_of_message};
ghost use Rattle.strm_channels.specs.Changes.{AddsHandle, GivesHandle, FreesHandle};
ghost use Rattle.strm_channels.specs.Guests.{guests_of, room_in_table, live_in, with_context_in, without_context_in};

use crate::ends::reserve;
use crate::guests::{Guest, read_bytes, write_bytes};
use strm_codes::counts::OutOfMemory;
use strm_error_contexts::contexts::ErrorContexts;
use strm_error_contexts::messages::message_of;
use strm_handles::counters::HandleCounter;
use strm_handles::tables::HandleTable;

// A context's handle, in a table that has room for it.
fn insert(table: &mut HandleTable, counter: &mut HandleCounter, context: u32) -> u32
    requires room { 0 < table.old.room }
    requires small { next_index table.old.handles < 2 ^ 28 }
    requires below { counter.old.live < counter.old.limit }
    ensures number { result ≡ next_index table.old.handles }
    ensures handles { table.new.handles ≡ inserted table.old.handles (ErrorContext context) }
    ensures counter { counter.new ≡ counted counter.old }
    ensures live { live_of table.new.handles ≡ live_of table.old.handles + 1 }
{
    table.sound();
    table.error_context_insert(counter, context).unwrap()
}

// A context's handle, in the table of a guest that has room for it.
fn insert_context(
    guests: &mut Vec<Guest>,
    counter: &mut HandleCounter,
    guest: usize,
    context: u32,
) -> u32
    requires there { guest < length guests.old.items }
    requires room { 0 < room_in_table guests.old.items guest }
    requires small { next_index (guest_in (guests_of guests.old.items) guest).handles < 2 ^ 28 }
    requires below { counter.old.live < counter.old.limit }
    ensures adds { AddsHandle (guests_of guests.old.items) (guests_of guests.new.items)
        (with_context_in (guests_of guests.old.items) guest context) guest
        counter.old counter.new result }
    ensures count { length guests.new.items ≡ length guests.old.items }
{
    insert(&mut guests[guest].table, counter, context)
}

// A context more, whose message is so many bytes of a guest's memory: answers its number.
fn keep_message(
    guests: &Vec<Guest>,
    contexts: &mut ErrorContexts,
    guest: usize,
    address: u32,
    len: u32,
) -> Result<u32, OutOfMemory>
    requires there { guest < length guests.now.items }
    requires inside { bytes_out_of_bounds (length (memory_in (guests_of guests.now.items) guest))
        address len ≡ false }
    requires text { is_utf8 (bytes_at (memory_in (guests_of guests.now.items) guest) address len)
        ≡ true }
    ensures number { IfOk result (λ number. number ≡ next_number contexts.old) }
    ensures ok { OnOk result (contexts.new ≡ with_message contexts.old
        (bytes_at (memory_in (guests_of guests.now.items) guest) address len)) }
    ensures err { OnErr result (contexts.new ≡ contexts.old) }
{
    let message = message_of(read_bytes(guests, guest, address, len)).unwrap();
    contexts.insert(message)
}

/// An error context more, whose message is so many bytes of a guest's memory, under the next handle
/// of its table: answers that. After running out of memory nothing has changed.
pub fn give_context(
    guests: &mut Vec<Guest>,
    contexts: &mut ErrorContexts,
    counter: &mut HandleCounter,
    guest: usize,
    address: u32,
    len: u32,
) -> Result<u32, OutOfMemory>
    requires there { guest < length guests.old.items }
    requires inside { bytes_out_of_bounds (length (memory_in (guests_of guests.old.items) guest))
        address len ≡ false }
    requires text { is_utf8 (bytes_at (memory_in (guests_of guests.old.items) guest) address len)
        ≡ true }
    requires small { next_index (guest_in (guests_of guests.old.items) guest).handles < 2 ^ 28 }
    requires below { counter.old.live < counter.old.limit }
    ensures gives { GivesHandle (guests_of guests.old.items) (guests_of guests.new.items)
        (with_context_in (guests_of guests.old.items) guest (next_number contexts.old)) guest
        counter.old counter.new result }
    ensures contexts { OnOk result (contexts.new ≡ with_message contexts.old
        (bytes_at (memory_in (guests_of guests.old.items) guest) address len)) }
    ensures same { OnErr result (contexts.new ≡ contexts.old) }
    ensures count { length guests.new.items ≡ length guests.old.items }
{
    reserve(guests, guest, 1)?;
    let context = keep_message(guests, contexts, guest, address, len)?;
    Ok(insert_context(guests, counter, guest, context))
}

// Counts a handle more to a context that has fewer than a limit.
fn count_handle(contexts: &mut ErrorContexts, context: u32, limit: usize)
    requires known { is_context_there contexts.old context ≡ true }
    requires fits { context_count_at contexts.old context < limit }
    ensures { contexts.new ≡ raised contexts.old context }
{
    // For the contract: a count below a word rises within one.
    let _ = limit;
    contexts.add_handle(context);
}

/// A handle more to an error context, in the table of a guest: answers its number. After
/// running out of memory nothing has changed.
pub fn share_context(
    guests: &mut Vec<Guest>,
    contexts: &mut ErrorContexts,
    counter: &mut HandleCounter,
    guest: usize,
    context: u32,
) -> Result<u32, OutOfMemory>
    requires there { guest < length guests.old.items }
    requires known { is_context_there contexts.old context ≡ true }
    requires fits { context_count_at contexts.old context < counter.old.limit }
    requires small { next_index (guest_in (guests_of guests.old.items) guest).handles < 2 ^ 28 }
    requires below { counter.old.live < counter.old.limit }
    ensures gives { GivesHandle (guests_of guests.old.items) (guests_of guests.new.items)
        (with_context_in (guests_of guests.old.items) guest context) guest
        counter.old counter.new result }
    ensures contexts { OnOk result (contexts.new ≡ raised contexts.old context) }
    ensures same { OnErr result (contexts.new ≡ contexts.old) }
    ensures count { length guests.new.items ≡ length guests.old.items }
{
    reserve(guests, guest, 1)?;
    count_handle(contexts, context, counter.limit());
    Ok(insert_context(guests, counter, guest, context))
}

/// Frees a guest's handle to an error context, by the handle and the context's number; the context
/// goes with its last handle.
pub fn remove_context(
    guests: &mut Vec<Guest>,
    contexts: &mut ErrorContexts,
    counter: &mut HandleCounter,
    guest: usize,
    handle: u32,
    context: u32,
)
    requires there { guest < length guests.old.items }
    requires named { error_context_rep_of (guest_in (guests_of guests.old.items) guest).handles
        handle ≡ Ok context }
    requires known { is_context_there contexts.old context ≡ true }
    requires live { live_in (guests_of guests.old.items) ≤ counter.old.live }
    ensures frees { FreesHandle (guests_of guests.old.items) (guests_of guests.new.items)
        (without_context_in (guests_of guests.old.items) guest handle) counter.old counter.new }
    ensures contexts { contexts.new ≡ context_dropped contexts.old context }
    ensures count { length guests.new.items ≡ length guests.old.items }
{
    let table = &mut guests[guest].table;
    let _ = table.error_context_drop(counter, handle).unwrap();
    contexts.drop_handle(context);
}

/// The message of an error context; empty where there is none.
pub fn message(contexts: &ErrorContexts, context: u32) -> &str
    ensures { result.now ≡ bytes_of_message (message_at contexts.now context) }
{
    match contexts.message(context) {
        Some(message) => message,
        None => "",
    }
}

/// Puts the message of an error context into a guest's memory: answers how many bytes it has.
pub fn tell_message(
    guests: &mut Vec<Guest>,
    contexts: &ErrorContexts,
    guest: usize,
    address: u32,
    context: u32,
) -> u32
    requires there { guest < length guests.old.items }
    requires inside { bytes_out_of_bounds (length (memory_in (guests_of guests.old.items) guest))
        address (length (bytes_of_message (message_at contexts.now context))) ≡ false }
    requires short { length (bytes_of_message (message_at contexts.now context)) ≤ message_limit }
    ensures len { result ≡ length (bytes_of_message (message_at contexts.now context)) }
    ensures guests { guests_of guests.new.items ≡ with_memory (guests_of guests.old.items) guest
        (put_at (memory_in (guests_of guests.old.items) guest) address
        (bytes_of_message (message_at contexts.now context))) }
    ensures count { length guests.new.items ≡ length guests.old.items }
{
    let bytes = message(contexts, context).as_bytes();
    write_bytes(guests, guest, address, bytes);
    bytes.len() as u32
}

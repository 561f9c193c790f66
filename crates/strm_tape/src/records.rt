//! The records of a tape, each read from the front of its bytes exactly as it is spelled. None where
//! none is; after `OutOfMemory` nothing was kept.
//!
//! Source: ours.

ghost use Rattle.std.specs.Prelude.{◌≡◌, ◌<◌, ◌*◌, ◌++◌, ◌∷◌, [], Bool, true, false, length, replicate, slice_get, if◌then◌else◌, Some, None, IsTrue, IfOk, OnOk};
ghost use Rattle.std.specs.Option.{option_map, is_some};
ghost use Rattle.strm_codes.specs.Layout.{item_type, is_number_payload};
ghost use Rattle.strm_codes.specs.ItemTypes.{item_size};
ghost use Rattle.strm_buffers.specs.Listing.{items_in, AreItemsKept};
ghost use Rattle.strm_tape.specs.Reading.{read_as, flag, all_answers, answer, room_of_number, read_room, items_as_written, region, read_item_list, read_writer_record, read_reader_record, typed_items};

use crate::parts::{are_bytes, byte, number, within};
use crate::writing::{put, put_zeros};
use std::alloc::Global;
use strm_buffers::answers::{Answer, ReaderSaid};
use strm_buffers::items::Items;
use strm_buffers::said::WriterSaid;
use strm_codes::counts::OutOfMemory;
use strm_codes::payloads::Payload;
use strm_memory::copies::copy_region;

// Yes or no, and what follows it.
#[tactic(auto, unfolding(crate::specs::Reading::flag))]
fn flag(bytes: &[u8]) -> Option<(bool, &[u8])>
    ensures { option_map (λ p. (p.0, p.1.now)) result ≡ flag bytes.now }
{
    let (found, rest) = byte(bytes)?;
    let flag = flag_at(found)?;
    Some((flag, rest))
}

// That of a place.
fn flag_at(place: u8) -> Option<bool>
    ensures { result ≡ slice_get (false ∷ true ∷ []) place }
{
    [false, true].get(usize::from(place)).copied()
}

// The answer of a place.
fn answer_at(place: u8) -> Option<Answer>
    ensures { result ≡ slice_get all_answers place }
{
    let all = [
        Answer::Pending,
        Answer::Completed,
        Answer::Cancelled,
        Answer::Dropped,
        Answer::Failed,
    ];
    all.get(usize::from(place)).copied()
}

// An answer, and what follows it.
#[tactic(auto, unfolding(crate::specs::Reading::answer))]
fn answer(bytes: &[u8]) -> Option<(Answer, &[u8])>
    ensures { option_map (λ p. (p.0, p.1.now)) result ≡ answer bytes.now }
{
    let (place, rest) = byte(bytes)?;
    let answer = answer_at(place)?;
    Some((answer, rest))
}

// The room that a number is.
fn room_of(number: u32) -> Option<Option<u32>>
    ensures { result ≡ room_of_number number }
{
    if number == 4_294_967_295 {
        Some(None)
    } else if number < 268_435_456 {
        Some(Some(number))
    } else {
        None
    }
}

// A room, and what follows it.
#[tactic(auto, unfolding(crate::specs::Reading::read_room))]
fn room(bytes: &[u8]) -> Option<(Option<u32>, &[u8])>
    ensures { option_map (λ p. (p.0, p.1.now)) result ≡ read_room bytes.now }
{
    let (found, rest) = number(bytes)?;
    let room = room_of(found)?;
    Some((room, rest))
}

// Writes so many items of these bytes over zeros: whether there are so many, and lie so in the bytes.
fn write_again(bytes: &[u8], payload: Payload, count: u32, written: &mut Vec<u8>) -> bool
    requires all { length bytes.now ≡ item_size (item_type payload) * count }
    requires zeros { written.old.items ≡ replicate (length bytes.now) 0 }
    requires few { count < 4294967295 }
    ensures kept { IsTrue result → AreItemsKept payload written.new.items 0 count }
    ensures exact { items_as_written (item_type payload) bytes.now count
        ≡ (if result then Some (items_in (item_type payload) written.new.items 0 count)
        else None) }
{
    are_bytes(bytes);
    match copy_region(bytes, 0, written.as_mut_slice(), 0, payload, count as usize) {
        Ok(()) => written.as_slice() == bytes,
        Err(_) => false,
    }
}

// The same of whole numbers: whatever they are, they lie so, and are written once.
fn fill_plain(
    bytes: &[u8],
    payload: Payload,
    count: u32,
    written: &mut Vec<u8>,
) -> Result<(), OutOfMemory>
    requires number { is_number_payload payload ≡ true }
    requires all { length bytes.now ≡ item_size (item_type payload) * count }
    requires empty { written.old.items ≡ [] }
    requires few { count < 4294967295 }
    ensures kept { OnOk result (AreItemsKept payload written.new.items 0 count) }
    ensures exact { OnOk result (items_as_written (item_type payload) bytes.now count
        ≡ Some (items_in (item_type payload) written.new.items 0 count)) }
{
    are_bytes(bytes);
    put(written, bytes)?;
    Ok(())
}

// The same over new zeros, of items of any payload.
fn fill(
    bytes: &[u8],
    payload: Payload,
    count: u32,
    written: &mut Vec<u8>,
) -> Result<bool, OutOfMemory>
    requires all { length bytes.now ≡ item_size (item_type payload) * count }
    requires empty { written.old.items ≡ [] }
    requires few { count < 4294967295 }
    ensures kept { IfOk result (λ same. IsTrue same →
        AreItemsKept payload written.new.items 0 count) }
    ensures exact { IfOk result (λ same. items_as_written (item_type payload) bytes.now count
        ≡ (if same then Some (items_in (item_type payload) written.new.items 0 count) else None)) }
{
    if payload.is_number() {
        fill_plain(bytes, payload, count, written)?;
        return Ok(true);
    }
    put_zeros(written, bytes.len())?;
    Ok(write_again(bytes, payload, count, written))
}

// The items that these bytes are, where they lie in them as they are written over zeros.
fn items_of_bytes(
    alloc: Global,
    payload: &Payload,
    count: u32,
    bytes: &[u8],
) -> Result<Option<Items>, OutOfMemory>
    requires all { length bytes.now ≡ item_size (item_type payload.now) * count }
    requires few { count < 4294967295 }
    ensures { IfOk result (λ found. found
        ≡ option_map (typed_items payload.now)
        (items_as_written (item_type payload.now) bytes.now count)) }
{
    let mut written = Vec::new(alloc);
    if !fill(bytes, *payload, count, &mut written)? {
        return Ok(None);
    }
    Ok(Some(Items::of_bytes(*payload, written, count as usize)))
}

// So many items, and what follows them.
#[tactic(auto, unfolding(crate::specs::Reading::region))]
fn region(
    alloc: Global,
    payload: Payload,
    count: u32,
    bytes: &[u8],
) -> Result<Option<(Items, &[u8])>, OutOfMemory>
    requires few { count < 4294967295 }
    ensures { IfOk result (λ found. option_map (λ p. (p.0, p.1.now)) found
        ≡ read_as (typed_items payload) (region (item_type payload) count) bytes.now) }
{
    let size = payload.size() as usize * count as usize;
    if bytes.len() < size {
        return Ok(None);
    }
    let (front, rest) = bytes.split_at(size);
    let Some(items) = items_of_bytes(alloc, &payload, count, front)? else {
        return Ok(None);
    };
    Ok(Some((items, rest)))
}

// Items behind their number, and what follows them.
#[tactic(auto, unfolding(crate::specs::Reading::read_item_list))]
fn items_of(
    alloc: Global,
    payload: Payload,
    bytes: &[u8],
) -> Result<Option<(Items, &[u8])>, OutOfMemory>
    ensures { IfOk result (λ found. option_map (λ p. (p.0, p.1.now)) found
        ≡ read_as (typed_items payload) (read_item_list (item_type payload)) bytes.now) }
{
    let Some((count, rest)) = number(bytes) else {
        return Ok(None);
    };
    if count < 4_294_967_295 {
        region(alloc, payload, count, rest)
    } else {
        Ok(None)
    }
}

// Whether these bytes are so many items, which are written again in the place of what was written.
fn are_items(
    bytes: &[u8],
    payload: Payload,
    count: u32,
    written: &mut Vec<u8>,
) -> Result<bool, OutOfMemory>
    requires all { length bytes.now ≡ item_size (item_type payload) * count }
    requires few { count < 4294967295 }
    ensures { IfOk result (λ good. good
        ≡ is_some (items_as_written (item_type payload) bytes.now count)) }
{
    if payload.is_number() {
        are_bytes(bytes);
        return Ok(true);
    }
    written.clear();
    fill(bytes, payload, count, written)
}

// What follows so many items.
#[inline(always)]
#[tactic(auto, unfolding(crate::specs::Reading::region))]
fn after_region<'a>(
    payload: Payload,
    count: u32,
    bytes: &'a [u8],
    written: &mut Vec<u8>,
) -> Result<Option<&'a [u8]>, OutOfMemory>
    requires few { count < 4294967295 }
    ensures { IfOk result (λ found. option_map (λ rest. rest.now) found
        ≡ option_map (λ p. p.1) (region (item_type payload) count bytes.now)) }
{
    let size = payload.size() as usize * count as usize;
    if bytes.len() < size {
        return Ok(None);
    }
    let (front, rest) = bytes.split_at(size);
    if are_items(front, payload, count, written)? {
        Ok(Some(rest))
    } else {
        Ok(None)
    }
}

// What follows items behind their number.
#[inline(always)]
#[tactic(auto, unfolding(crate::specs::Reading::read_item_list))]
fn after_items<'a>(
    payload: Payload,
    bytes: &'a [u8],
    written: &mut Vec<u8>,
) -> Result<Option<&'a [u8]>, OutOfMemory>
    ensures { IfOk result (λ found. option_map (λ rest. rest.now) found
        ≡ option_map (λ p. p.1) (read_item_list (item_type payload) bytes.now)) }
{
    let Some((count, rest)) = number(bytes) else {
        return Ok(None);
    };
    if count < 4_294_967_295 {
        after_region(payload, count, rest, written)
    } else {
        Ok(None)
    }
}

// What follows a record of a host writer of this payload. Items that are no numbers are written again
// in the place of what was written.
pub(crate) fn after_record<'a>(
    payload: Payload,
    bytes: &'a [u8],
    written: &mut Vec<u8>,
) -> Result<Option<&'a [u8]>, OutOfMemory>
    ensures { IfOk result (λ found. option_map (λ rest. rest.now) found
        ≡ option_map (λ p. p.1) (read_writer_record payload bytes.now)) }
{
    let Some((_, rest)) = room(bytes) else {
        return Ok(None);
    };
    let Some((_, rest)) = flag(rest) else {
        return Ok(None);
    };
    let Some(rest) = after_items(payload, rest, written)? else {
        return Ok(None);
    };
    let Some((_, rest)) = answer(rest) else {
        return Ok(None);
    };
    Ok(Some(rest))
}

// A record of a host writer of this payload, and what follows it.
pub(crate) fn writer_record(
    alloc: Global,
    payload: Payload,
    bytes: &[u8],
) -> Result<Option<(WriterSaid, &[u8])>, OutOfMemory>
    ensures { IfOk result (λ found. option_map (λ p. (p.0, p.1.now)) found
        ≡ read_writer_record payload bytes.now) }
{
    let Some((room, rest)) = room(bytes) else {
        return Ok(None);
    };
    let Some((finish, rest)) = flag(rest) else {
        return Ok(None);
    };
    let Some((items, rest)) = items_of(alloc, payload, rest)? else {
        return Ok(None);
    };
    let Some((answer, rest)) = answer(rest) else {
        return Ok(None);
    };
    Ok(Some((
        WriterSaid {
            room,
            finish,
            items,
            answer,
        },
        rest,
    )))
}

// A record of a host reader, and what follows it.
pub(crate) fn reader_record(bytes: &[u8]) -> Option<(ReaderSaid, &[u8])>
    ensures { option_map (λ p. (p.0, p.1.now)) result ≡ read_reader_record bytes.now }
{
    let (offered, rest) = number(bytes)?;
    let (since, rest) = number(rest)?;
    let (finish, rest) = flag(rest)?;
    let (taken, rest) = within(0, offered, rest)?;
    let (bad, rest) = flag(rest)?;
    let (answer, rest) = answer(rest)?;
    Some((
        ReaderSaid {
            offered,
            since,
            finish,
            taken,
            bad,
            answer,
        },
        rest,
    ))
}

//! Bytes that a window keeps, puts back and makes.
//!
//! Source: ours.

ghost use Rattle.std.specs.Prelude.{◌≡◌, ◌+◌, ◌<◌, ◌≤◌, length};
ghost use Rattle.strm_memory.specs.Linear.{with_contents};
ghost use Rattle.strm_memory.specs.Bytes.{put_at, IsBytes};
ghost use Rattle.strm_codes.specs.declared.payloads.Payload.TheVariants.{One};
ghost use Rattle.strm_codes.specs.declared.scalars.Scalar.TheVariants.{U8};
ghost use Rattle.strm_buffers.specs.Windows.{last_bytes, to_keep};
ghost use Rattle.strm_buffers.specs.Keeping.{end_kept, kept_after, space_needed};

use smallvec::SmallVec;
use strm_codes::payloads::Payload;
use strm_codes::scalars::Scalar;
use strm_memory::memories::GuestMemory;

// Bytes that a window keeps: up to 64 in the window itself.
pub(crate) type Kept = SmallVec<u8, 64>;

// How many bytes of a room may have to be kept: of another payload than u8 none.
#[inline(always)]
pub(crate) fn most_to_keep(payload: Payload, room: Option<u32>) -> usize
    ensures bytes { payload ≡ One U8 → result ≡ to_keep room }
    ensures others { 0 < result → payload ≡ One U8 }
    ensures room { result ≤ to_keep room }
{
    match (payload, room) {
        (Payload::One(Scalar::U8), Some(room)) => room as usize,
        _ => 0,
    }
}

// Where the bytes of a room end: at the room's end, or at that of all bytes.
pub(crate) fn end_of(address: usize, room: Option<u32>, len: usize) -> usize
    requires { end_kept address room len ≤ len }
    ensures { result ≡ end_kept address room len }
{
    match room {
        Some(room) => address + room as usize,
        None => len,
    }
}

// Keeps the bytes of a stated room, where none are kept yet.
pub(crate) fn keep(kept: &mut Kept, room: Option<u32>, bytes: &[u8])
    requires { space_needed room (length bytes.now) ≤ kept.old.capacity }
    ensures kept { kept.new.items ≡ kept_after room kept.old.items bytes.now }
    ensures space { kept.old.capacity ≤ kept.new.capacity }
{
    if room.is_none() || !kept.is_empty() {
        return;
    }
    match kept.extend_from_slice(bytes) {
        Ok(()) => {}
        Err(_) => unreachable!(),
    }
}

// The last so many of the bytes, or all of them.
pub(crate) fn last_of(bytes: &[u8], count: usize) -> &[u8]
    ensures { result.now ≡ last_bytes count bytes.now }
{
    bytes.split_at(bytes.len().saturating_sub(count)).1
}

// Writes bytes over others from a place on.
pub(crate) fn put_back(memory: &mut GuestMemory, from: usize, new: &[u8])
    requires { from + length new.now ≤ length memory.old.bytes }
    ensures { memory.new ≡ with_contents memory.old (put_at memory.old.bytes from new.now) }
{
    memory.bytes_mut()[from..from + new.len()].copy_from_slice(new);
}

// Each byte is below 256.
pub(crate) fn are_bytes(bytes: &[u8])
    ensures { IsBytes bytes.now }
{}

//! Who has an end of a stream, and how many streams have an end left.
//!
//! Meaning: `with_owner` of `Moves.antt` and `is_live` of `State.antt`, of `strm_machine`. Source:
//! Canonical ABI, `lift_stream`, `lower_stream` and `canon stream.drop-{readable,writable}`;
//! wasmtime, `host_drop_writer` and `host_drop_reader`. Ours: the count.

ghost use Rattle.std.specs.Prelude.{◌≡◌, ◌^◌, ◌<◌, length, count_by, slice_index_or, slice_set};
ghost use Rattle.strm_machine.specs.State.{is_host, is_live, no_stream};
ghost use Rattle.strm_machine.specs.Moves.{with_owner};

use crate::channels::Channel;
use strm_machine::streams::{Owner, Side};

/// Whether a host end has the end.
#[inline(always)]
pub fn is_host(owner: Owner) -> bool
    ensures { result ≡ is_host owner }
{
    matches!(owner, Owner::Host { .. })
}

/// Whether an end is there.
pub fn is_live(stream: &Channel) -> bool
    ensures { result ≡ is_live stream.now }
{
    stream.owner(Side::Writing) != Owner::Gone || stream.owner(Side::Reading) != Owner::Gone
}

/// The end on a side of a stream has another owner from now on; `live_streams` counts the streams of
/// which an end is there.
#[inline(always)]
pub fn set_owner(
    streams: &mut Vec<Channel>,
    live_streams: &mut u32,
    stream: usize,
    side: Side,
    owner: Owner,
)
    requires there { stream < length streams.old.items }
    requires few { length streams.old.items < 2 ^ 32 }
    requires counted { live_streams.old ≡ count_by is_live streams.old.items }
    ensures streams { streams.new.items ≡ slice_set streams.old.items stream
        (with_owner side (slice_index_or streams.old.items stream no_stream) owner) }
    ensures counted { live_streams.new ≡ count_by is_live streams.new.items }
{
    let given = &mut streams[stream];
    let was_live = is_live(given);
    given.set_owner(side, owner);
    *live_streams = *live_streams - u32::from(was_live) + u32::from(is_live(given));
}

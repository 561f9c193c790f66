//! Two guests' memories: bytes go from one to the other.

ghost use Rattle.std.specs.Prelude.{◌≡◌, ◌+◌, ◌≤◌, length, IsOk, OnOk, OnErr};
ghost use Rattle.strm_memory.specs.Linear.{with_contents};
ghost use Rattle.strm_memory.specs.Bytes.{put_at, bytes_at};

use strm_codes::counts::ItemCount;
use strm_codes::payloads::Payload;
use strm_codes::scalars::Scalar;
use strm_memory::memories::{GuestMemory, RegionError};

const BYTES: Payload = Payload::One(Scalar::U8);

/// Sends bytes from one guest's memory to another's. They arrive as they are, and all else there
/// stays, also where it lies; where one of the regions is not inside its memory, nothing changes.
pub fn send(
    writer: &GuestMemory,
    from: u32,
    reader: &mut GuestMemory,
    to: u32,
    count: ItemCount,
) -> Result<(), RegionError>
    ensures arrived { OnOk result (reader.new ≡ with_contents reader.old
        (put_at reader.old.bytes to (bytes_at writer.now.bytes from count))) }
    ensures inside { from + count ≤ length writer.now.bytes → to + count ≤ length reader.old.bytes
        → IsOk result }
    ensures refused { OnErr result (reader.new ≡ reader.old) }
{
    if count.equals_u32(0) {
        return Ok(());
    }
    writer.region(BYTES, from, count)?;
    reader.region(BYTES, to, count)?;
    match reader.receive(to, writer, from, BYTES, count) {
        Ok(()) => Ok(()),
        Err(_) => unreachable!(),
    }
}

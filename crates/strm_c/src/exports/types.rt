//! Types that hold other types.
//!
//! Ours.

ghost use Rattle.std.specs.Prelude.{◌≡◌, ◌≢◌, length};
ghost use Rattle.strm_c.specs.Payloads.{type_of_bytes, built_status, payload_at};

use crate::payloads::{built, payload_word};
use crate::statuses::{NO_TYPE, Status, TYPE_TOO_LONG};

const DONE: Status = 0;

/// Puts at `out` the payload that these words spell, each of them a byte: a type before the types that it holds,
/// as STRM_WORD_RESULT, STRM_WORD_NOTHING, STRM_WORD_ENUM(3). It is built once, and then passed as any other.
/// TYPE_TOO_LONG. NO_TYPE.
#[unsafe(no_mangle)]
pub extern "C" fn strm_type_of(words: &[u8], out: &mut u64) -> Status
    ensures status { result ≡ built_status words.now }
    ensures built { result ≡ 0 → payload_at out.new ≡ type_of_bytes words.now }
    ensures kept { result ≢ 0 → out.new ≡ out.old }
{
    if words.len() > 7 {
        return TYPE_TOO_LONG;
    }
    match built(words) {
        Some(payload) => {
            *out = payload_word(&payload);
            DONE
        }
        None => NO_TYPE,
    }
}

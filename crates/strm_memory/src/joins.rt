//! Bytes that lie one behind the other, as one vector.
//!
//! Ours: an engine lends more bytes behind those that it lent.

ghost use Rattle.std.specs.Prelude.{◌≡◌, ◌+◌, ◌^◌, ◌<◌, ◌++◌, length};
ghost use Rattle.std.specs.Vec.{vec_ptr};
ghost use denote.RawPtr.{◌+ₚ◌};

use std_alloc::vec::{Lodged, lodge};

// The same where there are bytes of both, the first of which lies there, and so many in all.
fn join_at(
    at: *mut u8,
    len: usize,
    front: Vec<u8, Lodged>,
    back: Vec<u8, Lodged>,
) -> Vec<u8, Lodged>
    requires { (at ≡ vec_ptr front) × (vec_ptr back ≡ vec_ptr front +ₚ length front.items)
        × (0 < length front.items) × (0 < length back.items)
        × (len ≡ length front.items + length back.items) × (len < 2 ^ 63) }
    ensures { (result.items ≡ front.items ++ back.items) × (vec_ptr result ≡ vec_ptr front) }
{
    let _front = front.dislodge();
    let _back = back.dislodge();
    unsafe { lodge(at, len, len) }
}

/// Bytes that others lie directly behind, with these. None of them is touched. Takes no memory.
pub(crate) fn join(mut front: Vec<u8, Lodged>, back: Vec<u8, Lodged>) -> Vec<u8, Lodged>
    requires behind { vec_ptr back ≡ vec_ptr front +ₚ length front.items }
    requires small { length front.items + length back.items < 2 ^ 63 }
    ensures items { result.items ≡ front.items ++ back.items }
    ensures place { vec_ptr result ≡ vec_ptr front }
{
    if back.is_empty() {
        return front;
    }
    if front.is_empty() {
        return back;
    }
    let at = front.as_mut_ptr();
    let len = front.len() + back.len();
    join_at(at, len, front, back)
}

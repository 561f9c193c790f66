//! A buffer emptied through one that doesn't tell its item's type.

ghost use Rattle.std.specs.Prelude.{◌≡◌, None};

use strm_buffers::values::{UntypedWriteBuffer, ValueBuffer};

/// Takes the item out, if there is one.
pub fn empty_untyped(buffer: &mut Option<u8>)
    ensures { buffer.new ≡ None }
{
    let mut untyped = UntypedWriteBuffer::new(buffer);
    match untyped.get_mut::<u8>() {
        Ok(typed) => {
            let count = ValueBuffer::remaining(typed);
            ValueBuffer::skip(typed, count);
        }
        Err(_) => unreachable!(),
    }
}

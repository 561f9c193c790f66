//! One field of an item: where it begins, and how it is lifted and lowered.
//!
//! Source: Canonical ABI, "Alignment", "Loading" and "Storing".

ghost use Rattle.std.specs.Prelude.{◌≡◌, ◌+◌, ◌^◌, ◌<◌, ◌≤◌, length, drop, IfSome};
ghost use Rattle.strm_codes.specs.Scalars.{size_of, FitsScalar};
ghost use Rattle.strm_codes.specs.Items.{IsNumber};
ghost use Rattle.strm_codes.specs.Offsets.{gap_before};
ghost use Rattle.strm_codes.specs.Fields.{end_offset};
ghost use Rattle.strm_memory.specs.Bytes.{le, to_le, put_at, bytes_at};
ghost use Rattle.strm_memory.specs.Numbers.{lifted, lowered};
ghost use Rattle.strm_memory.specs.FieldItems.{scalar_at};

use crate::numbers::{is_scalar_value, load_1, load_2, load_4, load_8, signed, store, unsigned};
use strm_codes::scalars::Scalar;

// Where a field begins, if the fields before it end at `at`.
pub(crate) fn field_start(fields: &[Scalar], k: usize, at: usize) -> usize
    requires inside { k < length fields.now }
    requires small { end_offset at (drop k fields.now) < 2 ^ 64 }
    ensures exact { result ≡ at + gap_before at (size_of (scalar_at fields.now k)) }
    ensures within { result + size_of (scalar_at fields.now k) ≤ end_offset at (drop k fields.now) }
{
    next_start(at, fields[k])
}

// Where a scalar begins that may begin at an offset. Its size is a power of two, so a mask will do.
fn next_start(at: usize, scalar: Scalar) -> usize
    requires { at + gap_before at (size_of scalar) + size_of scalar < 2 ^ 64 }
    ensures { result ≡ at + gap_before at (size_of scalar) }
{
    let size = scalar.size() as usize;
    let over = at & (size - 1);
    at + ((size - over) & (size - 1))
}

// The number that a field's bytes stand for.
pub(crate) fn lift_field(bytes: &[u8], at: usize, scalar: Scalar) -> Option<i128>
    requires { at + size_of scalar ≤ length bytes.now }
    ensures exact { result ≡ lifted scalar (le (bytes_at bytes.now at (size_of scalar))) }
    ensures range { IfSome result IsNumber }
{
    match scalar {
        Scalar::Bool => Some(i128::from(load_1(bytes, at).min(1))),
        Scalar::S8 => Some(signed(0x80, u64::from(load_1(bytes, at)))),
        Scalar::U8 => Some(i128::from(load_1(bytes, at))),
        Scalar::S16 => Some(signed(0x8000, u64::from(load_2(bytes, at)))),
        Scalar::U16 => Some(i128::from(load_2(bytes, at))),
        Scalar::S32 => Some(signed(0x8000_0000, u64::from(load_4(bytes, at)))),
        Scalar::U32 | Scalar::F32 => Some(i128::from(load_4(bytes, at))),
        Scalar::S64 => Some(signed(0x8000_0000_0000_0000, load_8(bytes, at))),
        Scalar::U64 | Scalar::F64 => Some(i128::from(load_8(bytes, at))),
        Scalar::Char => {
            let number = load_4(bytes, at);
            is_scalar_value(number).then_some(i128::from(number))
        }
    }
}

// A number stored in a field that it fits.
pub(crate) fn lower_field(bytes: &mut [u8], at: usize, scalar: Scalar, number: i128)
    requires fits { FitsScalar scalar number }
    requires holds { at + size_of scalar ≤ length bytes.old }
    ensures { bytes.new ≡ put_at bytes.old at (to_le (size_of scalar) (lowered scalar number)) }
{
    match scalar {
        Scalar::Bool | Scalar::U8 => store(bytes, at, 1, number as u64),
        Scalar::S8 => store(bytes, at, 1, unsigned(0x80, number)),
        Scalar::U16 => store(bytes, at, 2, number as u64),
        Scalar::S16 => store(bytes, at, 2, unsigned(0x8000, number)),
        Scalar::U32 | Scalar::Char | Scalar::F32 => store(bytes, at, 4, number as u64),
        Scalar::S32 => store(bytes, at, 4, unsigned(0x8000_0000, number)),
        Scalar::U64 | Scalar::F64 => store(bytes, at, 8, number as u64),
        Scalar::S64 => store(bytes, at, 8, unsigned(0x8000_0000_0000_0000, number)),
    }
}

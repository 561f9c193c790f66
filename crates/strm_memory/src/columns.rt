//! One field of many items: whether its bytes stand for numbers.
//!
//! Ours: it is faster to go on with the same field of the next item than with the next field, since
//! what a field needs is then decided once.

ghost use Rattle.std.specs.Prelude.{◌≡◌, ◌+◌, ◌*◌, ◌≤◌, length, drop};
ghost use Rattle.strm_codes.specs.Scalars.{size_of};
ghost use Rattle.strm_codes.specs.declared.scalars.Scalar.TheVariants.{Char};
ghost use Rattle.strm_memory.specs.Copies.{is_good_column};

use crate::numbers::{is_scalar_value, load_4};
use strm_codes::scalars::Scalar;

// The field at an offset of each of so many items of a size, in bytes.
#[derive(Clone, Copy)]
pub(crate) struct Column {
    pub(crate) start: usize,
    pub(crate) size: usize,
    pub(crate) count: usize,
}

// Whether this field's bytes stand for a number in each item.
pub(crate) fn is_good_column(source: &[u8], from: usize, scalar: Scalar, column: Column) -> bool
    requires inside { column.start + size_of scalar ≤ column.size }
    requires holds { from + column.size * column.count ≤ length source.now }
    ensures { result ≡
        is_good_column scalar column.start column.size (drop from source.now) column.count }
{
    match scalar {
        Scalar::Char => are_chars(source, from, column),
        _ => true,
    }
}

// The same of characters. With a constant size the compiler makes vector code of the loop.
#[inline(never)]
fn are_chars(source: &[u8], from: usize, column: Column) -> bool
    requires inside { column.start + 4 ≤ column.size }
    requires holds { from + column.size * column.count ≤ length source.now }
    ensures { result ≡
        is_good_column Char column.start column.size (drop from source.now) column.count }
{
    let Column { start, size, count } = column;
    if size == 4 {
        return are_scalar_values(
            source,
            from,
            Column {
                start: 0,
                size: 4,
                count,
            },
        );
    }
    are_scalar_values(source, from, Column { start, size, count })
}

#[inline(always)]
fn are_scalar_values(source: &[u8], from: usize, column: Column) -> bool
    requires inside { column.start + 4 ≤ column.size }
    requires holds { from + column.size * column.count ≤ length source.now }
    ensures { result ≡
        is_good_column Char column.start column.size (drop from source.now) column.count }
{
    let Column { start, size, count } = column;
    let mut good = true;
    let mut done = 0;
    for _k in 0..count {
        good &= is_scalar_value(load_4(source, from + done + start));
        done += size;
    }
    good
}

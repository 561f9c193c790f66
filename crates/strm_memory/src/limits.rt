//! Items copied byte by byte, each byte under a limit: 255 for one that is copied as it is, 1 for a flag,
//! and 0 for padding, which stays.
//!
//! Ours: the limits of some items that fill whole vectors are found once for each copy, and then a
//! vector of bytes is copied by one minimum and one choice, whatever fields it holds.

ghost use Rattle.std.specs.Prelude.{◌≡◌, ◌+◌, ◌-◌, ◌*◌, ◌<◌, ◌≤◌, ◌++◌, length, take, drop, replicate};
ghost use Rattle.strm_codes.specs.Fields.{end_offset, fields_size};
ghost use Rattle.strm_memory.specs.Bytes.{bytes_at, put_at};
ghost use Rattle.strm_memory.specs.Copies.{blended, blended_on, copied, limit_bytes, limits_from, repeated};

use crate::fields::field_start;
use std::simd::Simd;
use std::simd::prelude::*;
use strm_codes::scalars::Scalar;

// The limits that are kept: those of whole items that fill up to seven vectors, and what is stored behind
// the last of them.
const ROOM: usize = 176;

// Copies items that are known to be good.
pub(crate) fn copy_good_items(
    source: &[u8],
    from: usize,
    destination: &mut [u8],
    to: usize,
    fields: &[Scalar],
    size: usize,
    count: usize,
)
    requires size { size ≡ fields_size fields.now }
    requires most { size ≤ 64 }
    requires source_holds { from + size * count ≤ length source.now }
    requires destination_holds { to + size * count ≤ length destination.old }
    ensures { destination.new ≡ take to destination.old
        ++ copied fields.now (drop from source.now) (drop to destination.old) count }
{
    let mut limits = [0u8; ROOM];
    limit_fields(fields, &mut limits);
    let items = items_in_period(size);
    repeat_item(&mut limits, size, items);
    blend_items(&limits, source, from, destination, to, size, items, count);
}

// Copies so many items under the limits of the first, which so many items repeat. With a constant
// length the compiler holds the limits in registers.
fn blend_items(
    limits: &[u8],
    source: &[u8],
    from: usize,
    destination: &mut [u8],
    to: usize,
    size: usize,
    items: usize,
    count: usize,
)
    requires some { 1 ≤ items }
    requires limits_hold { size * items ≤ length limits.now }
    requires period { take (size * items) limits.now ≡ repeated items (take size limits.now) }
    requires source_holds { from + size * count ≤ length source.now }
    requires destination_holds { to + size * count ≤ length destination.old }
    ensures { destination.new ≡ take to destination.old
        ++ blended (repeated count (take size limits.now))
        (drop from source.now) (drop to destination.old) }
{
    match size * items {
        16 => blend_periods(
            limits,
            16,
            source,
            from,
            destination,
            to,
            size,
            items,
            count,
        ),
        48 => blend_periods(
            limits,
            48,
            source,
            from,
            destination,
            to,
            size,
            items,
            count,
        ),
        80 => blend_periods(
            limits,
            80,
            source,
            from,
            destination,
            to,
            size,
            items,
            count,
        ),
        len => blend_periods(
            limits,
            len,
            source,
            from,
            destination,
            to,
            size,
            items,
            count,
        ),
    }
}

#[inline(always)]
pub(crate) fn blend_periods(
    limits: &[u8],
    len: usize,
    source: &[u8],
    from: usize,
    destination: &mut [u8],
    to: usize,
    size: usize,
    items: usize,
    count: usize,
)
    requires some { 1 ≤ items }
    requires len { len ≡ size * items }
    requires limits_hold { len ≤ length limits.now }
    requires period { take len limits.now ≡ repeated items (take size limits.now) }
    requires source_holds { from + size * count ≤ length source.now }
    requires destination_holds { to + size * count ≤ length destination.old }
    ensures { destination.new ≡ take to destination.old
        ++ blended (repeated count (take size limits.now))
        (drop from source.now) (drop to destination.old) }
{
    let mut done = 0;
    while count - done >= items {
        blend_front(
            limits,
            len,
            source,
            from + size * done,
            destination,
            to + size * done,
        );
        done += items;
    }
    blend_front(
        limits,
        size * (count - done),
        source,
        from + size * done,
        destination,
        to + size * done,
    );
}

// Copies so many bytes, each under its limit.
#[inline(always)]
fn blend_front(
    limits: &[u8],
    len: usize,
    source: &[u8],
    from: usize,
    destination: &mut [u8],
    to: usize,
)
    requires limits_hold { len ≤ length limits.now }
    requires source_holds { from + len ≤ length source.now }
    requires destination_holds { to + len ≤ length destination.old }
    ensures { destination.new ≡ take to destination.old
        ++ blended (take len limits.now) (drop from source.now) (drop to destination.old) }
{
    let done = blend_vectors::<16>(limits, len, source, from, destination, to, 0);
    let done = blend_vectors::<8>(limits, len, source, from, destination, to, done);
    let _done = blend_vectors::<1>(limits, len, source, from, destination, to, done);
}

// Goes on with whole vectors: how many bytes are done then.
#[inline(always)]
fn blend_vectors<const N: usize>(
    limits: &[u8],
    len: usize,
    source: &[u8],
    from: usize,
    destination: &mut [u8],
    to: usize,
    at: usize,
) -> usize
    requires some { 1 ≤ N }
    requires inside { at ≤ len }
    requires limits_hold { len ≤ length limits.now }
    requires source_holds { from + len ≤ length source.now }
    requires destination_holds { to + len ≤ length destination.old }
    ensures most { result ≤ len }
    ensures few { len < result + N }
    ensures rest { blended_on (drop result (take len limits.now)) source.now (from + result)
        (to + result) destination.new
        ≡ blended_on (drop at (take len limits.now)) source.now (from + at) (to + at)
        destination.old }
{
    let mut done = at;
    while len - done >= N {
        blend_lanes::<N>(limits, done, source, from + done, destination, to + done);
        done += N;
    }
    done
}

// Copies a vector of bytes, each under its limit.
#[inline(always)]
fn blend_lanes<const N: usize>(
    limits: &[u8],
    at: usize,
    source: &[u8],
    from: usize,
    destination: &mut [u8],
    to: usize,
)
    requires limits_hold { at + N ≤ length limits.now }
    requires source_holds { from + N ≤ length source.now }
    requires destination_holds { to + N ≤ length destination.old }
    ensures { destination.new
        ≡ blended_on (bytes_at limits.now at N) source.now from to destination.old }
{
    let limits = Simd::<u8, N>::from_slice(&limits[at..]);
    let others = Simd::<u8, N>::from_slice(&source[from..]).simd_min(limits);
    let bytes = Simd::<u8, N>::from_slice(&destination[to..]);
    let stays = limits.simd_eq(Simd::splat(0));
    stays
        .select(bytes, others)
        .copy_to_slice(&mut destination[to..]);
}

// How many items fill whole vectors, for each size that items have, with up to seven vectors.
fn items_in_period(size: usize) -> usize
    requires { size ≤ 64 }
    ensures some { 1 ≤ result }
    ensures few { size * result ≤ 112 }
{
    match size {
        1 | 3 | 5 | 7 => 16,
        2 | 6 | 10 | 14 => 8,
        4 | 12 | 20 | 28 => 4,
        8 | 24 | 40 | 56 => 2,
        _ => 1,
    }
}

// Writes the limits of an item, where all are 0.
fn limit_fields(fields: &[Scalar], limits: &mut [u8])
    requires small { end_offset 0 fields.now ≤ 64 }
    requires zeros { limits.old ≡ replicate 176 0 }
    ensures { limits.new ≡ limits_from 0 fields.now ++ replicate (176 - end_offset 0 fields.now) 0 }
{
    let mut at = 0;
    for k in 0..fields.len() {
        let scalar = fields[k];
        let start = field_start(fields, k, at);
        limit_field(limits, start, scalar);
        at = start + scalar.size() as usize;
    }
}

// Writes the limits of a field, and 0 behind them.
fn limit_field(limits: &mut [u8], start: usize, scalar: Scalar)
    requires { start + 8 ≤ length limits.old }
    ensures { limits.new ≡ put_at limits.old start (limit_bytes scalar) }
{
    Simd::<u8, 8>::from_array(limits_of(scalar)).copy_to_slice(&mut limits[start..]);
}

fn limits_of(scalar: Scalar) -> [u8; 8]
    ensures { result ≡ limit_bytes scalar }
{
    let word = match scalar {
        Scalar::Bool => 1u64,
        Scalar::S8 | Scalar::U8 => 0xff,
        Scalar::S16 | Scalar::U16 => 0xffff,
        Scalar::S32 | Scalar::U32 | Scalar::Char | Scalar::F32 => 0xffff_ffff,
        Scalar::S64 | Scalar::U64 | Scalar::F64 => 0xffff_ffff_ffff_ffff,
    };
    word.to_le_bytes()
}

// Repeats the limits of an item, so that they stand there so many times.
fn repeat_item(limits: &mut [u8], size: usize, items: usize)
    requires some { 1 ≤ items }
    requires most { size ≤ 64 }
    requires room { size * items + 64 ≤ length limits.old + size }
    ensures len { length limits.new ≡ length limits.old }
    ensures item { take size limits.new ≡ take size limits.old }
    ensures period { take (size * items) limits.new ≡ repeated items (take size limits.old) }
{
    if size <= 16 {
        repeat_limits::<16>(limits, size, items);
    } else {
        repeat_limits::<64>(limits, size, items);
    }
}

// The same with a vector that holds an item.
#[inline(always)]
fn repeat_limits<const N: usize>(limits: &mut [u8], size: usize, items: usize)
    requires some { 1 ≤ items }
    requires small { N ≤ 64 }
    requires whole { size ≤ N }
    requires room { size * items + N ≤ length limits.old + size }
    ensures len { length limits.new ≡ length limits.old }
    ensures item { take size limits.new ≡ take size limits.old }
    ensures period { take (size * items) limits.new ≡ repeated items (take size limits.old) }
{
    let front = Simd::<u8, N>::from_slice(limits);
    let mut at = size;
    for _k in 1..items {
        store_lanes(limits, at, front);
        at += size;
    }
}

#[inline(always)]
fn store_lanes<const N: usize>(bytes: &mut [u8], at: usize, lanes: Simd<u8, N>)
    requires whole { length lanes ≡ N }
    requires holds { at + N ≤ length bytes.old }
    ensures { bytes.new ≡ put_at bytes.old at lanes.entry }
{
    lanes.copy_to_slice(&mut bytes[at..]);
}

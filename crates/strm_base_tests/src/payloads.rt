//! Sizes and alignments of worked payloads, and what a payload takes itself.

use crate::answers::is;
use std::process::Abort;
use strm_codes::payloads::{Payload, Shape};
use strm_codes::scalars::Scalar;

const _: () = prove!(size_of::<Payload>() <= 36);

/// Nothing where there is no such tuple.
pub(crate) fn tuple(fields: &[Scalar]) -> Payload {
    match Shape::new(fields) {
        Some(shape) => Payload::Tuple(shape),
        None => Payload::Nothing,
    }
}

pub(crate) fn has_layout(rt: &impl Abort, payload: Payload, size: u32, align: u8) {
    let align = u32::from(align);
    is(rt, payload.size(), size);
    is(rt, payload.align(), align);
    is(rt, payload.is_aligned(64 + align), true);
    is(rt, payload.is_aligned(0), true);
    is(rt, payload.is_aligned(align / 2), align == 1);
}

#[test]
fn tuples_are_padded(rt: HostRuntime) {
    has_layout(&rt, tuple(&[Scalar::U8]), 1, 1);
    has_layout(&rt, tuple(&[Scalar::U8, Scalar::U16, Scalar::U8]), 6, 2);
    has_layout(&rt, tuple(&[Scalar::U8, Scalar::U32]), 8, 4);
    has_layout(&rt, tuple(&[Scalar::U32, Scalar::U8]), 8, 4);
    has_layout(&rt, tuple(&[Scalar::Char, Scalar::Bool, Scalar::S16]), 8, 4);
    has_layout(&rt, tuple(&[Scalar::U8, Scalar::S64, Scalar::U8]), 24, 8);
    has_layout(&rt, tuple(&[Scalar::U8, Scalar::F64, Scalar::F32]), 24, 8);
    has_layout(&rt, tuple(&[Scalar::U64; 8]), 64, 8);
    has_layout(&rt, tuple(&[Scalar::Bool; 8]), 8, 1);
    has_layout(&rt, Payload::One(Scalar::S64), 8, 8);
    has_layout(&rt, Payload::One(Scalar::F32), 4, 4);
    has_layout(&rt, Payload::Nothing, 0, 1);
}

//! Sums of bytes: a run tells them, so that what it moved is looked at.

/// The sum of the bytes, modulo 2^64.
pub(crate) fn sum_of(bytes: &[u8]) -> u64 {
    let mut total = 0u64;
    for k in 0..bytes.len() {
        total = total.wrapping_add(u64::from(bytes[k]));
    }
    total
}

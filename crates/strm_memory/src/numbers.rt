//! Whole numbers in bytes, the least byte first.
//!
//! Source: Canonical ABI, `load_int`, `store_int` and `convert_i32_to_char`.

ghost use Rattle.std.specs.Prelude.{◌≡◌, ◌+◌, ◌*◌, ◌^◌, ◌<◌, ◌≤◌, length};
ghost use Rattle.strm_codes.specs.Scalars.{is_scalar_value, IsSignedBelow};
ghost use Rattle.strm_memory.specs.Bytes.{le, to_le, put_at, bytes_at, IsBytes};
ghost use Rattle.strm_memory.specs.Numbers.{signed_of, unsigned_of};

// Each number of a memory is a byte: what a caller knows of a memory that it is about to change.
pub(crate) fn hold_bytes(bytes: &[u8])
    ensures { IsBytes bytes.now }
{}

pub(crate) fn load_1(bytes: &[u8], at: usize) -> u8
    requires { at + 1 ≤ length bytes.now }
    ensures { result ≡ le (bytes_at bytes.now at 1) }
{
    bytes[at]
}

#[tactic(auto, using(crate::proofs::ByteLemmas::halves_1))]
pub(crate) fn load_2(bytes: &[u8], at: usize) -> u16
    requires { at + 2 ≤ length bytes.now }
    ensures { result ≡ le (bytes_at bytes.now at 2) }
{
    let low = load_1(bytes, at);
    let high = load_1(bytes, at + 1);
    u16::from(low) + 0x100 * u16::from(high)
}

#[tactic(auto, using(crate::proofs::ByteLemmas::halves_2))]
pub(crate) fn load_4(bytes: &[u8], at: usize) -> u32
    requires { at + 4 ≤ length bytes.now }
    ensures { result ≡ le (bytes_at bytes.now at 4) }
{
    let low = load_2(bytes, at);
    let high = load_2(bytes, at + 2);
    u32::from(low) + 0x1_0000 * u32::from(high)
}

#[tactic(auto, using(crate::proofs::ByteLemmas::halves_4))]
pub(crate) fn load_8(bytes: &[u8], at: usize) -> u64
    requires { at + 8 ≤ length bytes.now }
    ensures { result ≡ le (bytes_at bytes.now at 8) }
{
    let low = load_4(bytes, at);
    let high = load_4(bytes, at + 4);
    u64::from(low) + 0x1_0000_0000 * u64::from(high)
}

pub(crate) fn store(bytes: &mut [u8], at: usize, width: usize, number: u64)
    requires { at + width ≤ length bytes.old }
    ensures { bytes.new ≡ put_at bytes.old at (to_le width number) }
{
    let mut rest = number;
    for k in 0..width {
        bytes[at + k] = (rest % 256) as u8;
        rest /= 256;
    }
}

// The number that bytes stand for in two's complement.
pub(crate) fn signed(half: u64, number: u64) -> i128
    requires { number < 2 * half }
    ensures { result ≡ signed_of half number }
{
    if number < half {
        i128::from(number)
    } else {
        i128::from(number) - 2 * i128::from(half)
    }
}

// The bytes of a number in two's complement.
pub(crate) fn unsigned(half: u64, number: i128) -> u64
    requires small { half ≤ 2 ^ 63 }
    requires within { IsSignedBelow half number }
    ensures { result ≡ unsigned_of (2 * half) number }
{
    if number < 0 {
        (number + 2 * i128::from(half)) as u64
    } else {
        number as u64
    }
}

pub(crate) fn is_scalar_value(number: u32) -> bool
    ensures { result ≡ is_scalar_value number }
{
    number < 0xD800 || (number > 0xDFFF && number < 0x11_0000)
}

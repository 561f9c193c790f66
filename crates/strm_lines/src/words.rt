//! Words of a line, each read exactly as the grammar spells it.
//!
//! Source: ours.

ghost use Rattle.std.specs.Prelude.{◌≡◌, ◌∷◌, ◌++◌, ◌+◌, ◌-◌, ◌*◌, ◌%◌, ◌^◌, ◌≤◌, ◌<◌, true, false, IsTrue, length, drop, codes, slice_index_or, SomeIff, IfSome, Some, None};
ghost use Rattle.strm_lines.specs.Words.{scalar_word};
ghost use Rattle.std.specs.Option.{option_map};
ghost use Rattle.memchr.specs.Find.{IsFirstByte, is_byte};
ghost use Rattle.strm_lines.specs.Reading.{behind, cut_at, early, late, named_among, scalar_read, fields_read, shape_read, named_payload, payload_read, leading, is_digit, decimal_number, read_to, number_within, nibble, pairs_from, hex, type_read};

use crate::type_words::compound;
use memchr::memchr_iter;
use strm_codes::codes::TransmitIndex;
use strm_codes::payloads::{Payload, Shape};
use strm_codes::scalars::Scalar;
use strm_machine::chunks::Chunk;

/// What follows these bytes at the front of a line.
#[inline(always)]
#[tactic(auto, unfolding(crate::specs::Reading::behind))]
pub fn behind<'a, const N: usize>(line: &'a [u8], front: &[u8; N]) -> Option<&'a [u8]>
    ensures { option_map (λ rest. rest.now) result ≡ behind front.now line.now }
{
    let (first, rest) = line.split_first_chunk::<N>()?;
    if *first == *front { Some(rest) } else { None }
}

/// What follows these bytes, and then those, at the front of a line. Two comparisons of at most eight
/// bytes each take less than one of more.
#[inline(always)]
#[tactic(auto, using(crate::proofs::ReadingLemmas::behind_none, crate::proofs::ReadingLemmas::behind_more))]
pub(crate) fn behind_both<'a, const N: usize, const M: usize>(
    line: &'a [u8],
    front: &[u8; N],
    back: &[u8; M],
) -> Option<&'a [u8]>
    ensures { option_map (λ rest. rest.now) result ≡ behind (front.now ++ back.now) line.now }
{
    let rest = behind(line, front)?;
    behind(rest, back)
}

// A number with one more digit behind it, where that is below 2^32.
#[inline(always)]
fn with_digit(number: u32, digit: u8) -> Option<u32>
    requires { is_digit digit ≡ true }
    ensures { SomeIff result (10 * number + (digit - 48) < 2 ^ 32) (10 * number + (digit - 48)) }
{
    let next = 10 * u64::from(number) + u64::from(digit - b'0');
    if next < 1 << 32 {
        Some(next as u32)
    } else {
        None
    }
}

// A number in decimal, below 2^32 and without leading zeros.
#[inline(always)]
#[tactic(auto, using(crate::proofs::NumberLemmas::one_digit))]
pub(crate) fn number(word: &[u8]) -> Option<u32>
    ensures { result ≡ decimal_number word.now }
{
    // Most have one digit.
    if word.len() == 1 && word[0].is_ascii_digit() {
        return Some(u32::from(word[0] - b'0'));
    }
    any_number(word)
}

// The same, whatever its length.
#[tactic(auto, unfolding(crate::specs::Reading::decimal_number, crate::specs::Reading::digits_from))]
fn any_number(word: &[u8]) -> Option<u32>
    ensures { result ≡ decimal_number word.now }
{
    if word.is_empty() || (word[0] == b'0' && word.len() > 1) {
        return None;
    }
    let mut number = 0u32;
    for byte in word {
        if !byte.is_ascii_digit() {
            return None;
        }
        let Some(next) = with_digit(number, *byte) else {
            return None;
        };
        number = next;
    }
    Some(number)
}

/// A number from `low` to `high`, in decimal and without leading zeros.
#[tactic(auto, unfolding(crate::specs::Reading::number_within))]
pub fn number_within(word: &[u8], low: u32, high: u32) -> Option<u32>
    ensures { result ≡ number_within low high word.now }
{
    let number = number(word)?;
    if low <= number && number <= high {
        Some(number)
    } else {
        None
    }
}

// Whether a number can stand before a first space: a digit does, a zero alone.
fn may_begin_number(line: &[u8]) -> bool
    ensures no { result ≡ false → leading decimal_number line.now ≡ None }
    ensures yes { IsTrue result → leading decimal_number line.now ≡ read_to 0 line.now }
{
    if line.len() < 2 {
        return false;
    }
    if !line[0].is_ascii_digit() {
        return false;
    }
    line[0] != b'0' || line[1] == b' '
}

// The number before the first space, and what follows it.
#[inline(always)]
pub(crate) fn leading_number(line: &[u8]) -> Option<(u32, &[u8])>
    ensures { option_map (λ p. (p.0, p.1.now)) result ≡ leading decimal_number line.now }
{
    // Most have one digit.
    if line.len() >= 2 && line[0].is_ascii_digit() && line[1] == b' ' {
        let (_, rest) = line.split_at(2);
        return Some((u32::from(line[0] - b'0'), rest));
    }
    leading_any_number(line)
}

// The same, whatever its length.
#[inline(never)]
fn leading_any_number(line: &[u8]) -> Option<(u32, &[u8])>
    ensures { option_map (λ p. (p.0, p.1.now)) result ≡ leading decimal_number line.now }
{
    if !may_begin_number(line) {
        return None;
    }
    let mut number = 0u32;
    for k in 0..line.len() {
        let byte = line[k];
        if !byte.is_ascii_digit() {
            return behind_number(number, line, k);
        }
        let Some(next) = with_digit(number, byte) else {
            return None;
        };
        number = next;
    }
    None
}

// A number that ends at this place, where a space does.
#[inline(always)]
fn behind_number(number: u32, line: &[u8], at: usize) -> Option<(u32, &[u8])>
    requires inside { at < length line.now }
    requires digit { is_digit (slice_index_or line.now at 0) ≡ false }
    ensures { option_map (λ p. (p.0, p.1.now)) result ≡ read_to number (drop at line.now) }
{
    if line[at] != b' ' {
        return None;
    }
    let (_, rest) = line.split_at(at + 1);
    Some((number, rest))
}

// Where the first such byte is. It is looked for among the nearest first.
fn place_of(byte: u8, bytes: &[u8]) -> Option<usize>
    ensures { IsFirstByte (is_byte byte) bytes.now result }
{
    memchr_iter(byte, bytes).next()
}

/// What comes before and after the first such byte.
#[inline(always)]
pub fn cut(byte: u8, bytes: &[u8]) -> Option<(&[u8], &[u8])>
    ensures { option_map (λ p. (p.0.now, p.1.now)) result ≡ cut_at byte bytes.now }
{
    let at = place_of(byte, bytes)?;
    let (front, _) = bytes.split_at(at);
    let (_, rest) = bytes.split_at(at + 1);
    Some((front, rest))
}

// A scalar of the first half, by its name.
fn early_scalar(word: &[u8]) -> Option<Scalar>
    ensures { result ≡ named_among early word.now }
{
    if word == b"bool".as_slice() {
        Some(Scalar::Bool)
    } else if word == b"s8".as_slice() {
        Some(Scalar::S8)
    } else if word == b"u8".as_slice() {
        Some(Scalar::U8)
    } else if word == b"s16".as_slice() {
        Some(Scalar::S16)
    } else if word == b"u16".as_slice() {
        Some(Scalar::U16)
    } else {
        None
    }
}

// A scalar of the second half.
fn late_scalar(word: &[u8]) -> Option<Scalar>
    ensures { result ≡ named_among late word.now }
{
    if word == b"s32".as_slice() {
        Some(Scalar::S32)
    } else if word == b"u32".as_slice() {
        Some(Scalar::U32)
    } else if word == b"s64".as_slice() {
        Some(Scalar::S64)
    } else if word == b"u64".as_slice() {
        Some(Scalar::U64)
    } else if word == b"char".as_slice() {
        Some(Scalar::Char)
    } else if word == b"f32".as_slice() {
        Some(Scalar::F32)
    } else if word == b"f64".as_slice() {
        Some(Scalar::F64)
    } else {
        None
    }
}

// A scalar, by its name.
#[tactic(auto, unfolding(crate::specs::Reading::scalar_read))]
pub(crate) fn scalar(word: &[u8]) -> Option<Scalar>
    ensures { result ≡ scalar_read word.now }
{
    match early_scalar(word) {
        Some(scalar) => Some(scalar),
        None => late_scalar(word),
    }
}

// One to eight scalars, separated by commas.
fn fields(word: &[u8]) -> Option<Shape>
    ensures { result ≡ fields_read 8 word.now }
{
    let mut scalars = [Scalar::Bool; 8];
    let mut rest = word;
    for k in 0..8usize {
        let Some((first, after)) = cut(b',', rest) else {
            let Some(last) = scalar(rest) else {
                return None;
            };
            scalars[k] = last;
            return Shape::new(&scalars[..k + 1]);
        };
        let Some(field) = scalar(first) else {
            return None;
        };
        scalars[k] = field;
        rest = after;
    }
    None
}

// The fields of a tuple, behind its first parenthesis: the second ends the word.
#[tactic(auto, unfolding(crate::specs::Reading::shape_read))]
fn shape(rest: &[u8]) -> Option<Shape>
    ensures { result ≡ shape_read rest.now }
{
    let (inside, after) = cut(b')', rest)?;
    if !after.is_empty() {
        return None;
    }
    fields(inside)
}

// A scalar, or a type that holds other types.
#[tactic(auto, unfolding(crate::specs::Reading::named_payload))]
fn simple_or_compound(word: &[u8]) -> Option<Payload>
    ensures { result ≡ named_payload word.now }
{
    match scalar(word) {
        Some(scalar) => Some(Payload::One(scalar)),
        None => match compound(word) {
            Some(compound) => Some(Payload::Compound(compound)),
            None => None,
        },
    }
}

// Nothing, a tuple of scalars, a scalar, or a type that holds other types.
#[tactic(auto, unfolding(crate::specs::Reading::payload_read))]
fn payload(word: &[u8]) -> Option<Payload>
    ensures { result ≡ payload_read word.now }
{
    if word == b"none".as_slice() {
        return Some(Payload::Nothing);
    }
    match behind(word, b"(") {
        Some(rest) => shape(rest).map(Payload::Tuple),
        None => simple_or_compound(word),
    }
}

// The type that a word spells.
#[inline(always)]
pub(crate) fn transmit_type(word: &[u8]) -> Option<TransmitIndex>
    ensures { result ≡ type_read word.now }
{
    // Most lines name this type.
    if let Some(rest) = behind_both(word, b"stream:u", b"8") {
        if rest.is_empty() {
            return Some(TransmitIndex::Stream(Payload::One(Scalar::U8)));
        }
    }
    other_type(word)
}

// The same of any type of a stream or future: a kind, a colon and a payload.
#[tactic(auto, unfolding(crate::specs::Reading::type_read))]
fn other_type(word: &[u8]) -> Option<TransmitIndex>
    ensures { result ≡ type_read word.now }
{
    if let Some(rest) = behind(word, b"stream:") {
        return payload(rest).map(TransmitIndex::Stream);
    }
    match behind(word, b"future:") {
        Some(rest) => payload(rest).map(TransmitIndex::Future),
        None => None,
    }
}

// The type before the first space, and what follows it.
#[inline(always)]
pub(crate) fn leading_type(line: &[u8]) -> Option<(TransmitIndex, &[u8])>
    ensures { option_map (λ p. (p.0, p.1.now)) result ≡ leading type_read line.now }
{
    // Most lines name this type.
    match behind_both(line, b"stream:u", b"8 ") {
        Some(rest) => Some((TransmitIndex::Stream(Payload::One(Scalar::U8)), rest)),
        None => leading_other_type(line),
    }
}

// The same of any type.
#[inline(never)]
fn leading_other_type(line: &[u8]) -> Option<(TransmitIndex, &[u8])>
    ensures { option_map (λ p. (p.0, p.1.now)) result ≡ leading type_read line.now }
{
    match leading_number_type(line) {
        Some(found) => Some(found),
        None => leading_any_type(line),
    }
}

// A type of whole numbers before the first space, and what follows it. Of any other nothing is said.
#[inline(always)]
fn leading_number_type(line: &[u8]) -> Option<(TransmitIndex, &[u8])>
    ensures { IfSome result (λ p. leading type_read line.now ≡ Some (p.0, p.1.now)) }
{
    if let Some(rest) = behind(line, b"future:u") {
        let (scalar, rest) = unsigned_behind(rest)?;
        Some((TransmitIndex::Future(Payload::One(scalar)), rest))
    } else if let Some(rest) = behind(line, b"stream:u") {
        let (scalar, rest) = unsigned_behind(rest)?;
        Some((TransmitIndex::Stream(Payload::One(scalar)), rest))
    } else if let Some(rest) = behind(line, b"future:s") {
        let (scalar, rest) = signed_behind(rest)?;
        Some((TransmitIndex::Future(Payload::One(scalar)), rest))
    } else {
        let rest = behind(line, b"stream:s")?;
        let (scalar, rest) = signed_behind(rest)?;
        Some((TransmitIndex::Stream(Payload::One(scalar)), rest))
    }
}

// The unsigned scalar of this width before a space, and what follows that.
#[inline(always)]
fn unsigned_behind(line: &[u8]) -> Option<(Scalar, &[u8])>
    ensures { IfSome result (λ p. codes "u" ++ line.now ≡ scalar_word p.0 ++ 32 ∷ p.1.now) }
{
    if let Some(rest) = behind(line, b"32 ") {
        Some((Scalar::U32, rest))
    } else if let Some(rest) = behind(line, b"64 ") {
        Some((Scalar::U64, rest))
    } else if let Some(rest) = behind(line, b"16 ") {
        Some((Scalar::U16, rest))
    } else {
        let rest = behind(line, b"8 ")?;
        Some((Scalar::U8, rest))
    }
}

// The same of a signed one.
#[inline(always)]
fn signed_behind(line: &[u8]) -> Option<(Scalar, &[u8])>
    ensures { IfSome result (λ p. codes "s" ++ line.now ≡ scalar_word p.0 ++ 32 ∷ p.1.now) }
{
    if let Some(rest) = behind(line, b"32 ") {
        Some((Scalar::S32, rest))
    } else if let Some(rest) = behind(line, b"64 ") {
        Some((Scalar::S64, rest))
    } else if let Some(rest) = behind(line, b"16 ") {
        Some((Scalar::S16, rest))
    } else {
        let rest = behind(line, b"8 ")?;
        Some((Scalar::S8, rest))
    }
}

// Any type before the first space, and what follows it.
#[tactic(auto, unfolding(crate::specs::Reading::leading))]
fn leading_any_type(line: &[u8]) -> Option<(TransmitIndex, &[u8])>
    ensures { option_map (λ p. (p.0, p.1.now)) result ≡ leading type_read line.now }
{
    let (word, rest) = cut(b' ', line)?;
    let ty = other_type(word)?;
    Some((ty, rest))
}

// What a lower-case hexadecimal digit stands for, and 16 for any other byte.
fn nibble(byte: u8) -> u8
    ensures most { result ≤ 16 }
    ensures digit { result < 16 → nibble byte ≡ Some result }
    ensures other { 16 ≤ result → nibble byte ≡ None }
{
    match byte {
        b'0'..=b'9' => byte - b'0',
        b'a'..=b'f' => byte - b'a' + 10,
        _ => 16,
    }
}

// The bytes that pairs of lower-case hexadecimal digits stand for. Other bytes are looked for once,
// at the end, so that the loop has no branch that depends on the digits.
fn pairs(word: &[u8]) -> Option<Chunk>
    requires few { length word.now ≤ 128 }
    requires even { length word.now % 2 ≡ 0 }
    ensures { result ≡ pairs_from word.now }
{
    let mut bytes = [0u8; 64];
    let mut worst = 0u8;
    let len = word.len() / 2;
    for k in 0..len {
        let high = nibble(word[2 * k]);
        let low = nibble(word[2 * k + 1]);
        worst = worst.max(high).max(low);
        bytes[k] = high % 16 * 16 + low % 16;
    }
    if worst > 15 {
        return None;
    }
    Chunk::new(&bytes[..len])
}

/// 1 to 64 bytes, as pairs of lower-case hexadecimal digits.
#[tactic(auto, unfolding(crate::specs::Reading::hex))]
pub fn hex(word: &[u8]) -> Option<Chunk>
    ensures { result ≡ hex word.now }
{
    if word.is_empty() || word.len() > 128 || word.len() % 2 != 0 {
        return None;
    }
    pairs(word)
}

//! The parts of a tape, each read from the front of its bytes exactly as it is spelled.
//!
//! Source: ours.

ghost use Rattle.std.specs.Prelude.{◌≡◌, ◌≤◌, slice_get};
ghost use Rattle.std.specs.Option.{option_map};
ghost use Rattle.strm_memory.specs.Bytes.{IsBytes};
ghost use Rattle.strm_tape.specs.Reading.{byte, read_number, within, scalars, scalar, fields, shape, type_word, spelled_type, words_of_type, compound, payload_by, payload, type_by, transmit_type, read_count, chunk};

use strm_codes::codes::TransmitIndex;
use strm_codes::compounds::Compound;
use strm_codes::nodes::Node;
use strm_codes::payloads::{Payload, Shape};
use strm_codes::scalars::Scalar;
use strm_machine::chunks::Chunk;

// Each byte is below 256.
pub(crate) fn are_bytes(bytes: &[u8])
    ensures { IsBytes bytes.now }
{}

// A byte, and what follows it.
#[inline(always)]
pub(crate) fn byte(bytes: &[u8]) -> Option<(u8, &[u8])>
    ensures { option_map (λ p. (p.0, p.1.now)) result ≡ byte bytes.now }
{
    if bytes.is_empty() {
        return None;
    }
    let (_, rest) = bytes.split_at(1);
    Some((bytes[0], rest))
}

// A number of four bytes, and what follows it.
#[inline(always)]
#[tactic(auto, unfolding(crate::specs::Reading::read_number))]
pub(crate) fn number(bytes: &[u8]) -> Option<(u32, &[u8])>
    ensures { option_map (λ p. (p.0, p.1.now)) result ≡ read_number bytes.now }
{
    if bytes.len() < 4 {
        return None;
    }
    let (_, rest) = bytes.split_at(4);
    let low = u32::from(bytes[0]) + 0x100 * u32::from(bytes[1]);
    let high = u32::from(bytes[2]) + 0x100 * u32::from(bytes[3]);
    Some((low + 0x1_0000 * high, rest))
}

// A number from `low` to `high`, and what follows it.
#[tactic(auto, unfolding(crate::specs::Reading::within))]
pub(crate) fn within(low: u32, high: u32, bytes: &[u8]) -> Option<(u32, &[u8])>
    ensures { option_map (λ p. (p.0, p.1.now)) result ≡ within low high bytes.now }
{
    let (found, rest) = number(bytes)?;
    if low <= found && found <= high {
        Some((found, rest))
    } else {
        None
    }
}

// The scalar of a place.
fn scalar_at(place: u8) -> Option<Scalar>
    ensures { result ≡ slice_get scalars place }
{
    let all = [
        Scalar::Bool,
        Scalar::S8,
        Scalar::U8,
        Scalar::S16,
        Scalar::U16,
        Scalar::S32,
        Scalar::U32,
        Scalar::S64,
        Scalar::U64,
        Scalar::Char,
        Scalar::F32,
        Scalar::F64,
    ];
    all.get(usize::from(place)).copied()
}

// A scalar, and what follows it.
#[tactic(auto, unfolding(crate::specs::Reading::scalar))]
pub(crate) fn scalar(bytes: &[u8]) -> Option<(Scalar, &[u8])>
    ensures { option_map (λ p. (p.0, p.1.now)) result ≡ scalar bytes.now }
{
    let (place, rest) = byte(bytes)?;
    let scalar = scalar_at(place)?;
    Some((scalar, rest))
}

// `low` to 64 bytes behind their number, and what follows them.
#[tactic(auto, unfolding(crate::specs::Reading::chunk))]
pub(crate) fn chunk(low: u8, bytes: &[u8]) -> Option<(Chunk, &[u8])>
    ensures { option_map (λ p. (p.0, p.1.now)) result ≡ chunk low bytes.now }
{
    let (count, rest) = byte(bytes)?;
    let count = usize::from(count);
    if count < usize::from(low) || count > 64 || count > rest.len() {
        return None;
    }
    let (front, behind) = rest.split_at(count);
    let found = Chunk::new(front)?;
    Some((found, behind))
}

// So many scalars, and what follows them.
fn fields(count: u8, bytes: &[u8]) -> Option<(Shape, &[u8])>
    requires some { 1 ≤ count }
    requires most { count ≤ 8 }
    ensures { option_map (λ p. (p.0, p.1.now)) result ≡ fields count bytes.now }
{
    let mut all = [Scalar::Bool; 8];
    let mut rest = bytes;
    for k in 0..usize::from(count) {
        let Some((field, behind)) = scalar(rest) else {
            return None;
        };
        all[k] = field;
        rest = behind;
    }
    let Some(shape) = Shape::new(&all[..usize::from(count)]) else {
        unreachable!();
    };
    Some((shape, rest))
}

// One to eight scalars behind their number, and what follows them.
#[tactic(auto, unfolding(crate::specs::Reading::shape))]
fn shape(bytes: &[u8]) -> Option<(Shape, &[u8])>
    ensures { option_map (λ p. (p.0, p.1.now)) result ≡ shape bytes.now }
{
    let (count, rest) = byte(bytes)?;
    if 1 <= count && count <= 8 {
        fields(count, rest)
    } else {
        None
    }
}

// A word of a type, and what follows it.
#[tactic(auto, unfolding(crate::specs::Reading::type_word))]
fn type_word(bytes: &[u8]) -> Option<(Node, &[u8])>
    ensures { option_map (λ p. (p.0, p.1.now)) result ≡ type_word bytes.now }
{
    let (place, rest) = byte(bytes)?;
    let word = Node::from_byte(place)?;
    Some((word, rest))
}

// The type that words spell, if it holds others.
fn spelled_type<'a>(words: &[Node], rest: &'a [u8]) -> Option<(Compound, &'a [u8])>
    ensures { option_map (λ p. (p.0, p.1.now)) result ≡ spelled_type words.now rest.now }
{
    let Some(compound) = Compound::new(words) else {
        return None;
    };
    Some((compound, rest))
}

// So many words of a type that holds others, and what follows them.
fn words_of_type(count: u8, bytes: &[u8]) -> Option<(Compound, &[u8])>
    requires { count ≤ 16 }
    ensures { option_map (λ p. (p.0, p.1.now)) result ≡ words_of_type count bytes.now }
{
    let mut words = [Node::Nothing; 16];
    let mut rest = bytes;
    for k in 0..usize::from(count) {
        let Some((word, behind)) = type_word(rest) else {
            return None;
        };
        words[k] = word;
        rest = behind;
    }
    spelled_type(&words[..usize::from(count)], rest)
}

// The same behind their number.
#[tactic(auto, unfolding(crate::specs::Reading::compound))]
fn compound(bytes: &[u8]) -> Option<(Compound, &[u8])>
    ensures { option_map (λ p. (p.0, p.1.now)) result ≡ compound bytes.now }
{
    let (count, rest) = byte(bytes)?;
    if count <= 16 {
        words_of_type(count, rest)
    } else {
        None
    }
}

// A payload, and what follows it.
#[tactic(auto, unfolding(crate::specs::Reading::payload))]
pub(crate) fn payload(bytes: &[u8]) -> Option<(Payload, &[u8])>
    ensures { option_map (λ p. (p.0, p.1.now)) result ≡ payload bytes.now }
{
    let (form, rest) = byte(bytes)?;
    payload_by(form, rest)
}

// That of a form.
fn payload_by(form: u8, bytes: &[u8]) -> Option<(Payload, &[u8])>
    ensures { option_map (λ p. (p.0, p.1.now)) result ≡ payload_by form bytes.now }
{
    if form == 0 {
        Some((Payload::Nothing, bytes))
    } else if form == 1 {
        let Some((scalar, rest)) = scalar(bytes) else {
            return None;
        };
        Some((Payload::One(scalar), rest))
    } else if form == 2 {
        let Some((shape, rest)) = shape(bytes) else {
            return None;
        };
        Some((Payload::Tuple(shape), rest))
    } else if form == 3 {
        let Some((compound, rest)) = compound(bytes) else {
            return None;
        };
        Some((Payload::Compound(compound), rest))
    } else {
        None
    }
}

// A type, and what follows it.
#[tactic(auto, unfolding(crate::specs::Reading::transmit_type))]
pub(crate) fn transmit_type(bytes: &[u8]) -> Option<(TransmitIndex, &[u8])>
    ensures { option_map (λ p. (p.0, p.1.now)) result ≡ transmit_type bytes.now }
{
    let (kind, rest) = byte(bytes)?;
    type_by(kind, rest)
}

// That of a kind.
fn type_by(kind: u8, bytes: &[u8]) -> Option<(TransmitIndex, &[u8])>
    ensures { option_map (λ p. (p.0, p.1.now)) result ≡ type_by kind bytes.now }
{
    if kind == 0 {
        let Some((payload, rest)) = payload(bytes) else {
            return None;
        };
        Some((TransmitIndex::Stream(payload), rest))
    } else if kind == 1 {
        let Some((payload, rest)) = payload(bytes) else {
            return None;
        };
        Some((TransmitIndex::Future(payload), rest))
    } else {
        None
    }
}

// The count of a read or write of this type, and what follows it.
#[tactic(auto, unfolding(crate::specs::Reading::read_count))]
pub(crate) fn count_of<'a>(ty: &TransmitIndex, bytes: &'a [u8]) -> Option<(u32, &'a [u8])>
    ensures { option_map (λ p. (p.0, p.1.now)) result ≡ read_count ty.now bytes.now }
{
    match ty {
        TransmitIndex::Stream(_) => number(bytes),
        TransmitIndex::Future(_) => within(1, 1, bytes),
    }
}

//! Payloads and types as words.
//!
//! Meaning: `Payloads.antt`. Ours.

ghost use Rattle.std.specs.Prelude.{◌≡◌, ◌≢◌, ◌+◌, ◌/◌, ◌%◌, ◌^◌, ◌<◌, ◌≤◌, if◌then◌else◌, Some, None, IfSome, length};
ghost use Rattle.strm_codes.specs.Spellings.{AreSpelled};
ghost use Rattle.strm_codes.specs.Types.{payload_of};
ghost use Rattle.strm_codes.specs.declared.codes.TransmitIndex.TheVariants.{Stream, Future};
ghost use Rattle.strm_codes.specs.declared.payloads.Payload.TheVariants as form;
ghost use Rattle.strm_c.specs.Payloads.{scalar_of_number, number_of_scalar, fields_at, fields_word, tuple_with, nodes_at, compound_with, nodes_number, payload_of_nodes, type_of_bytes, no_word, future_bit, future_word, HasWord, payload_at, payload_word, type_at, type_word};

use strm_codes::codes::TransmitIndex;
use strm_codes::compounds::Compound;
use strm_codes::nodes::Node;
use strm_codes::payloads::{Payload, Shape};
use strm_codes::scalars::Scalar;

/// The bit of a tuple's word.
const TUPLE: u64 = 4_294_967_296;

/// The bit of the word of a type that holds others.
const COMPOUND: u64 = 17_179_869_184;

/// Past the lowest five bytes of a word, behind which the last three of seven words of a type lie.
const HIGHEST: u64 = 1_099_511_627_776;

/// The bit of a future's type.
const FUTURE: u64 = 8_589_934_592;

/// The word of no payload.
const NO_WORD: u64 = u64::MAX;

// The scalar of a number.
#[inline(always)]
fn scalar_at(number: u64) -> Option<Scalar>
    ensures { result ≡ scalar_of_number number }
{
    match number {
        1 => Some(Scalar::Bool),
        2 => Some(Scalar::S8),
        3 => Some(Scalar::U8),
        4 => Some(Scalar::S16),
        5 => Some(Scalar::U16),
        6 => Some(Scalar::S32),
        7 => Some(Scalar::U32),
        8 => Some(Scalar::S64),
        9 => Some(Scalar::U64),
        10 => Some(Scalar::Char),
        11 => Some(Scalar::F32),
        12 => Some(Scalar::F64),
        _ => None,
    }
}

// The number of a scalar.
fn scalar_number(scalar: Scalar) -> u64
    ensures exact { result ≡ number_of_scalar scalar }
    ensures small { result < 16 }
{
    match scalar {
        Scalar::Bool => 1,
        Scalar::S8 => 2,
        Scalar::U8 => 3,
        Scalar::S16 => 4,
        Scalar::U16 => 5,
        Scalar::S32 => 6,
        Scalar::U32 => 7,
        Scalar::S64 => 8,
        Scalar::U64 => 9,
        Scalar::Char => 10,
        Scalar::F32 => 11,
        Scalar::F64 => 12,
    }
}

// A tuple of these fields, if there are any.
fn tuple_of(fields: &[Scalar]) -> Option<Payload>
    requires { length fields.now ≤ 8 }
    ensures { result ≡ tuple_with (Some fields.now) }
{
    Shape::new(fields).map(Payload::Tuple)
}

// The tuple whose fields a word has, four bits each.
fn tuple_at(word: u64) -> Option<Payload>
    ensures { result ≡ tuple_with (fields_at 8 word) }
{
    let mut fields = [Scalar::Bool; 8];
    let mut rest = word;
    for k in 0..8usize {
        if rest == 0 {
            return tuple_of(&fields[..k]);
        }
        let Some(field) = scalar_at(rest % 16) else {
            return None;
        };
        fields[k] = field;
        rest = rest / 16;
    }
    if rest == 0 { tuple_of(&fields) } else { None }
}

// The compound whose words a number has, a byte each. Cold, so that other payloads have the straight way.
#[cold]
fn compound_at(bytes: u64) -> Option<Payload>
    ensures { result ≡ compound_with (nodes_at 7 bytes) }
{
    let mut words = [Node::Nothing; 7];
    let mut rest = bytes;
    for k in 0..7usize {
        if rest == 0 {
            return compound_of(&words[..k]);
        }
        let Some(word) = Node::from_byte((rest % 256) as u8) else {
            return None;
        };
        words[k] = word;
        rest = rest / 256;
    }
    if rest == 0 { compound_of(&words) } else { None }
}

// The compound of these words, if they spell one.
fn compound_of(words: &[Node]) -> Option<Payload>
    ensures { result ≡ compound_with (Some words.now) }
{
    match Compound::new(words) {
        Some(compound) => Some(Payload::Compound(compound)),
        None => None,
    }
}

/// The payload that words spell, each of them a byte, if they spell one.
pub fn built(bytes: &[u8]) -> Option<Payload>
    requires { length bytes.now ≤ 7 }
    ensures exact { result ≡ type_of_bytes bytes.now }
    ensures word { IfSome result HasWord }
{
    let mut words = [Node::Nothing; 7];
    for k in 0..bytes.len() {
        let Some(word) = Node::from_byte(bytes[k]) else {
            return None;
        };
        words[k] = word;
    }
    payload_of_nodes(&words[..bytes.len()])
}

// The payload that words spell.
fn payload_of_nodes(words: &[Node]) -> Option<Payload>
    requires { length words.now ≤ 7 }
    ensures exact { result ≡ payload_of_nodes words.now }
    ensures word { IfSome result HasWord }
{
    if words.len() == 1 {
        match words[0] {
            Node::Nothing => return Some(Payload::Nothing),
            Node::Plain(scalar) => return Some(Payload::One(scalar)),
            _ => {}
        }
    }
    compound_of(words)
}

// The payload of a word from the tuple's bit on.
#[cold]
fn held_at(word: u64) -> Option<Payload>
    requires { 4294967296 ≤ word }
    ensures { result ≡ payload_at word }
{
    if word / TUPLE % 256 == 4 {
        return compound_at(word % TUPLE + TUPLE * (word / HIGHEST));
    }
    tuple_at(word - TUPLE)
}

// The payload of a word that is no scalar's, apart from the code for scalars.
#[cold]
#[inline(never)]
fn other_payload_at(word: u64) -> Option<Payload>
    requires { scalar_of_number word ≡ None }
    ensures { result ≡ payload_at word }
{
    if word >= TUPLE {
        return held_at(word);
    }
    if word == 0 {
        return Some(Payload::Nothing);
    }
    None
}

/// The payload of a word.
#[inline(always)]
pub fn payload_at(word: u64) -> Option<Payload>
    ensures { result ≡ payload_at word }
{
    match scalar_at(word) {
        Some(scalar) => Some(Payload::One(scalar)),
        None => other_payload_at(word),
    }
}

// The scalar of a number that is a whole number's or a float's; none of any other.
#[inline(always)]
fn numeric_at(number: u64) -> Option<Scalar>
    ensures { IfSome result (λ scalar. scalar_of_number number ≡ Some scalar) }
{
    match number {
        2 => Some(Scalar::S8),
        3 => Some(Scalar::U8),
        4 => Some(Scalar::S16),
        5 => Some(Scalar::U16),
        6 => Some(Scalar::S32),
        7 => Some(Scalar::U32),
        8 => Some(Scalar::S64),
        9 => Some(Scalar::U64),
        11 => Some(Scalar::F32),
        12 => Some(Scalar::F64),
        _ => None,
    }
}

/// The payload of a word where its items are plain numbers; none of any other word. Then no payload is written to
/// memory, and nothing is left of the test whether they are.
#[inline(always)]
pub fn number_payload_at(word: u64) -> Option<Payload>
    ensures { IfSome result (λ payload. payload_at word ≡ Some payload) }
{
    match numeric_at(word) {
        Some(scalar) => Some(Payload::One(scalar)),
        None => None,
    }
}

// The type of a future of this payload, or of a stream.
#[inline(always)]
fn type_of(is_future: bool, payload: Payload) -> TransmitIndex
    ensures { result ≡ (if is_future then Future payload else Stream payload) }
{
    if is_future {
        TransmitIndex::Future(payload)
    } else {
        TransmitIndex::Stream(payload)
    }
}

/// The type of a word.
#[inline(always)]
pub fn type_at(word: u64) -> Option<TransmitIndex>
    ensures { result ≡ type_at word }
{
    let is_future = word / FUTURE % 2 == 1;
    match payload_at(if is_future { word - FUTURE } else { word }) {
        Some(payload) => Some(type_of(is_future, payload)),
        None => None,
    }
}

/// The same where it is a stream's whose items are one scalar each; none of any other word. No payload is written to
/// memory for it, as it is where a tuple's word may stand, and nothing is left of the test which kind it is.
#[inline(always)]
pub fn scalar_stream_at(word: u64) -> Option<TransmitIndex>
    ensures { IfSome result (λ ty. type_at word ≡ Some ty) }
{
    match scalar_at(word) {
        Some(scalar) => Some(TransmitIndex::Stream(Payload::One(scalar))),
        None => None,
    }
}

/// The same where it is a future's whose item is one scalar; none of any other word.
#[inline(always)]
pub fn scalar_future_at(word: u64) -> Option<TransmitIndex>
    ensures { IfSome result (λ ty. type_at word ≡ Some ty) }
{
    if word / FUTURE % 2 == 0 {
        return None;
    }
    match scalar_at(word - FUTURE) {
        Some(scalar) => Some(TransmitIndex::Future(Payload::One(scalar))),
        None => None,
    }
}

// Fields as a word.

fn fields_word(fields: &[Scalar]) -> u64
    requires { length fields.now ≤ 8 }
    ensures exact { result ≡ fields_word fields.now }
    ensures small { result < 16 ^ length fields.now }
    ensures most { result < 4294967296 }
{
    let Some((field, more)) = fields.split_first() else {
        return 0;
    };
    scalar_number(*field) + 16 * fields_word(more)
}

// The words of a type as a number, a byte each.
fn nodes_number(words: &[Node]) -> u64
    requires each { AreSpelled words.now }
    requires few { length words.now ≤ 7 }
    ensures exact { result ≡ nodes_number words.now }
    ensures small { result < 256 ^ length words.now }
    ensures most { result < 72057594037927936 }
{
    let Some((word, more)) = words.split_first() else {
        return 0;
    };
    u64::from(word.to_byte()) + 256 * nodes_number(more)
}

// A compound as its word.
fn compound_word(compound: &Compound) -> u64
    ensures exact { result ≡ payload_word (form.Compound compound.now) }
    ensures inverse { length compound.now ≤ 7 → payload_at result ≡ Some (form.Compound compound.now) }
    ensures bit { length compound.now ≤ 7 → result / future_bit % 2 ≡ 0 }
    ensures room { result ≢ no_word → result + future_bit < 2 ^ 64 }
{
    let words = compound.as_slice();
    if words.len() > 7 {
        return NO_WORD;
    }
    let number = nodes_number(words);
    COMPOUND + number % TUPLE + HIGHEST * (number / TUPLE)
}

/// A payload as its word.
pub fn payload_word(payload: &Payload) -> u64
    ensures exact { result ≡ payload_word payload.now }
    ensures inverse { HasWord payload.now → payload_at result ≡ Some payload.now }
    ensures bit { HasWord payload.now → result / future_bit % 2 ≡ 0 }
    ensures room { result ≢ no_word → result + future_bit < 2 ^ 64 }
{
    match payload {
        Payload::Nothing => 0,
        Payload::One(scalar) => scalar_number(*scalar),
        Payload::Tuple(shape) => TUPLE + fields_word(shape.as_slice()),
        Payload::Compound(compound) => compound_word(compound),
    }
}

/// A type as its word.
pub fn type_word(ty: &TransmitIndex) -> u64
    ensures exact { result ≡ type_word ty.now }
    ensures inverse { HasWord (payload_of ty.now) → type_at result ≡ Some ty.now }
{
    match ty {
        TransmitIndex::Stream(payload) => payload_word(payload),
        TransmitIndex::Future(payload) => future_word(payload),
    }
}

// The word of a future of a payload.
fn future_word(payload: &Payload) -> u64
    ensures exact { result ≡ future_word (payload_word payload.now) }
    ensures inverse { HasWord payload.now → type_at result ≡ Some (Future payload.now) }
{
    let word = payload_word(payload);
    if word == NO_WORD { word } else { FUTURE + word }
}

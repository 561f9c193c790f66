//! Items of any type, lifted from bytes.
//!
//! Source: Canonical ABI, "Loading".

ghost use Rattle.std.specs.Prelude.{◌≡◌, ℕ, ◌+◌, ◌*◌, ◌^◌, ◌%◌, ◌<◌, ◌≤◌, pos, [], ◌∷◌, ◌++◌, length, drop, IfSome, IsTrue, IsNone, IsSome, min};
ghost use Rattle.std.specs.Bool.{then_some};
ghost use Rattle.std.specs.Option.{option_map};
ghost use Rattle.strm_codes.specs.Items.{IsNumber};
ghost use Rattle.strm_memory.specs.Bytes.{le, bytes_at};
ghost use Rattle.strm_codes.specs.ItemTypes.{end_of, item_size, flags_size, rounded};
ghost use Rattle.strm_codes.specs.Spellings.{arity, spelled, taken, type_with, AreSpelled, HasCount};
ghost use Rattle.strm_codes.specs.Measures.{span};
ghost use Rattle.strm_codes.specs.Begins.{flags_limit};
ghost use Rattle.strm_memory.specs.Loads.{decode, decode_parts};
ghost use Rattle.strm_memory.specs.Walks.{with_front, IsFew, Enters};

use crate::fields::lift_field;
use crate::numbers::{load_1, load_2, load_4};
use strm_codes::insides::Inside;
use strm_codes::measures::{Span, arity, extent_of, flags_size, round, skip, span_of};
use strm_codes::nodes::Node;
use strm_codes::values::Value;

// Adds a number to an item, if there is one.
fn put_number(number: Option<i128>, item: &mut Value) -> bool
    requires few { length item.old < 16 }
    requires range { IfSome number IsNumber }
    ensures { then_some result item.new ≡ option_map (λ x. item.old ++ x ∷ []) number }
{
    match number {
        Some(number) => {
            item.push(number);
            true
        }
        None => false,
    }
}

// The flags that bytes stand for: others than the named ones are not looked at.
fn flags_at(bytes: &[u8], from: usize, flags: u8) -> i128
    requires some { 1 ≤ flags }
    requires most { flags ≤ 32 }
    requires holds { from + flags_size flags ≤ length bytes.now }
    ensures exact { result ≡ pos (le (bytes_at bytes.now from (flags_size flags)) % flags_limit flags) }
    ensures range { IsNumber result }
{
    let number = match flags_size(u32::from(flags)) {
        1 => u64::from(load_1(bytes, from)),
        2 => u64::from(load_2(bytes, from)),
        _ => u64::from(load_4(bytes, from)),
    };
    i128::from(number % (1u64 << flags))
}

// Adds the number of a case of so many, if there is such a case.
fn lift_case(bytes: &[u8], from: usize, cases: u32, item: &mut Value) -> Option<u32>
    requires few { length item.old < 16 }
    requires holds { from + 1 ≤ length bytes.now }
    ensures none { IsNone result → cases ≤ le (bytes_at bytes.now from 1) }
    ensures some { IfSome result (λ d. d ≡ le (bytes_at bytes.now from 1)) }
    ensures case { IfSome result (λ d. d < cases) }
    ensures put { IfSome result (λ d. item.new ≡ item.old ++ pos d ∷ []) }
{
    let number = u32::from(load_1(bytes, from));
    if number >= cases {
        return None;
    }
    item.push(i128::from(number));
    Some(number)
}

// Lifts the number of a case of a variant, and tells where its value lies.
fn enter_variant(
    cases: u32,
    align: u32,
    bytes: &[u8],
    from: usize,
    item: &mut Value,
) -> Option<Inside>
    requires few { length item.old < 16 }
    requires some { 1 ≤ align }
    requires most { align ≤ 8 }
    requires holds { from + 1 ≤ length bytes.now }
    ensures none { IsNone result → cases ≤ le (bytes_at bytes.now from 1) }
    ensures some { IfSome result (λ i. i ≡ record { skipped = le (bytes_at bytes.now from 1); parts = 1; offset = rounded 1 align }) }
    ensures case { IfSome result (λ i. i.skipped < cases) }
    ensures put { IfSome result (λ i. item.new ≡ item.old ++ pos i.skipped ∷ []) }
{
    let Some(case) = lift_case(bytes, from, cases, item) else {
        return None;
    };
    Some(Inside {
        skipped: case,
        parts: 1,
        offset: round(1, align),
    })
}

const NOTHING: Inside = Inside {
    skipped: 0,
    parts: 0,
    offset: 0,
};

// Lifts the number that a type begins with, and tells where its parts lie.
fn enter(
    node: Node,
    rest: &[Node],
    inner: Span,
    bytes: &[u8],
    from: usize,
    item: &mut Value,
) -> Option<Inside>
    requires counted { HasCount node }
    requires enough { arity node ≤ length (spelled rest.now) }
    requires inner { inner ≡ span 0 (taken (arity node) (spelled rest.now)) }
    requires some { 1 ≤ inner.align }
    requires most { inner.align ≤ 8 }
    requires few { length item.old < 16 }
    requires holds { from + item_size (type_with node (spelled rest.now)) ≤ length bytes.now }
    ensures none { IsNone result → decode (type_with node (spelled rest.now)) (drop from bytes.now) ≡ None }
    ensures some { IfSome result (λ i. Enters node (spelled rest.now) bytes.now from item.old item.new i) }
{
    match node {
        Node::Nothing => Some(NOTHING),
        Node::Plain(scalar) => {
            if put_number(lift_field(bytes, from, scalar), item) {
                Some(NOTHING)
            } else {
                None
            }
        }
        Node::Flags(flags) => {
            item.push(flags_at(bytes, from, flags));
            Some(NOTHING)
        }
        Node::Enum(cases) => {
            let Some(_) = lift_case(bytes, from, u32::from(cases), item) else {
                return None;
            };
            Some(NOTHING)
        }
        Node::Option => {
            let Some(case) = lift_case(bytes, from, 2, item) else {
                return None;
            };
            Some(Inside {
                skipped: 0,
                parts: case,
                offset: round(1, inner.align),
            })
        }
        Node::Result => enter_variant(2, inner.align, bytes, from, item),
        Node::Tuple(fields) => Some(Inside {
            skipped: 0,
            parts: u32::from(fields),
            offset: 0,
        }),
        Node::Variant(cases) => enter_variant(u32::from(cases), inner.align, bytes, from, item),
    }
}

/// Lifts so many types that are spelled, as the fields of one type that may begin at an offset: whether
/// all of them are there.
pub fn lift_parts(
    nodes: &[Node],
    parts: u32,
    bytes: &[u8],
    from: usize,
    at: u32,
    item: &mut Value,
) -> bool
    requires spelled { AreSpelled nodes.now }
    requires parts { parts ≤ length (spelled nodes.now) }
    requires most { parts ≤ 255 }
    requires small { at + 136 * parts ≤ 65536 }
    requires few { length item.old + length nodes.now ≤ 16 }
    requires holds { from + end_of at (taken parts (spelled nodes.now)) ≤ length bytes.now }
    ensures exact { then_some result item.new ≡ with_front item.old
        (decode_parts at (taken parts (spelled nodes.now)) (drop (from + at) bytes.now)) }
    ensures few { IsTrue result → IsFew item.old item.new parts nodes.now }
{
    if parts == 0 {
        return true;
    }
    let Some((node, rest)) = nodes.split_first() else {
        return true;
    };
    let own = arity(*node);
    let inner = span_of(rest, own, 0);
    let first = extent_of(*node, inner);
    let start = round(at, first.align);
    let place = from + start as usize;
    let Some(inside) = enter(*node, rest, inner, bytes, place, item) else {
        return false;
    };
    let values = skip(rest, inside.skipped);
    if !lift_parts(
        values,
        inside.parts,
        bytes,
        place + inside.offset as usize,
        0,
        item,
    ) {
        return false;
    }
    let more = skip(rest, own);
    lift_parts(more, parts - 1, bytes, from, start + first.bytes, item)
}

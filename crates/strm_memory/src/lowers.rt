//! Items of any type, lowered into bytes.
//!
//! Source: Canonical ABI, "Storing".

ghost use Rattle.std.specs.Prelude.{◌≡◌, ◌+◌, ◌*◌, ◌^◌, ◌<◌, ◌≤◌, length};
ghost use Rattle.strm_codes.specs.Scalars.{IsBelow, magnitude};
ghost use Rattle.strm_memory.specs.Bytes.{to_le, put_at};
ghost use Rattle.strm_codes.specs.ItemTypes.{end_of, item_size, flags_size};
ghost use Rattle.strm_codes.specs.Spellings.{arity, spelled, taken, type_with, AreSpelled, HasCount};
ghost use Rattle.strm_codes.specs.Measures.{span};
ghost use Rattle.strm_codes.specs.Begins.{flags_limit, left_fields, Begins, BeginFields};
ghost use Rattle.strm_memory.specs.Walks.{fields_on, EntersStore};

use crate::fields::lower_field;
use crate::numbers::store;
use strm_codes::insides::{Entered, behind_none, behind_numbers, behind_one};
use strm_codes::measures::{Span, arity, extent_of, flags_size, round, skip, span_of};
use strm_codes::nodes::Node;

// Stores a set of so many flags.
fn lower_flags(bytes: &mut [u8], from: usize, flags: u8, number: i128)
    requires some { 1 ≤ flags }
    requires most { flags ≤ 32 }
    requires fits { IsBelow (flags_limit flags) number }
    requires holds { from + flags_size flags ≤ length bytes.old }
    ensures { bytes.new ≡ put_at bytes.old from (to_le (flags_size flags) (magnitude number)) }
{
    store(
        bytes,
        from,
        flags_size(u32::from(flags)) as usize,
        number as u64,
    );
}

// Stores the number of a case of so many in its byte, and tells it.
fn lower_case(bytes: &mut [u8], from: usize, cases: u32, number: i128) -> u32
    requires most { cases ≤ 256 }
    requires fits { IsBelow cases number }
    requires holds { from + 1 ≤ length bytes.old }
    ensures put { bytes.new ≡ put_at bytes.old from (to_le 1 (magnitude number)) }
    ensures exact { result ≡ magnitude number }
{
    store(bytes, from, 1, number as u64);
    number as u32
}

// Stores the number that a type begins with, and tells where its parts lie.
fn enter_lowered(
    node: Node,
    rest: &[Node],
    inner: Span,
    numbers: &[i128],
    bytes: &mut [u8],
    from: usize,
) -> Entered
    requires counted { HasCount node }
    requires enough { arity node ≤ length (spelled rest.now) }
    requires inner { inner ≡ span 0 (taken (arity node) (spelled rest.now)) }
    requires some { 1 ≤ inner.align }
    requires most { inner.align ≤ 8 }
    requires begins { Begins (type_with node (spelled rest.now)) numbers.now }
    requires holds { from + item_size (type_with node (spelled rest.now)) ≤ length bytes.old }
    ensures { EntersStore node (spelled rest.now) numbers.now bytes.old bytes.new from result }
{
    match node {
        Node::Nothing => behind_none(0),
        Node::Plain(scalar) => {
            lower_field(bytes, from, scalar, numbers[0]);
            behind_one(0, 0, 0)
        }
        Node::Flags(flags) => {
            lower_flags(bytes, from, flags, numbers[0]);
            behind_one(0, 0, 0)
        }
        Node::Enum(cases) => {
            let _case = lower_case(bytes, from, u32::from(cases), numbers[0]);
            behind_one(0, 0, 0)
        }
        Node::Option => {
            let case = lower_case(bytes, from, 2, numbers[0]);
            behind_one(0, case, round(1, inner.align))
        }
        Node::Result => {
            let case = lower_case(bytes, from, 2, numbers[0]);
            behind_one(case, 1, round(1, inner.align))
        }
        Node::Tuple(fields) => behind_none(u32::from(fields)),
        Node::Variant(cases) => {
            let case = lower_case(bytes, from, u32::from(cases), numbers[0]);
            behind_one(case, 1, round(1, inner.align))
        }
    }
}

/// Lowers so many types that are spelled, as the fields of one type that may begin at an offset, and
/// gives the numbers that are left. Bytes of other cases and padding stay.
pub fn lower_parts<'a>(
    nodes: &[Node],
    parts: u32,
    numbers: &'a [i128],
    bytes: &mut [u8],
    from: usize,
    at: u32,
) -> &'a [i128]
    requires spelled { AreSpelled nodes.now }
    requires parts { parts ≤ length (spelled nodes.now) }
    requires most { parts ≤ 255 }
    requires few { length nodes.now ≤ 16 }
    requires small { at + 136 * parts ≤ 65536 }
    requires begins { BeginFields (taken parts (spelled nodes.now)) numbers.now }
    requires holds { from + end_of at (taken parts (spelled nodes.now)) ≤ length bytes.old }
    ensures stored { bytes.new
        ≡ fields_on at (taken parts (spelled nodes.now)) numbers.now (from + at) bytes.old }
    ensures left { result.now ≡ left_fields (taken parts (spelled nodes.now)) numbers.now }
{
    if parts == 0 {
        return numbers;
    }
    let Some((node, rest)) = nodes.split_first() else {
        return numbers;
    };
    let own = arity(*node);
    let inner = span_of(rest, own, 0);
    let first = extent_of(*node, inner);
    let start = round(at, first.align);
    let place = from + start as usize;
    let entered = enter_lowered(*node, rest, inner, numbers, bytes, place);
    let inside = entered.inside;
    let values = skip(rest, inside.skipped);
    let own_left = behind_numbers(numbers, entered.numbers);
    let left = lower_parts(
        values,
        inside.parts,
        own_left,
        bytes,
        place + inside.offset as usize,
        0,
    );
    let more = skip(rest, own);
    lower_parts(more, parts - 1, left, bytes, from, start + first.bytes)
}

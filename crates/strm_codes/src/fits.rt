//! Whether numbers are an item of any type.
//!
//! Source: Canonical ABI, "Loading": which numbers there are to be.

ghost use Rattle.std.specs.Prelude.{◌≡◌, ◌+◌, ◌*◌, ◌^◌, ◌<◌, ◌≤◌, ◌↔◌, length, pos, IsTrue, IsSome, IsNone, IfSome, slice_index_or};
ghost use Rattle.strm_codes.specs.Scalars.{IsBelow, magnitude};
ghost use Rattle.strm_codes.specs.ItemTypes.{Plain};
ghost use Rattle.strm_codes.specs.Spellings.{arity, spelled, taken, type_with, AreSpelled, HasCount, IsCompound, first_type};
ghost use Rattle.strm_codes.specs.Begins.{left_fields, Begins, BeginFields, FitsItem};
ghost use Rattle.strm_codes.specs.Insides.{LeavesParts};

use crate::insides::{Entered, behind_none, behind_numbers, behind_one};
use crate::measures::{arity, skip};
use crate::nodes::Node;
use crate::scalars::Scalar;

// Whether the first number is one of a scalar.
fn begins_scalar(numbers: &[i128], scalar: Scalar) -> bool
    ensures { IsTrue result ↔ Begins (Plain scalar) numbers.now }
{
    let Some(number) = numbers.first() else {
        return false;
    };
    scalar.fits(*number)
}

// The first number, where it is one below a limit.
fn first_below(numbers: &[i128], limit: u64) -> Option<u32>
    requires { limit ≤ 2 ^ 32 }
    ensures some { IsSome result ↔ ((0 < length numbers.now)
        × IsBelow limit (slice_index_or numbers.now 0 (pos 0))) }
    ensures value { IfSome result (λ n. n ≡ magnitude (slice_index_or numbers.now 0 (pos 0))) }
{
    if numbers.is_empty() {
        return None;
    }
    let number = numbers[0];
    if 0 <= number && number < i128::from(limit) {
        Some(number as u32)
    } else {
        None
    }
}

// Whether the numbers begin with that of a type, and what is left of it then.
fn enter_numbers(node: Node, rest: &[Node], numbers: &[i128]) -> Option<Entered>
    requires counted { HasCount node }
    requires enough { arity node ≤ length (spelled rest.now) }
    ensures none { IsNone result → Begins (type_with node (spelled rest.now)) numbers.now → ⊥ }
    ensures some { IfSome result (λ e. LeavesParts node (spelled rest.now) numbers.now e) }
{
    match node {
        Node::Nothing => Some(behind_none(0)),
        Node::Plain(scalar) => {
            if begins_scalar(numbers, scalar) {
                Some(behind_one(0, 0, 0))
            } else {
                None
            }
        }
        Node::Flags(flags) => {
            let Some(_) = first_below(numbers, 1u64 << flags) else {
                return None;
            };
            Some(behind_one(0, 0, 0))
        }
        Node::Enum(cases) => {
            let Some(_) = first_below(numbers, u64::from(cases)) else {
                return None;
            };
            Some(behind_one(0, 0, 0))
        }
        Node::Option => {
            let Some(case) = first_below(numbers, 2) else {
                return None;
            };
            Some(behind_one(0, case, 0))
        }
        Node::Result => {
            let Some(case) = first_below(numbers, 2) else {
                return None;
            };
            Some(behind_one(case, 1, 0))
        }
        Node::Tuple(fields) => Some(behind_none(u32::from(fields))),
        Node::Variant(cases) => {
            let Some(case) = first_below(numbers, u64::from(cases)) else {
                return None;
            };
            Some(behind_one(case, 1, 0))
        }
    }
}

/// Whether the numbers begin with those of so many types that are spelled, and the numbers that are left
/// then.
pub fn begin_parts<'a>(nodes: &[Node], parts: u32, numbers: &'a [i128]) -> Option<&'a [i128]>
    requires spelled { AreSpelled nodes.now }
    requires parts { parts ≤ length (spelled nodes.now) }
    requires most { parts ≤ 255 }
    requires few { length nodes.now ≤ 16 }
    ensures some { IsSome result ↔ BeginFields (taken parts (spelled nodes.now)) numbers.now }
    ensures left { IfSome result (λ rest. rest.now
        ≡ left_fields (taken parts (spelled nodes.now)) numbers.now) }
{
    if parts == 0 {
        return Some(numbers);
    }
    let Some((node, rest)) = nodes.split_first() else {
        return Some(numbers);
    };
    let own = arity(*node);
    let Some(entered) = enter_numbers(*node, rest, numbers) else {
        return None;
    };
    let inside = entered.inside;
    let values = skip(rest, inside.skipped);
    let own_left = behind_numbers(numbers, entered.numbers);
    let Some(left) = begin_parts(values, inside.parts, own_left) else {
        return None;
    };
    let more = skip(rest, own);
    begin_parts(more, parts - 1, left)
}

/// Whether numbers are an item of the type that these words spell.
pub fn fits_compound(nodes: &[Node], numbers: &[i128]) -> bool
    requires { IsCompound nodes.now }
    ensures { IsTrue result ↔ FitsItem (first_type (spelled nodes.now)) numbers.now }
{
    match begin_parts(nodes, 1, numbers) {
        Some(left) => left.is_empty(),
        None => false,
    }
}

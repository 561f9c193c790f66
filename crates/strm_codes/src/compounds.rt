//! A type that is no scalar and no tuple of scalars, by its spelling.
//!
//! Source: Component Model, "Type Definitions". The limits are ours.

ghost use Rattle.std.specs.Prelude.{◌≡◌, ◌<◌, ◌≤◌, ◌↔◌, length, IsSome, IfSome, IsTrue};
ghost use Rattle.std.specs.List.{list_all};
ghost use Rattle.strm_codes.specs.ItemTypes.{item_size, align_of};
ghost use Rattle.strm_codes.specs.Spellings.{arity, spelled, type_with, AreSpelled, HasCount, IsCompound, is_plain, is_flat, first_type};

use crate::measures::{arity, extent_of, span_of};
use crate::nodes::Node;
use std::marker::Model;

// Whether a word has a count that there is.
fn has_count(node: Node) -> bool
    ensures { IsTrue result ↔ HasCount node }
{
    match node {
        Node::Flags(flags) => 1 <= flags && flags <= 32,
        Node::Enum(cases) => 1 <= cases && cases <= 128,
        Node::Tuple(fields) => 1 <= fields,
        Node::Variant(cases) => 1 <= cases,
        Node::Nothing | Node::Plain(_) | Node::Option | Node::Result => true,
    }
}

// How many types these words spell; none where they spell none.
fn types_in(nodes: &[Node]) -> Option<u32>
    requires { length nodes.now ≤ 16 }
    ensures some { IsSome result ↔ AreSpelled nodes.now }
    ensures count { IfSome result (λ n. n ≡ length (spelled nodes.now)) }
    ensures most { IfSome result (λ n. n ≤ length nodes.now) }
{
    let Some((node, rest)) = nodes.split_first() else {
        return Some(0);
    };
    let Some(types) = types_in(rest) else {
        return None;
    };
    let own = arity(*node);
    if own > types {
        return None;
    }
    if !has_count(*node) {
        return None;
    }
    let extent = extent_of(*node, span_of(rest, own, 0));
    if extent.bytes > 128 {
        return None;
    }
    Some(types - own + 1)
}

// Whether each is a scalar.
fn are_plain(nodes: &[Node]) -> bool
    ensures { result ≡ list_all is_plain nodes.now }
{
    let Some((first, rest)) = nodes.split_first() else {
        return true;
    };
    match first {
        Node::Plain(_) => are_plain(rest),
        _ => false,
    }
}

// Whether these words spell a payload of another form: nothing, one scalar, or a tuple of one to eight
// scalars.
fn is_flat(nodes: &[Node]) -> bool
    ensures { result ≡ is_flat nodes.now }
{
    let Some((first, rest)) = nodes.split_first() else {
        return false;
    };
    match first {
        Node::Nothing | Node::Plain(_) => true,
        Node::Tuple(fields) => *fields <= 8 && are_plain(rest),
        _ => false,
    }
}

/// A type of at most sixteen words, and items of at most 128 bytes, that is no payload of another form.
#[derive(Clone, Copy, Debug)]
pub struct Compound {
    nodes: [Node; 16],
    len: u8,
    // The size and alignment of an item: found once, when the type is made.
    size: u8,
    align: u8,
}

impl Model for Compound {
    ghost use Rattle.std.specs.Prelude.{List, take, length};
    ghost use Rattle.std.proofs.Common.{arith, length-take-le, sym};
    ghost use Rattle.strm_codes.specs.Padded.{padded};
    ghost use Rattle.strm_codes.specs.ItemTypes.{item_size, align_of};
    ghost use Rattle.strm_codes.specs.Spellings.{spelled, first_type};
    ghost use Rattle.strm_codes.specs.declared.nodes.Node.{Node};
    ghost use Rattle.strm_codes.specs.declared.nodes.Node.TheVariants as node;
    ghost use Rattle.strm_codes.specs.Kept.{IsKept};

    ghost Value = { List Node };

    ghost view = { λ c. take c.len c.nodes };

    ghost invariant = { λ c. IsKept c.nodes c.len c.size c.align };

    ghost inverse = { λ ns. record {
      nodes = padded 16 node.Nothing ns;
      len = length ns;
      size = item_size (first_type (spelled ns));
      align = align_of (first_type (spelled ns));
    } };

    ghost inverse_ok = { λ c h i. record {
      nodes = sym h.padded.behind i;
      len = length-take-le c.len c.nodes (omega (arith, h.padded.most, h.padded.whole)) i;
      size = sym h.measured i;
      align = sym h.aligned i;
    } };
}

impl Compound {
    /// The type that these words spell; none where they spell no type, more than one, or a payload of
    /// another form.
    pub fn new(nodes: &[Node]) -> Option<Compound>
        ensures some { IsSome result ↔ IsCompound nodes.now }
        ensures value { IfSome result (λ compound. compound ≡ nodes.now) }
    {
        let len = nodes.len();
        if len > 16 || is_flat(nodes) {
            return None;
        }
        let Some(types) = types_in(nodes) else {
            return None;
        };
        if types != 1 {
            return None;
        }
        let span = span_of(nodes, 1, 0);
        let mut array = [Node::Nothing; 16];
        array[..len].copy_from_slice(nodes);
        Some(Compound {
            nodes: array,
            len: len as u8,
            size: span.most as u8,
            align: span.align as u8,
        })
    }

    /// The words.
    pub fn as_slice(&self) -> &[Node]
        ensures exact { result.now ≡ self.now }
        ensures spelled { IsCompound result.now }
    {
        &self.nodes[..self.len as usize]
    }

    // The bytes of an item.
    pub(crate) fn size(&self) -> u32
        ensures exact { result ≡ item_size (first_type (spelled self.now)) }
        ensures most { result ≤ 128 }
    {
        u32::from(self.size)
    }

    // The alignment of an item.
    pub(crate) fn align(&self) -> u32
        ensures exact { result ≡ align_of (first_type (spelled self.now)) }
        ensures some { 1 ≤ result }
        ensures most { result ≤ 8 }
    {
        u32::from(self.align)
    }
}

impl PartialEq for Compound {
    ghost use Rattle.std.specs.Cmp.{partial_equiv_from_equiv, and_equiv, on_equiv, nat_eq_equiv};
    ghost use Rattle.std.proofs.lemmas.Cmp.{lists_equiv};
    ghost use Rattle.strm_codes.specs.Sameness.{node_kind, node_count, same_nodes};

    ghost eq = { same_nodes };

    ghost laws = { partial_equiv_from_equiv (lists_equiv (and_equiv (on_equiv node_kind nat_eq_equiv)
        (on_equiv node_count nat_eq_equiv))) };

    fn eq(&self, other: &Compound) -> bool {
        self.as_slice() == other.as_slice()
    }
}

impl Eq for Compound {
    ghost use Rattle.std.specs.Cmp.{and_equiv, on_equiv, nat_eq_equiv};
    ghost use Rattle.std.proofs.lemmas.Cmp.{lists_equiv};
    ghost use Rattle.strm_codes.specs.Sameness.{node_kind, node_count};

    ghost laws = { lists_equiv (and_equiv (on_equiv node_kind nat_eq_equiv)
        (on_equiv node_count nat_eq_equiv)) };
}

//! The size and alignment of an item, from its type's spelling.
//!
//! Source: Canonical ABI, "Alignment" and "Element Size".

ghost use Rattle.std.specs.Prelude.{◌≡◌, ◌+◌, ◌*◌, ◌^◌, ◌<◌, ◌≤◌, List, length, drop};
ghost use Rattle.strm_codes.specs.ItemTypes.{ItemType, Variant, Parts, count, flags_size, discriminant_size, rounded, most_align, most_size};
ghost use Rattle.strm_codes.specs.Measures.{extent, span};
ghost use Rattle.strm_codes.specs.Spellings.{arity, behind, spelled, taken, type_with, AreSpelled};

use crate::nodes::Node;

/// The bytes of an item, and its alignment.
#[derive(Clone, Copy, Debug)]
pub struct Extent {
    pub bytes: u32,
    pub align: u32,
}

/// Where fields end, and the greatest alignment and size of parts.
#[derive(Clone, Copy, Debug)]
pub struct Span {
    pub end: u32,
    pub align: u32,
    pub most: u32,
}

/// How many parts stand behind a word.
pub fn arity(node: Node) -> u32
    ensures exact { result ≡ arity node }
    ensures most { result ≤ 255 }
{
    match node {
        Node::Option => 1,
        Node::Result => 2,
        Node::Tuple(fields) => u32::from(fields),
        Node::Variant(cases) => u32::from(cases),
        Node::Nothing | Node::Plain(_) | Node::Flags(_) | Node::Enum(_) => 0,
    }
}

/// The words behind those of the first so many types.
#[tactic(auto, unfolding(crate::specs::Spellings::behind))]
pub fn skip(nodes: &[Node], types: u32) -> &[Node]
    requires { types + 255 * length nodes.now < 2 ^ 32 }
    ensures { result.now ≡ behind types nodes.now }
{
    if types == 0 {
        return nodes;
    }
    let Some((node, rest)) = nodes.split_first() else {
        return nodes;
    };
    skip(rest, arity(*node) + (types - 1))
}

pub fn round(at: u32, size: u32) -> u32
    requires some { 1 ≤ size }
    requires most { size ≤ 8 }
    requires small { at ≤ 100000 }
    ensures exact { result ≡ rounded at size }
    ensures near { result ≤ at + 7 }
{
    at + (size - at % size) % size
}

fn discriminant_size(cases: u32) -> u32
    ensures exact { result ≡ discriminant_size cases }
    ensures some { 1 ≤ result }
    ensures most { result ≤ 4 }
{
    if cases < 257 {
        1
    } else if cases < 65537 {
        2
    } else {
        4
    }
}

pub fn flags_size(flags: u32) -> u32
    ensures exact { result ≡ flags_size flags }
    ensures some { 1 ≤ result }
    ensures most { result ≤ 4 }
{
    if flags < 9 {
        1
    } else if flags < 17 {
        2
    } else {
        4
    }
}

// The extent of a variant of so many cases.
fn variant_extent(cases: u32, values: Span) -> Extent
    requires some { 1 ≤ values.align }
    requires most { values.align ≤ 8 }
    requires small { values.most ≤ 128 }
    ensures exact { (ps : Parts) → cases ≡ count ps → values.align ≡ most_align ps → values.most ≡ most_size ps
        → result ≡ extent (Variant ps) }
    ensures some { 1 ≤ result.align }
    ensures most { result.align ≤ 8 }
    ensures small { result.bytes ≤ 256 }
{
    let width = discriminant_size(cases);
    let align = width.max(values.align);
    let bytes = round(round(width, values.align) + values.most, align);
    Extent { bytes, align }
}

// The extent of the type of a word, from that of its parts.
pub fn extent_of(node: Node, parts: Span) -> Extent
    requires some { 1 ≤ parts.align }
    requires most { parts.align ≤ 8 }
    requires small { parts.most ≤ 128 }
    requires end { parts.end ≤ 65536 }
    ensures exact { (ts : List ItemType) → arity node ≤ length ts → parts ≡ span 0 (taken (arity node) ts)
        → result ≡ extent (type_with node ts) }
    ensures some { 1 ≤ result.align }
    ensures most { result.align ≤ 8 }
{
    match node {
        Node::Nothing => Extent { bytes: 0, align: 1 },
        Node::Plain(scalar) => {
            let size = scalar.size();
            Extent {
                bytes: size,
                align: size,
            }
        }
        Node::Flags(flags) => {
            let size = flags_size(u32::from(flags));
            Extent {
                bytes: size,
                align: size,
            }
        }
        Node::Enum(cases) => variant_extent(
            u32::from(cases),
            Span {
                end: 0,
                align: 1,
                most: 0,
            },
        ),
        Node::Option => variant_extent(2, parts),
        Node::Result => variant_extent(2, parts),
        Node::Tuple(_) => Extent {
            bytes: round(parts.end, parts.align),
            align: parts.align,
        },
        Node::Variant(cases) => variant_extent(u32::from(cases), parts),
    }
}

/// The span of the first so many types that are spelled, as parts of one type.
#[tactic(auto, unfolding(crate::specs::Spellings::spelled, crate::specs::Spellings::AreSpelled))]
pub fn span_of(nodes: &[Node], parts: u32, at: u32) -> Span
    requires spelled { AreSpelled nodes.now }
    requires parts { parts ≤ length (spelled nodes.now) }
    requires most { parts ≤ 255 }
    requires few { length nodes.now ≤ 16 }
    requires small { at + 136 * parts ≤ 65536 }
    ensures exact { result ≡ span at (taken parts (spelled nodes.now)) }
    ensures some { 1 ≤ result.align }
    ensures most { result.align ≤ 8 }
    ensures small { result.most ≤ 128 }
    ensures end { result.end ≤ at + 136 * parts }
{
    if parts == 0 {
        return Span {
            end: at,
            align: 1,
            most: 0,
        };
    }
    let Some((node, rest)) = nodes.split_first() else {
        return Span {
            end: at,
            align: 1,
            most: 0,
        };
    };
    let own = arity(*node);
    let first = extent_of(*node, span_of(rest, own, 0));
    let end = round(at, first.align) + first.bytes;
    let more = span_of(skip(rest, own), parts - 1, end);
    Span {
        end: more.end,
        align: first.align.max(more.align),
        most: first.bytes.max(more.most),
    }
}

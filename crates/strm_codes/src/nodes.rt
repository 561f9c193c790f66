//! The spelling of types that hold other types: each constructor before its parts.
//!
//! Source: Component Model, "Type Definitions": those types that hold no pointer and no handle.

ghost use Rattle.std.specs.Prelude.{◌≡◌, ◌≤◌, slice_get};
ghost use Rattle.strm_codes.specs.NodeBytes.{node_byte, node_of_byte, all_scalars};
ghost use Rattle.strm_codes.specs.Sameness.{node_kind, node_count};
ghost use Rattle.strm_codes.specs.Spellings.{arity, HasCount};

use crate::scalars::Scalar;

/// A word of a spelling. A record of fields is spelled as the tuple of them.
#[derive(Clone, Copy, Debug)]
pub enum Node {
    /// No value: what a case of a variant or a side of a result may hold.
    Nothing,
    Plain(Scalar),
    /// So many flags, 1 to 32.
    Flags(u8),
    /// So many cases without values, 1 to 128.
    Enum(u8),
    /// Before the type of the value that may be there.
    Option,
    /// Before the type of the value of `ok`, and that of `error`.
    Result,
    /// Before the types of so many fields.
    Tuple(u8),
    /// Before the types of the values of so many cases.
    Variant(u8),
}

impl Node {
    /// The byte that stands for it.
    pub fn to_byte(self) -> u8
        requires counted { HasCount self }
        requires few { arity self ≤ 15 }
        ensures { result ≡ node_byte self }
    {
        match self {
            Node::Plain(scalar) => 1 + scalar as u8,
            Node::Nothing => 13,
            Node::Option => 14,
            Node::Result => 15,
            Node::Tuple(fields) => 16 + fields,
            Node::Variant(cases) => 32 + cases,
            Node::Flags(flags) => 47 + flags,
            Node::Enum(cases) => 127 + cases,
        }
    }

    /// The word that a byte stands for, if it stands for one.
    pub fn from_byte(byte: u8) -> Option<Node>
        ensures { result ≡ node_of_byte byte }
    {
        match byte {
            1..=12 => scalar_at(byte - 1).map(Node::Plain),
            13 => Some(Node::Nothing),
            14 => Some(Node::Option),
            15 => Some(Node::Result),
            17..=31 => Some(Node::Tuple(byte - 16)),
            33..=47 => Some(Node::Variant(byte - 32)),
            48..=79 => Some(Node::Flags(byte - 47)),
            128..=255 => Some(Node::Enum(byte - 127)),
            _ => None,
        }
    }

    // Which constructor it is.
    fn kind(self) -> u8
        ensures { result ≡ node_kind self }
    {
        match self {
            Node::Nothing => 0,
            Node::Plain(_) => 1,
            Node::Flags(_) => 2,
            Node::Enum(_) => 3,
            Node::Option => 4,
            Node::Result => 5,
            Node::Tuple(_) => 6,
            Node::Variant(_) => 7,
        }
    }

    // How many flags, cases or fields it has; of a scalar its place among the scalars.
    fn count(self) -> u8
        ensures { result ≡ node_count self }
    {
        match self {
            Node::Nothing | Node::Option | Node::Result => 0,
            Node::Plain(scalar) => scalar as u8,
            Node::Flags(count) | Node::Enum(count) | Node::Tuple(count) | Node::Variant(count) => {
                count
            }
        }
    }
}

// The scalar of a place.
fn scalar_at(place: u8) -> Option<Scalar>
    ensures { result ≡ slice_get all_scalars place }
{
    let all = [
        Scalar::Bool,
        Scalar::S8,
        Scalar::U8,
        Scalar::S16,
        Scalar::U16,
        Scalar::S32,
        Scalar::U32,
        Scalar::S64,
        Scalar::U64,
        Scalar::Char,
        Scalar::F32,
        Scalar::F64,
    ];
    all.get(usize::from(place)).copied()
}

impl PartialEq for Node {
    ghost use Rattle.std.specs.Cmp.{partial_equiv_from_equiv, and_equiv, on_equiv, nat_eq_equiv};
    ghost use Rattle.strm_codes.specs.Sameness.{node_kind, node_count, same_node};

    ghost eq = { same_node };

    ghost laws = { partial_equiv_from_equiv (and_equiv (on_equiv node_kind nat_eq_equiv)
        (on_equiv node_count nat_eq_equiv)) };

    fn eq(&self, other: &Node) -> bool {
        self.kind() == other.kind() && self.count() == other.count()
    }
}

impl Eq for Node {
    ghost use Rattle.std.specs.Cmp.{and_equiv, on_equiv, nat_eq_equiv};
    ghost use Rattle.strm_codes.specs.Sameness.{node_kind, node_count};

    ghost laws = { and_equiv (on_equiv node_kind nat_eq_equiv) (on_equiv node_count nat_eq_equiv) };
}

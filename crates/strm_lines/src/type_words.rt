//! Types that hold other types, read from the word that spells them.
//!
//! Source: ours; the names are those of the Component Model's text format.

ghost use Rattle.std.specs.Prelude.{◌≡◌, ◌≤◌, [], length, drop, slice_set, IfSome};
ghost use Rattle.std.specs.Option.{option_map};
ghost use Rattle.strm_lines.specs.Reading.{ends_name, name_cut, flags_read, enum_read, plain_read, is_nothing, pushed, holding, closed, leaf_front, parts_by, type_front, compound_read};

use crate::words::{behind, number_within, scalar};
use std::marker::Model;
use strm_codes::compounds::Compound;
use strm_codes::nodes::Node;

// At most sixteen words of types, as many as were read.
#[derive(Drop)]
struct TypeWords {
    nodes: [Node; 16],
    len: usize,
}

impl Model for TypeWords {
    ghost use Rattle.std.specs.Prelude.{◌≡◌, ◌≤◌, List, length, take};
    ghost use Rattle.strm_codes.specs.declared.nodes.Node.{Node};

    ghost Value = { List Node };

    ghost view = { λ w. take w.len w.nodes };

    ghost invariant = { λ w. (length w.nodes ≡ 16) × (w.len ≤ 16) };
}

impl TypeWords {
    // No words.
    fn new() -> TypeWords
        ensures { result ≡ [] }
    {
        TypeWords {
            nodes: [Node::Nothing; 16],
            len: 0,
        }
    }

    fn len(&self) -> usize
        ensures { result ≡ length self.now }
    {
        self.len
    }

    // The words, lent.
    fn as_slice(&self) -> &[Node]
        ensures exact { result.now ≡ self.now }
        ensures most { length result.now ≤ 16 }
    {
        &self.nodes[..self.len]
    }

    // One word more; none where there are sixteen.
    #[tactic(auto, unfolding(crate::specs::Reading::pushed))]
    fn push(&mut self, node: Node) -> Option<()>
        ensures { option_map (λ _. self.new) result ≡ pushed node self.old }
    {
        if self.len == 16 {
            return None;
        }
        self.nodes[self.len] = node;
        self.len += 1;
        Some(())
    }

    // Another word at a place that has one.
    fn set(&mut self, place: usize, node: Node)
        ensures { self.new ≡ slice_set self.old place node }
    {
        if place < self.len {
            self.nodes[place] = node;
        }
    }

    // Whether the words from a place on begin with no value.
    fn is_nothing(&self, place: usize) -> bool
        ensures { result ≡ is_nothing (drop place self.now) }
    {
        place < self.len && matches!(self.nodes[place], Node::Nothing)
    }
}

// So many parts, whether the last is no value, and what follows the bracket behind them.
#[derive(Drop)]
struct Parts<'a> {
    count: u8,
    ends_empty: bool,
    rest: &'a [u8],
}

// Whether a byte ends a name.
fn ends_name(byte: u8) -> bool
    ensures { result ≡ ends_name byte }
{
    byte == b'<' || byte == b',' || byte == b'>'
}

// What stands before the first `<`, `,` or `>`, and what follows from there on.
fn name(text: &[u8]) -> (&[u8], &[u8])
    ensures { (result.0.now, result.1.now) ≡ name_cut text.now }
{
    for at in 0..text.len() {
        if ends_name(text[at]) {
            return text.split_at(at);
        }
    }
    text.split_at(text.len())
}

// Flags, by their number.
#[tactic(auto, unfolding(crate::specs::Reading::flags_read))]
fn flags(count: &[u8]) -> Option<Node>
    ensures { result ≡ flags_read count.now }
{
    match number_within(count, 1, 32) {
        Some(flags) => Some(Node::Flags(flags as u8)),
        None => None,
    }
}

// An enum, by the number of its cases.
#[tactic(auto, unfolding(crate::specs::Reading::enum_read))]
fn enumeration(count: &[u8]) -> Option<Node>
    ensures { result ≡ enum_read count.now }
{
    match number_within(count, 1, 128) {
        Some(cases) => Some(Node::Enum(cases as u8)),
        None => None,
    }
}

// A type without parts, by its name.
#[tactic(auto, unfolding(crate::specs::Reading::plain_read))]
fn plain_node(name: &[u8]) -> Option<Node>
    ensures { result ≡ plain_read name.now }
{
    if name == b"_".as_slice() {
        return Some(Node::Nothing);
    }
    if let Some(count) = behind(name, b"flags") {
        return flags(count);
    }
    if let Some(count) = behind(name, b"enum") {
        return enumeration(count);
    }
    match scalar(name) {
        Some(scalar) => Some(Node::Plain(scalar)),
        None => None,
    }
}

// The word of a type that holds so many others and is no result, by its name.
#[tactic(auto, unfolding(crate::specs::Reading::holding))]
fn holding_node(name: &[u8], parts: u8) -> Option<Node>
    ensures { result ≡ holding name.now parts }
{
    if name == b"option".as_slice() {
        return if parts == 1 { Some(Node::Option) } else { None };
    }
    if name == b"record".as_slice() {
        return Some(Node::Tuple(parts));
    }
    if name == b"variant".as_slice() {
        return Some(Node::Variant(parts));
    }
    None
}

// Reads a type without brackets from its name.
#[tactic(auto, unfolding(crate::specs::Reading::leaf_front))]
fn read_leaf(name: &[u8], words: &mut TypeWords) -> Option<()>
    ensures { option_map (λ _. words.new) result ≡ leaf_front name.now words.old }
{
    if name == b"result".as_slice() {
        words.push(Node::Result)?;
        words.push(Node::Nothing)?;
        return words.push(Node::Nothing);
    }
    let node = plain_node(name)?;
    words.push(node)
}

// Ends a type whose parts were read: its own word stands at a place kept for it.
#[tactic(auto, unfolding(crate::specs::Reading::closed))]
fn close(
    name: &[u8],
    place: usize,
    count: u8,
    ends_empty: bool,
    words: &mut TypeWords,
) -> Option<()>
    ensures { option_map (λ _. words.new) result ≡ closed name.now place count ends_empty words.old }
{
    if name == b"result".as_slice() {
        // `result<_>` and `result<T,_>` are `result` and `result<T>`.
        if ends_empty || count > 2 {
            return None;
        }
        words.set(place, Node::Result);
        return if count == 1 {
            words.push(Node::Nothing)
        } else {
            Some(())
        };
    }
    let node = holding_node(name, count)?;
    words.set(place, node);
    Some(())
}

// Reads a type, of less than so many in one another, from the front of a text, and tells what follows.
#[cycle(types)]
fn read_type<'a>(text: &'a [u8], words: &mut TypeWords, depth: u8) -> Option<&'a [u8]>
    ensures { option_map (λ rest. (words.new, rest.now)) result ≡ type_front depth words.old text.now }
{
    if depth == 0 {
        return None;
    }
    let (name, rest) = name(text);
    let Some(inside) = behind(rest, b"<") else {
        read_leaf(name, words)?;
        return Some(rest);
    };
    let place = words.len();
    // Its own word is known once its parts are counted.
    words.push(Node::Nothing)?;
    let parts = read_parts(inside, words, depth - 1, depth - 1)?;
    close(name, place, parts.count, parts.ends_empty, words)?;
    Some(parts.rest)
}

// Reads at most so many types, separated by commas, up to the closing bracket.
#[cycle(types)]
fn read_parts<'a>(text: &'a [u8], words: &mut TypeWords, depth: u8, most: u8) -> Option<Parts<'a>>
    ensures exact { option_map (λ p. (p.count, p.ends_empty, words.new, p.rest.now)) result
        ≡ parts_by (type_front depth) most words.old text.now }
    ensures few { IfSome result (λ p. p.count ≤ most) }
{
    if most == 0 {
        return None;
    }
    let place = words.len();
    let rest = read_type(text, words, depth)?;
    if let Some(rest) = behind(rest, b">") {
        return Some(Parts {
            count: 1,
            ends_empty: words.is_nothing(place),
            rest,
        });
    }
    let others = behind(rest, b",")?;
    let parts = read_parts(others, words, depth, most - 1)?;
    Some(Parts {
        count: parts.count + 1,
        ..parts
    })
}

// The type that a word spells, where it is none of nothing, a scalar and a tuple of scalars.
#[tactic(auto, unfolding(crate::specs::Reading::compound_read))]
pub(crate) fn compound(word: &[u8]) -> Option<Compound>
    ensures { result ≡ compound_read word.now }
{
    let mut words = TypeWords::new();
    let rest = read_type(word, &mut words, 16)?;
    if !rest.is_empty() {
        return None;
    }
    Compound::new(words.as_slice())
}

//! Walks over numbers. Each goes by rising number, and ends.
//!
//! Source: wasmtime, `resource_table.rs`, `iter_children` and `iter_entries`.

ghost use Rattle.std.specs.Iterator.{YieldsFirst, item_count};

use crate::nodes::Node;
use std::collections::btree_set;
use std::marker::Model;

/// The numbers in use, seen as the list of those that are left.
#[derive(Drop)]
pub struct Keys<'a> {
    pub(crate) nodes: &'a [Option<Node>],
    // The number of the first of `nodes`.
    pub(crate) number: usize,
}

impl<'a> Model for Keys<'a> {
    ghost use Rattle.std.specs.Prelude.{ℕ, ◌+◌, ◌≤◌, List, length};
    ghost use Rattle.strm_resources.specs.Numbers.{used_numbers_from};

    ghost Value = { List ℕ };

    ghost view = { λ keys. used_numbers_from keys.number keys.nodes.now };

    ghost invariant = { λ keys. keys.number + length keys.nodes.now ≤ 4294967296 };
}

impl<'a> Iterator for Keys<'a> {
    type Item = u32;

    ghost next_gives = { YieldsFirst (λ rest. rest) };

    ghost remaining = { item_count (λ rest. rest) };

    fn next(&mut self) -> Option<u32> {
        while let Some((node, rest)) = self.nodes.split_first() {
            let number = self.number;
            self.nodes = rest;
            self.number += 1;
            if node.is_some() {
                return Some(number as u32);
            }
        }
        None
    }
}

/// The children of a number, seen as the list of those that are left.
#[derive(Drop)]
pub struct Children<'a> {
    pub(crate) inner: btree_set::Iter<'a, u32>,
}

impl<'a> Model for Children<'a> {
    ghost use Rattle.std.specs.Prelude.{ℕ, List};

    ghost Value = { List ℕ };

    ghost view = { λ children. children.inner };
}

impl<'a> Iterator for Children<'a> {
    type Item = u32;

    ghost next_gives = { YieldsFirst (λ rest. rest) };

    ghost remaining = { item_count (λ rest. rest) };

    fn next(&mut self) -> Option<u32> {
        self.inner.next().copied()
    }
}

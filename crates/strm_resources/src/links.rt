//! Which numbers are given out, and which of them is whose child.
//!
//! Source: wasmtime, `resource_table.rs`, `ResourceTable`, which threads the free entries; here a
//! stack of their numbers stands beside the entries.

ghost use Rattle.std.specs.Prelude.{◌≡◌, ◌≢◌, ◌+◌, ◌<◌, ◌≤◌, [], ◌∷◌, length, drop, reverse, true, false, is_some, IfSome, Some, None, OnOk, OnErr, IfOk, IsOk, slice_set, option_copied, vec_len, vec_capacity};
ghost use Rattle.strm_resources.specs.Nodes.{new_node, with_new_child, node_at, parent_at, children_at, is_childless, linked, unlinked, cut, next_node, filled};
ghost use Rattle.strm_resources.specs.Links.{none_freed, is_full, IsLinked};
ghost use Rattle.strm_resources.specs.Numbers.{used_numbers_from, ListsNumbers};
ghost use Rattle.std.specs.List.Sorted.{IsStrictlyIncreasing};

use crate::nodes::{Node, add_child, remove_child, set_parent};
use crate::walks::{Children, Keys};
use std::alloc::{AllocError, Global};
use std::marker::Model;

/// The nodes of a table, by number, and the numbers to be given again.
#[derive(Drop)]
pub(crate) struct Links {
    nodes: Vec<Option<Node>>,
    // The numbers of the vacant nodes, the one freed last at the end. All numbers have room here.
    freed: Vec<u32>,
    alloc: Global,
}

impl Model for Links {
    ghost use Rattle.std.specs.Prelude.{◌+◌, ◌-◌, min, reverse, vec_len, vec_capacity};
    ghost use Rattle.strm_resources.specs.Links.{Links as Seen, links_code, AreNodesHeld};

    ghost Value = { Seen };

    ghost coded = { links_code };

    ghost view = { λ l. record {
      nodes = l.nodes.items;
      freed = reverse l.freed.items;
      room = min (vec_capacity l.nodes) (vec_capacity l.freed) - vec_len l.nodes + vec_len l.freed;
    } };

    ghost invariant = { λ l. AreNodesHeld l.nodes.items (reverse l.freed.items) (vec_capacity l.freed) };
}

// Fills the slot of the number freed last, else a new one.
fn fill(nodes: &mut Vec<Option<Node>>, freed: &mut Vec<u32>, node: Node) -> u32
    requires inside { freed.old.items ≢ []
        → next_node (reverse freed.old.items) (length nodes.old.items) < vec_len nodes.old }
    requires small { next_node (reverse freed.old.items) (length nodes.old.items) ≤ 4294967295 }
    requires room { freed.old.items ≡ [] → vec_len nodes.old < vec_capacity nodes.old }
    ensures number { result ≡ next_node (reverse freed.old.items) (length nodes.old.items) }
    ensures nodes { nodes.new.items ≡ filled (reverse freed.old.items) nodes.old.items node }
    ensures freed { reverse freed.new.items ≡ drop 1 (reverse freed.old.items) }
    ensures count { vec_len nodes.new + vec_len freed.old
        ≡ vec_len nodes.old + vec_len freed.new + 1 }
    ensures capacity { vec_capacity nodes.new ≡ vec_capacity nodes.old }
    ensures freed_capacity { vec_capacity freed.new ≡ vec_capacity freed.old }
{
    match freed.pop() {
        Some(number) => {
            nodes[number as usize] = Some(node);
            number
        }
        None => {
            let number = nodes.len() as u32;
            nodes.push_reserved(Some(node));
            number
        }
    }
}

impl Links {
    /// No numbers. It allocates nothing.
    pub(crate) fn new(alloc: Global) -> Links
        ensures nodes { result.nodes ≡ [] }
        ensures freed { result.freed ≡ [] }
    {
        Links {
            nodes: Vec::new(alloc),
            freed: Vec::new(alloc),
            alloc,
        }
    }

    /// No numbers, with room for so many.
    pub(crate) fn with_capacity(alloc: Global, capacity: usize) -> Result<Links, AllocError>
        ensures nodes { IfOk result (λ l. l.nodes ≡ []) }
        ensures freed { IfOk result (λ l. l.freed ≡ []) }
        ensures room { IfOk result (λ l. capacity ≤ l.room) }
    {
        Ok(Links {
            nodes: Vec::with_capacity(alloc, capacity)?,
            freed: Vec::with_capacity(alloc, capacity)?,
            alloc,
        })
    }

    /// Freed numbers are those without a node, and each child link has its parent link and back.
    pub(crate) fn are_kept(&self)
        ensures { IsLinked self.now.nodes self.now.freed }
    {
        let _ = &self.nodes;
    }

    fn node(&self, number: u32) -> Option<&Node>
        ensures { option_copied result ≡ node_at self.now.nodes number }
    {
        match self.nodes.get(number as usize) {
            Some(Some(node)) => Some(node),
            _ => None,
        }
    }

    /// Whether a number is given out.
    pub(crate) fn contains(&self, number: u32) -> bool
        ensures { result ≡ is_some (node_at self.now.nodes number) }
    {
        self.node(number).is_some()
    }

    /// The parent of a number, if it has one.
    pub(crate) fn parent(&self, number: u32) -> Option<u32>
        ensures { result ≡ parent_at self.now.nodes number }
    {
        match self.node(number) {
            Some(node) => node.parent(),
            None => None,
        }
    }

    /// Whether no number has this one as its parent.
    #[tactic(auto, using(crate::proofs::NodeLemmas::empty_is_childless))]
    pub(crate) fn is_childless(&self, number: u32) -> bool
        ensures { result ≡ is_childless (children_at self.now.nodes number) }
    {
        match self.node(number) {
            Some(node) => node.is_childless(),
            None => true,
        }
    }

    /// The children of a number, ascending, if the number is given out.
    pub(crate) fn children(&self, number: u32) -> Option<Children<'_>>
        ensures some { is_some result ≡ is_some (node_at self.now.nodes number) }
        ensures value { IfSome result (ListsNumbers (children_at self.now.nodes number)) }
    {
        match self.node(number) {
            Some(node) => Some(node.children()),
            None => None,
        }
    }

    /// The numbers that are given out, ascending.
    pub(crate) fn keys(&self) -> Keys<'_>
        ensures exact { result ≡ used_numbers_from 0 self.now.nodes }
        ensures ascending { IsStrictlyIncreasing result }
    {
        Keys {
            nodes: self.nodes.as_slice(),
            number: 0,
        }
    }

    /// Whether no number can be given where so many may be.
    pub(crate) fn is_full(&self, capacity: usize) -> bool
        ensures exact { result ≡ is_full self.now.freed (length self.now.nodes) capacity }
        ensures small { result ≡ false
            → next_node self.now.freed (length self.now.nodes) ≤ 4294967295 }
    {
        self.freed.is_empty()
            && (self.nodes.len() >= capacity || self.nodes.len() > u32::MAX as usize)
    }

    /// Whether the next number is a new one.
    pub(crate) fn gives_new(&self) -> bool
        ensures { result ≡ none_freed self.now.freed }
    {
        self.freed.is_empty()
    }

    /// Room for a number. Where there is none, nothing changes.
    pub(crate) fn reserve(&mut self) -> Result<(), AllocError>
        ensures nodes { self.new.nodes ≡ self.old.nodes }
        ensures freed { self.new.freed ≡ self.old.freed }
        ensures ok { OnOk result (0 < self.new.room) }
        ensures succeeds { 0 < self.old.room → IsOk result }
        ensures room { self.old.room ≤ self.new.room }
        ensures err { OnErr result (self.new ≡ self.old) }
    {
        if self.freed.is_empty() {
            self.freed.reserve(self.nodes.len() + 1)?;
            self.nodes.reserve(1)?;
        }
        Ok(())
    }

    /// Gives a number with no links: the one freed last, else a new one.
    pub(crate) fn insert(&mut self) -> u32
        requires room { 0 < self.old.room }
        requires small { next_node self.old.freed (length self.old.nodes) ≤ 4294967295 }
        ensures number { result ≡ next_node self.old.freed (length self.old.nodes) }
        ensures inside { self.old.freed ≢ [] → result < length self.old.nodes }
        ensures nodes { self.new.nodes ≡ filled self.old.freed self.old.nodes (new_node None) }
        ensures freed { self.new.freed ≡ drop 1 self.old.freed }
        ensures room { self.new.room + 1 ≡ self.old.room }
    {
        let node = Node::new(self.alloc, None);
        fill(&mut self.nodes, &mut self.freed, node)
    }

    /// Makes one number the child of another. Where there is no memory, nothing changes.
    pub(crate) fn link(&mut self, child: u32, parent: u32) -> Result<(), AllocError>
        requires child { is_some (node_at self.old.nodes child) ≡ true }
        requires parent { is_some (node_at self.old.nodes parent) ≡ true }
        requires loose { parent_at self.old.nodes child ≡ None }
        ensures nodes { OnOk result (self.new.nodes ≡ linked self.old.nodes child parent) }
        ensures freed { self.new.freed ≡ self.old.freed }
        ensures room { self.new.room ≡ self.old.room }
        ensures err { OnErr result (self.new ≡ self.old) }
    {
        add_child(&mut self.nodes[parent as usize], child)?;
        set_parent(&mut self.nodes[child as usize], Some(parent));
        Ok(())
    }

    /// Ends the link of a child to its parent. No memory is taken.
    pub(crate) fn unlink(&mut self, child: u32, parent: u32)
        requires { parent_at self.old.nodes child ≡ Some parent }
        ensures nodes { self.new.nodes ≡ unlinked self.old.nodes child parent }
        ensures freed { self.new.freed ≡ self.old.freed }
        ensures room { self.new.room ≡ self.old.room }
    {
        remove_child(&mut self.nodes[parent as usize], child);
        set_parent(&mut self.nodes[child as usize], None);
    }

    fn cut(&mut self, child: u32)
        ensures nodes { self.new.nodes ≡ cut self.old.nodes child }
        ensures freed { self.new.freed ≡ self.old.freed }
        ensures room { self.new.room ≡ self.old.room }
    {
        if let Some(parent) = self.parent(child) {
            self.unlink(child, parent);
        }
    }

    /// The number that is given next.
    fn next(&self) -> u32
        requires { next_node self.now.freed (length self.now.nodes) ≤ 4294967295 }
        ensures { result ≡ next_node self.now.freed (length self.now.nodes) }
    {
        match self.freed.last() {
            Some(number) => *number,
            None => self.nodes.len() as u32,
        }
    }

    /// Gives a number as the child of another. Where there is no memory, nothing changes.
    pub(crate) fn insert_child(&mut self, parent: u32) -> Result<u32, AllocError>
        requires room { 0 < self.old.room }
        requires small { next_node self.old.freed (length self.old.nodes) ≤ 4294967295 }
        requires parent { is_some (node_at self.old.nodes parent) ≡ true }
        ensures number { IfOk result (λ n. n ≡ next_node self.old.freed (length self.old.nodes)) }
        ensures inside { IfOk result (λ n. self.old.freed ≢ [] → n < length self.old.nodes) }
        ensures nodes { OnOk result
            (self.new.nodes ≡ with_new_child self.old.freed self.old.nodes parent) }
        ensures freed { OnOk result (self.new.freed ≡ drop 1 self.old.freed) }
        ensures room { OnOk result (self.new.room + 1 ≡ self.old.room) }
        ensures err { OnErr result (self.new ≡ self.old) }
    {
        let number = self.next();
        add_child(&mut self.nodes[parent as usize], number)?;
        let node = Node::new(self.alloc, Some(parent));
        Ok(fill(&mut self.nodes, &mut self.freed, node))
    }

    /// Takes a childless number back, which is given first from now on. No memory is taken.
    pub(crate) fn remove(&mut self, number: u32)
        requires present { is_some (node_at self.old.nodes number) ≡ true }
        requires childless { is_childless (children_at self.old.nodes number) ≡ true }
        ensures nodes { self.new.nodes ≡ slice_set (cut self.old.nodes number) number None }
        ensures freed { self.new.freed ≡ number ∷ self.old.freed }
        ensures room { self.new.room ≡ self.old.room + 1 }
    {
        self.cut(number);
        self.nodes[number as usize] = None;
        self.freed.push_reserved(number);
    }
}

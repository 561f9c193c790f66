//! What ties one entry to others.
//!
//! Source: wasmtime, `resource_table.rs`, `TableEntry`.

ghost use Rattle.std.specs.Prelude.{◌≡◌, Some, OnOk, OnErr, option_map};
ghost use Rattle.strm_resources.specs.Nodes.{is_childless, new_node, with_parent, with_child, without_child};
ghost use Rattle.strm_resources.specs.Numbers.{ListsNumbers};

use crate::walks::Children;
use std::alloc::{AllocError, Global};
use std::collections::BTreeSet;
use std::marker::Model;

/// The parent of an entry, and its children.
#[derive(Drop)]
pub(crate) struct Node {
    parent: Option<u32>,
    children: BTreeSet<u32>,
}

impl Model for Node {
    ghost use Rattle.std.specs.FinSet.{from_list};
    ghost use Rattle.strm_resources.specs.Nodes.{Node as Linked, node_code};

    ghost Value = { Linked };

    ghost coded = { node_code };

    ghost view = { λ node. record {
      parent = node.parent;
      children = from_list node.children.keys;
    } };
}

impl Node {
    /// A node with no children. It allocates nothing.
    pub(crate) fn new(alloc: Global, parent: Option<u32>) -> Node
        ensures { result ≡ new_node parent }
    {
        Node {
            parent,
            children: BTreeSet::new(alloc),
        }
    }

    pub(crate) fn parent(&self) -> Option<u32>
        ensures { result ≡ self.now.parent }
    {
        self.parent
    }

    pub(crate) fn is_childless(&self) -> bool
        ensures { result ≡ is_childless self.now.children }
    {
        self.children.is_empty()
    }

    /// The children, ascending.
    pub(crate) fn children(&self) -> Children<'_>
        ensures { ListsNumbers self.now.children result }
    {
        Children {
            inner: self.children.iter(),
        }
    }

    fn set_parent(&mut self, parent: Option<u32>)
        ensures { self.new ≡ with_parent parent self.old }
    {
        self.parent = parent;
    }

    fn add(&mut self, child: u32) -> Result<(), AllocError>
        ensures ok { OnOk result (self.new ≡ with_child child self.old) }
        ensures err { OnErr result (self.new ≡ self.old) }
    {
        self.children.insert(child)?;
        Ok(())
    }

    fn remove(&mut self, child: u32)
        ensures { self.new ≡ without_child child self.old }
    {
        self.children.remove(&child);
    }
}

/// Changes the parent of the node, if there is one.
pub(crate) fn set_parent(slot: &mut Option<Node>, parent: Option<u32>)
    ensures { slot.new ≡ option_map (with_parent parent) slot.old }
{
    if let Some(node) = slot {
        node.set_parent(parent);
    }
}

/// Adds a child to the node, if there is one.
pub(crate) fn add_child(slot: &mut Option<Node>, child: u32) -> Result<(), AllocError>
    ensures ok { OnOk result (slot.new ≡ option_map (with_child child) slot.old) }
    ensures err { OnErr result (slot.new ≡ slot.old) }
{
    match slot {
        Some(node) => node.add(child),
        None => Ok(()),
    }
}

/// Takes a child from the node, if there is one. No memory is taken.
pub(crate) fn remove_child(slot: &mut Option<Node>, child: u32)
    ensures { slot.new ≡ option_map (without_child child) slot.old }
{
    if let Some(node) = slot {
        node.remove(child);
    }
}

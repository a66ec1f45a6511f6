// A table of nodes and definitions.
ghost use Rattle.std.specs.Prelude.{◌≡◌, ◌≤◌, length};
ghost use Rattle.std.specs.List.{slice_get};
ghost use Rattle.jobs.specs.Placed.{PlacedBodies, PlacedNodes};

use crate::node::Node;

// The nodes, and the node that each definition has as its body.
#[derive(Drop, Debug, PartialEq, Eq)]
pub struct Table {
    pub(crate) nodes: Vec<Node>,
    pub(crate) bodies: Vec<u8>,
    ghost few: { length nodes.items ≤ 128 },
    ghost defined: { length bodies.items ≤ 32 },
    ghost placed: { PlacedNodes nodes.items (length bodies.items) },
    ghost exist: { PlacedBodies bodies.items (length nodes.items) },
}

impl Table {
    // The node of this number. Nodes stay a list: definitions call one another, and a node may be a part of many, so they are no tree.
    pub fn node(&self, n: u8) -> Option<Node>
        ensures { result ≡ slice_get self.now.nodes.items n }
    {
        self.nodes.get(usize::from(n)).copied()
    }

    // The body of this definition. It is asked for as a node is, but of a list of another type.
    pub fn body(&self, d: u8) -> Option<u8>
        ensures { result ≡ slice_get self.now.bodies.items d }
    {
        self.bodies.get(usize::from(d)).copied()
    }

    pub fn node_count(&self) -> usize
        ensures { result ≡ length self.now.nodes.items }
    {
        self.nodes.len()
    }

    pub fn def_count(&self) -> usize
        ensures { result ≡ length self.now.bodies.items }
    {
        self.bodies.len()
    }
}

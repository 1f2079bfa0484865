// The numbers of nodes.
ghost use Rattle.std.specs.Prelude.{◌≡◌, ◌==◌};
ghost use Rattle.rk_tree.specs.Hierarchy.{top};

use std::marker::Model;

/// A node of a tree, by its number. It stays the node's as long as the tree is there.
#[derive(Clone, Copy, PartialEq, Eq, Debug)]
pub struct NodeId {
    number: usize,
}

impl Model for NodeId {
    ghost use Rattle.std.specs.Prelude.{ℕ};

    ghost Value = { ℕ };

    ghost view = { λ n. n.number };

    ghost inverse = { λ n. record { number = n } };
}

impl NodeId {
    /// The root's, in every tree.
    pub fn root() -> NodeId
        ensures { result ≡ top }
    {
        NodeId { number: 0 }
    }

    /// Whether it is the root's number.
    pub fn is_root(self) -> bool
        ensures { result ≡ (self == top) }
    {
        self.number == 0
    }

    /// The node of a number.
    pub fn new(number: usize) -> NodeId
        ensures { result ≡ number }
    {
        NodeId { number }
    }

    /// Its number, for who keeps it among other numbers.
    pub fn number(self) -> usize
        ensures { result ≡ self }
    {
        self.number
    }
}

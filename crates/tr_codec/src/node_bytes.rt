// The bytes of nodes.
ghost use Rattle.std.specs.Prelude.{◌≡◌, IfOk, nat_eq};
ghost use Rattle.std.specs.Hash as fed;
ghost use Rattle.std.specs.Cmp.{partial_equiv_from_equiv, nat_eq_equiv, unsigned_Decides};
ghost use Rattle.std.specs.Cmp.Lexicographic.{pointwise, lists_equiv};

use rk_base::NoMemory;
use std::alloc::Global;
use std::hash::{Hash, Hasher};
use std::marker::Model;

/// The bytes of a node, which nothing else shares: so they take no more memory than they need.
#[derive(Debug, Drop)]
pub struct NodeBytes {
    bytes: Vec<u8>,
}

impl Model for NodeBytes {
    ghost use Rattle.std.specs.Prelude.{List, ℕ};

    ghost Value = { List ℕ };

    ghost view = { λ b. b.bytes.items };
}

impl NodeBytes {
    /// A copy of these bytes.
    pub fn from_slice(alloc: Global, bytes: &[u8]) -> Result<NodeBytes, NoMemory>
        ensures { IfOk result (λ b. b ≡ bytes.now) }
    {
        let bytes = Vec::from_slice(alloc, bytes)?;
        Ok(NodeBytes { bytes })
    }

    /// The bytes.
    pub fn as_slice(&self) -> &[u8]
        ensures { result.now ≡ self.now }
    {
        self.bytes.as_slice()
    }
}

impl PartialEq for NodeBytes {
    ghost eq = { pointwise nat_eq };

    ghost laws = { partial_equiv_from_equiv (lists_equiv nat_eq_equiv) };

    fn eq(&self, other: &NodeBytes) -> bool {
        self.as_slice() == other.as_slice()
    }
}

impl Eq for NodeBytes {
    ghost laws = { lists_equiv nat_eq_equiv };
}

impl Hash for NodeBytes {
    ghost hash_input = { fed.slice fed.u8 };

    ghost respects_eq = { (fed.items_Alike (fed.same_Alike fed.u8 unsigned_Decides)).fed };

    fn hash<H: Hasher>(&self, state: &mut H) {
        self.as_slice().hash(state);
    }
}

// The bytes of the nodes that were read.
ghost use Rattle.std.specs.Prelude.{◌≡◌, [], not, IfOk, OnOk};
ghost use Rattle.tr_parts.specs.Piece.{has, with_use};

use indexmap::IndexSet;
use rk_base::NoMemory;
use std::alloc::Global;
use std::marker::Model;

/// The bytes of nodes, each once, by which equal nodes are told. They aren't copied.
#[derive(Drop)]
pub struct NodeKeys<'a> {
    keys: IndexSet<&'a [u8]>,
}

impl<'a> Model for NodeKeys<'a> {
    ghost use Rattle.std.specs.Prelude.{List};
    ghost use Rattle.rk_base.specs.Text.{Text};
    ghost use Rattle.tr_codec.specs.LentKeys.{texts_of};

    ghost Value = { List Text };

    ghost view = { λ k. texts_of k.keys.keys };
}

impl<'a> NodeKeys<'a> {
    /// No bytes, and room for those of so many nodes.
    pub(crate) fn with_room(alloc: Global, count: usize) -> Result<NodeKeys<'a>, NoMemory>
        ensures { IfOk result (λ keys. keys ≡ []) }
    {
        let keys = IndexSet::with_capacity(alloc, count)?;
        Ok(NodeKeys { keys })
    }

    /// Whether these are none of those before, among which they stand then. They are hashed once.
    pub(crate) fn add(&mut self, key: &'a [u8]) -> Result<bool, NoMemory>
        ensures fresh { IfOk result (λ fresh. fresh ≡ not (has self.old key.now)) }
        ensures keys { OnOk result (self.new ≡ with_use self.old key.now) }
    {
        let (_, fresh) = self.keys.insert_full(key)?;
        Ok(fresh)
    }
}

// Changes of the tree, as answers.
ghost use Rattle.std.specs.Prelude.{◌≡◌, IfOk};
ghost use Rattle.rk_tree.specs.Entries.{node_of};
ghost use Rattle.rk_tree.specs.Hierarchy as hierarchy;
ghost use Rattle.rk_tree.specs.Refusals.{add_refusal, link_refusal, mode_refusal, remove_refusal, rename_refusal};
ghost use Rattle.rk_tree.specs.Whole.{MayHold};
ghost use Rattle.rk_kernel.specs.Rows.{changed};

use crate::World;
use rk_base::{Name, NoMemory};
use rk_calls::{Answer, Refs};
use rk_tree::{Entry, NodeId, Refused};

impl World {
    pub(super) fn add_node(
        &mut self,
        refs: &Refs,
        dir: NodeId,
        name: &Name,
        it: Entry,
    ) -> Result<Answer, NoMemory>
        requires { MayHold self.old.tree dir name.now }
        ensures { IfOk result (λ a. record { answer = a; refs = refs.now; world = self.new } ≡ changed self.old refs.now (add_refusal self.old.tree dir name.now (node_of it)) (hierarchy.added self.old.tree dir name.now (node_of it))) }
    {
        match self.tree.add(dir, name, it) {
            Ok(_) => Ok(Answer::Done),
            Err(Refused::No(e)) => Ok(Answer::No(e)),
            Err(Refused::NoMemory) => Err(NoMemory),
        }
    }

    pub(super) fn link_node(
        &mut self,
        refs: &Refs,
        dir: NodeId,
        name: &Name,
        n: NodeId,
    ) -> Result<Answer, NoMemory>
        requires { MayHold self.old.tree dir name.now }
        ensures { IfOk result (λ a. record { answer = a; refs = refs.now; world = self.new } ≡ changed self.old refs.now (link_refusal self.old.tree dir name.now n) (hierarchy.linked self.old.tree dir name.now n)) }
    {
        match self.tree.link(dir, name, n) {
            Ok(()) => Ok(Answer::Done),
            Err(Refused::No(e)) => Ok(Answer::No(e)),
            Err(Refused::NoMemory) => Err(NoMemory),
        }
    }

    // It takes no memory.
    pub(super) fn remove_name(&mut self, refs: &Refs, dir: NodeId, name: &Name) -> Answer
        ensures { record { answer = result; refs = refs.now; world = self.new } ≡ changed self.old refs.now (remove_refusal self.old.tree dir name.now) (hierarchy.removed self.old.tree dir name.now) }
    {
        match self.tree.remove(dir, name) {
            Ok(()) => Answer::Done,
            Err(Refused::No(e)) => Answer::No(e),
            Err(Refused::NoMemory) => unreachable!(),
        }
    }

    pub(super) fn rename_node(
        &mut self,
        refs: &Refs,
        from: &(NodeId, Name),
        to: NodeId,
        name: &Name,
    ) -> Result<Answer, NoMemory>
        requires { MayHold self.old.tree to name.now }
        ensures { IfOk result (λ a. record { answer = a; refs = refs.now; world = self.new } ≡ changed self.old refs.now (rename_refusal self.old.tree from.now.0 from.now.1 to name.now) (hierarchy.renamed self.old.tree from.now.0 from.now.1 to name.now)) }
    {
        match self.tree.rename(from.0, &from.1, to, name) {
            Ok(()) => Ok(Answer::Done),
            Err(Refused::No(e)) => Ok(Answer::No(e)),
            Err(Refused::NoMemory) => Err(NoMemory),
        }
    }

    // It takes no memory.
    pub(super) fn change_mode(&mut self, refs: &Refs, n: NodeId, mode: u16) -> Answer
        ensures { record { answer = result; refs = refs.now; world = self.new } ≡ changed self.old refs.now (mode_refusal self.old.tree n mode) (hierarchy.set_mode self.old.tree n mode) }
    {
        match self.tree.set_mode(n, mode) {
            Ok(()) => Answer::Done,
            Err(Refused::No(e)) => Answer::No(e),
            Err(Refused::NoMemory) => unreachable!(),
        }
    }
}

// Rename.
ghost use Rattle.std.specs.Prelude.{◌≡◌, OnOk, OnErr, IfOk, true, false, Some, None};
ghost use Rattle.std.specs.Option.{option_and_then};
ghost use Rattle.rk_tree.specs.Entries.{is_dir};
ghost use Rattle.rk_tree.specs.Hierarchy as hierarchy;
ghost use Rattle.rk_tree.specs.Inodes.{place_of};
ghost use Rattle.rk_tree.specs.Refusals.{Changes, first_of, rename_checks, rename_refusal};
ghost use Rattle.rk_tree.specs.Whole.{MayHold};

use crate::inode::{move_name, place_of, put_places};
use crate::{NodeId, Refused, Tree};
use rk_base::{Errno, Name, NoMemory};

fn is_same(n: NodeId, over: &Option<NodeId>) -> bool
    ensures { result ≡ hierarchy.is_same (Some n) over.now }
{
    match over {
        None => false,
        Some(m) => n == *m,
    }
}

impl Tree {
    // The place of a node under a name, if it is a directory.
    fn place_under(
        &self,
        n: NodeId,
        to: NodeId,
        new: &Name,
    ) -> Result<Option<(NodeId, Name)>, NoMemory>
        ensures { IfOk result (λ place. place ≡ option_and_then (λ it. place_of it to new.now) (hierarchy.node self.now n)) }
    {
        match self.look(n) {
            None => Ok(None),
            Some(it) => place_of(it, to, new),
        }
    }

    // A node leaves a name for another one, where it takes the place of another node or of none.
    fn moves(
        &mut self,
        dir: NodeId,
        name: &Name,
        n: NodeId,
        to: NodeId,
        new: &Name,
        over: Option<NodeId>,
    ) -> Result<(), NoMemory>
        requires in_dir { is_dir (hierarchy.node self.old dir) ≡ true }
        requires found { Some n ≡ hierarchy.child self.old dir name.now }
        requires over { over ≡ hierarchy.child self.old to new.now }
        requires apart { hierarchy.is_same (Some n) over ≡ false }
        requires holds { MayHold self.old to new.now }
        requires allowed { first_of (rename_checks self.old dir n to over) ≡ None }
        ensures ok { OnOk result (self.new ≡ hierarchy.renamed self.old dir name.now to new.now) }
        ensures err { OnErr result (self.new ≡ self.old) }
    {
        let alloc = *self.nodes.allocator();
        if !self.has_path(to) {
            return Ok(());
        }
        let place = self.place_under(n, to, new)?;
        move_name(alloc, &mut self.nodes, dir, name, n, to, new)?;
        put_places(&mut self.nodes, over, n, place);
        Ok(())
    }

    // What stands under a name goes under another name, as `rename` says.
    fn renames(
        &mut self,
        dir: NodeId,
        name: &Name,
        n: NodeId,
        to: NodeId,
        new: &Name,
    ) -> Result<(), Refused>
        requires found { Some n ≡ hierarchy.child self.old dir name.now }
        requires in_dir { is_dir (hierarchy.node self.old dir) ≡ true }
        requires holds { MayHold self.old to new.now }
        ensures { Changes (rename_refusal self.old dir name.now to new.now) self.old (hierarchy.renamed self.old dir name.now to new.now) self.new result }
    {
        let over = self.found(to, new);
        if is_same(n, &over) {
            return Ok(());
        }
        match self.move_refusal(dir, n, to, &over) {
            Some(e) => Err(Refused::No(e)),
            None => {
                self.moves(dir, name, n, to, new, over)?;
                Ok(())
            }
        }
    }

    /// What stands under a name, and all below it, goes under another name, in the place of what stood
    /// there; where both names stand for one node nothing changes. Refusals: `NoEntry` where the name
    /// stands for nothing; `Denied` where the directory that loses the name, or the one that gains the
    /// other, lacks `w`; `NotDir` for a directory over what is none, `IsDir` for a file or link over a
    /// directory; `Invalid` for a directory into itself or below it; `NotEmpty` over a directory in
    /// which names stand.
    pub fn rename(
        &mut self,
        dir: NodeId,
        name: &Name,
        to: NodeId,
        new: &Name,
    ) -> Result<(), Refused>
        requires { MayHold self.old to new.now }
        ensures { Changes (rename_refusal self.old dir name.now to new.now) self.old (hierarchy.renamed self.old dir name.now to new.now) self.new result }
    {
        match self.found(dir, name) {
            None => Err(Refused::No(Errno::NoEntry)),
            Some(n) => self.renames(dir, name, n, to, new),
        }
    }
}

// Changes of what stands where.
ghost use Rattle.std.specs.Prelude.{◌≡◌, IfOk, OnOk, OnErr, length, true, false, Some, None};
ghost use Rattle.rk_tree.specs.Entries.{is_dir, node_of, IsFit};
ghost use Rattle.rk_tree.specs.Hierarchy as hierarchy;
ghost use Rattle.rk_tree.specs.Refusals.{Changes, ChangesFreely, add_refusal, has_names, is_there, link_refusal, mode_refusal, remove_refusal};
ghost use Rattle.rk_tree.specs.Whole.{MayHold};

use crate::inode::{Inode, add_under, put_name, put_place, replace_mode, take_name};
use crate::{Entry, Node, NodeId, Refused, Tree};
use rk_base::{Errno, Name, NoMemory};

impl Tree {
    // A new node under a name that stands for nothing.
    pub(super) fn adds(&mut self, dir: NodeId, name: &Name, it: Node) -> Result<NodeId, NoMemory>
        requires holds { MayHold self.old dir name.now }
        requires absent { hierarchy.child self.old dir name.now ≡ None }
        requires fit { IsFit it }
        ensures number { IfOk result (λ n. n ≡ length self.old.nodes) }
        ensures added { OnOk result (self.new ≡ hierarchy.added self.old dir name.now it) }
        ensures err { OnErr result (self.new ≡ self.old) }
    {
        let alloc = *self.nodes.allocator();
        if self.has_path(dir) {
            let n = add_under(alloc, &mut self.nodes, dir, name, it)?;
            Ok(n)
        } else {
            let n = NodeId::new(self.nodes.len());
            self.nodes.push(Inode::lost(alloc, it))?;
            Ok(n)
        }
    }

    /// A new node under a name in a directory, by its number. Refusals: `Invalid` for a mode above 0777
    /// and for a link's text with a NUL, `NoEntry` for an empty one; `Exists` where the name stands for
    /// something; `Denied` where the directory lacks `w`.
    pub fn add(&mut self, dir: NodeId, name: &Name, it: Entry) -> Result<NodeId, Refused>
        requires { MayHold self.old dir name.now }
        ensures number { IfOk result (λ n. n ≡ length self.old.nodes) }
        ensures changes { Changes (add_refusal self.old dir name.now (node_of it)) self.old (hierarchy.added self.old dir name.now (node_of it)) self.new result }
    {
        match self.add_refusal(dir, name, &it) {
            Some(e) => Err(Refused::No(e)),
            None => {
                let n = self.adds(dir, name, Node::new(it))?;
                Ok(n)
            }
        }
    }

    // A node, which is no directory, under one name more, which stands for nothing.
    fn links(&mut self, dir: NodeId, name: &Name, n: NodeId) -> Result<(), NoMemory>
        requires holds { MayHold self.old dir name.now }
        requires absent { hierarchy.child self.old dir name.now ≡ None }
        requires there { is_there (hierarchy.node self.old n) ≡ true }
        requires file { is_dir (hierarchy.node self.old n) ≡ false }
        ensures ok { OnOk result (self.new ≡ hierarchy.linked self.old dir name.now n) }
        ensures err { OnErr result (self.new ≡ self.old) }
    {
        let alloc = *self.nodes.allocator();
        if self.has_path(dir) {
            put_name(alloc, &mut self.nodes, dir, name, n)?;
        }
        Ok(())
    }

    /// A node under one name more: a hard link. Refusals: `NoEntry` where there is no node of this
    /// number, `Denied` where it is a directory, `Exists` where the name stands for something, `Denied`
    /// where the directory lacks `w`.
    pub fn link(&mut self, dir: NodeId, name: &Name, node: NodeId) -> Result<(), Refused>
        requires { MayHold self.old dir name.now }
        ensures { Changes (link_refusal self.old dir name.now node) self.old (hierarchy.linked self.old dir name.now node) self.new result }
    {
        match self.link_refusal(dir, name, node) {
            Some(e) => Err(Refused::No(e)),
            None => {
                self.links(dir, name, node)?;
                Ok(())
            }
        }
    }

    // The name of a node, in which no names stand, stands for nothing.
    fn removes(&mut self, dir: NodeId, name: &Name, n: NodeId)
        requires found { hierarchy.child self.old dir name.now ≡ Some n }
        requires bare { has_names self.old n ≡ false }
        ensures { self.new ≡ hierarchy.removed self.old dir name.now }
    {
        take_name(&mut self.nodes, dir, name);
        put_place(&mut self.nodes, n, None);
    }

    /// A name stands for nothing; the node stays, for its other names and for who has it open.
    /// Refusals: `NoEntry` where the name stands for nothing, `NotEmpty` where it stands for a
    /// directory in which names stand, `Denied` where the directory that loses it lacks `w`. It takes no
    /// memory.
    pub fn remove(&mut self, dir: NodeId, name: &Name) -> Result<(), Refused>
        ensures { ChangesFreely (remove_refusal self.old dir name.now) self.old (hierarchy.removed self.old dir name.now) self.new result }
    {
        match self.found(dir, name) {
            None => Err(Refused::No(Errno::NoEntry)),
            Some(n) => match self.loss_refusal(dir, n) {
                Some(e) => Err(Refused::No(e)),
                None => {
                    self.removes(dir, name, n);
                    Ok(())
                }
            },
        }
    }

    /// The mode of a file or a directory is replaced; a link has none, and stays as it is. Refusals:
    /// `Invalid` for a mode above 0777, `NoEntry` where this is no node of the tree. It takes no memory.
    pub fn set_mode(&mut self, n: NodeId, mode: u16) -> Result<(), Refused>
        ensures { ChangesFreely (mode_refusal self.old n mode) self.old (hierarchy.set_mode self.old n mode) self.new result }
    {
        match self.mode_refusal(n, mode) {
            Some(e) => Err(Refused::No(e)),
            None => {
                replace_mode(&mut self.nodes, n, mode);
                Ok(())
            }
        }
    }
}

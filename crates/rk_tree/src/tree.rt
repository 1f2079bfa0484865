// The tree of a world.
ghost use Rattle.std.specs.Prelude.{◌≡◌, ◌≤◌, OnOk, OnErr, option_copied, option_map, IfOk, IfSome, true, Some, [], ◌∷◌};
ghost use Rattle.std.specs.FinMap.{empty, insert};
ghost use Rattle.rk_base.specs.Text.{root};
ghost use Rattle.rk_tree.specs.Content as content;
ghost use Rattle.rk_tree.specs.Entries.{is_dir, kind_of};
ghost use Rattle.rk_tree.specs.Hierarchy as hierarchy;
ghost use Rattle.rk_tree.specs.Refusals.{is_there};
ghost use Rattle.rk_tree.specs.Shown.{Shown, Shown-prop};
ghost use Rattle.rk_tree.specs.Whole.{IsWhole};
ghost use Rattle.rk_tree.specs.Node.{Dir};

mod changing;
mod climbing;
mod copying;
mod finding;
mod refusing;
mod renaming;

use crate::inode::{
    Inode, know_bytes, names_of, node_at, number_under, place_at, replace_bytes, share_text,
    write_over,
};
use crate::{Entry, Node, NodeId};
use rk_base::{Bytes, FileType, Name, NameList, NoMemory, Path};
use std::alloc::Global;
use std::marker::Model;

/// Which node stands at each path: nodes, each with the numbers of those under its names. The root,
/// node 0, stands in every tree. Nodes are spoken of by their numbers; a new node's number is the
/// count of nodes so far.
#[derive(Drop)]
pub struct Tree {
    nodes: Vec<Inode>,
    ghost shown: { Shown nodes.items } by { Shown-prop nodes.items },
}

impl Model for Tree {
    ghost use Rattle.rk_tree.specs.Hierarchy.{Hierarchy, hierarchy_code};

    ghost Value = { Hierarchy };

    ghost coded = { hierarchy_code };

    ghost use Rattle.rk_tree.specs.Inodes.{hierarchy_of, AreAttached, HavePlaces};
    ghost use Rattle.rk_tree.specs.Whole.{IsWhole};

    ghost view = { λ t. hierarchy_of t.shown.paths t.nodes.items };

    ghost invariant = { λ t. IsWhole (hierarchy_of t.shown.paths t.nodes.items) × HavePlaces t.shown.paths t.nodes.items × AreAttached t.shown.paths t.nodes.items };
}

impl Tree {
    // The root alone.
    fn of_root(alloc: Global, mode: u16) -> Result<Tree, NoMemory>
        requires { mode ≤ 511 }
        ensures { IfOk result (λ t. t ≡ record { paths = insert empty root 0; nodes = Dir mode ∷ [] }) }
    {
        let nodes = vec![in alloc; Inode::lost(alloc, Node::new(Entry::Dir(mode)))]?;
        Ok(Tree { nodes })
    }

    /// The root alone, with the mode 0755.
    pub fn new(alloc: Global) -> Result<Tree, NoMemory>
        ensures { IfOk result (λ t. t ≡ record { paths = insert empty root 0; nodes = Dir 493 ∷ [] }) }
    {
        Tree::of_root(alloc, 0o755)
    }

    fn look(&self, n: NodeId) -> Option<&Node>
        ensures node { option_copied result ≡ hierarchy.node self.now n }
        ensures whole { IsWhole self.now }
    {
        node_at(self.nodes.as_slice(), n)
    }

    /// The root. The tree is whole.
    pub fn root(&self) -> NodeId
        ensures root { result ≡ hierarchy.top }
        ensures whole { IsWhole self.now }
    {
        let _ = &self.nodes;
        NodeId::root()
    }

    /// Whether this is a node of the tree.
    pub fn has(&self, n: NodeId) -> bool
        ensures { result ≡ is_there (hierarchy.node self.now n) }
    {
        self.look(n).is_some()
    }

    /// What a node of the tree is.
    pub fn kind(&self, n: NodeId) -> FileType
        requires { is_there (hierarchy.node self.now n) ≡ true }
        ensures { Some result ≡ option_map kind_of (hierarchy.node self.now n) }
    {
        match self.look(n) {
            None => unreachable!(),
            Some(it) => it.kind(),
        }
    }

    /// Whether this is a node of the tree and a directory.
    pub fn is_dir(&self, n: NodeId) -> bool
        ensures { result ≡ is_dir (hierarchy.node self.now n) }
    {
        match self.look(n) {
            None => false,
            Some(it) => it.is_dir(),
        }
    }

    /// The mode of a node; a link's is 0777, and 0 where this is no node of the tree.
    pub fn mode(&self, n: NodeId) -> u16
        ensures { result ≡ hierarchy.mode_of (hierarchy.node self.now n) }
    {
        match self.look(n) {
            None => 0,
            Some(it) => it.mode(),
        }
    }

    /// The bytes of a file; `None` exactly for a file whose bytes aren't known yet. Any other node has none.
    pub fn bytes(&self, n: NodeId) -> Option<&[u8]>
        ensures { option_copied result ≡ hierarchy.known_in (hierarchy.node self.now n) }
    {
        match self.look(n) {
            None => Some(b""),
            Some(it) => it.bytes(),
        }
    }

    /// Where a file came from; `None` exactly where it was written or emptied since, and for any other node. It takes no
    /// memory.
    pub fn import_path(&self, n: NodeId) -> Option<&Path>
        ensures { option_copied result ≡ hierarchy.path_in (hierarchy.node self.now n) }
    {
        match self.look(n) {
            None => None,
            Some(it) => it.import_path(),
        }
    }

    /// The bytes of a file that are known, shared with it; none for any other node.
    pub fn copy_bytes(&self, n: NodeId) -> Result<Bytes, NoMemory>
        ensures { IfOk result (λ b. b ≡ hierarchy.file_bytes (hierarchy.node self.now n)) }
    {
        let alloc = *self.nodes.allocator();
        match self.look(n) {
            None => Bytes::from_slice(alloc, b""),
            Some(it) => it.copy_bytes(alloc),
        }
    }

    /// The text of a link, shared with it; none for any other node.
    pub fn copy_link_text(&self, n: NodeId) -> Result<Bytes, NoMemory>
        ensures { IfOk result (λ b. b ≡ hierarchy.text_of (hierarchy.node self.now n)) }
    {
        let alloc = *self.nodes.allocator();
        match self.look(n) {
            None => Bytes::from_slice(alloc, b""),
            Some(it) => it.copy_link_text(alloc),
        }
    }

    /// The text of a link; none for any other node.
    pub fn link_text(&self, n: NodeId) -> &[u8]
        ensures { result.now ≡ hierarchy.text_of (hierarchy.node self.now n) }
    {
        match self.look(n) {
            None => b"",
            Some(it) => it.link_text(),
        }
    }

    /// The node of this name in a directory; `None` exactly where there is none. It takes no memory.
    pub fn child(&self, dir: NodeId, name: &[u8]) -> Option<NodeId>
        requires { is_dir (hierarchy.node self.now dir) ≡ true }
        ensures child { result ≡ hierarchy.child self.now dir name.now }
        ensures there { IfSome result (λ n. is_there (hierarchy.node self.now n) ≡ true) }
    {
        number_under(self.nodes.as_slice(), dir, name)
    }

    /// The directory that a directory stands in: the root for the root, and `None` for a directory
    /// that was removed. It takes no memory.
    pub fn parent(&self, dir: NodeId) -> Option<NodeId>
        requires { is_dir (hierarchy.node self.now dir) ≡ true }
        ensures { result ≡ hierarchy.parent_of self.now dir }
    {
        let _ = &self.nodes;
        if dir.is_root() {
            return Some(dir);
        }
        match place_at(self.nodes.as_slice(), dir) {
            None => None,
            Some((up, _)) => Some(*up),
        }
    }

    fn names(&self, dir: NodeId) -> Result<Vec<Name>, NoMemory>
        requires { is_dir (hierarchy.node self.now dir) ≡ true }
        ensures { IfOk result (λ names. names.items ≡ hierarchy.names self.now dir) }
    {
        names_of(*self.nodes.allocator(), self.nodes.as_slice(), dir)
    }

    /// The names in a directory, ascending.
    pub fn list(&self, dir: NodeId) -> Result<NameList, NoMemory>
        requires { is_dir (hierarchy.node self.now dir) ≡ true }
        ensures { IfOk result (λ list. list ≡ hierarchy.names self.now dir) }
    {
        let names = self.names(dir)?;
        match NameList::from_vec(*self.nodes.allocator(), names)? {
            None => unreachable!(),
            Some(list) => Ok(list),
        }
    }

    /// Bytes that were fetched are known of a file, beside its import path. Where they are known already, and at any other
    /// node, nothing changes.
    pub fn know(&mut self, n: NodeId, bytes: Bytes) -> Result<(), NoMemory>
        ensures ok { OnOk result (self.new ≡ hierarchy.know self.old n bytes) }
        ensures err { OnErr result (self.new ≡ self.old) }
    {
        know_bytes(&mut self.nodes, n, bytes)
    }

    /// A file shares the text of its bytes; any other node stays as it is.
    pub fn share(&mut self, n: NodeId, text: Bytes)
        requires { text ≡ hierarchy.file_bytes (hierarchy.node self.old n) }
        ensures { self.new ≡ self.old }
    {
        share_text(&mut self.nodes, n, text);
    }

    /// A file's bytes are replaced by others, which are its own; any other node stays as it is.
    pub fn set_bytes(&mut self, n: NodeId, bytes: Bytes)
        ensures { self.new ≡ hierarchy.set_bytes self.old n bytes }
    {
        replace_bytes(&mut self.nodes, n, bytes);
    }

    /// Writes bytes over those of a file that are known from an offset on, and zero bytes into a gap before it: in place,
    /// where no other byte string shares their text. They are its own then. Any other node stays as it is. After want of
    /// memory the file may hold anything, and all else is as it was.
    pub fn write(&mut self, n: NodeId, at: usize, bytes: &[u8]) -> Result<(), NoMemory>
        ensures ok { OnOk result (self.new ≡ hierarchy.write self.old n at bytes.now) }
        ensures any { (it : content.Content) × (self.new ≡ hierarchy.set_content self.old n it) }
    {
        let alloc = *self.nodes.allocator();
        write_over(alloc, &mut self.nodes, n, at, bytes)
    }
}

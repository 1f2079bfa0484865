// Snapshots of trees, and trees of snapshots.
ghost use Rattle.std.specs.Prelude.{◌≡◌, All, IfOk, map, MatchBool, OnOk, option_copied, true, Some};
ghost use Rattle.std.specs.FinMap.{get, insert};
ghost use Rattle.rk_base.specs.Text.{root};
ghost use Rattle.rk_tree.specs.Copies.{put_found, snapshot_of, tree_of};
ghost use Rattle.rk_tree.specs.Copying.{HasDirs, MayTake, made_of, put_dir, put_names, with_node_at};
ghost use Rattle.rk_tree.specs.Entries.{is_dir, IsWholeSnapshot};
ghost use Rattle.rk_tree.specs.Hierarchy as hierarchy;
ghost use Rattle.rk_tree.specs.Node.{Dir};
ghost use Rattle.rk_tree.specs.Rows.{map_of};
ghost use Rattle.rk_tree.specs.Whole.{IsWhole};

use crate::inode::rows_of;
use crate::{Entry, Node, NodeId, Snapshot, Tree};
use rk_base::{Name, NoMemory, Path};
use std::alloc::Global;
use std::collections::BTreeMap;

// What is found, put at a path.
fn put_found(rows: &mut Vec<(Path, Node)>, path: Path, found: Option<&Node>) -> Result<(), NoMemory>
    ensures { OnOk result (made_of rows.new.items ≡ put_found (made_of rows.old.items) path (option_copied found.entry)) }
{
    match found {
        None => Ok(()),
        Some(it) => {
            rows.push((path, it.copy()?))?;
            Ok(())
        }
    }
}

// The number of a directory, put at its path.
fn put_number(
    numbers: &mut BTreeMap<Path, NodeId>,
    path: &Path,
    it: &Node,
    n: NodeId,
) -> Result<(), NoMemory>
    ensures { OnOk result (MatchBool (is_dir (Some it.now)) (map_of numbers.new.entries ≡ insert (map_of numbers.old.entries) path.now n) (numbers.new.entries ≡ numbers.old.entries)) }
{
    if !it.is_dir() {
        return Ok(());
    }
    numbers.insert(path.copy()?, n)?;
    Ok(())
}

impl Tree {
    // The names in a directory, ascending, each with the node under it.
    fn children(&self, dir: NodeId) -> Result<Vec<(Name, NodeId)>, NoMemory>
        requires { is_dir (hierarchy.node self.now dir) ≡ true }
        ensures names { IfOk result (λ rows. map (λ row. row.0) rows.items ≡ hierarchy.names self.now dir) }
        ensures numbers { IfOk result (λ rows. All (λ row. Some row.1 ≡ hierarchy.child self.now dir row.0) rows.items) }
    {
        rows_of(*self.nodes.allocator(), self.nodes.as_slice(), dir)
    }

    // What stands under the names of a directory.
    fn put_names(
        &self,
        rows: &mut Vec<(Path, Node)>,
        dir: NodeId,
        path: &Path,
    ) -> Result<(), NoMemory>
        requires in_dir { is_dir (hierarchy.node self.now dir) ≡ true }
        requires at { hierarchy.path_of self.now dir ≡ Some path.now }
        ensures { OnOk result (made_of rows.new.items ≡ put_names self.now dir (made_of rows.old.items) (Some path.now)) }
    {
        let alloc = *self.nodes.allocator();
        let children = self.children(dir)?;
        for (name, n) in &children {
            let path = path.join(alloc, name)?;
            put_found(rows, path, self.look(*n))?;
        }
        Ok(())
    }

    // What stands in a directory, if this is one that stands somewhere.
    fn put_dir(&self, rows: &mut Vec<(Path, Node)>, dir: NodeId) -> Result<(), NoMemory>
        ensures { OnOk result (made_of rows.new.items ≡ put_dir self.now (made_of rows.old.items) dir) }
    {
        if !self.is_dir(dir) {
            return Ok(());
        }
        match self.path_of(dir)? {
            None => Ok(()),
            Some(path) => self.put_names(rows, dir, &path),
        }
    }

    /// Each path with what stands there. It is whole, as the tree is.
    pub fn snapshot(&self) -> Result<Snapshot, NoMemory>
        ensures tree { IsWhole self.now }
        ensures snapshot { IfOk result (λ s. s ≡ snapshot_of self.now) }
        ensures whole { IfOk result IsWholeSnapshot }
    {
        let alloc = *self.nodes.allocator();
        let mut rows = Vec::new(alloc);
        let root = self.look(NodeId::root());
        put_found(&mut rows, Path::root(alloc)?, root)?;
        for dir in 0..self.nodes.len() {
            self.put_dir(&mut rows, NodeId::new(dir))?;
        }
        let snapshot = Snapshot::of_rows(alloc, rows)?;
        Ok(snapshot)
    }

    // A node more, at a path whose directory stands, found by the numbers of directories.
    fn put_path(
        &mut self,
        numbers: &mut BTreeMap<Path, NodeId>,
        path: &Path,
        it: &Node,
    ) -> Result<(), NoMemory>
        requires numbers { HasDirs self.old numbers.old.entries }
        requires takes { MayTake self.old path.now it.now }
        ensures tree { OnOk result (self.new ≡ with_node_at self.old path.now it.now) }
        ensures numbers { OnOk result (HasDirs self.new numbers.new.entries) }
    {
        let _ = &self.nodes;
        let Some(name) = path.last()? else {
            unreachable!();
        };
        match numbers.get(&path.parent()?) {
            None => unreachable!(),
            Some(up) => {
                let n = self.adds(*up, &name, it.copy()?)?;
                put_number(numbers, path, it, n)?;
                Ok(())
            }
        }
    }

    /// The tree of a snapshot: a node for each path, numbered in the order of the paths. Its snapshot
    /// is the same again.
    pub fn of_snapshot(alloc: Global, snapshot: &Snapshot) -> Result<Tree, NoMemory>
        requires { IsWholeSnapshot snapshot.now }
        ensures tree { IfOk result (λ t. t ≡ tree_of snapshot.now) }
        ensures again { IfOk result (λ t. snapshot_of t ≡ snapshot.now) }
    {
        let mut tree = Tree::of_root(alloc, root_mode(alloc, snapshot)?)?;
        let mut numbers = BTreeMap::new(alloc);
        numbers.insert(Path::root(alloc)?, NodeId::root())?;
        let mut rows = snapshot.rows().iter();
        // The first row is the root's.
        let _root = rows.next();
        for (path, it) in rows {
            tree.put_path(&mut numbers, path, it)?;
        }
        Ok(tree)
    }
}

fn root_mode(alloc: Global, snapshot: &Snapshot) -> Result<u16, NoMemory>
    requires { is_dir (get snapshot.now root) ≡ true }
    ensures { IfOk result (λ mode. get snapshot.now root ≡ Some (Dir mode)) }
{
    match snapshot.get(&Path::root(alloc)?) {
        Some(it) => match it.entry() {
            Entry::File(_, _) => unreachable!(),
            Entry::Dir(mode) => Ok(*mode),
            Entry::Link(_) => unreachable!(),
        },
        None => unreachable!(),
    }
}

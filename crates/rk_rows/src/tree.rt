// Steps of trees and snapshots, by the numbers of nodes.
ghost use Rattle.std.specs.Prelude.{IsTrue};
ghost use Rattle.rk_tree.specs.Whole.{MayHold};

use crate::world::{push_from, snapshot_shown};
use rk_base::{Bytes, Name, NoMemory, Path};
use rk_steps::{
    Subject, behind, flag, kind_shown, mode, name_of, names_shown, number, number_shown, path_of,
    plain, refusal_shown, shown, text, word,
};
use rk_tree::{Content, Entry, Node, NodeId, Refused, Snapshot, SnapshotBuilder, Tree};
use std::alloc::Global;

/// A tree, a snapshot that is put together by itself, and one that grows.
#[derive(Drop)]
pub(crate) struct Grown {
    alloc: Global,
    tree: Tree,
    snapshot: Snapshot,
    growing: SnapshotBuilder,
}

// The path of a word, and the root where it is none.
fn import_of(alloc: Global, word: &[u8]) -> Result<Path, NoMemory> {
    match path_of(alloc, word)? {
        Some(path) => Ok(path),
        None => Path::root(alloc),
    }
}

// What a file holds of which these words tell, the first of them whether it was read.
fn content_of(alloc: Global, words: &[Vec<u8>]) -> Result<Content, NoMemory> {
    let content = match text(words, 0) {
        "unread" => Content::Unread(import_of(alloc, word(words, 2))?),
        "read" => {
            let path = import_of(alloc, word(words, 2))?;
            Content::Read(path, Bytes::from_slice(alloc, word(words, 3))?)
        }
        _ => Content::Own(Bytes::from_slice(alloc, word(words, 2))?),
    };
    Ok(content)
}

// The entry of `file MODE BYTES`, `unread MODE PATH`, `read MODE PATH BYTES`, `dir MODE` or `link TEXT`.
fn entry_of(alloc: Global, words: &[Vec<u8>]) -> Result<Entry, NoMemory> {
    let entry = match text(words, 0) {
        "dir" => Entry::Dir(mode(words, 1)),
        "link" => Entry::Link(Bytes::from_slice(alloc, word(words, 1))?),
        _ => Entry::File(mode(words, 1), content_of(alloc, words)?),
    };
    Ok(entry)
}

// What became of a change.
fn change_shown(alloc: Global, done: Result<(), Refused>) -> Result<String, NoMemory> {
    match done {
        Ok(()) => plain(alloc, "done"),
        Err(Refused::No(errno)) => refusal_shown(alloc, errno),
        Err(Refused::NoMemory) => Err(NoMemory),
    }
}

// The name, which isn't the hidden one, in a directory.
fn may_hold(tree: &Tree, dir: NodeId, name: &Name) -> bool
    ensures { IsTrue result → MayHold tree.now dir name.now }
{
    let text = name.as_slice();
    tree.is_dir(dir) && text != b".rkr".as_slice()
}

fn add_step(
    alloc: Global,
    tree: &mut Tree,
    dir: NodeId,
    name: &Name,
    it: Entry,
) -> Result<String, NoMemory> {
    if !may_hold(tree, dir, name) {
        return plain(alloc, "not held");
    }
    match tree.add(dir, name, it) {
        Ok(n) => number_shown(alloc, Some(n.number())),
        Err(Refused::No(errno)) => refusal_shown(alloc, errno),
        Err(Refused::NoMemory) => Err(NoMemory),
    }
}

fn link_step(
    alloc: Global,
    tree: &mut Tree,
    dir: NodeId,
    name: &Name,
    n: NodeId,
) -> Result<String, NoMemory> {
    if !may_hold(tree, dir, name) {
        return plain(alloc, "not held");
    }
    change_shown(alloc, tree.link(dir, name, n))
}

fn rename_step(
    alloc: Global,
    tree: &mut Tree,
    from: (NodeId, &Name),
    to: (NodeId, &Name),
) -> Result<String, NoMemory> {
    let (dir, name) = from;
    let (to, new) = to;
    if !may_hold(tree, to, new) {
        return plain(alloc, "not held");
    }
    change_shown(alloc, tree.rename(dir, name, to, new))
}

fn child_step(alloc: Global, tree: &Tree, dir: NodeId, name: &[u8]) -> Result<String, NoMemory> {
    if !tree.is_dir(dir) {
        return plain(alloc, "no directory");
    }
    number_shown(alloc, tree.child(dir, name).map(|n| n.number()))
}

fn parent_step(alloc: Global, tree: &Tree, dir: NodeId) -> Result<String, NoMemory> {
    if !tree.is_dir(dir) {
        return plain(alloc, "no directory");
    }
    number_shown(alloc, tree.parent(dir).map(|n| n.number()))
}

fn list_step(alloc: Global, tree: &Tree, dir: NodeId) -> Result<String, NoMemory> {
    if !tree.is_dir(dir) {
        return plain(alloc, "no directory");
    }
    let list = tree.list(dir)?;
    let names = names_shown(alloc, &list)?;
    let text = format!(in alloc; "{}{}", list.len(), names.as_str())?;
    Ok(text)
}

fn path_step(alloc: Global, tree: &Tree, dir: NodeId) -> Result<String, NoMemory> {
    if !tree.is_dir(dir) {
        return plain(alloc, "no directory");
    }
    match tree.path_of(dir)? {
        Some(path) => shown(alloc, path.text()),
        None => plain(alloc, "none"),
    }
}

fn kind_step(alloc: Global, tree: &Tree, n: NodeId) -> Result<String, NoMemory> {
    if !tree.has(n) {
        return plain(alloc, "none");
    }
    plain(alloc, kind_shown(tree.kind(n)))
}

fn mode_step(alloc: Global, tree: &Tree, n: NodeId) -> Result<String, NoMemory> {
    let text = format!(in alloc; "{:o}", tree.mode(n))?;
    Ok(text)
}

// Bytes, which are the same shared and looked at.
fn both(alloc: Global, copy: &Bytes, bytes: &[u8]) -> Result<String, NoMemory> {
    if copy.as_slice() == bytes {
        shown(alloc, bytes)
    } else {
        plain(alloc, "another copy")
    }
}

// The bytes of a file, where they are known.
fn bytes_step(alloc: Global, tree: &Tree, n: NodeId) -> Result<String, NoMemory> {
    match tree.bytes(n) {
        Some(bytes) => both(alloc, &tree.copy_bytes(n)?, bytes),
        None => plain(alloc, "unknown"),
    }
}

// Where a file came from.
fn import_step(alloc: Global, tree: &Tree, n: NodeId) -> Result<String, NoMemory> {
    match tree.import_path(n) {
        Some(path) => shown(alloc, path.text()),
        None => plain(alloc, "none"),
    }
}

fn node_step(alloc: Global, tree: &Tree, path: Option<Path>) -> Result<String, NoMemory> {
    match path {
        Some(path) => number_shown(alloc, tree.node(&path).map(|n| n.number())),
        None => plain(alloc, "no path"),
    }
}

// What stands at a path of a snapshot, and its copy.
fn get_step(alloc: Global, snapshot: &Snapshot, path: &Path) -> Result<String, NoMemory> {
    let Some(node) = snapshot.get(path) else {
        return plain(alloc, "none");
    };
    let copy = Node::new(node.entry().copy()?);
    if !copy.same(node) || !node.copy()?.same(&copy) {
        return plain(alloc, "another copy");
    }
    let kind = kind_shown(copy.kind());
    let bytes = match copy.bytes() {
        Some(bytes) => shown(alloc, bytes)?,
        None => plain(alloc, "unknown")?,
    };
    let link = shown(alloc, copy.link_text())?;
    let mut text = format!(in alloc;
        "{kind} {:o} {} {}",
        copy.mode(),
        bytes.as_str(),
        link.as_str()
    )?;
    push_from(alloc, &mut text, &copy)?;
    Ok(text)
}

fn same_step(
    alloc: Global,
    snapshot: &Snapshot,
    path: &Path,
    it: Entry,
) -> Result<String, NoMemory> {
    match snapshot.get(path) {
        Some(node) => flag(alloc, node.same(&Node::new(it))),
        None => plain(alloc, "none"),
    }
}

impl Grown {
    pub(crate) fn new(alloc: Global) -> Result<Grown, NoMemory> {
        Ok(Grown {
            alloc,
            tree: Tree::new(alloc)?,
            snapshot: Snapshot::new(alloc),
            growing: SnapshotBuilder::new(alloc),
        })
    }

    fn add(&mut self, words: &[Vec<u8>]) -> Result<String, NoMemory> {
        let alloc = self.alloc;
        let it = entry_of(alloc, behind(behind(behind(words))))?;
        match name_of(alloc, word(words, 2))? {
            Some(name) => add_step(alloc, &mut self.tree, node(words, 1), &name, it),
            None => plain(alloc, "no name"),
        }
    }

    fn link(&mut self, words: &[Vec<u8>]) -> Result<String, NoMemory> {
        let alloc = self.alloc;
        match name_of(alloc, word(words, 2))? {
            Some(name) => link_step(alloc, &mut self.tree, node(words, 1), &name, node(words, 3)),
            None => plain(alloc, "no name"),
        }
    }

    fn remove(&mut self, words: &[Vec<u8>]) -> Result<String, NoMemory> {
        let alloc = self.alloc;
        match name_of(alloc, word(words, 2))? {
            Some(name) => change_shown(alloc, self.tree.remove(node(words, 1), &name)),
            None => plain(alloc, "no name"),
        }
    }

    fn rename(&mut self, words: &[Vec<u8>]) -> Result<String, NoMemory> {
        let alloc = self.alloc;
        let name = name_of(alloc, word(words, 2))?;
        let new = name_of(alloc, word(words, 4))?;
        match (name, new) {
            (Some(name), Some(new)) => {
                let from = (node(words, 1), &name);
                let to = (node(words, 3), &new);
                rename_step(alloc, &mut self.tree, from, to)
            }
            _ => plain(alloc, "no name"),
        }
    }

    fn set_mode(&mut self, n: NodeId, mode: u16) -> Result<String, NoMemory> {
        change_shown(self.alloc, self.tree.set_mode(n, mode))
    }

    fn set_bytes(&mut self, n: NodeId, bytes: &[u8]) -> Result<String, NoMemory> {
        let bytes = Bytes::from_slice(self.alloc, bytes)?;
        self.tree.set_bytes(n, bytes);
        plain(self.alloc, "done")
    }

    fn know(&mut self, n: NodeId, bytes: &[u8]) -> Result<String, NoMemory> {
        let bytes = Bytes::from_slice(self.alloc, bytes)?;
        self.tree.know(n, bytes)?;
        plain(self.alloc, "done")
    }

    // A file shares the text of a copy of its bytes.
    fn share(&mut self, n: NodeId) -> Result<String, NoMemory> {
        let text = self.tree.copy_bytes(n)?;
        self.tree.share(n, text);
        plain(self.alloc, "done")
    }

    fn write(&mut self, n: NodeId, at: u64, bytes: &[u8]) -> Result<String, NoMemory> {
        self.tree.write(n, at as usize, bytes)?;
        plain(self.alloc, "done")
    }

    fn put(&mut self, path: Option<Path>, it: Entry) -> Result<String, NoMemory> {
        match path {
            Some(path) => {
                self.snapshot.put(path, it)?;
                number_shown(self.alloc, Some(self.snapshot.len()))
            }
            None => plain(self.alloc, "no path"),
        }
    }

    fn get(&self, path: Option<Path>) -> Result<String, NoMemory> {
        match path {
            Some(path) => get_step(self.alloc, &self.snapshot, &path),
            None => plain(self.alloc, "no path"),
        }
    }

    fn same(&self, path: Option<Path>, it: Entry) -> Result<String, NoMemory> {
        match path {
            Some(path) => same_step(self.alloc, &self.snapshot, &path, it.copy()?),
            None => plain(self.alloc, "no path"),
        }
    }

    fn grow(&mut self, path: Option<Path>, it: Entry) -> Result<String, NoMemory> {
        match path {
            Some(path) => {
                self.growing.put(self.alloc, path, it)?;
                plain(self.alloc, "done")
            }
            None => plain(self.alloc, "no path"),
        }
    }

    fn is_dir(&mut self, path: Option<Path>) -> Result<String, NoMemory> {
        match path {
            Some(path) => flag(self.alloc, self.growing.is_dir(self.alloc, &path)?),
            None => plain(self.alloc, "no path"),
        }
    }

    // The snapshot that grew, and another one begins.
    fn grown(&mut self) -> Result<String, NoMemory> {
        let alloc = self.alloc;
        let growing = std::mem::replace(&mut self.growing, SnapshotBuilder::new(alloc));
        snapshot_shown(alloc, &growing.finish(alloc)?)
    }

    /// The tree, in whose place the root alone stands then.
    pub(crate) fn take(&mut self) -> Result<Tree, NoMemory> {
        let tree = Tree::new(self.alloc)?;
        Ok(std::mem::replace(&mut self.tree, tree))
    }

    // The tree of its own snapshot.
    fn again(&mut self) -> Result<String, NoMemory> {
        let snapshot = self.tree.snapshot()?;
        self.tree = Tree::of_snapshot(self.alloc, &snapshot)?;
        number_shown(self.alloc, Some(snapshot.len()))
    }

    fn change(&mut self, words: &[Vec<u8>]) -> Result<String, NoMemory> {
        let n = node(words, 1);
        match text(words, 0) {
            "add" => self.add(words),
            "link" => self.link(words),
            "remove" => self.remove(words),
            "rename" => self.rename(words),
            "chmod" => self.set_mode(n, mode(words, 2)),
            "set" => self.set_bytes(n, word(words, 2)),
            "know" => self.know(n, word(words, 2)),
            "share" => self.share(n),
            "write" => self.write(n, number(words, 2), word(words, 3)),
            "again" => self.again(),
            _ => plain(self.alloc, "unknown step"),
        }
    }

    fn snapshot_step(&mut self, words: &[Vec<u8>]) -> Result<String, NoMemory> {
        let path = path_of(self.alloc, word(words, 1))?;
        match text(words, 0) {
            "put" => self.put(path, entry_of(self.alloc, behind(behind(words)))?),
            "get" => self.get(path),
            "grow" => self.grow(path, entry_of(self.alloc, behind(behind(words)))?),
            "is-dir" => self.is_dir(path),
            _ => self.same(path, entry_of(self.alloc, behind(behind(words)))?),
        }
    }
}

// The node of the number that a word is.
fn node(words: &[Vec<u8>], i: usize) -> NodeId {
    NodeId::new(number(words, i) as usize)
}

impl Subject for Grown {
    fn fresh(&mut self) -> Result<(), NoMemory> {
        *self = Grown::new(self.alloc)?;
        Ok(())
    }

    fn step(&mut self, words: &[Vec<u8>]) -> Result<String, NoMemory> {
        let alloc = self.alloc;
        let n = node(words, 1);
        let tree = &self.tree;
        match text(words, 0) {
            "node" => node_step(alloc, tree, path_of(alloc, word(words, 1))?),
            "child" => child_step(alloc, tree, n, word(words, 2)),
            "parent" => parent_step(alloc, tree, n),
            "list" => list_step(alloc, tree, n),
            "path" => path_step(alloc, tree, n),
            "kind" => kind_step(alloc, tree, n),
            "mode" => mode_step(alloc, tree, n),
            "bytes" => bytes_step(alloc, tree, n),
            "import" => import_step(alloc, tree, n),
            "text" => both(alloc, &tree.copy_link_text(n)?, tree.link_text(n)),
            "root" => number_shown(alloc, Some(tree.root().number())),
            "show" => snapshot_shown(alloc, &tree.snapshot()?),
            "rows" => snapshot_shown(alloc, &self.snapshot),
            "put" | "get" | "is" | "grow" | "is-dir" => self.snapshot_step(words),
            "grown" => self.grown(),
            _ => self.change(words),
        }
    }
}

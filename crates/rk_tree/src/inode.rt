// Nodes, each with its place and its names.
ghost use Rattle.std.specs.Prelude.{◌≡◌, ℕ, List, ◌++◌, ◌∷◌, [], IfOk, OnOk, OnErr, not, length, slice_get, option_copied, Some, true};
ghost use Rattle.std.specs.FinMap.{entries, keys};
ghost use Rattle.rk_base.specs.Canonical.{is_empty, is_name};
ghost use Rattle.rk_tree.specs.Content as content;
ghost use Rattle.rk_tree.specs.Hierarchy as hierarchy;
ghost use Rattle.rk_tree.specs.Inodes.{change, cleared, nodes_of, lost, names_in, place_in, place_of, placed, under, as_node, with_name, with_place, without_name};

use crate::names::Names;
use crate::{Node, NodeId};
use rk_base::{Bytes, FileType, Name, NoMemory};
use std::alloc::Global;

/// A node as the tree keeps it: what it is, for a directory the one in which it stands and its name
/// there, if there is one, and which nodes stand under its names.
#[derive(Drop)]
pub(crate) struct Inode {
    pub(crate) node: Node,
    pub(crate) place: Option<(NodeId, Name)>,
    pub(crate) names: Names,
}

/// The place under a name, for a directory.
pub(crate) fn place_of(
    it: &Node,
    dir: NodeId,
    name: &Name,
) -> Result<Option<(NodeId, Name)>, NoMemory>
    ensures { IfOk result (λ place. place ≡ place_of it.now dir name.now) }
{
    match it.kind() {
        FileType::File => Ok(None),
        FileType::Dir => {
            let name = name.copy()?;
            Ok(Some((dir, name)))
        }
        FileType::Link => Ok(None),
    }
}

impl Inode {
    /// A node that stands under a name.
    pub(crate) fn placed(
        alloc: Global,
        dir: NodeId,
        name: &Name,
        it: Node,
    ) -> Result<Inode, NoMemory>
        ensures { IfOk result (λ inode. inode ≡ placed dir name.now it) }
    {
        let place = place_of(&it, dir, name)?;
        Ok(Inode {
            node: it,
            place,
            names: Names::new(alloc),
        })
    }

    /// A node that stands nowhere.
    pub(crate) fn lost(alloc: Global, it: Node) -> Inode
        ensures { result ≡ lost it }
    {
        Inode {
            node: it,
            place: None,
            names: Names::new(alloc),
        }
    }
}

/// What a node is.
pub(crate) fn node_at(nodes: &[Inode], n: NodeId) -> Option<&Node>
    ensures { option_copied result ≡ slice_get (nodes_of nodes.now) n }
{
    match nodes.get(n.number()) {
        None => None,
        Some(inode) => Some(&inode.node),
    }
}

/// The place that a node has with it.
pub(crate) fn place_at(nodes: &[Inode], n: NodeId) -> Option<&(NodeId, Name)>
    ensures { option_copied result ≡ place_in (slice_get nodes.now n) }
{
    match nodes.get(n.number()) {
        None => None,
        Some(inode) => inode.place.as_ref(),
    }
}

/// The number under a name of a node.
pub(crate) fn number_under(nodes: &[Inode], n: NodeId, name: &[u8]) -> Option<NodeId>
    ensures { result ≡ under nodes.now n name.now }
{
    match nodes.get(n.number()) {
        None => None,
        Some(inode) => inode.names.get(name),
    }
}

/// Whether a node has names.
pub(crate) fn has_names(nodes: &[Inode], n: NodeId) -> bool
    ensures { result ≡ not (is_empty (entries (names_in (slice_get nodes.now n)))) }
{
    match nodes.get(n.number()) {
        None => false,
        Some(inode) => !inode.names.is_empty(),
    }
}

/// The names of a node, ascending.
pub(crate) fn names_of(alloc: Global, nodes: &[Inode], n: NodeId) -> Result<Vec<Name>, NoMemory>
    ensures { IfOk result (λ names. names.items ≡ keys (names_in (slice_get nodes.now n))) }
{
    match nodes.get(n.number()) {
        None => Ok(Vec::new(alloc)),
        Some(inode) => inode.names.list(alloc),
    }
}

/// The names of a node, ascending, each with its number.
pub(crate) fn rows_of(
    alloc: Global,
    nodes: &[Inode],
    n: NodeId,
) -> Result<Vec<(Name, NodeId)>, NoMemory>
    ensures { IfOk result (λ rows. rows.items ≡ entries (names_in (slice_get nodes.now n))) }
{
    match nodes.get(n.number()) {
        None => Ok(Vec::new(alloc)),
        Some(inode) => inode.names.rows(alloc),
    }
}

/// A name of a node stands for a number, in the place of what it stood for.
pub(crate) fn put_name(
    alloc: Global,
    nodes: &mut Vec<Inode>,
    dir: NodeId,
    name: &Name,
    n: NodeId,
) -> Result<(), NoMemory>
    ensures ok { OnOk result (nodes.new.items ≡ change (with_name name.now n) nodes.old.items dir) }
    ensures err { OnErr result (nodes.new.items ≡ nodes.old.items) }
    ensures name { OnOk result (is_name name.now ≡ true) }
{
    let text = Vec::from_slice(alloc, name.as_slice())?;
    match nodes.get_mut(dir.number()) {
        None => Ok(()),
        Some(inode) => inode.names.put(text, n),
    }
}

/// A name of a node stands for nothing.
pub(crate) fn take_name(nodes: &mut Vec<Inode>, dir: NodeId, name: &Name)
    ensures { nodes.new.items ≡ change (without_name name.now) nodes.old.items dir }
{
    match nodes.get_mut(dir.number()) {
        None => {}
        Some(inode) => inode.names.take(name),
    }
}

/// A number goes from a name of a node to a name of another one, in the place of what that stood for.
pub(crate) fn move_name(
    alloc: Global,
    nodes: &mut Vec<Inode>,
    dir: NodeId,
    name: &Name,
    n: NodeId,
    to: NodeId,
    new: &Name,
) -> Result<(), NoMemory>
    ensures ok { OnOk result (nodes.new.items ≡ change (without_name name.now) (change (with_name new.now n) nodes.old.items to) dir) }
    ensures err { OnErr result (nodes.new.items ≡ nodes.old.items) }
    ensures name { OnOk result (is_name new.now ≡ true) }
{
    put_name(alloc, nodes, to, new, n)?;
    take_name(nodes, dir, name);
    Ok(())
}

/// A new node under a name of a node, by its number.
pub(crate) fn add_under(
    alloc: Global,
    nodes: &mut Vec<Inode>,
    dir: NodeId,
    name: &Name,
    it: Node,
) -> Result<NodeId, NoMemory>
    ensures number { IfOk result (λ n. n ≡ length nodes.old.items) }
    ensures added { OnOk result (nodes.new.items ≡ change (with_name name.now (length nodes.old.items)) (nodes.old.items ++ placed dir name.now it ∷ []) dir) }
    ensures err { OnErr result (nodes.new.items ≡ nodes.old.items) }
    ensures name { OnOk result (is_name name.now ≡ true) }
{
    let n = NodeId::new(nodes.len());
    let inode = Inode::placed(alloc, dir, name, it)?;
    nodes.push(inode)?;
    match put_name(alloc, nodes, dir, name, n) {
        Ok(()) => Ok(n),
        Err(_) => {
            let _ = nodes.pop();
            Err(NoMemory)
        }
    }
}

/// A node gets another place, or none.
pub(crate) fn put_place(nodes: &mut Vec<Inode>, n: NodeId, place: Option<(NodeId, Name)>)
    ensures { nodes.new.items ≡ change (with_place place) nodes.old.items n }
{
    match nodes.get_mut(n.number()) {
        None => {}
        Some(inode) => inode.place = place,
    }
}

/// A node gets a place, and the one that stood there loses it.
pub(crate) fn put_places(
    nodes: &mut Vec<Inode>,
    over: Option<NodeId>,
    n: NodeId,
    place: Option<(NodeId, Name)>,
)
    ensures { nodes.new.items ≡ change (with_place place) (cleared nodes.old.items over) n }
{
    if let Some(m) = over {
        put_place(nodes, m, None);
    }
    put_place(nodes, n, place);
}

/// Replaces the bytes of a file; any other node stays as it is.
pub(crate) fn replace_bytes(nodes: &mut Vec<Inode>, n: NodeId, bytes: Bytes)
    ensures { nodes.new.items ≡ change (as_node (hierarchy.replaced bytes)) nodes.old.items n }
{
    match nodes.get_mut(n.number()) {
        None => {}
        Some(inode) => inode.node.set_bytes(bytes),
    }
}

/// Bytes are known of a file; any other node stays as it is.
pub(crate) fn know_bytes(nodes: &mut Vec<Inode>, n: NodeId, bytes: Bytes) -> Result<(), NoMemory>
    ensures ok { OnOk result (nodes.new.items ≡ change (as_node (hierarchy.knowing bytes)) nodes.old.items n) }
    ensures err { OnErr result (nodes.new.items ≡ nodes.old.items) }
{
    match nodes.get_mut(n.number()) {
        None => Ok(()),
        Some(inode) => inode.node.know(bytes),
    }
}

/// A file shares the text of its bytes; any other node stays as it is.
pub(crate) fn share_text(nodes: &mut Vec<Inode>, n: NodeId, text: Bytes)
    requires { text ≡ hierarchy.file_bytes (slice_get (nodes_of nodes.old.items) n) }
    ensures { nodes.new.items ≡ nodes.old.items }
{
    match nodes.get_mut(n.number()) {
        None => {}
        Some(inode) => inode.node.share(text),
    }
}

/// Writes bytes over a file's; any other node stays as it is. After want of memory the file may hold anything.
pub(crate) fn write_over(
    alloc: Global,
    nodes: &mut Vec<Inode>,
    n: NodeId,
    at: usize,
    bytes: &[u8],
) -> Result<(), NoMemory>
    ensures ok { OnOk result (nodes.new.items ≡ change (as_node (hierarchy.over_written at bytes.now)) nodes.old.items n) }
    ensures any { (it : content.Content) × (nodes.new.items ≡ change (as_node (hierarchy.with_content it)) nodes.old.items n) }
{
    match nodes.get_mut(n.number()) {
        None => Ok(()),
        Some(inode) => inode.node.write(alloc, at, bytes),
    }
}

/// Replaces the mode of a file or a directory; a link stays as it is.
pub(crate) fn replace_mode(nodes: &mut Vec<Inode>, n: NodeId, mode: u16)
    ensures { nodes.new.items ≡ change (as_node (hierarchy.with_mode mode)) nodes.old.items n }
{
    match nodes.get_mut(n.number()) {
        None => {}
        Some(inode) => inode.node.set_mode(mode),
    }
}

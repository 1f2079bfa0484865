// Nodes.
ghost use Rattle.std.specs.Prelude.{◌≡◌, ◌↔◌, IsTrue, IfOk, OnOk, OnErr, Some, option_copied};
ghost use Rattle.rk_tree.specs.Entries.{is_dir, kind_of, node_of};
ghost use Rattle.rk_tree.specs.Content as content;
ghost use Rattle.rk_tree.specs.Hierarchy.{file_bytes, known_in, knowing, mode_of, over_written, path_in, replaced, text_of, with_content, with_mode};

use crate::{Content, Entry};
use rk_base::{Bytes, FileType, NoMemory, Path};
use std::alloc::Global;
use std::marker::Model;

/// A node: what an entry says. It stands in a tree, and at a path of a snapshot.
#[derive(Drop)]
pub struct Node {
    entry: Entry,
}

impl Model for Node {
    ghost use Rattle.rk_tree.specs.Node as node;

    ghost Value = { node.Node };

    ghost coded = { node.node_code };

    ghost use Rattle.rk_tree.specs.Entries.{node_of};

    ghost view = { λ n. node_of n.entry };
}

impl Node {
    /// The node of an entry.
    pub fn new(entry: Entry) -> Node
        ensures { result ≡ node_of entry }
    {
        Node { entry }
    }

    /// Its entry.
    pub fn entry(&self) -> &Entry
        ensures { node_of result.now ≡ self.now }
    {
        &self.entry
    }

    /// Whether it is a file, a directory or a link.
    pub fn kind(&self) -> FileType
        ensures { result ≡ kind_of self.now }
    {
        match &self.entry {
            Entry::File(_, _) => FileType::File,
            Entry::Dir(_) => FileType::Dir,
            Entry::Link(_) => FileType::Link,
        }
    }

    /// Whether it is a directory.
    pub fn is_dir(&self) -> bool
        ensures { result ≡ is_dir (Some self.now) }
    {
        matches!(&self.entry, Entry::Dir(_))
    }

    /// The mode; a link's is 0777.
    pub fn mode(&self) -> u16
        ensures { result ≡ mode_of (Some self.now) }
    {
        match &self.entry {
            Entry::File(mode, _) => *mode,
            Entry::Dir(mode) => *mode,
            Entry::Link(_) => 0o777,
        }
    }

    /// The bytes of a file; `None` exactly for a file whose bytes aren't known yet. Any other node has none.
    pub fn bytes(&self) -> Option<&[u8]>
        ensures { option_copied result ≡ known_in (Some self.now) }
    {
        match &self.entry {
            Entry::File(_, content) => content.bytes(),
            Entry::Dir(_) => Some(b""),
            Entry::Link(_) => Some(b""),
        }
    }

    /// Where a file came from; `None` exactly where it was written or emptied since, and for any other node.
    pub fn import_path(&self) -> Option<&Path>
        ensures { option_copied result ≡ path_in (Some self.now) }
    {
        match &self.entry {
            Entry::File(_, content) => content.import_path(),
            Entry::Dir(_) => None,
            Entry::Link(_) => None,
        }
    }

    /// The text of a link; none for any other node.
    pub fn link_text(&self) -> &[u8]
        ensures { result.now ≡ text_of (Some self.now) }
    {
        match &self.entry {
            Entry::File(_, _) => b"",
            Entry::Dir(_) => b"",
            Entry::Link(text) => text.as_slice(),
        }
    }

    /// Whether both are the same, what files hold included.
    pub fn same(&self, other: &Node) -> bool
        ensures { IsTrue result ↔ (self.now ≡ other.now) }
    {
        self.entry.same(&other.entry)
    }

    /// A copy of the node, which shares its bytes.
    pub fn copy(&self) -> Result<Node, NoMemory>
        ensures { IfOk result (λ it. it ≡ self.now) }
    {
        let entry = self.entry.copy()?;
        Ok(Node { entry })
    }

    /// The bytes of a file that are known, shared with it; none for any other node.
    pub fn copy_bytes(&self, alloc: Global) -> Result<Bytes, NoMemory>
        ensures { IfOk result (λ b. b ≡ file_bytes (Some self.now)) }
    {
        match &self.entry {
            Entry::File(_, content) => content.copy_bytes(alloc),
            Entry::Dir(_) => Bytes::from_slice(alloc, b""),
            Entry::Link(_) => Bytes::from_slice(alloc, b""),
        }
    }

    /// The text of a link, shared with it; none for any other node.
    pub fn copy_link_text(&self, alloc: Global) -> Result<Bytes, NoMemory>
        ensures { IfOk result (λ b. b ≡ text_of (Some self.now)) }
    {
        match &self.entry {
            Entry::File(_, _) => Bytes::from_slice(alloc, b""),
            Entry::Dir(_) => Bytes::from_slice(alloc, b""),
            Entry::Link(text) => text.copy(),
        }
    }

    // Bytes are written over a file's; any other node stays as it is. After want of memory the file may hold anything.
    pub(crate) fn write(&mut self, alloc: Global, at: usize, bytes: &[u8]) -> Result<(), NoMemory>
        ensures ok { OnOk result (self.new ≡ over_written at bytes.now self.old) }
        ensures any { (it : content.Content) × (self.new ≡ with_content it self.old) }
    {
        match &mut self.entry {
            Entry::File(_, old) => old.write(alloc, at, bytes),
            Entry::Dir(_) => Ok(()),
            Entry::Link(_) => Ok(()),
        }
    }

    // A file's bytes are replaced; any other node stays as it is.
    pub(crate) fn set_bytes(&mut self, bytes: Bytes)
        ensures { self.new ≡ replaced bytes self.old }
    {
        if let Entry::File(_, old) = &mut self.entry {
            *old = Content::Own(bytes);
        }
    }

    // Bytes that are known now stand beside a file's import path; any other node stays as it is.
    pub(crate) fn know(&mut self, bytes: Bytes) -> Result<(), NoMemory>
        ensures ok { OnOk result (self.new ≡ knowing bytes self.old) }
        ensures err { OnErr result (self.new ≡ self.old) }
    {
        match &mut self.entry {
            Entry::File(_, content) => content.know(bytes),
            Entry::Dir(_) => Ok(()),
            Entry::Link(_) => Ok(()),
        }
    }

    // A file shares the text of its bytes; any other node stays as it is.
    pub(crate) fn share(&mut self, text: Bytes)
        requires { text ≡ file_bytes (Some self.old) }
        ensures { self.new ≡ self.old }
    {
        if let Entry::File(_, content) = &mut self.entry {
            content.share(text);
        }
    }

    // The mode of a file or a directory is replaced; a link has none of its own.
    pub(crate) fn set_mode(&mut self, mode: u16)
        ensures { self.new ≡ with_mode mode self.old }
    {
        match &mut self.entry {
            Entry::File(old, _) => *old = mode,
            Entry::Dir(old) => *old = mode,
            Entry::Link(_) => {}
        }
    }
}

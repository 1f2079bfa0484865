// What a node is made of.
ghost use Rattle.std.specs.Prelude.{◌≡◌, ◌↔◌, IsTrue, IfOk};
ghost use Rattle.rk_tree.specs.Entries.{node_of};

use crate::Content;
use rk_base::{Bytes, NoMemory};

/// What is put into a tree or a snapshot: a file with its mode and what it holds, a directory with its mode,
/// or a symbolic link with its text.
#[derive(Clone, Debug, Drop)]
pub enum Entry {
    File(u16, Content),
    Dir(u16),
    Link(Bytes),
}

impl Entry {
    /// Whether both are the same, what files hold included.
    pub fn same(&self, other: &Entry) -> bool
        ensures { IsTrue result ↔ (node_of self.now ≡ node_of other.now) }
    {
        match (self, other) {
            (Entry::File(mode, content), Entry::File(other_mode, other_content)) => {
                *mode == *other_mode && content.same(other_content)
            }
            (Entry::Dir(mode), Entry::Dir(other_mode)) => *mode == *other_mode,
            (Entry::Link(text), Entry::Link(other_text)) => text.same(other_text),
            _ => false,
        }
    }

    /// A copy of the entry, which shares its bytes.
    pub fn copy(&self) -> Result<Entry, NoMemory>
        ensures { IfOk result (λ it. node_of it ≡ node_of self.now) }
    {
        let copy = self.clone()?;
        Ok(copy)
    }
}

// From a directory up to the root.
ghost use Rattle.std.specs.Prelude.{◌≡◌, IfOk, true, Some};
ghost use Rattle.std.specs.Option.{option_map};
ghost use Rattle.rk_base.specs.Canonical.{is_canonical};
ghost use Rattle.rk_base.specs.Text.{or_root, root};
ghost use Rattle.rk_tree.specs.Entries.{is_dir};
ghost use Rattle.rk_tree.specs.Hierarchy as hierarchy;
ghost use Rattle.rk_tree.specs.Names.{path_by};
ghost use Rattle.rk_tree.specs.Refusals.{is_there};

use crate::inode::place_at;
use crate::{NodeId, Tree};
use rk_base::{Name, NoMemory, Path, PathFault};
use std::alloc::Global;

fn or_root(text: &[u8]) -> &[u8]
    ensures { result.now ≡ or_root text.now }
{
    match text {
        [] => b"/",
        text => text,
    }
}

// The path of a canonical text.
fn parsed(alloc: Global, text: &[u8]) -> Result<Path, NoMemory>
    requires { is_canonical text.now ≡ true }
    ensures { IfOk result (λ path. path ≡ text.now) }
{
    match Path::parse(alloc, text) {
        Ok(path) => Ok(path),
        Err(PathFault::NoMemory) => Err(NoMemory),
        Err(PathFault::Invalid) => unreachable!(),
    }
}

// The text of names, the last one first, each after a slash; nothing for the root.
fn text_by(alloc: Global, names: Vec<Name>) -> Result<Vec<u8>, NoMemory>
    ensures text { IfOk result (λ text. or_root text.items ≡ path_by root names.items) }
    ensures canonical { IfOk result (λ text. is_canonical (or_root text.items) ≡ true) }
{
    let mut text = Vec::new(alloc);
    let mut left = names;
    'names: while let Some(name) = left.pop() {
        text.push(b'/')?;
        text.extend_from_slice(name.as_slice())?;
    }
    Ok(text)
}

// The path of names, the last one first, put together in one text.
fn path_by(alloc: Global, names: Vec<Name>) -> Result<Path, NoMemory>
    ensures { IfOk result (λ path. path ≡ path_by root names.items) }
{
    let text = text_by(alloc, names)?;
    let path = parsed(alloc, or_root(&text))?;
    Ok(path)
}

impl Tree {
    /// Whether a directory stands somewhere: it wasn't removed.
    pub(super) fn has_path(&self, dir: NodeId) -> bool
        requires { is_dir (hierarchy.node self.now dir) ≡ true }
        ensures { result ≡ is_there (hierarchy.path_of self.now dir) }
    {
        dir.is_root() || place_at(self.nodes.as_slice(), dir).is_some()
    }

    // The names of a directory's path, the last one first.
    fn names_to(&self, dir: NodeId) -> Result<Option<Vec<Name>>, NoMemory>
        requires { is_dir (hierarchy.node self.now dir) ≡ true }
        ensures { IfOk result (λ names. option_map (λ some. path_by root some.items) names ≡ hierarchy.path_of self.now dir) }
    {
        let mut names = Vec::new(*self.nodes.allocator());
        let mut at = dir;
        'up: while !at.is_root() {
            match place_at(self.nodes.as_slice(), at) {
                None => return Ok(None),
                Some((up, name)) => {
                    names.push(name.copy()?)?;
                    at = *up;
                }
            }
        }
        Ok(Some(names))
    }

    /// The path of a directory; `None` for a directory that was removed.
    pub fn path_of(&self, dir: NodeId) -> Result<Option<Path>, NoMemory>
        requires { is_dir (hierarchy.node self.now dir) ≡ true }
        ensures { IfOk result (λ path. path ≡ hierarchy.path_of self.now dir) }
    {
        match self.names_to(dir)? {
            None => Ok(None),
            Some(names) => {
                let path = path_by(*self.nodes.allocator(), names)?;
                Ok(Some(path))
            }
        }
    }

    /// Whether a directory is this one or stands anywhere below it.
    pub(super) fn stands_within(&self, above: NodeId, dir: NodeId) -> bool
        requires above { is_dir (hierarchy.node self.now above) ≡ true }
        requires dir { is_dir (hierarchy.node self.now dir) ≡ true }
        ensures { result ≡ hierarchy.stands_within self.now above dir }
    {
        if !self.has_path(above) {
            return false;
        }
        let mut at = dir;
        'up: while at != above {
            if at.is_root() {
                return false;
            }
            match place_at(self.nodes.as_slice(), at) {
                None => return false,
                Some((up, _)) => at = *up,
            }
        }
        true
    }
}

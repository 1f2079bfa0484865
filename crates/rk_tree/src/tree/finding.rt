// What stands at a path, and under a name.
ghost use Rattle.std.specs.Prelude.{◌≡◌, IfSome, drop, true};
ghost use Rattle.rk_tree.specs.Entries.{is_dir};
ghost use Rattle.rk_tree.specs.Hierarchy as hierarchy;

use crate::{NodeId, Tree};
use rk_base::{Name, Path, first_component};

fn below_root(text: &[u8]) -> &[u8]
    ensures { result.now ≡ drop 1 text.now }
{
    match text {
        [] => text,
        [_, names @ ..] => names,
    }
}

impl Tree {
    // What a text stands for in a node; only a directory has names.
    fn under(&self, dir: NodeId, name: &[u8]) -> Option<NodeId>
        ensures found { result ≡ hierarchy.child self.now dir name.now }
        ensures in_dir { IfSome result (λ n. is_dir (hierarchy.node self.now dir) ≡ true) }
    {
        let _ = &self.nodes;
        if self.is_dir(dir) {
            self.child(dir, name)
        } else {
            None
        }
    }

    // What a name of a directory stands for.
    pub(super) fn found(&self, dir: NodeId, name: &Name) -> Option<NodeId>
        ensures found { result ≡ hierarchy.child self.now dir name.now }
        ensures in_dir { IfSome result (λ n. is_dir (hierarchy.node self.now dir) ≡ true) }
    {
        self.under(dir, name.as_slice())
    }

    /// The node at a path; `None` exactly where nothing stands there. It takes no memory.
    pub fn node(&self, path: &Path) -> Option<NodeId>
        ensures { result ≡ hierarchy.number_at self.now path.now }
    {
        let mut dir = self.root();
        if path.is_root() {
            return Some(dir);
        }
        let mut names = below_root(path.text());
        'names: while let Some((name, rest)) = first_component(names) {
            match self.under(dir, name) {
                None => return None,
                Some(n) => dir = n,
            }
            names = rest;
        }
        self.under(dir, names)
    }
}

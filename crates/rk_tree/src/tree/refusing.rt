// When a change is refused.
ghost use Rattle.std.specs.Prelude.{◌≡◌, [], ◌∷◌, not, true, Some};
ghost use Rattle.rk_base.specs.Canonical.{is_empty};
ghost use Rattle.rk_base.specs.declared.errno.Errno.TheVariants.{Exists, Denied};
ghost use Rattle.rk_tree.specs.Entries.{is_dir, node_of};
ghost use Rattle.rk_tree.specs.Hierarchy as hierarchy;
ghost use Rattle.rk_tree.specs.Refusals as refusals;

use crate::inode::has_names;
use crate::{Entry, NodeId, Tree, has_w};
use rk_base::{Errno, Name, has_nul};

fn mode_refusal(mode: u16) -> Option<Errno>
    ensures { result ≡ refusals.first_of (refusals.mode_checks mode) }
{
    if mode > 0o777 {
        Some(Errno::Invalid)
    } else {
        None
    }
}

// What no node may be.
fn entry_refusal(it: &Entry) -> Option<Errno>
    ensures { result ≡ refusals.first_of (refusals.entry_checks (node_of it.now)) }
{
    match it {
        Entry::File(mode, _) => mode_refusal(*mode),
        Entry::Dir(mode) => mode_refusal(*mode),
        Entry::Link(text) => {
            if text.is_empty() {
                Some(Errno::NoEntry)
            } else if has_nul(text.as_slice()) {
                Some(Errno::Invalid)
            } else {
                None
            }
        }
    }
}

impl Tree {
    // Whether names stand in a directory.
    fn has_below(&self, dir: NodeId) -> bool
        requires { is_dir (hierarchy.node self.now dir) ≡ true }
        ensures { result ≡ not (is_empty (hierarchy.names self.now dir)) }
    {
        has_names(self.nodes.as_slice(), dir)
    }

    fn has_names(&self, n: NodeId) -> bool
        ensures { result ≡ refusals.has_names self.now n }
    {
        self.is_dir(n) && self.has_below(n)
    }

    fn lacks_w(&self, dir: NodeId) -> bool
        ensures { result ≡ refusals.lacks_w self.now dir }
    {
        !has_w(self.mode(dir))
    }

    // A directory gains a name.
    fn gain_refusal(&self, dir: NodeId, name: &Name) -> Option<Errno>
        requires { is_dir (hierarchy.node self.now dir) ≡ true }
        ensures { result ≡ refusals.first_of ((refusals.is_there (hierarchy.child self.now dir name.now), Exists) ∷ (refusals.lacks_w self.now dir, Denied) ∷ []) }
    {
        match self.child(dir, name.as_slice()) {
            Some(_) => Some(Errno::Exists),
            None => {
                if self.lacks_w(dir) {
                    Some(Errno::Denied)
                } else {
                    None
                }
            }
        }
    }

    pub(super) fn add_refusal(&self, dir: NodeId, name: &Name, it: &Entry) -> Option<Errno>
        requires { is_dir (hierarchy.node self.now dir) ≡ true }
        ensures { result ≡ refusals.add_refusal self.now dir name.now (node_of it.now) }
    {
        match entry_refusal(it) {
            Some(e) => Some(e),
            None => self.gain_refusal(dir, name),
        }
    }

    // A node gains a name.
    #[tactic(auto, unfolding(crate::specs::Refusals::link_refusal))]
    pub(super) fn link_refusal(&self, dir: NodeId, name: &Name, n: NodeId) -> Option<Errno>
        requires { is_dir (hierarchy.node self.now dir) ≡ true }
        ensures { result ≡ refusals.link_refusal self.now dir name.now n }
    {
        if !self.has(n) {
            Some(Errno::NoEntry)
        } else if self.is_dir(n) {
            Some(Errno::Denied)
        } else {
            self.gain_refusal(dir, name)
        }
    }

    // A directory loses the name of a node.
    pub(super) fn loss_refusal(&self, dir: NodeId, n: NodeId) -> Option<Errno>
        ensures { result ≡ refusals.remove_found self.now dir (Some n) }
    {
        if self.has_names(n) {
            Some(Errno::NotEmpty)
        } else if self.lacks_w(dir) {
            Some(Errno::Denied)
        } else {
            None
        }
    }

    #[tactic(auto, unfolding(crate::specs::Refusals::mode_refusal))]
    pub(super) fn mode_refusal(&self, n: NodeId, mode: u16) -> Option<Errno>
        ensures { result ≡ refusals.mode_refusal self.now n mode }
    {
        match mode_refusal(mode) {
            Some(e) => Some(e),
            None => {
                if self.has(n) {
                    None
                } else {
                    Some(Errno::NoEntry)
                }
            }
        }
    }

    fn goes_below(&self, n: NodeId, to: NodeId) -> bool
        requires { is_dir (hierarchy.node self.now to) ≡ true }
        ensures { result ≡ refusals.goes_below self.now n to }
    {
        self.is_dir(n) && self.stands_within(n, to)
    }

    // A node goes where another one stands.
    fn onto_refusal(&self, n: NodeId, to: NodeId, over: NodeId) -> Option<Errno>
        requires { is_dir (hierarchy.node self.now to) ≡ true }
        ensures { result ≡ refusals.first_of (refusals.over_checks self.now n to (Some over)) }
    {
        let dir = self.is_dir(n);
        let over_dir = self.is_dir(over);
        if dir && !over_dir {
            Some(Errno::NotDir)
        } else if !dir && over_dir {
            Some(Errno::IsDir)
        } else if self.goes_below(n, to) {
            Some(Errno::Invalid)
        } else if self.has_names(over) {
            Some(Errno::NotEmpty)
        } else {
            None
        }
    }

    fn over_refusal(&self, n: NodeId, to: NodeId, over: &Option<NodeId>) -> Option<Errno>
        requires { is_dir (hierarchy.node self.now to) ≡ true }
        ensures { result ≡ refusals.first_of (refusals.over_checks self.now n to over.now) }
    {
        match over {
            Some(over) => self.onto_refusal(n, to, *over),
            None => {
                if self.goes_below(n, to) {
                    Some(Errno::Invalid)
                } else {
                    None
                }
            }
        }
    }

    // A node leaves a directory for another one, where it takes the place of another node or of none.
    pub(super) fn move_refusal(
        &self,
        dir: NodeId,
        n: NodeId,
        to: NodeId,
        over: &Option<NodeId>,
    ) -> Option<Errno>
        requires { is_dir (hierarchy.node self.now to) ≡ true }
        ensures { result ≡ refusals.first_of (refusals.rename_checks self.now dir n to over.now) }
    {
        if self.lacks_w(dir) {
            Some(Errno::Denied)
        } else if self.lacks_w(to) {
            Some(Errno::Denied)
        } else {
            self.over_refusal(n, to, over)
        }
    }
}

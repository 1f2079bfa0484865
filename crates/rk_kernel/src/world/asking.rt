// Calls that change nothing.
ghost use Rattle.std.specs.Prelude.{◌≡◌, IfOk, None, true, false};
ghost use Rattle.rk_calls.specs.declared.call.Call.TheVariants as call;
ghost use Rattle.rk_tree.specs.Hierarchy as hierarchy;
ghost use Rattle.rk_tree.specs.Refusals.{is_there};
ghost use Rattle.rk_walk.specs.declared.place.Place.TheVariants.{Found};
ghost use Rattle.rk_kernel.specs.Do as all;
ghost use Rattle.rk_kernel.specs.Questions as questions;
ghost use Rattle.rk_kernel.specs.Spot.{met};

use crate::World;
use rk_base::{Bytes, Errno, FileType, NoMemory};
use rk_calls::{Answer, Refs};
use rk_tree::{NodeId, has_r, has_x};
use rk_walk::{Place, resolve};

impl World {
    fn stat_of(&self, n: NodeId) -> Answer
        requires { is_there (hierarchy.node self.now.tree n) ≡ true }
        ensures { result ≡ questions.stat_of (hierarchy.node self.now.tree n) }
    {
        match self.tree.kind(n) {
            FileType::File => Answer::Stat {
                kind: FileType::File,
                mode: self.tree.mode(n) % 512,
                empty: self.file(n.number()).is_empty(),
            },
            FileType::Dir => Answer::Stat {
                kind: FileType::Dir,
                mode: self.tree.mode(n) % 512,
                empty: false,
            },
            FileType::Link => Answer::Stat {
                kind: FileType::Link,
                mode: 0o777,
                empty: false,
            },
        }
    }

    fn text_of(&self, refs: &Refs, n: NodeId) -> Result<Answer, NoMemory>
        requires { is_there (hierarchy.node self.now.tree n) ≡ true }
        ensures { IfOk result (λ a. record { answer = a; refs = refs.now; world = self.now } ≡ questions.read_link_at self.now refs.now (Found (record { node = n; up = None; slash = false }))) }
    {
        match self.tree.kind(n) {
            FileType::File => Ok(Answer::No(Errno::Invalid)),
            FileType::Dir => Ok(Answer::No(Errno::Invalid)),
            FileType::Link => {
                let text = self.tree.copy_link_text(n)?;
                Ok(Answer::Text(text))
            }
        }
    }

    /// What stands at a path.
    pub(super) fn stat(&self, refs: &Refs, path: &Bytes, follow: bool) -> Answer
        ensures { record { answer = result; refs = refs.now; world = self.now } ≡ all.answered self.now refs.now (call.Stat path.now follow) }
    {
        match resolve(&self.tree, path.as_slice(), follow) {
            Err(e) => Answer::No(e),
            Ok(place) => match place {
                Place::Absent { .. } => Answer::No(Errno::NoEntry),
                Place::Found(here) => self.stat_of(here.node),
            },
        }
    }

    fn names_of(&self, refs: &Refs, n: NodeId) -> Result<Answer, NoMemory>
        ensures { IfOk result (λ a. record { answer = a; refs = refs.now; world = self.now } ≡ questions.list_at self.now refs.now (Found (record { node = n; up = None; slash = false }))) }
    {
        if !self.tree.is_dir(n) {
            return Ok(Answer::No(Errno::NotDir));
        }
        if !has_r(self.tree.mode(n)) {
            return Ok(Answer::No(Errno::Denied));
        }
        let names = self.tree.list(n)?;
        Ok(Answer::Names(names))
    }

    /// The names in a directory.
    pub(super) fn list(&self, refs: &Refs, path: &Bytes) -> Result<Answer, NoMemory>
        ensures { IfOk result (λ a. record { answer = a; refs = refs.now; world = self.now } ≡ all.answered self.now refs.now (call.List path.now)) }
    {
        match resolve(&self.tree, path.as_slice(), true) {
            Err(e) => Ok(Answer::No(e)),
            Ok(place) => match place {
                Place::Absent { .. } => Ok(Answer::No(Errno::NoEntry)),
                Place::Found(here) => self.names_of(refs, here.node),
            },
        }
    }

    /// The text of a link.
    pub(super) fn read_link(&self, refs: &Refs, path: &Bytes) -> Result<Answer, NoMemory>
        ensures { IfOk result (λ a. record { answer = a; refs = refs.now; world = self.now } ≡ all.answered self.now refs.now (call.ReadLink path.now)) }
    {
        match resolve(&self.tree, path.as_slice(), false) {
            Err(e) => Ok(Answer::No(e)),
            Ok(place) => match place {
                Place::Absent { .. } => Ok(Answer::No(Errno::NoEntry)),
                Place::Found(here) => self.text_of(refs, here.node),
            },
        }
    }

    fn place_of(&self, refs: &Refs, n: NodeId) -> Result<Answer, NoMemory>
        ensures { IfOk result (λ a. record { answer = a; refs = refs.now; world = self.now } ≡ questions.walk_at self.now refs.now (Found (record { node = n; up = None; slash = false }))) }
    {
        if !self.tree.is_dir(n) {
            return Ok(Answer::No(Errno::NotDir));
        }
        if !has_x(self.tree.mode(n)) {
            return Ok(Answer::No(Errno::Denied));
        }
        match self.tree.path_of(n)? {
            None => Ok(Answer::No(Errno::NoEntry)),
            Some(path) => Ok(Answer::Place(path)),
        }
    }

    /// The canonical path of a directory.
    pub(super) fn walk(&self, refs: &Refs, path: &Bytes) -> Result<Answer, NoMemory>
        ensures { IfOk result (λ a. record { answer = a; refs = refs.now; world = self.now } ≡ all.answered self.now refs.now (call.Walk path.now)) }
    {
        match resolve(&self.tree, path.as_slice(), true) {
            Err(e) => Ok(Answer::No(e)),
            Ok(place) => match place {
                Place::Absent { .. } => Ok(Answer::No(Errno::NoEntry)),
                Place::Found(here) => self.place_of(refs, here.node),
            },
        }
    }

    /// Whether two paths lead to one node.
    pub(super) fn same(&self, refs: &Refs, a: &Bytes, b: &Bytes) -> Answer
        ensures { record { answer = result; refs = refs.now; world = self.now } ≡ all.answered self.now refs.now (call.Same a.now b.now) }
    {
        match (self.leads(a), self.leads(b)) {
            (Err(e), _) => Answer::No(e),
            (Ok(_), Err(e)) => Answer::No(e),
            (Ok(None), Ok(_)) => Answer::No(Errno::NoEntry),
            (Ok(Some(_)), Ok(None)) => Answer::No(Errno::NoEntry),
            (Ok(Some(n)), Ok(Some(m))) => Answer::Same(n == m),
        }
    }

    // The node that a path leads to, or that it leads to an absent name.
    fn leads(&self, path: &Bytes) -> Result<Option<NodeId>, Errno>
        ensures { result ≡ met (all.followed self.now path.now) }
    {
        match resolve(&self.tree, path.as_slice(), true) {
            Err(e) => Err(e),
            Ok(place) => match place {
                Place::Absent { slash, .. } => {
                    if slash { Err(Errno::NoEntry) } else { Ok(None) }
                }
                Place::Found(here) => Ok(Some(here.node)),
            },
        }
    }
}

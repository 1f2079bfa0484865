// What a call looks at is known first.
ghost use Rattle.std.specs.Prelude.{◌≡◌, IfOk, IfSome, OnOk, Some, true, false};
ghost use Rattle.rk_base.specs.Canonical.{is_empty};
ghost use Rattle.rk_calls.specs.Refs.{ref_at};
ghost use Rattle.rk_tree.specs.Full as tree;
ghost use Rattle.rk_tree.specs.Full.{AreFrom};
ghost use Rattle.rk_tree.specs.Hierarchy.{node};
ghost use Rattle.rk_walk.specs.Walk as walk;
ghost use Rattle.rk_kernel.specs.Causes.{Caused, Steadily};
ghost use Rattle.rk_kernel.specs.Full as full;
ghost use Rattle.rk_kernel.specs.Full.{IsFetched};
ghost use Rattle.rk_kernel.specs.Numbers as numbers;

use crate::world::files::file_of;
use crate::{AnswerErr, World};
use rk_base::Bytes;
use rk_calls::{Call, Refs};
use rk_tree::{Fetch, NodeId};
use rk_walk::{Place, resolve};

impl World {
    // The file that is open under a reference and may be read.
    fn file_read_by(&self, refs: &Refs, r: u64) -> Option<usize>
        ensures { result ≡ numbers.file_opened self.now (λ d. d.read) (ref_at refs.now r) }
    {
        match refs.at(r) {
            None => None,
            Some(k) => match self.description(k) {
                None => None,
                Some(d) => { if d.read { file_of(d.source) } else { None } }
            },
        }
    }

    // The file that is open under a reference and may be written.
    fn file_written_by(&self, refs: &Refs, r: u64) -> Option<usize>
        ensures { result ≡ numbers.file_opened self.now (λ d. d.write) (ref_at refs.now r) }
    {
        match refs.at(r) {
            None => None,
            Some(k) => match self.description(k) {
                None => None,
                Some(d) => { if d.write { file_of(d.source) } else { None } }
            },
        }
    }

    // The file that is written to, unless nothing is.
    fn file_written(&self, refs: &Refs, r: u64, bytes: &Bytes) -> Option<usize>
        ensures { result ≡ full.file_written self.now (ref_at refs.now r) (is_empty bytes.now) }
    {
        if bytes.as_slice().is_empty() {
            None
        } else {
            self.file_written_by(refs, r)
        }
    }

    // What a path leads to.
    fn file_at(&self, path: &[u8], follow: bool) -> Option<usize>
        ensures { result ≡ full.file_at (walk.resolve self.now.tree path.now follow) }
    {
        match resolve(&self.tree, path, follow) {
            Err(_) => None,
            Ok(place) => match place {
                Place::Found(here) => Some(here.node.number()),
                Place::Absent { .. } => None,
            },
        }
    }

    /// The file whose bytes a call looks at, if it looks at any.
    pub(crate) fn file_seen(&self, refs: &Refs, call: &Call) -> Option<usize>
        ensures { result ≡ full.file_seen self.now refs.now call.now }
    {
        match call {
            Call::Read(r) => self.file_read_by(refs, *r),
            Call::ReadLine(r) => self.file_read_by(refs, *r),
            Call::Write(r, bytes) => self.file_written(refs, *r, bytes),
            Call::Stat(path, follow) => self.file_at(path.as_slice(), *follow),
            _ => None,
        }
    }

    // The bytes of a file that aren't known yet, fetched.
    fn fetch<G: Fetch>(&self, fetch: &mut G, n: NodeId) -> Result<Bytes, AnswerErr>
        requires from { AreFrom (G.told fetch.old) self.now.tree }
        requires unread { tree.is_known (node self.now.tree n) ≡ false }
        ensures gives { IfOk result (λ bytes. IsFetched (G.told fetch.old) (node self.now.tree n) bytes) }
        ensures told { G.told fetch.new ≡ G.told fetch.old }
        ensures keeps { G.Keeps fetch.old fetch.new }
        ensures stays { OnOk result (G.Stays fetch.old fetch.new) }
        ensures steady { Steadily (G.steady fetch.old) (G.steady fetch.new) result }
        ensures caused { Caused (G.faults fetch.old) (G.faults fetch.new) result }
    {
        let path = match self.tree.import_path(n) {
            None => unreachable!(),
            Some(path) => path.copy()?,
        };
        let bytes = fetch.get(self.allocator(), &path)?;
        Ok(bytes)
    }

    /// Whether the bytes of a file are known.
    pub(crate) fn is_known(&self, n: usize) -> bool
        ensures { result ≡ tree.is_known (node self.now.tree n) }
    {
        self.tree.bytes(NodeId::new(n)).is_some()
    }

    /// The bytes of a file are known. In full nothing changes, nor does any other file.
    pub(crate) fn look_at<G: Fetch>(&mut self, fetch: &mut G, n: usize) -> Result<(), AnswerErr>
        requires { AreFrom (G.told fetch.old) self.old.tree }
        ensures known { OnOk result (tree.is_known (node self.new.tree n) ≡ true) }
        ensures full { OnOk result (IfSome (G.told fetch.old) (λ told. full.full_world told self.new ≡ full.full_world told self.old)) }
        ensures from { OnOk result (AreFrom (G.told fetch.new) self.new.tree) }
        ensures opens { OnOk result (self.new.opens ≡ self.old.opens) }
        ensures others { OnOk result (numbers.Stays (Some n) self.old.tree self.new.tree) }
        ensures told { G.told fetch.new ≡ G.told fetch.old }
        ensures keeps { G.Keeps fetch.old fetch.new }
        ensures stays { OnOk result (G.Stays fetch.old fetch.new) }
        ensures steady { Steadily (G.steady fetch.old) (G.steady fetch.new) result }
        ensures caused { Caused (G.faults fetch.old) (G.faults fetch.new) result }
    {
        if self.is_known(n) {
            return Ok(());
        }
        let node = NodeId::new(n);
        let bytes = self.fetch(fetch, node)?;
        self.tree.know(node, bytes)?;
        Ok(())
    }
}

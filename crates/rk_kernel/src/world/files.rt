// The files that calls read and change.
ghost use Rattle.std.specs.Prelude.{◌≡◌, true};
ghost use Rattle.rk_calls.specs.Refs.{ref_at};
ghost use Rattle.rk_calls.specs.declared.call.How.TheVariants as how;
ghost use Rattle.rk_tree.specs.Hierarchy.{file_bytes, node};
ghost use Rattle.rk_walk.specs.Walk as walk;
ghost use Rattle.rk_kernel.specs.Numbers as numbers;

use crate::{Description, Source, World};
use rk_base::Bytes;
use rk_calls::{Call, How, Refs};
use rk_tree::NodeId;
use rk_walk::{Place, resolve};

// The file that is read or written, if it is one.
pub(super) fn file_of(source: Source) -> Option<usize>
    ensures { result ≡ numbers.file_of source }
{
    match source {
        Source::Node(n) => Some(n),
        Source::Pipe(_) => None,
        Source::Output => None,
        Source::ErrorText => None,
        Source::Nothing => None,
    }
}

fn is_at_start(d: Description) -> bool
    ensures { result ≡ numbers.is_at_start d }
{
    d.read && d.offset == 0
}

impl World {
    // The file that is open under a reference and is read from its first byte on next.
    fn file_at_start(&self, refs: &Refs, r: u64) -> Option<usize>
        ensures { result ≡ numbers.file_opened self.now numbers.is_at_start (ref_at refs.now r) }
    {
        match refs.at(r) {
            None => None,
            Some(k) => match self.description(k) {
                None => None,
                Some(d) => {
                    if is_at_start(d) {
                        file_of(d.source)
                    } else {
                        None
                    }
                }
            },
        }
    }

    // The file that is open under a reference.
    fn file_open(&self, refs: &Refs, r: u64) -> Option<usize>
        ensures { result ≡ numbers.file_opened self.now (λ d. true) (ref_at refs.now r) }
    {
        match refs.at(r) {
            None => None,
            Some(k) => match self.description(k) {
                None => None,
                Some(d) => file_of(d.source),
            },
        }
    }

    // The file that a path leads to.
    fn file_found(&self, path: &[u8]) -> Option<usize>
        ensures { result ≡ numbers.file_made how.Make (walk.resolve self.now.tree path.now true) }
    {
        match resolve(&self.tree, path, true) {
            Err(_) => None,
            Ok(place) => match place {
                Place::Found(here) => Some(here.node.number()),
                Place::Absent { .. } => None,
            },
        }
    }

    // The file that a path leads to, where it is to be made anew.
    fn file_made(&self, path: &[u8], how: How) -> Option<usize>
        ensures { result ≡ numbers.file_made how (walk.resolve self.now.tree path.now true) }
    {
        match how {
            How::Read => None,
            How::Append => None,
            How::Make => self.file_found(path),
        }
    }

    /// The bytes of a file are these, which are its own: it shares their text.
    pub(crate) fn share(&mut self, n: usize, text: Bytes)
        requires { text ≡ file_bytes (node self.old.tree n) }
        ensures { self.new ≡ self.old }
    {
        self.tree.share(NodeId::new(n), text);
    }

    /// The file that a call reads whole, if it is such a one.
    pub(crate) fn file_read(&self, refs: &Refs, call: &Call) -> Option<usize>
        ensures { result ≡ numbers.file_read self.now refs.now call.now }
    {
        match call {
            Call::Read(r) => self.file_at_start(refs, *r),
            _ => None,
        }
    }

    /// The one file whose bytes a call may change, if it is such a one.
    pub(crate) fn file_changed(&self, refs: &Refs, call: &Call) -> Option<usize>
        ensures { result ≡ numbers.file_changed self.now refs.now call.now }
    {
        match call {
            Call::Open(path, how) => self.file_made(path.as_slice(), *how),
            Call::Write(r, _) => self.file_open(refs, *r),
            _ => None,
        }
    }
}

// Snapshots that are built path by path.
ghost use Rattle.std.specs.Prelude.{◌≡◌, IfOk, OnOk};
ghost use Rattle.std.specs.FinMap.{empty, get, insert};
ghost use Rattle.std.specs.Ordering.{is_lt};
ghost use Rattle.rk_tree.specs.Entries.{is_dir, node_of};
ghost use Rattle.rk_tree.specs.Growing.{comes_next, walk_byte, walk_cmp};

use crate::{Entry, Node, Snapshot};
use rk_base::{NoMemory, Path};
use std::alloc::Global;
use std::cmp::Ordering;
use std::marker::Model;
use std::mem;

// What was put so far: paths in the order of a walk, or any.
#[derive(Drop)]
enum BuilderRows {
    Walked(Vec<(Path, Node)>),
    Settled(Snapshot),
}

/// A snapshot that is being built. As long as paths come in the order of a walk (a directory, then what is in it, then the next name),
/// each is compared with the one before it alone, and all of them are put in the order of their texts at the end; from another
/// path on each is searched for.
#[derive(Drop)]
pub struct SnapshotBuilder {
    rows: BuilderRows,
}

impl Model for SnapshotBuilder {
    ghost use Rattle.std.specs.FinMap as map;
    ghost use Rattle.std.specs.Coded.{coded_list, coded_ℕ};
    ghost use Rattle.rk_tree.specs.Entries.{Entries};

    ghost Value = { Entries };

    ghost use Rattle.rk_tree.specs.Node.{node_code};

    ghost coded = { map.code (coded_list coded_ℕ) node_code };

    ghost use Rattle.rk_tree.specs.Growing.{grown, IsGrowing};

    ghost view = { λ g. grown g.rows };

    ghost invariant = { λ g. IsGrowing g.rows };
}

// A slash comes before each byte of a name.
fn walk_byte(b: u8) -> u16
    ensures { result ≡ walk_byte b }
{
    if b == b'/' { 0 } else { u16::from(b) + 1 }
}

// Whether a walk comes to the first path before the second.
fn comes_before(first: &[u8], second: &[u8]) -> bool
    ensures { result ≡ is_lt (walk_cmp first.now second.now) }
{
    let (mut a, mut b) = (first, second);
    'bytes: while let [x, xs @ ..] = a {
        let [y, ys @ ..] = b else {
            return false;
        };
        match walk_byte(*x).cmp(&walk_byte(*y)) {
            Ordering::Less => return true,
            Ordering::Equal => {
                a = xs;
                b = ys;
            }
            Ordering::Greater => return false,
        }
    }
    match b {
        [] => false,
        [_, ..] => true,
    }
}

// Whether a walk comes to a path behind the last of these rows.
#[tactic(auto, using(crate::proofs::GrowingLemmas::next_got, crate::proofs::GrowingLemmas::next_none))]
fn comes_next(rows: &[(Path, Node)], path: &Path) -> bool
    ensures { result ≡ comes_next rows.now path.now }
{
    match rows.last() {
        None => true,
        Some((last, _)) => comes_before(last.text(), path.text()),
    }
}

fn is_dir_at(snapshot: &Snapshot, path: &Path) -> bool
    ensures { result ≡ is_dir (get snapshot.now path.now) }
{
    match snapshot.get(path) {
        Some(it) => it.is_dir(),
        None => false,
    }
}

impl SnapshotBuilder {
    /// Nothing at any path.
    pub fn new(alloc: Global) -> SnapshotBuilder
        ensures { result ≡ empty }
    {
        SnapshotBuilder {
            rows: BuilderRows::Walked(Vec::new(alloc)),
        }
    }

    /// Whether a directory stands at a path.
    #[tactic(auto, using(crate::proofs::GrowingLemmas::walk_new))]
    pub fn is_dir(&mut self, alloc: Global, path: &Path) -> Result<bool, NoMemory>
        ensures found { IfOk result (λ is. is ≡ is_dir (get self.old path.now)) }
        ensures same { OnOk result (self.new ≡ self.old) }
    {
        match &mut self.rows {
            BuilderRows::Settled(snapshot) => Ok(is_dir_at(snapshot, path)),
            BuilderRows::Walked(rows) => {
                if comes_next(rows, path) {
                    return Ok(false);
                }
                let snapshot = Snapshot::of_rows(alloc, mem::replace(rows, Vec::new(alloc)))?;
                let is = is_dir_at(&snapshot, path);
                self.rows = BuilderRows::Settled(snapshot);
                Ok(is)
            }
        }
    }

    /// An entry at a path, in the place of what stood there.
    #[tactic(auto, using(crate::proofs::GrowingLemmas::walk_new, crate::proofs::GrowingLemmas::walk_push, crate::proofs::GrowingLemmas::made_push))]
    pub fn put(&mut self, alloc: Global, path: Path, it: Entry) -> Result<(), NoMemory>
        ensures { OnOk result (self.new ≡ insert self.old path (node_of it)) }
    {
        match &mut self.rows {
            BuilderRows::Settled(snapshot) => snapshot.put(path, it),
            BuilderRows::Walked(rows) => {
                if comes_next(rows, &path) {
                    rows.push((path, Node::new(it)))?;
                    return Ok(());
                }
                let mut snapshot = Snapshot::of_rows(alloc, mem::replace(rows, Vec::new(alloc)))?;
                snapshot.put(path, it)?;
                self.rows = BuilderRows::Settled(snapshot);
                Ok(())
            }
        }
    }

    /// The snapshot that it has grown to.
    pub fn finish(self, alloc: Global) -> Result<Snapshot, NoMemory>
        ensures { IfOk result (λ snapshot. snapshot ≡ self) }
    {
        match self.rows {
            BuilderRows::Settled(snapshot) => Ok(snapshot),
            BuilderRows::Walked(rows) => Snapshot::of_rows(alloc, rows),
        }
    }
}

// Snapshots.
ghost use Rattle.std.specs.Prelude.{◌≡◌, ◌↔◌, IsTrue, None, option_copied, IfOk, OnOk, OnErr};
ghost use Rattle.std.specs.BTreeMap.{IsFromIterResult};
ghost use Rattle.std.specs.FinMap.{empty, entries, get, insert, len};
ghost use Rattle.rk_base.specs.Text.{text_cmp};
ghost use Rattle.rk_tree.specs.Copying.{made_of};
ghost use Rattle.rk_tree.specs.Entries.{node_of};

use crate::{Entry, Node};
use rk_base::{NoMemory, Path};
use std::alloc::{AllocError, Global};
use std::cmp::Ordering;
use std::collections::BTreeMap;
use std::marker::Model;

/// What stands at each path: a finite map, in the order of the paths' texts.
#[derive(Drop)]
pub struct Snapshot {
    rows: BTreeMap<Path, Node>,
}

impl Model for Snapshot {
    ghost use Rattle.std.specs.FinMap as map;
    ghost use Rattle.std.specs.Coded.{coded_list, coded_ℕ};
    ghost use Rattle.rk_tree.specs.Entries.{Entries};

    ghost Value = { Entries };

    ghost use Rattle.rk_tree.specs.Node.{node_code};

    ghost coded = { map.code (coded_list coded_ℕ) node_code };

    ghost use Rattle.rk_tree.specs.Rows.{map_of};

    ghost view = { λ s. map_of s.rows.entries };

    ghost use Rattle.std.specs.Prelude.{map};
    ghost use Rattle.std.specs.List.Sorted.{IsStrictlySortedBy};
    ghost use Rattle.rk_base.specs.Text.{text_cmp};

    ghost invariant = { λ s. IsStrictlySortedBy text_cmp (map (λ row. row.0) s.rows.entries) };
}

// Rows in order are compared once with each neighbour.
fn map_of(alloc: Global, rows: Vec<(Path, Node)>) -> Result<BTreeMap<Path, Node>, AllocError>
    ensures { IfOk result (IsFromIterResult text_cmp rows.items) }
{
    rows.into_iter().collect(alloc)
}

impl Snapshot {
    /// Nothing at any path.
    pub fn new(alloc: Global) -> Snapshot
        ensures { result ≡ empty }
    {
        Snapshot {
            rows: BTreeMap::new(alloc),
        }
    }

    /// These rows, put one after another.
    pub(crate) fn of_rows(alloc: Global, rows: Vec<(Path, Node)>) -> Result<Snapshot, NoMemory>
        ensures { IfOk result (λ s. s ≡ made_of rows.items) }
    {
        let rows = map_of(alloc, rows)?;
        Ok(Snapshot { rows })
    }

    /// What stands at a path.
    pub fn get(&self, path: &Path) -> Option<&Node>
        ensures { option_copied result ≡ get self.now path.now }
    {
        if self.ends_before(path) {
            return None;
        }
        self.rows.get(path)
    }

    // Whether each path comes before this one. What is put in order is looked up so with one comparison.
    fn ends_before(&self, path: &Path) -> bool
        ensures { IsTrue result → get self.now path.now ≡ None }
    {
        match self.rows.last_key_value() {
            None => true,
            Some((last, _)) => match last.cmp(path) {
                Ordering::Less => true,
                Ordering::Equal => false,
                Ordering::Greater => false,
            },
        }
    }

    /// An entry at a path, in the place of what stood there.
    pub fn put(&mut self, path: Path, it: Entry) -> Result<(), NoMemory>
        ensures ok { OnOk result (self.new ≡ insert self.old path (node_of it)) }
        ensures err { OnErr result (self.new ≡ self.old) }
    {
        self.rows.insert(path, Node::new(it))?;
        Ok(())
    }

    /// How many paths there are.
    pub fn len(&self) -> usize
        ensures { result ≡ len self.now }
    {
        self.rows.len()
    }

    /// Whether there are no entries.
    pub fn is_empty(&self) -> bool
        ensures { IsTrue result ↔ (len self.now ≡ 0) }
    {
        self.len() == 0
    }

    /// The paths with what stands there, ascending by the paths' texts.
    pub fn rows(&self) -> &BTreeMap<Path, Node>
        ensures { result.now.entries ≡ entries self.now }
    {
        &self.rows
    }
}

// Names that came in order.
ghost use Rattle.std.specs.Prelude.{◌≡◌, ◌<◌, ℕ, length, true, Some, IfOk, OnErr, MatchOption, HoldsAt};
ghost use Rattle.std.specs.FinMap.{empty, entries, find, get, insert, remove, is_sorted};
ghost use Rattle.rk_base.specs.Canonical.{is_empty, is_name};
ghost use Rattle.rk_base.specs.Text.{Text, text_cmp};
ghost use Rattle.rk_tree.specs.Ascending.{comes_last, held, map_held, stated};
ghost use Rattle.rk_tree.specs.Names.{named};
ghost use Rattle.rk_tree.specs.Rows.{map_of};

use crate::NodeId;
use crate::names::name_of;
use rk_base::{Name, NoMemory};
use std::alloc::Global;
use std::cmp::Ordering;
use std::collections::BTreeMap;
use std::marker::Model;

// A name, with what it stands for until it is taken.
type Row = (Vec<u8>, Option<NodeId>);

/// Which node stands under each name, while new names come behind the last one: a row for each, ascending. So a new name costs
/// one comparison, and a look-up a binary search. A name that was taken leaves its row, so that no other one moves; once half of
/// the rows are such, these go.
#[derive(Drop)]
pub(crate) struct Ascending {
    rows: Vec<Row>,
    held: usize,
}

impl Model for Ascending {
    ghost use Rattle.std.specs.FinMap as map;
    ghost use Rattle.std.specs.Coded.{coded_list, coded_ℕ};
    ghost use Rattle.rk_tree.specs.Hierarchy.{Paths};

    ghost Value = { Paths };

    ghost coded = { map.code (coded_list coded_ℕ) coded_ℕ };

    ghost use Rattle.std.specs.Prelude.{◌≡◌, true};
    ghost use Rattle.rk_base.specs.Text.{text_cmp};
    ghost use Rattle.rk_tree.specs.Ascending.{map_held, stated};

    ghost view = { λ a. map_held a.rows.items };

    ghost invariant = { λ a. (map.is_sorted text_cmp (stated a.rows.items) ≡ true) × (a.held ≡ map.len (map_held a.rows.items)) };
}

// Whether a name comes behind all of these rows.
fn comes_last(rows: &[Row], name: &[u8]) -> bool
    ensures { result ≡ comes_last (stated rows.now) name.now }
{
    match rows.last() {
        None => true,
        Some(last) => matches!(compared(last, name), Ordering::Less),
    }
}

fn compared(row: &Row, name: &[u8]) -> Ordering
    ensures { result ≡ text_cmp row.now.0.items name.now }
{
    row.0.as_slice().cmp(name)
}

// The row of a name.
fn place(rows: &[Row], name: &[u8]) -> Option<usize>
    requires { is_sorted text_cmp (stated rows.now) ≡ true }
    ensures { MatchOption result (find text_cmp name.now (stated rows.now) ≡ None) (λ i. (i < length rows.now) × HoldsAt (λ row. row.0.items ≡ name.now) rows.now i) }
{
    match rows.binary_search_by(|row| compared(row, name)) {
        Ok(i) => Some(i),
        Err(_) => None,
    }
}

// Rows of names that were taken go.
fn drop_taken(rows: &mut Vec<Row>)
    requires { is_sorted text_cmp (stated rows.old.items) ≡ true }
    ensures sorted { is_sorted text_cmp (stated rows.new.items) ≡ true }
    ensures same { map_held rows.new.items ≡ map_held rows.old.items }
{
    rows.retain(|row| row.1.is_some());
}

impl Ascending {
    /// No names.
    pub(crate) fn new(alloc: Global) -> Ascending
        ensures { result ≡ empty }
    {
        Ascending {
            rows: Vec::new(alloc),
            held: 0,
        }
    }

    /// The number under a name.
    pub(crate) fn get(&self, name: &[u8]) -> Option<NodeId>
        ensures { result ≡ get self.now name.now }
    {
        match place(&self.rows, name) {
            None => None,
            Some(i) => self.rows[i].1,
        }
    }

    pub(crate) fn is_empty(&self) -> bool
        ensures { result ≡ is_empty (entries self.now) }
    {
        self.held == 0
    }

    /// A name stands for this number, in the place of what it stood for. A new name that comes before the last one is handed back.
    pub(crate) fn put(&mut self, name: Vec<u8>, n: NodeId) -> Result<Option<Vec<u8>>, NoMemory>
        ensures ok { IfOk result (λ back. MatchOption back (self.new ≡ insert self.old name.items n) (λ same. (same ≡ name) × (self.new ≡ self.old))) }
        ensures err { OnErr result (self.new ≡ self.old) }
    {
        if comes_last(&self.rows, &name) {
            self.rows.push((name, Some(n)))?;
            self.held += 1;
            return Ok(None);
        }
        let Some(i) = place(&self.rows, &name) else {
            return Ok(Some(name));
        };
        let was = self.rows[i].1;
        self.rows[i].1 = Some(n);
        self.held += usize::from(was.is_none());
        Ok(None)
    }

    /// A name stands for nothing.
    pub(crate) fn take(&mut self, name: &[u8])
        ensures { self.new ≡ remove self.old name.now }
    {
        let Some(i) = place(&self.rows, name) else {
            return;
        };
        let was = self.rows[i].1;
        self.rows[i].1 = None;
        self.held -= usize::from(was.is_some());
        if self.held <= self.rows.len() / 2 {
            drop_taken(&mut self.rows);
        }
    }

    /// The names, ascending, each with its number.
    pub(crate) fn rows(&self, alloc: Global) -> Result<Vec<(Name, NodeId)>, NoMemory>
        requires { (name : Text) (k : ℕ) → get self.now name ≡ Some k → is_name name ≡ true }
        ensures { IfOk result (λ rows. rows.items ≡ entries self.now) }
    {
        let mut rows = Vec::new(alloc);
        for (name, found) in &self.rows {
            match found {
                None => {}
                Some(n) => rows.push((name_of(alloc, name.as_slice())?, *n))?,
            }
        }
        Ok(rows)
    }

    /// These names in a B-tree.
    pub(crate) fn searched(&self, alloc: Global) -> Result<BTreeMap<Vec<u8>, NodeId>, NoMemory>
        ensures { IfOk result (λ map. map_of (named map.entries) ≡ self.now) }
    {
        let mut map = BTreeMap::new(alloc);
        for (name, found) in &self.rows {
            match found {
                None => {}
                Some(n) => {
                    map.insert(Vec::from_slice(alloc, name.as_slice())?, *n)?;
                }
            }
        }
        Ok(map)
    }
}

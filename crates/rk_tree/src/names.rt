// The names in a directory.
ghost use Rattle.std.specs.Prelude.{◌≡◌, ℕ, IfOk, OnOk, OnErr, Some, true};
ghost use Rattle.std.specs.FinMap.{empty, entries, get, insert, keys, remove};
ghost use Rattle.rk_base.specs.Canonical.{is_empty, is_name};
ghost use Rattle.rk_base.specs.Text.{Text};
ghost use Rattle.rk_tree.specs.Names.{named};
ghost use Rattle.rk_tree.specs.Rows.{map_of};

use crate::NodeId;
use crate::ascending::Ascending;
use rk_base::{Name, NoMemory, PathFault};
use std::alloc::Global;
use std::collections::BTreeMap;
use std::marker::Model;

// What was put so far: new names behind the last one, or any.
#[derive(Drop)]
enum Rows {
    InOrder(Ascending),
    Searched(BTreeMap<Vec<u8>, NodeId>),
}

/// Which node stands under each name of a directory. As long as new names come behind the last one, each is compared with that
/// alone; from another one on each is searched for in a B-tree. A look-up takes no memory, and as many comparisons as a binary
/// search or one in a B-tree.
#[derive(Drop)]
pub(crate) struct Names {
    rows: Rows,
}

impl Model for Names {
    ghost use Rattle.std.specs.FinMap as map;
    ghost use Rattle.std.specs.Coded.{coded_list, coded_ℕ};
    ghost use Rattle.rk_tree.specs.Hierarchy.{Paths};

    ghost Value = { Paths };

    ghost coded = { map.code (coded_list coded_ℕ) coded_ℕ };

    ghost use Rattle.std.specs.Prelude.{◌≡◌, ℕ, true, Some};
    ghost use Rattle.rk_base.specs.Canonical.{is_name};
    ghost use Rattle.rk_base.specs.Text.{Text};
    ghost use Rattle.rk_tree.specs.Ascending.{names_by};

    ghost view = { λ n. names_by n.rows };

    ghost invariant = { λ n. (name : Text) (k : ℕ) → map.get (names_by n.rows) name ≡ Some k → is_name name ≡ true };
}

/// The name of these bytes.
pub(crate) fn name_of(alloc: Global, text: &[u8]) -> Result<Name, NoMemory>
    requires { is_name text.now ≡ true }
    ensures { IfOk result (λ name. name ≡ text.now) }
{
    match Name::new(alloc, text) {
        Ok(name) => Ok(name),
        Err(PathFault::Invalid) => unreachable!(),
        Err(PathFault::NoMemory) => Err(NoMemory),
    }
}

fn number_of(rows: &BTreeMap<Vec<u8>, NodeId>, name: &[u8]) -> Option<NodeId>
    ensures { result ≡ get (map_of (named rows.now.entries)) name.now }
{
    match rows.get(name) {
        None => None,
        Some(n) => Some(*n),
    }
}

fn has_none(rows: &BTreeMap<Vec<u8>, NodeId>) -> bool
    ensures { result ≡ is_empty (entries (map_of (named rows.now.entries))) }
{
    rows.is_empty()
}

fn put_into(rows: &mut BTreeMap<Vec<u8>, NodeId>, name: Vec<u8>, n: NodeId) -> Result<(), NoMemory>
    ensures ok { OnOk result (map_of (named rows.new.entries) ≡ insert (map_of (named rows.old.entries)) name.items n) }
    ensures err { OnErr result (map_of (named rows.new.entries) ≡ map_of (named rows.old.entries)) }
{
    rows.insert(name, n)?;
    Ok(())
}

fn take_from(rows: &mut BTreeMap<Vec<u8>, NodeId>, name: &[u8])
    ensures { map_of (named rows.new.entries) ≡ remove (map_of (named rows.old.entries)) name.now }
{
    let _ = rows.remove(name);
}

fn rows_from(
    rows: &BTreeMap<Vec<u8>, NodeId>,
    alloc: Global,
) -> Result<Vec<(Name, NodeId)>, NoMemory>
    requires { (name : Text) (k : ℕ) → get (map_of (named rows.now.entries)) name ≡ Some k → is_name name ≡ true }
    ensures { IfOk result (λ made. made.items ≡ entries (map_of (named rows.now.entries))) }
{
    let mut made = Vec::new(alloc);
    for (name, n) in rows {
        made.push((name_of(alloc, name.as_slice())?, *n))?;
    }
    Ok(made)
}

impl Names {
    /// No names.
    pub(crate) fn new(alloc: Global) -> Names
        ensures { result ≡ empty }
    {
        Names {
            rows: Rows::InOrder(Ascending::new(alloc)),
        }
    }

    /// The number under a name.
    pub(crate) fn get(&self, name: &[u8]) -> Option<NodeId>
        ensures { result ≡ get self.now name.now }
    {
        match &self.rows {
            Rows::InOrder(names) => names.get(name),
            Rows::Searched(names) => number_of(names, name),
        }
    }

    pub(crate) fn is_empty(&self) -> bool
        ensures { result ≡ is_empty (entries self.now) }
    {
        match &self.rows {
            Rows::InOrder(names) => names.is_empty(),
            Rows::Searched(names) => has_none(names),
        }
    }

    /// A name stands for this number, in the place of what it stood for.
    pub(crate) fn put(&mut self, name: Vec<u8>, n: NodeId) -> Result<(), NoMemory>
        requires { is_name name.items ≡ true }
        ensures ok { OnOk result (self.new ≡ insert self.old name.items n) }
        ensures err { OnErr result (self.new ≡ self.old) }
    {
        match &mut self.rows {
            Rows::Searched(names) => put_into(names, name, n),
            Rows::InOrder(names) => {
                let Some(name) = names.put(name, n)? else {
                    return Ok(());
                };
                let mut searched = names.searched(*name.allocator())?;
                put_into(&mut searched, name, n)?;
                self.rows = Rows::Searched(searched);
                Ok(())
            }
        }
    }

    /// A name stands for nothing.
    pub(crate) fn take(&mut self, name: &Name)
        ensures { self.new ≡ remove self.old name.now }
    {
        match &mut self.rows {
            Rows::InOrder(names) => names.take(name.as_slice()),
            Rows::Searched(names) => take_from(names, name.as_slice()),
        }
    }

    /// The names, ascending, each with its number.
    pub(crate) fn rows(&self, alloc: Global) -> Result<Vec<(Name, NodeId)>, NoMemory>
        ensures { IfOk result (λ rows. rows.items ≡ entries self.now) }
    {
        match &self.rows {
            Rows::InOrder(names) => names.rows(alloc),
            Rows::Searched(names) => rows_from(names, alloc),
        }
    }

    /// The names, ascending.
    pub(crate) fn list(&self, alloc: Global) -> Result<Vec<Name>, NoMemory>
        ensures { IfOk result (λ names. names.items ≡ keys self.now) }
    {
        let rows = self.rows(alloc)?;
        let names = rows.into_iter().map(|(name, _)| name).collect(alloc)?;
        Ok(names)
    }
}

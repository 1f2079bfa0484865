// The tables of earlier builds that are kept.
ghost use Rattle.std.specs.Prelude.{◌≡◌, ◌≢◌, ◌++◌, ◌∷◌, ℕ, ◌<◌, [], length, option_copied, slice_get, OnOk, OnErr, IfSome, IfNone};
ghost use Rattle.tr_record.specs.Generations.{table_at, records, candidates, AreGenerations, IsNew, IsPushed};
ghost use Rattle.tr_record.specs.Known.{AreKnown};
ghost use Rattle.tr_record.specs.Rec.{rec_at};

use crate::same::same_records;
use crate::{KnownHeads, Record, Table};
use rk_base::NoMemory;
use rk_calls::Key;
use std::alloc::Global;
use std::marker::Model;

// The table of a build, and the numbers of its records' steps, as far as they are known.
#[derive(Debug, Drop)]
struct Generation {
    table: Table,
    known: KnownHeads,
}

/// The tables of at most eight earlier builds, the newest first; none is empty, and no two are equal. Their records are numbered
/// from 0 on: those of the newest table first, each table's in launch order. With a table stands what is known of the numbers of
/// its records' steps.
#[derive(Debug, Drop)]
pub struct Kept {
    generations: Vec<Generation>,
}

impl Model for Kept {
    ghost use Rattle.std.specs.Prelude.{List};
    ghost use Rattle.tr_record.specs.Keeping.{tables_in, IsKept};
    ghost use Rattle.tr_record.specs.declared.records.Record.{Record};

    ghost Value = { List (List Record) };

    ghost view = { λ k. tables_in k.generations.items };

    ghost invariant = { λ k. IsKept k.generations.items };
}

impl Kept {
    /// No tables.
    pub fn new(alloc: Global) -> Kept
        ensures { result ≡ [] }
    {
        Kept {
            generations: Vec::new(alloc),
        }
    }

    /// How many tables there are.
    pub fn len(&self) -> usize
        ensures value { result ≡ length self.now }
        ensures are { AreGenerations self.now }
    {
        self.generations.len()
    }

    // The table of a place.
    fn table_of(&self, i: usize) -> &Table
        requires { i < length self.now }
        ensures { result.now ≡ table_at i self.now }
    {
        let generation = &self.generations[i];
        &generation.table
    }

    /// The table of this place, the newest first; `None` exactly where there is none.
    pub fn table(&self, i: usize) -> Option<&Table>
        ensures { option_copied result ≡ slice_get self.now i }
    {
        if i < self.generations.len() {
            Some(self.table_of(i))
        } else {
            None
        }
    }

    /// What is known of the numbers of the steps of this table's records.
    pub fn known(&self, i: usize) -> &KnownHeads
        requires { i < length self.now }
        ensures { AreKnown result.now (table_at i self.now) }
    {
        let generation = &self.generations[i];
        &generation.known
    }

    // Where a table is that is equal to this one.
    fn place(&self, table: &Table) -> Option<usize>
        ensures some { IfSome result (λ i. (i < length self.now) × (table_at i self.now ≡ table.now)) }
        ensures none { IfNone result (IsNew table.now self.now) }
    {
        'tables: for i in 0..self.len() {
            let other = self.table_of(i);
            if same_records(other.as_slice(), table.as_slice()) {
                return Some(i);
            }
        }
        None
    }

    /// One table more, at the end.
    pub fn add(&mut self, table: Table, known: KnownHeads) -> Result<(), NoMemory>
        requires are { AreGenerations (self.old ++ table ∷ []) }
        requires known { AreKnown known table }
        ensures ok { OnOk result (self.new ≡ self.old ++ table ∷ []) }
        ensures err { OnErr result (self.new ≡ self.old) }
    {
        self.generations.push(Generation { table, known })?;
        Ok(())
    }

    /// A table, of which this is known, is the newest. One that is equal to it goes; else this one is put first, and a ninth is
    /// dropped. For want of memory nothing changes.
    pub fn push_known(&mut self, table: Table, known: KnownHeads) -> Result<(), NoMemory>
        requires full { table ≢ [] }
        requires known { AreKnown known table }
        ensures ok { OnOk result (IsPushed table self.old self.new) }
        ensures err { OnErr result (self.new ≡ self.old) }
    {
        let place = self.place(&table);
        self.generations.insert(0, Generation { table, known })?;
        match place {
            Some(i) => {
                let _equal = self.generations.remove(i + 1);
            }
            None => self.generations.truncate(8),
        }
        Ok(())
    }

    /// A table is the newest. One that is equal to it goes; else this one is put first, and a ninth is dropped. For want of memory
    /// nothing changes.
    pub fn push(&mut self, table: Table) -> Result<(), NoMemory>
        requires { table ≢ [] }
        ensures ok { OnOk result (IsPushed table self.old self.new) }
        ensures err { OnErr result (self.new ≡ self.old) }
    {
        let known = KnownHeads::none(*self.generations.allocator())?;
        self.push_known(table, known)
    }

    /// The record of this number.
    pub fn at(&self, i: usize) -> &Record
        requires { i < length (records self.now) }
        ensures { result.now ≡ rec_at i (records self.now) }
    {
        let mut rest = i;
        'tables: for k in 0..self.len() {
            let table = self.table_of(k);
            if rest < table.len() {
                return table.at(rest);
            }
            rest -= table.len();
        }
        unreachable!()
    }

    /// The record of a key behind so many of its records, in the order of their numbers; `None` exactly behind the last.
    pub fn candidate(&self, key: &Key, i: u64) -> Option<&Record>
        ensures { option_copied result ≡ slice_get (candidates key.now self.now) i }
    {
        let mut rest = i;
        'tables: for k in 0..self.len() {
            let table = self.table_of(k);
            let _numbered = table.as_slice();
            let count = table.count(key) as u64;
            if rest < count {
                return table.find(key, rest);
            }
            rest -= count;
        }
        None
    }
}

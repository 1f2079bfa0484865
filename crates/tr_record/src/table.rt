// The table of records.
ghost use Rattle.std.specs.Prelude.{◌≡◌, ◌≢◌, ℕ, ◌<◌, [], length, option_copied, slice_get, IfOk, OnOk, OnErr, IfSome, IfNone};
ghost use Rattle.tr_record.specs.Places.{pushed};
ghost use Rattle.tr_record.specs.Rec.{rec_at, begun, stepped, ended, count_of, found, AreNumbered};

use crate::index::{PlaceList, note, nth, places};
use crate::{Record, Step, StepList};
use indexmap::IndexMap;
use rk_base::NoMemory;
use rk_calls::Key;
use std::alloc::Global;
use std::marker::Model;

/// Records in launch order, found by key and ordinal.
#[derive(Debug, Drop)]
pub struct Table {
    records: Vec<Record>,
    index: IndexMap<Key, PlaceList>,
}

impl Model for Table {
    ghost use Rattle.std.specs.Prelude.{List};
    ghost use Rattle.tr_record.specs.declared.records.Record.{Record};

    ghost Value = { List Record };

    ghost view = { λ t. t.records.items };

    ghost use Rattle.tr_record.specs.Places.{IsIndexed};

    ghost invariant = { λ t. IsIndexed t.index.entries t.records.items };
}

impl Table {
    /// No records.
    pub fn new(alloc: Global) -> Table
        ensures { result ≡ [] }
    {
        Table {
            records: Vec::new(alloc),
            index: IndexMap::new(alloc),
        }
    }

    /// How many records there are.
    pub fn len(&self) -> usize
        ensures { result ≡ length self.now }
    {
        self.records.len()
    }

    /// A whole record is put at the end. Its ordinal is the count of its key so far.
    pub fn push(
        &mut self,
        key: Key,
        steps: StepList,
        exit: u8,
        exit_cost: u64,
    ) -> Result<(), NoMemory>
        ensures ok { OnOk result (self.new ≡ pushed key steps exit exit_cost self.old) }
        ensures err { OnErr result (self.new ≡ self.old) }
    {
        let alloc = *self.records.allocator();
        let i = self.records.len();
        // Room is made first, so that nothing fails once the index has the number.
        self.records.reserve(1)?;
        let before = note(alloc, &mut self.index, &key, i)?;
        self.records.push(Record {
            key,
            ordinal: before as u64,
            steps,
            exit,
            exit_cost,
        })?;
        Ok(())
    }

    /// A command of this key is launched. Its number is told; its ordinal is the count of its key so far.
    pub fn begin(&mut self, key: Key) -> Result<usize, NoMemory>
        ensures place { IfOk result (λ i. i ≡ length self.old) }
        ensures table { OnOk result (self.new ≡ begun key self.old) }
        ensures err { OnErr result (self.new ≡ self.old) }
    {
        let i = self.records.len();
        let steps = StepList::new(*self.records.allocator());
        self.push(key, steps, 0, 0)?;
        Ok(i)
    }

    /// The command of this number has taken a step.
    pub fn add_step(&mut self, i: usize, step: Step) -> Result<(), NoMemory>
        requires { i < length self.old }
        ensures ok { OnOk result (self.new ≡ stepped i step self.old) }
        ensures err { OnErr result (self.new ≡ self.old) }
    {
        let rec = &mut self.records[i];
        rec.steps.push(step)
    }

    /// The command of this number has exited with this status, at what was paid since its last step.
    pub fn end(&mut self, i: usize, exit: u8, exit_cost: u64)
        requires { i < length self.old }
        ensures { self.new ≡ ended i exit exit_cost self.old }
    {
        let rec = &mut self.records[i];
        rec.exit = exit;
        rec.exit_cost = exit_cost;
    }

    /// The steps of the command of this number give way to the same ones, kept otherwise.
    pub fn hand_on(&mut self, i: usize, steps: StepList)
        requires here { i < length self.old }
        requires steps { steps ≡ (rec_at i self.old).steps }
        ensures { self.new ≡ self.old }
    {
        let rec = &mut self.records[i];
        rec.steps = steps;
    }

    /// All records, each with the number of earlier ones of its key as its ordinal.
    pub fn as_slice(&self) -> &[Record]
        ensures value { result.now ≡ self.now }
        ensures numbered { AreNumbered self.now }
    {
        let _ = &self.index;
        self.records.as_slice()
    }

    /// The record of this number; `None` exactly where there is none.
    pub fn get(&self, i: usize) -> Option<&Record>
        ensures { option_copied result ≡ slice_get self.now i }
    {
        self.records.get(i)
    }

    /// The record of this number.
    pub fn at(&self, i: usize) -> &Record
        requires { i < length self.now }
        ensures { result.now ≡ rec_at i self.now }
    {
        &self.records[i]
    }

    /// How many records of this key there are.
    pub fn count(&self, key: &Key) -> usize
        ensures { result ≡ count_of key.now self.now }
    {
        places(&self.index, key).len()
    }

    /// The number of the first record of this key and ordinal; `None` exactly where there is none.
    pub fn place(&self, key: &Key, ordinal: u64) -> Option<usize>
        ensures some { IfSome result (λ i. (i < length self.now) × ((rec_at i self.now).key ≡ key.now) × ((rec_at i self.now).ordinal ≡ ordinal)) }
        ensures first { IfSome result (λ i. (k : ℕ) → k < i → (rec_at k self.now).key ≡ key.now → (rec_at k self.now).ordinal ≢ ordinal) }
        ensures none { IfNone result ((i : ℕ) → i < length self.now → (rec_at i self.now).key ≡ key.now → (rec_at i self.now).ordinal ≢ ordinal) }
    {
        nth(places(&self.index, key), ordinal)
    }

    /// The first record of this key and ordinal; `None` exactly where there is none.
    pub fn find(&self, key: &Key, ordinal: u64) -> Option<&Record>
        ensures { option_copied result ≡ found self.now key.now ordinal }
    {
        match self.place(key, ordinal) {
            Some(i) => Some(self.at(i)),
            None => None,
        }
    }
}

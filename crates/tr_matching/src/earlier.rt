// What is kept of earlier builds.
ghost use Rattle.std.specs.Prelude.{◌≡◌, ◌+◌, ◌<◌, ◌≤◌, ◌^◌, IfOk, IfSome, IfNone, length, slice_index};
ghost use Rattle.tr_record.specs.Contents.{AreContents};
ghost use Rattle.tr_record.specs.Generations.{records};
ghost use Rattle.tr_record.specs.Places.{places_of};
ghost use Rattle.tr_record.specs.Rec.{rec_at};
ghost use Rattle.tr_matching.specs.Earlier.{IsRest};
ghost use Rattle.tr_matching.specs.Steps.{step_at};

use crate::numbers::numbers_of;
use rk_base::NoMemory;
use rk_calls::Key;
use std::alloc::Global;
use std::marker::Model;
use tr_record::{Kept, Record, RecordedContents, Step};

/// The records of all tables that are kept, by their numbers, with the contents and nodes of their steps by numbers.
#[derive(Drop)]
pub struct Earlier<'a> {
    kept: &'a Kept,
    contents: &'a RecordedContents,
}

impl<'a> Model for Earlier<'a> {
    ghost use Rattle.tr_record.specs.Generations.{records};
    ghost use Rattle.tr_matching.specs.Earlier.{EarlierRecords};

    ghost Value = { EarlierRecords };

    ghost view = { λ e. record { records = records e.kept.now; contents = e.contents.now } };
}

impl<'a> Earlier<'a> {
    /// The records of these tables, with these numbers.
    pub fn new(kept: &'a Kept, contents: &'a RecordedContents) -> Earlier<'a>
        ensures { result ≡ record { records = records kept.now; contents = contents.now } }
    {
        Earlier { kept, contents }
    }

    /// The contents and the nodes of the records' steps.
    pub fn contents(&self) -> &'a RecordedContents
        ensures { result.now ≡ self.now.contents }
    {
        self.contents
    }

    /// The numbers of the records of a key, ascending.
    pub fn numbers(&self, alloc: Global, key: &Key) -> Result<Vec<usize>, NoMemory>
        ensures { IfOk result (λ numbers. numbers.items ≡ places_of key.now self.now.records) }
    {
        let numbers = numbers_of(alloc, self.kept, key)?;
        Ok(numbers)
    }

    /// The record of this number.
    pub fn at(&self, rec: usize) -> &'a Record
        requires { rec < length self.now.records }
        ensures { result.now ≡ rec_at rec self.now.records }
    {
        self.kept.at(rec)
    }

    /// The number of all steps of a record.
    pub fn head(&self, rec: usize) -> usize
        requires contents { AreContents self.now.contents self.now.records }
        requires in_old { rec < length self.now.records }
        ensures rest { IsRest self.now rec 0 result }
        ensures number { result ≡ slice_index self.now.contents.heads rec }
    {
        match self.contents.head(rec) {
            Some(head) => head,
            None => unreachable!(),
        }
    }

    /// The step of a record behind so many, with the number of the rest behind it; `None` exactly behind the last.
    pub fn step(&self, rec: usize, at: usize, rest: usize) -> Option<(&'a Step, usize)>
        requires in_old { rec < length self.now.records }
        requires rest { IsRest self.now rec at rest }
        ensures here { IfSome result (λ x. at < length (rec_at rec self.now.records).steps) }
        ensures step { IfSome result (λ x. x.0.now ≡ step_at at (rec_at rec self.now.records).steps) }
        ensures rest { IfSome result (λ x. IsRest self.now rec (at + 1) x.1) }
        ensures small { IfSome result (λ x. at + 1 < 2 ^ 64) }
        ensures none { IfNone result (length (rec_at rec self.now.records).steps ≤ at) }
    {
        // A list's length says that there is a number for one more.
        let _many = self.at(rec).steps.len();
        let Some(step) = self.contents.step(rest) else {
            return None;
        };
        Some((step, self.contents.next(rest)))
    }

    /// The step of a record behind so many, where there is one.
    pub fn asked(&self, rec: usize, at: usize, rest: usize) -> &'a Step
        requires in_old { rec < length self.now.records }
        requires rest { IsRest self.now rec at rest }
        requires here { at < length (rec_at rec self.now.records).steps }
        ensures step { result.now ≡ step_at at (rec_at rec self.now.records).steps }
        ensures small { at + 1 < 2 ^ 64 }
    {
        match self.step(rec, at, rest) {
            Some((step, _)) => step,
            None => unreachable!(),
        }
    }

    /// The number of the rest behind that step.
    pub fn behind(&self, rec: usize, at: usize, rest: usize) -> usize
        requires in_old { rec < length self.now.records }
        requires rest { IsRest self.now rec at rest }
        requires here { at < length (rec_at rec self.now.records).steps }
        ensures { IsRest self.now rec (at + 1) result }
    {
        match self.step(rec, at, rest) {
            Some((_, rest)) => rest,
            None => unreachable!(),
        }
    }
}

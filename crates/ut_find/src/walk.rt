// `find` on its way.
ghost use Rattle.std.specs.Prelude.{◌≡◌, ◌++◌, ℕ, [], map, IfOk, IfSome, OnOk};
ghost use Rattle.rk_calls.specs.Costly.{IsCostly};
ghost use Rattle.rk_calls.specs.Talk.{after};
ghost use Rattle.ut_files.specs.Answers.{found, names_in};
ghost use Rattle.ut_find.specs.Finds.{shown, inside, refusal, looked, entries, listed, visits, finds_from, finds};
ghost use Rattle.ut_find.specs.Walking.{work_of, settled, walk_talk, Stays, IsNext};

use crate::find::{Find, Visit};
use crate::path::joined;
use rk_base::{Bytes, Errno, FileType, Name, NoMemory};
use rk_calls::{Answer, Call, Turn, absolute, error_line};
use std::alloc::Global;
use std::collections::VecDeque;
use ut_files::{found, names_in};

/// What `find` has found and what is left to visit.
#[derive(Drop)]
pub struct Walk {
    pub(crate) alloc: Global,
    find: Find,
    output: Vec<u8>,
    errors: Vec<u8>,
    left: VecDeque<Visit>,
    asked: Option<Visit>,
}

// Puts visits before those that are left.
fn put_before(mut visits: Vec<Visit>, left: &mut VecDeque<Visit>) -> Result<(), NoMemory>
    ensures { OnOk result (left.new.items ≡ visits.items ++ left.old.items) }
{
    'visits: while let Some(visit) = visits.pop() {
        left.push_front(visit)?;
    }
    Ok(())
}

fn put_refusal(
    alloc: Global,
    path: &[u8],
    errno: Errno,
    errors: &mut Vec<u8>,
) -> Result<(), NoMemory>
    ensures { OnOk result (errors.new.items ≡ errors.old.items ++ refusal path.now errno) }
{
    let line = error_line(alloc, b"find", path, errno.word().as_bytes())?;
    errors.extend_from_slice(line.as_slice())?;
    Ok(())
}

// The paths of the names in a directory.
fn entries(alloc: Global, path: &Bytes, names: &[Name]) -> Result<Vec<Visit>, NoMemory>
    ensures { IfOk result (λ visits. visits.items ≡ entries path.now names.now) }
{
    let mut visits = Vec::new(alloc);
    'names: for name in names {
        let below = joined(alloc, path.as_slice(), name.as_slice())?;
        visits.push(Visit::Look(below))?;
    }
    Ok(visits)
}

// A directory is entered.
fn put_inside(path: Bytes, kind: FileType, left: &mut VecDeque<Visit>) -> Result<(), NoMemory>
    ensures { OnOk result (left.new.items ≡ inside path kind ++ left.old.items) }
{
    match kind {
        FileType::File => Ok(()),
        FileType::Dir => {
            left.push_front(Visit::Enter(path))?;
            Ok(())
        }
        FileType::Link => Ok(()),
    }
}

impl Find {
    // The path where all tests hold.
    fn show(&self, path: &[u8], kind: FileType, output: &mut Vec<u8>) -> Result<(), NoMemory>
        ensures { OnOk result (output.new.items ≡ output.old.items ++ shown self.now.tests path.now kind) }
    {
        if self.tests.meets(kind, path) {
            output.extend_from_slice(path)?;
            output.push(b'\n')?;
        }
        Ok(())
    }
}

impl Walk {
    /// A search of these paths, in their order.
    pub(crate) fn new(alloc: Global, find: Find, paths: Vec<Visit>) -> Result<Walk, NoMemory>
        ensures { IfOk result (λ w. walk_talk w Answer.Go ≡ finds_from find (record { output = []; errors = []; left = paths.items })) }
    {
        let mut left = VecDeque::new(alloc);
        put_before(paths, &mut left)?;
        Ok(Walk {
            alloc,
            find,
            output: Vec::new(alloc),
            errors: Vec::new(alloc),
            left,
            asked: None,
        })
    }

    // After a path was looked at.
    fn look(&mut self, path: Bytes, answer: &Answer) -> Result<(), NoMemory>
        ensures { OnOk result (Stays self.old self.new (looked self.old.find.tests path (work_of self.old) (found answer.now))) }
    {
        match found(answer) {
            Ok(stood) => {
                self.find
                    .show(path.as_slice(), stood.kind, &mut self.output)?;
                put_inside(path, stood.kind, &mut self.left)
            }
            Err(errno) => put_refusal(self.alloc, path.as_slice(), errno, &mut self.errors),
        }
    }

    // After a directory was listed.
    fn list(&mut self, path: Bytes, answer: Answer) -> Result<(), NoMemory>
        ensures { OnOk result (Stays self.old self.new (listed path (work_of self.old) (names_in answer))) }
    {
        match names_in(self.alloc, answer)? {
            Ok(names) => {
                let visits = entries(self.alloc, &path, names.as_slice())?;
                put_before(visits, &mut self.left)
            }
            Err(errno) => put_refusal(self.alloc, path.as_slice(), errno, &mut self.errors),
        }
    }

    /// Takes in what was answered.
    pub(crate) fn settle(&mut self, answer: Answer) -> Result<(), NoMemory>
        ensures { OnOk result (Stays self.old self.new (settled self.old.find.tests self.old.asked answer (work_of self.old))) }
    {
        match self.asked.take() {
            None => Ok(()),
            Some(Visit::Look(path)) => self.look(path, &answer),
            Some(Visit::Enter(path)) => self.list(path, answer),
        }
    }

    /// The search, its output and its error text.
    pub(crate) fn into_parts(self) -> (Find, Vec<u8>, Vec<u8>)
        ensures { (result.0 ≡ self.find) × (result.1.items ≡ self.output.items) × (result.2.items ≡ self.errors.items) }
    {
        (self.find, self.output, self.errors)
    }

    /// The next call, where a visit is left.
    pub(crate) fn next(&mut self) -> Result<Option<Turn>, NoMemory>
        ensures next { IfOk result (λ turn. IsNext self.old self.new turn) }
        ensures costly { IfOk result (λ turn. IfSome turn IsCostly) }
    {
        match self.left.pop_front() {
            None => Ok(None),
            Some(Visit::Look(path)) => {
                let call = Call::Stat(absolute(self.alloc, &self.find.wd, path.as_slice())?, false);
                self.asked = Some(Visit::Look(path));
                Ok(Some(Turn::Ask(call, 1)))
            }
            Some(Visit::Enter(path)) => {
                let call = Call::List(absolute(self.alloc, &self.find.wd, path.as_slice())?);
                self.asked = Some(Visit::Enter(path));
                Ok(Some(Turn::Ask(call, 1)))
            }
        }
    }
}

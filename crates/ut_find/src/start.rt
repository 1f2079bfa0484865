// How `find` begins.
ghost use Rattle.std.specs.Prelude.{◌≡◌, IfOk, codes, map, option_map};
ghost use Rattle.ut_args.specs.Usage.{misuses, misuses_option};
ghost use Rattle.ut_find.specs.declared.find.Visit.TheVariants as visit;
ghost use Rattle.ut_find.specs.Finds.{finds};
ghost use Rattle.ut_find.specs.Starts.{by_tests, finds_by, find_utility};
ghost use Rattle.ut_find.specs.Utilities.{find_talk};

use crate::find::{Find, Visit};
use crate::test::TestList;
use crate::tests::{Fault, paths, tests_of};
use crate::utility::FindUtility;
use crate::walk::Walk;
use rk_base::{Bytes, NoMemory, Path, WordList};
use rk_calls::Answer;
use std::alloc::Global;
use ut_args::Complaint;

fn looks(alloc: Global, paths: &[Bytes]) -> Result<Vec<Visit>, NoMemory>
    ensures { IfOk result (λ visits. visits.items ≡ map visit.Look paths.now) }
{
    let mut visits = Vec::new(alloc);
    'paths: for path in paths {
        visits.push(Visit::Look(path.copy()?))?;
    }
    Ok(visits)
}

fn walk(alloc: Global, wd: &Path, paths: &[Bytes], tests: TestList) -> Result<FindUtility, NoMemory>
    ensures { IfOk result (λ u. find_talk u Answer.Go ≡ finds (record { wd = wd.now; tests = tests }) paths.now) }
{
    let wd = wd.copy()?;
    let visits = looks(alloc, paths)?;
    let walk = Walk::new(alloc, Find { wd, tests }, visits)?;
    Ok(FindUtility::Walks(walk))
}

fn misused(alloc: Global) -> Result<FindUtility, NoMemory>
    ensures { IfOk result (λ u. find_talk u Answer.Go ≡ misuses (codes "find") 1) }
{
    let complaint = Complaint::of_operands(alloc, b"find", 1)?;
    Ok(FindUtility::Complains(complaint))
}

fn by_tests(
    alloc: Global,
    wd: &Path,
    paths: &[Bytes],
    tests: Result<TestList, Fault>,
) -> Result<FindUtility, NoMemory>
    ensures { IfOk result (λ u. find_talk u Answer.Go ≡ by_tests wd.now paths.now tests) }
{
    match tests {
        Err(Fault::OfTest(word)) => {
            let complaint = Complaint::of_option(alloc, b"find", word.as_slice(), 1)?;
            Ok(FindUtility::Complains(complaint))
        }
        Err(Fault::Surplus) => misused(alloc),
        Ok(tests) => match paths {
            [] => misused(alloc),
            [_, ..] => walk(alloc, wd, paths, tests),
        },
    }
}

fn find(alloc: Global, wd: &Path, words: &[Bytes]) -> Result<FindUtility, NoMemory>
    ensures { IfOk result (λ u. find_talk u Answer.Go ≡ finds_by wd.now words.now) }
{
    let (paths, rest) = words.split_at(paths(words));
    let tests = tests_of(alloc, rest)?;
    by_tests(alloc, wd, paths, tests)
}

impl FindUtility {
    /// `find` where the first of these words is its name, in a working directory, before its first turn; else `None`.
    pub fn start(alloc: Global, wd: &Path, argv: &WordList) -> Result<Option<FindUtility>, NoMemory>
        ensures { IfOk result (λ o. option_map (λ u. find_talk u Answer.Go) o ≡ find_utility wd.now argv.now) }
    {
        match argv.as_slice() {
            [] => Ok(None),
            [name, words @ ..] => {
                if name.as_slice() != b"find".as_slice() {
                    return Ok(None);
                }
                let utility = find(alloc, wd, words)?;
                Ok(Some(utility))
            }
        }
    }
}

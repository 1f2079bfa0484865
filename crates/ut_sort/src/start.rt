// How `sort` begins.
ghost use Rattle.std.specs.Prelude.{◌≡◌, IfOk, option_map};
ghost use Rattle.ut_filter.specs.Filters.{filters, or_dash};
ghost use Rattle.ut_sort.specs.Sorts.{sort_job};
ghost use Rattle.ut_sort.specs.Starts.{table, sorts, sort_utility};
ghost use Rattle.ut_sort.specs.Utilities.{sort_talk};

use crate::chosen::sort_of;
use crate::sort::Sort;
use crate::utility::SortUtility;
use rk_base::{NoMemory, Path, WordList};
use rk_calls::Answer;
use std::alloc::Global;
use ut_args::{Form, Opt, begin};
use ut_filter::{Filter, or_dash};

fn opt(letter: u8, form: Form) -> Opt
    ensures { result ≡ record { letter = letter; form = form } }
{
    Opt { letter, form }
}

// A filter of the operands, or of the standard input where there is none.
fn filter(alloc: Global, wd: &Path, sort: Sort, operands: WordList) -> Result<SortUtility, NoMemory>
    ensures { IfOk result (λ u. sort_talk u Answer.Go ≡ filters (sort_job sort) wd.now (or_dash operands)) }
{
    let inputs = or_dash(alloc, operands)?;
    let filter = Filter::new(alloc, wd, sort, &inputs)?;
    Ok(SortUtility::Filters(filter))
}

fn sort(alloc: Global, wd: &Path, argv: &WordList) -> Result<SortUtility, NoMemory>
    ensures { IfOk result (λ u. sort_talk u Answer.Go ≡ sorts wd.now argv.now) }
{
    let table = [
        opt(b'n', Form::Alone),
        opt(b'r', Form::Alone),
        opt(b'u', Form::Alone),
        opt(b'o', Form::Text),
        opt(b't', Form::Byte),
        opt(b'k', Form::Key),
    ];
    let begun = begin(alloc, b"sort", 2, &table, argv)?;
    match begun {
        Ok(args) => {
            let sort = sort_of(alloc, &args)?;
            filter(alloc, wd, sort, args.operands)
        }
        Err(complaint) => Ok(SortUtility::Complains(complaint)),
    }
}

impl SortUtility {
    /// `sort` where the first of these words is its name, in a working directory, before its first turn; else `None`.
    pub fn start(alloc: Global, wd: &Path, argv: &WordList) -> Result<Option<SortUtility>, NoMemory>
        ensures { IfOk result (λ o. option_map (λ u. sort_talk u Answer.Go) o ≡ sort_utility wd.now argv.now) }
    {
        match argv.as_slice() {
            [] => Ok(None),
            [name, ..] => {
                if name.as_slice() != b"sort".as_slice() {
                    return Ok(None);
                }
                let utility = sort(alloc, wd, argv)?;
                Ok(Some(utility))
            }
        }
    }
}

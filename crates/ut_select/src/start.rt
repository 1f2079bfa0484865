// How the utilities that select begin.
ghost use Rattle.std.specs.Prelude.{◌≡◌, ◌∷◌, [], IfOk, option_map};
ghost use Rattle.ut_args.specs.Usage.{misuses};
ghost use Rattle.ut_filter.specs.Filters.{filters, or_dash};
ghost use Rattle.ut_select.specs.Starts.{cut_by, cuts, tr_by, trs, named, select_utility};
ghost use Rattle.ut_select.specs.Utilities.{select_talk};
ghost use Rattle.ut_select.specs.Works.{select_job};

use crate::chosen::{cut_of, lists, tr_of};
use crate::tr::Tr;
use crate::utility::SelectUtility;
use crate::work::SelectWork;
use rk_base::{Bytes, NoMemory, Path, WordList};
use rk_calls::Answer;
use std::alloc::Global;
use ut_args::{Args, Complaint, Form, Opt, begin};
use ut_filter::{Filter, or_dash};

fn opt(letter: u8, form: Form) -> Opt
    ensures { result ≡ record { letter = letter; form = form } }
{
    Opt { letter, form }
}

// A filter of the operands, or of the standard input where there is none.
fn filter(
    alloc: Global,
    wd: &Path,
    work: SelectWork,
    operands: WordList,
) -> Result<SelectUtility, NoMemory>
    ensures { IfOk result (λ u. select_talk u Answer.Go ≡ filters (select_job work) wd.now (or_dash operands)) }
{
    let inputs = or_dash(alloc, operands)?;
    let filter = Filter::new(alloc, wd, work, &inputs)?;
    Ok(SelectUtility::Filters(filter))
}

fn misused(alloc: Global, name: &[u8], status: u8) -> Result<SelectUtility, NoMemory>
    ensures { IfOk result (λ u. select_talk u Answer.Go ≡ misuses name.now status) }
{
    let complaint = Complaint::of_operands(alloc, name, status)?;
    Ok(SelectUtility::Complains(complaint))
}

fn cut_by(alloc: Global, wd: &Path, args: Args) -> Result<SelectUtility, NoMemory>
    ensures { IfOk result (λ u. select_talk u Answer.Go ≡ cut_by wd.now args) }
{
    if lists(args.given.as_slice()) != 1 {
        return misused(alloc, b"cut", 1);
    }
    let cut = cut_of(alloc, &args)?;
    filter(alloc, wd, SelectWork::Cuts(cut), args.operands)
}

fn cut(alloc: Global, wd: &Path, argv: &WordList) -> Result<SelectUtility, NoMemory>
    ensures { IfOk result (λ u. select_talk u Answer.Go ≡ cuts wd.now argv.now) }
{
    let table = [
        opt(b'b', Form::Ranges),
        opt(b'c', Form::Ranges),
        opt(b'f', Form::Ranges),
        opt(b'd', Form::Byte),
        opt(b's', Form::Alone),
    ];
    let begun = begin(alloc, b"cut", 1, &table, argv)?;
    match begun {
        Ok(args) => cut_by(alloc, wd, args),
        Err(complaint) => Ok(SelectUtility::Complains(complaint)),
    }
}

fn dash(alloc: Global) -> Result<WordList, NoMemory>
    ensures { IfOk result (λ words. words ≡ (45 ∷ []) ∷ []) }
{
    let mut words = WordList::new(Vec::new(alloc));
    words.push(Bytes::from_slice(alloc, b"-")?)?;
    Ok(words)
}

fn tr_by(alloc: Global, wd: &Path, tr: Option<Tr>) -> Result<SelectUtility, NoMemory>
    ensures { IfOk result (λ u. select_talk u Answer.Go ≡ tr_by wd.now tr) }
{
    match tr {
        None => misused(alloc, b"tr", 1),
        Some(tr) => {
            let inputs = dash(alloc)?;
            let filter = Filter::new(alloc, wd, SelectWork::Trs(tr), &inputs)?;
            Ok(SelectUtility::Filters(filter))
        }
    }
}

fn tr(alloc: Global, wd: &Path, argv: &WordList) -> Result<SelectUtility, NoMemory>
    ensures { IfOk result (λ u. select_talk u Answer.Go ≡ trs wd.now argv.now) }
{
    let table = [
        opt(b'c', Form::Alone),
        opt(b'd', Form::Alone),
        opt(b's', Form::Alone),
    ];
    let begun = begin(alloc, b"tr", 1, &table, argv)?;
    match begun {
        Ok(args) => {
            let tr = tr_of(alloc, &args)?;
            tr_by(alloc, wd, tr)
        }
        Err(complaint) => Ok(SelectUtility::Complains(complaint)),
    }
}

fn start_named(
    alloc: Global,
    name: &[u8],
    wd: &Path,
    argv: &WordList,
) -> Result<Option<SelectUtility>, NoMemory>
    ensures { IfOk result (λ o. option_map (λ u. select_talk u Answer.Go) o ≡ named name.now wd.now argv.now) }
{
    if name == b"cut".as_slice() {
        let utility = cut(alloc, wd, argv)?;
        return Ok(Some(utility));
    }
    if name == b"tr".as_slice() {
        let utility = tr(alloc, wd, argv)?;
        return Ok(Some(utility));
    }
    Ok(None)
}

impl SelectUtility {
    /// The utility that the first of these words names, in a working directory, before its first turn; `None` where
    /// none that selects has this name.
    pub fn start(
        alloc: Global,
        wd: &Path,
        argv: &WordList,
    ) -> Result<Option<SelectUtility>, NoMemory>
        ensures { IfOk result (λ o. option_map (λ u. select_talk u Answer.Go) o ≡ select_utility wd.now argv.now) }
    {
        match argv.as_slice() {
            [] => Ok(None),
            [name, ..] => start_named(alloc, name.as_slice(), wd, argv),
        }
    }
}

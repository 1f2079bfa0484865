// How these utilities begin.
ghost use Rattle.std.specs.Prelude.{◌≡◌, IfOk, option_map};
ghost use Rattle.ut_args.specs.Usage.{misuses};
ghost use Rattle.ut_plain.specs.Starts.{writes_line, basenames, basename_operands, dirnames, dirname_operands, tee_utility, named, plain_utility};
ghost use Rattle.ut_plain.specs.Utilities.{plain_talk};

use crate::names::{Line, base, dir, without_suffix};
use crate::tee::Tee;
use crate::utility::PlainUtility;
use rk_base::{Bytes, NoMemory, Path, WordList};
use rk_calls::Answer;
use std::alloc::Global;
use ut_args::{Complaint, Form, Opt, begin};
use ut_filter::Filter;

fn misused(alloc: Global, name: &[u8], status: u8) -> Result<PlainUtility, NoMemory>
    ensures { IfOk result (λ u. plain_talk u Answer.Go ≡ misuses name.now status) }
{
    let complaint = Complaint::of_operands(alloc, name, status)?;
    Ok(PlainUtility::Complains(complaint))
}

fn write_line(alloc: Global, wd: &Path, text: &[u8], is_dir: bool) -> Result<PlainUtility, NoMemory>
    ensures { IfOk result (λ u. plain_talk u Answer.Go ≡ writes_line wd.now (record { text = text.now; is_dir = is_dir })) }
{
    let text = Bytes::from_slice(alloc, text)?;
    let inputs = WordList::new(Vec::new(alloc));
    let filter = Filter::new(alloc, wd, Line { text, is_dir }, &inputs)?;
    Ok(PlainUtility::Filters(filter))
}

fn basename_operands(
    alloc: Global,
    wd: &Path,
    operands: &WordList,
) -> Result<PlainUtility, NoMemory>
    ensures { IfOk result (λ u. plain_talk u Answer.Go ≡ basename_operands wd.now operands.now) }
{
    match operands.as_slice() {
        [] => misused(alloc, b"basename", 1),
        [text] => write_line(alloc, wd, base(text.as_slice()), false),
        [text, suffix] => {
            let name = without_suffix(suffix.as_slice(), base(text.as_slice()));
            write_line(alloc, wd, name, false)
        }
        [_, _, _, ..] => misused(alloc, b"basename", 1),
    }
}

fn basename(alloc: Global, wd: &Path, argv: &WordList) -> Result<PlainUtility, NoMemory>
    ensures { IfOk result (λ u. plain_talk u Answer.Go ≡ basenames wd.now argv.now) }
{
    let begun = begin(alloc, b"basename", 1, &[], argv)?;
    match begun {
        Ok(args) => basename_operands(alloc, wd, &args.operands),
        Err(complaint) => Ok(PlainUtility::Complains(complaint)),
    }
}

fn dirname_operands(alloc: Global, wd: &Path, operands: &WordList) -> Result<PlainUtility, NoMemory>
    ensures { IfOk result (λ u. plain_talk u Answer.Go ≡ dirname_operands wd.now operands.now) }
{
    match operands.as_slice() {
        [] => misused(alloc, b"dirname", 1),
        [text] => write_line(alloc, wd, dir(text.as_slice()), true),
        [_, _, ..] => misused(alloc, b"dirname", 1),
    }
}

fn dirname(alloc: Global, wd: &Path, argv: &WordList) -> Result<PlainUtility, NoMemory>
    ensures { IfOk result (λ u. plain_talk u Answer.Go ≡ dirnames wd.now argv.now) }
{
    let begun = begin(alloc, b"dirname", 1, &[], argv)?;
    match begun {
        Ok(args) => dirname_operands(alloc, wd, &args.operands),
        Err(complaint) => Ok(PlainUtility::Complains(complaint)),
    }
}

fn start_tee(alloc: Global, wd: &Path, argv: &WordList) -> Result<PlainUtility, NoMemory>
    ensures { IfOk result (λ u. plain_talk u Answer.Go ≡ tee_utility wd.now argv.now) }
{
    let table = [Opt {
        letter: b'a',
        form: Form::Alone,
    }];
    let begun = begin(alloc, b"tee", 1, &table, argv)?;
    match begun {
        Ok(args) => {
            let tee = Tee::new(alloc, wd, args.given.has(b'a'), args.operands.as_slice())?;
            Ok(PlainUtility::Tees(tee))
        }
        Err(complaint) => Ok(PlainUtility::Complains(complaint)),
    }
}

fn start_named(
    alloc: Global,
    name: &[u8],
    wd: &Path,
    argv: &WordList,
) -> Result<Option<PlainUtility>, NoMemory>
    ensures { IfOk result (λ o. option_map (λ u. plain_talk u Answer.Go) o ≡ named name.now wd.now argv.now) }
{
    if name == b"basename".as_slice() {
        let utility = basename(alloc, wd, argv)?;
        return Ok(Some(utility));
    }
    if name == b"dirname".as_slice() {
        let utility = dirname(alloc, wd, argv)?;
        return Ok(Some(utility));
    }
    if name == b"tee".as_slice() {
        let utility = start_tee(alloc, wd, argv)?;
        return Ok(Some(utility));
    }
    Ok(None)
}

impl PlainUtility {
    /// The utility that the first of these words names, in a working directory, before its first turn; `None` where
    /// this crate has none of this name.
    pub fn start(
        alloc: Global,
        wd: &Path,
        argv: &WordList,
    ) -> Result<Option<PlainUtility>, NoMemory>
        ensures { IfOk result (λ o. option_map (λ u. plain_talk u Answer.Go) o ≡ plain_utility wd.now argv.now) }
    {
        match argv.as_slice() {
            [] => Ok(None),
            [name, ..] => start_named(alloc, name.as_slice(), wd, argv),
        }
    }
}

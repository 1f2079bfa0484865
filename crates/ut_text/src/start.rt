// How the text utilities begin.
ghost use Rattle.std.specs.Prelude.{◌≡◌, ◌∷◌, [], IfOk, option_map, option_copied};
ghost use Rattle.ut_args.specs.Usage.{misuses};
ghost use Rattle.ut_filter.specs.Filters.{filters, or_dash};
ghost use Rattle.ut_text.specs.Starts.{cats, heads, head_of, wcs, wc_of, uniqs, uniq_of, uniq_operands, filters_runs, cmps, cmp_operands, is_plus, tail_by, tail_of, tail_operands, tails, named, text_utility};
ghost use Rattle.ut_text.specs.Cmps.{cmp_job};
ghost use Rattle.ut_text.specs.Utilities.{text_talk};
ghost use Rattle.ut_text.specs.Works.{text_job};

use crate::cat::Cat;
use crate::cmp::Cmp;
use crate::head::Head;
use crate::tail::Tail;
use crate::uniq::Uniq;
use crate::utility::TextUtility;
use crate::wc::Wc;
use crate::work::TextWork;
use rk_base::{Bytes, NoMemory, Path, WordList};
use rk_calls::Answer;
use std::alloc::Global;
use ut_args::{Args, Complaint, Form, Opt, begin, number, number_or, unsigned};
use ut_filter::{Filter, or_dash};

fn opt(letter: u8, form: Form) -> Opt
    ensures { result ≡ record { letter = letter; form = form } }
{
    Opt { letter, form }
}

fn filter_inputs(
    alloc: Global,
    wd: &Path,
    work: TextWork,
    inputs: &WordList,
) -> Result<TextUtility, NoMemory>
    ensures { IfOk result (λ u. text_talk u Answer.Go ≡ filters (text_job work) wd.now inputs.now) }
{
    let filter = Filter::new(alloc, wd, work, inputs)?;
    Ok(TextUtility::Filters(filter))
}

// A filter of the operands, or of the standard input where there is none.
fn filter(
    alloc: Global,
    wd: &Path,
    work: TextWork,
    operands: WordList,
) -> Result<TextUtility, NoMemory>
    ensures { IfOk result (λ u. text_talk u Answer.Go ≡ filters (text_job work) wd.now (or_dash operands)) }
{
    let inputs = or_dash(alloc, operands)?;
    filter_inputs(alloc, wd, work, &inputs)
}

fn cat(alloc: Global, wd: &Path, argv: &WordList) -> Result<TextUtility, NoMemory>
    ensures { IfOk result (λ u. text_talk u Answer.Go ≡ cats wd.now argv.now) }
{
    let table = [opt(b'u', Form::Alone)];
    let begun = begin(alloc, b"cat", 1, &table, argv)?;
    match begun {
        Ok(args) => filter(alloc, wd, TextWork::Cats(Cat), args.operands),
        Err(complaint) => Ok(TextUtility::Complains(complaint)),
    }
}

fn head_of(args: &Args) -> Result<Head, NoMemory>
    ensures { IfOk result (λ h. h ≡ head_of args.now) }
{
    let number = number_or(10, args.given.argument(b'n'))?;
    Ok(Head {
        number,
        headed: args.operands.len() > 1,
    })
}

fn head(alloc: Global, wd: &Path, argv: &WordList) -> Result<TextUtility, NoMemory>
    ensures { IfOk result (λ u. text_talk u Answer.Go ≡ heads wd.now argv.now) }
{
    let table = [opt(b'n', Form::Number)];
    let begun = begin(alloc, b"head", 1, &table, argv)?;
    match begun {
        Ok(args) => {
            let head = head_of(&args)?;
            filter(alloc, wd, TextWork::Heads(head), args.operands)
        }
        Err(complaint) => Ok(TextUtility::Complains(complaint)),
    }
}

fn wc_of(args: &Args) -> Wc
    ensures { result ≡ wc_of args.now }
{
    let bytes = args.given.has(b'c');
    let lines = args.given.has(b'l');
    let words = args.given.has(b'w');
    let none = !(bytes || lines || words);
    Wc {
        lines: lines || none,
        words: words || none,
        bytes: bytes || none,
        named: args.operands.len() > 0,
        many: args.operands.len() > 1,
    }
}

fn wc(alloc: Global, wd: &Path, argv: &WordList) -> Result<TextUtility, NoMemory>
    ensures { IfOk result (λ u. text_talk u Answer.Go ≡ wcs wd.now argv.now) }
{
    let table = [
        opt(b'c', Form::Alone),
        opt(b'l', Form::Alone),
        opt(b'w', Form::Alone),
    ];
    let begun = begin(alloc, b"wc", 1, &table, argv)?;
    match begun {
        Ok(args) => filter(alloc, wd, TextWork::Wcs(wc_of(&args)), args.operands),
        Err(complaint) => Ok(TextUtility::Complains(complaint)),
    }
}

fn misused(alloc: Global, name: &[u8], status: u8) -> Result<TextUtility, NoMemory>
    ensures { IfOk result (λ u. text_talk u Answer.Go ≡ misuses name.now status) }
{
    let complaint = Complaint::of_operands(alloc, name, status)?;
    Ok(TextUtility::Complains(complaint))
}

fn one(alloc: Global, word: &[u8]) -> Result<WordList, NoMemory>
    ensures { IfOk result (λ words. words ≡ word.now ∷ []) }
{
    let mut words = WordList::new(Vec::new(alloc));
    words.push(Bytes::from_slice(alloc, word)?)?;
    Ok(words)
}

fn uniq_of(args: &Args, out: Option<Bytes>) -> Uniq
    ensures { result ≡ uniq_of args.now out }
{
    Uniq {
        counted: args.given.has(b'c'),
        repeated: args.given.has(b'd'),
        single: args.given.has(b'u'),
        out,
    }
}

// The lines of an input, to the standard output or to a file.
fn filter_runs(
    alloc: Global,
    wd: &Path,
    args: &Args,
    input: &[u8],
    out: Option<Bytes>,
) -> Result<TextUtility, NoMemory>
    ensures { IfOk result (λ u. text_talk u Answer.Go ≡ filters_runs wd.now args.now input.now out) }
{
    let uniq = uniq_of(args, out);
    let inputs = one(alloc, input)?;
    filter_inputs(alloc, wd, TextWork::Uniqs(uniq), &inputs)
}

fn filter_runs_into(
    alloc: Global,
    wd: &Path,
    args: &Args,
    input: &[u8],
    out: &Bytes,
) -> Result<TextUtility, NoMemory>
    ensures { IfOk result (λ u. text_talk u Answer.Go ≡ filters_runs wd.now args.now input.now (Some out.now)) }
{
    let out = out.copy()?;
    filter_runs(alloc, wd, args, input, Some(out))
}

fn uniq_operands(alloc: Global, wd: &Path, args: &Args) -> Result<TextUtility, NoMemory>
    ensures { IfOk result (λ u. text_talk u Answer.Go ≡ uniq_operands wd.now args.now args.now.operands) }
{
    match args.operands.as_slice() {
        [] => filter_runs(alloc, wd, args, b"-", None),
        [input] => filter_runs(alloc, wd, args, input.as_slice(), None),
        [input, out] => filter_runs_into(alloc, wd, args, input.as_slice(), out),
        [_, _, _, ..] => misused(alloc, b"uniq", 1),
    }
}

fn uniq(alloc: Global, wd: &Path, argv: &WordList) -> Result<TextUtility, NoMemory>
    ensures { IfOk result (λ u. text_talk u Answer.Go ≡ uniqs wd.now argv.now) }
{
    let table = [
        opt(b'c', Form::Alone),
        opt(b'd', Form::Alone),
        opt(b'u', Form::Alone),
    ];
    let begun = begin(alloc, b"uniq", 1, &table, argv)?;
    match begun {
        Ok(args) => uniq_operands(alloc, wd, &args),
        Err(complaint) => Ok(TextUtility::Complains(complaint)),
    }
}

fn two(alloc: Global, a: &Bytes, b: &Bytes) -> Result<WordList, NoMemory>
    ensures { IfOk result (λ words. words ≡ a.now ∷ b.now ∷ []) }
{
    let mut words = one(alloc, a.as_slice())?;
    words.push(b.copy()?)?;
    Ok(words)
}

fn compare(
    alloc: Global,
    wd: &Path,
    cmp: Cmp,
    a: &Bytes,
    b: &Bytes,
) -> Result<TextUtility, NoMemory>
    ensures { IfOk result (λ u. text_talk u Answer.Go ≡ filters (cmp_job cmp) wd.now (a.now ∷ b.now ∷ [])) }
{
    let inputs = two(alloc, a, b)?;
    filter_inputs(alloc, wd, TextWork::Cmps(cmp), &inputs)
}

fn cmp_operands(
    alloc: Global,
    wd: &Path,
    cmp: Cmp,
    operands: &WordList,
) -> Result<TextUtility, NoMemory>
    ensures { IfOk result (λ u. text_talk u Answer.Go ≡ cmp_operands wd.now cmp operands.now) }
{
    match operands.as_slice() {
        [] => misused(alloc, b"cmp", 2),
        [_] => misused(alloc, b"cmp", 2),
        [a, b] => compare(alloc, wd, cmp, a, b),
        [_, _, _, ..] => misused(alloc, b"cmp", 2),
    }
}

fn cmp(alloc: Global, wd: &Path, argv: &WordList) -> Result<TextUtility, NoMemory>
    ensures { IfOk result (λ u. text_talk u Answer.Go ≡ cmps wd.now argv.now) }
{
    let table = [opt(b's', Form::Alone)];
    let begun = begin(alloc, b"cmp", 2, &table, argv)?;
    match begun {
        Ok(args) => {
            let cmp = Cmp {
                silent: args.given.has(b's'),
            };
            cmp_operands(alloc, wd, cmp, &args.operands)
        }
        Err(complaint) => Ok(TextUtility::Complains(complaint)),
    }
}

fn is_plus(text: &[u8]) -> bool
    ensures { result ≡ is_plus text.now }
{
    match text {
        [] => false,
        [b, ..] => *b == b'+',
    }
}

fn tail_by(argument: Option<&Bytes>) -> Result<Tail, NoMemory>
    ensures { IfOk result (λ t. t ≡ tail_by (option_copied argument.entry)) }
{
    match argument {
        None => Ok(Tail {
            from_front: false,
            number: 10,
        }),
        Some(text) => {
            let number = number(unsigned(text.as_slice())).ok_or(NoMemory)?;
            let from_front = is_plus(text.as_slice());
            Ok(Tail { from_front, number })
        }
    }
}

fn tail_operands(
    alloc: Global,
    wd: &Path,
    tail: Tail,
    operands: &WordList,
) -> Result<TextUtility, NoMemory>
    ensures { IfOk result (λ u. text_talk u Answer.Go ≡ tail_operands wd.now tail operands.now) }
{
    match operands.as_slice() {
        [] => {
            let inputs = one(alloc, b"-")?;
            filter_inputs(alloc, wd, TextWork::Tails(tail), &inputs)
        }
        [input] => {
            let inputs = one(alloc, input.as_slice())?;
            filter_inputs(alloc, wd, TextWork::Tails(tail), &inputs)
        }
        [_, _, ..] => misused(alloc, b"tail", 1),
    }
}

fn tail(alloc: Global, wd: &Path, argv: &WordList) -> Result<TextUtility, NoMemory>
    ensures { IfOk result (λ u. text_talk u Answer.Go ≡ tails wd.now argv.now) }
{
    let table = [opt(b'n', Form::Signed)];
    let begun = begin(alloc, b"tail", 1, &table, argv)?;
    match begun {
        Ok(args) => {
            let tail = tail_by(args.given.argument(b'n'))?;
            tail_operands(alloc, wd, tail, &args.operands)
        }
        Err(complaint) => Ok(TextUtility::Complains(complaint)),
    }
}

fn start_named(
    alloc: Global,
    name: &[u8],
    wd: &Path,
    argv: &WordList,
) -> Result<Option<TextUtility>, NoMemory>
    ensures { IfOk result (λ o. option_map (λ u. text_talk u Answer.Go) o ≡ named name.now wd.now argv.now) }
{
    if name == b"cat".as_slice() {
        let utility = cat(alloc, wd, argv)?;
        return Ok(Some(utility));
    }
    if name == b"head".as_slice() {
        let utility = head(alloc, wd, argv)?;
        return Ok(Some(utility));
    }
    if name == b"wc".as_slice() {
        let utility = wc(alloc, wd, argv)?;
        return Ok(Some(utility));
    }
    if name == b"uniq".as_slice() {
        let utility = uniq(alloc, wd, argv)?;
        return Ok(Some(utility));
    }
    if name == b"cmp".as_slice() {
        let utility = cmp(alloc, wd, argv)?;
        return Ok(Some(utility));
    }
    if name == b"tail".as_slice() {
        let utility = tail(alloc, wd, argv)?;
        return Ok(Some(utility));
    }
    Ok(None)
}

impl TextUtility {
    /// The utility that the first of these words names, in a working directory, before its first turn; `None` where
    /// no text utility has this name.
    pub fn start(alloc: Global, wd: &Path, argv: &WordList) -> Result<Option<TextUtility>, NoMemory>
        ensures { IfOk result (λ o. option_map (λ u. text_talk u Answer.Go) o ≡ text_utility wd.now argv.now) }
    {
        match argv.as_slice() {
            [] => Ok(None),
            [name, ..] => start_named(alloc, name.as_slice(), wd, argv),
        }
    }
}

// What options and operands choose.
ghost use Rattle.std.specs.Prelude.{◌≡◌, count_by, option_copied, IfOk};
ghost use Rattle.ut_select.specs.Chosen.{is_list, or_text, list_text, first_or_tab, delimiter_of, cut_of, first_set, deletes, translates, also, tr_of_one, tr_of_two, tr_by_one, tr_by_two, tr_of};
ghost use Rattle.ut_select.specs.Sets.{set_of};

use crate::cut::Cut;
use crate::ranges::ranges_of;
use crate::sets::{complement, is_empty, misnamed, set_of};
use crate::tr::Tr;
use rk_base::{Bytes, NoMemory, WordList};
use std::alloc::Global;
use ut_args::{Args, Given};

fn is_list(given: &Given) -> bool
    ensures { result ≡ is_list given.now }
{
    given.letter == b'b' || given.letter == b'c' || given.letter == b'f'
}

/// How many of `-b`, `-c` and `-f` are given.
pub(crate) fn lists(given: &[Given]) -> usize
    ensures { result ≡ count_by is_list given.now }
{
    given.iter().filter(|g| is_list(*g)).count()
}

fn or_text<'a>(argument: Option<&'a Bytes>, text: &'a [u8]) -> &'a [u8]
    ensures { result.now ≡ or_text (option_copied argument.entry) text.now }
{
    match argument {
        None => text,
        Some(argument) => argument.as_slice(),
    }
}

fn list_text(args: &Args) -> &[u8]
    ensures { result.now ≡ list_text args.now }
{
    let fields = or_text(args.given.argument(b'f'), b"");
    let chars = or_text(args.given.argument(b'c'), fields);
    or_text(args.given.argument(b'b'), chars)
}

fn first_or_tab(text: &[u8]) -> u8
    ensures { result ≡ first_or_tab text.now }
{
    match text {
        [] => b'\t',
        [b, ..] => *b,
    }
}

fn delimiter_of(argument: Option<&Bytes>) -> u8
    ensures { result ≡ delimiter_of (option_copied argument.entry) }
{
    match argument {
        None => b'\t',
        Some(text) => first_or_tab(text.as_slice()),
    }
}

pub(crate) fn cut_of(alloc: Global, args: &Args) -> Result<Cut, NoMemory>
    ensures { IfOk result (λ c. c ≡ cut_of args.now) }
{
    let ranges = ranges_of(alloc, list_text(args))?;
    let fields = args.given.has(b'f');
    let delimiter = delimiter_of(args.given.argument(b'd'));
    let only = args.given.has(b's');
    Ok(Cut::new(ranges, fields, delimiter, only))
}

// With `-c` the other bytes.
fn first_set(alloc: Global, args: &Args, a: &[u8]) -> Result<Vec<u8>, NoMemory>
    ensures { IfOk result (λ set. set.items ≡ first_set args.now a.now) }
{
    let set = set_of(alloc, a)?;
    if args.given.has(b'c') {
        return complement(alloc, set.as_slice());
    }
    Ok(set)
}

fn deletes(alloc: Global, a: Vec<u8>, squeezed: Vec<u8>) -> Tr
    ensures { result ≡ deletes a.items squeezed.items }
{
    Tr::new(a, Vec::new(alloc), Vec::new(alloc), squeezed)
}

fn translates(alloc: Global, a: Vec<u8>, b: Vec<u8>, squeezed: Vec<u8>) -> Tr
    ensures { result ≡ translates a.items b.items squeezed.items }
{
    Tr::new(Vec::new(alloc), a, b, squeezed)
}

fn tr_of_one(alloc: Global, args: &Args, a: Vec<u8>) -> Option<Tr>
    ensures { result ≡ tr_of_one args.now a.items }
{
    if args.given.has(b'd') {
        if args.given.has(b's') {
            return None;
        }
        return Some(deletes(alloc, a, Vec::new(alloc)));
    }
    if args.given.has(b's') {
        return Some(translates(alloc, Vec::new(alloc), Vec::new(alloc), a));
    }
    None
}

// Its bytes where they are squeezed too.
fn also(alloc: Global, args: &Args, b: &[u8]) -> Result<Vec<u8>, NoMemory>
    ensures { IfOk result (λ set. set.items ≡ also args.now b.now) }
{
    if args.given.has(b's') {
        let set = Vec::from_slice(alloc, b)?;
        Ok(set)
    } else {
        Ok(Vec::new(alloc))
    }
}

fn tr_of_two(alloc: Global, args: &Args, a: Vec<u8>, b: Vec<u8>) -> Result<Option<Tr>, NoMemory>
    ensures { IfOk result (λ o. o ≡ tr_of_two args.now a.items b.items) }
{
    if args.given.has(b'd') {
        if args.given.has(b's') {
            return Ok(Some(deletes(alloc, a, b)));
        }
        return Ok(None);
    }
    if is_empty(b.as_slice()) {
        return Ok(None);
    }
    let squeezed = also(alloc, args, b.as_slice())?;
    Ok(Some(translates(alloc, a, b, squeezed)))
}

fn tr_by_one(alloc: Global, args: &Args, a: &[u8]) -> Result<Option<Tr>, NoMemory>
    ensures { IfOk result (λ o. o ≡ tr_by_one args.now a.now) }
{
    if misnamed(a) {
        return Ok(None);
    }
    let a = first_set(alloc, args, a)?;
    Ok(tr_of_one(alloc, args, a))
}

fn tr_by_two(alloc: Global, args: &Args, a: &[u8], b: &[u8]) -> Result<Option<Tr>, NoMemory>
    ensures { IfOk result (λ o. o ≡ tr_by_two args.now a.now b.now) }
{
    if misnamed(a) || misnamed(b) {
        return Ok(None);
    }
    let a = first_set(alloc, args, a)?;
    let b = set_of(alloc, b)?;
    tr_of_two(alloc, args, a, b)
}

pub(crate) fn tr_of(alloc: Global, args: &Args) -> Result<Option<Tr>, NoMemory>
    ensures { IfOk result (λ o. o ≡ tr_of args.now args.now.operands) }
{
    match args.operands.as_slice() {
        [] => Ok(None),
        [a] => tr_by_one(alloc, args, a.as_slice()),
        [a, b] => tr_by_two(alloc, args, a.as_slice(), b.as_slice()),
        [_, _, _, ..] => Ok(None),
    }
}

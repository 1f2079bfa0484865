// What options and operands choose.
ghost use Rattle.std.specs.Prelude.{◌≡◌, ◌++◌, IfOk, OnOk};
ghost use Rattle.ut_grep.specs.Chosen.{manner_of, patterns_in, all_patterns};

use crate::gatherer::add_lines;
use crate::grep::Manner;
use rk_base::{Bytes, NoMemory, WordList};
use std::alloc::Global;
use ut_args::Args;

pub(crate) fn manner_of(args: &Args, operands: usize) -> Manner
    ensures { result ≡ manner_of args.now operands }
{
    Manner {
        fixed: args.given.has(b'F'),
        folded: args.given.has(b'i'),
        inverted: args.given.has(b'v'),
        whole: args.given.has(b'x'),
        numbered: args.given.has(b'n'),
        counted: args.given.has(b'c'),
        listed: args.given.has(b'l'),
        quiet: args.given.has(b'q'),
        many: operands > 1,
    }
}

// A text's parts between newlines, after others.
fn add_patterns(alloc: Global, text: &[u8], patterns: &mut WordList) -> Result<(), NoMemory>
    ensures { OnOk result (patterns.new ≡ patterns.old ++ patterns_in text.now) }
{
    let mut lines = Vec::from_slice(alloc, text)?;
    lines.push(b'\n')?;
    add_lines(alloc, lines.as_slice(), patterns)
}

/// The parts of texts between newlines.
pub(crate) fn all_patterns(alloc: Global, texts: &[Bytes]) -> Result<WordList, NoMemory>
    ensures { IfOk result (λ patterns. patterns ≡ all_patterns texts.now) }
{
    let mut patterns = WordList::new(Vec::new(alloc));
    'texts: for text in texts {
        add_patterns(alloc, text.as_slice(), &mut patterns)?;
    }
    Ok(patterns)
}

pub(crate) fn patterns_in(alloc: Global, text: &[u8]) -> Result<WordList, NoMemory>
    ensures { IfOk result (λ patterns. patterns ≡ patterns_in text.now) }
{
    let mut patterns = WordList::new(Vec::new(alloc));
    add_patterns(alloc, text, &mut patterns)?;
    Ok(patterns)
}

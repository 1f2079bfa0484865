// How `grep` begins.
ghost use Rattle.std.specs.Prelude.{◌≡◌, codes, IfOk};
ghost use Rattle.ut_args.specs.Usage.{misuses};
ghost use Rattle.ut_grep.specs.Starts.{gathers, grep_given, grep_first, grep_by};
ghost use Rattle.ut_grep.specs.Utilities.{grep_talk};

use crate::chosen::{all_patterns, manner_of, patterns_in};
use crate::gatherer::{Gathered, Gatherer, Waits};
use crate::grep::Manner;
use crate::utility::GrepUtility;
use rk_base::{Bytes, NoMemory, Path, WordList};
use rk_calls::Answer;
use std::alloc::Global;
use ut_args::{Args, Complaint, copies, first_word};
use ut_filter::queue_of;

fn misused(alloc: Global) -> Result<GrepUtility, NoMemory>
    ensures { IfOk result (λ u. grep_talk u Answer.Go ≡ misuses (codes "grep") 2) }
{
    let complaint = Complaint::of_operands(alloc, b"grep", 2)?;
    Ok(GrepUtility::Complains(complaint))
}

fn gather(
    alloc: Global,
    wd: &Path,
    manner: Manner,
    operands: WordList,
    files: &[Bytes],
    patterns: WordList,
) -> Result<GrepUtility, NoMemory>
    ensures { IfOk result (λ u. grep_talk u Answer.Go ≡ gathers wd.now manner operands files.now patterns 10) }
{
    let files = queue_of(alloc, files)?;
    let wd = wd.copy()?;
    Ok(GrepUtility::Gathers(Gatherer {
        gathered: Gathered {
            alloc,
            wd,
            manner,
            operands,
            files,
            patterns,
            next: 10,
        },
        waits: Waits::Next,
    }))
}

fn grep_given(alloc: Global, wd: &Path, args: Args) -> Result<GrepUtility, NoMemory>
    ensures { IfOk result (λ u. grep_talk u Answer.Go ≡ grep_given wd.now args) }
{
    let texts = args.given.arguments(alloc, b'e')?;
    let files = args.given.arguments(alloc, b'f')?;
    let patterns = all_patterns(alloc, texts.as_slice())?;
    let manner = manner_of(&args, args.operands.len());
    gather(alloc, wd, manner, args.operands, files.as_slice(), patterns)
}

fn grep_first(
    alloc: Global,
    wd: &Path,
    args: &Args,
    operands: &[Bytes],
) -> Result<GrepUtility, NoMemory>
    ensures { IfOk result (λ u. grep_talk u Answer.Go ≡ grep_first wd.now args.now operands.now) }
{
    match first_word(operands) {
        None => misused(alloc),
        Some((pattern, rest)) => {
            let patterns = patterns_in(alloc, pattern.as_slice())?;
            let manner = manner_of(args, rest.len());
            let operands = copies(alloc, rest)?;
            gather(alloc, wd, manner, operands, &[], patterns)
        }
    }
}

pub(crate) fn grep_by(alloc: Global, wd: &Path, args: Args) -> Result<GrepUtility, NoMemory>
    ensures { IfOk result (λ u. grep_talk u Answer.Go ≡ grep_by wd.now args) }
{
    if args.given.has(b'e') || args.given.has(b'f') {
        return grep_given(alloc, wd, args);
    }
    grep_first(alloc, wd, &args, args.operands.as_slice())
}

// How `sed` begins.
ghost use Rattle.std.specs.Prelude.{◌≡◌, ◌∷◌, ◌++◌, [], codes, Some, IfOk, OnOk, option_map};
ghost use Rattle.ut_args.specs.Usage.{misuses};
ghost use Rattle.ut_sed.specs.Starts.{gathers, argued_source, source_of, sources_of, sed_first, sed_with, sed_by, sed_options, seds, named, sed_utility};
ghost use Rattle.ut_sed.specs.Utilities.{sed_talk};

use crate::gatherer::{Gathered, Gatherer, Source, Waits};
use crate::utility::SedUtility;
use rk_base::{Bytes, NoMemory, Path, WordList};
use rk_calls::Answer;
use std::alloc::Global;
use std::collections::VecDeque;
use ut_args::{Args, Complaint, Form, Given, Opt, begin, copies, first_word};

fn misused(alloc: Global) -> Result<SedUtility, NoMemory>
    ensures { IfOk result (λ u. sed_talk u Answer.Go ≡ misuses (codes "sed") 1) }
{
    let complaint = Complaint::of_operands(alloc, b"sed", 1)?;
    Ok(SedUtility::Complains(complaint))
}

fn gather(
    alloc: Global,
    wd: &Path,
    quiet: bool,
    operands: WordList,
    sources: VecDeque<Source>,
) -> Result<SedUtility, NoMemory>
    ensures { IfOk result (λ u. sed_talk u Answer.Go ≡ gathers wd.now quiet operands sources.items [] 10) }
{
    let wd = wd.copy()?;
    Ok(SedUtility::Gathers(Gatherer {
        gathered: Gathered {
            alloc,
            wd,
            quiet,
            operands,
            sources,
            commands: Vec::new(alloc),
            next: 10,
        },
        waits: Waits::Next,
    }))
}

fn source(letter: u8, text: &Bytes) -> Result<Source, NoMemory>
    ensures { IfOk result (λ s. argued_source letter (Some text.now) ≡ s ∷ []) }
{
    let text = text.copy()?;
    if letter == b'f' {
        Ok(Source::File(text))
    } else {
        Ok(Source::Script(text))
    }
}

fn put_source(given: &Given, sources: &mut VecDeque<Source>) -> Result<(), NoMemory>
    ensures { OnOk result (sources.new.items ≡ sources.old.items ++ source_of given.now) }
{
    match &given.argument {
        None => Ok(()),
        Some(text) => {
            let source = source(given.letter, text)?;
            sources.push_back(source)?;
            Ok(())
        }
    }
}

fn sources_of(alloc: Global, given: &[Given]) -> Result<VecDeque<Source>, NoMemory>
    ensures { IfOk result (λ s. s.items ≡ sources_of given.now) }
{
    let mut sources = VecDeque::new(alloc);
    'given: for one in given {
        put_source(one, &mut sources)?;
    }
    Ok(sources)
}

fn one_source(alloc: Global, script: &Bytes) -> Result<VecDeque<Source>, NoMemory>
    ensures { IfOk result (λ s. s.items ≡ Source.Script script.now ∷ []) }
{
    let script = script.copy()?;
    let mut sources = VecDeque::new(alloc);
    sources.push_back(Source::Script(script))?;
    Ok(sources)
}

// The first operand is the script.
fn sed_first(
    alloc: Global,
    wd: &Path,
    quiet: bool,
    operands: &[Bytes],
) -> Result<SedUtility, NoMemory>
    ensures { IfOk result (λ u. sed_talk u Answer.Go ≡ sed_first wd.now quiet operands.now) }
{
    match first_word(operands) {
        None => misused(alloc),
        Some((script, rest)) => {
            let sources = one_source(alloc, script)?;
            let operands = copies(alloc, rest)?;
            gather(alloc, wd, quiet, operands, sources)
        }
    }
}

fn sed_with(
    alloc: Global,
    wd: &Path,
    quiet: bool,
    operands: WordList,
    sources: VecDeque<Source>,
) -> Result<SedUtility, NoMemory>
    ensures { IfOk result (λ u. sed_talk u Answer.Go ≡ sed_with wd.now quiet operands sources.items) }
{
    if sources.is_empty() {
        sed_first(alloc, wd, quiet, operands.as_slice())
    } else {
        gather(alloc, wd, quiet, operands, sources)
    }
}

fn sed_by(alloc: Global, wd: &Path, args: Args) -> Result<SedUtility, NoMemory>
    ensures { IfOk result (λ u. sed_talk u Answer.Go ≡ sed_by wd.now args) }
{
    let quiet = args.given.has(b'n');
    let sources = sources_of(alloc, args.given.as_slice())?;
    sed_with(alloc, wd, quiet, args.operands, sources)
}

fn opt(letter: u8, form: Form) -> Opt
    ensures { result ≡ record { letter = letter; form = form } }
{
    Opt { letter, form }
}

fn sed(alloc: Global, wd: &Path, argv: &WordList) -> Result<SedUtility, NoMemory>
    ensures { IfOk result (λ u. sed_talk u Answer.Go ≡ seds wd.now argv.now) }
{
    let table = [
        opt(b'n', Form::Alone),
        opt(b'e', Form::Text),
        opt(b'f', Form::Text),
    ];
    let begun = begin(alloc, b"sed", 1, &table, argv)?;
    match begun {
        Ok(args) => sed_by(alloc, wd, args),
        Err(complaint) => Ok(SedUtility::Complains(complaint)),
    }
}

fn start_named(
    alloc: Global,
    name: &[u8],
    wd: &Path,
    argv: &WordList,
) -> Result<Option<SedUtility>, NoMemory>
    ensures { IfOk result (λ o. option_map (λ u. sed_talk u Answer.Go) o ≡ named name.now wd.now argv.now) }
{
    if name == b"sed".as_slice() {
        let utility = sed(alloc, wd, argv)?;
        return Ok(Some(utility));
    }
    Ok(None)
}

impl SedUtility {
    /// `sed` by these words, in a working directory, before its first turn; `None` where the first word is another name.
    pub fn start(alloc: Global, wd: &Path, argv: &WordList) -> Result<Option<SedUtility>, NoMemory>
        ensures { IfOk result (λ o. option_map (λ u. sed_talk u Answer.Go) o ≡ sed_utility wd.now argv.now) }
    {
        match argv.as_slice() {
            [] => Ok(None),
            [name, ..] => start_named(alloc, name.as_slice(), wd, argv),
        }
    }
}

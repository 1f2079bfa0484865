// How `grep` begins.
ghost use Rattle.std.specs.Prelude.{◌≡◌, IfOk, option_map};
ghost use Rattle.ut_grep.specs.Starts.{grep_options, greps, named, grep_utility};
ghost use Rattle.ut_grep.specs.Utilities.{grep_talk};

use crate::seek::grep_by;
use crate::utility::GrepUtility;
use rk_base::{NoMemory, Path, WordList};
use rk_calls::Answer;
use std::alloc::Global;
use ut_args::{Form, Opt, begin};

fn opt(letter: u8, form: Form) -> Opt
    ensures { result ≡ record { letter = letter; form = form } }
{
    Opt { letter, form }
}

#[tactic(auto, unfolding(crate::specs::Starts::grep_options))]
fn grep_options() -> [Opt; 10]
    ensures { result ≡ grep_options }
{
    [
        opt(b'F', Form::Alone),
        opt(b'c', Form::Alone),
        opt(b'i', Form::Alone),
        opt(b'l', Form::Alone),
        opt(b'n', Form::Alone),
        opt(b'q', Form::Alone),
        opt(b'v', Form::Alone),
        opt(b'x', Form::Alone),
        opt(b'e', Form::Text),
        opt(b'f', Form::Text),
    ]
}

fn grep(alloc: Global, wd: &Path, argv: &WordList) -> Result<GrepUtility, NoMemory>
    ensures { IfOk result (λ u. grep_talk u Answer.Go ≡ greps wd.now argv.now) }
{
    let table = grep_options();
    let begun = begin(alloc, b"grep", 2, &table, argv)?;
    match begun {
        Ok(args) => grep_by(alloc, wd, args),
        Err(complaint) => Ok(GrepUtility::Complains(complaint)),
    }
}

fn start_named(
    alloc: Global,
    name: &[u8],
    wd: &Path,
    argv: &WordList,
) -> Result<Option<GrepUtility>, NoMemory>
    ensures { IfOk result (λ o. option_map (λ u. grep_talk u Answer.Go) o ≡ named name.now wd.now argv.now) }
{
    if name == b"grep".as_slice() {
        let utility = grep(alloc, wd, argv)?;
        return Ok(Some(utility));
    }
    Ok(None)
}

impl GrepUtility {
    /// `grep` by these words, in a working directory, before its first turn; `None` where the first word is another
    /// name.
    pub fn start(alloc: Global, wd: &Path, argv: &WordList) -> Result<Option<GrepUtility>, NoMemory>
        ensures { IfOk result (λ o. option_map (λ u. grep_talk u Answer.Go) o ≡ grep_utility wd.now argv.now) }
    {
        match argv.as_slice() {
            [] => Ok(None),
            [name, ..] => start_named(alloc, name.as_slice(), wd, argv),
        }
    }
}

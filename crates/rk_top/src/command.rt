// The command of a key.
ghost use Rattle.std.specs.Prelude.{◌≡◌, IfOk, option_map};
ghost use Rattle.std.specs.List.{list_any};
ghost use Rattle.rk_base.specs.Text.{is_slash};
ghost use Rattle.rk_calls.specs.Keys.{takes_variables};
ghost use Rattle.rk_top.specs.First.{first_of, first_talk, known_by, named_of, says_of};
ghost use Rattle.rk_top.specs.Running.{running_talk, command_talk};
ghost use Rattle.rk_top.specs.UnknownTalk.{is_unknown};

use rk_base::{Bytes, NoMemory, Path, WordList};
use rk_calls::{Answer, Key, Machine, Turn};
use sh_builtin::BuiltinCommand;
use sh_eval::Shell;
use std::alloc::Global;
use ut_args::Complaint;
use ut_copy::CopyUtility;
use ut_files::FileUtility;
use ut_find::FindUtility;
use ut_grep::GrepUtility;
use ut_plain::PlainUtility;
use ut_sed::SedUtility;
use ut_select::SelectUtility;
use ut_sort::SortUtility;
use ut_text::TextUtility;

#[derive(Drop)]
enum Running {
    Complains(Complaint),
    Shells(Shell),
    Builtins(BuiltinCommand),
    Texts(TextUtility),
    Plain(PlainUtility),
    Selects(SelectUtility),
    Sorts(SortUtility),
    Seds(SedUtility),
    Greps(GrepUtility),
    Files(FileUtility),
    Copies(CopyUtility),
    Finds(FindUtility),
}

/// The command of a key, as a machine (XCU 2.9.1): a shell where the first word is `sh` or has a slash, else the builtin or
/// the utility of that name, else an unknown name.
#[derive(Drop)]
pub struct Command {
    /// Whether it has paid for its start.
    paid: bool,
    running: Running,
}

// A name that is no command's: `sh: NAME: not found`, and status 127.
fn unknown(alloc: Global, name: &[u8]) -> Result<Running, NoMemory>
    ensures { IfOk result (λ r. running_talk r Answer.Go ≡ is_unknown name.now) }
{
    let complaint = Complaint::of_operand(alloc, b"sh", name, b"not found", 127)?;
    Ok(Running::Complains(complaint))
}

// The builtin or the utility that knows the first word: the first of these.
fn known(alloc: Global, wd: &Path, argv: &WordList) -> Result<Option<Running>, NoMemory>
    ensures { IfOk result (λ o. option_map (λ r. running_talk r Answer.Go) o ≡ first_of (known_by wd.now argv.now)) }
{
    if let Some(command) = BuiltinCommand::start(alloc, wd, argv)? {
        return Ok(Some(Running::Builtins(command)));
    }
    if let Some(utility) = TextUtility::start(alloc, wd, argv)? {
        return Ok(Some(Running::Texts(utility)));
    }
    if let Some(utility) = PlainUtility::start(alloc, wd, argv)? {
        return Ok(Some(Running::Plain(utility)));
    }
    if let Some(utility) = SelectUtility::start(alloc, wd, argv)? {
        return Ok(Some(Running::Selects(utility)));
    }
    if let Some(utility) = SortUtility::start(alloc, wd, argv)? {
        return Ok(Some(Running::Sorts(utility)));
    }
    if let Some(utility) = SedUtility::start(alloc, wd, argv)? {
        return Ok(Some(Running::Seds(utility)));
    }
    if let Some(utility) = GrepUtility::start(alloc, wd, argv)? {
        return Ok(Some(Running::Greps(utility)));
    }
    if let Some(utility) = ut_files::start(alloc, wd, argv)? {
        return Ok(Some(Running::Files(utility)));
    }
    if let Some(utility) = ut_copy::start(alloc, wd, argv)? {
        return Ok(Some(Running::Copies(utility)));
    }
    if let Some(utility) = FindUtility::start(alloc, wd, argv)? {
        return Ok(Some(Running::Finds(utility)));
    }
    Ok(None)
}

// The builtin or the utility of a first word, or an unknown name.
fn named(alloc: Global, wd: &Path, argv: &WordList) -> Result<Running, NoMemory>
    ensures { IfOk result (λ r. running_talk r Answer.Go ≡ named_of wd.now argv.now) }
{
    match argv.as_slice() {
        [] => unknown(alloc, b""),
        [name, ..] => match known(alloc, wd, argv)? {
            Some(running) => Ok(running),
            None => unknown(alloc, name.as_slice()),
        },
    }
}

// Whether the first word is `sh` or has a slash.
fn is_shell(argv: &[Bytes]) -> bool
    ensures { result ≡ takes_variables argv.now }
{
    match argv {
        [] => false,
        [word, ..] => word.as_slice() == b"sh".as_slice() || has_slash(word.as_slice()),
    }
}

fn has_slash(word: &[u8]) -> bool
    ensures { result ≡ list_any is_slash word.now }
{
    word.iter().any(|b| *b == b'/')
}

fn machine_of(alloc: Global, key: &Key) -> Result<Running, NoMemory>
    ensures { IfOk result (λ r. running_talk r Answer.Go ≡ says_of key.now) }
{
    if is_shell(key.argv().as_slice()) {
        let shell = Shell::start(alloc, key)?;
        return Ok(Running::Shells(shell));
    }
    named(alloc, key.wd(), key.argv())
}

impl Command {
    /// The command of a key, before its first turn.
    #[tactic(auto, unfolding(crate::specs::First::first_talk))]
    pub fn start(alloc: Global, key: &Key) -> Result<Command, NoMemory>
        ensures { IfOk result (λ c. command_talk c Answer.Go ≡ first_talk key.now) }
    {
        let running = machine_of(alloc, key)?;
        Ok(Command {
            paid: false,
            running,
        })
    }
}

impl Machine for Running {
    ghost use Rattle.rk_top.specs.Running.{running_talk};

    ghost talk = { running_talk };

    fn resume(&mut self, answer: Answer) -> Result<Turn, NoMemory> {
        match self {
            Running::Complains(machine) => machine.resume(answer),
            Running::Shells(machine) => machine.resume(answer),
            Running::Builtins(machine) => machine.resume(answer),
            Running::Texts(machine) => machine.resume(answer),
            Running::Plain(machine) => machine.resume(answer),
            Running::Selects(machine) => machine.resume(answer),
            Running::Sorts(machine) => machine.resume(answer),
            Running::Seds(machine) => machine.resume(answer),
            Running::Greps(machine) => machine.resume(answer),
            Running::Files(machine) => machine.resume(answer),
            Running::Copies(machine) => machine.resume(answer),
            Running::Finds(machine) => machine.resume(answer),
        }
    }
}

impl Machine for Command {
    ghost use Rattle.rk_top.specs.Running.{command_talk};

    ghost talk = { command_talk };

    fn resume(&mut self, answer: Answer) -> Result<Turn, NoMemory> {
        if !self.paid {
            self.paid = true;
            return Ok(Turn::More(1));
        }
        self.running.resume(answer)
    }
}

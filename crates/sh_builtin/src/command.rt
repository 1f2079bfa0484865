// A builtin as a command by itself.
ghost use Rattle.std.specs.Prelude.{◌≡◌, IfOk, option_map};
ghost use Rattle.sh_builtin.specs.Commands.{says, own_env, named_command, builtin_command};
ghost use Rattle.sh_builtin.specs.Stages.{command_talk};
ghost use Rattle.sh_builtin.specs.Action.{numbered};

use crate::Builtin;
use crate::name::is_builtin;
use rk_base::{Bytes, NoMemory, Path, WordList};
use rk_calls::{Answer, Machine, Turn};
use sh_vars::{Env, Vars, number_after};
use std::alloc::Global;

/// A builtin that was launched by its name, with an environment of its own.
#[derive(Drop)]
pub struct BuiltinCommand {
    builtin: Builtin,
    env: Env,
}

// The next local number after an answer.
fn numbered(answer: &Answer, n: u64) -> u64
    ensures { result ≡ numbered answer.now n }
{
    match answer {
        Answer::Opened => number_after(n),
        Answer::Piped => number_after(number_after(n)),
        Answer::Go => n,
        Answer::Done => n,
        Answer::Content(_) => n,
        Answer::Stat { .. } => n,
        Answer::Names(_) => n,
        Answer::Text(_) => n,
        Answer::Place(_) => n,
        Answer::Same(_) => n,
        Answer::Joined(_) => n,
        Answer::No(_) => n,
    }
}

// Counts the local numbers that an answer gives.
fn hear(answer: &Answer, next: &mut u64)
    ensures { next.new ≡ numbered answer.now next.old }
{
    *next = numbered(answer, *next);
}

// The environment of a command that is no shell: no variable is set.
fn own_env(alloc: Global, wd: &Path, name: &Bytes) -> Result<Env, NoMemory>
    ensures { IfOk result (λ env. env ≡ own_env wd.now name.now) }
{
    let zero = name.copy()?;
    let wd = wd.copy()?;
    Ok(Env {
        vars: Vars::new(alloc),
        zero,
        wd,
        status: 0,
        substituted: false,
        nounset: false,
        noglob: false,
        next: 10,
    })
}

fn start_named(
    alloc: Global,
    name: &Bytes,
    wd: &Path,
    argv: &WordList,
) -> Result<Option<BuiltinCommand>, NoMemory>
    ensures { IfOk result (λ o. option_map (λ c. command_talk c Answer.Go) o ≡ named_command name.now wd.now argv.now) }
{
    if is_builtin(name.as_slice()) {
        let env = own_env(alloc, wd, name)?;
        let command = BuiltinCommand::new(alloc, argv, env)?;
        return Ok(Some(command));
    }
    Ok(None)
}

impl BuiltinCommand {
    /// The builtin that the first of these words names, in a working directory, before its first turn; `None` where
    /// it names none. Its start isn't paid here.
    pub fn start(
        alloc: Global,
        wd: &Path,
        argv: &WordList,
    ) -> Result<Option<BuiltinCommand>, NoMemory>
        ensures { IfOk result (λ o. option_map (λ c. command_talk c Answer.Go) o ≡ builtin_command wd.now argv.now) }
    {
        match argv.as_slice() {
            [] => Ok(None),
            [name, ..] => start_named(alloc, name, wd, argv),
        }
    }

    /// The builtin with these words, its name first, in this environment. Its start isn't paid here.
    pub fn new(alloc: Global, words: &WordList, env: Env) -> Result<BuiltinCommand, NoMemory>
        ensures { IfOk result (λ c. command_talk c Answer.Go ≡ says words.now env) }
    {
        let builtin = Builtin::start(alloc, words)?;
        Ok(BuiltinCommand { builtin, env })
    }
}

impl Machine for BuiltinCommand {
    ghost use Rattle.sh_builtin.specs.Stages.{command_talk};

    ghost talk = { command_talk };

    fn resume(&mut self, answer: Answer) -> Result<Turn, NoMemory> {
        hear(&answer, &mut self.env.next);
        let turn = self.builtin.resume(true, &mut self.env, answer)?;
        Ok(turn)
    }
}

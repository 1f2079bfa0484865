// The shell of a key.
ghost use Rattle.std.specs.Prelude.{◌≡◌, IfOk, OnOk};
ghost use Rattle.rk_base.specs.Text.{Text};
ghost use Rattle.sh_vars.specs.Held.{assigned, given};
ghost use Rattle.sh_means.specs.Eval.{over};
ghost use Rattle.sh_eval.specs.Machine.{evaluator_says};
ghost use Rattle.sh_script.specs.Reads.{reads};
ghost use Rattle.sh_means.specs.Run.{run};
ghost use Rattle.sh_eval.specs.Starting.{NoneReadonly, shell_talk};
ghost use Rattle.sh_special.specs.Invocation.{start_of};
ghost use Rattle.sh_means.specs.Starts.{all_given, first_variables, first_shell, starts, by_argv, shell_says, runs_command};
ghost use Rattle.sh_means.specs.Views.{shell_of};

use crate::begins::outermost;
use crate::machine::Evaluator;
use rk_base::{Bytes, NoMemory, Path, Var, WordList};
use rk_calls::{Answer, Key, Machine, Turn};
use sh_means::control::{Begin, Control, WordStep};
use sh_means::functions::Functions;
use sh_means::state::State;
use sh_redirect::DescriptorTable;
use sh_special::{Start, copies, misused, read_options};
use sh_vars::{Env, VarErr, Vars};
use std::alloc::Global;
use std::rc::Rc;

/// The shell of a key (XCU 2): `sh [-c] [--] FILE [ARGUMENT..]`, `sh -c TEXT [NAME [ARGUMENT..]]`, or a first word with a
/// slash, which names a script.
#[derive(Drop)]
pub struct Shell {
    evaluator: Evaluator,
}

// A variable takes a value where none is readonly.
fn set(vars: &mut Vars, name: &[u8], value: &[u8]) -> Result<(), NoMemory>
    requires free { NoneReadonly vars.old }
    ensures ok { OnOk result (vars.new ≡ assigned name.now value.now vars.old) }
    ensures free { OnOk result (NoneReadonly vars.new) }
{
    match vars.set(name, value) {
        Ok(()) => Ok(()),
        Err(VarErr::NoMemory) => Err(NoMemory),
        Err(VarErr::Readonly) => unreachable!(),
    }
}

// It is exported, too.
fn give(vars: &mut Vars, var: &Var) -> Result<(), NoMemory>
    requires free { NoneReadonly vars.old }
    ensures ok { OnOk result (vars.new ≡ given var.now.name (assigned var.now.name var.now.value vars.old)) }
    ensures free { OnOk result (NoneReadonly vars.new) }
{
    set(vars, var.name.as_slice(), var.value.as_slice())?;
    vars.export(var.name.as_slice())?;
    Ok(())
}

fn give_all(vars: &mut Vars, list: &[Var]) -> Result<(), NoMemory>
    requires free { NoneReadonly vars.old }
    ensures ok { OnOk result (vars.new ≡ all_given list.now vars.old) }
    ensures free { OnOk result (NoneReadonly vars.new) }
{
    'variables: for var in list {
        give(vars, var)?;
    }
    Ok(())
}

// The variables of a key, IFS and PWD.
fn first_variables(alloc: Global, list: &[Var], wd: &Path) -> Result<Vars, NoMemory>
    ensures { IfOk result (λ vars. vars ≡ first_variables list.now wd.now) }
{
    let mut vars = Vars::new(alloc);
    give_all(&mut vars, list)?;
    set(&mut vars, b"IFS", b" \t\n")?;
    set(&mut vars, b"PWD", wd.text())?;
    Ok(vars)
}

fn first_state(
    alloc: Global,
    zero: Bytes,
    words: WordList,
    vars: &[Var],
    wd: &Path,
) -> Result<State, NoMemory>
    ensures { IfOk result (λ s. shell_of s ≡ first_shell zero words vars.now wd.now) }
{
    let mut vars = first_variables(alloc, vars, wd)?;
    vars.set_positional(words);
    let wd = wd.copy()?;
    let functions = Rc::new(alloc, Functions::new(alloc))?;
    let descriptors = Rc::new(alloc, DescriptorTable::own())?;
    Ok(State {
        env: Env {
            vars,
            zero,
            wd,
            status: 0,
            substituted: false,
            nounset: false,
            noglob: false,
            next: 10,
        },
        errexit: false,
        functions,
        descriptors,
    })
}

// The shell that the words of `sh` begin.
fn begun(alloc: Global, start: Start, vars: &[Var], wd: &Path) -> Result<Evaluator, NoMemory>
    ensures { IfOk result (λ x. evaluator_says x Answer.Go ≡ starts run (start_of start) vars.now wd.now) }
{
    match start {
        Start::Misused(line) => {
            let zero = Bytes::from_slice(alloc, b"sh")?;
            let state = first_state(alloc, zero, WordList::new(Vec::new(alloc)), vars, wd)?;
            Ok(Evaluator::start(alloc, state, Control::Begins(Begin::Misused(line))))
        }
        Start::Given(zero, text, words) => {
            let name = Bytes::from_slice(alloc, b"-c")?;
            let state = first_state(alloc, zero, words, vars, wd)?;
            let step = WordStep::Text(outermost(), name, text);
            Ok(Evaluator::start(alloc, state, Control::WordStep(step)))
        }
        Start::Script(file, words) => {
            let zero = file.copy()?;
            let state = first_state(alloc, zero, words, vars, wd)?;
            Ok(Evaluator::start(alloc, state, Control::Begins(Begin::Script(file))))
        }
    }
}

// The shell of a first word with a slash.
fn of_command(
    alloc: Global,
    file: &Bytes,
    words: &[Bytes],
    vars: &[Var],
    wd: &Path,
) -> Result<Evaluator, NoMemory>
    ensures { IfOk result (λ x. evaluator_says x Answer.Go ≡ runs_command run file.now over (first_shell file.now words.now vars.now wd.now)) }
{
    let words = copies(alloc, words)?;
    let zero = file.copy()?;
    let state = first_state(alloc, zero, words, vars, wd)?;
    let file = file.copy()?;
    Ok(Evaluator::start(alloc, state, Control::Begins(Begin::Command(file))))
}

fn by_argv(alloc: Global, argv: &[Bytes], vars: &[Var], wd: &Path) -> Result<Evaluator, NoMemory>
    ensures { IfOk result (λ x. evaluator_says x Answer.Go ≡ by_argv reads argv.now vars.now wd.now) }
{
    match argv {
        [] => {
            let start = misused(alloc)?;
            begun(alloc, start, vars, wd)
        }
        [word, words @ ..] => {
            if word.as_slice() == b"sh".as_slice() {
                let start = read_options(alloc, false, words)?;
                return begun(alloc, start, vars, wd);
            }
            of_command(alloc, word, words, vars, wd)
        }
    }
}

impl Shell {
    /// The shell of a key, whose start was paid for: words behind `sh` or a script are the positional parameters, the key's
    /// variables are exported, IFS and PWD are set (XCU 2.5.3).
    pub fn start(alloc: Global, key: &Key) -> Result<Shell, NoMemory>
        ensures { IfOk result (λ s. shell_talk s Answer.Go ≡ shell_says reads key.now) }
    {
        let evaluator = by_argv(
            alloc,
            key.argv().as_slice(),
            key.vars().as_slice(),
            key.wd(),
        )?;
        Ok(Shell { evaluator })
    }
}

impl Machine for Shell {
    ghost use Rattle.sh_eval.specs.Starting.{shell_talk};

    ghost talk = { shell_talk };

    fn resume(&mut self, answer: Answer) -> Result<Turn, NoMemory> {
        self.evaluator.resume(answer)
    }
}

// Commands that are launched, functions that are called, and builtins.
ghost use Rattle.std.specs.Prelude.{◌≡◌, ◌<◌, ℕ, IfOk, drop, is_some, length};
ghost use Rattle.sh_redirect.specs.DescriptorTable.{slot};
ghost use Rattle.sh_means.specs.Flows.{Next, ends};
ghost use Rattle.sh_simple.specs.Launching.{through};
ghost use Rattle.sh_means.specs.Run.{run};
ghost use Rattle.sh_means.specs.Simple.{launches, calls, behind_first, status_if, works};
ghost use Rattle.sh_means.specs.Stack.{Steps, context, building, kind_of_code};
ghost use Rattle.sh_means.specs.Views.{shell_of, function_of};
ghost use Rattle.sh_means.specs.Weights.{Lowers, Pays, Sinks};
ghost use Rattle.sh_builtin.specs.Refused.{HasBegun};
ghost use Rattle.rk_calls.specs.declared.answer.Answer.TheVariants as answers;
ghost use Rattle.rk_base.specs.declared.errno.Errno.TheVariants.{BadRef};

use crate::special::obey;
use rk_base::{Bytes, Errno, NoMemory, WordList};
use rk_calls::{Answer, Call, Key, Turn};
use sh_builtin::Builtin;
use sh_means::control::{Acted, CommandKind, CompoundStep, Control, Undo, Wait};
use sh_means::flow::{Flow, Place};
use sh_means::interpreter::Interpreter;
use sh_means::resolved_command::ResolvedCommand;
use sh_means::stack::put_undo;
use sh_means::state::{Callee, State};
use sh_means::steps::{end, free, paid};
use sh_redirect::DescriptorTable;
use std::alloc::Global;

/// A command, which has a name, is launched, and then it ends so with the command's status.
pub(crate) fn launch(
    alloc: Global,
    fields: WordList,
    flow: Flow,
    state: &State,
) -> Result<Acted, NoMemory>
    requires { 0 < length fields }
    ensures talk { IfOk result (λ t. (k : Next) → Steps (launches fields (λ n. ends flow n k) (shell_of state.now)) k (shell_of state.now) t) }
    ensures costly { IfOk result Pays }
{
    let wd = state.env.wd.copy()?;
    let vars = state.env.vars.exported()?;
    let map = state.descriptors.refmap(alloc)?;
    let key = Key::new(alloc, fields, wd, vars)?;
    Ok(Acted {
        turn: Turn::Ask(Call::Launch(key, map), 1),
        control: Control::Waits(Wait::Launched(flow)),
    })
}

// The fields behind the first.
fn behind_first(alloc: Global, fields: &[Bytes]) -> Result<WordList, NoMemory>
    ensures { IfOk result (λ ws. ws ≡ behind_first fields.now) }
{
    let mut words = Vec::new(alloc);
    match fields {
        [] => {}
        [_, rest @ ..] => {
            'rest: for word in rest {
                let word = word.copy()?;
                words.push(word)?;
            }
        }
    }
    Ok(WordList::new(words))
}

// A function is called.
fn call(
    callee: Callee,
    fields: &WordList,
    place: Place,
    shell: &mut Interpreter,
) -> Result<Acted, NoMemory>
    ensures talk { IfOk result (Steps (calls run (function_of callee) fields.now place (shell_of shell.old.state) (context shell.old.stack.items)) (context shell.new.stack.items) (shell_of shell.new.state)) }
    ensures costly { IfOk result Pays }
{
    let positional = shell.state.env.vars.copy_positional()?;
    let words = behind_first(shell.alloc, fields.as_slice())?;
    put_undo(&mut shell.stack, Undo::Function(positional))?;
    shell.state.env.vars.set_positional(words);
    let inside = Place {
        loops: 0,
        returns: true,
        ..place
    };
    Ok(paid(Control::CompoundStep(CompoundStep::Called(inside, callee))))
}

// Without a command name the status is that of the last substitution, or 0 where none was performed.
fn status_if(substituted: bool, status: u8) -> u8
    ensures { result ≡ status_if substituted status }
{
    if substituted { status } else { 0 }
}

/// What a simple command does, once its assignments were made.
pub(crate) fn work(
    resolved: Box<ResolvedCommand>,
    place: Place,
    shell: &mut Interpreter,
) -> Result<Acted, NoMemory>
    ensures talk { IfOk result (Steps (works run (kind_of_code resolved.value.kind) resolved.value.fields place (context shell.old.stack.items) (shell_of shell.old.state)) (context shell.new.stack.items) (shell_of shell.new.state)) }
    ensures costly { IfOk result (Lowers 3 shell.old.stack.items shell.new.stack.items) }
{
    let ResolvedCommand { kind, fields } = Box::into_inner(resolved);
    match kind {
        CommandKind::Bare => {
            let env = &shell.state.env;
            let status = status_if(env.substituted, env.status);
            Ok(end(Flow::Normal, status, &mut shell.state))
        }
        CommandKind::Special(order) => {
            let acted = obey(shell.alloc, order, place, &mut shell.state)?;
            Ok(acted)
        }
        CommandKind::Calls(callee) => {
            let acted = call(callee, &fields, place, shell)?;
            Ok(acted)
        }
        CommandKind::Builtin => {
            let builtin = Box::new(shell.alloc, Builtin::start(shell.alloc, &fields)?)?;
            Ok(free(Control::Waits(Wait::Builtin(builtin))))
        }
        CommandKind::Launches => {
            let acted = launch(shell.alloc, fields, Flow::Normal, &shell.state)?;
            Ok(acted)
        }
    }
}

// A call of a builtin names a descriptor as the shell does; none where the map lacks it.
fn through(call: Call, descriptors: &DescriptorTable) -> Option<Call>
    ensures { result ≡ through call descriptors.now }
{
    match call {
        Call::Write(d, bytes) => match slot(descriptors, d) {
            None => None,
            Some(n) => Some(Call::Write(n, bytes)),
        },
        Call::ReadLine(d) => match slot(descriptors, d) {
            None => None,
            Some(n) => Some(Call::ReadLine(n)),
        },
        call => Some(call),
    }
}

fn slot(descriptors: &DescriptorTable, d: u64) -> Option<u64>
    ensures { result ≡ slot descriptors.now d }
{
    match descriptors.slots.get(d as usize) {
        Some(n) => *n,
        None => None,
    }
}

// Whether the map has a descriptor for the output of a builtin.
fn has_output(descriptors: &DescriptorTable) -> bool
    ensures { result ≡ is_some (slot descriptors.now 1) }
{
    slot(descriptors, 1).is_some()
}

// It has named a descriptor that the map lacks: it hears that, until it calls one that the map has, pays, or is over.
fn resume_refused(builtin: Box<Builtin>, state: &mut State) -> Result<Acted, NoMemory>
    requires { HasBegun builtin.value }
    ensures talk { IfOk result (λ t. (k : Next) → Steps (building builtin.value k (answers.No BadRef) (shell_of state.old)) k (shell_of state.new) t) }
    ensures costly { IfOk result (Sinks 1) }
{
    let mut builtin = builtin;
    'refused: loop {
        let turn = builtin.resume(
            has_output(&state.descriptors),
            &mut state.env,
            Answer::No(Errno::BadRef),
        )?;
        match turn {
            Turn::Ask(call, cost) => match through(call, &state.descriptors) {
                Some(call) => {
                    return Ok(Acted {
                        turn: Turn::Ask(call, cost),
                        control: Control::Waits(Wait::Builtin(builtin)),
                    });
                }
                None => {}
            },
            Turn::More(cost) => {
                return Ok(Acted {
                    turn: Turn::More(cost),
                    control: Control::Waits(Wait::Builtin(builtin)),
                });
            }
            Turn::Exit(status, cost) => {
                state.env.status = status;
                return Ok(Acted {
                    turn: Turn::More(cost),
                    control: Control::Leave(Flow::Normal),
                });
            }
        }
    }
}

/// A builtin goes on with the answer that was heard. Where its call names a descriptor that the map lacks, it is not asked,
/// and the builtin hears that at once.
pub fn resume_builtin(
    builtin: Box<Builtin>,
    answer: Answer,
    state: &mut State,
) -> Result<Acted, NoMemory>
    ensures talk { IfOk result (λ t. (k : Next) → Steps (building builtin.value k answer (shell_of state.old)) k (shell_of state.new) t) }
    ensures costly { IfOk result (Sinks 1) }
{
    let mut builtin = builtin;
    let turn = builtin.resume(has_output(&state.descriptors), &mut state.env, answer)?;
    match turn {
        Turn::Ask(call, cost) => match through(call, &state.descriptors) {
            Some(call) => Ok(Acted {
                turn: Turn::Ask(call, cost),
                control: Control::Waits(Wait::Builtin(builtin)),
            }),
            None => {
                let acted = resume_refused(builtin, state)?;
                Ok(acted)
            }
        },
        Turn::More(cost) => Ok(Acted {
            turn: Turn::More(cost),
            control: Control::Waits(Wait::Builtin(builtin)),
        }),
        Turn::Exit(status, cost) => {
            state.env.status = status;
            Ok(Acted {
                turn: Turn::More(cost),
                control: Control::Leave(Flow::Normal),
            })
        }
    }
}

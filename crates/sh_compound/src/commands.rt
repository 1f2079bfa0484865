// Commands and lists: the turn that each takes.
ghost use Rattle.std.specs.Prelude.{◌≡◌, IfOk};
ghost use Rattle.rk_calls.specs.Talk.{pay};
ghost use Rattle.sh_ast.specs.Commands as tree;
ghost use Rattle.sh_means.specs.Flows.{Next};
ghost use Rattle.sh_means.specs.Eval.{command_in, commands_in, compound_in, redirects_in, simple_in};
ghost use Rattle.sh_means.specs.Compound.{define_means, pipeline_means, piped_means, and_or_means, compound_means, seq_all};
ghost use Rattle.sh_means.specs.Trees.{is_one, cleared};
ghost use Rattle.sh_means.specs.Run.{run};
ghost use Rattle.sh_means.specs.Stack.{Steps, Goes, context, commands_from, first_of, whole};
ghost use Rattle.sh_means.specs.State.{Shell, function_tree};
ghost use Rattle.sh_means.specs.declared.flow.Place.{Place as Places};
ghost use Rattle.sh_means.specs.Views.{shell_of};
ghost use Rattle.sh_means.specs.Weights.{Lowers, Pays};

use rk_base::{Bytes, NoMemory, WordList};
use sh_ast::{Command, CommandList, Compound, Connectors, Redirects, SimpleCommand};
use sh_means::control::{
    Acted, CompoundStep, Continuation, Control, Frame, Made, PendingFields, PendingLinks,
    PendingRedirects, Then, WordStep,
};
use sh_means::flow::{Flow, Place};
use sh_means::interpreter::Interpreter;
use sh_means::stack::put_continuation;
use sh_means::state::{Callee, State};
use sh_means::steps::{free, paid};
use std::alloc::Global;
use std::rc::Rc;

// A simple command begins with its words, and no substitution was performed so far.
fn act_simple(
    alloc: Global,
    place: Place,
    command: &Rc<SimpleCommand>,
    state: &mut State,
) -> Result<Acted, NoMemory>
    ensures talk { IfOk result (λ t. (k : Next) → Steps (simple_in run (tree.simple_command command.now.value) place (shell_of state.old) k) k (shell_of state.new) t) }
    ensures costly { IfOk result Pays }
{
    let command = command.clone()?;
    let words = command.words.clone()?;
    let fields = WordList::new(Vec::new(alloc));
    state.env.substituted = false;
    Ok(paid(Control::WordStep(WordStep::Words(
        place,
        PendingFields {
            words,
            at: 0,
            fields,
            then: Then::Simple(command),
        },
    ))))
}

/// A compound command begins with its redirections.
pub fn act_redirected(
    place: Place,
    body: &Rc<Compound>,
    redirects: &Rc<Redirects>,
    state: &State,
) -> Result<Acted, NoMemory>
    ensures talk { IfOk result (λ t. (k : Next) → Steps (compound_means (redirects_in run (tree.redirects redirects.now.value)) (compound_in run (tree.compound body.now.value)) place (shell_of state.now) k) k (shell_of state.now) t) }
    ensures costly { IfOk result Pays }
{
    let redirects = redirects.clone()?;
    let body = body.clone()?;
    let before = state.descriptors.clone()?;
    Ok(paid(Control::WordStep(WordStep::Make(
        place,
        PendingRedirects {
            redirects,
            at: 0,
            before,
            made: Made::Compound(body),
        },
    ))))
}

// A function is defined.
fn act_function(
    name: &Bytes,
    body: &Rc<Compound>,
    redirects: &Rc<Redirects>,
    state: &mut State,
) -> Result<Acted, NoMemory>
    ensures talk { IfOk result (λ t. (place : Places) (k : Next) → Steps (define_means name.now (function_tree (tree.compound body.now.value) (tree.redirects redirects.now.value)) place (shell_of state.old) k) k (shell_of state.new) t) }
    ensures costly { IfOk result Pays }
{
    let body = body.clone()?;
    let redirects = redirects.clone()?;
    state.define(name.as_slice(), Callee { body, redirects })?;
    state.env.status = 0;
    Ok(paid(Control::Leave(Flow::Normal)))
}

// Whether there is no second command.
fn is_one(list: &CommandList) -> bool
    ensures { result ≡ is_one (tree.commands list.now) }
{
    list.get(1).is_none()
}

// One command behind `!` is no subshell.
fn pipe(place: Place, commands: Rc<CommandList>) -> Control
    ensures { (k : Next) (e : Shell) → Goes (piped_means (commands_in run (tree.commands commands.value)) place k e) k e result }
{
    if is_one(&commands) {
        Control::One(place, commands, 0)
    } else {
        Control::CompoundStep(CompoundStep::Stages(place, commands, 0, None))
    }
}

fn act_pipeline(
    place: Place,
    negated: bool,
    commands: &Rc<CommandList>,
    stack: &mut Vec<Frame>,
) -> Result<Acted, NoMemory>
    ensures talk { IfOk result (λ t. (e : Shell) → Steps (pipeline_means negated (commands_in run (tree.commands commands.now.value)) place e (context stack.old.items)) (context stack.new.items) e t) }
    ensures costly { IfOk result Pays }
{
    let commands = commands.clone()?;
    if negated {
        put_continuation(stack, Continuation::Invert)?;
        let inside = Place {
            ignores: true,
            ..place
        };
        return Ok(paid(pipe(inside, commands)));
    }
    put_continuation(stack, Continuation::Watch(place))?;
    Ok(paid(pipe(place, commands)))
}

// Of an AND-OR list all pipelines but the last are at a place that ignores failing statuses.
fn act_and_or(
    place: Place,
    pipelines: &Rc<CommandList>,
    connectors: &Rc<Connectors>,
    stack: &mut Vec<Frame>,
) -> Result<Acted, NoMemory>
    ensures talk { IfOk result (λ t. (e : Shell) → Steps (and_or_means (commands_in run (tree.commands pipelines.now.value)) connectors.now.value.items.items place e (context stack.old.items)) (context stack.new.items) e t) }
    ensures costly { IfOk result Pays }
{
    let list = pipelines.clone()?;
    let rest = pipelines.clone()?;
    let connectors = connectors.clone()?;
    let links = PendingLinks {
        pipelines: rest,
        at: 0,
        connectors,
    };
    put_continuation(stack, Continuation::Links(place, links))?;
    if is_one(&list) {
        return Ok(paid(Control::One(place, list, 0)));
    }
    let inside = Place {
        ignores: true,
        ..place
    };
    Ok(paid(Control::One(inside, list, 0)))
}

// The turn that a command takes.
fn act_command(place: Place, command: &Command, shell: &mut Interpreter) -> Result<Acted, NoMemory>
    ensures talk { IfOk result (Steps (command_in run (tree.command command.now) place (shell_of shell.old.state) (context shell.old.stack.items)) (context shell.new.stack.items) (shell_of shell.new.state)) }
    ensures costly { IfOk result Pays }
{
    match command {
        Command::Simple(command) => {
            let acted = act_simple(shell.alloc, place, command, &mut shell.state)?;
            Ok(acted)
        }
        Command::Compound(body, redirects) => {
            let acted = act_redirected(place, body, redirects, &shell.state)?;
            Ok(acted)
        }
        Command::Function(name, body, redirects) => {
            let acted = act_function(name, body, redirects, &mut shell.state)?;
            Ok(acted)
        }
        Command::Pipeline(negated, commands) => {
            let acted = act_pipeline(place, *negated, commands, &mut shell.stack)?;
            Ok(acted)
        }
        Command::AndOr(pipelines, connectors) => {
            let acted = act_and_or(place, pipelines, connectors, &mut shell.stack)?;
            Ok(acted)
        }
    }
}

/// One of the commands of a list; nothing where there is none.
pub fn act_one(
    place: Place,
    list: &CommandList,
    at: usize,
    shell: &mut Interpreter,
) -> Result<Acted, NoMemory>
    ensures talk { IfOk result (Steps (first_of (commands_from list.now at) place (shell_of shell.old.state) (context shell.old.stack.items)) (context shell.new.stack.items) (shell_of shell.new.state)) }
    ensures costly { IfOk result (Lowers 1 shell.old.stack.items shell.new.stack.items) }
{
    match list.get(at) {
        Some(command) => {
            let acted = act_command(place, command, shell)?;
            Ok(acted)
        }
        None => Ok(free(Control::Leave(Flow::Normal))),
    }
}

/// The commands of a list from a place on.
pub fn act_run(
    place: Place,
    list: Rc<CommandList>,
    at: usize,
    shell: &mut Interpreter,
) -> Result<Acted, NoMemory>
    ensures talk { IfOk result (Steps (seq_all (commands_from list.value at) place (shell_of shell.old.state) (context shell.old.stack.items)) (context shell.new.stack.items) (shell_of shell.new.state)) }
    ensures costly { IfOk result (Lowers 1 shell.old.stack.items shell.new.stack.items) }
{
    let rest = list.clone()?;
    match list.get(at) {
        Some(command) => {
            let next = at + 1;
            put_continuation(&mut shell.stack, Continuation::Rest(place, rest, next))?;
            let acted = act_command(place, command, shell)?;
            Ok(acted)
        }
        None => Ok(free(Control::Leave(Flow::Normal))),
    }
}

// Of a list without a command the status is 0.
fn clear_if_empty(list: &CommandList, state: &mut State)
    ensures { shell_of state.new ≡ cleared (tree.commands list.now) (shell_of state.old) }
{
    match list.get(0) {
        Some(_) => {}
        None => state.env.status = 0,
    }
}

/// A whole list; one without a command has status 0.
pub fn act_whole(
    place: Place,
    list: Rc<CommandList>,
    shell: &mut Interpreter,
) -> Result<Acted, NoMemory>
    ensures talk { IfOk result (Steps (whole list.value place (shell_of shell.old.state) (context shell.old.stack.items)) (context shell.new.stack.items) (shell_of shell.new.state)) }
    ensures costly { IfOk result (Lowers 1 shell.old.stack.items shell.new.stack.items) }
{
    clear_if_empty(&list, &mut shell.state);
    let acted = act_run(place, list, 0, shell)?;
    Ok(acted)
}

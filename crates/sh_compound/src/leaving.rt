// What a frame that is left leads to.
ghost use Rattle.std.specs.Prelude.{◌≡◌, ◌≤◌, ◌<◌, ◌==◌, ◌+◌, ◌-◌, ◌*◌, ◌^◌, IfOk, Bool, true, not, drop, length, if◌then◌else◌};
ghost use Rattle.sh_ast.specs.Commands as tree;
ghost use Rattle.sh_means.specs.declared.control.Continuation.TheVariants as continuations;
ghost use Rattle.sh_means.specs.declared.control.Undo.TheVariants as undos;
ghost use Rattle.sh_means.specs.declared.flow.Flow.{Flow as Flows};
ghost use Rattle.sh_means.specs.Flows.{Next, and_then, leave, returned};
ghost use Rattle.sh_means.specs.Compound.{takes, links_mean};
ghost use Rattle.sh_compound.specs.Leaving.{goes_on, entered, linked};
ghost use Rattle.sh_means.specs.Run.{run};
ghost use Rattle.sh_means.specs.Stack.{Goes, context, continued, undone, commands_from, whole, looping, resumed};
ghost use Rattle.sh_means.specs.State.{Shell};
ghost use Rattle.sh_means.specs.Views.{shell_of};
ghost use Rattle.sh_means.specs.Weights.{branches_left, weigh, weigh_all, weigh_continuation, weigh_undo};

use crate::compounds::deeper;
use crate::undoing::{put_back, put_back_variables};
use rk_base::NoMemory;
use sh_ast::{CommandList, Connector, LoopKind};
use sh_means::control::{
    CompoundStep, Continuation, Control, Each, Loop, PendingIf, PendingLinks, Undo, WordStep,
};
use sh_means::flow::{Flow, Place};
use sh_means::interpreter::Interpreter;
use sh_means::items::item_at;
use sh_means::stack::put_continuation;
use sh_means::state::State;
use std::rc::Rc;

// After a command of a list.
fn leave_rest(place: Place, list: Rc<CommandList>, at: usize, flow: Flow) -> Control
    ensures talk { (k : Next) (e : Shell) → Goes (continued (continuations.Rest place list at) k flow e) k e result }
    ensures weight { weigh result ≤ 1 }
{
    match flow {
        Flow::Normal => Control::Run(place, list, at),
        Flow::Breaks(n) => Control::Leave(Flow::Breaks(n)),
        Flow::Continues(n) => Control::Leave(Flow::Continues(n)),
        Flow::Returns => Control::Leave(Flow::Returns),
        Flow::Exits => Control::Leave(Flow::Exits),
    }
}

// Whether the pipeline behind a connector is taken.
fn takes(connector: Connector, status: u8) -> bool
    ensures { result ≡ takes connector status }
{
    match connector {
        Connector::And => status == 0,
        Connector::Or => status != 0,
    }
}

// The pipeline at a place of an AND-OR list; only at the last a failing status is not ignored.
fn enter(place: Place, list: Rc<CommandList>, at: usize) -> Control
    requires { at ≤ 2 ^ 63 }
    ensures talk { (k : Next) (e : Shell) → Goes (linked true (commands_from list.value at) place k e) k e result }
    ensures weight { weigh result ≤ 1 }
{
    let next = at + 1;
    match list.get(next) {
        Some(_) => {
            let inside = Place {
                ignores: true,
                ..place
            };
            Control::One(inside, list, at)
        }
        None => Control::One(place, list, at),
    }
}

// The pipeline at a place of an AND-OR list is taken, or passed over.
fn link(place: Place, list: Rc<CommandList>, at: usize, taken: bool) -> Control
    requires { at ≤ 2 ^ 63 }
    ensures talk { (k : Next) (e : Shell) → Goes (linked taken (commands_from list.value at) place k e) k e result }
    ensures weight { weigh result ≤ 1 }
{
    if taken {
        enter(place, list, at)
    } else {
        Control::Leave(Flow::Normal)
    }
}

// After a pipeline of an AND-OR list, by the connector of this number.
fn links(place: Place, left: PendingLinks, shell: &mut Interpreter) -> Result<Control, NoMemory>
    ensures talk { IfOk result (Goes (links_mean (commands_from left.pipelines.value (left.at + 1)) (drop left.at left.connectors.value.items.items) place (context shell.old.stack.items) (shell_of shell.old.state)) (context shell.new.stack.items) (shell_of shell.new.state)) }
    ensures weight { IfOk result (λ c. weigh c + weigh_all shell.new.stack.items ≤ 2 * (length left.connectors.value.items.items - left.at) + weigh_all shell.old.stack.items) }
{
    let PendingLinks {
        pipelines,
        at,
        connectors,
    } = left;
    let rest = pipelines.clone()?;
    let later = connectors.clone()?;
    match item_at(connectors.items.as_slice(), at) {
        None => Ok(Control::Leave(Flow::Normal)),
        Some((connector, next)) => {
            let taken = takes(*connector, shell.state.env.status);
            let behind = PendingLinks {
                pipelines: rest,
                at: next,
                connectors: later,
            };
            put_continuation(&mut shell.stack, Continuation::Links(place, behind))?;
            Ok(link(place, pipelines, next, taken))
        }
    }
}

fn leave_links(
    place: Place,
    left: PendingLinks,
    flow: Flow,
    shell: &mut Interpreter,
) -> Result<Control, NoMemory>
    ensures talk { IfOk result (Goes (continued (continuations.Links place left) (context shell.old.stack.items) flow (shell_of shell.old.state)) (context shell.new.stack.items) (shell_of shell.new.state)) }
    ensures weight { IfOk result (λ c. weigh c + weigh_all shell.new.stack.items ≤ 2 * (length left.connectors.value.items.items - left.at) + weigh_all shell.old.stack.items) }
{
    match flow {
        Flow::Normal => links(place, left, shell),
        Flow::Breaks(n) => Ok(Control::Leave(Flow::Breaks(n))),
        Flow::Continues(n) => Ok(Control::Leave(Flow::Continues(n))),
        Flow::Returns => Ok(Control::Leave(Flow::Returns)),
        Flow::Exits => Ok(Control::Leave(Flow::Exits)),
    }
}

// After the condition of a branch.
fn leave_choose(
    place: Place,
    body: Rc<CommandList>,
    left: PendingIf,
    flow: Flow,
    state: &State,
) -> Control
    ensures talk { (k : Next) → Goes (continued (continuations.Choose place body left) k flow (shell_of state.now)) k (shell_of state.now) result }
    ensures weight { weigh result ≤ 3 * branches_left left.branches.value left.at + 2 }
{
    match flow {
        Flow::Normal => {
            if state.env.status == 0 {
                Control::Whole(place, body)
            } else {
                Control::CompoundStep(CompoundStep::If(place, left))
            }
        }
        Flow::Breaks(n) => Control::Leave(Flow::Breaks(n)),
        Flow::Continues(n) => Control::Leave(Flow::Continues(n)),
        Flow::Returns => Control::Leave(Flow::Returns),
        Flow::Exits => Control::Leave(Flow::Exits),
    }
}

// One loop less to leave.
fn leave_loop(n: u64) -> Flow
    ensures { result ≡ leave n }
{
    if n == 0 {
        Flow::Normal
    } else {
        Flow::Breaks(n - 1)
    }
}

// After a loop's body.
fn leave_body(place: Place, left: Loop, flow: Flow, state: &State) -> Control
    ensures talk { (k : Next) → Goes (continued (continuations.Body place left) k flow (shell_of state.now)) k (shell_of state.now) result }
    ensures weight { weigh result ≡ 0 }
{
    match flow {
        Flow::Normal => Control::CompoundStep(CompoundStep::Round(place, state.env.status, left)),
        Flow::Breaks(n) => Control::Leave(leave_loop(n)),
        Flow::Continues(n) => {
            if n == 0 {
                Control::CompoundStep(CompoundStep::Round(place, state.env.status, left))
            } else {
                Control::Leave(Flow::Continues(n - 1))
            }
        }
        Flow::Returns => Control::Leave(Flow::Returns),
        Flow::Exits => Control::Leave(Flow::Exits),
    }
}

// After the body of a `for`.
fn leave_each(place: Place, each: Each, flow: Flow) -> Control
    ensures talk { (k : Next) (e : Shell) → Goes (continued (continuations.Each place each) k flow e) k e result }
    ensures weight { weigh result ≤ 1 }
{
    match flow {
        Flow::Normal => Control::CompoundStep(CompoundStep::Each(place, each)),
        Flow::Breaks(n) => Control::Leave(leave_loop(n)),
        Flow::Continues(n) => {
            if n == 0 {
                Control::CompoundStep(CompoundStep::Each(place, each))
            } else {
                Control::Leave(Flow::Continues(n - 1))
            }
        }
        Flow::Returns => Control::Leave(Flow::Returns),
        Flow::Exits => Control::Leave(Flow::Exits),
    }
}

// Whether the status of its condition lets a loop go on.
fn goes_on(kind: LoopKind, status: u8) -> bool
    ensures { result ≡ goes_on kind status }
{
    match kind {
        LoopKind::While => status == 0,
        LoopKind::Until => status != 0,
    }
}

// A loop's body begins, above a frame for its next round; or the loop is over.
fn enter_body(
    place: Place,
    last: u8,
    left: Loop,
    shell: &mut Interpreter,
) -> Result<Control, NoMemory>
    ensures talk { IfOk result (Goes (entered left last place (context shell.old.stack.items) (shell_of shell.old.state)) (context shell.new.stack.items) (shell_of shell.new.state)) }
    ensures weight { IfOk result (λ c. weigh c + weigh_all shell.new.stack.items ≤ 2 + weigh_all shell.old.stack.items) }
{
    if goes_on(left.kind, shell.state.env.status) {
        let body = left.body.clone()?;
        let below = deeper(place);
        put_continuation(&mut shell.stack, Continuation::Body(place, left))?;
        return Ok(Control::Whole(below, body));
    }
    shell.state.env.status = last;
    Ok(Control::Leave(Flow::Normal))
}

// After a loop's condition.
fn leave_condition(
    place: Place,
    last: u8,
    left: Loop,
    flow: Flow,
    shell: &mut Interpreter,
) -> Result<Control, NoMemory>
    ensures talk { IfOk result (Goes (continued (continuations.Condition place last left) (context shell.old.stack.items) flow (shell_of shell.old.state)) (context shell.new.stack.items) (shell_of shell.new.state)) }
    ensures weight { IfOk result (λ c. weigh c + weigh_all shell.new.stack.items ≤ 2 + weigh_all shell.old.stack.items) }
{
    match flow {
        Flow::Normal => {
            let control = enter_body(place, last, left, shell)?;
            Ok(control)
        }
        Flow::Breaks(n) => Ok(Control::Leave(leave_loop(n))),
        Flow::Continues(n) => {
            if n == 0 {
                Ok(Control::CompoundStep(CompoundStep::Round(place, shell.state.env.status, left)))
            } else {
                Ok(Control::Leave(Flow::Continues(n - 1)))
            }
        }
        Flow::Returns => Ok(Control::Leave(Flow::Returns)),
        Flow::Exits => Ok(Control::Leave(Flow::Exits)),
    }
}

// After a command at which `set -e` looks.
fn leave_watch(place: Place, flow: Flow, state: &State) -> Control
    ensures talk { (k : Next) → Goes (continued (continuations.Watch place) k flow (shell_of state.now)) k (shell_of state.now) result }
    ensures weight { weigh result ≡ 0 }
{
    match flow {
        Flow::Normal => {
            if state.errexit && (!place.ignores && state.env.status != 0) {
                Control::Leave(Flow::Exits)
            } else {
                Control::Leave(Flow::Normal)
            }
        }
        Flow::Breaks(n) => Control::Leave(Flow::Breaks(n)),
        Flow::Continues(n) => Control::Leave(Flow::Continues(n)),
        Flow::Returns => Control::Leave(Flow::Returns),
        Flow::Exits => Control::Leave(Flow::Exits),
    }
}

// After a pipeline with `!`.
fn leave_invert(flow: Flow, state: &mut State) -> Control
    ensures talk { (k : Next) → Goes (continued continuations.Invert k flow (shell_of state.old)) k (shell_of state.new) result }
    ensures weight { weigh result ≡ 0 }
{
    match flow {
        Flow::Normal => {
            state.env.status = if state.env.status == 0 { 1 } else { 0 };
            Control::Leave(Flow::Normal)
        }
        Flow::Breaks(n) => Control::Leave(Flow::Breaks(n)),
        Flow::Continues(n) => Control::Leave(Flow::Continues(n)),
        Flow::Returns => Control::Leave(Flow::Returns),
        Flow::Exits => Control::Leave(Flow::Exits),
    }
}

/// After a command, what is left to do after it.
pub fn leave_continuation(
    frame: Continuation,
    flow: Flow,
    shell: &mut Interpreter,
) -> Result<Control, NoMemory>
    ensures talk { IfOk result (Goes (continued frame (context shell.old.stack.items) flow (shell_of shell.old.state)) (context shell.new.stack.items) (shell_of shell.new.state)) }
    ensures weight { IfOk result (λ c. weigh c + weigh_all shell.new.stack.items < weigh_continuation frame + weigh_all shell.old.stack.items) }
{
    match frame {
        Continuation::Rest(place, list, at) => Ok(leave_rest(place, list, at, flow)),
        Continuation::Links(place, left) => {
            let control = leave_links(place, left, flow, shell)?;
            Ok(control)
        }
        Continuation::Stage(place, list, at, read_end, status, saved) => {
            shell.state.come_back(saved);
            shell.state.env.status = status;
            Ok(Control::CompoundStep(CompoundStep::Stages(place, list, at, Some(read_end))))
        }
        Continuation::Watch(place) => Ok(leave_watch(place, flow, &shell.state)),
        Continuation::Invert => Ok(leave_invert(flow, &mut shell.state)),
        Continuation::Condition(place, last, left) => {
            let control = leave_condition(place, last, left, flow, shell)?;
            Ok(control)
        }
        Continuation::Body(place, left) => Ok(leave_body(place, left, flow, &shell.state)),
        Continuation::Each(place, each) => Ok(leave_each(place, each, flow)),
        Continuation::Choose(place, body, left) => Ok(leave_choose(
            place,
            body,
            left,
            flow,
            &shell.state,
        )),
    }
}

// After a function or a dot script.
fn returned(flow: Flow) -> Control
    ensures talk { (k : Next) (e : Shell) → Goes (returned k flow e) k e result }
    ensures weight { weigh result ≡ 0 }
{
    match flow {
        Flow::Normal => Control::Leave(Flow::Normal),
        Flow::Breaks(n) => Control::Leave(Flow::Breaks(n)),
        Flow::Continues(n) => Control::Leave(Flow::Continues(n)),
        Flow::Returns => Control::Leave(Flow::Normal),
        Flow::Exits => Control::Leave(Flow::Exits),
    }
}

/// After a command, what is undone.
pub fn leave_undo(frame: Undo, flow: Flow, state: &mut State) -> Result<Control, NoMemory>
    ensures talk { IfOk result (λ c. (k : Next) → Goes (undone frame k flow (shell_of state.old)) k (shell_of state.new) c) }
    ensures weight { IfOk result (λ c. weigh c < weigh_undo frame) }
{
    match frame {
        Undo::Redirected(redirects, before) => {
            put_back(&redirects, &before, &mut state.descriptors)?;
            Ok(Control::Leave(flow))
        }
        Undo::Assigned(assignments, before) => {
            put_back_variables(&assignments, &before, &mut state.env.vars)?;
            Ok(Control::Leave(flow))
        }
        Undo::Function(positional) => {
            state.env.vars.set_positional(positional);
            Ok(returned(flow))
        }
        Undo::Script => Ok(returned(flow)),
        Undo::Subshell(saved) => {
            state.come_back(saved);
            Ok(Control::Leave(Flow::Normal))
        }
        Undo::Substitution(wording, saved) => {
            state.come_back(saved);
            Ok(Control::WordStep(WordStep::Expand(wording)))
        }
    }
}

// Redirections, one after another, and what they are made for.
ghost use Rattle.std.specs.Prelude.{◌≡◌, ◌≤◌, ◌<◌, ℕ, ◌+◌, IfOk, OnOk, true};
ghost use Rattle.rk_calls.specs.Talk.{pay};
ghost use Rattle.rk_calls.specs.Turns.{turns};
ghost use Rattle.sh_expand.specs.declared.mode.Expanded.TheVariants.{Value};
ghost use Rattle.sh_means.specs.declared.control.Aim.TheVariants as aims;
ghost use Rattle.sh_means.specs.State.{Shell};
ghost use Rattle.sh_redirect.specs.Redirects.{After};
ghost use Rattle.sh_redirect.specs.Stages.{IsAsking, after, redirecting_does};
ghost use Rattle.sh_means.specs.Flows.{Next};
ghost use Rattle.sh_words.specs.Making.{made_flow};
ghost use Rattle.sh_means.specs.Simple.{unless_kept, for_its_time};
ghost use Rattle.sh_means.specs.Stack.{Steps, Goes, aimed, context, making, made_go, when_made, when_refused, redirecting, redirects_from, assigns_from};
ghost use Rattle.sh_means.specs.declared.control.Made.TheVariants as mades;
ghost use Rattle.sh_means.specs.Views.{shell_of};
ghost use Rattle.sh_means.specs.Weights.{Lowers, Sinks, weigh, weigh_all, weigh_made, weigh_redirects};
ghost use Rattle.sh_means.specs.Words.{named, names, redirect_kind, unredirected};

use crate::literal::value;
use rk_base::{Bytes, NoMemory};
use rk_calls::{Answer, Turn, turns};
use sh_ast::{Assignments, RedirectOperator, Redirects};
use sh_expand::Mode;
use sh_means::control::{
    Acted, Aim, CompoundStep, Continuation, Control, Frame, Made, PendingAssignments,
    PendingOperand, PendingRedirects, Undo, Wait, WordStep,
};
use sh_means::expanding::act_expand;
use sh_means::expansion::pending;
use sh_means::flow::{Flow, Place};
use sh_means::interpreter::Interpreter;
use sh_means::resolved_command::ResolvedCommand;
use sh_means::stack::{put_continuation, put_undo};
use sh_means::steps::{end, free};
use sh_redirect::{DescriptorTable, Redirect, Redirecting};
use sh_vars::{Env, Vars};
use std::alloc::Global;
use std::rc::Rc;

// The map is put back, where there are redirections.
fn put_map_back_later(
    redirects: Rc<Redirects>,
    before: Rc<DescriptorTable>,
    stack: &mut Vec<Frame>,
) -> Result<(), NoMemory>
    ensures talk { OnOk result (context stack.new.items ≡ unredirected (named (redirects_from redirects.value 0)) before.value (context stack.old.items)) }
    ensures weight { OnOk result (weigh_all stack.new.items ≤ weigh_all stack.old.items + 1) }
{
    match redirects.get(0) {
        None => Ok(()),
        Some(_) => { put_undo(stack, Undo::Redirected(redirects, before)) }
    }
}

// The map is put back, unless the redirections stay.
fn unless_kept(
    keeps: bool,
    redirects: Rc<Redirects>,
    before: Rc<DescriptorTable>,
    stack: &mut Vec<Frame>,
) -> Result<(), NoMemory>
    ensures talk { OnOk result (context stack.new.items ≡ unless_kept keeps (named (redirects_from redirects.value 0)) before.value (context stack.old.items)) }
    ensures weight { OnOk result (weigh_all stack.new.items ≤ weigh_all stack.old.items + 1) }
{
    if keeps {
        return Ok(());
    }
    put_map_back_later(redirects, before, stack)?;
    Ok(())
}

// The variables are put back, where there are assignments.
fn put_back_later(
    assignments: &Rc<Assignments>,
    vars: &Vars,
    stack: &mut Vec<Frame>,
) -> Result<(), NoMemory>
    ensures talk { OnOk result (context stack.new.items ≡ for_its_time true (names (assigns_from assignments.now.value 0)) vars.now (context stack.old.items)) }
    ensures weight { OnOk result (weigh_all stack.new.items ≤ weigh_all stack.old.items + 1) }
{
    match assignments.get(0) {
        None => Ok(()),
        Some(_) => {
            let assignments = assignments.clone()?;
            let before = vars.save()?;
            put_undo(stack, Undo::Assigned(assignments, before))?;
            Ok(())
        }
    }
}

// The variables are put back, where the assignments hold for a time.
fn for_its_time(
    plain: bool,
    assignments: &Rc<Assignments>,
    vars: &Vars,
    stack: &mut Vec<Frame>,
) -> Result<(), NoMemory>
    ensures talk { OnOk result (context stack.new.items ≡ for_its_time plain (names (assigns_from assignments.now.value 0)) vars.now (context stack.old.items)) }
    ensures weight { OnOk result (weigh_all stack.new.items ≤ weigh_all stack.old.items + 1) }
{
    if plain {
        put_back_later(assignments, vars, stack)?;
        return Ok(());
    }
    Ok(())
}

// The redirections that were made, and the map before them.
#[derive(Drop)]
struct Redirected {
    redirects: Rc<Redirects>,
    before: Rc<DescriptorTable>,
}

// A simple command whose redirections were made.
fn made_simple(
    place: Place,
    redirected: Redirected,
    assignments: Rc<Assignments>,
    resolved: Box<ResolvedCommand>,
    shell: &mut Interpreter,
) -> Result<Control, NoMemory>
    ensures talk { IfOk result (Goes (made_go (mades.Simple assignments resolved) (named (redirects_from redirected.redirects.value 0)) redirected.before.value place (context shell.old.stack.items) (shell_of shell.old.state)) (context shell.new.stack.items) (shell_of shell.new.state)) }
    ensures weight { IfOk result (λ c. weigh c + weigh_all shell.new.stack.items < weigh_made (mades.Simple assignments resolved) + weigh_all shell.old.stack.items) }
{
    let Redirected { redirects, before } = redirected;
    let plain = resolved.kind.is_plain();
    let exported = resolved.kind.exports();
    let keeps = resolved.kind.keeps();
    put_continuation(&mut shell.stack, Continuation::Watch(place))?;
    unless_kept(keeps, redirects, before, &mut shell.stack)?;
    for_its_time(plain, &assignments, &shell.state.env.vars, &mut shell.stack)?;
    Ok(Control::WordStep(WordStep::Assign(
        place,
        PendingAssignments {
            assignments,
            at: 0,
            exported,
            resolved,
        },
    )))
}

// All redirections were made.
fn all_made(
    place: Place,
    left: PendingRedirects,
    shell: &mut Interpreter,
) -> Result<Control, NoMemory>
    ensures talk { IfOk result (Goes (when_made left place (context shell.old.stack.items) (shell_of shell.old.state)) (context shell.new.stack.items) (shell_of shell.new.state)) }
    ensures weight { IfOk result (λ c. weigh c + weigh_all shell.new.stack.items < weigh_made left.made + weigh_all shell.old.stack.items) }
{
    let PendingRedirects {
        redirects,
        at: _,
        before,
        made,
    } = left;
    match made {
        Made::Simple(assignments, resolved) => {
            let redirected = Redirected { redirects, before };
            let control = made_simple(place, redirected, assignments, resolved, shell)?;
            Ok(control)
        }
        Made::Compound(body) => {
            put_map_back_later(redirects, before, &mut shell.stack)?;
            Ok(Control::CompoundStep(CompoundStep::Compound(place, body)))
        }
    }
}

fn kind_of(operator: RedirectOperator) -> Redirect
    ensures { result ≡ redirect_kind operator }
{
    match operator {
        RedirectOperator::Input => Redirect::Reads,
        RedirectOperator::Output => Redirect::Makes,
        RedirectOperator::Append => Redirect::Appends,
        RedirectOperator::Duplicate => Redirect::Copies,
        RedirectOperator::HereDocument => Redirect::Here,
    }
}

/// The operand of a redirection was expanded.
pub(crate) fn redirect(
    alloc: Global,
    place: Place,
    operand: PendingOperand,
    text: Bytes,
) -> Result<Control, NoMemory>
    ensures talk { IfOk result (λ c. (k : Next) (e : Shell) → Goes (aimed (aims.Operand operand) place k (Value text) e) k e c) }
    ensures weight { IfOk result (λ c. weigh c ≤ weigh_redirects operand.left + 3) }
{
    let PendingOperand {
        left,
        descriptor,
        kind,
    } = operand;
    let started = Redirecting::start(alloc, kind, descriptor, text);
    let redirecting = Box::new(alloc, started)?;
    Ok(Control::Waits(Wait::Redirects(place, left, redirecting)))
}

// A redirection whose operand is this text, whatever the state is.
fn redirect_literal(
    alloc: Global,
    place: Place,
    operand: PendingOperand,
    text: &Bytes,
) -> Result<Acted, NoMemory>
    ensures talk { IfOk result (λ t. (k : Next) (e : Shell) → Steps (pay (turns text.now) (aimed (aims.Operand operand) place k (Value text.now) e)) k e t) }
    ensures costly { IfOk result (Sinks (weigh_redirects operand.left + 4)) }
{
    let cost = turns(text.as_slice());
    let text = text.copy()?;
    let control = redirect(alloc, place, operand, text)?;
    Ok(Acted {
        turn: Turn::More(cost),
        control,
    })
}

/// The next of the redirections, or what they were made for. Where its operand is one text whatever the state is, no
/// expansion begins.
pub fn next_redirect(
    place: Place,
    left: PendingRedirects,
    shell: &mut Interpreter,
) -> Result<Acted, NoMemory>
    ensures talk { IfOk result (Steps (making left place (context shell.old.stack.items) (shell_of shell.old.state)) (context shell.new.stack.items) (shell_of shell.new.state)) }
    ensures costly { IfOk result (Lowers (weigh_redirects left) shell.old.stack.items shell.new.stack.items) }
{
    let redirects = left.redirects.clone()?;
    match redirects.get(left.at) {
        Some(r) => {
            let mut left = left;
            left.at += 1;
            let kind = kind_of(r.operator);
            let operand = PendingOperand {
                left,
                descriptor: r.descriptor,
                kind,
            };
            if let Some(text) = value(&r.operand) {
                return redirect_literal(shell.alloc, place, operand, text);
            }
            let word = r.operand.clone()?;
            let aim = Aim::Operand(operand);
            let wording = pending(shell.alloc, word, Mode::Value, place, aim)?;
            act_expand(wording, Answer::Go, shell)
        }
        None => {
            let control = all_made(place, left, shell)?;
            Ok(free(control))
        }
    }
}

fn refusal_flow(made: &Made) -> Flow
    ensures { result ≡ made_flow made.now }
{
    match made {
        Made::Simple(_, resolved) => resolved.kind.refusal_flow(),
        Made::Compound(_) => Flow::Normal,
    }
}

// A redirection was refused, which was told.
fn refused(place: Place, left: PendingRedirects, shell: &mut Interpreter) -> Result<Acted, NoMemory>
    ensures talk { IfOk result (Steps (when_refused left place (context shell.old.stack.items) (shell_of shell.old.state)) (context shell.new.stack.items) (shell_of shell.new.state)) }
    ensures costly { IfOk result (Lowers 3 shell.old.stack.items shell.new.stack.items) }
{
    let flow = refusal_flow(&left.made);
    let PendingRedirects {
        redirects,
        at: _,
        before,
        made: _,
    } = left;
    put_continuation(&mut shell.stack, Continuation::Watch(place))?;
    put_undo(&mut shell.stack, Undo::Redirected(redirects, before))?;
    Ok(end(flow, 1, &mut shell.state))
}

// A redirection's next turn. A map that other states share is copied first.
fn next_turn(
    r: &mut Redirecting,
    map: &mut Rc<DescriptorTable>,
    env: &Env,
    answer: Answer,
) -> Result<sh_redirect::Turn, NoMemory>
    ensures costly { IfOk result IsAsking }
    ensures does { IfOk result (λ t. (k : After) (p : ℕ) → redirecting_does r.old answer k map.old.value env.now p ≡ after t (redirecting_does r.new) k map.new.value env.now p) }
{
    let own = Rc::make_mut(map)?;
    let turn = r.resume(own, env, answer)?;
    Ok(turn)
}

/// A redirection goes on with the answer that was heard.
pub fn resume_redirection(
    place: Place,
    left: PendingRedirects,
    r: Box<Redirecting>,
    answer: Answer,
    shell: &mut Interpreter,
) -> Result<Acted, NoMemory>
    ensures talk { IfOk result (Steps (redirecting left place (context shell.old.stack.items) r.value answer (shell_of shell.old.state)) (context shell.new.stack.items) (shell_of shell.new.state)) }
    ensures costly { IfOk result (Lowers (weigh_redirects left + 3) shell.old.stack.items shell.new.stack.items) }
{
    let mut r = r;
    let turn = next_turn(
        &mut r,
        &mut shell.state.descriptors,
        &shell.state.env,
        answer,
    )?;
    match turn {
        sh_redirect::Turn::Ask(call, cost) => Ok(Acted {
            turn: Turn::Ask(call, cost),
            control: Control::Waits(Wait::Redirects(place, left, r)),
        }),
        sh_redirect::Turn::Made => Ok(free(Control::WordStep(WordStep::Make(place, left)))),
        sh_redirect::Turn::Refused => {
            let acted = refused(place, left, shell)?;
            Ok(acted)
        }
    }
}

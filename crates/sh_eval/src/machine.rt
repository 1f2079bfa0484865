// The machine that evaluates commands.
ghost use Rattle.std.specs.Prelude.{◌≡◌, ◌↔◌, ℕ, IsTrue, IfOk};
ghost use Rattle.sh_expand.specs.Told.{numbered};
ghost use Rattle.sh_means.specs.Eval.{over};
ghost use Rattle.sh_eval.specs.Machine.{steps_on, evaluator_says, Sheds};
ghost use Rattle.sh_means.specs.Stack.{Steps, context, resumed_compound, resumed_simple, waiting, resumed};
ghost use Rattle.sh_means.specs.State.{heard};
ghost use Rattle.sh_means.specs.Views.{shell_of};
ghost use Rattle.sh_means.specs.Weights.{IsFree, Lowers, weigh, weigh_compound_step, weigh_simple_step, weigh_wait};
ghost use Rattle.rk_calls.specs.Costly.{IsCostly};
ghost use Rattle.rk_calls.specs.Talk.{after};

use crate::begins::act_begin;
use crate::reading::{act_text, dot_opened, dot_read};
use rk_base::NoMemory;
use rk_calls::{Answer, Turn, joined};
use sh_compound::commands::{act_one, act_redirected, act_run, act_whole};
use sh_compound::compounds::{
    act_case_at, act_compound, act_each, act_gives, act_if, act_round, act_stage, act_stages,
};
use sh_compound::leaving::{leave_continuation, leave_undo};
use sh_means::control::{Acted, CompoundStep, Control, Frame, Wait, WordStep};
use sh_means::expanding::act_expand;
use sh_means::flow::Flow;
use sh_means::interpreter::Interpreter;
use sh_means::stack::pop;
use sh_means::state::State;
use sh_means::steps::{end, free, refuse};
use sh_simple::assigning::next_assign;
use sh_simple::launching::resume_builtin;
use sh_vars::number_after;
use sh_words::making::{next_redirect, resume_redirection};
use sh_words::words::{deliver, next_word};
use std::alloc::Global;
use std::mem;

/// A shell that evaluates a script: its state, what comes next, and the control stack of what is left to do.
#[derive(Drop)]
pub struct Evaluator {
    shell: Interpreter,
    control: Control,
}

fn act_compound_step(step: CompoundStep, shell: &mut Interpreter) -> Result<Acted, NoMemory>
    ensures talk { IfOk result (Steps (resumed_compound step (context shell.old.stack.items) (shell_of shell.old.state)) (context shell.new.stack.items) (shell_of shell.new.state)) }
    ensures costly { IfOk result (Lowers (weigh_compound_step step) shell.old.stack.items shell.new.stack.items) }
{
    match step {
        CompoundStep::Compound(place, body) => {
            let control = act_compound(place, &body, shell)?;
            Ok(free(control))
        }
        CompoundStep::Called(place, callee) => {
            act_redirected(place, &callee.body, &callee.redirects, &shell.state)
        }
        CompoundStep::If(place, left) => {
            let control = act_if(place, left, &mut shell.stack)?;
            Ok(free(control))
        }
        CompoundStep::Round(place, last, left) => act_round(place, last, left, &mut shell.stack),
        CompoundStep::Each(place, each) => { Ok(act_each(place, each)) }
        CompoundStep::Gives(place, each) => act_gives(place, each, shell),
        CompoundStep::Case(place, casing) => act_case_at(
            shell.alloc,
            place,
            casing,
            &mut shell.state,
        ),
        CompoundStep::Stages(place, list, at, input) => act_stages(place, list, at, input, shell),
    }
}

fn act_simple_step(
    step: WordStep,
    answer: Answer,
    shell: &mut Interpreter,
) -> Result<Acted, NoMemory>
    ensures talk { IfOk result (Steps (resumed_simple step (context shell.old.stack.items) answer (shell_of shell.old.state)) (context shell.new.stack.items) (shell_of shell.new.state)) }
    ensures costly { IfOk result (Lowers (weigh_simple_step step) shell.old.stack.items shell.new.stack.items) }
{
    match step {
        WordStep::Words(place, left) => next_word(place, left, shell),
        WordStep::Expand(wording) => act_expand(wording, answer, shell),
        WordStep::Deliver(wording, expanded) => deliver(wording, expanded, shell),
        WordStep::Make(place, left) => next_redirect(place, left, shell),
        WordStep::Assign(place, left) => next_assign(place, left, shell),
        WordStep::Text(place, name, text) => act_text(
            shell.alloc,
            place,
            &name,
            &text,
            &mut shell.state,
        ),
    }
}

fn act_wait(wait: Wait, answer: Answer, shell: &mut Interpreter) -> Result<Acted, NoMemory>
    ensures talk { IfOk result (Steps (waiting wait (context shell.old.stack.items) answer (shell_of shell.old.state)) (context shell.new.stack.items) (shell_of shell.new.state)) }
    ensures costly { IfOk result (Lowers (weigh_wait wait) shell.old.stack.items shell.new.stack.items) }
{
    match wait {
        Wait::Told(flow, status) => Ok(end(flow, status, &mut shell.state)),
        Wait::Launched(flow) => Ok(end(flow, joined(answer), &mut shell.state)),
        Wait::Stage(place, stage) => {
            let control = act_stage(place, stage, shell)?;
            Ok(free(control))
        }
        Wait::Opened(place, file, n) => dot_opened(
            shell.alloc,
            place,
            file,
            n,
            answer,
            &mut shell.state,
        ),
        Wait::Read(place, file) => dot_read(place, file, answer, shell),
        Wait::Redirects(place, left, redirecting) => resume_redirection(
            place,
            left,
            redirecting,
            answer,
            shell,
        ),
        Wait::Fails(parameter, message) => refuse(
            shell.alloc,
            parameter.as_slice(),
            message.as_slice(),
            Flow::Exits,
            1,
            &mut shell.state,
        ),
        Wait::Builtin(builtin) => resume_builtin(builtin, answer, &mut shell.state),
    }
}

// After a command; with nothing left to do the shell exits with its last status.
fn act_leave(flow: Flow, shell: &mut Interpreter) -> Result<Acted, NoMemory>
    ensures talk { IfOk result (Steps ((context shell.old.stack.items) flow (shell_of shell.old.state)) (context shell.new.stack.items) (shell_of shell.new.state)) }
    ensures costly { IfOk result (Lowers 0 shell.old.stack.items shell.new.stack.items) }
{
    match pop(&mut shell.stack) {
        None => Ok(Acted {
            turn: Turn::Exit(shell.state.env.status, 0),
            control: Control::Leave(flow),
        }),
        Some(Frame::Continuation(frame)) => {
            let control = leave_continuation(frame, flow, shell)?;
            Ok(free(control))
        }
        Some(Frame::Undo(frame)) => {
            let control = leave_undo(frame, flow, &mut shell.state)?;
            Ok(free(control))
        }
    }
}

// One step, with the answer that was heard.
fn act(control: Control, answer: Answer, shell: &mut Interpreter) -> Result<Acted, NoMemory>
    ensures talk { IfOk result (Steps (resumed control (context shell.old.stack.items) answer (shell_of shell.old.state)) (context shell.new.stack.items) (shell_of shell.new.state)) }
    ensures costly { IfOk result (Lowers (weigh control) shell.old.stack.items shell.new.stack.items) }
{
    match control {
        Control::Begins(begin) => act_begin(shell.alloc, begin, answer, &mut shell.state),
        Control::Run(place, list, at) => act_run(place, list, at, shell),
        Control::Whole(place, list) => act_whole(place, list, shell),
        Control::One(place, list, at) => act_one(place, &list, at, shell),
        Control::CompoundStep(step) => act_compound_step(step, shell),
        Control::WordStep(step) => act_simple_step(step, answer, shell),
        Control::Waits(wait) => act_wait(wait, answer, shell),
        Control::Leave(flow) => act_leave(flow, shell),
    }
}

// The next local number after an answer.
fn numbered(answer: &Answer, n: u64) -> u64
    ensures { result ≡ numbered answer.now n }
{
    match answer {
        Answer::Opened => number_after(n),
        Answer::Piped => number_after(number_after(n)),
        Answer::Go => n,
        Answer::Done => n,
        Answer::Content(_) => n,
        Answer::Stat { .. } => n,
        Answer::Names(_) => n,
        Answer::Text(_) => n,
        Answer::Place(_) => n,
        Answer::Same(_) => n,
        Answer::Joined(_) => n,
        Answer::No(_) => n,
    }
}

// Counts the local numbers that an answer gives.
fn hear(answer: &Answer, state: &mut State)
    ensures { shell_of state.new ≡ heard answer.now (shell_of state.old) }
{
    state.env.next = numbered(answer, state.env.next);
}

fn is_free(turn: &Turn) -> bool
    ensures { IsTrue result ↔ IsFree turn.now }
{
    match turn {
        Turn::More(cost) => *cost == 0,
        Turn::Ask(_, _) => false,
        Turn::Exit(_, _) => false,
    }
}

// What comes next is taken, and something else stands there until it is put back.
fn take(control: &mut Control) -> Control
    ensures { result ≡ control.old }
{
    mem::replace(control, Control::Leave(Flow::Exits))
}

fn put(control: &mut Control, next: Control)
    ensures { control.new ≡ next }
{
    drop(mem::replace(control, next));
}

impl Evaluator {
    /// A shell in a state that goes on so, with nothing else left to do.
    pub(crate) fn start(alloc: Global, state: State, control: Control) -> Evaluator
        ensures { evaluator_says result Answer.Go ≡ resumed control over Answer.Go (shell_of state) }
    {
        let shell = Interpreter {
            alloc,
            stack: Vec::new(alloc),
            state,
        };
        Evaluator { shell, control }
    }

    fn step(&mut self, answer: Answer) -> Result<Turn, NoMemory>
        ensures talk { IfOk result (λ t. (p : ℕ) → steps_on self.old answer p ≡ after t (evaluator_says self.new) p) }
        ensures costly { IfOk result (λ t. Sheds self.old t self.new) }
    {
        let control = take(&mut self.control);
        let Acted { turn, control } = act(control, answer, &mut self.shell)?;
        put(&mut self.control, control);
        Ok(turn)
    }

    /// Its next turn. Each step that costs nothing leaves less to do without cost, so that a turn comes.
    pub fn resume(&mut self, answer: Answer) -> Result<Turn, NoMemory>
        ensures costly { IfOk result IsCostly }
        ensures talk { IfOk result (λ t. (p : ℕ) → evaluator_says self.old answer p ≡ after t (evaluator_says self.new) p) }
    {
        hear(&answer, &mut self.shell.state);
        let mut answer = answer;
        'free: loop {
            let turn = self.step(answer)?;
            if is_free(&turn) {
                answer = Answer::Go;
            } else {
                return Ok(turn);
            }
        }
    }
}

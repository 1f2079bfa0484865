// What special builtins do (XCU 2.14).
ghost use Rattle.std.specs.Prelude.{◌≡◌, IfOk, codes, true};
ghost use Rattle.sh_means.specs.Flows.{Next, break_of, continue_of, return_flow};
ghost use Rattle.sh_means.specs.Launchable.{names_command};
ghost use Rattle.sh_means.specs.Run.{run};
ghost use Rattle.sh_means.specs.Simple.{or_last, errs, unless_barred, sets, shifts, dots, obeys};
ghost use Rattle.sh_means.specs.Stack.{Steps};
ghost use Rattle.sh_means.specs.Views.{shell_of};
ghost use Rattle.sh_means.specs.Weights.{Pays, Sinks};

use crate::launching::launch;
use rk_base::{Bytes, NoMemory, WordList};
use rk_calls::{Call, How, Turn, absolute};
use sh_means::control::{Acted, Control, Wait, WordStep};
use sh_means::flow::{Flow, Place};
use sh_means::state::State;
use sh_means::steps::{end, free, refuse, tell};
use sh_special::{Options, Order, declare_all, set_options, shift, unset_all};
use std::alloc::Global;

// The flow of a break of n loops where there are so many.
fn break_flow(n: u64, loops: u64) -> Flow
    ensures { result ≡ break_of n loops }
{
    if loops == 0 {
        Flow::Normal
    } else {
        Flow::Breaks(n.saturating_sub(1).min(loops - 1))
    }
}

fn continue_flow(n: u64, loops: u64) -> Flow
    ensures { result ≡ continue_of n loops }
{
    if loops == 0 {
        Flow::Normal
    } else {
        Flow::Continues(n.saturating_sub(1).min(loops - 1))
    }
}

fn or_last(n: Option<u8>, last: u8) -> u8
    ensures { result ≡ or_last n last }
{
    match n {
        None => last,
        Some(n) => n,
    }
}

fn return_flow(returns: bool) -> Flow
    ensures { result ≡ return_flow returns }
{
    if returns { Flow::Returns } else { Flow::Exits }
}

// An error of a special builtin ends the shell.
fn err(alloc: Global, operand: &[u8], what: &[u8], state: &mut State) -> Result<Acted, NoMemory>
    ensures talk { IfOk result (λ t. (k : Next) → Steps (errs operand.now what.now k (shell_of state.old)) k (shell_of state.new) t) }
    ensures costly { IfOk result (Sinks 1) }
{
    refuse(alloc, operand, what, Flow::Exits, 1, state)
}

// After variables were changed, up to a readonly one.
fn unless_barred(alloc: Global, barred: Option<Bytes>, state: &mut State) -> Result<Acted, NoMemory>
    ensures talk { IfOk result (λ t. (k : Next) → Steps (unless_barred barred k (shell_of state.old)) k (shell_of state.new) t) }
    ensures costly { IfOk result (Sinks 1) }
{
    match barred {
        None => Ok(end(Flow::Normal, 0, state)),
        Some(name) => {
            let acted = err(alloc, name.as_slice(), b"readonly", state)?;
            Ok(acted)
        }
    }
}

fn set(options: Options, words: Option<WordList>, state: &mut State)
    ensures { shell_of state.new ≡ sets options words (shell_of state.old) }
{
    set_options(options, &mut state.env);
    match options.errexit {
        None => {}
        Some(on) => state.errexit = on,
    }
    match words {
        None => {}
        Some(words) => state.env.vars.set_positional(words),
    }
}

fn shift_by(alloc: Global, n: u64, state: &mut State) -> Result<Acted, NoMemory>
    ensures talk { IfOk result (λ t. (k : Next) → Steps (shifts n k (shell_of state.old)) k (shell_of state.new) t) }
    ensures costly { IfOk result (Sinks 1) }
{
    if shift(&mut state.env.vars, n) {
        return Ok(end(Flow::Normal, 0, state));
    }
    let acted = err(alloc, b"shift", b"not valid", state)?;
    Ok(acted)
}

// A dot script is opened.
fn dot(alloc: Global, place: Place, file: Bytes, state: &State) -> Result<Acted, NoMemory>
    ensures talk { IfOk result (λ t. (k : Next) → Steps (dots run file place k (shell_of state.now)) k (shell_of state.now) t) }
    ensures costly { IfOk result Pays }
{
    let path = absolute(alloc, &state.env.wd, file.as_slice())?;
    Ok(Acted {
        turn: Turn::Ask(Call::Open(path, How::Read), 1),
        control: Control::Waits(Wait::Opened(place, file, state.env.next)),
    })
}

/// A special builtin does what it is told. What `exec` launches has a name.
pub(crate) fn obey(
    alloc: Global,
    order: Order,
    place: Place,
    state: &mut State,
) -> Result<Acted, NoMemory>
    requires { names_command order ≡ true }
    ensures talk { IfOk result (λ t. (k : Next) → Steps (obeys run order place k (shell_of state.old)) k (shell_of state.new) t) }
    ensures costly { IfOk result (Sinks 3) }
{
    match order {
        Order::Pass => Ok(end(Flow::Normal, 0, state)),
        Order::Break(n) => Ok(end(break_flow(n, place.loops), 0, state)),
        Order::Continue(n) => Ok(end(continue_flow(n, place.loops), 0, state)),
        Order::Return(n) => {
            let status = or_last(n, state.env.status);
            Ok(end(return_flow(place.returns), status, state))
        }
        Order::Exit(n) => {
            let status = or_last(n, state.env.status);
            Ok(end(Flow::Exits, status, state))
        }
        Order::Eval(text) => {
            let name = Bytes::from_slice(alloc, b"eval")?;
            Ok(free(Control::WordStep(WordStep::Text(place, name, text))))
        }
        Order::Dot(file) => dot(alloc, place, file, state),
        Order::Exec(words) => launch(alloc, words, Flow::Exits, state),
        Order::Keep => Ok(end(Flow::Normal, 0, state)),
        Order::Set(options, words) => {
            set(options, words, state);
            Ok(end(Flow::Normal, 0, state))
        }
        Order::Declare(readonly, declarations) => {
            let barred = declare_all(&mut state.env.vars, readonly, declarations.as_slice())?;
            let acted = unless_barred(alloc, barred, state)?;
            Ok(acted)
        }
        Order::Unset(names) => {
            let barred = unset_all(&mut state.env.vars, names.as_slice())?;
            let acted = unless_barred(alloc, barred, state)?;
            Ok(acted)
        }
        Order::Shift(n) => shift_by(alloc, n, state),
        Order::Usage(line) => Ok(tell(line, Flow::Exits, 2, state)),
    }
}

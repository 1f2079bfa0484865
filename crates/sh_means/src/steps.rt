// Steps without cost, payments, and ends.
ghost use Rattle.std.specs.Prelude.{ℕ, ◌+◌, ◌<◌, IfOk};
ghost use Rattle.rk_calls.specs.Lines.{error_line};
ghost use Rattle.rk_calls.specs.Talk.{pay};
ghost use Rattle.sh_means.specs.Flows.{Next, tells, ends, sh};
ghost use Rattle.sh_means.specs.Stack.{Steps, resumed};
ghost use Rattle.sh_means.specs.State.{Shell};
ghost use Rattle.sh_means.specs.Views.{shell_of};
ghost use Rattle.sh_means.specs.Weights.{Falls, Pays, Sinks, weigh};

use crate::control::{Acted, Control, Wait};
use crate::flow::Flow;
use crate::state::State;
use rk_base::{Bytes, NoMemory};
use rk_calls::{Answer, Call, Turn, error_line, turns};
use std::alloc::Global;

/// A turn without cost.
#[tactic(auto, using(crate::proofs::Stacks::pay_nothing))]
pub fn free(control: Control) -> Acted
    ensures talk { (k : Next) (e : Shell) → Steps (resumed control k Answer.Go e) k e result }
    ensures costly { (m n : ℕ) → weigh control + n < m → Falls m n result }
{
    Acted {
        turn: Turn::More(0),
        control,
    }
}

/// A payment of a turn, and what comes after it.
pub fn paid(control: Control) -> Acted
    ensures talk { (k : Next) (e : Shell) → Steps (pay 1 (resumed control k Answer.Go e)) k e result }
    ensures costly { Pays result }
{
    Acted {
        turn: Turn::More(1),
        control,
    }
}

/// It ends so, with this status.
pub fn end(flow: Flow, status: u8, state: &mut State) -> Acted
    ensures talk { (k : Next) → Steps (ends flow status k (shell_of state.old)) k (shell_of state.new) result }
    ensures costly { Sinks 1 result }
{
    state.env.status = status;
    free(Control::Leave(flow))
}

/// A line of error text goes to 2, and then it ends so.
pub fn tell(line: Bytes, flow: Flow, status: u8, state: &mut State) -> Acted
    ensures talk { (k : Next) → Steps (tells line (ends flow status k) (shell_of state.old)) k (shell_of state.new) result }
    ensures costly { Sinks 1 result }
{
    match state.descriptors.at(2) {
        None => end(flow, status, state),
        Some(n) => {
            let cost = 1 + turns(line.as_slice());
            Acted {
                turn: Turn::Ask(Call::Write(n, line), cost),
                control: Control::Waits(Wait::Told(flow, status)),
            }
        }
    }
}

/// `sh: OPERAND: WHAT`, and then it ends so.
pub fn refuse(
    alloc: Global,
    operand: &[u8],
    what: &[u8],
    flow: Flow,
    status: u8,
    state: &mut State,
) -> Result<Acted, NoMemory>
    ensures talk { IfOk result (λ t. (k : Next) → Steps (tells (error_line sh operand.now what.now) (ends flow status k) (shell_of state.old)) k (shell_of state.new) t) }
    ensures costly { IfOk result (Sinks 1) }
{
    let line = error_line(alloc, b"sh", operand, what)?;
    Ok(tell(line, flow, status, state))
}

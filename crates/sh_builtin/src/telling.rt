// Lines of error text, output, and the end of a builtin.
ghost use Rattle.std.specs.Prelude.{◌≡◌, ℕ, IfOk};
ghost use Rattle.rk_calls.specs.Brought.{brought};
ghost use Rattle.rk_calls.specs.Costly.{IsCostly};
ghost use Rattle.sh_vars.specs.declared.env.Env.{Env};
ghost use Rattle.sh_builtin.specs.Action.{ends};
ghost use Rattle.sh_builtin.specs.Refused.{IsFewer, IsLast};
ghost use Rattle.sh_builtin.specs.Stages.{IsDoneBy};
ghost use Rattle.sh_builtin.specs.Telling.{usage_line, tells, complains, written, puts};

use crate::name::Name;
use crate::stage::{Move, Stage};
use rk_base::{Bytes, NoMemory};
use rk_calls::{Answer, Call, Turn, brought, error_line, turns};
use std::alloc::Global;

/// It is over.
#[tactic(auto, using(crate::proofs::Ending::over))]
pub(crate) fn over(status: u8) -> Move
    ensures does { (env : Env) → IsDoneBy (ends status) env result env }
    ensures costly { IsCostly result.turn }
    ensures exits { (n m : ℕ) → IsFewer n result.turn m }
    ensures last { IsLast result }
{
    Move {
        turn: Turn::Exit(status, 0),
        stage: Stage::Over(status),
    }
}

/// A line on 2, and then it is over.
pub(crate) fn tell(line: Bytes, status: u8) -> Move
    ensures does { (env : Env) → IsDoneBy (tells line status) env result env }
    ensures costly { IsCostly result.turn }
    ensures last { IsLast result }
{
    let cost = 1 + turns(line.as_slice());
    Move {
        turn: Turn::Ask(Call::Write(2, line), cost),
        stage: Stage::Over(status),
    }
}

/// A line on an operand.
pub(crate) fn complain(
    alloc: Global,
    name: Name,
    operand: &[u8],
    what: &[u8],
    status: u8,
) -> Result<Move, NoMemory>
    ensures does { IfOk result (λ move. (env : Env) → IsDoneBy (complains name operand.now what.now status) env move env) }
    ensures costly { IfOk result (λ move. IsCostly move.turn) }
    ensures last { IfOk result IsLast }
{
    let line = error_line(alloc, name.text().as_bytes(), operand, what)?;
    Ok(tell(line, status))
}

#[tactic(auto, unfolding(crate::specs::Telling::usage_line))]
fn usage_line(alloc: Global, name: &[u8]) -> Result<Bytes, NoMemory>
    ensures { IfOk result (λ line. line ≡ usage_line name.now) }
{
    let mut line = Vec::from_slice(alloc, name)?;
    line.extend_from_slice(b": usage\n")?;
    let line = Bytes::new(alloc, line)?;
    Ok(line)
}

/// `NAME: usage`.
pub(crate) fn misuse(alloc: Global, name: &[u8], status: u8) -> Result<Move, NoMemory>
    ensures does { IfOk result (λ move. (env : Env) → IsDoneBy (tells (usage_line name.now) status) env move env) }
    ensures costly { IfOk result (λ move. IsCostly move.turn) }
{
    let line = usage_line(alloc, name)?;
    Ok(tell(line, status))
}

/// After its output was written, or refused.
pub(crate) fn written(
    alloc: Global,
    name: Name,
    status: u8,
    answer: Answer,
) -> Result<Move, NoMemory>
    ensures does { IfOk result (λ move. (env : Env) → IsDoneBy (written name status (brought answer)) env move env) }
    ensures costly { IfOk result (λ move. IsCostly move.turn) }
    ensures last { IfOk result IsLast }
{
    match brought(alloc, answer)? {
        Ok(_) => Ok(over(status)),
        Err(errno) => complain(alloc, name, b"output", errno.word().as_bytes(), 1),
    }
}

/// Its output, where there is any.
pub(crate) fn put(name: Name, output: Bytes, status: u8) -> Move
    ensures does { (env : Env) → IsDoneBy (puts name output status) env result env }
    ensures costly { IsCostly result.turn }
{
    if output.is_empty() {
        return over(status);
    }
    let cost = 1 + turns(output.as_slice());
    Move {
        turn: Turn::Ask(Call::Write(1, output), cost),
        stage: Stage::Writing(name, status),
    }
}

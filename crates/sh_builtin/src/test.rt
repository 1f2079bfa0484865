// `test` and `[`.
ghost use Rattle.std.specs.Prelude.{◌≡◌, IfOk, codes, option_copied};
ghost use Rattle.rk_calls.specs.Costly.{IsCostly};
ghost use Rattle.sh_vars.specs.declared.env.Env.{Env};
ghost use Rattle.sh_builtin.specs.declared.name.Name.TheVariants.{Test as TestName};
ghost use Rattle.sh_builtin.specs.Action.{ends};
ghost use Rattle.sh_builtin.specs.Refused.{IsLast};
ghost use Rattle.sh_builtin.specs.Stages.{IsDoneBy};
ghost use Rattle.sh_builtin.specs.Telling.{complains};
ghost use Rattle.sh_builtin.specs.Tests.{holds, status_of, inverted_if, judges, tests, is_closing, brackets};

use crate::name::Name;
use crate::stage::{Move, Stage};
use crate::telling::{complain, over};
use rk_base::{Bytes, NoMemory};
use rk_calls::{Answer, Call, Turn, absolute};
use sh_operands::{Primary, Verdict, decides, follows, holds_of};
use sh_vars::Env;
use std::alloc::Global;

fn status_of(b: bool) -> u8
    ensures { result ≡ status_of b }
{
    if b { 0 } else { 1 }
}

fn inverted_if(negated: bool, b: bool) -> bool
    ensures { result ≡ inverted_if negated b }
{
    if negated { !b } else { b }
}

fn holds(primary: Primary, answer: Answer) -> bool
    ensures { result ≡ holds primary answer }
{
    match answer {
        Answer::Stat { kind, mode, empty } => holds_of(primary, kind, mode, empty),
        Answer::Go => false,
        Answer::Done => false,
        Answer::Opened => false,
        Answer::Piped => false,
        Answer::Content(_) => false,
        Answer::Names(_) => false,
        Answer::Text(_) => false,
        Answer::Place(_) => false,
        Answer::Same(_) => false,
        Answer::Joined(_) => false,
        Answer::No(_) => false,
    }
}

/// Once it is known what stands there.
pub(crate) fn judged(primary: Primary, negated: bool, answer: Answer) -> Move
    ensures does { (env : Env) → IsDoneBy (ends (status_of (inverted_if negated (holds primary answer)))) env result env }
    ensures costly { IsCostly result.turn }
    ensures last { IsLast result }
{
    let holds = inverted_if(negated, holds(primary, answer));
    over(status_of(holds))
}

fn judge(alloc: Global, verdict: Verdict, env: &Env) -> Result<Move, NoMemory>
    ensures does { IfOk result (λ move. IsDoneBy (judges verdict) env.now move env.now) }
    ensures costly { IfOk result (λ move. IsCostly move.turn) }
{
    match verdict {
        Verdict::Holds(b) => Ok(over(status_of(b))),
        Verdict::Asks {
            primary,
            operand,
            negated,
        } => {
            let path = absolute(alloc, &env.wd, operand.as_slice())?;
            Ok(Move {
                turn: Turn::Ask(Call::Stat(path, follows(primary)), 1),
                stage: Stage::Judging(primary, negated),
            })
        }
        Verdict::Misused(word) => complain(alloc, Name::Test, word.as_slice(), b"usage", 2),
    }
}

pub(crate) fn test(alloc: Global, operands: &[Bytes], env: &Env) -> Result<Move, NoMemory>
    ensures does { IfOk result (λ move. IsDoneBy (tests operands.now) env.now move env.now) }
    ensures costly { IfOk result (λ move. IsCostly move.turn) }
{
    let verdict = decides(operands)?;
    judge(alloc, verdict, env)
}

fn is_closing(word: Option<&Bytes>) -> bool
    ensures { result ≡ is_closing (option_copied word.entry) }
{
    match word {
        None => false,
        Some(word) => word.as_slice() == b"]".as_slice(),
    }
}

fn unclosed(alloc: Global) -> Result<Move, NoMemory>
    ensures does { IfOk result (λ move. (env : Env) → IsDoneBy (complains TestName (codes "]") (codes "usage") 2) env move env) }
    ensures costly { IfOk result (λ move. IsCostly move.turn) }
{
    complain(alloc, Name::Test, b"]", b"usage", 2)
}

pub(crate) fn bracket(alloc: Global, operands: &[Bytes], env: &Env) -> Result<Move, NoMemory>
    ensures does { IfOk result (λ move. IsDoneBy (brackets operands.now) env.now move env.now) }
    ensures costly { IfOk result (λ move. IsCostly move.turn) }
{
    if is_closing(operands.last()) {
        let before = operands.split_at(operands.len().saturating_sub(1)).0;
        return test(alloc, before, env);
    }
    unclosed(alloc)
}

// `cd`, and setting a variable.
ghost use Rattle.std.specs.Prelude.{◌≡◌, ◌∷◌, [], IfOk, OnOk, codes, false};
ghost use Rattle.rk_base.specs.Errno.{word};
ghost use Rattle.rk_calls.specs.Costly.{IsCostly};
ghost use Rattle.sh_vars.specs.declared.env.Env.{Env};
ghost use Rattle.sh_vars.specs.Held.{assigned, is_readonly};
ghost use Rattle.sh_builtin.specs.Cds.{moves, walked, walks, cds};
ghost use Rattle.sh_builtin.specs.declared.name.Name.TheVariants.{Cd};
ghost use Rattle.sh_builtin.specs.Refused.{IsLast};
ghost use Rattle.sh_builtin.specs.Stages.{IsDoneBy};
ghost use Rattle.sh_builtin.specs.Telling.{complains};

use crate::name::Name;
use crate::stage::{Move, Stage};
use crate::telling::{complain, misuse, over};
use rk_base::{Bytes, Errno, NoMemory, Path};
use rk_calls::{Answer, Call, Turn, absolute};
use sh_vars::{Env, VarErr, Vars};
use std::alloc::Global;

/// A variable that isn't readonly has this value.
pub(crate) fn assign(vars: &mut Vars, x: &[u8], value: &[u8]) -> Result<(), NoMemory>
    requires { is_readonly vars.old x.now ≡ false }
    ensures { OnOk result (vars.new ≡ assigned x.now value.now vars.old) }
{
    match vars.set(x, value) {
        Ok(()) => Ok(()),
        Err(VarErr::NoMemory) => Err(NoMemory),
        Err(VarErr::Readonly) => unreachable!(),
    }
}

/// A variable that is readonly.
pub(crate) fn tell_readonly(alloc: Global, name: Name, x: &[u8]) -> Result<Move, NoMemory>
    ensures does { IfOk result (λ move. (env : Env) → IsDoneBy (complains name x.now (codes "readonly") 1) env move env) }
    ensures costly { IfOk result (λ move. IsCostly move.turn) }
    ensures last { IfOk result IsLast }
{
    complain(alloc, name, x, b"readonly", 1)
}

fn go_to(alloc: Global, place: Path, env: &mut Env) -> Result<Move, NoMemory>
    ensures does { IfOk result (λ move. IsDoneBy (moves place) env.old move env.new) }
    ensures costly { IfOk result (λ move. IsCostly move.turn) }
    ensures last { IfOk result IsLast }
{
    if env.vars.is_readonly(b"PWD") {
        return tell_readonly(alloc, Name::Cd, b"PWD");
    }
    assign(&mut env.vars, b"PWD", place.text())?;
    env.wd = place;
    Ok(over(0))
}

fn refused(alloc: Global, operand: &[u8], errno: Errno) -> Result<Move, NoMemory>
    ensures does { IfOk result (λ move. (env : Env) → IsDoneBy (complains Cd operand.now (word errno) 1) env move env) }
    ensures costly { IfOk result (λ move. IsCostly move.turn) }
    ensures last { IfOk result IsLast }
{
    complain(alloc, Name::Cd, operand, errno.word().as_bytes(), 1)
}

/// Once the directory was looked up.
pub(crate) fn walked(
    alloc: Global,
    operand: Bytes,
    answer: Answer,
    env: &mut Env,
) -> Result<Move, NoMemory>
    ensures does { IfOk result (λ move. IsDoneBy (walked operand answer) env.old move env.new) }
    ensures costly { IfOk result (λ move. IsCostly move.turn) }
    ensures last { IfOk result IsLast }
{
    match answer {
        Answer::Place(place) => go_to(alloc, place, env),
        Answer::No(errno) => refused(alloc, operand.as_slice(), errno),
        Answer::Go => Ok(over(0)),
        Answer::Done => Ok(over(0)),
        Answer::Opened => Ok(over(0)),
        Answer::Piped => Ok(over(0)),
        Answer::Content(_) => Ok(over(0)),
        Answer::Stat { .. } => Ok(over(0)),
        Answer::Names(_) => Ok(over(0)),
        Answer::Text(_) => Ok(over(0)),
        Answer::Same(_) => Ok(over(0)),
        Answer::Joined(_) => Ok(over(0)),
    }
}

fn walk(alloc: Global, operand: &Bytes, env: &Env) -> Result<Move, NoMemory>
    ensures does { IfOk result (λ move. IsDoneBy (walks operand.now) env.now move env.now) }
    ensures costly { IfOk result (λ move. IsCostly move.turn) }
{
    if env.vars.is_readonly(b"PWD") {
        return tell_readonly(alloc, Name::Cd, b"PWD");
    }
    let path = absolute(alloc, &env.wd, operand.as_slice())?;
    let operand = operand.copy()?;
    Ok(Move {
        turn: Turn::Ask(Call::Walk(path), 1),
        stage: Stage::Walking(operand),
    })
}

fn no_dash(alloc: Global, operand: &Bytes) -> Result<Move, NoMemory>
    ensures does { IfOk result (λ move. (env : Env) → IsDoneBy (complains Cd operand.now (codes "usage") 1) env move env) }
    ensures costly { IfOk result (λ move. IsCostly move.turn) }
{
    complain(alloc, Name::Cd, operand.as_slice(), b"usage", 1)
}

fn to_one(alloc: Global, operand: &Bytes, env: &Env) -> Result<Move, NoMemory>
    ensures does { IfOk result (λ move. IsDoneBy (cds (operand.now ∷ [])) env.now move env.now) }
    ensures costly { IfOk result (λ move. IsCostly move.turn) }
{
    if operand.as_slice() == b"-".as_slice() {
        return no_dash(alloc, operand);
    }
    walk(alloc, operand, env)
}

pub(crate) fn cd(alloc: Global, operands: &[Bytes], env: &Env) -> Result<Move, NoMemory>
    ensures does { IfOk result (λ move. IsDoneBy (cds operands.now) env.now move env.now) }
    ensures costly { IfOk result (λ move. IsCostly move.turn) }
{
    match operands {
        [] => misuse(alloc, b"cd", 1),
        [operand] => to_one(alloc, operand, env),
        [_, _, ..] => misuse(alloc, b"cd", 1),
    }
}

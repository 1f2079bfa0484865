// `echo` and `pwd`.
ghost use Rattle.std.specs.Prelude.{◌≡◌, ◌++◌, ◌∷◌, [], IfOk};
ghost use Rattle.rk_calls.specs.Costly.{IsCostly};
ghost use Rattle.sh_vars.specs.declared.env.Env.{Env};
ghost use Rattle.sh_operands.specs.Words.{joined};
ghost use Rattle.sh_builtin.specs.Echoes.{echoed, echoes, pwds};
ghost use Rattle.sh_builtin.specs.Stages.{IsDoneBy};

use crate::name::Name;
use crate::stage::Move;
use crate::telling::{misuse, put};
use rk_base::{Bytes, NoMemory};
use sh_operands::joined;
use sh_vars::Env;
use std::alloc::Global;

fn line_of(alloc: Global, words: &[Bytes]) -> Result<Vec<u8>, NoMemory>
    ensures { IfOk result (λ text. text.items ≡ joined words.now ++ 10 ∷ []) }
{
    let mut line = joined(alloc, words)?;
    line.push(b'\n')?;
    Ok(line)
}

fn echoed(alloc: Global, operands: &[Bytes]) -> Result<Vec<u8>, NoMemory>
    ensures { IfOk result (λ text. text.items ≡ echoed operands.now) }
{
    match operands {
        [] => line_of(alloc, operands),
        [first, words @ ..] => {
            if first.as_slice() == b"-n".as_slice() {
                joined(alloc, words)
            } else {
                line_of(alloc, operands)
            }
        }
    }
}

pub(crate) fn echo(alloc: Global, operands: &[Bytes]) -> Result<Move, NoMemory>
    ensures does { IfOk result (λ move. (env : Env) → IsDoneBy (echoes operands.now) env move env) }
    ensures costly { IfOk result (λ move. IsCostly move.turn) }
{
    let output = echoed(alloc, operands)?;
    let output = Bytes::new(alloc, output)?;
    Ok(put(Name::Echo, output, 0))
}

pub(crate) fn pwd(alloc: Global, operands: &[Bytes], env: &Env) -> Result<Move, NoMemory>
    ensures does { IfOk result (λ move. IsDoneBy (pwds operands.now) env.now move env.now) }
    ensures costly { IfOk result (λ move. IsCostly move.turn) }
{
    match operands {
        [] => {
            let mut line = Vec::from_slice(alloc, env.wd.text())?;
            line.push(b'\n')?;
            let line = Bytes::new(alloc, line)?;
            Ok(put(Name::Pwd, line, 0))
        }
        [_, ..] => misuse(alloc, b"pwd", 1),
    }
}

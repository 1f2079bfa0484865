// `printf`.
ghost use Rattle.std.specs.Prelude.{◌≡◌, ◌+◌, ◌-◌, IfOk, codes, drop, length};
ghost use Rattle.rk_calls.specs.Costly.{IsCostly};
ghost use Rattle.sh_vars.specs.declared.env.Env.{Env};
ghost use Rattle.sh_builtin.specs.declared.name.Name.TheVariants.{Printf};
ghost use Rattle.sh_operands.specs.Passes.{prints_of};
ghost use Rattle.sh_builtin.specs.Prints.{bad_line, writes_made, tells_bad, status_of, prints_pieces, prints};
ghost use Rattle.sh_builtin.specs.Refused.{IsFewer, refusals};
ghost use Rattle.sh_builtin.specs.Stages.{IsDoneBy, IsDoneWhere};
ghost use Rattle.sh_builtin.specs.Telling.{complains, puts};

use crate::name::Name;
use crate::stage::{Move, Stage};
use crate::telling::{complain, misuse, over, written};
use rk_base::{Bytes, Errno, NoMemory, WordList};
use rk_calls::{Answer, Call, Turn, error_line, turns};
use sh_operands::{Format, copies, measured, pieces, printed};
use std::alloc::Global;

fn bad_line(alloc: Global, word: &[u8]) -> Result<Bytes, NoMemory>
    ensures { IfOk result (λ line. line ≡ bad_line word.now) }
{
    error_line(alloc, b"printf", word, b"not valid")
}

// The output is paid for by its length before it is made, where there is any. One that the map has no descriptor for is
// refused: it isn't made, and nothing is paid for it.
fn pay_made(
    alloc: Global,
    pieces: Format,
    operands: WordList,
    status: u8,
    has_output: bool,
) -> Result<Move, NoMemory>
    ensures does { IfOk result (λ move. (env : Env) → IsDoneWhere has_output (puts Printf (prints_of pieces operands).output status) env move env) }
    ensures costly { IfOk result (λ move. IsCostly move.turn) }
    ensures fewer { IfOk result (λ move. IsFewer 1 move.turn (refusals move.stage)) }
{
    let (bytes, _) = measured(alloc, pieces.as_slice(), operands.as_slice())?;
    if bytes == 0 {
        return Ok(over(status));
    }
    if !has_output {
        let move_told = written(alloc, Name::Printf, status, Answer::No(Errno::BadRef))?;
        return Ok(move_told);
    }
    Ok(Move {
        turn: Turn::More(bytes.div_ceil(64)),
        stage: Stage::Paid(pieces, operands, status),
    })
}

/// The output, which is paid for.
pub(crate) fn write_made(
    alloc: Global,
    pieces: Format,
    operands: WordList,
    status: u8,
) -> Result<Move, NoMemory>
    ensures does { IfOk result (λ move. (env : Env) → IsDoneBy (writes_made (prints_of pieces operands).output status) env move env) }
    ensures costly { IfOk result (λ move. IsCostly move.turn) }
    ensures fewer { IfOk result (λ move. IsFewer 2 move.turn (refusals move.stage)) }
{
    let made = printed(alloc, pieces.as_slice(), operands.as_slice())?;
    let (output, _) = made.into_parts();
    let output = Bytes::new(alloc, output)?;
    Ok(Move {
        turn: Turn::Ask(Call::Write(1, output), 1),
        stage: Stage::Writing(Name::Printf, status),
    })
}

/// A line for each operand that is no number, from a place on, and then the output.
pub(crate) fn tell_bad(
    alloc: Global,
    bad: WordList,
    at: usize,
    pieces: Format,
    operands: WordList,
    status: u8,
    has_output: bool,
) -> Result<Move, NoMemory>
    ensures does { IfOk result (λ move. (env : Env) → IsDoneWhere has_output (tells_bad (drop at bad) (prints_of pieces operands).output status) env move env) }
    ensures costly { IfOk result (λ move. IsCostly move.turn) }
    ensures fewer { IfOk result (λ move. IsFewer (length bad - at + 1) move.turn (refusals move.stage)) }
{
    if at >= bad.len() {
        return pay_made(alloc, pieces, operands, status, has_output);
    }
    let line = bad_line(alloc, bad.as_slice()[at].as_slice())?;
    let cost = 1 + turns(line.as_slice());
    Ok(Move {
        turn: Turn::Ask(Call::Write(2, line), cost),
        stage: Stage::Printing(bad, at + 1, pieces, operands, status),
    })
}

fn invalid(alloc: Global, format: &[u8]) -> Result<Move, NoMemory>
    ensures does { IfOk result (λ move. (env : Env) → IsDoneBy (complains Printf format.now (codes "not valid") 1) env move env) }
    ensures costly { IfOk result (λ move. IsCostly move.turn) }
{
    complain(alloc, Name::Printf, format, b"not valid", 1)
}

fn status_of(bad: &[Bytes]) -> u8
    ensures { result ≡ status_of bad.now }
{
    match bad {
        [] => 0,
        [_, ..] => 1,
    }
}

fn print_pieces(
    alloc: Global,
    format: &[u8],
    pieces: Option<Format>,
    operands: &[Bytes],
    has_output: bool,
) -> Result<Move, NoMemory>
    ensures does { IfOk result (λ move. (env : Env) → IsDoneWhere has_output (prints_pieces format.now pieces operands.now) env move env) }
    ensures costly { IfOk result (λ move. IsCostly move.turn) }
{
    match pieces {
        None => invalid(alloc, format),
        Some(pieces) => {
            let (_, bad) = measured(alloc, pieces.as_slice(), operands)?;
            let status = status_of(bad.as_slice());
            let operands = copies(alloc, operands)?;
            tell_bad(alloc, bad, 0, pieces, operands, status, has_output)
        }
    }
}

pub(crate) fn printf(alloc: Global, operands: &[Bytes], has_output: bool) -> Result<Move, NoMemory>
    ensures does { IfOk result (λ move. (env : Env) → IsDoneWhere has_output (prints operands.now) env move env) }
    ensures costly { IfOk result (λ move. IsCostly move.turn) }
{
    match operands {
        [] => misuse(alloc, b"printf", 1),
        [format, operands @ ..] => {
            let pieces = pieces(alloc, format.as_slice())?;
            print_pieces(alloc, format.as_slice(), pieces, operands, has_output)
        }
    }
}

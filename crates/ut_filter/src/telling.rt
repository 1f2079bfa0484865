// The end of a filter: its output, its error text and its exit.
ghost use Rattle.std.specs.Prelude.{◌≡◌, ◌++◌, List, IfOk};
ghost use Rattle.rk_base.specs.Text.{Text};
ghost use Rattle.rk_base.specs.Errno.{word};
ghost use Rattle.rk_calls.specs.Costly.{IsCostly};
ghost use Rattle.rk_calls.specs.Lines.{error_line};
ghost use Rattle.ut_filter.specs.Filters.{Job, Seen, tells, puts};
ghost use Rattle.ut_filter.specs.Stages.{IsSaidBy};

use crate::made::Made;
use crate::stage::{Move, Stage};
use rk_base::{Bytes, Errno, NoMemory};
use rk_calls::{Call, Turn, error_line, turns};
use std::alloc::Global;

/// The error text, where there is any, and the exit.
pub(crate) fn tell(errors: Bytes, status: u8) -> Move
    ensures talk { (job : Job) (wd : Text) (operands : List Text) (seen : Seen) → IsSaidBy job wd (tells errors status) operands seen result }
    ensures costly { IsCostly result.turn }
{
    if errors.is_empty() {
        return Move {
            turn: Turn::Exit(status, 0),
            stage: Stage::Over(status),
        };
    }
    let cost = 1 + turns(errors.as_slice());
    Move {
        turn: Turn::Ask(Call::Write(2, errors), cost),
        stage: Stage::Over(status),
    }
}

/// The output, where there is any, to a place that a number stands for, and then the error text.
pub(crate) fn put(place: Bytes, number: u64, made: Made) -> Move
    ensures talk { (job : Job) (wd : Text) (operands : List Text) (seen : Seen) → IsSaidBy job wd (puts job place number made) operands seen result }
    ensures costly { IsCostly result.turn }
{
    let Made {
        output,
        errors,
        status,
    } = made;
    if output.is_empty() {
        return tell(errors, status);
    }
    let cost = 1 + turns(output.as_slice());
    Move {
        turn: Turn::Ask(Call::Write(number, output), cost),
        stage: Stage::Writing(place, errors, status),
    }
}

/// The error text with one line more, for a place that refused the output.
pub(crate) fn with_refusal(
    alloc: Global,
    name: &[u8],
    place: &[u8],
    errors: &[u8],
    errno: Errno,
) -> Result<Bytes, NoMemory>
    ensures { IfOk result (λ e. e ≡ errors.now ++ error_line name.now place.now (word errno)) }
{
    let line = error_line(alloc, name, place, errno.word().as_bytes())?;
    let mut text = Vec::from_slice(alloc, errors)?;
    text.extend_from_slice(line.as_slice())?;
    Bytes::new(alloc, text)
}

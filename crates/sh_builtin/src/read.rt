// `read`.
ghost use Rattle.std.specs.Prelude.{◌≡◌, ◌++◌, drop, IfOk, codes, option_copied};
ghost use Rattle.rk_base.specs.Errno.{word};
ghost use Rattle.rk_calls.specs.Brought.{brought};
ghost use Rattle.rk_calls.specs.Costly.{IsCostly};
ghost use Rattle.sh_vars.specs.declared.env.Env.{Env};
ghost use Rattle.sh_vars.specs.Held.{is_readonly};
ghost use Rattle.sh_operands.specs.Words.{first_that, is_misnamed};
ghost use Rattle.sh_builtin.specs.declared.name.Name.TheVariants.{Read as TheRead};
ghost use Rattle.sh_builtin.specs.Lines.{line_of};
ghost use Rattle.sh_builtin.specs.Reads.{first_value, assigns, ifs_of, takes, by_end, line_read, reads_on, reads_lines, unless_misnamed, reads_named, reads_into, reads};
ghost use Rattle.rk_base.specs.declared.errno.Errno.TheVariants.{BadRef};
ghost use Rattle.rk_calls.specs.declared.answer.Answer.TheVariants as answers;
ghost use Rattle.sh_builtin.specs.Refused.{IsLast};
ghost use Rattle.sh_builtin.specs.Stages.{IsDoneBy};
ghost use Rattle.sh_builtin.specs.Telling.{complains};

use crate::cd::{assign, tell_readonly};
use crate::fields::values;
use crate::line::{End, scan_line};
use crate::marks::Marks;
use crate::name::Name;
use crate::stage::{Move, Stage};
use crate::telling::{complain, misuse, over};
use rk_base::{Bytes, Errno, NoMemory, WordList};
use rk_calls::{Answer, Call, Turn, brought};
use sh_operands::{copies, first_misnamed};
use sh_vars::{Env, Vars};
use std::alloc::Global;

/// The next line is asked for.
#[tactic(auto, using(crate::proofs::Ending::reads_by))]
pub(crate) fn ask_line(raw: bool, names: WordList, marks: Marks) -> Move
    ensures does { (env : Env) → IsDoneBy (reads_lines raw names marks) env result env }
    ensures costly { IsCostly result.turn }
{
    Move {
        turn: Turn::Ask(Call::ReadLine(0), 1),
        stage: Stage::Reading(raw, names, marks),
    }
}

// The value at a place; no bytes where there is none.
fn value_at(values: &[Bytes], at: usize) -> &[u8]
    ensures { result.now ≡ first_value (drop at values.now) }
{
    match values.get(at) {
        Some(value) => value.as_slice(),
        None => b"",
    }
}

// The variables have these values.
fn assign_all(
    alloc: Global,
    names: &[Bytes],
    values: &[Bytes],
    status: u8,
    env: &mut Env,
) -> Result<Move, NoMemory>
    ensures does { IfOk result (λ move. IsDoneBy (assigns names.now values.now status) env.old move env.new) }
    ensures costly { IfOk result (λ move. IsCostly move.turn) }
{
    'names: for (at, x) in names.iter().enumerate() {
        if env.vars.is_readonly(x.as_slice()) {
            return tell_readonly(alloc, Name::Read, x.as_slice());
        }
        assign(&mut env.vars, x.as_slice(), value_at(values, at))?;
    }
    Ok(over(status))
}

fn ifs_of(env: &Env) -> &[u8]
    ensures { result.now ≡ ifs_of env.now }
{
    match env.vars.get(b"IFS") {
        Some(ifs) => ifs,
        None => b" \t\n",
    }
}

fn take(
    alloc: Global,
    names: &[Bytes],
    marks: &Marks,
    status: u8,
    env: &mut Env,
) -> Result<Move, NoMemory>
    ensures does { IfOk result (λ move. IsDoneBy (takes names.now marks.now status) env.old move env.new) }
    ensures costly { IfOk result (λ move. IsCostly move.turn) }
{
    let values = values(alloc, ifs_of(env), names, marks.as_slice())?;
    assign_all(alloc, names, values.as_slice(), status, env)
}

fn by_end(
    alloc: Global,
    raw: bool,
    names: WordList,
    marks: Marks,
    end: End,
    env: &mut Env,
) -> Result<Move, NoMemory>
    ensures does { IfOk result (λ move. IsDoneBy (by_end reads_on raw names marks end) env.old move env.new) }
    ensures costly { IfOk result (λ move. IsCostly move.turn) }
{
    match end {
        End::Whole => take(alloc, names.as_slice(), &marks, 0, env),
        End::Short => take(alloc, names.as_slice(), &marks, 1, env),
        End::Continued => Ok(ask_line(raw, names, marks)),
    }
}

fn refused(alloc: Global, errno: Errno) -> Result<Move, NoMemory>
    ensures does { IfOk result (λ move. (env : Env) → IsDoneBy (complains TheRead (codes "input") (word errno) 1) env move env) }
    ensures costly { IfOk result (λ move. IsCostly move.turn) }
    ensures last { IfOk result IsLast }
{
    complain(alloc, Name::Read, b"input", errno.word().as_bytes(), 1)
}

fn line_came(
    alloc: Global,
    raw: bool,
    names: WordList,
    marks: Marks,
    text: &Bytes,
    env: &mut Env,
) -> Result<Move, NoMemory>
    ensures does { IfOk result (λ move. IsDoneBy (by_end reads_on raw names (marks ++ (line_of raw text.now).marks) (line_of raw text.now).end) env.old move env.new) }
    ensures costly { IfOk result (λ move. IsCostly move.turn) }
{
    let mut marks = marks;
    let end = scan_line(raw, text.as_slice(), &mut marks)?;
    by_end(alloc, raw, names, marks, end, env)
}

/// Once a line was read, or refused.
pub(crate) fn line_read(
    alloc: Global,
    raw: bool,
    names: WordList,
    marks: Marks,
    answer: Answer,
    env: &mut Env,
) -> Result<Move, NoMemory>
    ensures does { IfOk result (λ move. IsDoneBy (line_read reads_on raw names marks (brought answer)) env.old move env.new) }
    ensures costly { IfOk result (λ move. IsCostly move.turn) }
    ensures refused { IfOk result (λ move. answer ≡ answers.No BadRef → IsLast move) }
{
    let it = brought(alloc, answer)?;
    match it {
        Ok(text) => line_came(alloc, raw, names, marks, &text, env),
        Err(errno) => refused(alloc, errno),
    }
}

fn first_readonly<'a>(vars: &Vars, names: &'a [Bytes]) -> Option<&'a Bytes>
    ensures { option_copied result ≡ first_that (is_readonly vars.now) names.now }
{
    'names: for x in names {
        if vars.is_readonly(x.as_slice()) {
            return Some(x);
        }
    }
    None
}

fn read_named(alloc: Global, raw: bool, names: &[Bytes], env: &Env) -> Result<Move, NoMemory>
    ensures does { IfOk result (λ move. IsDoneBy (reads_named raw names.now) env.now move env.now) }
    ensures costly { IfOk result (λ move. IsCostly move.turn) }
{
    match first_readonly(&env.vars, names) {
        Some(x) => tell_readonly(alloc, Name::Read, x.as_slice()),
        None => {
            let names = copies(alloc, names)?;
            Ok(ask_line(raw, names, Marks::new(alloc)))
        }
    }
}

fn misnamed(alloc: Global, x: &[u8]) -> Result<Move, NoMemory>
    ensures does { IfOk result (λ move. (env : Env) → IsDoneBy (complains TheRead x.now (codes "usage") 1) env move env) }
    ensures costly { IfOk result (λ move. IsCostly move.turn) }
{
    complain(alloc, Name::Read, x, b"usage", 1)
}

fn read_some(alloc: Global, raw: bool, names: &[Bytes], env: &Env) -> Result<Move, NoMemory>
    ensures does { IfOk result (λ move. IsDoneBy (unless_misnamed (first_that is_misnamed names.now) (reads_named raw names.now)) env.now move env.now) }
    ensures costly { IfOk result (λ move. IsCostly move.turn) }
{
    match first_misnamed(names) {
        Some(x) => misnamed(alloc, x.as_slice()),
        None => read_named(alloc, raw, names, env),
    }
}

fn read_into(alloc: Global, raw: bool, names: &[Bytes], env: &Env) -> Result<Move, NoMemory>
    ensures does { IfOk result (λ move. IsDoneBy (reads_into raw names.now) env.now move env.now) }
    ensures costly { IfOk result (λ move. IsCostly move.turn) }
{
    match names {
        [] => misuse(alloc, b"read", 1),
        [_, ..] => read_some(alloc, raw, names, env),
    }
}

pub(crate) fn read(alloc: Global, operands: &[Bytes], env: &Env) -> Result<Move, NoMemory>
    ensures does { IfOk result (λ move. IsDoneBy (reads operands.now) env.now move env.now) }
    ensures costly { IfOk result (λ move. IsCostly move.turn) }
{
    match operands {
        [] => read_into(alloc, false, operands, env),
        [first, names @ ..] => {
            if first.as_slice() == b"-r".as_slice() {
                read_into(alloc, true, names, env)
            } else {
                read_into(alloc, false, operands, env)
            }
        }
    }
}

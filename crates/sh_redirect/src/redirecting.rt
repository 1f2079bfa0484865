// A redirection that is made.
ghost use Rattle.std.specs.Prelude.{◌≡◌, ℕ, IfOk, codes};
ghost use Rattle.rk_base.specs.Errno.{word};
ghost use Rattle.sh_vars.specs.declared.env.Env.{Env as Environment};
ghost use Rattle.rk_calls.specs.declared.answer.Answer.{Answer as TheAnswer};
ghost use Rattle.sh_redirect.specs.declared.descriptors.DescriptorTable.{DescriptorTable};
ghost use Rattle.sh_redirect.specs.Redirects.{After, makes, is_refused, told, tells, opened, opens, copied, copies_digit, copies, filled, here, redirects};
ghost use Rattle.sh_redirect.specs.Stages.{stage_does, after, IsDoneBy, redirecting_does, IsAsking};

use crate::answers::refusal;
use crate::descriptors::digit;
use crate::{DescriptorTable, Redirect};
use rk_base::{Bytes, Errno, NoMemory};
use rk_calls::{Answer, Call, How, absolute, error_line, turns};
use sh_vars::{Env, number_after};
use std::alloc::Global;
use std::mem;

/// A turn of a redirection.
#[derive(Debug, Drop)]
pub enum Turn {
    /// It asks this call, of local numbers, at this cost, in turns.
    Ask(Call, u64),
    /// It is made.
    Made,
    /// It is refused, which was told.
    Refused,
}

/// What a redirection waits for, or does next.
#[derive(Drop)]
pub enum Stage {
    /// It begins.
    Begins(Redirect, u8, Bytes),
    /// A file is opened for a descriptor, and has this number then.
    Opening(u8, Bytes, u64),
    /// The pipe of a here-document is made, whose read end has this number then.
    Piping(u8, Bytes, u64),
    /// The body of a here-document is written.
    Filling(u8, u64),
    /// A refusal is told.
    Telling,
}

/// A turn, and the stage after it.
#[derive(Drop)]
pub struct Move {
    pub turn: Turn,
    pub stage: Stage,
}

/// A redirection that is made. It is resumed first with `Go`, after `Ask` with the call's answer, and after `Made` and
/// `Refused` not again; after want of memory it is given up.
#[derive(Drop)]
pub struct Redirecting {
    alloc: Global,
    stage: Stage,
}

fn made(d: u8, n: Option<u64>, descriptors: &mut DescriptorTable) -> Move
    ensures does { (env : Environment) → IsDoneBy (makes d n) descriptors.old env result descriptors.new }
    ensures costly { IsAsking result.turn }
{
    descriptors.set(d, n);
    Move {
        turn: Turn::Made,
        stage: Stage::Telling,
    }
}

// A line of error text goes to this number.
fn told(n: Option<u64>, line: Bytes) -> Move
    ensures does { (ds : DescriptorTable) (env : Environment) → IsDoneBy (told n line) ds env result ds }
    ensures costly { IsAsking result.turn }
{
    match n {
        None => Move {
            turn: Turn::Refused,
            stage: Stage::Telling,
        },
        Some(n) => {
            let cost = 1 + turns(line.as_slice());
            Move {
                turn: Turn::Ask(Call::Write(n, line), cost),
                stage: Stage::Telling,
            }
        }
    }
}

fn tell(
    alloc: Global,
    operand: &[u8],
    what: &[u8],
    descriptors: &DescriptorTable,
) -> Result<Move, NoMemory>
    ensures does { IfOk result (λ move. (env : Environment) → IsDoneBy (tells operand.now what.now) descriptors.now env move descriptors.now) }
    ensures costly { IfOk result (λ move. IsAsking move.turn) }
{
    let line = error_line(alloc, b"sh", operand, what)?;
    Ok(told(descriptors.at(2), line))
}

fn open(
    alloc: Global,
    how: How,
    d: u8,
    operand: Bytes,
    descriptors: &DescriptorTable,
    env: &Env,
) -> Result<Move, NoMemory>
    ensures does { IfOk result (λ move. IsDoneBy (opens how d operand) descriptors.now env.now move descriptors.now) }
    ensures costly { IfOk result (λ move. IsAsking move.turn) }
{
    let path = absolute(alloc, &env.wd, operand.as_slice())?;
    Ok(Move {
        turn: Turn::Ask(Call::Open(path, how), 1),
        stage: Stage::Opening(d, operand, env.next),
    })
}

fn refused(
    alloc: Global,
    operand: &Bytes,
    errno: Errno,
    descriptors: &DescriptorTable,
) -> Result<Move, NoMemory>
    ensures does { IfOk result (λ move. (env : Environment) → IsDoneBy (tells operand.now (word errno)) descriptors.now env move descriptors.now) }
    ensures costly { IfOk result (λ move. IsAsking move.turn) }
{
    tell(
        alloc,
        operand.as_slice(),
        errno.word().as_bytes(),
        descriptors,
    )
}

fn file_opened(
    alloc: Global,
    d: u8,
    operand: &Bytes,
    n: u64,
    refusal: Option<Errno>,
    descriptors: &mut DescriptorTable,
) -> Result<Move, NoMemory>
    ensures does { IfOk result (λ move. (env : Environment) → IsDoneBy (opened d operand.now n refusal) descriptors.old env move descriptors.new) }
    ensures costly { IfOk result (λ move. IsAsking move.turn) }
{
    match refusal {
        None => Ok(made(d, Some(n), descriptors)),
        Some(errno) => refused(alloc, operand, errno, descriptors),
    }
}

fn no_descriptor(
    alloc: Global,
    operand: &[u8],
    descriptors: &DescriptorTable,
) -> Result<Move, NoMemory>
    ensures does { IfOk result (λ move. (env : Environment) → IsDoneBy (tells operand.now (codes "bad descriptor")) descriptors.now env move descriptors.now) }
    ensures costly { IfOk result (λ move. IsAsking move.turn) }
{
    tell(alloc, operand, b"bad descriptor", descriptors)
}

fn no_digit(alloc: Global, operand: &[u8], descriptors: &DescriptorTable) -> Result<Move, NoMemory>
    ensures does { IfOk result (λ move. (env : Environment) → IsDoneBy (tells operand.now (codes "not valid")) descriptors.now env move descriptors.now) }
    ensures costly { IfOk result (λ move. IsAsking move.turn) }
{
    tell(alloc, operand, b"not valid", descriptors)
}

fn copied(
    alloc: Global,
    d: u8,
    operand: &Bytes,
    n: Option<u64>,
    descriptors: &mut DescriptorTable,
) -> Result<Move, NoMemory>
    ensures does { IfOk result (λ move. (env : Environment) → IsDoneBy (copied d operand.now n) descriptors.old env move descriptors.new) }
    ensures costly { IfOk result (λ move. IsAsking move.turn) }
{
    match n {
        None => no_descriptor(alloc, operand.as_slice(), descriptors),
        Some(n) => Ok(made(d, Some(n), descriptors)),
    }
}

fn copy_digit(
    alloc: Global,
    d: u8,
    operand: &Bytes,
    from: Option<u8>,
    descriptors: &mut DescriptorTable,
) -> Result<Move, NoMemory>
    ensures does { IfOk result (λ move. (env : Environment) → IsDoneBy (copies_digit d operand.now from) descriptors.old env move descriptors.new) }
    ensures costly { IfOk result (λ move. IsAsking move.turn) }
{
    match from {
        None => no_digit(alloc, operand.as_slice(), descriptors),
        Some(from) => {
            let n = descriptors.at(from);
            copied(alloc, d, operand, n, descriptors)
        }
    }
}

fn copy(
    alloc: Global,
    d: u8,
    operand: &Bytes,
    descriptors: &mut DescriptorTable,
) -> Result<Move, NoMemory>
    ensures does { IfOk result (λ move. (env : Environment) → IsDoneBy (copies d operand.now) descriptors.old env move descriptors.new) }
    ensures costly { IfOk result (λ move. IsAsking move.turn) }
{
    if operand.as_slice() == b"-".as_slice() {
        return Ok(made(d, None, descriptors));
    }
    copy_digit(alloc, d, operand, digit(operand.as_slice()), descriptors)
}

// Once the pipe of a here-document was made.
fn fill(d: u8, body: Bytes, n: u64, descriptors: &mut DescriptorTable) -> Move
    ensures does { (env : Environment) → IsDoneBy (filled d body n) descriptors.old env result descriptors.new }
    ensures costly { IsAsking result.turn }
{
    if body.is_empty() {
        return made(d, Some(n), descriptors);
    }
    let write_end = number_after(n);
    let cost = 1 + turns(body.as_slice());
    Move {
        turn: Turn::Ask(Call::Write(write_end, body), cost),
        stage: Stage::Filling(d, n),
    }
}

fn here(d: u8, body: Bytes, descriptors: &DescriptorTable, env: &Env) -> Move
    ensures does { IsDoneBy (here d body) descriptors.now env.now result descriptors.now }
    ensures costly { IsAsking result.turn }
{
    Move {
        turn: Turn::Ask(Call::Pipe, 1),
        stage: Stage::Piping(d, body, env.next),
    }
}

fn begin(
    alloc: Global,
    kind: Redirect,
    d: u8,
    operand: Bytes,
    descriptors: &mut DescriptorTable,
    env: &Env,
) -> Result<Move, NoMemory>
    ensures does { IfOk result (λ move. IsDoneBy (redirects kind d operand) descriptors.old env.now move descriptors.new) }
    ensures costly { IfOk result (λ move. IsAsking move.turn) }
{
    match kind {
        Redirect::Reads => open(alloc, How::Read, d, operand, descriptors, env),
        Redirect::Makes => open(alloc, How::Make, d, operand, descriptors, env),
        Redirect::Appends => open(alloc, How::Append, d, operand, descriptors, env),
        Redirect::Copies => copy(alloc, d, &operand, descriptors),
        Redirect::Here => Ok(here(d, operand, descriptors, env)),
    }
}

fn is_over() -> Move
    ensures does { (ds : DescriptorTable) (env : Environment) → IsDoneBy is_refused ds env result ds }
    ensures costly { IsAsking result.turn }
{
    Move {
        turn: Turn::Refused,
        stage: Stage::Telling,
    }
}

fn resume_stage(
    alloc: Global,
    stage: Stage,
    descriptors: &mut DescriptorTable,
    env: &Env,
    answer: Answer,
) -> Result<Move, NoMemory>
    ensures does { IfOk result (λ move. IsDoneBy (stage_does stage answer) descriptors.old env.now move descriptors.new) }
    ensures costly { IfOk result (λ move. IsAsking move.turn) }
{
    match stage {
        Stage::Begins(kind, d, operand) => begin(alloc, kind, d, operand, descriptors, env),
        Stage::Opening(d, operand, n) => {
            file_opened(alloc, d, &operand, n, refusal(answer), descriptors)
        }
        Stage::Piping(d, body, n) => Ok(fill(d, body, n, descriptors)),
        Stage::Filling(d, n) => Ok(made(d, Some(n), descriptors)),
        Stage::Telling => Ok(is_over()),
    }
}

impl Redirecting {
    /// A redirection of a descriptor, before its first turn. The operand is expanded: a pathname, a digit or `-`, or the
    /// body of a here-document.
    pub fn start(alloc: Global, kind: Redirect, descriptor: u8, operand: Bytes) -> Redirecting
        ensures { (a : TheAnswer) → redirecting_does result a ≡ redirects kind descriptor operand }
    {
        Redirecting {
            alloc,
            stage: Stage::Begins(kind, descriptor, operand),
        }
    }

    /// Its next turn. The owner counts the local numbers that an answer gives before it hands it on. `Made` comes once the
    /// map has the redirection, and `Refused` after the refusal was told on 2 as the map was then, or where it lacks 2.
    pub fn resume(
        &mut self,
        descriptors: &mut DescriptorTable,
        env: &Env,
        answer: Answer,
    ) -> Result<Turn, NoMemory>
        ensures costly { IfOk result IsAsking }
        ensures does { IfOk result (λ t. (k : After) (p : ℕ) → redirecting_does self.old answer k descriptors.old env.now p ≡ after t (redirecting_does self.new) k descriptors.new env.now p) }
    {
        let stage = mem::replace(&mut self.stage, Stage::Telling);
        let Move { turn, stage } = resume_stage(self.alloc, stage, descriptors, env, answer)?;
        self.stage = stage;
        Ok(turn)
    }
}

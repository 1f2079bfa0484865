// The machine of `tee`.
ghost use Rattle.std.specs.Prelude.{◌≡◌, ◌+◌, ◌∷◌, IfOk, if◌then◌else◌};
ghost use Rattle.rk_calls.specs.declared.call.Call.TheVariants.{Write};
ghost use Rattle.rk_calls.specs.Talk.{ask};
ghost use Rattle.rk_calls.specs.Turns.{turns};
ghost use Rattle.rk_base.specs.Canonical.{is_empty};
ghost use Rattle.ut_filter.specs.Filters.{dash};
ghost use Rattle.rk_calls.specs.Brought.{brought};
ghost use Rattle.rk_calls.specs.Costly.{IsCostly};
ghost use Rattle.ut_plain.specs.Tees.{refused, with_refusal, ends, writes_all, output, input_read, opened, opens, how_of, tees};
ghost use Rattle.ut_plain.specs.TeeStages.{tee_talk, IsSaidBy};

use crate::target::Target;
use rk_base::{Bytes, Errno, NoMemory, Path};
use rk_calls::{Answer, Call, How, Turn, absolute, brought, error_line, turns};
use std::alloc::Global;
use std::collections::VecDeque;
use ut_filter::queue_of;

/// What `tee` waits for, or does next.
#[derive(Drop)]
pub enum Stage {
    /// The next file comes.
    Next,
    /// This file is being opened.
    Opening(Bytes),
    /// The standard input is being read.
    Reading,
    /// This text is being written to this place.
    Writing(Bytes, Bytes),
    /// It exits with this status.
    Over(u8),
}

/// The files that are left, where the text will go or is left to go, the error text so far, and the number of the
/// next file that is opened.
#[derive(Drop)]
pub struct Teeing {
    alloc: Global,
    wd: Path,
    appends: bool,
    files: VecDeque<Bytes>,
    targets: VecDeque<Target>,
    errors: Bytes,
    next: u64,
}

/// `tee` in a working directory.
#[derive(Drop)]
pub struct Tee {
    teeing: Teeing,
    stage: Stage,
}

/// A turn, and the machine after it.
#[derive(Drop)]
pub struct Move {
    pub turn: Turn,
    pub tee: Tee,
}

fn moved(turn: Turn, teeing: Teeing, stage: Stage) -> Move
    ensures { result ≡ record { turn = turn; tee = record { teeing = teeing; stage = stage } } }
{
    Move {
        turn,
        tee: Tee { teeing, stage },
    }
}

// One line more of error text, for a place that refused.
fn refused(alloc: Global, errors: &Bytes, place: &[u8], errno: Errno) -> Result<Bytes, NoMemory>
    ensures { IfOk result (λ e. e ≡ refused errors.now place.now errno) }
{
    let line = error_line(alloc, b"tee", place, errno.word().as_bytes())?;
    let mut text = Vec::from_slice(alloc, errors.as_slice())?;
    text.extend_from_slice(line.as_slice())?;
    Bytes::new(alloc, text)
}

// The error text, where there is any, and the exit.
fn end(teeing: Teeing) -> Result<Move, NoMemory>
    ensures talk { IfOk result (IsSaidBy (ends teeing.errors)) }
    ensures costly { IfOk result (λ move. IsCostly move.turn) }
{
    if teeing.errors.is_empty() {
        return Ok(moved(Turn::Exit(0, 0), teeing, Stage::Over(0)));
    }
    let errors = teeing.errors.copy()?;
    let cost = 1 + turns(errors.as_slice());
    let turn = Turn::Ask(Call::Write(2, errors), cost);
    Ok(moved(turn, teeing, Stage::Over(1)))
}

// To a place; the text is kept for the others.
fn write_kept(teeing: Teeing, text: Bytes, kept: Bytes, target: Target) -> Result<Move, NoMemory>
    ensures talk { IfOk result (IsSaidBy (ask (Write target.number text) (1 + turns text) (λ a. writes_all kept teeing.targets.items (with_refusal teeing.errors target.place (brought a))))) }
    ensures costly { IfOk result (λ move. IsCostly move.turn) }
{
    let cost = 1 + turns(text.as_slice());
    let turn = Turn::Ask(Call::Write(target.number, text), cost);
    Ok(moved(turn, teeing, Stage::Writing(kept, target.place)))
}

// To a place, and then to the others.
fn write(teeing: Teeing, text: Bytes, target: Target) -> Result<Move, NoMemory>
    ensures talk { IfOk result (IsSaidBy (writes_all text (target ∷ teeing.targets.items) teeing.errors)) }
    ensures costly { IfOk result (λ move. IsCostly move.turn) }
{
    let kept = text.copy()?;
    let next_move = write_kept(teeing, text, kept, target)?;
    Ok(next_move)
}

fn write_next(mut teeing: Teeing, text: Bytes) -> Result<Move, NoMemory>
    ensures talk { IfOk result (IsSaidBy (writes_all text teeing.targets.items teeing.errors)) }
    ensures costly { IfOk result (λ move. IsCostly move.turn) }
{
    match teeing.targets.pop_front() {
        None => end(teeing),
        Some(target) => write(teeing, text, target),
    }
}

fn output(alloc: Global) -> Result<Target, NoMemory>
    ensures { IfOk result (λ t. t ≡ output) }
{
    let place = Bytes::from_slice(alloc, b"output")?;
    Ok(Target { place, number: 1 })
}

// The text of the standard input, where there is any.
fn write_text(teeing: Teeing, text: Bytes) -> Result<Move, NoMemory>
    ensures talk { IfOk result (IsSaidBy (if is_empty text then ends teeing.errors else writes_all text (output ∷ teeing.targets.items) teeing.errors)) }
    ensures costly { IfOk result (λ move. IsCostly move.turn) }
{
    if text.is_empty() {
        return end(teeing);
    }
    let target = output(teeing.alloc)?;
    write(teeing, text, target)
}

fn refuse_input(mut teeing: Teeing, errno: Errno) -> Result<Move, NoMemory>
    ensures talk { IfOk result (IsSaidBy (ends (refused teeing.errors dash errno))) }
    ensures costly { IfOk result (λ move. IsCostly move.turn) }
{
    teeing.errors = refused(teeing.alloc, &teeing.errors, b"-", errno)?;
    end(teeing)
}

// After the standard input was read.
fn use_input(teeing: Teeing, answer: Answer) -> Result<Move, NoMemory>
    ensures talk { IfOk result (IsSaidBy (input_read teeing.targets.items teeing.errors (brought answer))) }
    ensures costly { IfOk result (λ move. IsCostly move.turn) }
{
    match brought(teeing.alloc, answer)? {
        Ok(text) => write_text(teeing, text),
        Err(errno) => refuse_input(teeing, errno),
    }
}

// After the text was written to a place, or not.
fn use_written(
    mut teeing: Teeing,
    text: Bytes,
    place: Bytes,
    answer: Answer,
) -> Result<Move, NoMemory>
    ensures talk { IfOk result (IsSaidBy (writes_all text teeing.targets.items (with_refusal teeing.errors place (brought answer)))) }
    ensures costly { IfOk result (λ move. IsCostly move.turn) }
{
    match brought(teeing.alloc, answer)? {
        Ok(_) => write_next(teeing, text),
        Err(errno) => {
            teeing.errors = refused(teeing.alloc, &teeing.errors, place.as_slice(), errno)?;
            write_next(teeing, text)
        }
    }
}

fn how_of(appends: bool) -> How
    ensures { result ≡ how_of appends }
{
    if appends { How::Append } else { How::Make }
}

// The next file, or after the last one the standard input.
fn open_next(mut teeing: Teeing) -> Result<Move, NoMemory>
    ensures talk { IfOk result (IsSaidBy (opens teeing.wd (how_of teeing.appends) teeing.files.items teeing.targets.items teeing.errors teeing.next)) }
    ensures costly { IfOk result (λ move. IsCostly move.turn) }
{
    match teeing.files.pop_front() {
        None => Ok(moved(Turn::Ask(Call::Read(0), 1), teeing, Stage::Reading)),
        Some(file) => {
            let path = absolute(teeing.alloc, &teeing.wd, file.as_slice())?;
            let turn = Turn::Ask(Call::Open(path, how_of(teeing.appends)), 1);
            Ok(moved(turn, teeing, Stage::Opening(file)))
        }
    }
}

// After a file was opened, or not.
fn use_opened(mut teeing: Teeing, file: Bytes, answer: Answer) -> Result<Move, NoMemory>
    ensures talk { IfOk result (IsSaidBy (opened (opens teeing.wd (how_of teeing.appends) teeing.files.items) file teeing.targets.items teeing.errors teeing.next (brought answer))) }
    ensures costly { IfOk result (λ move. IsCostly move.turn) }
{
    match brought(teeing.alloc, answer)? {
        Ok(_) => {
            let number = teeing.next;
            teeing.next = number.checked_add(1).ok_or(NoMemory)?;
            teeing.targets.push_back(Target {
                place: file,
                number,
            })?;
            open_next(teeing)
        }
        Err(errno) => {
            teeing.errors = refused(teeing.alloc, &teeing.errors, file.as_slice(), errno)?;
            open_next(teeing)
        }
    }
}

impl Tee {
    /// `tee` of these files, which are emptied, or written at their ends.
    pub(crate) fn new(
        alloc: Global,
        wd: &Path,
        appends: bool,
        files: &[Bytes],
    ) -> Result<Tee, NoMemory>
        ensures { IfOk result (λ t. tee_talk t Answer.Go ≡ tees wd.now appends files.now) }
    {
        let files = queue_of(alloc, files)?;
        let wd = wd.copy()?;
        let errors = Bytes::new(alloc, Vec::new(alloc))?;
        Ok(Tee {
            teeing: Teeing {
                alloc,
                wd,
                appends,
                files,
                targets: VecDeque::new(alloc),
                errors,
                next: 10,
            },
            stage: Stage::Next,
        })
    }

    /// Its next turn, and what it is then.
    pub(crate) fn go_on(self, answer: Answer) -> Result<Move, NoMemory>
        ensures talk { IfOk result (IsSaidBy (tee_talk self answer)) }
        ensures costly { IfOk result (λ move. IsCostly move.turn) }
    {
        let Tee { teeing, stage } = self;
        match stage {
            Stage::Next => open_next(teeing),
            Stage::Opening(file) => use_opened(teeing, file, answer),
            Stage::Reading => use_input(teeing, answer),
            Stage::Writing(text, place) => use_written(teeing, text, place, answer),
            Stage::Over(status) => Ok(moved(Turn::Exit(status, 0), teeing, Stage::Over(status))),
        }
    }
}

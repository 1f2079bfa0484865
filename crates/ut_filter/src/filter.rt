// The machine of all filters.
ghost use Rattle.std.specs.Prelude.{◌≡◌, List, IfOk, codes};
ghost use Rattle.rk_base.specs.Text.{Text};
ghost use Rattle.rk_calls.specs.Costly.{IsCostly};
ghost use Rattle.rk_calls.specs.Brought.{brought};
ghost use Rattle.ut_filter.specs.Filters.{Job, Seen, refused, told, emptied, puts, puts_paid, writes, opened, reads, reads_all, added, filters, filters_from};
ghost use Rattle.ut_filter.specs.Machine.{filter_talk};
ghost use Rattle.ut_filter.specs.Stages.{IsSaidBy, stage_talk};

use crate::inputs::queue_of;
use crate::made::{Made, Measured};
use crate::reader::Reader;
use crate::stage::{Move, Stage};
use crate::telling::{put, tell, with_refusal};
use crate::work::Work;
use rk_base::{Bytes, Errno, NoMemory, Path, WordList};
use rk_calls::{Answer, Call, How, Machine, Turn, absolute, brought};
use std::alloc::Global;
use std::collections::VecDeque;
use std::mem;

// One input: the standard input for `-`, and else a file.
fn read_input(alloc: Global, wd: &Path, operand: Bytes) -> Result<Move, NoMemory>
    ensures talk { IfOk result (λ move. (job : Job) (operands : List Text) (seen : Seen) → IsSaidBy job wd.now (reads wd.now operand (reads_all job wd.now operands) seen) operands seen move) }
    ensures costly { IfOk result (λ move. IsCostly move.turn) }
{
    if operand.as_slice() == b"-".as_slice() {
        return Ok(Move {
            turn: Turn::Ask(Call::Read(0), 1),
            stage: Stage::Reading(operand),
        });
    }
    let path = absolute(alloc, wd, operand.as_slice())?;
    Ok(Move {
        turn: Turn::Ask(Call::Open(path, How::Read), 1),
        stage: Stage::Opening(operand),
    })
}

// A place refused the output.
fn refuse<W: Work>(
    work: &W,
    alloc: Global,
    place: &[u8],
    errors: &[u8],
    errno: Errno,
) -> Result<Move, NoMemory>
    ensures talk { IfOk result (λ move. (wd : Text) (operands : List Text) (seen : Seen) → IsSaidBy (W.job work.now) wd (refused (W.job work.now) place.now errors.now errno) operands seen move) }
    ensures costly { IfOk result (λ move. IsCostly move.turn) }
{
    let errors = with_refusal(alloc, work.name(), place, errors, errno)?;
    Ok(tell(errors, work.failed()))
}

// After the output was written.
fn finish<W: Work>(
    work: &W,
    alloc: Global,
    place: Bytes,
    errors: Bytes,
    status: u8,
    answer: Answer,
) -> Result<Move, NoMemory>
    ensures talk { IfOk result (λ move. (wd : Text) (operands : List Text) (seen : Seen) → IsSaidBy (W.job work.now) wd (told (W.job work.now) place errors status (brought answer)) operands seen move) }
    ensures costly { IfOk result (λ move. IsCostly move.turn) }
{
    match brought(alloc, answer)? {
        Ok(_) => Ok(tell(errors, status)),
        Err(errno) => refuse(work, alloc, place.as_slice(), errors.as_slice(), errno),
    }
}

// After the output's file was opened.
fn write_into<W: Work>(
    work: &W,
    alloc: Global,
    file: Bytes,
    number: u64,
    made: Made,
    answer: Answer,
) -> Result<Move, NoMemory>
    ensures talk { IfOk result (λ move. (wd : Text) (operands : List Text) (seen : Seen) → IsSaidBy (W.job work.now) wd (emptied (W.job work.now) file number made (brought answer)) operands seen move) }
    ensures costly { IfOk result (λ move. IsCostly move.turn) }
{
    match brought(alloc, answer)? {
        Ok(_) => Ok(put(file, number, made)),
        Err(errno) => refuse(work, alloc, file.as_slice(), made.errors.as_slice(), errno),
    }
}

// What is made goes to the standard output: a long output is paid for by its length before it is made.
fn pay_or_put<W: Work>(work: &W, alloc: Global, reader: &Reader) -> Result<Move, NoMemory>
    ensures talk { IfOk result (λ move. (wd : Text) (operands : List Text) → IsSaidBy (W.job work.now) wd (puts (W.job work.now) (codes "output") 1 ((W.job work.now).makes reader.now.inputs)) operands reader.now move) }
    ensures costly { IfOk result (λ move. IsCostly move.turn) }
{
    match work.measure(alloc, reader.inputs())? {
        Measured::Short(made) => {
            let place = Bytes::from_slice(alloc, b"output")?;
            Ok(put(place, 1, made))
        }
        Measured::Long(length) => Ok(Move {
            turn: Turn::More((length as u64).div_ceil(64)),
            stage: Stage::Paid,
        }),
    }
}

// The output, which is paid for.
fn put_paid<W: Work>(work: &W, alloc: Global, reader: &Reader) -> Result<Move, NoMemory>
    ensures talk { IfOk result (λ move. (wd : Text) (operands : List Text) (seen : Seen) → IsSaidBy (W.job work.now) wd (puts_paid (W.job work.now) (codes "output") 1 ((W.job work.now).makes reader.now.inputs)) operands seen move) }
    ensures costly { IfOk result (λ move. IsCostly move.turn) }
{
    let Made {
        output,
        errors,
        status,
    } = work.make(alloc, reader.inputs())?;
    let place = Bytes::from_slice(alloc, b"output")?;
    Ok(Move {
        turn: Turn::Ask(Call::Write(1, output), 1),
        stage: Stage::Writing(place, errors, status),
    })
}

// What is made goes to the standard output, or to a file, which is opened once it is made.
fn write<W: Work>(work: &W, alloc: Global, wd: &Path, reader: &Reader) -> Result<Move, NoMemory>
    ensures talk { IfOk result (λ move. (operands : List Text) → IsSaidBy (W.job work.now) wd.now (writes (W.job work.now) wd.now reader.now.next ((W.job work.now).makes reader.now.inputs) (W.job work.now).out) operands reader.now move) }
    ensures costly { IfOk result (λ move. IsCostly move.turn) }
{
    match work.out() {
        None => pay_or_put(work, alloc, reader),
        Some(file) => {
            let made = work.make(alloc, reader.inputs())?;
            let number = reader.next();
            let path = absolute(alloc, wd, file.as_slice())?;
            let file = file.copy()?;
            Ok(Move {
                turn: Turn::Ask(Call::Open(path, How::Make), 1),
                stage: Stage::Emptying(file, number, made),
            })
        }
    }
}

// The next input, or after the last one what is to be written.
fn read_next<W: Work>(
    work: &W,
    alloc: Global,
    wd: &Path,
    operands: &mut VecDeque<Bytes>,
    reader: &mut Reader,
) -> Result<Move, NoMemory>
    ensures talk { IfOk result (IsSaidBy (W.job work.now) wd.now (reads_all (W.job work.now) wd.now operands.old.items reader.old) operands.new.items reader.new) }
    ensures costly { IfOk result (λ move. IsCostly move.turn) }
{
    match operands.pop_front() {
        None => write(work, alloc, wd, reader),
        Some(operand) => read_input(alloc, wd, operand),
    }
}

// After an operand was opened.
fn read_opened<W: Work>(
    work: &W,
    wd: &Path,
    operands: &mut VecDeque<Bytes>,
    reader: &mut Reader,
    operand: Bytes,
    answer: Answer,
) -> Result<Move, NoMemory>
    ensures talk { IfOk result (IsSaidBy (W.job work.now) wd.now (opened operand (reads_all (W.job work.now) wd.now operands.old.items) reader.old (brought answer)) operands.new.items reader.new) }
    ensures costly { IfOk result (λ move. IsCostly move.turn) }
{
    let alloc = *operands.allocator();
    match brought(alloc, answer)? {
        Err(errno) => {
            reader.add(operand, Err(errno))?;
            read_next(work, alloc, wd, operands, reader)
        }
        Ok(_) => {
            let number = reader.number()?;
            Ok(Move {
                turn: Turn::Ask(Call::Read(number), 1),
                stage: Stage::Reading(operand),
            })
        }
    }
}

// After an operand was read.
fn add_read<W: Work>(
    work: &W,
    wd: &Path,
    operands: &mut VecDeque<Bytes>,
    reader: &mut Reader,
    operand: Bytes,
    answer: Answer,
) -> Result<Move, NoMemory>
    ensures talk { IfOk result (IsSaidBy (W.job work.now) wd.now (reads_all (W.job work.now) wd.now operands.old.items (added operand reader.old (brought answer))) operands.new.items reader.new) }
    ensures costly { IfOk result (λ move. IsCostly move.turn) }
{
    let alloc = *operands.allocator();
    reader.add(operand, brought(alloc, answer)?)?;
    read_next(work, alloc, wd, operands, reader)
}

/// A filter in a working directory: the operands that are left, and what was read so far.
#[derive(Drop)]
pub struct Filter<W: Work> {
    alloc: Global,
    wd: Path,
    work: W,
    operands: VecDeque<Bytes>,
    reader: Reader,
    stage: Stage,
}

impl<W: Work> Filter<W> {
    /// The filter of this work and of these inputs, of which `-` is the standard input.
    pub fn new(alloc: Global, wd: &Path, work: W, inputs: &WordList) -> Result<Filter<W>, NoMemory>
        ensures { IfOk result (λ f. filter_talk W.job f Answer.Go ≡ filters (W.job work) wd.now inputs.now) }
    {
        Filter::from_number(alloc, wd, work, inputs, 10)
    }

    /// The filter of this work and of these inputs, where the command opened files before: the next one has this number.
    #[tactic(auto, unfolding(crate::specs::Filters::filters_from))]
    pub fn from_number(
        alloc: Global,
        wd: &Path,
        work: W,
        inputs: &WordList,
        next: u64,
    ) -> Result<Filter<W>, NoMemory>
        ensures { IfOk result (λ f. filter_talk W.job f Answer.Go ≡ filters_from next (W.job work) wd.now inputs.now) }
    {
        let operands = queue_of(alloc, inputs.as_slice())?;
        let wd = wd.copy()?;
        Ok(Filter {
            alloc,
            wd,
            work,
            operands,
            reader: Reader::from_number(alloc, next),
            stage: Stage::Next,
        })
    }

    fn go_on(&mut self, stage: Stage, answer: Answer) -> Result<Move, NoMemory>
        ensures talk { IfOk result (IsSaidBy (W.job self.new.work) self.new.wd (stage_talk (W.job self.old.work) self.old.wd self.old.operands.items self.old.reader stage answer) self.new.operands.items self.new.reader) }
        ensures costly { IfOk result (λ move. IsCostly move.turn) }
    {
        let alloc = self.alloc;
        match stage {
            Stage::Next => read_next(
                &self.work,
                alloc,
                &self.wd,
                &mut self.operands,
                &mut self.reader,
            ),
            Stage::Opening(operand) => read_opened(
                &self.work,
                &self.wd,
                &mut self.operands,
                &mut self.reader,
                operand,
                answer,
            ),
            Stage::Reading(operand) => add_read(
                &self.work,
                &self.wd,
                &mut self.operands,
                &mut self.reader,
                operand,
                answer,
            ),
            Stage::Paid => put_paid(&self.work, alloc, &self.reader),
            Stage::Emptying(file, number, made) => {
                write_into(&self.work, alloc, file, number, made, answer)
            }
            Stage::Writing(place, errors, status) => {
                finish(&self.work, alloc, place, errors, status, answer)
            }
            Stage::Over(status) => Ok(Move {
                turn: Turn::Exit(status, 0),
                stage: Stage::Over(status),
            }),
        }
    }
}

impl<W: Work> Machine for Filter<W> {
    ghost use Rattle.ut_filter.specs.Machine.{filter_talk};

    ghost talk = { filter_talk W.job };

    fn resume(&mut self, answer: Answer) -> Result<Turn, NoMemory> {
        let stage = mem::replace(&mut self.stage, Stage::Next);
        let Move { turn, stage } = self.go_on(stage, answer)?;
        self.stage = stage;
        Ok(turn)
    }
}

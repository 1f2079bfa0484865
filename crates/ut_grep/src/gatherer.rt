// How `grep` gathers its patterns.
ghost use Rattle.std.specs.Prelude.{◌≡◌, ◌++◌, codes, IfOk, OnOk};
ghost use Rattle.rk_base.specs.Errno.{word};
ghost use Rattle.rk_calls.specs.Brought.{brought};
ghost use Rattle.rk_calls.specs.Costly.{IsCostly};
ghost use Rattle.rk_calls.specs.Lines.{error_line};
ghost use Rattle.ut_args.specs.Usage.{complains, complaint_talk};
ghost use Rattle.ut_filter.specs.Lines.{lines_of};
ghost use Rattle.ut_filter.specs.Machine.{filter_talk};
ghost use Rattle.ut_grep.specs.Gathering.{goes_on, goes_on_with, gatherer_talk};
ghost use Rattle.ut_grep.specs.Values.{grep_job};
ghost use Rattle.ut_grep.specs.Starts.{patterns_read, patterns_opened, reads_patterns, seeks};
ghost use Rattle.ut_grep.specs.Utilities.{IsSaidBy};

use crate::grep::{Grep, Manner};
use crate::pattern::patterns_of;
use crate::utility::{GrepUtility, Move, complain, filter};
use rk_base::{Bytes, Errno, NoMemory, Path, WordList};
use rk_calls::{Answer, Call, How, Turn, absolute, brought};
use std::alloc::Global;
use std::collections::VecDeque;
use ut_args::Complaint;
use ut_filter::{Filter, front_line, or_dash};

/// What it waits for.
#[derive(Drop)]
pub enum Waits {
    /// The next file comes.
    Next,
    /// This file is being opened.
    Opening(Bytes),
    /// This file is being read.
    Reading(Bytes),
}

/// What `grep` will do, the files of patterns that are left, the patterns so far, and the number of the next file
/// that is opened.
#[derive(Drop)]
pub struct Gathered {
    pub(crate) alloc: Global,
    pub(crate) wd: Path,
    pub(crate) manner: Manner,
    pub(crate) operands: WordList,
    pub(crate) files: VecDeque<Bytes>,
    pub(crate) patterns: WordList,
    pub(crate) next: u64,
}

/// `grep` while it reads its patterns.
#[derive(Drop)]
pub struct Gatherer {
    pub(crate) gathered: Gathered,
    pub(crate) waits: Waits,
}

// The lines of a text, after others.
pub(crate) fn add_lines(alloc: Global, text: &[u8], patterns: &mut WordList) -> Result<(), NoMemory>
    ensures { OnOk result (patterns.new ≡ patterns.old ++ lines_of text.now) }
{
    let mut rest = text;
    'lines: while let Some((line, after)) = front_line(rest) {
        let line = Bytes::from_slice(alloc, line)?;
        patterns.push(line)?;
        rest = after;
    }
    Ok(())
}

// A file of patterns was refused: nothing else is asked.
fn refuse(alloc: Global, file: &Bytes, errno: Errno) -> Result<Move, NoMemory>
    ensures talk { IfOk result (IsSaidBy (complains (error_line (codes "grep") file.now (word errno)) 2)) }
    ensures costly { IfOk result (λ move. IsCostly move.turn) }
{
    let word = errno.word().as_bytes();
    let complaint = Complaint::of_operand(alloc, b"grep", file.as_slice(), word, 2)?;
    complain(complaint, Answer::Go)
}

// A text is no pattern: nothing else is asked.
fn refuse_pattern(alloc: Global, text: &Bytes) -> Result<Move, NoMemory>
    ensures talk { IfOk result (IsSaidBy (complains (error_line (codes "grep") text.now (codes "not valid")) 2)) }
    ensures costly { IfOk result (λ move. IsCostly move.turn) }
{
    let complaint = Complaint::of_operand(alloc, b"grep", text.as_slice(), b"not valid", 2)?;
    complain(complaint, Answer::Go)
}

// All texts of patterns are there.
fn seek(gathered: Gathered) -> Result<Move, NoMemory>
    ensures talk { IfOk result (IsSaidBy (seeks gathered.wd gathered.manner gathered.operands gathered.patterns gathered.next)) }
    ensures costly { IfOk result (λ move. IsCostly move.turn) }
{
    let alloc = gathered.alloc;
    match patterns_of(alloc, gathered.manner, gathered.patterns.as_slice())? {
        Err(text) => refuse_pattern(alloc, &text),
        Ok(patterns) => {
            let grep = Grep::new(alloc, patterns, gathered.manner)?;
            let inputs = or_dash(alloc, gathered.operands)?;
            let machine = Filter::from_number(alloc, &gathered.wd, grep, &inputs, gathered.next)?;
            filter(machine, Answer::Go)
        }
    }
}

fn read(gathered: Gathered, file: Bytes) -> Result<Move, NoMemory>
    ensures talk { IfOk result (IsSaidBy (reads_patterns gathered.wd file gathered.patterns gathered.next (goes_on_with gathered))) }
    ensures costly { IfOk result (λ move. IsCostly move.turn) }
{
    if file.as_slice() == b"-".as_slice() {
        return Ok(Move {
            turn: Turn::Ask(Call::Read(0), 1),
            utility: GrepUtility::Gathers(Gatherer {
                gathered,
                waits: Waits::Reading(file),
            }),
        });
    }
    let path = absolute(gathered.alloc, &gathered.wd, file.as_slice())?;
    Ok(Move {
        turn: Turn::Ask(Call::Open(path, How::Read), 1),
        utility: GrepUtility::Gathers(Gatherer {
            gathered,
            waits: Waits::Opening(file),
        }),
    })
}

/// The next file, or after the last one the inputs.
pub(crate) fn read_next(mut gathered: Gathered) -> Result<Move, NoMemory>
    ensures talk { IfOk result (IsSaidBy (goes_on gathered)) }
    ensures costly { IfOk result (λ move. IsCostly move.turn) }
{
    match gathered.files.pop_front() {
        None => seek(gathered),
        Some(file) => read(gathered, file),
    }
}

fn read_opened(mut gathered: Gathered, file: Bytes, answer: Answer) -> Result<Move, NoMemory>
    ensures talk { IfOk result (IsSaidBy (patterns_opened file gathered.patterns gathered.next (goes_on_with gathered) (brought answer))) }
    ensures costly { IfOk result (λ move. IsCostly move.turn) }
{
    match brought(gathered.alloc, answer)? {
        Err(errno) => refuse(gathered.alloc, &file, errno),
        Ok(_) => {
            let number = gathered.next;
            gathered.next = number.checked_add(1).ok_or(NoMemory)?;
            Ok(Move {
                turn: Turn::Ask(Call::Read(number), 1),
                utility: GrepUtility::Gathers(Gatherer {
                    gathered,
                    waits: Waits::Reading(file),
                }),
            })
        }
    }
}

fn add_read(mut gathered: Gathered, file: Bytes, answer: Answer) -> Result<Move, NoMemory>
    ensures talk { IfOk result (IsSaidBy (patterns_read file gathered.patterns (λ ps. goes_on_with gathered ps gathered.next) (brought answer))) }
    ensures costly { IfOk result (λ move. IsCostly move.turn) }
{
    match brought(gathered.alloc, answer)? {
        Err(errno) => refuse(gathered.alloc, &file, errno),
        Ok(text) => {
            add_lines(gathered.alloc, text.as_slice(), &mut gathered.patterns)?;
            read_next(gathered)
        }
    }
}

impl Gatherer {
    pub(crate) fn go_on(self, answer: Answer) -> Result<Move, NoMemory>
        ensures talk { IfOk result (IsSaidBy (gatherer_talk self answer)) }
        ensures costly { IfOk result (λ move. IsCostly move.turn) }
    {
        let Gatherer { gathered, waits } = self;
        match waits {
            Waits::Next => read_next(gathered),
            Waits::Opening(file) => read_opened(gathered, file, answer),
            Waits::Reading(file) => add_read(gathered, file, answer),
        }
    }
}

// How `sed` gathers its commands.
ghost use Rattle.std.specs.Prelude.{◌≡◌, codes, IfOk};
ghost use Rattle.rk_base.specs.Errno.{word};
ghost use Rattle.rk_calls.specs.Brought.{brought};
ghost use Rattle.rk_calls.specs.Costly.{IsCostly};
ghost use Rattle.rk_calls.specs.Lines.{error_line};
ghost use Rattle.ut_args.specs.Usage.{complains};
ghost use Rattle.ut_sed.specs.Commands.{commands_of};
ghost use Rattle.ut_sed.specs.Gathering.{goes_on, goes_on_with, gatherer_talk};
ghost use Rattle.ut_sed.specs.Starts.{edits, is_not_valid, script_read, script_opened, reads_script};
ghost use Rattle.ut_sed.specs.Utilities.{IsSaidBy};

use crate::command::Command;
use crate::reader::read_script;
use crate::sed::Sed;
use crate::utility::{Move, SedUtility, complain, filter};
use rk_base::{Bytes, Errno, NoMemory, Path, WordList};
use rk_calls::{Answer, Call, How, Turn, absolute, brought};
use std::alloc::Global;
use std::collections::VecDeque;
use ut_args::Complaint;
use ut_filter::{Filter, or_dash};

/// Where commands come from.
#[derive(Drop)]
pub enum Source {
    /// A script.
    Script(Bytes),
    /// A file that holds one.
    File(Bytes),
}

/// What it waits for.
#[derive(Drop)]
pub enum Waits {
    /// The next script comes.
    Next,
    /// This file is being opened.
    Opening(Bytes),
    /// This file is being read.
    Reading(Bytes),
}

/// What `sed` will do, the scripts that are left, the commands so far, and the number of the next file that is opened.
#[derive(Drop)]
pub struct Gathered {
    pub(crate) alloc: Global,
    pub(crate) wd: Path,
    pub(crate) quiet: bool,
    pub(crate) operands: WordList,
    pub(crate) sources: VecDeque<Source>,
    pub(crate) commands: Vec<Command>,
    pub(crate) next: u64,
}

/// `sed` while it reads its scripts.
#[derive(Drop)]
pub struct Gatherer {
    pub(crate) gathered: Gathered,
    pub(crate) waits: Waits,
}

// A file of a script was refused: nothing else is asked.
fn refuse(alloc: Global, file: &Bytes, errno: Errno) -> Result<Move, NoMemory>
    ensures talk { IfOk result (IsSaidBy (complains (error_line (codes "sed") file.now (word errno)) 1)) }
    ensures costly { IfOk result (λ move. IsCostly move.turn) }
{
    let word = errno.word().as_bytes();
    let complaint = Complaint::of_operand(alloc, b"sed", file.as_slice(), word, 1)?;
    complain(complaint, Answer::Go)
}

// A script isn't valid.
fn refuse_script(alloc: Global, script: &Bytes) -> Result<Move, NoMemory>
    ensures talk { IfOk result (IsSaidBy (is_not_valid script.now)) }
    ensures costly { IfOk result (λ move. IsCostly move.turn) }
{
    let complaint = Complaint::of_operand(alloc, b"sed", script.as_slice(), b"not valid", 1)?;
    complain(complaint, Answer::Go)
}

// All commands are there.
fn edit(gathered: Gathered) -> Result<Move, NoMemory>
    ensures talk { IfOk result (IsSaidBy (edits gathered.wd gathered.quiet gathered.operands (commands_of gathered.commands.items) gathered.next)) }
    ensures costly { IfOk result (λ move. IsCostly move.turn) }
{
    let alloc = gathered.alloc;
    let sed = Sed {
        quiet: gathered.quiet,
        commands: gathered.commands,
    };
    let inputs = or_dash(alloc, gathered.operands)?;
    let machine = Filter::from_number(alloc, &gathered.wd, sed, &inputs, gathered.next)?;
    filter(machine, Answer::Go)
}

fn read(gathered: Gathered, file: Bytes) -> Result<Move, NoMemory>
    ensures talk { IfOk result (IsSaidBy (reads_script gathered.wd file (commands_of gathered.commands.items) gathered.next (goes_on_with gathered))) }
    ensures costly { IfOk result (λ move. IsCostly move.turn) }
{
    if file.as_slice() == b"-".as_slice() {
        return Ok(Move {
            turn: Turn::Ask(Call::Read(0), 1),
            utility: SedUtility::Gathers(Gatherer {
                gathered,
                waits: Waits::Reading(file),
            }),
        });
    }
    let path = absolute(gathered.alloc, &gathered.wd, file.as_slice())?;
    Ok(Move {
        turn: Turn::Ask(Call::Open(path, How::Read), 1),
        utility: SedUtility::Gathers(Gatherer {
            gathered,
            waits: Waits::Opening(file),
        }),
    })
}

/// The next scripts, up to a file, or after the last one the inputs.
pub(crate) fn read_next(mut gathered: Gathered) -> Result<Move, NoMemory>
    ensures talk { IfOk result (IsSaidBy (goes_on gathered)) }
    ensures costly { IfOk result (λ move. IsCostly move.turn) }
{
    'sources: while let Some(source) = gathered.sources.pop_front() {
        match source {
            Source::File(file) => return read(gathered, file),
            Source::Script(script) => {
                let alloc = gathered.alloc;
                if !read_script(alloc, script.as_slice(), &mut gathered.commands)? {
                    return refuse_script(alloc, &script);
                }
            }
        }
    }
    edit(gathered)
}

fn read_opened(mut gathered: Gathered, file: Bytes, answer: Answer) -> Result<Move, NoMemory>
    ensures talk { IfOk result (IsSaidBy (script_opened file (commands_of gathered.commands.items) gathered.next (goes_on_with gathered) (brought answer))) }
    ensures costly { IfOk result (λ move. IsCostly move.turn) }
{
    match brought(gathered.alloc, answer)? {
        Err(errno) => refuse(gathered.alloc, &file, errno),
        Ok(_) => {
            let number = gathered.next;
            gathered.next = number.checked_add(1).ok_or(NoMemory)?;
            Ok(Move {
                turn: Turn::Ask(Call::Read(number), 1),
                utility: SedUtility::Gathers(Gatherer {
                    gathered,
                    waits: Waits::Reading(file),
                }),
            })
        }
    }
}

fn add_read(mut gathered: Gathered, file: Bytes, answer: Answer) -> Result<Move, NoMemory>
    ensures talk { IfOk result (IsSaidBy (script_read file (commands_of gathered.commands.items) (λ cs. goes_on_with gathered cs gathered.next) (brought answer))) }
    ensures costly { IfOk result (λ move. IsCostly move.turn) }
{
    let alloc = gathered.alloc;
    match brought(alloc, answer)? {
        Err(errno) => refuse(alloc, &file, errno),
        Ok(text) => {
            if !read_script(alloc, text.as_slice(), &mut gathered.commands)? {
                return refuse_script(alloc, &file);
            }
            read_next(gathered)
        }
    }
}

impl Gatherer {
    pub(crate) fn go_on(self, answer: Answer) -> Result<Move, NoMemory>
        ensures talk { IfOk result (IsSaidBy (gatherer_talk self answer)) }
        ensures costly { IfOk result (λ move. IsCostly move.turn) }
    {
        let Gatherer { gathered, waits } = self;
        match waits {
            Waits::Next => read_next(gathered),
            Waits::Opening(file) => read_opened(gathered, file, answer),
            Waits::Reading(file) => add_read(gathered, file, answer),
        }
    }
}

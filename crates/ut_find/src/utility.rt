// `find` as a machine.
ghost use Rattle.std.specs.Prelude.{◌≡◌, IfOk};
ghost use Rattle.rk_calls.specs.Costly.{IsCostly};
ghost use Rattle.ut_args.specs.Usage.{complaint_talk};
ghost use Rattle.ut_filter.specs.Machine.{filter_talk};
ghost use Rattle.ut_find.specs.Finds.{found_job, writes};
ghost use Rattle.ut_find.specs.Moved.{IsSaidBy};
ghost use Rattle.ut_find.specs.Utilities.{find_talk};
ghost use Rattle.ut_find.specs.Walking.{walk_talk, work_of};

use crate::found::Found;
use crate::walk::Walk;
use rk_base::{Bytes, NoMemory, WordList};
use rk_calls::{Answer, Machine, Turn};
use std::mem;
use ut_args::Complaint;
use ut_filter::Filter;

/// `find`, while it runs.
#[derive(Drop)]
pub enum FindUtility {
    Complains(Complaint),
    Walks(Walk),
    Writes(Filter<Found>),
    Over,
}

/// A turn, and the utility after it.
#[derive(Drop)]
pub struct Moved {
    pub turn: Turn,
    pub utility: FindUtility,
}

fn complain(mut machine: Complaint, answer: Answer) -> Result<Moved, NoMemory>
    ensures talk { IfOk result (IsSaidBy (complaint_talk machine answer)) }
    ensures costly { IfOk result (λ moved. IsCostly moved.turn) }
{
    let turn = machine.resume(answer)?;
    Ok(Moved {
        turn,
        utility: FindUtility::Complains(machine),
    })
}

fn write_on(mut machine: Filter<Found>, answer: Answer) -> Result<Moved, NoMemory>
    ensures talk { IfOk result (IsSaidBy (filter_talk found_job machine answer)) }
    ensures costly { IfOk result (λ moved. IsCostly moved.turn) }
{
    let turn = machine.resume(answer)?;
    Ok(Moved {
        turn,
        utility: FindUtility::Writes(machine),
    })
}

// Writes what was found.
fn write(walk: Walk) -> Result<Moved, NoMemory>
    ensures talk { IfOk result (IsSaidBy (writes walk.find.wd (work_of walk))) }
    ensures costly { IfOk result (λ moved. IsCostly moved.turn) }
{
    let alloc = walk.alloc;
    let (find, output, errors) = walk.into_parts();
    let output = Bytes::new(alloc, output)?;
    let errors = Bytes::new(alloc, errors)?;
    let inputs = WordList::new(Vec::new(alloc));
    let filter = Filter::new(alloc, &find.wd, Found { output, errors }, &inputs)?;
    write_on(filter, Answer::Go)
}

fn walk_on(mut walk: Walk, answer: Answer) -> Result<Moved, NoMemory>
    ensures talk { IfOk result (IsSaidBy (walk_talk walk answer)) }
    ensures costly { IfOk result (λ moved. IsCostly moved.turn) }
{
    walk.settle(answer)?;
    match walk.next()? {
        Some(turn) => Ok(Moved {
            turn,
            utility: FindUtility::Walks(walk),
        }),
        None => write(walk),
    }
}

fn go_on(utility: FindUtility, answer: Answer) -> Result<Moved, NoMemory>
    ensures talk { IfOk result (IsSaidBy (find_talk utility answer)) }
    ensures costly { IfOk result (λ moved. IsCostly moved.turn) }
{
    match utility {
        FindUtility::Complains(machine) => complain(machine, answer),
        FindUtility::Walks(walk) => walk_on(walk, answer),
        FindUtility::Writes(machine) => write_on(machine, answer),
        FindUtility::Over => Ok(Moved {
            turn: Turn::Exit(0, 0),
            utility: FindUtility::Over,
        }),
    }
}

impl Machine for FindUtility {
    ghost use Rattle.ut_find.specs.Utilities.{find_talk};

    ghost talk = { find_talk };

    fn resume(&mut self, answer: Answer) -> Result<Turn, NoMemory> {
        let utility = mem::replace(self, FindUtility::Over);
        let Moved { turn, utility } = go_on(utility, answer)?;
        *self = utility;
        Ok(turn)
    }
}

// `grep` as a machine.
ghost use Rattle.std.specs.Prelude.{◌≡◌, IfOk};
ghost use Rattle.rk_calls.specs.Costly.{IsCostly};
ghost use Rattle.ut_args.specs.Usage.{complaint_talk};
ghost use Rattle.ut_filter.specs.Machine.{filter_talk};
ghost use Rattle.ut_grep.specs.Gathering.{gatherer_talk};
ghost use Rattle.ut_grep.specs.Utilities.{IsSaidBy, grep_talk};
ghost use Rattle.ut_grep.specs.Values.{grep_job};

use crate::gatherer::Gatherer;
use crate::grep::Grep;
use rk_base::NoMemory;
use rk_calls::{Answer, Machine, Turn};
use std::mem;
use ut_args::Complaint;
use ut_filter::Filter;

/// `grep` while it gathers its patterns, or while it filters.
#[derive(Drop)]
pub enum GrepUtility {
    Complains(Complaint),
    Filters(Filter<Grep>),
    Gathers(Gatherer),
    Over,
}

/// A turn, and the utility after it.
#[derive(Drop)]
pub struct Move {
    pub turn: Turn,
    pub utility: GrepUtility,
}

pub(crate) fn complain(mut machine: Complaint, answer: Answer) -> Result<Move, NoMemory>
    ensures talk { IfOk result (IsSaidBy (complaint_talk machine answer)) }
    ensures costly { IfOk result (λ move. IsCostly move.turn) }
{
    let turn = machine.resume(answer)?;
    Ok(Move {
        turn,
        utility: GrepUtility::Complains(machine),
    })
}

pub(crate) fn filter(mut machine: Filter<Grep>, answer: Answer) -> Result<Move, NoMemory>
    ensures talk { IfOk result (IsSaidBy (filter_talk grep_job machine answer)) }
    ensures costly { IfOk result (λ move. IsCostly move.turn) }
{
    let turn = machine.resume(answer)?;
    Ok(Move {
        turn,
        utility: GrepUtility::Filters(machine),
    })
}

fn go_on(utility: GrepUtility, answer: Answer) -> Result<Move, NoMemory>
    ensures talk { IfOk result (IsSaidBy (grep_talk utility answer)) }
    ensures costly { IfOk result (λ move. IsCostly move.turn) }
{
    match utility {
        GrepUtility::Complains(machine) => complain(machine, answer),
        GrepUtility::Filters(machine) => filter(machine, answer),
        GrepUtility::Gathers(machine) => machine.go_on(answer),
        GrepUtility::Over => Ok(Move {
            turn: Turn::Exit(0, 0),
            utility: GrepUtility::Over,
        }),
    }
}

impl Machine for GrepUtility {
    ghost use Rattle.ut_grep.specs.Utilities.{grep_talk};

    ghost talk = { grep_talk };

    fn resume(&mut self, answer: Answer) -> Result<Turn, NoMemory> {
        let utility = mem::replace(self, GrepUtility::Over);
        let Move { turn, utility } = go_on(utility, answer)?;
        *self = utility;
        Ok(turn)
    }
}

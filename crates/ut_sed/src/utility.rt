// `sed` as a machine.
ghost use Rattle.std.specs.Prelude.{◌≡◌, IfOk};
ghost use Rattle.rk_calls.specs.Costly.{IsCostly};
ghost use Rattle.ut_args.specs.Usage.{complaint_talk};
ghost use Rattle.ut_filter.specs.Machine.{filter_talk};
ghost use Rattle.ut_sed.specs.Gathering.{gatherer_talk};
ghost use Rattle.ut_sed.specs.Utilities.{IsSaidBy, sed_talk};
ghost use Rattle.ut_sed.specs.Editing.{job_of};

use crate::gatherer::Gatherer;
use crate::sed::Sed;
use rk_base::NoMemory;
use rk_calls::{Answer, Machine, Turn};
use std::mem;
use ut_args::Complaint;
use ut_filter::Filter;

/// `sed` while it gathers its scripts, or while it filters.
#[derive(Drop)]
pub enum SedUtility {
    Complains(Complaint),
    Filters(Filter<Sed>),
    Gathers(Gatherer),
    Over,
}

/// A turn, and the utility after it.
#[derive(Drop)]
pub struct Move {
    pub turn: Turn,
    pub utility: SedUtility,
}

pub(crate) fn complain(mut machine: Complaint, answer: Answer) -> Result<Move, NoMemory>
    ensures talk { IfOk result (IsSaidBy (complaint_talk machine answer)) }
    ensures costly { IfOk result (λ move. IsCostly move.turn) }
{
    let turn = machine.resume(answer)?;
    Ok(Move {
        turn,
        utility: SedUtility::Complains(machine),
    })
}

pub(crate) fn filter(mut machine: Filter<Sed>, answer: Answer) -> Result<Move, NoMemory>
    ensures talk { IfOk result (IsSaidBy (filter_talk job_of machine answer)) }
    ensures costly { IfOk result (λ move. IsCostly move.turn) }
{
    let turn = machine.resume(answer)?;
    Ok(Move {
        turn,
        utility: SedUtility::Filters(machine),
    })
}

fn go_on(utility: SedUtility, answer: Answer) -> Result<Move, NoMemory>
    ensures talk { IfOk result (IsSaidBy (sed_talk utility answer)) }
    ensures costly { IfOk result (λ move. IsCostly move.turn) }
{
    match utility {
        SedUtility::Complains(machine) => complain(machine, answer),
        SedUtility::Filters(machine) => filter(machine, answer),
        SedUtility::Gathers(machine) => machine.go_on(answer),
        SedUtility::Over => Ok(Move {
            turn: Turn::Exit(0, 0),
            utility: SedUtility::Over,
        }),
    }
}

impl Machine for SedUtility {
    ghost use Rattle.ut_sed.specs.Utilities.{sed_talk};

    ghost talk = { sed_talk };

    fn resume(&mut self, answer: Answer) -> Result<Turn, NoMemory> {
        let utility = mem::replace(self, SedUtility::Over);
        let Move { turn, utility } = go_on(utility, answer)?;
        *self = utility;
        Ok(turn)
    }
}

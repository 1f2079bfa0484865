// These utilities as machines.
ghost use Rattle.std.specs.Prelude.{◌≡◌, ℕ, IfOk};
ghost use Rattle.rk_calls.specs.Costly.{IsCostly};
ghost use Rattle.ut_args.specs.Usage.{complaint_talk};
ghost use Rattle.ut_filter.specs.Machine.{filter_talk};
ghost use Rattle.ut_plain.specs.Names.{line_job};
ghost use Rattle.ut_plain.specs.Moved.{IsSaidBy};
ghost use Rattle.ut_plain.specs.TeeStages.{tee_talk};
ghost use Rattle.ut_plain.specs.Utilities.{plain_talk};

use crate::names::Line;
use crate::tee;
use crate::tee::Tee;
use rk_base::NoMemory;
use rk_calls::{Answer, Machine, Turn};
use std::mem;
use ut_args::Complaint;
use ut_filter::Filter;

/// A utility that runs.
#[derive(Drop)]
pub enum PlainUtility {
    Complains(Complaint),
    Filters(Filter<Line>),
    Tees(Tee),
    Over,
}

/// A turn, and the utility after it.
#[derive(Drop)]
pub struct Moved {
    pub turn: Turn,
    pub utility: PlainUtility,
}

fn complain(mut machine: Complaint, answer: Answer) -> Result<Moved, NoMemory>
    ensures talk { IfOk result (IsSaidBy (complaint_talk machine answer)) }
    ensures costly { IfOk result (λ moved. IsCostly moved.turn) }
{
    let turn = machine.resume(answer)?;
    Ok(Moved {
        turn,
        utility: PlainUtility::Complains(machine),
    })
}

fn filter(mut machine: Filter<Line>, answer: Answer) -> Result<Moved, NoMemory>
    ensures talk { IfOk result (IsSaidBy (filter_talk line_job machine answer)) }
    ensures costly { IfOk result (λ moved. IsCostly moved.turn) }
{
    let turn = machine.resume(answer)?;
    Ok(Moved {
        turn,
        utility: PlainUtility::Filters(machine),
    })
}

fn tee_on(machine: Tee, answer: Answer) -> Result<Moved, NoMemory>
    ensures talk { IfOk result (IsSaidBy (tee_talk machine answer)) }
    ensures costly { IfOk result (λ moved. IsCostly moved.turn) }
{
    let next = machine.go_on(answer)?;
    let tee::Move { turn, tee } = next;
    Ok(Moved {
        turn,
        utility: PlainUtility::Tees(tee),
    })
}

fn go_on(utility: PlainUtility, answer: Answer) -> Result<Moved, NoMemory>
    ensures talk { IfOk result (IsSaidBy (plain_talk utility answer)) }
    ensures costly { IfOk result (λ moved. IsCostly moved.turn) }
{
    match utility {
        PlainUtility::Complains(machine) => complain(machine, answer),
        PlainUtility::Filters(machine) => filter(machine, answer),
        PlainUtility::Tees(machine) => tee_on(machine, answer),
        PlainUtility::Over => Ok(Moved {
            turn: Turn::Exit(0, 0),
            utility: PlainUtility::Over,
        }),
    }
}

impl Machine for PlainUtility {
    ghost use Rattle.ut_plain.specs.Utilities.{plain_talk};

    ghost talk = { plain_talk };

    fn resume(&mut self, answer: Answer) -> Result<Turn, NoMemory> {
        let utility = mem::replace(self, PlainUtility::Over);
        let Moved { turn, utility } = go_on(utility, answer)?;
        *self = utility;
        Ok(turn)
    }
}

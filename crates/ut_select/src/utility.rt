// Utilities that select, as machines.
ghost use Rattle.std.specs.Prelude.{◌≡◌};

use crate::work::SelectWork;
use rk_base::NoMemory;
use rk_calls::{Answer, Machine, Turn};
use ut_args::Complaint;
use ut_filter::Filter;

/// A utility that selects, while it runs.
#[derive(Drop)]
pub enum SelectUtility {
    Complains(Complaint),
    Filters(Filter<SelectWork>),
}

impl Machine for SelectUtility {
    ghost use Rattle.ut_select.specs.Utilities.{select_talk};

    ghost talk = { select_talk };

    fn resume(&mut self, answer: Answer) -> Result<Turn, NoMemory> {
        match self {
            SelectUtility::Complains(machine) => machine.resume(answer),
            SelectUtility::Filters(machine) => machine.resume(answer),
        }
    }
}

// `sort` as a machine.
ghost use Rattle.std.specs.Prelude.{◌≡◌};

use crate::sort::Sort;
use rk_base::NoMemory;
use rk_calls::{Answer, Machine, Turn};
use ut_args::Complaint;
use ut_filter::Filter;

/// `sort`, while it runs.
#[derive(Drop)]
pub enum SortUtility {
    Complains(Complaint),
    Filters(Filter<Sort>),
}

impl Machine for SortUtility {
    ghost use Rattle.ut_sort.specs.Utilities.{sort_talk};

    ghost talk = { sort_talk };

    fn resume(&mut self, answer: Answer) -> Result<Turn, NoMemory> {
        match self {
            SortUtility::Complains(machine) => machine.resume(answer),
            SortUtility::Filters(machine) => machine.resume(answer),
        }
    }
}

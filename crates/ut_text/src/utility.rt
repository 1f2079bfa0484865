// Text utilities as machines.
ghost use Rattle.std.specs.Prelude.{◌≡◌};

use crate::work::TextWork;
use rk_base::NoMemory;
use rk_calls::{Answer, Machine, Turn};
use ut_args::Complaint;
use ut_filter::Filter;

/// A text utility that runs.
#[derive(Drop)]
pub enum TextUtility {
    Complains(Complaint),
    Filters(Filter<TextWork>),
}

impl Machine for TextUtility {
    ghost use Rattle.ut_text.specs.Utilities.{text_talk};

    ghost talk = { text_talk };

    fn resume(&mut self, answer: Answer) -> Result<Turn, NoMemory> {
        match self {
            TextUtility::Complains(machine) => machine.resume(answer),
            TextUtility::Filters(machine) => machine.resume(answer),
        }
    }
}

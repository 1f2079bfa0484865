// `grep`: what it selects lines by.
ghost use Rattle.std.specs.Option.{ForSome};
ghost use Rattle.ut_grep.specs.Sought.{IsSoughtInstead};

use crate::pattern::Pattern;
use crate::sought::Sought;
use rk_base::{Bytes, NoMemory};
use std::alloc::Global;
use ut_filter::{Grown, HELD, Input, Made, Measured, Work};

/// What `grep` tells of its lines, and how it selects them.
#[derive(Clone, Copy, Debug, Drop)]
pub struct Manner {
    /// `-F`: patterns are texts.
    pub fixed: bool,
    /// `-i`: letters count in either case.
    pub folded: bool,
    /// `-v`: lines that hold no pattern are selected.
    pub inverted: bool,
    /// `-x`: a pattern must be the whole line.
    pub whole: bool,
    /// `-n`: the number of each line is told.
    pub numbered: bool,
    /// `-c`: the lines are counted.
    pub counted: bool,
    /// `-l`: the inputs are named.
    pub listed: bool,
    /// `-q`: nothing is told.
    pub quiet: bool,
    /// There are several inputs.
    pub many: bool,
}

/// Its patterns, and the rest of its options.
#[derive(Drop)]
pub struct Grep {
    pub(crate) patterns: Vec<Pattern>,
    pub(crate) manner: Manner,
    pub(crate) sought: Option<Sought>,
    ghost alike: { ForSome sought (λ s. IsSoughtInstead s manner patterns.items) },
}

impl Work for Grep {
    ghost use Rattle.ut_grep.specs.Values.{grep_job};

    ghost job = { grep_job };

    fn name(&self) -> &'static [u8] {
        b"grep"
    }

    fn failed(&self) -> u8 {
        2
    }

    fn out(&self) -> Option<&Bytes> {
        None
    }

    fn measure(&self, alloc: Global, inputs: &[Input]) -> Result<Measured, NoMemory> {
        let (grown, some) = self.output(alloc, inputs, HELD)?;
        match grown {
            Grown::Text(output) => {
                let made = self.made(alloc, inputs, output, some)?;
                Ok(Measured::Short(made))
            }
            Grown::Length(length) => Ok(Measured::Long(length)),
        }
    }

    fn make(&self, alloc: Global, inputs: &[Input]) -> Result<Made, NoMemory> {
        let (grown, some) = self.output(alloc, inputs, usize::MAX)?;
        match grown {
            Grown::Text(output) => self.made(alloc, inputs, output, some),
            Grown::Length(_) => Err(NoMemory),
        }
    }
}

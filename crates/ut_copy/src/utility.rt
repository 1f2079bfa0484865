// The utilities by their names, options and operands.
ghost use Rattle.std.specs.Prelude.{◌≡◌, IfOk, option_map};
ghost use Rattle.rk_calls.specs.declared.answer.Answer.TheVariants.{Go};
ghost use Rattle.ut_copy.specs.Utilities.{name_of, named, first_steps, copy_talk, copy_utility};

use crate::copy_task::CopyTask;
use rk_base::{Bytes, NoMemory, Path, WordList};
use std::alloc::Global;
use ut_args::{Form, Opt, OptList};
use ut_files::{
    Manner, Tasked, WorkItem, Worker, alone, begin_found, first_word, sources_of, target_of,
    the_target, usage,
};

/// The utilities of this crate (XCU, "Utilities").
#[derive(Clone, Copy, Debug, Drop)]
pub enum Utility {
    Cp,
    Mv,
}

/// A utility at work.
pub type CopyUtility = Worker<CopyTask>;

const CP: [Opt; 1] = [Opt {
    letter: b'R',
    form: Form::Alone,
}];

const MV: [Opt; 1] = [Opt {
    letter: b'f',
    form: Form::Alone,
}];

impl Utility {
    /// Its name, which its error text begins with.
    pub fn name(self) -> &'static [u8]
        ensures { result.now ≡ name_of self }
    {
        match self {
            Utility::Cp => b"cp",
            Utility::Mv => b"mv",
        }
    }

    /// The utility of this name, where this crate has it.
    pub fn named(name: &[u8]) -> Option<Utility>
        ensures { result ≡ named name.now }
    {
        if name == b"cp".as_slice() {
            return Some(Utility::Cp);
        }
        if name == b"mv".as_slice() {
            return Some(Utility::Mv);
        }
        None
    }
}

fn first_steps(
    alloc: Global,
    utility: Utility,
    manner: &Manner,
    operands: &[Bytes],
) -> Result<Vec<WorkItem<CopyTask>>, NoMemory>
    ensures { IfOk result (λ steps. steps.items ≡ first_steps utility manner.now operands.now) }
{
    let sources = sources_of(alloc, operands)?;
    match the_target(sources.as_slice(), target_of(operands)) {
        None => usage(alloc, manner),
        Some(target) => alone(
            alloc,
            WorkItem::Do(CopyTask::FindTarget(utility, sources, target.copy()?)),
        ),
    }
}

impl Tasked for Utility {
    ghost use Rattle.ut_copy.specs.Utilities.{beginning};

    type Task = CopyTask;

    ghost beginning = { beginning };

    fn table(&self) -> &'static [Opt] {
        match self {
            Utility::Cp => &CP,
            Utility::Mv => &MV,
        }
    }

    fn manner(&self, alloc: Global, wd: &Path, given: &OptList) -> Result<Manner, NoMemory> {
        let name = Bytes::from_slice(alloc, self.name())?;
        let wd = wd.copy()?;
        Ok(Manner {
            name,
            wd,
            force: given.has(b'f'),
            recursive: given.has(b'R'),
            symbolic: false,
        })
    }

    fn first_steps(
        &self,
        alloc: Global,
        manner: &Manner,
        _given: &OptList,
        operands: &[Bytes],
    ) -> Result<Vec<WorkItem<CopyTask>>, NoMemory> {
        first_steps(alloc, *self, manner, operands)
    }
}

/// The utility of these words, of which the first is its name, in a working directory; `None` where this crate has
/// none of that name.
pub fn start(alloc: Global, wd: &Path, argv: &WordList) -> Result<Option<CopyUtility>, NoMemory>
    ensures { IfOk result (λ o. option_map (λ w. copy_talk w Go) o ≡ copy_utility wd.now argv.now) }
{
    begin_found(alloc, Utility::named(first_word(argv)), wd, argv)
}

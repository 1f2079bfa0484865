// A utility of tasks, by its words.
ghost use Rattle.std.specs.Prelude.{◌≡◌, IfOk, Ok, Err, option_map};
ghost use Rattle.rk_calls.specs.declared.answer.Answer.TheVariants.{Go};
ghost use Rattle.ut_files.specs.Beginnings.{begins, by_options, says, by_name, first_word};
ghost use Rattle.ut_files.specs.Working.{worker_talk};

use crate::complaints::bad_option;
use crate::manner::Manner;
use crate::step::WorkItem;
use crate::task::Task;
use crate::worker::Worker;
use rk_base::{Bytes, NoMemory, Path, WordList};
use std::alloc::Global;
use ut_args::{Args, Opt, OptList, UsageOr, options};

/// A utility that is made of tasks.
pub trait Tasked: Drop {
    ghost use Rattle.ut_files.specs.Beginnings.{Beginning};

    type Task: Task;

    ghost beginning: { Self → Beginning Self.Task };

    /// Its options.
    fn table(&self) -> &'static [Opt]
        ensures { result.now ≡ (beginning self.now).table };

    /// How it works in a directory by the options that are given.
    fn manner(&self, alloc: Global, wd: &Path, given: &OptList) -> Result<Manner, NoMemory>
        ensures { IfOk result (λ m. m ≡ (beginning self.now).manner wd.now given.now) };

    /// Its first steps, by options and operands.
    fn first_steps(
        &self,
        alloc: Global,
        manner: &Manner,
        given: &OptList,
        operands: &[Bytes],
    ) -> Result<Vec<WorkItem<Self::Task>>, NoMemory>
        ensures { IfOk result (λ steps. steps.items ≡ (beginning self.now).first manner.now given.now operands.now) };
}

fn begin<U: Tasked>(
    alloc: Global,
    utility: &U,
    wd: &Path,
    given: &OptList,
    operands: &[Bytes],
) -> Result<Worker<U::Task>, NoMemory>
    ensures { IfOk result (λ w. worker_talk U.Task.rules w Go ≡ begins U.Task.rules (U.beginning utility.now) wd.now given.now operands.now) }
{
    let manner = utility.manner(alloc, wd, given)?;
    let steps = utility.first_steps(alloc, &manner, given, operands)?;
    Worker::new(alloc, manner, steps)
}

fn begin_args<U: Tasked>(
    alloc: Global,
    utility: &U,
    wd: &Path,
    args: &Args,
) -> Result<Worker<U::Task>, NoMemory>
    ensures { IfOk result (λ w. worker_talk U.Task.rules w Go ≡ by_options U.Task.rules (U.beginning utility.now) wd.now (Ok args.now)) }
{
    begin(alloc, utility, wd, &args.given, args.operands.as_slice())
}

fn refuse<U: Tasked>(
    alloc: Global,
    utility: &U,
    wd: &Path,
    option: &Bytes,
) -> Result<Worker<U::Task>, NoMemory>
    ensures { IfOk result (λ w. worker_talk U.Task.rules w Go ≡ by_options U.Task.rules (U.beginning utility.now) wd.now (Err option.now)) }
{
    let none = OptList::new(alloc);
    let manner = utility.manner(alloc, wd, &none)?;
    let steps = bad_option(alloc, &manner, option.as_slice())?;
    Worker::new(alloc, manner, steps)
}

#[tactic(auto, unfolding(crate::specs::Beginnings::says))]
fn begin_utility<U: Tasked>(
    alloc: Global,
    utility: &U,
    wd: &Path,
    argv: &WordList,
) -> Result<Worker<U::Task>, NoMemory>
    ensures { IfOk result (λ w. worker_talk U.Task.rules w Go ≡ says U.Task.rules (U.beginning utility.now) wd.now argv.now) }
{
    match options(alloc, utility.table(), argv) {
        Ok(args) => begin_args(alloc, utility, wd, &args),
        Err(fault) => match fault {
            UsageOr::Usage(option) => refuse(alloc, utility, wd, &option),
            UsageOr::NoMemory => Err(NoMemory),
        },
    }
}

/// A utility that was found by its name, in a working directory, with these words, of which the first is that name;
/// `None` where none was found.
pub fn begin_found<U: Tasked>(
    alloc: Global,
    found: Option<U>,
    wd: &Path,
    argv: &WordList,
) -> Result<Option<Worker<U::Task>>, NoMemory>
    ensures { IfOk result (λ o. option_map (λ w. worker_talk U.Task.rules w Go) o ≡ by_name U.Task.rules U.beginning wd.now argv.now found) }
{
    match found {
        None => Ok(None),
        Some(utility) => {
            let worker = begin_utility(alloc, &utility, wd, argv)?;
            Ok(Some(worker))
        }
    }
}

/// The first of some words, or no text where there is none.
pub fn first_word(argv: &WordList) -> &[u8]
    ensures { result.now ≡ first_word argv.now }
{
    match argv.as_slice() {
        [] => b"",
        [name, ..] => name.as_slice(),
    }
}

// How a utility begins.
ghost use Rattle.std.specs.Prelude.{◌≡◌, IfOk};
ghost use Rattle.ut_args.specs.Words.{options};
ghost use Rattle.ut_args.specs.Usage.{Begins};

use crate::args::{Args, UsageOr};
use crate::complaint::Complaint;
use crate::form::Opt;
use crate::words::options;
use rk_base::{NoMemory, WordList};
use std::alloc::Global;

/// The options and operands of a utility with this name, from its words, or the complaint of the option that is at
/// fault: `NAME: -X: usage` and this status.
pub fn begin(
    alloc: Global,
    name: &[u8],
    status: u8,
    table: &[Opt],
    argv: &WordList,
) -> Result<Result<Args, Complaint>, NoMemory>
    ensures { IfOk result (λ r. Begins name.now status (options table.now argv.now) r) }
{
    match options(alloc, table, argv) {
        Ok(args) => Ok(Ok(args)),
        Err(UsageOr::Usage(option)) => {
            let complaint = Complaint::of_option(alloc, name, option.as_slice(), status)?;
            Ok(Err(complaint))
        }
        Err(UsageOr::NoMemory) => Err(NoMemory),
    }
}

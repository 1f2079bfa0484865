// How `mv` and `cp` take their sources.
ghost use Rattle.std.specs.Prelude.{◌≡◌, IfOk};
ghost use Rattle.ut_copy.specs.Moving.{known, taking, takes, found_target};
ghost use Rattle.ut_files.specs.Answers.{found};
ghost use Rattle.ut_files.specs.Targets.{aim_at};

use crate::copy_task::CopyTask;
use crate::pair::Pair;
use crate::utility::Utility;
use rk_base::{Bytes, NoMemory, WordList};
use rk_calls::Answer;
use std::alloc::Global;
use ut_files::{Aim, Manner, WorkItem, aim_at, complain, found, goal};

fn known(aim: Aim) -> Option<bool>
    ensures { result ≡ known aim }
{
    match aim {
        Aim::Inside => None,
        Aim::Itself(stands) => Some(stands),
        Aim::Nowhere(_) => None,
    }
}

fn taking(utility: Utility, aim: Aim, pair: Pair) -> WorkItem<CopyTask>
    ensures { result ≡ taking utility aim pair }
{
    match utility {
        Utility::Mv => WorkItem::Do(CopyTask::Move(pair)),
        Utility::Cp => WorkItem::Do(CopyTask::LookSource(pair, known(aim), true)),
    }
}

// Each source in turn.
fn takes(
    alloc: Global,
    utility: Utility,
    aim: Aim,
    target: &[u8],
    sources: &[Bytes],
) -> Result<Vec<WorkItem<CopyTask>>, NoMemory>
    ensures { IfOk result (λ steps. steps.items ≡ takes utility aim target.now sources.now) }
{
    let mut steps = Vec::new(alloc);
    'sources: for source in sources {
        let to = goal(alloc, aim, target, source.as_slice())?;
        let pair = Pair {
            source: source.copy()?,
            target: to,
        };
        steps.push(taking(utility, aim, pair))?;
    }
    Ok(steps)
}

fn aimed(
    alloc: Global,
    manner: &Manner,
    utility: Utility,
    sources: &[Bytes],
    target: &[u8],
    aim: Aim,
) -> Result<Vec<WorkItem<CopyTask>>, NoMemory>
    ensures { IfOk result (λ steps. steps.items ≡ found_target manner.now utility sources.now target.now aim) }
{
    match aim {
        Aim::Inside => takes(alloc, utility, Aim::Inside, target, sources),
        Aim::Itself(stands) => takes(alloc, utility, Aim::Itself(stands), target, sources),
        Aim::Nowhere(errno) => complain(alloc, manner, target, errno),
    }
}

/// After the target was looked at.
pub(crate) fn found_target(
    alloc: Global,
    manner: &Manner,
    utility: Utility,
    sources: WordList,
    target: Bytes,
    answer: &Answer,
) -> Result<Vec<WorkItem<CopyTask>>, NoMemory>
    ensures { IfOk result (λ steps. steps.items ≡ found_target manner.now utility sources target (aim_at sources (found answer.now))) }
{
    let aim = aim_at(sources.as_slice(), found(answer));
    aimed(
        alloc,
        manner,
        utility,
        sources.as_slice(),
        target.as_slice(),
        aim,
    )
}

// `ln`.
ghost use Rattle.std.specs.Prelude.{◌≡◌, IfOk};
ghost use Rattle.ut_files.specs.Answers.{refusal, found, same_in};
ghost use Rattle.ut_files.specs.Linking.{first_way, linking, links, found_target, uncompared, compared, not_unlinked, unlinked};
ghost use Rattle.ut_files.specs.Targets.{aim_at};

use crate::answers::{found, is_no_entry, refusal, same_in};
use crate::complaints::{alone, complain};
use crate::file_task::FileTask;
use crate::manner::Manner;
use crate::step::WorkItem;
use crate::targets::{Aim, aim_at, goal};
use rk_base::{Bytes, Errno, NoMemory, WordList};
use rk_calls::Answer;
use std::alloc::Global;

fn first_way(manner: &Manner, source: Bytes, target: Bytes) -> WorkItem<FileTask>
    ensures { result ≡ first_way manner.now source target }
{
    if manner.symbolic {
        return WorkItem::Do(FileTask::UnlinkTarget(source, target));
    }
    WorkItem::Do(FileTask::CompareTarget(source, target))
}

fn linking(manner: &Manner, source: Bytes, target: Bytes) -> WorkItem<FileTask>
    ensures { result ≡ linking manner.now source target }
{
    if manner.force {
        return first_way(manner, source, target);
    }
    WorkItem::Do(FileTask::MakeLink(source, target))
}

// Each source in turn.
fn links(
    alloc: Global,
    manner: &Manner,
    aim: Aim,
    target: &[u8],
    sources: &[Bytes],
) -> Result<Vec<WorkItem<FileTask>>, NoMemory>
    ensures { IfOk result (λ steps. steps.items ≡ links manner.now aim target.now sources.now) }
{
    let mut steps = Vec::new(alloc);
    'sources: for source in sources {
        let to = goal(alloc, aim, target, source.as_slice())?;
        let step = linking(manner, source.copy()?, to);
        steps.push(step)?;
    }
    Ok(steps)
}

fn aimed(
    alloc: Global,
    manner: &Manner,
    sources: &[Bytes],
    target: &[u8],
    aim: Aim,
) -> Result<Vec<WorkItem<FileTask>>, NoMemory>
    ensures { IfOk result (λ steps. steps.items ≡ found_target manner.now sources.now target.now aim) }
{
    match aim {
        Aim::Inside => links(alloc, manner, Aim::Inside, target, sources),
        Aim::Itself(stands) => links(alloc, manner, Aim::Itself(stands), target, sources),
        Aim::Nowhere(errno) => complain(alloc, manner, target, errno),
    }
}

/// After the target was looked at.
pub(crate) fn found_target(
    alloc: Global,
    manner: &Manner,
    sources: WordList,
    target: Bytes,
    answer: &Answer,
) -> Result<Vec<WorkItem<FileTask>>, NoMemory>
    ensures { IfOk result (λ steps. steps.items ≡ found_target manner.now sources target (aim_at sources (found answer.now))) }
{
    let aim = aim_at(sources.as_slice(), found(answer));
    aimed(alloc, manner, sources.as_slice(), target.as_slice(), aim)
}

fn uncompared(
    alloc: Global,
    manner: &Manner,
    source: Bytes,
    target: Bytes,
    errno: Errno,
) -> Result<Vec<WorkItem<FileTask>>, NoMemory>
    ensures { IfOk result (λ steps. steps.items ≡ uncompared manner.now source target errno) }
{
    if is_no_entry(errno) {
        return alone(alloc, WorkItem::Do(FileTask::UnlinkTarget(source, target)));
    }
    complain(alloc, manner, source.as_slice(), errno)
}

fn told_same(
    alloc: Global,
    manner: &Manner,
    source: Bytes,
    target: Bytes,
    same: bool,
) -> Result<Vec<WorkItem<FileTask>>, NoMemory>
    ensures { IfOk result (λ steps. steps.items ≡ compared manner.now source target (Ok same)) }
{
    match same {
        true => complain(alloc, manner, source.as_slice(), Errno::Exists),
        false => alone(alloc, WorkItem::Do(FileTask::UnlinkTarget(source, target))),
    }
}

/// After a source and its target were compared.
pub(crate) fn compared(
    alloc: Global,
    manner: &Manner,
    source: Bytes,
    target: Bytes,
    answer: &Answer,
) -> Result<Vec<WorkItem<FileTask>>, NoMemory>
    ensures { IfOk result (λ steps. steps.items ≡ compared manner.now source target (same_in answer.now)) }
{
    match same_in(answer) {
        Ok(same) => told_same(alloc, manner, source, target, same),
        Err(errno) => uncompared(alloc, manner, source, target, errno),
    }
}

fn not_unlinked(
    alloc: Global,
    manner: &Manner,
    source: Bytes,
    target: Bytes,
    errno: Errno,
) -> Result<Vec<WorkItem<FileTask>>, NoMemory>
    ensures { IfOk result (λ steps. steps.items ≡ not_unlinked manner.now source target errno) }
{
    if is_no_entry(errno) {
        return alone(alloc, WorkItem::Do(FileTask::MakeLink(source, target)));
    }
    complain(alloc, manner, target.as_slice(), errno)
}

/// After the target was removed, or not.
pub(crate) fn unlinked(
    alloc: Global,
    manner: &Manner,
    source: Bytes,
    target: Bytes,
    answer: &Answer,
) -> Result<Vec<WorkItem<FileTask>>, NoMemory>
    ensures { IfOk result (λ steps. steps.items ≡ unlinked manner.now source target (refusal answer.now)) }
{
    match refusal(answer) {
        None => alone(alloc, WorkItem::Do(FileTask::MakeLink(source, target))),
        Some(errno) => not_unlinked(alloc, manner, source, target, errno),
    }
}

// `rm` and `rmdir`.
ghost use Rattle.std.specs.Prelude.{◌≡◌, ◌++◌, IfOk, OnOk};
ghost use Rattle.ut_files.specs.Answers.{refusal, found, names_in};
ghost use Rattle.ut_files.specs.Removing.{removal, is_passed, removal_refused, removed, by_kind, looked, entries, listed};

use crate::answers::{found, is_no_entry, names_in, refusal};
use crate::complaints::{alone, complain, complaint};
use crate::file_task::FileTask;
use crate::manner::Manner;
use crate::operands::{below, is_fixed};
use crate::step::WorkItem;
use rk_base::{Bytes, Errno, FileType, Name, NoMemory};
use rk_calls::Answer;
use std::alloc::Global;

/// The first step of a removal: `/` and a last `.` or `..` are refused without a call.
pub(crate) fn removal(
    alloc: Global,
    manner: &Manner,
    operand: Bytes,
) -> Result<WorkItem<FileTask>, NoMemory>
    ensures { IfOk result (λ step. step ≡ removal manner.now operand) }
{
    if is_fixed(operand.as_slice()) {
        return complaint(alloc, manner, operand.as_slice(), Errno::Invalid);
    }
    Ok(WorkItem::Do(FileTask::LookInto(operand)))
}

fn is_passed(manner: &Manner, errno: Errno) -> bool
    ensures { result ≡ is_passed manner.now errno }
{
    manner.force && is_no_entry(errno)
}

fn removal_refused(
    alloc: Global,
    manner: &Manner,
    operand: &[u8],
    errno: Errno,
) -> Result<Vec<WorkItem<FileTask>>, NoMemory>
    ensures { IfOk result (λ steps. steps.items ≡ removal_refused manner.now operand.now errno) }
{
    if is_passed(manner, errno) {
        return Ok(Vec::new(alloc));
    }
    complain(alloc, manner, operand, errno)
}

/// After a name or a directory was removed, or not.
pub(crate) fn removed(
    alloc: Global,
    manner: &Manner,
    operand: &[u8],
    answer: &Answer,
) -> Result<Vec<WorkItem<FileTask>>, NoMemory>
    ensures { IfOk result (λ steps. steps.items ≡ removed manner.now operand.now (refusal answer.now)) }
{
    match refusal(answer) {
        None => Ok(Vec::new(alloc)),
        Some(errno) => removal_refused(alloc, manner, operand, errno),
    }
}

fn remove_dir(
    alloc: Global,
    manner: &Manner,
    operand: Bytes,
) -> Result<Vec<WorkItem<FileTask>>, NoMemory>
    ensures { IfOk result (λ steps. steps.items ≡ by_kind manner.now operand FileType.Dir) }
{
    if manner.recursive {
        return alone(alloc, WorkItem::Do(FileTask::ListDir(operand)));
    }
    complain(alloc, manner, operand.as_slice(), Errno::IsDir)
}

fn by_kind(
    alloc: Global,
    manner: &Manner,
    operand: Bytes,
    kind: FileType,
) -> Result<Vec<WorkItem<FileTask>>, NoMemory>
    ensures { IfOk result (λ steps. steps.items ≡ by_kind manner.now operand kind) }
{
    match kind {
        FileType::Dir => remove_dir(alloc, manner, operand),
        FileType::File => alone(alloc, WorkItem::Do(FileTask::UnlinkName(operand))),
        FileType::Link => alone(alloc, WorkItem::Do(FileTask::UnlinkName(operand))),
    }
}

/// After what is to be removed was looked at.
pub(crate) fn looked(
    alloc: Global,
    manner: &Manner,
    operand: Bytes,
    answer: &Answer,
) -> Result<Vec<WorkItem<FileTask>>, NoMemory>
    ensures { IfOk result (λ steps. steps.items ≡ looked manner.now operand (found answer.now)) }
{
    match found(answer) {
        Ok(stood) => by_kind(alloc, manner, operand, stood.kind),
        Err(errno) => removal_refused(alloc, manner, operand.as_slice(), errno),
    }
}

// Each name of a directory, and then the directory.
fn entries(
    alloc: Global,
    manner: &Manner,
    operand: &Bytes,
    names: &[Name],
) -> Result<Vec<WorkItem<FileTask>>, NoMemory>
    ensures { IfOk result (λ steps. steps.items ≡ entries manner.now operand.now names.now) }
{
    let mut steps = Vec::new(alloc);
    'names: for name in names {
        let path = below(alloc, operand.as_slice(), name.as_slice())?;
        let step = removal(alloc, manner, path)?;
        steps.push(step)?;
    }
    steps.push(WorkItem::Do(FileTask::RemoveDir(operand.copy()?)))?;
    Ok(steps)
}

/// After a directory that is to be removed was listed.
pub(crate) fn listed(
    alloc: Global,
    manner: &Manner,
    operand: Bytes,
    answer: Answer,
) -> Result<Vec<WorkItem<FileTask>>, NoMemory>
    ensures { IfOk result (λ steps. steps.items ≡ listed manner.now operand (names_in answer)) }
{
    match names_in(alloc, answer)? {
        Ok(names) => entries(alloc, manner, &operand, names.as_slice()),
        Err(errno) => removal_refused(alloc, manner, operand.as_slice(), errno),
    }
}

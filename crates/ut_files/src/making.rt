// `mkdir` and `touch`.
ghost use Rattle.std.specs.Prelude.{◌≡◌, IfOk};
ghost use Rattle.ut_files.specs.Answers.{refusal};
ghost use Rattle.ut_files.specs.Making.{is_whole, prefix_mode, next_prefix, prefix_refused, made_prefix, walked, untouched, looked_at};

use crate::answers::{is_exists, is_no_entry, refusal};
use crate::complaints::{alone, complain};
use crate::file_task::FileTask;
use crate::manner::Manner;
use crate::modes::bits;
use crate::operands::longer;
use crate::step::WorkItem;
use rk_base::{Bytes, Errno, NoMemory};
use rk_calls::Answer;
use std::alloc::Global;

fn is_whole(operand: &[u8], end: usize) -> bool
    ensures { result ≡ is_whole operand.now end }
{
    operand.len() <= end
}

/// The mode of a prefix: the whole has its own, and a directory on the way 0755.
pub(crate) fn prefix_mode(operand: &[u8], end: usize, mode: u16) -> u16
    ensures { result ≡ prefix_mode operand.now end mode }
{
    if is_whole(operand, end) {
        bits(mode)
    } else {
        0o755
    }
}

fn next_prefix(
    alloc: Global,
    operand: Bytes,
    end: usize,
    mode: u16,
) -> Result<Vec<WorkItem<FileTask>>, NoMemory>
    ensures { IfOk result (λ steps. steps.items ≡ next_prefix operand end mode) }
{
    if is_whole(operand.as_slice(), end) {
        return Ok(Vec::new(alloc));
    }
    let end = longer(operand.as_slice(), end);
    alone(
        alloc,
        WorkItem::Do(FileTask::MakePrefix(operand, end, mode)),
    )
}

fn prefix_refused(
    alloc: Global,
    manner: &Manner,
    operand: Bytes,
    end: usize,
    mode: u16,
    errno: Errno,
) -> Result<Vec<WorkItem<FileTask>>, NoMemory>
    ensures { IfOk result (λ steps. steps.items ≡ prefix_refused manner.now operand end mode errno) }
{
    if is_exists(errno) {
        return alone(
            alloc,
            WorkItem::Do(FileTask::WalkPrefix(operand, end, mode)),
        );
    }
    complain(alloc, manner, operand.as_slice(), errno)
}

/// After a prefix was made, or not.
pub(crate) fn made_prefix(
    alloc: Global,
    manner: &Manner,
    operand: Bytes,
    end: usize,
    mode: u16,
    answer: &Answer,
) -> Result<Vec<WorkItem<FileTask>>, NoMemory>
    ensures { IfOk result (λ steps. steps.items ≡ made_prefix manner.now operand end mode (refusal answer.now)) }
{
    match refusal(answer) {
        None => next_prefix(alloc, operand, end, mode),
        Some(errno) => prefix_refused(alloc, manner, operand, end, mode, errno),
    }
}

/// After a prefix that stands was looked at.
pub(crate) fn walked(
    alloc: Global,
    manner: &Manner,
    operand: Bytes,
    end: usize,
    mode: u16,
    answer: &Answer,
) -> Result<Vec<WorkItem<FileTask>>, NoMemory>
    ensures { IfOk result (λ steps. steps.items ≡ walked manner.now operand end mode (refusal answer.now)) }
{
    match refusal(answer) {
        None => next_prefix(alloc, operand, end, mode),
        Some(_) => complain(alloc, manner, operand.as_slice(), Errno::Exists),
    }
}

fn untouched(
    alloc: Global,
    manner: &Manner,
    operand: Bytes,
    errno: Errno,
) -> Result<Vec<WorkItem<FileTask>>, NoMemory>
    ensures { IfOk result (λ steps. steps.items ≡ untouched manner.now operand errno) }
{
    if is_no_entry(errno) {
        return alone(alloc, WorkItem::Do(FileTask::MakeFile(operand)));
    }
    complain(alloc, manner, operand.as_slice(), errno)
}

/// After a file that is touched was looked at.
pub(crate) fn looked_at(
    alloc: Global,
    manner: &Manner,
    operand: Bytes,
    answer: &Answer,
) -> Result<Vec<WorkItem<FileTask>>, NoMemory>
    ensures { IfOk result (λ steps. steps.items ≡ looked_at manner.now operand (refusal answer.now)) }
{
    match refusal(answer) {
        None => Ok(Vec::new(alloc)),
        Some(errno) => untouched(alloc, manner, operand, errno),
    }
}

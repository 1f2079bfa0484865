// Lines of error text.
ghost use Rattle.std.specs.Prelude.{◌≡◌, ◌∷◌, [], IfOk};
ghost use Rattle.ut_files.specs.Answers.{refusal};
ghost use Rattle.ut_files.specs.Complaints.{complaint, refused, usage_line, usage, bad_option};

use crate::answers::refusal;
use crate::manner::Manner;
use crate::step::WorkItem;
use rk_base::{Bytes, Errno, NoMemory};
use rk_calls::{Answer, error_line};
use std::alloc::Global;

/// This step alone.
pub fn alone<T: Drop>(alloc: Global, step: WorkItem<T>) -> Result<Vec<WorkItem<T>>, NoMemory>
    ensures { IfOk result (λ steps. steps.items ≡ step ∷ []) }
{
    let mut steps = Vec::new(alloc);
    steps.push(step)?;
    Ok(steps)
}

/// The line `NAME: OPERAND: word`.
pub fn complaint<T: Drop>(
    alloc: Global,
    manner: &Manner,
    operand: &[u8],
    errno: Errno,
) -> Result<WorkItem<T>, NoMemory>
    ensures { IfOk result (λ step. step ≡ complaint manner.now operand.now errno) }
{
    let line = error_line(
        alloc,
        manner.name.as_slice(),
        operand,
        errno.word().as_bytes(),
    )?;
    Ok(WorkItem::Tell(line))
}

/// That line alone.
pub fn complain<T: Drop>(
    alloc: Global,
    manner: &Manner,
    operand: &[u8],
    errno: Errno,
) -> Result<Vec<WorkItem<T>>, NoMemory>
    ensures { IfOk result (λ steps. steps.items ≡ complaint manner.now operand.now errno ∷ []) }
{
    let step = complaint(alloc, manner, operand, errno)?;
    alone(alloc, step)
}

/// A line where the call was refused, and nothing more.
pub fn refused<T: Drop>(
    alloc: Global,
    manner: &Manner,
    operand: &[u8],
    answer: &Answer,
) -> Result<Vec<WorkItem<T>>, NoMemory>
    ensures { IfOk result (λ steps. steps.items ≡ refused manner.now operand.now (refusal answer.now)) }
{
    match refusal(answer) {
        None => Ok(Vec::new(alloc)),
        Some(errno) => complain(alloc, manner, operand, errno),
    }
}

#[tactic(auto, unfolding(crate::specs::Complaints::usage_line))]
fn usage_line(alloc: Global, name: &[u8]) -> Result<Bytes, NoMemory>
    ensures { IfOk result (λ line. line ≡ usage_line name.now) }
{
    let mut line = Vec::from_slice(alloc, name)?;
    line.extend_from_slice(b": usage\n")?;
    Bytes::new(alloc, line)
}

/// The line `NAME: usage` alone.
pub fn usage<T: Drop>(alloc: Global, manner: &Manner) -> Result<Vec<WorkItem<T>>, NoMemory>
    ensures { IfOk result (λ steps. steps.items ≡ usage manner.now) }
{
    let line = usage_line(alloc, manner.name.as_slice())?;
    alone(alloc, WorkItem::Tell(line))
}

/// The line `NAME: OPTION: usage` alone.
pub fn bad_option<T: Drop>(
    alloc: Global,
    manner: &Manner,
    option: &[u8],
) -> Result<Vec<WorkItem<T>>, NoMemory>
    ensures { IfOk result (λ steps. steps.items ≡ bad_option manner.now option.now) }
{
    let line = error_line(alloc, manner.name.as_slice(), option, b"usage")?;
    alone(alloc, WorkItem::Tell(line))
}

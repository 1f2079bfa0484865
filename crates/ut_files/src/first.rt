// How the utilities begin.
ghost use Rattle.std.specs.Prelude.{◌≡◌, IfOk};
ghost use Rattle.ut_files.specs.First.{doing, each, one_or_more, making, moding, removing, linking_all, first_steps};

use crate::complaints::{alone, usage};
use crate::file_task::FileTask;
use crate::manner::Manner;
use crate::modes::{is_mode, mode_given, octal};
use crate::operands::longer;
use crate::removing::removal;
use crate::step::WorkItem;
use crate::targets::{sources_of, target_of, the_target};
use crate::utility::Utility;
use rk_base::{Bytes, NoMemory};
use std::alloc::Global;
use ut_args::OptList;

/// What is done to each operand.
#[derive(Clone, Copy, Debug)]
pub(crate) enum Deed {
    RemoveDir,
    MakeDir(u16),
    MakePath(u16),
    SetMode(u16),
    Touch,
    Remove,
}

fn doing(
    alloc: Global,
    manner: &Manner,
    deed: Deed,
    operand: Bytes,
) -> Result<WorkItem<FileTask>, NoMemory>
    ensures { IfOk result (λ step. step ≡ doing manner.now deed operand) }
{
    match deed {
        Deed::RemoveDir => Ok(WorkItem::Do(FileTask::RemoveDir(operand))),
        Deed::MakeDir(mode) => Ok(WorkItem::Do(FileTask::MakeDir(operand, mode))),
        Deed::MakePath(mode) => {
            let end = longer(operand.as_slice(), 0);
            Ok(WorkItem::Do(FileTask::MakePrefix(operand, end, mode)))
        }
        Deed::SetMode(mode) => Ok(WorkItem::Do(FileTask::SetMode(operand, mode))),
        Deed::Touch => Ok(WorkItem::Do(FileTask::LookAt(operand))),
        Deed::Remove => removal(alloc, manner, operand),
    }
}

fn each(
    alloc: Global,
    manner: &Manner,
    deed: Deed,
    operands: &[Bytes],
) -> Result<Vec<WorkItem<FileTask>>, NoMemory>
    ensures { IfOk result (λ steps. steps.items ≡ each manner.now deed operands.now) }
{
    let mut steps = Vec::new(alloc);
    'operands: for operand in operands {
        let step = doing(alloc, manner, deed, operand.copy()?)?;
        steps.push(step)?;
    }
    Ok(steps)
}

fn one_or_more(
    alloc: Global,
    manner: &Manner,
    deed: Deed,
    operands: &[Bytes],
) -> Result<Vec<WorkItem<FileTask>>, NoMemory>
    ensures { IfOk result (λ steps. steps.items ≡ one_or_more manner.now deed operands.now) }
{
    match operands {
        [] => usage(alloc, manner),
        [_, ..] => each(alloc, manner, deed, operands),
    }
}

fn moding(
    alloc: Global,
    manner: &Manner,
    operands: &[Bytes],
) -> Result<Vec<WorkItem<FileTask>>, NoMemory>
    ensures { IfOk result (λ steps. steps.items ≡ moding manner.now operands.now) }
{
    match operands {
        [] => usage(alloc, manner),
        [mode, rest @ ..] => {
            if !is_mode(mode.as_slice()) {
                return usage(alloc, manner);
            }
            one_or_more(alloc, manner, Deed::SetMode(octal(mode.as_slice())), rest)
        }
    }
}

fn making(given: &OptList) -> Deed
    ensures { result ≡ making given.now }
{
    let mode = mode_given(0o755, given.as_slice());
    if given.has(b'p') {
        return Deed::MakePath(mode);
    }
    Deed::MakeDir(mode)
}

fn removing(
    alloc: Global,
    manner: &Manner,
    operands: &[Bytes],
) -> Result<Vec<WorkItem<FileTask>>, NoMemory>
    ensures { IfOk result (λ steps. steps.items ≡ removing manner.now operands.now) }
{
    if manner.force {
        return each(alloc, manner, Deed::Remove, operands);
    }
    one_or_more(alloc, manner, Deed::Remove, operands)
}

fn linking_all(
    alloc: Global,
    manner: &Manner,
    operands: &[Bytes],
) -> Result<Vec<WorkItem<FileTask>>, NoMemory>
    ensures { IfOk result (λ steps. steps.items ≡ linking_all manner.now operands.now) }
{
    let sources = sources_of(alloc, operands)?;
    match the_target(sources.as_slice(), target_of(operands)) {
        None => usage(alloc, manner),
        Some(target) => alone(
            alloc,
            WorkItem::Do(FileTask::FindTarget(sources, target.copy()?)),
        ),
    }
}

/// The first steps of a utility with these options and operands.
pub(crate) fn first_steps(
    alloc: Global,
    utility: Utility,
    manner: &Manner,
    given: &OptList,
    operands: &[Bytes],
) -> Result<Vec<WorkItem<FileTask>>, NoMemory>
    ensures { IfOk result (λ steps. steps.items ≡ first_steps utility manner.now given.now operands.now) }
{
    match utility {
        Utility::Chmod => moding(alloc, manner, operands),
        Utility::Ln => linking_all(alloc, manner, operands),
        Utility::Mkdir => one_or_more(alloc, manner, making(given), operands),
        Utility::Rm => removing(alloc, manner, operands),
        Utility::Rmdir => one_or_more(alloc, manner, Deed::RemoveDir, operands),
        Utility::Touch => one_or_more(alloc, manner, Deed::Touch, operands),
    }
}

// The tasks of `chmod`, `ln`, `mkdir`, `rm`, `rmdir` and `touch`.
ghost use Rattle.std.specs.Prelude.{◌≡◌, IfOk};
ghost use Rattle.ut_files.specs.Linking.{link_call};

use crate::complaints::refused;
use crate::linking::{compared, found_target, unlinked};
use crate::making::{looked_at, made_prefix, prefix_mode, walked};
use crate::manner::Manner;
use crate::modes::bits;
use crate::operands::front;
use crate::removing::{listed, looked, removed};
use crate::step::WorkItem;
use crate::task::Task;
use rk_base::{Bytes, NoMemory, WordList};
use rk_calls::{Answer, Call, How, absolute};
use std::alloc::Global;

/// A task of one of these utilities, with the operands that it is for.
#[derive(Drop)]
pub enum FileTask {
    /// Removes a directory.
    RemoveDir(Bytes),
    /// Makes a directory of this mode.
    MakeDir(Bytes, u16),
    /// Makes the prefix of an operand that ends there; the whole has this mode.
    MakePrefix(Bytes, usize, u16),
    /// Looks whether that prefix is a directory.
    WalkPrefix(Bytes, usize, u16),
    /// Sets a mode.
    SetMode(Bytes, u16),
    /// Looks whether a file is there to be touched.
    LookAt(Bytes),
    /// Makes a file that is touched.
    MakeFile(Bytes),
    /// Looks what is to be removed.
    LookInto(Bytes),
    /// Lists a directory that is to be removed.
    ListDir(Bytes),
    /// Removes a name.
    UnlinkName(Bytes),
    /// Looks whether links go into their target.
    FindTarget(WordList, Bytes),
    /// Looks whether a source and its target are one.
    CompareTarget(Bytes, Bytes),
    /// Removes the target of a link to a source.
    UnlinkTarget(Bytes, Bytes),
    /// Makes a link to a source.
    MakeLink(Bytes, Bytes),
}

fn link_call(
    alloc: Global,
    manner: &Manner,
    source: &Bytes,
    target: &Bytes,
) -> Result<Call, NoMemory>
    ensures { IfOk result (λ call. call ≡ link_call manner.now source.now target.now) }
{
    let to = manner.at(alloc, target)?;
    if manner.symbolic {
        return Ok(Call::Symlink(source.copy()?, to));
    }
    let from = manner.at(alloc, source)?;
    Ok(Call::Link(from, to))
}

impl Task for FileTask {
    ghost use Rattle.ut_files.specs.FileTasks.{file_rules};

    ghost rules = { file_rules };

    fn call(&self, alloc: Global, manner: &Manner) -> Result<Call, NoMemory> {
        match self {
            FileTask::RemoveDir(operand) => Ok(Call::Rmdir(manner.at(alloc, operand)?)),
            FileTask::MakeDir(operand, mode) => {
                Ok(Call::Mkdir(manner.at(alloc, operand)?, bits(*mode)))
            }
            FileTask::MakePrefix(operand, end, mode) => {
                let path = absolute(alloc, &manner.wd, front(operand.as_slice(), *end))?;
                Ok(Call::Mkdir(path, prefix_mode(operand.as_slice(), *end, *mode)))
            }
            FileTask::WalkPrefix(operand, end, _) => {
                let path = absolute(alloc, &manner.wd, front(operand.as_slice(), *end))?;
                Ok(Call::Walk(path))
            }
            FileTask::SetMode(operand, mode) => {
                Ok(Call::Chmod(manner.at(alloc, operand)?, bits(*mode)))
            }
            FileTask::LookAt(operand) => Ok(Call::Stat(manner.at(alloc, operand)?, true)),
            FileTask::MakeFile(operand) => Ok(Call::Open(manner.at(alloc, operand)?, How::Append)),
            FileTask::LookInto(operand) => Ok(Call::Stat(manner.at(alloc, operand)?, false)),
            FileTask::ListDir(operand) => Ok(Call::List(manner.at(alloc, operand)?)),
            FileTask::UnlinkName(operand) => Ok(Call::Unlink(manner.at(alloc, operand)?)),
            FileTask::FindTarget(_, target) => Ok(Call::Stat(manner.at(alloc, target)?, true)),
            FileTask::CompareTarget(source, target) => {
                let from = manner.at(alloc, source)?;
                let to = manner.at(alloc, target)?;
                Ok(Call::Same(from, to))
            }
            FileTask::UnlinkTarget(_, target) => Ok(Call::Unlink(manner.at(alloc, target)?)),
            FileTask::MakeLink(source, target) => link_call(alloc, manner, source, target),
        }
    }

    fn opens(&self) -> bool {
        match self {
            FileTask::RemoveDir(_) => false,
            FileTask::MakeDir(_, _) => false,
            FileTask::MakePrefix(_, _, _) => false,
            FileTask::WalkPrefix(_, _, _) => false,
            FileTask::SetMode(_, _) => false,
            FileTask::LookAt(_) => false,
            FileTask::MakeFile(_) => true,
            FileTask::LookInto(_) => false,
            FileTask::ListDir(_) => false,
            FileTask::UnlinkName(_) => false,
            FileTask::FindTarget(_, _) => false,
            FileTask::CompareTarget(_, _) => false,
            FileTask::UnlinkTarget(_, _) => false,
            FileTask::MakeLink(_, _) => false,
        }
    }

    fn brings(
        self,
        alloc: Global,
        manner: &Manner,
        _number: u64,
        answer: Answer,
    ) -> Result<Vec<WorkItem<FileTask>>, NoMemory> {
        match self {
            FileTask::RemoveDir(operand) => removed(alloc, manner, operand.as_slice(), &answer),
            FileTask::MakeDir(operand, _) => refused(alloc, manner, operand.as_slice(), &answer),
            FileTask::MakePrefix(operand, end, mode) => made_prefix(
                alloc, manner, operand, end, mode, &answer,
            ),
            FileTask::WalkPrefix(operand, end, mode) => walked(
                alloc, manner, operand, end, mode, &answer,
            ),
            FileTask::SetMode(operand, _) => refused(alloc, manner, operand.as_slice(), &answer),
            FileTask::LookAt(operand) => looked_at(alloc, manner, operand, &answer),
            FileTask::MakeFile(operand) => refused(alloc, manner, operand.as_slice(), &answer),
            FileTask::LookInto(operand) => looked(alloc, manner, operand, &answer),
            FileTask::ListDir(operand) => listed(alloc, manner, operand, answer),
            FileTask::UnlinkName(operand) => removed(alloc, manner, operand.as_slice(), &answer),
            FileTask::FindTarget(sources, target) => found_target(
                alloc, manner, sources, target, &answer,
            ),
            FileTask::CompareTarget(source, target) => compared(
                alloc, manner, source, target, &answer,
            ),
            FileTask::UnlinkTarget(source, target) => unlinked(
                alloc, manner, source, target, &answer,
            ),
            FileTask::MakeLink(_, target) => refused(alloc, manner, target.as_slice(), &answer),
        }
    }
}

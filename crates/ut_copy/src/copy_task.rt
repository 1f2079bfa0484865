// The tasks of `mv` and `cp`.
ghost use Rattle.std.specs.Prelude.{◌≡◌, IfOk};
ghost use Rattle.rk_calls.specs.Places.{absolute};

use crate::copying::{
    compared, found_source, found_there, opened_source, opened_target, read_source, written,
};
use crate::deep::{listed, made_target, read_link, walked_parent, walked_source};
use crate::moving::found_target;
use crate::pair::Pair;
use crate::place::parent;
use crate::utility::Utility;
use rk_base::{Bytes, FileType, NameList, NoMemory, Path, WordList};
use rk_calls::{Answer, Call, How};
use std::alloc::Global;
use ut_files::{Manner, Task, WorkItem, bits, refused};

/// A task of `mv` or `cp`. A mode is that of the source; `made` says that nothing stood at the target.
#[derive(Drop)]
pub enum CopyTask {
    /// Looks whether sources go into their target.
    FindTarget(Utility, WordList, Bytes),
    /// Gives a source its target's name.
    Move(Pair),
    /// Looks at a source whose target stands or not, where that is known; whether it is an operand.
    LookSource(Pair, Option<bool>, bool),
    /// Looks at the target of a source.
    LookTarget(Pair, FileType, u16, bool),
    /// Looks whether both are one.
    Compare(Pair, u16),
    OpenSource(Pair, u16, bool),
    /// Reads from this number.
    ReadSource(Pair, u16, bool, u64),
    /// Opens the target for these bytes.
    OpenTarget(Pair, u16, bool, Bytes),
    /// Writes these bytes to this number.
    WriteTarget(Pair, u16, bool, Bytes, u64),
    SetMode(Pair, u16),
    /// Looks where a directory is.
    WalkSource(Pair, u16, bool),
    /// Looks where the directory goes that is here.
    WalkParent(Pair, u16, bool, Path),
    ListSource(Pair, u16, bool),
    /// Makes a directory for these names.
    MakeTarget(Pair, u16, NameList),
    ReadLink(Pair),
    /// Makes a link with this text.
    MakeLink(Pair, Bytes),
}

fn compare(alloc: Global, manner: &Manner, pair: &Pair) -> Result<Call, NoMemory>
    ensures { IfOk result (λ call. call ≡ Call.Same (absolute manner.now.wd pair.now.source) (absolute manner.now.wd pair.now.target)) }
{
    let from = manner.at(alloc, &pair.source)?;
    let to = manner.at(alloc, &pair.target)?;
    Ok(Call::Same(from, to))
}

fn rename(alloc: Global, manner: &Manner, pair: &Pair) -> Result<Call, NoMemory>
    ensures { IfOk result (λ call. call ≡ Call.Rename (absolute manner.now.wd pair.now.source) (absolute manner.now.wd pair.now.target)) }
{
    let from = manner.at(alloc, &pair.source)?;
    let to = manner.at(alloc, &pair.target)?;
    Ok(Call::Rename(from, to))
}

impl Task for CopyTask {
    ghost use Rattle.ut_copy.specs.CopyTasks.{copy_rules};

    ghost rules = { copy_rules };

    fn call(&self, alloc: Global, manner: &Manner) -> Result<Call, NoMemory> {
        match self {
            CopyTask::FindTarget(_, _, target) => Ok(Call::Stat(manner.at(alloc, target)?, true)),
            CopyTask::Move(pair) => rename(alloc, manner, pair),
            CopyTask::LookSource(pair, _, _) => Ok(Call::Stat(
                manner.at(alloc, &pair.source)?,
                !manner.recursive,
            )),
            CopyTask::LookTarget(pair, _, _, _) => {
                Ok(Call::Stat(manner.at(alloc, &pair.target)?, true))
            }
            CopyTask::Compare(pair, _) => compare(alloc, manner, pair),
            CopyTask::OpenSource(pair, _, _) => {
                Ok(Call::Open(manner.at(alloc, &pair.source)?, How::Read))
            }
            CopyTask::ReadSource(_, _, _, number) => Ok(Call::Read(*number)),
            CopyTask::OpenTarget(pair, _, _, _) => {
                Ok(Call::Open(manner.at(alloc, &pair.target)?, How::Make))
            }
            CopyTask::WriteTarget(_, _, _, bytes, number) => {
                Ok(Call::Write(*number, bytes.copy()?))
            }
            CopyTask::SetMode(pair, mode) => Ok(Call::Chmod(
                manner.at(alloc, &pair.target)?,
                bits(*mode),
            )),
            CopyTask::WalkSource(pair, _, _) => { Ok(Call::Walk(manner.at(alloc, &pair.source)?)) }
            CopyTask::WalkParent(pair, _, _, _) => {
                Ok(Call::Walk(parent(alloc, manner, &pair.target)?))
            }
            CopyTask::ListSource(pair, _, _) => { Ok(Call::List(manner.at(alloc, &pair.source)?)) }
            CopyTask::MakeTarget(pair, _, _) => {
                Ok(Call::Mkdir(manner.at(alloc, &pair.target)?, 0o755))
            }
            CopyTask::ReadLink(pair) => Ok(Call::ReadLink(manner.at(alloc, &pair.source)?)),
            CopyTask::MakeLink(pair, text) => Ok(Call::Symlink(
                text.copy()?,
                manner.at(alloc, &pair.target)?,
            )),
        }
    }

    fn opens(&self) -> bool {
        match self {
            CopyTask::FindTarget(_, _, _) => false,
            CopyTask::Move(_) => false,
            CopyTask::LookSource(_, _, _) => false,
            CopyTask::LookTarget(_, _, _, _) => false,
            CopyTask::Compare(_, _) => false,
            CopyTask::OpenSource(_, _, _) => true,
            CopyTask::ReadSource(_, _, _, _) => false,
            CopyTask::OpenTarget(_, _, _, _) => true,
            CopyTask::WriteTarget(_, _, _, _, _) => false,
            CopyTask::SetMode(_, _) => false,
            CopyTask::WalkSource(_, _, _) => false,
            CopyTask::WalkParent(_, _, _, _) => false,
            CopyTask::ListSource(_, _, _) => false,
            CopyTask::MakeTarget(_, _, _) => false,
            CopyTask::ReadLink(_) => false,
            CopyTask::MakeLink(_, _) => false,
        }
    }

    fn brings(
        self,
        alloc: Global,
        manner: &Manner,
        number: u64,
        answer: Answer,
    ) -> Result<Vec<WorkItem<CopyTask>>, NoMemory> {
        match self {
            CopyTask::FindTarget(utility, sources, target) => {
                found_target(alloc, manner, utility, sources, target, &answer)
            }
            CopyTask::Move(pair) => refused(alloc, manner, pair.source.as_slice(), &answer),
            CopyTask::LookSource(pair, stands, alone) => {
                found_source(alloc, manner, pair, stands, alone, &answer)
            }
            CopyTask::LookTarget(pair, kind, mode, alone) => {
                found_there(alloc, manner, pair, kind, mode, alone, &answer)
            }
            CopyTask::Compare(pair, mode) => compared(alloc, manner, pair, mode, &answer),
            CopyTask::OpenSource(pair, mode, made) => {
                opened_source(alloc, manner, pair, mode, made, number, &answer)
            }
            CopyTask::ReadSource(pair, mode, made, _) => {
                read_source(alloc, manner, pair, mode, made, answer)
            }
            CopyTask::OpenTarget(pair, mode, made, bytes) => {
                opened_target(alloc, manner, pair, mode, made, bytes, number, &answer)
            }
            CopyTask::WriteTarget(pair, mode, made, _, _) => {
                written(alloc, manner, pair, mode, made, &answer)
            }
            CopyTask::SetMode(pair, _) => refused(alloc, manner, pair.target.as_slice(), &answer),
            CopyTask::WalkSource(pair, mode, made) => {
                walked_source(alloc, manner, pair, mode, made, answer)
            }
            CopyTask::WalkParent(pair, mode, made, place) => {
                walked_parent(alloc, manner, pair, mode, made, place, answer)
            }
            CopyTask::ListSource(pair, mode, made) => {
                listed(alloc, manner, pair, mode, made, answer)
            }
            CopyTask::MakeTarget(pair, mode, names) => {
                made_target(alloc, manner, pair, mode, names, &answer)
            }
            CopyTask::ReadLink(pair) => read_link(alloc, manner, pair, answer),
            CopyTask::MakeLink(pair, _) => {
                refused(alloc, manner, pair.target.as_slice(), &answer)
            }
        }
    }
}

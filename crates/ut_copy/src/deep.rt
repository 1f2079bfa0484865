// How `cp` copies a directory and a link.
ghost use Rattle.std.specs.Prelude.{◌≡◌, ◌++◌, true, IfOk};
ghost use Rattle.ut_copy.specs.Copying.{carries};
ghost use Rattle.ut_copy.specs.Deep.{walked_source, goes_into, walked_parent, inside, entries, listed_names, listed, made_target, read_link};
ghost use Rattle.ut_files.specs.Answers.{refusal, names_in, place_in, text_in};

use crate::copy_task::CopyTask;
use crate::copying::carries;
use crate::pair::Pair;
use crate::place::is_within;
use rk_base::{Errno, Name, NameList, NoMemory, Path};
use rk_calls::Answer;
use std::alloc::Global;
use ut_files::{Manner, WorkItem, alone, below, complain, names_in, place_in, refusal, text_in};

/// After it was looked where a directory is.
pub(crate) fn walked_source(
    alloc: Global,
    manner: &Manner,
    pair: Pair,
    mode: u16,
    made: bool,
    answer: Answer,
) -> Result<Vec<WorkItem<CopyTask>>, NoMemory>
    ensures { IfOk result (λ steps. steps.items ≡ walked_source manner.now pair mode made (place_in answer)) }
{
    match place_in(alloc, answer)? {
        Ok(place) => alone(
            alloc,
            WorkItem::Do(CopyTask::WalkParent(pair, mode, made, place)),
        ),
        Err(errno) => complain(alloc, manner, pair.source.as_slice(), errno),
    }
}

fn goes_into(
    alloc: Global,
    manner: &Manner,
    pair: Pair,
    mode: u16,
    made: bool,
    place: &Path,
    into: &Path,
) -> Result<Vec<WorkItem<CopyTask>>, NoMemory>
    ensures { IfOk result (λ steps. steps.items ≡ goes_into manner.now pair mode made place.now into.now) }
{
    let within = is_within(alloc, place, into)?;
    if within {
        return complain(alloc, manner, pair.source.as_slice(), Errno::Invalid);
    }
    alone(alloc, WorkItem::Do(CopyTask::ListSource(pair, mode, made)))
}

/// After it was looked where a directory goes.
pub(crate) fn walked_parent(
    alloc: Global,
    manner: &Manner,
    pair: Pair,
    mode: u16,
    made: bool,
    place: Path,
    answer: Answer,
) -> Result<Vec<WorkItem<CopyTask>>, NoMemory>
    ensures { IfOk result (λ steps. steps.items ≡ walked_parent manner.now pair mode made place (place_in answer)) }
{
    match place_in(alloc, answer)? {
        Ok(into) => goes_into(alloc, manner, pair, mode, made, &place, &into),
        Err(errno) => complain(alloc, manner, pair.target.as_slice(), errno),
    }
}

fn inside(alloc: Global, pair: &Pair, name: &[u8]) -> Result<Pair, NoMemory>
    ensures { IfOk result (λ it. it ≡ inside pair.now name.now) }
{
    let source = below(alloc, pair.source.as_slice(), name)?;
    let target = below(alloc, pair.target.as_slice(), name)?;
    Ok(Pair { source, target })
}

// Each name by the same rule.
fn entries(alloc: Global, pair: &Pair, names: &[Name]) -> Result<Vec<WorkItem<CopyTask>>, NoMemory>
    ensures { IfOk result (λ steps. steps.items ≡ entries pair.now names.now) }
{
    let mut steps = Vec::new(alloc);
    'names: for name in names {
        let it = inside(alloc, pair, name.as_slice())?;
        steps.push(WorkItem::Do(CopyTask::LookSource(it, None, false)))?;
    }
    Ok(steps)
}

fn listed_names(
    alloc: Global,
    pair: Pair,
    mode: u16,
    made: bool,
    names: NameList,
) -> Result<Vec<WorkItem<CopyTask>>, NoMemory>
    ensures { IfOk result (λ steps. steps.items ≡ listed_names pair mode made names) }
{
    match made {
        true => alone(alloc, WorkItem::Do(CopyTask::MakeTarget(pair, mode, names))),
        false => entries(alloc, &pair, names.as_slice()),
    }
}

/// After a directory was listed.
pub(crate) fn listed(
    alloc: Global,
    manner: &Manner,
    pair: Pair,
    mode: u16,
    made: bool,
    answer: Answer,
) -> Result<Vec<WorkItem<CopyTask>>, NoMemory>
    ensures { IfOk result (λ steps. steps.items ≡ listed manner.now pair mode made (names_in answer)) }
{
    match names_in(alloc, answer)? {
        Ok(names) => listed_names(alloc, pair, mode, made, names),
        Err(errno) => complain(alloc, manner, pair.source.as_slice(), errno),
    }
}

fn fill(
    alloc: Global,
    pair: Pair,
    mode: u16,
    names: &NameList,
) -> Result<Vec<WorkItem<CopyTask>>, NoMemory>
    ensures { IfOk result (λ steps. steps.items ≡ entries pair names.now ++ carries pair mode 493 true) }
{
    let mut steps = entries(alloc, &pair, names.as_slice())?;
    let mut last = carries(alloc, pair, mode, 0o755, true)?;
    steps.append(&mut last)?;
    Ok(steps)
}

/// After a directory was made.
pub(crate) fn made_target(
    alloc: Global,
    manner: &Manner,
    pair: Pair,
    mode: u16,
    names: NameList,
    answer: &Answer,
) -> Result<Vec<WorkItem<CopyTask>>, NoMemory>
    ensures { IfOk result (λ steps. steps.items ≡ made_target manner.now pair mode names (refusal answer.now)) }
{
    match refusal(answer) {
        None => fill(alloc, pair, mode, &names),
        Some(errno) => complain(alloc, manner, pair.target.as_slice(), errno),
    }
}

/// After the text of a link was read.
pub(crate) fn read_link(
    alloc: Global,
    manner: &Manner,
    pair: Pair,
    answer: Answer,
) -> Result<Vec<WorkItem<CopyTask>>, NoMemory>
    ensures { IfOk result (λ steps. steps.items ≡ read_link manner.now pair (text_in answer)) }
{
    match text_in(alloc, answer)? {
        Ok(text) => alone(alloc, WorkItem::Do(CopyTask::MakeLink(pair, text))),
        Err(errno) => complain(alloc, manner, pair.source.as_slice(), errno),
    }
}

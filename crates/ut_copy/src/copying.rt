// How `cp` copies a file.
ghost use Rattle.std.specs.Prelude.{◌≡◌, [], IfOk, Ok};
ghost use Rattle.rk_calls.specs.Brought.{brought};
ghost use Rattle.ut_copy.specs.Copying.{copies_file, copies_dir, copies, looks, found_source, found_there, compared, opened_source, read_source, carries, file_done, writes, opened_target, written};
ghost use Rattle.ut_files.specs.Answers.{refusal, found, same_in};

use crate::copy_task::CopyTask;
use crate::pair::Pair;
use rk_base::{Bytes, Errno, FileType, NoMemory};
use rk_calls::{Answer, brought};
use std::alloc::Global;
use ut_files::{Manner, WorkItem, alone, complain, found, refusal, same_in};

fn copies_file(
    alloc: Global,
    pair: Pair,
    mode: u16,
    made: bool,
) -> Result<Vec<WorkItem<CopyTask>>, NoMemory>
    ensures { IfOk result (λ steps. steps.items ≡ copies_file pair mode made) }
{
    match made {
        true => alone(alloc, WorkItem::Do(CopyTask::OpenSource(pair, mode, true))),
        false => alone(alloc, WorkItem::Do(CopyTask::Compare(pair, mode))),
    }
}

fn copies_dir(
    alloc: Global,
    manner: &Manner,
    pair: Pair,
    mode: u16,
    made: bool,
    operand: bool,
) -> Result<Vec<WorkItem<CopyTask>>, NoMemory>
    ensures { IfOk result (λ steps. steps.items ≡ copies_dir manner.now pair mode made operand) }
{
    if !manner.recursive {
        return complain(alloc, manner, pair.source.as_slice(), Errno::IsDir);
    }
    if operand {
        return alone(alloc, WorkItem::Do(CopyTask::WalkSource(pair, mode, made)));
    }
    alone(alloc, WorkItem::Do(CopyTask::ListSource(pair, mode, made)))
}

fn copies(
    alloc: Global,
    manner: &Manner,
    pair: Pair,
    kind: FileType,
    mode: u16,
    made: bool,
    operand: bool,
) -> Result<Vec<WorkItem<CopyTask>>, NoMemory>
    ensures { IfOk result (λ steps. steps.items ≡ copies manner.now pair kind mode made operand) }
{
    match kind {
        FileType::File => copies_file(alloc, pair, mode, made),
        FileType::Dir => copies_dir(alloc, manner, pair, mode, made, operand),
        FileType::Link => alone(alloc, WorkItem::Do(CopyTask::ReadLink(pair))),
    }
}

fn looks(
    alloc: Global,
    manner: &Manner,
    pair: Pair,
    kind: FileType,
    mode: u16,
    stands: Option<bool>,
    operand: bool,
) -> Result<Vec<WorkItem<CopyTask>>, NoMemory>
    ensures { IfOk result (λ steps. steps.items ≡ looks manner.now pair kind mode stands operand) }
{
    match stands {
        None => alone(
            alloc,
            WorkItem::Do(CopyTask::LookTarget(pair, kind, mode, operand)),
        ),
        Some(stands) => copies(alloc, manner, pair, kind, mode, !stands, operand),
    }
}

/// After a source was looked at.
pub(crate) fn found_source(
    alloc: Global,
    manner: &Manner,
    pair: Pair,
    stands: Option<bool>,
    operand: bool,
    answer: &Answer,
) -> Result<Vec<WorkItem<CopyTask>>, NoMemory>
    ensures { IfOk result (λ steps. steps.items ≡ found_source manner.now pair stands operand (found answer.now)) }
{
    match found(answer) {
        Ok(stood) => looks(alloc, manner, pair, stood.kind, stood.mode, stands, operand),
        Err(errno) => complain(alloc, manner, pair.source.as_slice(), errno),
    }
}

/// After the target of a source was looked at.
pub(crate) fn found_there(
    alloc: Global,
    manner: &Manner,
    pair: Pair,
    kind: FileType,
    mode: u16,
    operand: bool,
    answer: &Answer,
) -> Result<Vec<WorkItem<CopyTask>>, NoMemory>
    ensures { IfOk result (λ steps. steps.items ≡ found_there manner.now pair kind mode operand (refusal answer.now)) }
{
    match refusal(answer) {
        None => copies(alloc, manner, pair, kind, mode, false, operand),
        Some(_) => copies(alloc, manner, pair, kind, mode, true, operand),
    }
}

fn told_same(
    alloc: Global,
    manner: &Manner,
    pair: Pair,
    mode: u16,
    same: bool,
) -> Result<Vec<WorkItem<CopyTask>>, NoMemory>
    ensures { IfOk result (λ steps. steps.items ≡ compared manner.now pair mode (Ok same)) }
{
    match same {
        true => complain(alloc, manner, pair.source.as_slice(), Errno::Invalid),
        false => alone(alloc, WorkItem::Do(CopyTask::OpenSource(pair, mode, false))),
    }
}

/// After a source and its target were compared.
pub(crate) fn compared(
    alloc: Global,
    manner: &Manner,
    pair: Pair,
    mode: u16,
    answer: &Answer,
) -> Result<Vec<WorkItem<CopyTask>>, NoMemory>
    ensures { IfOk result (λ steps. steps.items ≡ compared manner.now pair mode (same_in answer.now)) }
{
    match same_in(answer) {
        Ok(same) => told_same(alloc, manner, pair, mode, same),
        Err(errno) => complain(alloc, manner, pair.source.as_slice(), errno),
    }
}

/// After a source was opened.
pub(crate) fn opened_source(
    alloc: Global,
    manner: &Manner,
    pair: Pair,
    mode: u16,
    made: bool,
    number: u64,
    answer: &Answer,
) -> Result<Vec<WorkItem<CopyTask>>, NoMemory>
    ensures { IfOk result (λ steps. steps.items ≡ opened_source manner.now pair mode made number (refusal answer.now)) }
{
    match refusal(answer) {
        None => alone(
            alloc,
            WorkItem::Do(CopyTask::ReadSource(pair, mode, made, number)),
        ),
        Some(errno) => complain(alloc, manner, pair.source.as_slice(), errno),
    }
}

/// After a source was read.
pub(crate) fn read_source(
    alloc: Global,
    manner: &Manner,
    pair: Pair,
    mode: u16,
    made: bool,
    answer: Answer,
) -> Result<Vec<WorkItem<CopyTask>>, NoMemory>
    ensures { IfOk result (λ steps. steps.items ≡ read_source manner.now pair mode made (brought answer)) }
{
    match brought(alloc, answer)? {
        Ok(bytes) => alone(
            alloc,
            WorkItem::Do(CopyTask::OpenTarget(pair, mode, made, bytes)),
        ),
        Err(errno) => complain(alloc, manner, pair.source.as_slice(), errno),
    }
}

/// The mode of what was made, where it isn't the one that it was made with.
pub(crate) fn carries(
    alloc: Global,
    pair: Pair,
    mode: u16,
    default: u16,
    made: bool,
) -> Result<Vec<WorkItem<CopyTask>>, NoMemory>
    ensures { IfOk result (λ steps. steps.items ≡ carries pair mode default made) }
{
    if !made {
        return Ok(Vec::new(alloc));
    }
    if mode == default {
        return Ok(Vec::new(alloc));
    }
    alone(alloc, WorkItem::Do(CopyTask::SetMode(pair, mode)))
}

fn file_done(
    alloc: Global,
    pair: Pair,
    mode: u16,
    made: bool,
) -> Result<Vec<WorkItem<CopyTask>>, NoMemory>
    ensures { IfOk result (λ steps. steps.items ≡ file_done pair mode made) }
{
    carries(alloc, pair, mode, 0o644, made)
}

fn writes(
    alloc: Global,
    pair: Pair,
    mode: u16,
    made: bool,
    bytes: Bytes,
    number: u64,
) -> Result<Vec<WorkItem<CopyTask>>, NoMemory>
    ensures { IfOk result (λ steps. steps.items ≡ writes pair mode made bytes number) }
{
    if bytes.is_empty() {
        return file_done(alloc, pair, mode, made);
    }
    alone(
        alloc,
        WorkItem::Do(CopyTask::WriteTarget(pair, mode, made, bytes, number)),
    )
}

/// After the target was opened.
pub(crate) fn opened_target(
    alloc: Global,
    manner: &Manner,
    pair: Pair,
    mode: u16,
    made: bool,
    bytes: Bytes,
    number: u64,
    answer: &Answer,
) -> Result<Vec<WorkItem<CopyTask>>, NoMemory>
    ensures { IfOk result (λ steps. steps.items ≡ opened_target manner.now pair mode made bytes number (refusal answer.now)) }
{
    match refusal(answer) {
        None => writes(alloc, pair, mode, made, bytes, number),
        Some(errno) => complain(alloc, manner, pair.target.as_slice(), errno),
    }
}

/// After the target was written.
pub(crate) fn written(
    alloc: Global,
    manner: &Manner,
    pair: Pair,
    mode: u16,
    made: bool,
    answer: &Answer,
) -> Result<Vec<WorkItem<CopyTask>>, NoMemory>
    ensures { IfOk result (λ steps. steps.items ≡ written manner.now pair mode made (refusal answer.now)) }
{
    match refusal(answer) {
        None => file_done(alloc, pair, mode, made),
        Some(errno) => complain(alloc, manner, pair.target.as_slice(), errno),
    }
}

// Where `ln`, `mv` and `cp` put their sources.
ghost use Rattle.std.specs.Prelude.{◌≡◌, IfOk, option_copied};
ghost use Rattle.ut_files.specs.Targets.{onto, by_kind, aim_at, goal, sources_of, target_of, only, the_target};

use crate::answers::Stood;
use crate::operands::{basename, below};
use rk_base::{Bytes, Errno, FileType, NoMemory, WordList};
use std::alloc::Global;
use ut_args::copies;

/// Where sources go.
#[derive(Clone, Copy, Debug)]
pub enum Aim {
    /// Into the target, each by its basename.
    Inside,
    /// To the target itself, and whether something stands there.
    Itself(bool),
    /// Several need a directory, and this stands in the way.
    Nowhere(Errno),
}

fn onto(sources: &[Bytes], stands: bool, errno: Errno) -> Aim
    ensures { result ≡ onto sources.now stands errno }
{
    match sources {
        [] => Aim::Nowhere(errno),
        [_] => Aim::Itself(stands),
        [_, _, ..] => Aim::Nowhere(errno),
    }
}

fn by_kind(sources: &[Bytes], kind: FileType) -> Aim
    ensures { result ≡ by_kind sources.now kind }
{
    match kind {
        FileType::Dir => Aim::Inside,
        FileType::File => onto(sources, true, Errno::NotDir),
        FileType::Link => onto(sources, true, Errno::NotDir),
    }
}

/// Where sources go, by what stands at the target, links followed.
pub fn aim_at(sources: &[Bytes], found: Result<Stood, Errno>) -> Aim
    ensures { result ≡ aim_at sources.now found }
{
    match found {
        Ok(stood) => by_kind(sources, stood.kind),
        Err(errno) => onto(sources, false, errno),
    }
}

/// Where a source goes.
pub fn goal(alloc: Global, aim: Aim, target: &[u8], source: &[u8]) -> Result<Bytes, NoMemory>
    ensures { IfOk result (λ it. it ≡ goal aim target.now source.now) }
{
    match aim {
        Aim::Inside => below(alloc, target, basename(source)),
        Aim::Itself(_) => Bytes::from_slice(alloc, target),
        Aim::Nowhere(_) => Bytes::from_slice(alloc, target),
    }
}

/// All operands but the last.
pub fn sources_of(alloc: Global, operands: &[Bytes]) -> Result<WordList, NoMemory>
    ensures { IfOk result (λ list. list ≡ sources_of operands.now) }
{
    if operands.is_empty() {
        return Ok(WordList::new(Vec::new(alloc)));
    }
    copies(alloc, operands.split_at(operands.len() - 1).0)
}

/// The last operand, alone, where there is one.
pub fn target_of(operands: &[Bytes]) -> &[Bytes]
    ensures { result.now ≡ target_of operands.now }
{
    if operands.is_empty() {
        return operands;
    }
    operands.split_at(operands.len() - 1).1
}

/// The last operand, where one stands before it.
pub fn the_target<'a>(sources: &[Bytes], rest: &'a [Bytes]) -> Option<&'a Bytes>
    ensures { option_copied result ≡ the_target sources.now rest.now }
{
    match sources {
        [] => None,
        [_, ..] => only(rest),
    }
}

fn only(rest: &[Bytes]) -> Option<&Bytes>
    ensures { option_copied result ≡ only rest.now }
{
    match rest {
        [] => None,
        [target] => Some(target),
        [_, _, ..] => None,
    }
}

// The steps of pathname expansion.
ghost use Rattle.std.specs.Prelude.{◌≡◌, ◌++◌, [], ℕ, List, ◌+◌, ◌*◌, ◌<◌, ◌&&◌, IfOk, OnOk, true, false, length};
ghost use Rattle.rk_base.specs.Text.{Text};
ghost use Rattle.rk_base.specs.Canonical.{is_empty};
ghost use Rattle.sh_pattern.specs.Pathnames.{matching, without_last, put_all};
ghost use Rattle.sh_expand.specs.declared.glob.Component.{Component};
ghost use Rattle.sh_expand.specs.Globbing.{Found, listed, lists, kept, stats, globs};
ghost use Rattle.sh_expand.specs.Told.{names_of, stands};
ghost use Rattle.sh_expand.specs.Stages.{stage_talk, wait_talk, after_glob, IsStep, IsShorter, weight};

use crate::glob::{Component, Globbing};
use crate::told::{names_of, stands};
use rk_base::{Bytes, NoMemory, Path};
use rk_calls::{Answer, Call, absolute};
use sh_pattern::{PathList, add_names, put_all, without_last};
use std::alloc::Global;
use std::collections::VecDeque;

/// Where pathname expansion stands.
#[derive(Drop)]
pub enum Stage {
    /// The next component comes, to these prefixes; whether one before it was a pattern.
    Between(bool, PathList),
    /// These prefixes are still to be listed for a pattern; these paths were found.
    Matching(Bytes, PathList, PathList),
    /// These paths are still to be looked at; these stand.
    Checking(PathList, PathList),
}

/// What it waits for.
#[derive(Drop)]
pub enum Wait {
    Ready(Stage),
    /// A prefix is being listed.
    Listing(Bytes, Bytes, PathList, PathList),
    /// A path is being looked at.
    Stating(Bytes, PathList, PathList),
    Over,
}

/// What a step does.
#[derive(Drop)]
pub enum GlobStep {
    Goes(Stage),
    Wants(Wait, Globbing),
}

// The path to ask of for a prefix.
fn listed(alloc: Global, wd: &Path, prefix: &[u8]) -> Result<Bytes, NoMemory>
    ensures { IfOk result (λ path. path ≡ listed wd.now prefix.now) }
{
    match prefix {
        [] => Bytes::from_slice(alloc, wd.text()),
        [_, ..] => absolute(alloc, wd, without_last(prefix)),
    }
}

// The next component, to these prefixes.
fn begin(
    alloc: Global,
    wd: &Path,
    components: &mut VecDeque<Component>,
    globbed: bool,
    prefixes: PathList,
) -> Result<GlobStep, NoMemory>
    ensures step { IfOk result (IsStep (λ k. globs wd.now globbed components.old.items prefixes k) wd.now components.new.items) }
    ensures shorter { IfOk result (IsShorter (2 * length components.old.items) components.new.items) }
{
    match components.pop_front() {
        None => Ok(GlobStep::Wants(Wait::Over, Globbing::Found(prefixes))),
        Some(Component::Pattern(pattern)) => {
            let done = PathList::new(alloc);
            Ok(GlobStep::Goes(Stage::Matching(pattern, prefixes, done)))
        }
        Some(Component::Literal(value)) => {
            let last = components.is_empty();
            let paths = put_all(alloc, last, value.as_slice(), prefixes)?;
            let stage = if last && globbed {
                Stage::Checking(paths, PathList::new(alloc))
            } else {
                Stage::Between(globbed, paths)
            };
            Ok(GlobStep::Goes(stage))
        }
    }
}

// The next prefix is listed, or the next component comes.
fn list_next(
    alloc: Global,
    wd: &Path,
    pattern: Bytes,
    todo: PathList,
    done: PathList,
) -> Result<GlobStep, NoMemory>
    ensures step { IfOk result (λ s. (cs : List Component) → IsStep (λ k. lists wd.now (is_empty cs) pattern todo done (λ found. globs wd.now true cs found k)) wd.now cs s) }
    ensures shorter { IfOk result (λ s. (cs : List Component) → IsShorter (2 * length cs + 1) cs s) }
{
    let mut todo = todo;
    match todo.pop() {
        None => Ok(GlobStep::Goes(Stage::Between(true, done))),
        Some(prefix) => {
            let path = listed(alloc, wd, prefix.as_slice())?;
            Ok(GlobStep::Wants(
                Wait::Listing(pattern, prefix, todo, done),
                Globbing::Ask(Call::List(path)),
            ))
        }
    }
}

// The next path is looked at.
fn check_next(
    alloc: Global,
    wd: &Path,
    todo: PathList,
    done: PathList,
) -> Result<GlobStep, NoMemory>
    ensures step { IfOk result (λ s. (cs : List Component) → IsStep (λ k. stats wd.now todo done k) wd.now cs s) }
    ensures shorter { IfOk result (λ s. (cs : List Component) (n : ℕ) → IsShorter n cs s) }
{
    let mut todo = todo;
    match todo.pop() {
        None => Ok(GlobStep::Wants(Wait::Over, Globbing::Found(done))),
        Some(path) => {
            let text = absolute(alloc, wd, path.as_slice())?;
            Ok(GlobStep::Wants(
                Wait::Stating(path, todo, done),
                Globbing::Ask(Call::Stat(text, false)),
            ))
        }
    }
}

pub(crate) fn next_step(
    alloc: Global,
    wd: &Path,
    components: &mut VecDeque<Component>,
    stage: Stage,
) -> Result<GlobStep, NoMemory>
    ensures step { IfOk result (IsStep (λ k. stage_talk wd.now components.old.items stage k) wd.now components.new.items) }
    ensures shorter { IfOk result (IsShorter (weight components.old.items stage) components.new.items) }
{
    match stage {
        Stage::Between(globbed, prefixes) => begin(alloc, wd, components, globbed, prefixes),
        Stage::Matching(pattern, todo, done) => {
            let step = list_next(alloc, wd, pattern, todo, done)?;
            Ok(step)
        }
        Stage::Checking(todo, done) => {
            let step = check_next(alloc, wd, todo, done)?;
            Ok(step)
        }
    }
}

// The stage after an answer to what was asked.
pub(crate) fn take(
    alloc: Global,
    components: &VecDeque<Component>,
    wait: Wait,
    answer: Answer,
) -> Result<Stage, NoMemory>
    ensures { IfOk result (λ stage. (wd : Text) (k : Found) (n p : ℕ) → wait_talk wd components.now.items wait answer k n p ≡ stage_talk wd components.now.items stage k n p) }
{
    match wait {
        Wait::Ready(stage) => Ok(stage),
        Wait::Listing(pattern, prefix, todo, done) => {
            let mut done = done;
            let last = components.is_empty();
            take_names(
                alloc,
                last,
                pattern.as_slice(),
                prefix.as_slice(),
                answer,
                &mut done,
            )?;
            Ok(Stage::Matching(pattern, todo, done))
        }
        Wait::Stating(path, todo, done) => {
            let done = keep(path, done, stands(answer))?;
            Ok(Stage::Checking(todo, done))
        }
        Wait::Over => Ok(Stage::Between(false, PathList::new(alloc))),
    }
}

fn keep(path: Bytes, done: PathList, stands: bool) -> Result<PathList, NoMemory>
    ensures { IfOk result (λ paths. paths ≡ kept done path stands) }
{
    let mut done = done;
    if stands {
        done.push(path)?;
    }
    Ok(done)
}

fn take_names(
    alloc: Global,
    last: bool,
    pattern: &[u8],
    prefix: &[u8],
    answer: Answer,
    done: &mut PathList,
) -> Result<(), NoMemory>
    ensures { OnOk result (done.new ≡ done.old ++ matching last pattern.now prefix.now (names_of answer)) }
{
    match names_of(answer) {
        None => Ok(()),
        Some(names) => add_names(alloc, last, pattern, prefix, names.as_slice(), done),
    }
}

// Goes on to the next call, or to the end.
pub(crate) fn run(
    alloc: Global,
    wd: &Path,
    components: &mut VecDeque<Component>,
    stage: Stage,
) -> Result<(Wait, Globbing), NoMemory>
    ensures { IfOk result (λ r. (k : Found) (n p : ℕ) → stage_talk wd.now components.old.items stage k n p ≡ after_glob r.1 (λ a. wait_talk wd.now components.new.items r.0 a k) k n p) }
{
    let mut stage = stage;
    'steps: loop {
        match next_step(alloc, wd, components, stage)? {
            GlobStep::Goes(next) => stage = next,
            GlobStep::Wants(wait, wants) => return Ok((wait, wants)),
        }
    }
}

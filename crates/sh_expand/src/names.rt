// The fields of a word and their pathnames.
ghost use Rattle.std.specs.Prelude.{◌≡◌, ◌++◌, ◌+◌, ◌∷◌, [], ℕ, length, IfOk, OnOk, ◌&&◌, not};
ghost use Rattle.rk_base.specs.Sorted.{sorted};
ghost use Rattle.sh_split.specs.Marked.{text_of};
ghost use Rattle.sh_expand.specs.Fields.{With_fields, or_as_was, has_pattern, named, all_names};
ghost use Rattle.sh_vars.specs.declared.env.Env.{Env};
ghost use Rattle.sh_expand.specs.Turns.{fields_left, all_left, looks, named_talk, IsShorter};

use crate::glob::{Component, Glob, Globbing};
use crate::pieces::patterned;
use rk_base::{Bytes, NoMemory, WordList, sort_texts};
use rk_calls::{Answer, Call};
use sh_pattern::PathList;
use sh_split::{Field, text_of};
use sh_vars::Env;
use std::alloc::Global;
use std::collections::VecDeque;

/// The fields of a word, how many of them have gone by, and what these gave.
#[derive(Drop)]
pub struct Names {
    pub(crate) fields: Vec<Field>,
    pub(crate) at: usize,
    pub(crate) done: WordList,
}

/// What became of a field.
#[derive(Drop)]
pub enum Named {
    Goes(Names),
    /// None was left.
    Ends(WordList),
    /// Its pathnames are looked for; its text, and a call, at the cost of one turn.
    Waits(Glob, Bytes, Names, Call),
}

// The paths in the order in which they were found.
fn listed(alloc: Global, paths: PathList) -> Result<Vec<Bytes>, NoMemory>
    ensures { IfOk result (λ v. v.items ≡ paths) }
{
    let mut paths = paths;
    let mut texts = Vec::new(alloc);
    'paths: while let Some(path) = paths.pop() {
        texts.push(path)?;
    }
    Ok(texts)
}

fn push_all(texts: &[Bytes], done: &mut WordList) -> Result<(), NoMemory>
    ensures { OnOk result (done.new ≡ done.old ++ texts.now) }
{
    'texts: for text in texts {
        let text = text.copy()?;
        done.push(text)?;
    }
    Ok(())
}

// The pathnames of a field, or its text where there is none.
fn put_found(text: Bytes, texts: &[Bytes], done: &mut WordList) -> Result<(), NoMemory>
    ensures { OnOk result (done.new ≡ done.old ++ or_as_was text texts.now) }
{
    match texts {
        [] => {
            done.push(text)?;
            Ok(())
        }
        [_, ..] => push_all(texts, done),
    }
}

// The pathnames of a field, sorted; none leave its text.
fn add_found(
    alloc: Global,
    text: Bytes,
    paths: PathList,
    done: &mut WordList,
) -> Result<(), NoMemory>
    ensures { OnOk result (done.new ≡ done.old ++ or_as_was text (sorted paths)) }
{
    let mut texts = listed(alloc, paths)?;
    sort_texts(&mut texts)?;
    put_found(text, texts.as_slice(), done)
}

/// A field's pathnames are looked for, after an answer.
pub(crate) fn look(
    alloc: Global,
    glob: Glob,
    text: Bytes,
    names: Names,
    answer: Answer,
) -> Result<Named, NoMemory>
    ensures talk { IfOk result (λ r. (k : With_fields) (e : Env) (p : ℕ) → looks glob text names answer k e p ≡ named_talk r k e p) }
    ensures shorter { IfOk result (IsShorter (length (fields_left names) + 1)) }
{
    let mut glob = glob;
    let mut names = names;
    match glob.resume(answer)? {
        Globbing::Ask(call) => Ok(Named::Waits(glob, text, names, call)),
        Globbing::Found(paths) => {
            add_found(alloc, text, paths, &mut names.done)?;
            Ok(Named::Goes(names))
        }
    }
}

// The next field, of which this is the text and these are the components, one of which is a pattern.
fn name_one(
    alloc: Global,
    env: &Env,
    text: Bytes,
    components: VecDeque<Component>,
    names: Names,
) -> Result<Named, NoMemory>
    ensures talk { IfOk result (λ r. (k : With_fields) (p : ℕ) → named (not env.now.noglob) text components.items (λ found e'. all_names (fields_left names) (names.done ++ found) k e') env.now p ≡ named_talk r k env.now p) }
    ensures shorter { IfOk result (IsShorter (length (fields_left names) + 1)) }
{
    let mut names = names;
    if env.noglob {
        names.done.push(text)?;
        return Ok(Named::Goes(names));
    }
    let glob = Glob::start(alloc, &env.wd, components)?;
    let named = look(alloc, glob, text, names, Answer::Go)?;
    Ok(named)
}

/// The next field.
pub(crate) fn next_field(alloc: Global, env: &Env, names: Names) -> Result<Named, NoMemory>
    ensures talk { IfOk result (λ r. (k : With_fields) (p : ℕ) → all_left names k env.now p ≡ named_talk r k env.now p) }
    ensures shorter { IfOk result (IsShorter (length (fields_left names))) }
{
    let mut names = names;
    if names.at >= names.fields.len() {
        return Ok(Named::Ends(names.done));
    }
    let field = names.fields[names.at].as_slice();
    let text = text_of(alloc, field)?;
    let patterned = patterned(alloc, field)?;
    names.at += 1;
    match patterned {
        None => {
            names.done.push(text)?;
            Ok(Named::Goes(names))
        }
        Some(components) => name_one(alloc, env, text, components, names),
    }
}

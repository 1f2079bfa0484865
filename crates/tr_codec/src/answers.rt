// Answers that are read.
ghost use Rattle.std.specs.Prelude.{◌≡◌, ℕ, List, [], Option, fold, IfOk};
ghost use Rattle.rk_base.specs.Text.{Text};
ghost use Rattle.rk_base.specs.Canonical.{is_name};
ghost use Rattle.rk_base.specs.Names.{are_names};
ghost use Rattle.rk_calls.specs.declared.answer.Answer.TheVariants as answer;
ghost use Rattle.tr_codec.specs.Reading.{given, many_at, counted_at, kind_of, errno_of, text_answer_at, found_at, name_at, names_at, place_at, same_at, joined_at, no_at, answer_of, answer_at};
ghost use Rattle.tr_codec.specs.Used.{used_by, answer_used};
ghost use Rattle.tr_parts.specs.Reads.{Gives};

use crate::parts::{blob_of, flag_of, path_from, permissions_of};
use rk_base::{Errno, FileType, Name, NameList, PathFault};
use rk_calls::Answer;
use rk_content::Contents;
use std::alloc::Global;
use tr_parts::{PartErr, byte_of, count_of};

fn kind_of(code: u8) -> Result<FileType, PartErr>
    ensures { Gives (λ kind. kind) result (kind_of code) }
{
    match code {
        1 => Ok(FileType::File),
        2 => Ok(FileType::Dir),
        3 => Ok(FileType::Link),
        _ => Err(PartErr::Form),
    }
}

fn errno_of(code: u8) -> Result<Errno, PartErr>
    ensures { Gives (λ errno. errno) result (errno_of code) }
{
    match code {
        1 => Ok(Errno::NoEntry),
        2 => Ok(Errno::NotDir),
        3 => Ok(Errno::IsDir),
        4 => Ok(Errno::Exists),
        5 => Ok(Errno::Denied),
        6 => Ok(Errno::Loops),
        7 => Ok(Errno::NotEmpty),
        8 => Ok(Errno::BadRef),
        9 => Ok(Errno::Invalid),
        _ => Err(PartErr::Form),
    }
}

#[tactic(auto, unfolding(crate::specs::Reading::text_answer_at))]
fn content_of<'a>(
    blobs: &Contents,
    used: &mut Option<usize>,
    bytes: &'a [u8],
) -> Result<(Answer, &'a [u8]), PartErr>
    ensures gives { Gives (λ x. (x.0, x.1.now)) result (text_answer_at answer.Content blobs.now bytes.now) }
    ensures used { IfOk result (λ x. used.new ≡ answer_used blobs.now used.old x.0) }
{
    let (text, rest) = blob_of(blobs, used, bytes)?;
    Ok((Answer::Content(text), rest))
}

#[tactic(auto, unfolding(crate::specs::Reading::text_answer_at))]
fn text_of<'a>(
    blobs: &Contents,
    used: &mut Option<usize>,
    bytes: &'a [u8],
) -> Result<(Answer, &'a [u8]), PartErr>
    ensures gives { Gives (λ x. (x.0, x.1.now)) result (text_answer_at answer.Text blobs.now bytes.now) }
    ensures used { IfOk result (λ x. used.new ≡ answer_used blobs.now used.old x.0) }
{
    let (text, rest) = blob_of(blobs, used, bytes)?;
    Ok((Answer::Text(text), rest))
}

#[tactic(auto, unfolding(crate::specs::Reading::found_at))]
fn found_of(bytes: &[u8]) -> Result<(Answer, &[u8]), PartErr>
    ensures gives { Gives (λ x. (x.0, x.1.now)) result (found_at bytes.now) }
    ensures none { (blobs : List Text) (used : Option ℕ) → IfOk result (λ x. used ≡ answer_used blobs used x.0) }
{
    let (code, rest) = byte_of(bytes)?;
    let kind = kind_of(code)?;
    let (mode, rest) = permissions_of(rest)?;
    let (empty, rest) = flag_of(rest)?;
    Ok((Answer::Stat { kind, mode, empty }, rest))
}

fn name_from(alloc: Global, text: &[u8]) -> Result<Name, PartErr>
    ensures { Gives (λ n. n) result (given (is_name text.now) text.now) }
{
    match Name::new(alloc, text) {
        Ok(name) => Ok(name),
        Err(PathFault::Invalid) => Err(PartErr::Form),
        Err(PathFault::NoMemory) => Err(PartErr::NoMemory),
    }
}

#[tactic(auto, unfolding(crate::specs::Reading::name_at))]
fn name_of<'a>(
    alloc: Global,
    blobs: &Contents,
    used: &mut Option<usize>,
    bytes: &'a [u8],
) -> Result<(Name, &'a [u8]), PartErr>
    ensures gives { Gives (λ x. (x.0, x.1.now)) result (name_at blobs.now bytes.now) }
    ensures used { IfOk result (λ x. used.new ≡ used_by blobs.now used.old x.0) }
{
    let (text, rest) = blob_of(blobs, used, bytes)?;
    let name = name_from(alloc, text.as_slice())?;
    Ok((name, rest))
}

fn so_many_names<'a>(
    alloc: Global,
    blobs: &Contents,
    used: &mut Option<usize>,
    count: u64,
    bytes: &'a [u8],
) -> Result<(Vec<Name>, &'a [u8]), PartErr>
    ensures gives { Gives (λ x. (x.0.items, x.1.now)) result (many_at (λ front. name_at blobs.now) count [] bytes.now) }
    ensures used { IfOk result (λ x. used.new ≡ fold (used_by blobs.now) used.old x.0.items) }
{
    let mut names = Vec::new(alloc);
    let mut rest = bytes;
    'names: for _ in 0..count {
        let (name, after) = name_of(alloc, blobs, used, rest)?;
        names.push(name)?;
        rest = after;
    }
    Ok((names, rest))
}

fn list_from(alloc: Global, names: Vec<Name>) -> Result<NameList, PartErr>
    ensures { Gives (λ l. l) result (given (are_names names.items) names.items) }
{
    match NameList::from_vec(alloc, names)? {
        Some(names) => Ok(names),
        None => Err(PartErr::Form),
    }
}

#[tactic(auto, unfolding(crate::specs::Reading::names_at))]
fn names_of<'a>(
    alloc: Global,
    blobs: &Contents,
    used: &mut Option<usize>,
    bytes: &'a [u8],
) -> Result<(Answer, &'a [u8]), PartErr>
    ensures gives { Gives (λ x. (x.0, x.1.now)) result (names_at blobs.now bytes.now) }
    ensures used { IfOk result (λ x. used.new ≡ answer_used blobs.now used.old x.0) }
{
    let (count, rest) = count_of(bytes)?;
    let (names, rest) = so_many_names(alloc, blobs, used, count, rest)?;
    let names = list_from(alloc, names)?;
    Ok((Answer::Names(names), rest))
}

#[tactic(auto, unfolding(crate::specs::Reading::place_at))]
fn place_of<'a>(
    blobs: &Contents,
    used: &mut Option<usize>,
    bytes: &'a [u8],
) -> Result<(Answer, &'a [u8]), PartErr>
    ensures gives { Gives (λ x. (x.0, x.1.now)) result (place_at blobs.now bytes.now) }
    ensures used { IfOk result (λ x. used.new ≡ answer_used blobs.now used.old x.0) }
{
    let (text, rest) = blob_of(blobs, used, bytes)?;
    let path = path_from(&text)?;
    Ok((Answer::Place(path), rest))
}

#[tactic(auto, unfolding(crate::specs::Reading::same_at))]
fn same_answer_of(bytes: &[u8]) -> Result<(Answer, &[u8]), PartErr>
    ensures gives { Gives (λ x. (x.0, x.1.now)) result (same_at bytes.now) }
    ensures none { (blobs : List Text) (used : Option ℕ) → IfOk result (λ x. used ≡ answer_used blobs used x.0) }
{
    let (same, rest) = flag_of(bytes)?;
    Ok((Answer::Same(same), rest))
}

#[tactic(auto, unfolding(crate::specs::Reading::joined_at))]
fn joined_of(bytes: &[u8]) -> Result<(Answer, &[u8]), PartErr>
    ensures gives { Gives (λ x. (x.0, x.1.now)) result (joined_at bytes.now) }
    ensures none { (blobs : List Text) (used : Option ℕ) → IfOk result (λ x. used ≡ answer_used blobs used x.0) }
{
    let (status, rest) = byte_of(bytes)?;
    Ok((Answer::Joined(status), rest))
}

#[tactic(auto, unfolding(crate::specs::Reading::no_at))]
fn no_of(bytes: &[u8]) -> Result<(Answer, &[u8]), PartErr>
    ensures gives { Gives (λ x. (x.0, x.1.now)) result (no_at bytes.now) }
    ensures none { (blobs : List Text) (used : Option ℕ) → IfOk result (λ x. used ≡ answer_used blobs used x.0) }
{
    let (code, rest) = byte_of(bytes)?;
    let errno = errno_of(code)?;
    Ok((Answer::No(errno), rest))
}

fn answer_after<'a>(
    alloc: Global,
    blobs: &Contents,
    used: &mut Option<usize>,
    kind: u8,
    bytes: &'a [u8],
) -> Result<(Answer, &'a [u8]), PartErr>
    ensures gives { Gives (λ x. (x.0, x.1.now)) result (answer_of blobs.now kind bytes.now) }
    ensures used { IfOk result (λ x. used.new ≡ answer_used blobs.now used.old x.0) }
{
    match kind {
        1 => Ok((Answer::Done, bytes)),
        2 => Ok((Answer::Opened, bytes)),
        3 => Ok((Answer::Piped, bytes)),
        4 => content_of(blobs, used, bytes),
        5 => found_of(bytes),
        6 => names_of(alloc, blobs, used, bytes),
        7 => text_of(blobs, used, bytes),
        8 => place_of(blobs, used, bytes),
        9 => same_answer_of(bytes),
        10 => joined_of(bytes),
        11 => no_of(bytes),
        _ => Err(PartErr::Form),
    }
}

#[tactic(auto, unfolding(crate::specs::Reading::answer_at))]
pub(crate) fn answer_of<'a>(
    alloc: Global,
    blobs: &Contents,
    used: &mut Option<usize>,
    bytes: &'a [u8],
) -> Result<(Answer, &'a [u8]), PartErr>
    ensures gives { Gives (λ x. (x.0, x.1.now)) result (answer_at blobs.now bytes.now) }
    ensures used { IfOk result (λ x. used.new ≡ answer_used blobs.now used.old x.0) }
{
    let (kind, rest) = byte_of(bytes)?;
    let (answer, rest) = answer_after(alloc, blobs, used, kind, rest)?;
    Ok((answer, rest))
}

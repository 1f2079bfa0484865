// Marks of values and texts.
ghost use Rattle.std.specs.Prelude.{◌≡◌, ◌≤◌, ◌++◌, take, length, IfOk, OnOk};
ghost use Rattle.sh_split.specs.Marked.{as_literal, as_quoted, as_given, given, more_given, each_given, all_given, text_of, pattern_of, without_newlines, without_nuls, captured};

use crate::joining::joined;
use crate::mark::Mark;
use rk_base::{Bytes, NoMemory};
use std::alloc::Global;

/// The bytes of a word itself, unquoted.
pub fn put_literal(text: &[u8], marks: &mut Vec<Mark>) -> Result<(), NoMemory>
    ensures { OnOk result (marks.new.items ≡ marks.old.items ++ as_literal text.now) }
{
    'bytes: for b in text {
        marks.push(Mark::Literal(*b))?;
    }
    Ok(())
}

fn put_quoted(text: &[u8], marks: &mut Vec<Mark>) -> Result<(), NoMemory>
    ensures { OnOk result (marks.new.items ≡ marks.old.items ++ as_quoted text.now) }
{
    'bytes: for b in text {
        marks.push(Mark::Quoted(*b))?;
    }
    Ok(())
}

fn put_unquoted(text: &[u8], marks: &mut Vec<Mark>) -> Result<(), NoMemory>
    ensures { OnOk result (marks.new.items ≡ marks.old.items ++ as_given text.now) }
{
    'bytes: for b in text {
        marks.push(Mark::Given(*b))?;
    }
    Ok(())
}

/// A value; a quoted one is there though it be empty.
pub fn put_given(quoted: bool, text: &[u8], marks: &mut Vec<Mark>) -> Result<(), NoMemory>
    ensures { OnOk result (marks.new.items ≡ marks.old.items ++ given quoted text.now) }
{
    if !quoted {
        return put_unquoted(text, marks);
    }
    marks.push(Mark::Quote)?;
    put_quoted(text, marks)
}

fn put_more(quoted: bool, words: &[Bytes], marks: &mut Vec<Mark>) -> Result<(), NoMemory>
    ensures { OnOk result (marks.new.items ≡ marks.old.items ++ more_given quoted words.now) }
{
    'words: for word in words {
        marks.push(Mark::Break)?;
        put_given(quoted, word.as_slice(), marks)?;
    }
    Ok(())
}

fn put_each(quoted: bool, words: &[Bytes], marks: &mut Vec<Mark>) -> Result<(), NoMemory>
    ensures { OnOk result (marks.new.items ≡ marks.old.items ++ each_given quoted words.now) }
{
    match words {
        [] => Ok(()),
        [first, rest @ ..] => {
            put_given(quoted, first.as_slice(), marks)?;
            put_more(quoted, rest, marks)
        }
    }
}

/// Values: with a break between each two, or joined with a separator.
pub fn put_all(
    alloc: Global,
    apart: bool,
    quoted: bool,
    separator: &[u8],
    words: &[Bytes],
    marks: &mut Vec<Mark>,
) -> Result<(), NoMemory>
    ensures { OnOk result (marks.new.items ≡ marks.old.items ++ all_given apart quoted separator.now words.now) }
{
    if apart {
        return put_each(quoted, words, marks);
    }
    let text = joined(alloc, separator, words)?;
    put_given(quoted, text.as_slice(), marks)
}

/// The bytes of marks.
pub fn text_of(alloc: Global, marks: &[Mark]) -> Result<Bytes, NoMemory>
    ensures { IfOk result (λ text. text ≡ text_of marks.now) }
{
    let mut text = Vec::new(alloc);
    'marks: for mark in marks {
        match *mark {
            Mark::Literal(b) => text.push(b)?,
            Mark::Quoted(b) => text.push(b)?,
            Mark::Given(b) => text.push(b)?,
            Mark::Quote => {}
            Mark::Break => {}
        }
    }
    let text = Bytes::new(alloc, text)?;
    Ok(text)
}

/// The bytes of marks as a pattern: each quoted one stands behind a backslash.
pub fn pattern_of(alloc: Global, marks: &[Mark]) -> Result<Bytes, NoMemory>
    ensures { IfOk result (λ text. text ≡ pattern_of marks.now) }
{
    let mut text = Vec::new(alloc);
    'marks: for mark in marks {
        match *mark {
            Mark::Literal(b) => text.push(b)?,
            Mark::Quoted(b) => {
                text.push(b'\\')?;
                text.push(b)?;
            }
            Mark::Given(b) => text.push(b)?,
            Mark::Quote => {}
            Mark::Break => {}
        }
    }
    let text = Bytes::new(alloc, text)?;
    Ok(text)
}

fn without_nuls(alloc: Global, text: &[u8]) -> Result<Vec<u8>, NoMemory>
    ensures { IfOk result (λ v. v.items ≡ without_nuls text.now) }
{
    let mut kept = Vec::new(alloc);
    'bytes: for b in text {
        if *b != 0 {
            kept.push(*b)?;
        }
    }
    Ok(kept)
}

// How many bytes there are before the newlines at the end.
fn length_without_newlines(text: &[u8]) -> usize
    ensures within { result ≤ length text.now }
    ensures value { take result text.now ≡ without_newlines text.now }
{
    let mut end = 0;
    for (i, b) in text.iter().enumerate() {
        if *b != b'\n' {
            end = i + 1;
        }
    }
    end
}

/// What a command substitution gives of the bytes that were written: no NULs, and no newlines at its end (XCU 2.6.3).
pub fn captured(alloc: Global, text: &[u8]) -> Result<Bytes, NoMemory>
    ensures { IfOk result (λ kept. kept ≡ captured text.now) }
{
    let kept = without_nuls(alloc, text)?;
    let end = length_without_newlines(kept.as_slice());
    Bytes::from_slice(alloc, kept.as_slice().split_at(end).0)
}

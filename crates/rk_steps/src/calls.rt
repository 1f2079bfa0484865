// Calls as words.
use crate::keys::{key_of, key_shown, map_of};
use crate::{behind, mode, number, plain, push_shown, shown, text, word};
use rk_base::{Bytes, NoMemory};
use rk_calls::{Call, How, Key, RefMap};
use std::alloc::Global;

/// The bytes of a word.
pub(crate) fn bytes(alloc: Global, words: &[Vec<u8>], i: usize) -> Result<Bytes, NoMemory> {
    Bytes::from_slice(alloc, word(words, i))
}

fn launch_of(alloc: Global, words: &[Vec<u8>]) -> Result<Option<Call>, NoMemory> {
    let map = map_of(alloc, text(words, 1))?;
    let key = key_of(alloc, behind(behind(words)))?;
    match (key, map) {
        (Some(key), Some(map)) => Ok(Some(Call::Launch(key, map))),
        _ => Ok(None),
    }
}

fn how_of(word: &str) -> How {
    match word {
        "make" => How::Make,
        "append" => How::Append,
        _ => How::Read,
    }
}

fn question_of(alloc: Global, words: &[Vec<u8>]) -> Result<Option<Call>, NoMemory> {
    let path = bytes(alloc, words, 1)?;
    Ok(match text(words, 0) {
        "open" => Some(Call::Open(path, how_of(text(words, 2)))),
        "read" => Some(Call::Read(number(words, 1))),
        "readline" => Some(Call::ReadLine(number(words, 1))),
        "write" => Some(Call::Write(number(words, 1), bytes(alloc, words, 2)?)),
        "stat" => Some(Call::Stat(path, text(words, 2) == "follow")),
        "list" => Some(Call::List(path)),
        "readlink" => Some(Call::ReadLink(path)),
        "walk" => Some(Call::Walk(path)),
        "same" => Some(Call::Same(path, bytes(alloc, words, 2)?)),
        "pipe" => Some(Call::Pipe),
        _ => None,
    })
}

fn change_of(alloc: Global, words: &[Vec<u8>]) -> Result<Option<Call>, NoMemory> {
    let path = bytes(alloc, words, 1)?;
    let other = bytes(alloc, words, 2)?;
    Ok(match text(words, 0) {
        "mkdir" => Some(Call::Mkdir(path, mode(words, 2))),
        "rmdir" => Some(Call::Rmdir(path)),
        "unlink" => Some(Call::Unlink(path)),
        "rename" => Some(Call::Rename(path, other)),
        "symlink" => Some(Call::Symlink(path, other)),
        "link" => Some(Call::Link(path, other)),
        "chmod" => Some(Call::Chmod(path, mode(words, 2))),
        _ => None,
    })
}

/// The call of these words.
pub fn call_of(alloc: Global, words: &[Vec<u8>]) -> Result<Option<Call>, NoMemory> {
    if text(words, 0) == "launch" {
        return launch_of(alloc, words);
    }
    match question_of(alloc, words)? {
        Some(call) => Ok(Some(call)),
        None => change_of(alloc, words),
    }
}

fn how_shown(how: How) -> &'static str {
    match how {
        How::Read => "read",
        How::Make => "make",
        How::Append => "append",
    }
}

/// A word, and bytes behind it.
pub(crate) fn one(alloc: Global, word: &str, path: &Bytes) -> Result<String, NoMemory> {
    let path = shown(alloc, path.as_slice())?;
    let text = format!(in alloc; "{word} {}", path.as_str())?;
    Ok(text)
}

fn two(alloc: Global, word: &str, a: &Bytes, b: &Bytes) -> Result<String, NoMemory> {
    let mut text = one(alloc, word, a)?;
    text.push(' ')?;
    push_shown(alloc, &mut text, b.as_slice())?;
    Ok(text)
}

fn moded(alloc: Global, word: &str, path: &Bytes, mode: u16) -> Result<String, NoMemory> {
    let path = shown(alloc, path.as_slice())?;
    let text = format!(in alloc; "{word} {} {mode:o}", path.as_str())?;
    Ok(text)
}

/// A word, and a number behind it.
pub(crate) fn numbered(alloc: Global, word: &str, number: u64) -> Result<String, NoMemory> {
    let text = format!(in alloc; "{word} {number}")?;
    Ok(text)
}

fn with_word(alloc: Global, word: &str, path: &Bytes, last: &str) -> Result<String, NoMemory> {
    let mut text = one(alloc, word, path)?;
    text.push(' ')?;
    text.push_str(last)?;
    Ok(text)
}

fn write_shown(alloc: Global, number: u64, bytes: &Bytes) -> Result<String, NoMemory> {
    let mut text = numbered(alloc, "write", number)?;
    text.push(' ')?;
    push_shown(alloc, &mut text, bytes.as_slice())?;
    Ok(text)
}

fn launch_shown(alloc: Global, key: &Key, map: &RefMap) -> Result<String, NoMemory> {
    let mut text = plain(alloc, "launch ")?;
    'pairs: for (i, (d, number)) in map.as_slice().iter().enumerate() {
        text.push_str(if i == 0 { "" } else { "," })?;
        text.push_str(format!(in alloc; "{d}:{number}")?.as_str())?;
    }
    text.push(' ')?;
    text.push_str(key_shown(alloc, key)?.as_str())?;
    Ok(text)
}

fn follow_shown(follow: bool) -> &'static str {
    if follow { "follow" } else { "itself" }
}

/// A call as words.
pub fn call_shown(alloc: Global, call: &Call) -> Result<String, NoMemory> {
    match call {
        Call::Open(path, how) => with_word(alloc, "open", path, how_shown(*how)),
        Call::Read(r) => numbered(alloc, "read", *r),
        Call::ReadLine(r) => numbered(alloc, "readline", *r),
        Call::Write(r, bytes) => write_shown(alloc, *r, bytes),
        Call::Stat(path, follow) => with_word(alloc, "stat", path, follow_shown(*follow)),
        Call::List(path) => one(alloc, "list", path),
        Call::ReadLink(path) => one(alloc, "readlink", path),
        Call::Walk(path) => one(alloc, "walk", path),
        Call::Same(a, b) => two(alloc, "same", a, b),
        Call::Mkdir(path, mode) => moded(alloc, "mkdir", path, *mode),
        Call::Rmdir(path) => one(alloc, "rmdir", path),
        Call::Unlink(path) => one(alloc, "unlink", path),
        Call::Rename(a, b) => two(alloc, "rename", a, b),
        Call::Symlink(a, b) => two(alloc, "symlink", a, b),
        Call::Link(a, b) => two(alloc, "link", a, b),
        Call::Chmod(path, mode) => moded(alloc, "chmod", path, *mode),
        Call::Pipe => plain(alloc, "pipe"),
        Call::Launch(key, map) => launch_shown(alloc, key, map),
    }
}

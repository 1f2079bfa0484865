// Answers as words.
use crate::calls::{bytes, numbered, one};
use crate::{behind, mode, name_list, names_shown, path_of, plain, shown, text, word};
use rk_base::{Errno, FileType, NoMemory, Path};
use rk_calls::Answer;
use std::alloc::Global;

/// A kind as a word.
pub fn kind_shown(kind: FileType) -> &'static str {
    match kind {
        FileType::File => "file",
        FileType::Dir => "dir",
        FileType::Link => "link",
    }
}

fn kind_of(word: &str) -> FileType {
    match word {
        "dir" => FileType::Dir,
        "link" => FileType::Link,
        _ => FileType::File,
    }
}

fn errno_of(word: &str) -> Option<Errno> {
    Some(match word {
        "no" => Errno::NoEntry,
        "not" => Errno::NotDir,
        "is" => Errno::IsDir,
        "exists" => Errno::Exists,
        "denied" => Errno::Denied,
        "too" => Errno::Loops,
        "full" => Errno::NotEmpty,
        "bad" => Errno::BadRef,
        "invalid" => Errno::Invalid,
        _ => return None,
    })
}

fn names_of(alloc: Global, words: &[Vec<u8>]) -> Result<Option<Answer>, NoMemory> {
    match name_list(alloc, words)? {
        Some(names) => Ok(Some(Answer::Names(names))),
        None => Ok(None),
    }
}

fn place_of(alloc: Global, word: &[u8]) -> Result<Option<Answer>, NoMemory> {
    match path_of(alloc, word)? {
        Some(path) => Ok(Some(Answer::Place(path))),
        None => Ok(None),
    }
}

fn stat_of(words: &[Vec<u8>]) -> Answer {
    Answer::Stat {
        kind: kind_of(text(words, 1)),
        mode: mode(words, 2),
        empty: text(words, 3) == "empty",
    }
}

/// The answer of these words. A refusal is one word: `no`, `not`, `is`, `exists`, `denied`, `too`, `full`, `bad` or
/// `invalid`.
pub fn answer_of(alloc: Global, words: &[Vec<u8>]) -> Result<Option<Answer>, NoMemory> {
    Ok(match text(words, 0) {
        "go" => Some(Answer::Go),
        "done" => Some(Answer::Done),
        "opened" => Some(Answer::Opened),
        "piped" => Some(Answer::Piped),
        "content" => Some(Answer::Content(bytes(alloc, words, 1)?)),
        "stat" => Some(stat_of(words)),
        "names" => names_of(alloc, behind(words))?,
        "text" => Some(Answer::Text(bytes(alloc, words, 1)?)),
        "place" => place_of(alloc, word(words, 1))?,
        "same" => Some(Answer::Same(text(words, 1) == "yes")),
        "joined" => Some(Answer::Joined(text(words, 1).parse::<u8>().unwrap_or(0))),
        "no" => match errno_of(text(words, 1)) {
            Some(errno) => Some(Answer::No(errno)),
            None => None,
        },
        _ => None,
    })
}

fn stat_shown(alloc: Global, kind: FileType, mode: u16, empty: bool) -> Result<String, NoMemory> {
    let kind = kind_shown(kind);
    let empty = if empty { "empty" } else { "full" };
    let text = format!(in alloc; "stat {kind} {mode:o} {empty}")?;
    Ok(text)
}

fn names_answer(alloc: Global, names: &str) -> Result<String, NoMemory> {
    let text = format!(in alloc; "names{names}")?;
    Ok(text)
}

fn place_shown(alloc: Global, path: &Path) -> Result<String, NoMemory> {
    let path = shown(alloc, path.text())?;
    let text = format!(in alloc; "place {}", path.as_str())?;
    Ok(text)
}

/// A refusal as words.
pub fn refusal_shown(alloc: Global, errno: Errno) -> Result<String, NoMemory> {
    let word = errno.word();
    let text = format!(in alloc; "no {word}")?;
    Ok(text)
}

/// An answer as words.
pub fn answer_shown(alloc: Global, answer: &Answer) -> Result<String, NoMemory> {
    match answer {
        Answer::Go => plain(alloc, "go"),
        Answer::Done => plain(alloc, "done"),
        Answer::Opened => plain(alloc, "opened"),
        Answer::Piped => plain(alloc, "piped"),
        Answer::Content(bytes) => one(alloc, "content", bytes),
        Answer::Stat { kind, mode, empty } => stat_shown(alloc, *kind, *mode, *empty),
        Answer::Names(names) => names_answer(alloc, names_shown(alloc, names)?.as_str()),
        Answer::Text(bytes) => one(alloc, "text", bytes),
        Answer::Place(path) => place_shown(alloc, path),
        Answer::Same(same) => plain(alloc, if *same { "same yes" } else { "same no" }),
        Answer::Joined(status) => numbered(alloc, "joined", u64::from(*status)),
        Answer::No(errno) => refusal_shown(alloc, *errno),
    }
}

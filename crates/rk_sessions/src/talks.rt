// Records as text: what a command asks, what it is answered, and how it ends.
use crate::numbers::{number, status};
use rk_base::{Bytes, Errno, FileType, Name, NameList, NoMemory, Path, VarList, WordList};
use rk_calls::{Answer, Call, How, Key};
use std::alloc::Global;
use tr_kept::write_kept;
use tr_record::{Kept, Step, StepList, Table};

// The mode of octal digits.
fn mode(text: &str) -> u16 {
    let mut mode = 0u16;
    'digits: for digit in text.as_bytes() {
        let digit = u16::from(digit.saturating_sub(b'0'));
        mode = mode.saturating_mul(8).saturating_add(digit);
    }
    mode
}

// The bytes of a text, in which `\n` is a newline.
fn bytes(alloc: Global, text: &str) -> Result<Bytes, NoMemory> {
    let (front, rest) = text.split_once('\\').unwrap_or((text, ""));
    let mut all = Vec::from_slice(alloc, front.as_bytes())?;
    if front.len() < text.len() {
        'pieces: for piece in rest.split('\\') {
            all.push(b'\n')?;
            all.extend_from_slice(piece.strip_prefix("n").unwrap_or(piece).as_bytes())?;
        }
    }
    Bytes::new(alloc, all)
}

/// The call of a word and what stands behind it.
pub fn call_of(alloc: Global, word: &str, rest: &str) -> Result<Call, NoMemory> {
    let path = bytes(alloc, rest)?;
    match word {
        "open" => Ok(Call::Open(path, How::Read)),
        "make" => Ok(Call::Open(path, How::Make)),
        "append" => Ok(Call::Open(path, How::Append)),
        "read" => Ok(Call::Read(number(rest))),
        "stat" => Ok(Call::Stat(path, true)),
        "lstat" => Ok(Call::Stat(path, false)),
        "list" => Ok(Call::List(path)),
        "readlink" => Ok(Call::ReadLink(path)),
        "walk" => Ok(Call::Walk(path)),
        "rmdir" => Ok(Call::Rmdir(path)),
        "unlink" => Ok(Call::Unlink(path)),
        _ => call_of_two(alloc, word, rest),
    }
}

// The call of a word and two things behind it.
fn call_of_two(alloc: Global, word: &str, rest: &str) -> Result<Call, NoMemory> {
    let (first, second) = rest.split_once(' ').unwrap_or((rest, ""));
    let path = bytes(alloc, first)?;
    let other = bytes(alloc, second)?;
    match word {
        "write" => Ok(Call::Write(number(first), other)),
        "mkdir" => Ok(Call::Mkdir(path, mode(second))),
        "chmod" => Ok(Call::Chmod(path, mode(second))),
        "same" => Ok(Call::Same(path, other)),
        "rename" => Ok(Call::Rename(path, other)),
        "symlink" => Ok(Call::Symlink(path, other)),
        "link" => Ok(Call::Link(path, other)),
        _ => Ok(Call::Pipe),
    }
}

fn refusal(text: &str) -> Errno {
    match text {
        "no such file" => Errno::NoEntry,
        "not a directory" => Errno::NotDir,
        "is a directory" => Errno::IsDir,
        "exists" => Errno::Exists,
        "denied" => Errno::Denied,
        "too many links" => Errno::Loops,
        "not empty" => Errno::NotEmpty,
        "bad descriptor" => Errno::BadRef,
        _ => Errno::Invalid,
    }
}

fn stat(kind: FileType, mode: u16, empty: bool) -> Answer {
    Answer::Stat { kind, mode, empty }
}

fn add_name(alloc: Global, names: &mut Vec<Name>, text: &str) -> Result<(), NoMemory> {
    if text.is_empty() {
        return Ok(());
    }
    match Name::new(alloc, text.as_bytes()) {
        Ok(name) => {
            names.push(name)?;
            Ok(())
        }
        Err(_) => Err(NoMemory),
    }
}

// Names with blanks between them; those that don't ascend count as want of memory.
fn names(alloc: Global, text: &str) -> Result<Answer, NoMemory> {
    let mut names = Vec::new(alloc);
    'names: for name in text.split(' ') {
        add_name(alloc, &mut names, name)?;
    }
    match NameList::from_vec(alloc, names)? {
        Some(names) => Ok(Answer::Names(names)),
        None => Err(NoMemory),
    }
}

fn path(alloc: Global, text: &str) -> Result<Path, NoMemory> {
    match Path::parse(alloc, text.as_bytes()) {
        Ok(path) => Ok(path),
        Err(_) => Err(NoMemory),
    }
}

/// The answer of a text: a word with what stands behind it, or the words of a refusal.
pub fn answer_of(alloc: Global, text: &str) -> Result<Answer, NoMemory> {
    let (word, rest) = text.split_once(' ').unwrap_or((text, ""));
    match word {
        "done" => Ok(Answer::Done),
        "opened" => Ok(Answer::Opened),
        "content" => Ok(Answer::Content(bytes(alloc, rest)?)),
        "file" => Ok(stat(FileType::File, mode(rest), false)),
        "empty" => Ok(stat(FileType::File, mode(rest), true)),
        "directory" => Ok(stat(FileType::Dir, mode(rest), false)),
        "link" => Ok(stat(FileType::Link, mode(rest), false)),
        "names" => names(alloc, rest),
        "text" => Ok(Answer::Text(bytes(alloc, rest)?)),
        "place" => Ok(Answer::Place(path(alloc, rest)?)),
        "same" => Ok(Answer::Same(rest == "yes")),
        "joined" => Ok(Answer::Joined(status(rest))),
        _ => Ok(Answer::No(refusal(text))),
    }
}

// The step of a line: its cost, its call, and its answer behind ` -> `.
fn step_of(alloc: Global, line: &str) -> Result<Step, NoMemory> {
    let (asked, answer) = line.split_once(" -> ").unwrap_or((line, ""));
    let (cost, call) = asked.split_once(' ').unwrap_or((asked, ""));
    let (word, rest) = call.split_once(' ').unwrap_or((call, ""));
    Ok(Step {
        cost: number(cost),
        call: call_of(alloc, word, rest)?,
        answer: answer_of(alloc, answer)?,
    })
}

// The key of words with a blank between each two, in `/w`.
fn key_of(alloc: Global, line: &str) -> Result<Key, NoMemory> {
    let mut words = WordList::new(Vec::new(alloc));
    'words: for word in line.split(' ') {
        let word = if word == "''" { "" } else { word };
        words.push(Bytes::from_slice(alloc, word.as_bytes())?)?;
    }
    match Key::from_parts(alloc, words, path(alloc, "/w")?, VarList::new(alloc))? {
        Some(key) => Ok(key),
        None => Err(NoMemory),
    }
}

// The steps of lines, but for the last one, whose cost and status are those of the exit.
fn table_of(alloc: Global, words: &str, text: &str) -> Result<Table, NoMemory> {
    let mut steps = StepList::new(alloc);
    let mut exit = 0u8;
    let mut cost = 0u64;
    'lines: for line in text.lines() {
        match line.split_once(" exit ") {
            Some((pays, end)) => {
                exit = status(end);
                cost = number(pays);
            }
            None => steps.push(step_of(alloc, line)?)?,
        }
    }
    let mut table = Table::new(alloc);
    table.push(key_of(alloc, words)?, steps, exit, cost)?;
    Ok(table)
}

/// The database of one record: a command's words, and lines of what it asks and is answered.
pub fn db_of(alloc: Global, words: &str, text: &str) -> Result<Bytes, NoMemory> {
    let table = table_of(alloc, words, text)?;
    let mut tables = Kept::new(alloc);
    if table.len() > 0 {
        tables.push(table)?;
    }
    write_kept(alloc, &tables)
}

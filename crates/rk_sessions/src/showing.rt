// What came, as text.
use rk_attrs::{AttrRow, Attrs};
use rk_base::{Name, NoMemory, Path};
use rk_folder::{Folder, FolderCall, Item, MemFolder, Standing};
use std::alloc::Global;
use tr_attrs::read_attrs;

/// Bytes as text.
pub fn shown(bytes: &[u8]) -> &str {
    str::from_utf8(bytes).unwrap_or("not text")
}

// The words of the commands that ran, by an explanation.
fn commands(alloc: Global, explained: &str) -> Result<String, NoMemory> {
    let mut text = String::new(alloc);
    'lines: for line in explained.lines() {
        if let Some(rest) = line.strip_prefix("rkr: ran ") {
            let (words, _) = rest.split_once(" in /").unwrap_or((rest, ""));
            text.push_str(if text.is_empty() { " " } else { "; " })?;
            text.push_str(words)?;
        }
    }
    Ok(text)
}

// How many commands were launched, by an explanation.
fn launched(explained: &str) -> &str {
    let (_, rest) = explained
        .split_once("rkr: launched ")
        .unwrap_or(("", explained));
    let (count, _) = rest.split_once(',').unwrap_or((rest, ""));
    count
}

/// How many commands were launched, and behind it the words of those that ran.
pub fn ran(alloc: Global, explained: &str) -> Result<String, NoMemory> {
    let mut text = String::from_str(alloc, launched(explained))?;
    text.push_str(commands(alloc, explained)?.as_str())?;
    Ok(text)
}

/// Whether a text has this line.
pub fn has_line(text: &str, wanted: &str) -> bool {
    'lines: for line in text.lines() {
        if line == wanted {
            return true;
        }
    }
    false
}

/// Whether a line has a number, a blank and this text.
pub fn has_numbered(text: &str, wanted: &str) -> bool {
    'lines: for line in text.lines() {
        let (_, rest) = line.split_once(' ').unwrap_or((line, ""));
        if rest == wanted {
            return true;
        }
    }
    false
}

/// What stands before an explanation.
pub fn unexplained(errors: &str) -> &str {
    match errors.split_once("rkr: ran ") {
        Some((text, _)) => text,
        None => match errors.split_once("rkr: launched ") {
            Some((text, _)) => text,
            None => errors,
        },
    }
}

fn push_mode(alloc: Global, out: &mut String, mark: &str, mode: u16) -> Result<(), NoMemory> {
    out.push_str(format!(in alloc; "{mark} {mode:o}")?.as_str())?;
    Ok(())
}

fn push_link(out: &mut String, to: &[u8]) -> Result<(), NoMemory> {
    out.push_str(" -> ")?;
    out.push_str(shown(to))?;
    Ok(())
}

// What a row says behind its path.
fn push_row(alloc: Global, out: &mut String, row: &AttrRow) -> Result<(), NoMemory> {
    match row {
        AttrRow::FileMode(mode) => push_mode(alloc, out, "", *mode),
        AttrRow::DirMode(mode) => push_mode(alloc, out, "/", *mode),
        AttrRow::Link(to) => push_link(out, to.as_slice()),
    }
}

// The rows of attrs as text.
fn attrs_shown(alloc: Global, attrs: &Attrs) -> Result<String, NoMemory> {
    let mut text = String::new(alloc);
    'rows: for (i, (path, row)) in attrs.as_slice().iter().enumerate() {
        text.push_str(if i == 0 { "" } else { "; " })?;
        text.push_str(shown(path.text()))?;
        push_row(alloc, &mut text, row)?;
    }
    Ok(text)
}

fn rows_shown(alloc: Global, bytes: &[u8]) -> Result<String, NoMemory> {
    match read_attrs(alloc, bytes) {
        Ok(attrs) => attrs_shown(alloc, &attrs),
        Err(_) => Err(NoMemory),
    }
}

/// What kind of thing stands at a path.
pub fn kind_at(folder: &MemFolder, place: &Path) -> &'static str {
    match folder.at(place) {
        Some(Standing::File(_)) => "file",
        Some(Standing::Dir) => "directory",
        Some(Standing::Special) => "special",
        None => "nothing",
    }
}

/// The bytes of the file at a path, or none where there is no file.
pub fn text_at(alloc: Global, folder: &MemFolder, place: &Path) -> Result<String, NoMemory> {
    let text = match folder.at(place) {
        Some(Standing::File(bytes)) => shown(bytes.as_slice()),
        _ => "",
    };
    let text = String::from_str(alloc, text)?;
    Ok(text)
}

/// The rows of the attrs that stand at a path.
pub fn rows_at(alloc: Global, folder: &MemFolder, place: &Path) -> Result<String, NoMemory> {
    match folder.at(place) {
        Some(Standing::File(bytes)) => rows_shown(alloc, bytes.as_slice()),
        _ => Ok(String::new(alloc)),
    }
}

fn listed(alloc: Global, folder: &mut MemFolder, dir: &Path) -> Result<Vec<Item>, NoMemory> {
    match folder.list(alloc, dir) {
        Ok(items) => Ok(items),
        Err(_) => Err(NoMemory),
    }
}

// Puts a line for a file, with its bytes.
fn push_file(
    alloc: Global,
    text: &mut String,
    folder: &MemFolder,
    path: &Path,
) -> Result<(), NoMemory> {
    text.push_str(shown(path.text()))?;
    text.push_str(": ")?;
    text.push_str(text_at(alloc, folder, path)?.as_str())?;
    text.push('\n')?;
    Ok(())
}

fn push_item(
    alloc: Global,
    text: &mut String,
    folder: &MemFolder,
    dir: &Path,
    item: &Item,
) -> Result<(), NoMemory> {
    match item {
        Item::File(name) => {
            let path = dir.join(alloc, name)?;
            push_file(alloc, text, folder, &path)
        }
        _ => Ok(()),
    }
}

// The files in a directory.
fn files(alloc: Global, folder: &mut MemFolder, dir: &Path) -> Result<String, NoMemory> {
    let items = listed(alloc, folder, dir)?;
    let mut text = String::new(alloc);
    'items: for item in &items {
        push_item(alloc, &mut text, folder, dir, item)?;
    }
    Ok(text)
}

// The rows of the attrs in the hidden directory.
fn hidden(alloc: Global, folder: &MemFolder, dir: &Path) -> Result<String, NoMemory> {
    match Name::new(alloc, b"attrs") {
        Ok(name) => {
            let place = dir.join(alloc, &name)?;
            rows_at(alloc, folder, &place)
        }
        Err(_) => Err(NoMemory),
    }
}

fn inside(
    alloc: Global,
    folder: &mut MemFolder,
    dir: &Path,
    name: &[u8],
) -> Result<String, NoMemory> {
    if name == b".rkr".as_slice() {
        return hidden(alloc, folder, dir);
    }
    files(alloc, folder, dir)
}

// Puts a directory of the root, with what is in it.
fn push_dir(
    alloc: Global,
    text: &mut String,
    folder: &mut MemFolder,
    dir: &Path,
    name: &[u8],
) -> Result<(), NoMemory> {
    text.push_str(shown(dir.text()))?;
    text.push('\n')?;
    text.push_str(inside(alloc, folder, dir, name)?.as_str())?;
    Ok(())
}

fn push_root_item(
    alloc: Global,
    text: &mut String,
    folder: &mut MemFolder,
    root: &Path,
    item: &Item,
) -> Result<(), NoMemory> {
    match item {
        Item::Dir(name) => {
            let dir = root.join(alloc, name)?;
            push_dir(alloc, text, folder, &dir, name.as_slice())
        }
        _ => Ok(()),
    }
}

fn push_dirs(
    alloc: Global,
    text: &mut String,
    folder: &mut MemFolder,
    root: &Path,
) -> Result<(), NoMemory> {
    let items = listed(alloc, folder, root)?;
    'items: for item in &items {
        push_root_item(alloc, text, folder, root, item)?;
    }
    Ok(())
}

/// What a folder holds in its root and in the directories there, but for the database.
pub fn contents(alloc: Global, folder: &mut MemFolder) -> Result<String, NoMemory> {
    let root = Path::root(alloc)?;
    let mut text = files(alloc, folder, &root)?;
    push_dirs(alloc, &mut text, folder, &root)?;
    Ok(text)
}

fn push_words(text: &mut String, word: &str, rest: &[u8]) -> Result<(), NoMemory> {
    text.push_str(word)?;
    text.push(' ')?;
    text.push_str(shown(rest))?;
    Ok(())
}

fn push_rename(text: &mut String, from: &Path, to: &Path) -> Result<(), NoMemory> {
    push_words(text, "rename", from.text())?;
    push_words(text, "", to.text())
}

fn push_call(text: &mut String, call: &FolderCall) -> Result<(), NoMemory> {
    match call {
        FolderCall::List(dir) => push_words(text, "list", dir.text()),
        FolderCall::Read(file) => push_words(text, "read", file.text()),
        FolderCall::Write(file) => push_words(text, "write", file.text()),
        FolderCall::MakeDir(dir) => push_words(text, "make", dir.text()),
        FolderCall::RemoveFile(file) => push_words(text, "remove", file.text()),
        FolderCall::RemoveDir(dir) => push_words(text, "remove directory", dir.text()),
        FolderCall::Rename(from, to) => push_rename(text, from, to),
    }
}

fn push_next(text: &mut String, call: &FolderCall) -> Result<(), NoMemory> {
    text.push_str(if text.is_empty() { "" } else { "; " })?;
    push_call(text, call)
}

/// The calls that were made.
pub fn calls_shown(alloc: Global, asked: &[FolderCall]) -> Result<String, NoMemory> {
    let mut text = String::new(alloc);
    'calls: for call in asked {
        push_next(&mut text, call)?;
    }
    Ok(text)
}

/// Those of them that are to change the folder.
pub fn changes_shown(alloc: Global, asked: &[FolderCall]) -> Result<String, NoMemory> {
    let mut text = String::new(alloc);
    'calls: for call in asked {
        if call.is_change() {
            push_next(&mut text, call)?;
        }
    }
    Ok(text)
}

fn is_list_read(call: &FolderCall) -> bool {
    match call {
        FolderCall::Read(file) => file.text() == b"/.rkr/install".as_slice(),
        _ => false,
    }
}

/// Whether a sealed list of calls was read, which is finished before anything else.
pub fn reads_list(asked: &[FolderCall]) -> bool {
    asked.iter().any(|call| is_list_read(call))
}

/// Whether a call was to change the folder.
pub fn asks_change(asked: &[FolderCall]) -> bool {
    asked.iter().any(|call| call.is_change())
}

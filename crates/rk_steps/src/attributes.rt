// Rows of attributes as words.
use crate::{mode, push_shown, text, word};
use rk_attrs::{AttrRow, Attrs};
use rk_base::{Bytes, NoMemory};
use std::alloc::Global;

/// The row of `file MODE`, `dir MODE` or `link TEXT`.
pub fn row_of(alloc: Global, words: &[Vec<u8>]) -> Result<AttrRow, NoMemory> {
    match text(words, 0) {
        "dir" => Ok(AttrRow::DirMode(mode(words, 1))),
        "link" => link_of(alloc, word(words, 1)),
        _ => Ok(AttrRow::FileMode(mode(words, 1))),
    }
}

fn link_of(alloc: Global, text: &[u8]) -> Result<AttrRow, NoMemory> {
    let text = Bytes::from_slice(alloc, text)?;
    Ok(AttrRow::Link(text))
}

fn push_mode(alloc: Global, out: &mut String, kind: &str, mode: u16) -> Result<(), NoMemory> {
    out.push_str(format!(in alloc; "{kind} {mode:o}")?.as_str())?;
    Ok(())
}

fn push_link(alloc: Global, out: &mut String, to: &[u8]) -> Result<(), NoMemory> {
    out.push_str("link ")?;
    push_shown(alloc, out, to)
}

fn push_row(alloc: Global, out: &mut String, row: &AttrRow) -> Result<(), NoMemory> {
    match row {
        AttrRow::FileMode(mode) => push_mode(alloc, out, "file", *mode),
        AttrRow::DirMode(mode) => push_mode(alloc, out, "dir", *mode),
        AttrRow::Link(to) => push_link(alloc, out, to.as_slice()),
    }
}

/// How many rows there are, and up to 20 of them, each behind its path.
pub fn attrs_shown(alloc: Global, attrs: &Attrs) -> Result<String, NoMemory> {
    let mut out = format!(in alloc; "{}", attrs.len())?;
    if attrs.len() > 20 {
        return Ok(out);
    }
    'rows: for (path, row) in attrs.as_slice() {
        out.push_str("; ")?;
        push_shown(alloc, &mut out, path.text())?;
        out.push(' ')?;
        push_row(alloc, &mut out, row)?;
    }
    Ok(out)
}

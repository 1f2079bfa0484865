// Where the body of a here-document ends (XCU 2.7.4).
ghost use Rattle.std.specs.Prelude.{◌≡◌, ◌≤◌, true, drop, length, slice_index, IfSome};
ghost use Rattle.sh_token.specs.Bytes.{◌also◌, is_tab as tab_lem};
ghost use Rattle.sh_token.specs.Folded.{folded, run as run_lem};
ghost use Rattle.sh_token.specs.Faults.{not_nul as not_nul_lem};
ghost use Rattle.sh_token.specs.HereDocuments as lem;
ghost use Rattle.sh_token.specs.Places.{is_none};

use crate::bytes::{Class, is_tab};
use crate::folded::{first, is_read_out, rest, run, skip};
use crate::place::HereDocument;
use crate::quotes::raw_byte;

/// What a line goes on with.
#[derive(Clone, Copy)]
pub enum Piece {
    End,
    Newline,
    /// A NUL in a literal body.
    Nul,
    Byte,
    /// A backslash and the byte behind it, in a body that isn't literal.
    Pair,
}

// How many tabs stand in front of a text as it stands.
fn tabs(text: &[u8]) -> usize
    ensures count { result ≡ run_lem tab_lem text.now }
    ensures within { result ≤ length text.now }
{
    for (at, c) in text.iter().enumerate() {
        if !is_tab(*c) {
            return at;
        }
    }
    text.len()
}

fn literal_past_tabs(text: &[u8]) -> &[u8]
    ensures { result.now ≡ drop (run_lem tab_lem text.now) text.now }
{
    text.split_at(tabs(text)).1
}

fn folded_past_tabs(text: &[u8]) -> &[u8]
    ensures { folded result.now ≡ drop (run_lem tab_lem (folded text.now)) (folded text.now) }
{
    skip(text, run(Class::Tab, text))
}

// Past the tabs of a line, where they are dropped.
fn past_tabs(dropped: bool, literal: bool, text: &[u8]) -> &[u8]
    ensures { lem.lines literal result.now ≡ lem.past_tabs dropped literal text.now }
{
    if !dropped {
        text
    } else if literal {
        literal_past_tabs(text)
    } else {
        folded_past_tabs(text)
    }
}

fn literal_begins(b: u8, text: &[u8]) -> bool
    ensures { result ≡ lem.begins b text.now }
{
    match text {
        [] => false,
        [c, ..] => *c == b,
    }
}

fn folded_begins(b: u8, text: &[u8]) -> bool
    ensures { result ≡ lem.begins b (folded text.now) }
{
    if is_read_out(text) {
        false
    } else {
        first(text) == b
    }
}

// The lines of a text begin with a byte.
fn begins(literal: bool, b: u8, text: &[u8]) -> bool
    ensures { result ≡ lem.begins b (lem.lines literal text.now) }
{
    if literal {
        literal_begins(b, text)
    } else {
        folded_begins(b, text)
    }
}

fn literal_ends(text: &[u8]) -> bool
    ensures { result ≡ lem.ends text.now }
{
    match text {
        [] => true,
        [c, ..] => *c == b'\n',
    }
}

fn folded_ends(text: &[u8]) -> bool
    ensures { result ≡ lem.ends (folded text.now) }
{
    if is_read_out(text) {
        true
    } else {
        first(text) == b'\n'
    }
}

fn ends(literal: bool, text: &[u8]) -> bool
    ensures { result ≡ lem.ends (lem.lines literal text.now) }
{
    if literal {
        literal_ends(text)
    } else {
        folded_ends(text)
    }
}

/// Nothing is left of a text's lines.
pub fn is_over(literal: bool, text: &[u8]) -> bool
    ensures { result ≡ is_none (lem.lines literal text.now) }
{
    if literal {
        text.is_empty()
    } else {
        is_read_out(text)
    }
}

/// The first byte of a text's lines; 0 where none is left.
pub fn first_of(literal: bool, text: &[u8]) -> u8
    ensures { result ≡ slice_index (lem.lines literal text.now) 0 }
{
    if literal {
        raw_byte(text, 0)
    } else {
        first(text)
    }
}

fn literal_rest(text: &[u8]) -> &[u8]
    ensures { result.now ≡ drop 1 text.now }
{
    match text {
        [] => text,
        [_, ..] => text.split_at(1).1,
    }
}

/// What stands behind the first byte of a text's lines.
pub fn behind(literal: bool, text: &[u8]) -> &[u8]
    ensures { lem.lines literal result.now ≡ drop 1 (lem.lines literal text.now) }
{
    if literal {
        literal_rest(text)
    } else {
        rest(text)
    }
}

// Some bytes are the line in front.
fn is_line(literal: bool, line: &[u8], text: &[u8]) -> bool
    ensures { result ≡ lem.is_line line.now (lem.lines literal text.now) }
{
    let mut left = text;
    for (at, c) in line.iter().enumerate() {
        if !begins(literal, *c, left) {
            return false;
        }
        left = behind(literal, left);
    }
    ends(literal, left)
}

// The line in front is the delimiter.
#[tactic(auto, unfolding(crate::specs::HereDocuments::closes))]
fn closes(document: &HereDocument, text: &[u8]) -> bool
    ensures { result ≡ lem.closes document.now text.now }
{
    if text.is_empty() {
        return false;
    }
    let line = past_tabs(document.tabs, document.quoted, text);
    is_line(document.quoted, &document.delimiter, line)
}

// A body ends in front, where a line begins.
fn ends_here(fresh: bool, document: &HereDocument, text: &[u8]) -> bool
    ensures { result ≡ (fresh also lem.closes document.now text.now) }
{
    fresh && closes(document, text)
}

fn one_piece(literal: bool, c: u8) -> Piece
    ensures { result ≡ lem.one_piece literal c }
{
    if c == b'\n' {
        Piece::Newline
    } else if literal && c == 0 {
        Piece::Nul
    } else {
        Piece::Byte
    }
}

fn next_piece(literal: bool, text: &[u8]) -> Piece
    ensures { result ≡ lem.piece literal text.now }
{
    match text {
        [] => Piece::End,
        [c] => one_piece(literal, *c),
        [c, _, ..] => {
            if !literal && *c == b'\\' {
                Piece::Pair
            } else {
                one_piece(literal, *c)
            }
        }
    }
}

fn piece_of(document: &HereDocument, text: &[u8]) -> Piece
    ensures { result ≡ lem.piece document.now.quoted text.now }
{
    next_piece(document.quoted, text)
}

/// How many bytes the line in front has, with its newline.
pub fn line(literal: bool, text: &[u8]) -> usize
    ensures count { result ≡ lem.line literal text.now }
    ensures within { result ≤ length text.now }
{
    let mut rest = text;
    let mut count = 0;
    'pieces: loop {
        match next_piece(literal, rest) {
            Piece::End => return count,
            Piece::Newline => return count + 1,
            Piece::Nul => {
                rest = rest.split_at(1).1;
                count += 1;
            }
            Piece::Byte => {
                rest = rest.split_at(1).1;
                count += 1;
            }
            Piece::Pair => {
                rest = rest.split_at(2).1;
                count += 2;
            }
        }
    }
}

/// How many bytes stand before the line that is a here-document's delimiter, where there is one and a literal body has no NUL.
pub fn body(document: &HereDocument, text: &[u8]) -> Option<usize>
    ensures found { result ≡ lem.body document.now true text.now }
    ensures within { IfSome result (λ n. n ≤ length text.now) }
{
    let mut rest = text;
    let mut count = 0;
    let mut fresh = true;
    'pieces: loop {
        if ends_here(fresh, document, rest) {
            return Some(count);
        }
        match piece_of(document, rest) {
            Piece::End => return None,
            Piece::Nul => return None,
            Piece::Newline => {
                rest = rest.split_at(1).1;
                count += 1;
                fresh = true;
            }
            Piece::Byte => {
                rest = rest.split_at(1).1;
                count += 1;
                fresh = false;
            }
            Piece::Pair => {
                rest = rest.split_at(2).1;
                count += 2;
                fresh = false;
            }
        }
    }
}

fn not_nul(c: u8) -> bool
    ensures { result ≡ not_nul_lem c }
{
    c != 0
}

/// How many bytes of a text stand before its first NUL.
pub fn before_nul(text: &[u8]) -> usize
    ensures count { result ≡ run_lem not_nul_lem text.now }
    ensures within { result ≤ length text.now }
{
    for (at, c) in text.iter().enumerate() {
        if !not_nul(*c) {
            return at;
        }
    }
    text.len()
}

// What quotes in a word (XCU 2.2). A backslash and single quotes are read as they stand, joined lines and all.
ghost use Rattle.std.specs.Prelude.{◌≡◌, ◌≤◌, length, slice_index};
ghost use Rattle.sh_token.specs.Folded.{run as run_lem};
ghost use Rattle.sh_token.specs.Quoting as lem;

use sh_rules::TokenKind;

/// The byte at a place of a text as it stands; 0 past its end.
pub fn raw_byte(text: &[u8], place: usize) -> u8
    ensures { result ≡ slice_index text.now place }
{
    if place < text.len() { text[place] } else { 0 }
}

fn not_quote(c: u8) -> bool
    ensures { result ≡ lem.not_quote c }
{
    !(c == 0 || c == b'\'')
}

/// How many bytes in front are neither a single quote nor NUL.
pub fn before_quote(text: &[u8]) -> usize
    ensures count { result ≡ run_lem lem.not_quote text.now }
    ensures within { result ≤ length text.now }
{
    for (at, c) in text.iter().enumerate() {
        if !not_quote(*c) {
            return at;
        }
    }
    text.len()
}

/// A backslash in front of a text, and the byte that it quotes, where one stands there (XCU 2.2.1).
pub fn escape(text: &[u8]) -> Option<(TokenKind, usize)>
    ensures { result ≡ lem.escape text.now }
{
    if text.len() == 1 {
        Some((TokenKind::Escape, 1))
    } else if raw_byte(text, 1) == 0 {
        None
    } else {
        Some((TokenKind::Escape, 2))
    }
}

fn closed_single(text: &[u8]) -> Option<(TokenKind, usize)>
    requires { 1 ≤ length text.now }
    ensures { result ≡ lem.single text.now }
{
    let n = before_quote(text.split_at(1).1);
    if raw_byte(text, n + 1) == b'\'' {
        Some((TokenKind::Single, n + 2))
    } else {
        None
    }
}

/// Single quotes in front of a text that begins with one (XCU 2.2.2).
pub fn single(text: &[u8]) -> Option<(TokenKind, usize)>
    ensures { result ≡ lem.single text.now }
{
    match text {
        [] => None,
        [_, ..] => closed_single(text),
    }
}

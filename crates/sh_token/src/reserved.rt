// Reserved words (XCU 2.4).
ghost use Rattle.std.specs.Prelude.{◌≡◌};
ghost use Rattle.sh_token.specs.Folded.{folded};
ghost use Rattle.sh_token.specs.Reserved.{is_word as word_lem, opener as opener_lem, closer as closer_lem, may_open as may_open_lem, may_close as may_close_lem};

use crate::bytes::is_end;
use crate::folded::{first, rest};
use sh_rules::TokenKind;

/// Whether a word is what a text begins with, and ends there.
pub fn is_word(word: &[u8], text: &[u8]) -> bool
    ensures { result ≡ word_lem word.now (folded text.now) }
{
    let mut left = text;
    for (at, c) in word.iter().enumerate() {
        if first(left) != *c {
            return false;
        }
        left = rest(left);
    }
    is_end(first(left))
}

// A reserved word that begins a command begins with this byte.
fn may_open(c: u8) -> bool
    ensures { result ≡ may_open_lem c }
{
    c == b'!' || c == b'{' || c == b'i' || c == b'f' || c == b'c' || c == b'w' || c == b'u'
}

#[tactic(auto, unfolding(crate::specs::Reserved::opener))]
fn opener_of(text: &[u8]) -> Option<(TokenKind, usize)>
    ensures { result ≡ opener_lem (folded text.now) }
{
    if is_word(b"!", text) {
        Some((TokenKind::Bang, 1))
    } else if is_word(b"{", text) {
        Some((TokenKind::LeftBrace, 1))
    } else if is_word(b"if", text) {
        Some((TokenKind::If, 2))
    } else if is_word(b"for", text) {
        Some((TokenKind::For, 3))
    } else if is_word(b"case", text) {
        Some((TokenKind::Case, 4))
    } else if is_word(b"while", text) {
        Some((TokenKind::While, 5))
    } else if is_word(b"until", text) {
        Some((TokenKind::Until, 5))
    } else {
        None
    }
}

/// The reserved word that a text begins with, of those that begin a command.
pub fn opener(text: &[u8]) -> Option<(TokenKind, usize)>
    ensures { result ≡ opener_lem (folded text.now) }
{
    if may_open(first(text)) {
        opener_of(text)
    } else {
        None
    }
}

// One that closes a compound command, or goes on with it, begins with this byte.
fn may_close(c: u8) -> bool
    ensures { result ≡ may_close_lem c }
{
    c == b'}' || c == b't' || c == b'e' || c == b'f' || c == b'd'
}

#[tactic(auto, unfolding(crate::specs::Reserved::closer))]
fn closer_of(text: &[u8]) -> Option<(TokenKind, usize)>
    ensures { result ≡ closer_lem (folded text.now) }
{
    if is_word(b"}", text) {
        Some((TokenKind::RightBrace, 1))
    } else if is_word(b"then", text) {
        Some((TokenKind::Then, 4))
    } else if is_word(b"else", text) {
        Some((TokenKind::Else, 4))
    } else if is_word(b"elif", text) {
        Some((TokenKind::Elif, 4))
    } else if is_word(b"fi", text) {
        Some((TokenKind::Fi, 2))
    } else if is_word(b"do", text) {
        Some((TokenKind::Do, 2))
    } else if is_word(b"done", text) {
        Some((TokenKind::Done, 4))
    } else {
        None
    }
}

/// The reserved word that a text begins with, of those but `esac` that close a compound command or go on with it.
pub fn closer(text: &[u8]) -> Option<(TokenKind, usize)>
    ensures { result ≡ closer_lem (folded text.now) }
{
    if may_close(first(text)) {
        closer_of(text)
    } else {
        None
    }
}

// What a place begins with, whatever is looked for there.
ghost use Rattle.std.specs.Prelude.{◌≡◌};
ghost use Rattle.sh_token.specs.Folded.{folded};
ghost use Rattle.sh_token.specs.Fronts as lem;

use crate::bytes::{Class, is_digit, is_end, is_letter, is_quoting};
use crate::folded::{byte, is_read_out, run};
use crate::place::Words;
use crate::reserved::{closer, is_word};
use sh_rules::TokenKind;

/// What a text begins with.
#[derive(Clone, Copy)]
pub enum Front {
    /// Nothing is left.
    End,
    /// A NUL, with which no token begins.
    Nul,
    /// What ends a word.
    Break(Break),
    /// What quotes or expands.
    Quote(Quote),
    /// A tilde.
    Tilde,
    /// Any other byte.
    Plain(Plain),
}

/// A byte that ends a word (XCU 2.3).
#[derive(Clone, Copy)]
pub enum Break {
    Blank,
    Newline,
    Semi,
    And,
    Bar,
    /// `<` or `>`.
    Angle,
    OpenParen,
    CloseParen,
}

/// A byte that quotes or begins an expansion (XCU 2.2, 2.6).
#[derive(Clone, Copy)]
pub enum Quote {
    Backslash,
    Single,
    Double,
    Backquote,
    Dollar,
}

/// How a word begins with a byte that stands for itself.
#[derive(Clone, Copy)]
pub enum Plain {
    /// The reserved word `}`, where it is reserved.
    RightBrace,
    /// Another `}`.
    CloseBrace,
    /// `esac`, where it is reserved.
    Esac,
    /// Another reserved word that closes a compound command or goes on with it, where it is reserved.
    Closer,
    /// A name and an equals sign.
    Assignment,
    /// A digit in front of `<` or `>`.
    Numbered,
    /// None of these.
    Text,
}

fn reserves(words: Words) -> bool
    ensures { result ≡ lem.reserves words }
{
    match words {
        Words::All => true,
        Words::Closers => true,
        Words::Ordinary => false,
    }
}

fn is_found(look: Option<(TokenKind, usize)>) -> bool
    ensures { result ≡ lem.is_found look }
{
    match look {
        Some(_) => true,
        None => false,
    }
}

fn is_assignment(text: &[u8]) -> bool
    ensures { result ≡ lem.is_assignment (folded text.now) }
{
    is_letter(byte(text, 0)) && byte(text, run(Class::Name, text)) == b'='
}

fn is_numbered(text: &[u8]) -> bool
    ensures { result ≡ lem.is_numbered (folded text.now) }
{
    let d = byte(text, 1);
    is_digit(byte(text, 0)) && (d == b'<' || d == b'>')
}

#[tactic(auto, unfolding(crate::specs::Fronts::plain_of))]
fn plain_of(words: Words, text: &[u8]) -> Plain
    ensures { result ≡ lem.plain_of words (folded text.now) }
{
    let reserved = reserves(words);
    if reserved && is_word(b"}", text) {
        Plain::RightBrace
    } else if byte(text, 0) == b'}' {
        Plain::CloseBrace
    } else if reserved && is_word(b"esac", text) {
        Plain::Esac
    } else if reserved && is_found(closer(text)) {
        Plain::Closer
    } else if is_assignment(text) {
        Plain::Assignment
    } else if is_numbered(text) {
        Plain::Numbered
    } else {
        Plain::Text
    }
}

fn break_of(c: u8) -> Break
    ensures { result ≡ lem.break_of c }
{
    if c == b'\n' {
        Break::Newline
    } else if c == b';' {
        Break::Semi
    } else if c == b'&' {
        Break::And
    } else if c == b'|' {
        Break::Bar
    } else if c == b'<' || c == b'>' {
        Break::Angle
    } else if c == b'(' {
        Break::OpenParen
    } else if c == b')' {
        Break::CloseParen
    } else {
        Break::Blank
    }
}

fn quote_of(c: u8) -> Quote
    ensures { result ≡ lem.quote_of c }
{
    if c == b'\\' {
        Quote::Backslash
    } else if c == b'\'' {
        Quote::Single
    } else if c == b'"' {
        Quote::Double
    } else if c == b'`' {
        Quote::Backquote
    } else {
        Quote::Dollar
    }
}

// Nothing is left, or a NUL stands there.
fn end_of(text: &[u8]) -> Front
    ensures { result ≡ lem.end_of (folded text.now) }
{
    if is_read_out(text) {
        Front::End
    } else {
        Front::Nul
    }
}

/// What a text begins with, where these words are reserved.
#[tactic(auto, unfolding(crate::specs::Fronts::front_of))]
pub fn front_of(words: Words, text: &[u8]) -> Front
    ensures { result ≡ lem.front_of words (folded text.now) }
{
    let c = byte(text, 0);
    if c == 0 {
        end_of(text)
    } else if is_end(c) {
        Front::Break(break_of(c))
    } else if is_quoting(c) {
        Front::Quote(quote_of(c))
    } else if c == b'~' {
        Front::Tilde
    } else {
        Front::Plain(plain_of(words, text))
    }
}

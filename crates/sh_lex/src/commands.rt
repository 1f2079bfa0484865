// Words among commands, in clauses and behind redirections (XCU 2.3, 2.7, 2.9, 2.10.2).
ghost use Rattle.std.specs.Prelude.{◌≡◌, drop};
ghost use Rattle.sh_token.specs.Folded.{folded};
ghost use Rattle.sh_token.specs.Expansions.{or_else as or_else_lem};
ghost use Rattle.sh_token.specs.Commands as lem;

use crate::operators::{numbered, redirect};
use sh_rules::TokenKind;
use sh_token::brackets::text_look;
use sh_token::bytes::{Class, is_end, is_letter};
use sh_token::folded::{byte, run, run_on, skip};
use sh_token::place::Words;
use sh_token::reserved::{is_word, opener};
use sh_token::unread::Unread;

type Look = Option<(TokenKind, usize)>;

fn or_else(first: Look, other: Look) -> Look
    ensures { result ≡ or_else_lem first other }
{
    match first {
        Some(found) => Some(found),
        None => other,
    }
}

pub(crate) fn redirection(text: &[u8]) -> Look
    ensures { result ≡ lem.redirection (folded text.now) }
{
    let c = byte(text, 0);
    let d = byte(text, 1);
    let e = byte(text, 2);
    if c == b'<' || c == b'>' {
        redirect(c, d, e)
    } else {
        numbered(d, e, byte(text, 3))
    }
}

fn opening(words: Words, text: &[u8]) -> Look
    ensures { result ≡ lem.opening words (folded text.now) }
{
    match words {
        Words::All => opener(text),
        Words::Closers => None,
        Words::Ordinary => None,
    }
}

fn is_in(words: Words, text: &[u8]) -> bool
    ensures { result ≡ lem.is_in words (folded text.now) }
{
    match words {
        Words::All => is_word(b"in", text),
        Words::Closers => is_word(b"in", text),
        Words::Ordinary => false,
    }
}

pub(crate) fn assignment(text: &[u8]) -> Look
    ensures { result ≡ lem.assignment (folded text.now) }
{
    let n = run(Class::Name, text);
    Some((TokenKind::Assignment, n + 1))
}

fn opens_parenthesis(text: &[u8]) -> bool
    ensures { result ≡ lem.opens_parenthesis (folded text.now) }
{
    byte(text, run(Class::Blank, text)) == b'('
}

fn opens_behind(n: usize, text: &[u8]) -> bool
    ensures { result ≡ lem.opens_parenthesis (drop n (folded text.now)) }
{
    opens_parenthesis(skip(text, n))
}

fn function_name(text: &[u8]) -> Look
    ensures { result ≡ lem.function_name (folded text.now) }
{
    let n = run_on(Class::Name, text);
    if is_letter(byte(text, 0)) && opens_behind(n, text) {
        Some((TokenKind::FunctionName, n))
    } else {
        None
    }
}

pub(crate) fn text_of(kind: TokenKind, text: &Unread) -> Look
    ensures { result ≡ lem.text_of kind (folded text.now) }
{
    text_look(Class::Plain, kind, text)
}

// A descriptor's number of two digits or more.
fn long_number(text: &[u8]) -> bool
    ensures { result ≡ lem.long_number (folded text.now) }
{
    let n = run(Class::Digit, text);
    let d = byte(text, n);
    n > 1 && (d == b'<' || d == b'>')
}

fn name_or_text(reserved: bool, text: &Unread) -> Look
    ensures { result ≡ lem.name_or_text reserved (folded text.now) }
{
    if reserved {
        None
    } else {
        or_else(
            function_name(text.bytes()),
            text_of(TokenKind::CommandText, text),
        )
    }
}

#[tactic(auto, unfolding(sh_token::specs::Commands::command_word))]
pub(crate) fn command_word(words: Words, text: &Unread) -> Look
    ensures { result ≡ lem.command_word words (folded text.now) }
{
    let bytes = text.bytes();
    if long_number(bytes) {
        None
    } else {
        or_else(
            opening(words, bytes),
            name_or_text(is_in(words, bytes), text),
        )
    }
}

#[tactic(auto, unfolding(sh_token::specs::Commands::prefix_word))]
pub(crate) fn prefix_word(text: &Unread) -> Look
    ensures { result ≡ lem.prefix_word (folded text.now) }
{
    if long_number(text.bytes()) {
        None
    } else {
        text_of(TokenKind::PrefixText, text)
    }
}

#[tactic(auto, unfolding(sh_token::specs::Commands::argument_word))]
pub(crate) fn argument_word(words: Words, text: &Unread) -> Look
    ensures { result ≡ lem.argument_word words (folded text.now) }
{
    let bytes = text.bytes();
    if long_number(bytes) {
        None
    } else if is_in(words, bytes) {
        Some((TokenKind::In, 2))
    } else {
        text_of(TokenKind::WordText, text)
    }
}

pub(crate) fn case_in(text: &[u8]) -> Look
    ensures { result ≡ lem.case_in (folded text.now) }
{
    if is_word(b"in", text) {
        Some((TokenKind::CaseIn, 2))
    } else {
        None
    }
}

pub(crate) fn name_look(text: &[u8]) -> Look
    ensures { result ≡ lem.name_look (folded text.now) }
{
    let n = run_on(Class::Name, text);
    if is_letter(byte(text, 0)) && is_end(byte(text, n)) {
        Some((TokenKind::Name, n))
    } else {
        None
    }
}

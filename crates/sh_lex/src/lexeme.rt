// Which token stands at a place.
ghost use Rattle.std.specs.Prelude.{◌≡◌, ◌≤◌, length, IfSome};
ghost use Rattle.sh_token.specs.Folded.{folded};
ghost use Rattle.sh_token.specs.Lexemes as lem;

use crate::commands::{
    argument_word, assignment, case_in, command_word, name_look, prefix_word, redirection, text_of,
};
use crate::operators::operator;
use crate::queue::Queue;
use sh_rules::TokenKind;
use sh_token::body::body;
use sh_token::brackets::text_look;
use sh_token::bytes::Class;
use sh_token::delimiter::walk;
use sh_token::expansions::dollar;
use sh_token::extents::extent;
use sh_token::folded::{byte, run_on};
use sh_token::kinds::is_raw;
use sh_token::place::{HereDocument, Words};
use sh_token::quotes::{escape, raw_byte, single};
use sh_token::recognizer::Recognizer;
use sh_token::reserved::closer;
use sh_token::unread::Unread;
use sh_token::words::{backslash, is_quotable, is_quotable_in_body, is_quotable_in_braces};

type Look = Option<(TokenKind, usize)>;

fn token_if(stands: bool, kind: TokenKind, n: usize) -> Look
    ensures { result ≡ lem.token_if stands kind n }
{
    if stands { Some((kind, n)) } else { None }
}

fn delimiter_look(text: &[u8]) -> Look
    ensures { result ≡ lem.delimiter_look text.now }
{
    let (count, ends) = walk(text);
    if ends && count > 0 {
        Some((TokenKind::Delimiter, count))
    } else {
        None
    }
}

fn body_found(literal: bool, found: Option<usize>) -> Look
    ensures { result ≡ lem.body_found literal found }
{
    match found {
        None => None,
        Some(n) => {
            if literal {
                Some((TokenKind::LiteralBody, n))
            } else {
                Some((TokenKind::BodyOpen, n))
            }
        }
    }
}

fn body_look(document: &HereDocument, text: &[u8]) -> Look
    ensures { result ≡ lem.body_look document.now text.now }
{
    body_found(document.quoted, body(document, text))
}

fn bodies_look(awaited: &Queue, text: &[u8]) -> Look
    ensures { result ≡ lem.bodies_look awaited.now text.now }
{
    match awaited.left() {
        [] => Some((TokenKind::NoBody, 0)),
        [document, ..] => body_look(document, text),
    }
}

fn operator_look(text: &[u8]) -> Look
    ensures { result ≡ lem.operator_look (folded text.now) }
{
    operator(byte(text, 0), byte(text, 1))
}

fn pattern_bar(text: &[u8]) -> Look
    ensures { result ≡ lem.pattern_bar (folded text.now) }
{
    token_if(byte(text, 1) != b'|', TokenKind::PatternBar, 1)
}

fn closing(nested: bool, next: u8) -> Look
    ensures { result ≡ lem.closing nested next }
{
    if nested {
        Some((TokenKind::ParenthesisClose, 1))
    } else if next == b')' {
        Some((TokenKind::ArithmeticClose, 2))
    } else {
        Some((TokenKind::ArithmeticText, 1))
    }
}

// What a recognizer finds, and how many bytes it has, as the text is read or as it stands.
#[tactic(auto, unfolding(sh_token::specs::Lexemes::recognized))]
fn recognized(
    recognizer: Recognizer,
    whole: bool,
    closed: bool,
    nested: bool,
    words: Words,
    awaited: &Queue,
    text: &Unread,
) -> Look
    ensures { result ≡ lem.recognized recognizer (lem.surrounded whole closed nested words awaited.now) text.now }
{
    let bytes = text.bytes();
    match recognizer {
        Recognizer::Nothing => None,
        Recognizer::AtEnd => token_if(whole, TokenKind::End, 0),
        Recognizer::Newline => Some((TokenKind::Newline, 1)),
        Recognizer::Operator => operator_look(bytes),
        Recognizer::Redirects => redirection(bytes),
        Recognizer::LeftParen => Some((TokenKind::LeftParen, 1)),
        Recognizer::Escape => escape(bytes),
        Recognizer::Single => single(bytes),
        Recognizer::QuoteOpen => Some((TokenKind::QuoteOpen, 1)),
        Recognizer::Expands => dollar(TokenKind::Brace, bytes),
        Recognizer::ExpandsQuoted => dollar(TokenKind::QuotedBrace, bytes),
        Recognizer::Closer => closer(bytes),
        Recognizer::Esac => Some((TokenKind::Esac, 4)),
        Recognizer::Assignment => assignment(bytes),
        Recognizer::CommandWord => command_word(words, text),
        Recognizer::PrefixWord => prefix_word(text),
        Recognizer::ArgumentWord => argument_word(words, text),
        Recognizer::PatternOpen => Some((TokenKind::PatternOpen, 1)),
        Recognizer::PatternText => text_of(TokenKind::PatternText, text),
        Recognizer::CaseIn => case_in(bytes),
        Recognizer::PatternClose => Some((TokenKind::PatternClose, 1)),
        Recognizer::PatternBar => pattern_bar(bytes),
        Recognizer::Bodies => bodies_look(awaited, bytes),
        Recognizer::BodyClose => token_if(closed, TokenKind::BodyClose, 0),
        Recognizer::BodyBackslash => {
            let quotes = is_quotable_in_body(raw_byte(bytes, 1));
            backslash(quotes, TokenKind::BodyEscape, TokenKind::BodyText)
        }
        Recognizer::BodyText => Some((TokenKind::BodyText, run_on(Class::BodyText, bytes))),
        Recognizer::WordEnd => Some((TokenKind::WordEnd, 0)),
        Recognizer::ValueText => text_of(TokenKind::ValueText, text),
        Recognizer::Text => text_of(TokenKind::Text, text),
        Recognizer::QuoteClose => Some((TokenKind::QuoteClose, 1)),
        Recognizer::QuotedBackslash => {
            let quotes = is_quotable(raw_byte(bytes, 1));
            backslash(quotes, TokenKind::QuotedEscape, TokenKind::QuotedText)
        }
        Recognizer::QuotedText => Some((TokenKind::QuotedText, run_on(Class::QuotedText, bytes))),
        Recognizer::BraceClose => Some((TokenKind::BraceClose, 1)),
        Recognizer::BraceStartText => text_look(Class::BraceText, TokenKind::BraceStartText, text),
        Recognizer::BraceText => text_look(Class::BraceText, TokenKind::BraceText, text),
        Recognizer::QuotedBraceBackslash => {
            let quotes = is_quotable_in_braces(raw_byte(bytes, 1));
            backslash(
                quotes,
                TokenKind::QuotedBraceEscape,
                TokenKind::QuotedBraceText,
            )
        }
        Recognizer::QuotedBraceText => {
            Some((
                TokenKind::QuotedBraceText,
                run_on(Class::QuotedBraceText, bytes),
            ))
        }
        Recognizer::ArithmeticBackslash => {
            let quotes = is_quotable_in_body(raw_byte(bytes, 1));
            backslash(
                quotes,
                TokenKind::ArithmeticEscape,
                TokenKind::ArithmeticText,
            )
        }
        Recognizer::ArithmeticText => {
            Some((
                TokenKind::ArithmeticText,
                run_on(Class::ArithmeticText, bytes),
            ))
        }
        Recognizer::ParenthesisOpen => Some((TokenKind::ParenthesisOpen, 1)),
        Recognizer::ParenthesisClose => closing(nested, byte(bytes, 1)),
        Recognizer::Name => name_look(bytes),
        Recognizer::FunctionOpen => Some((TokenKind::FunctionOpen, 1)),
        Recognizer::FunctionClose => Some((TokenKind::FunctionClose, 1)),
        Recognizer::Delimiter => delimiter_look(bytes),
    }
}

/// What a recognizer finds, and how many bytes of the text it has.
pub(crate) fn measured(
    recognizer: Recognizer,
    whole: bool,
    closed: bool,
    nested: bool,
    words: Words,
    awaited: &Queue,
    text: &Unread,
) -> Look
    ensures found { result ≡ lem.measured text.now (lem.recognized recognizer (lem.surrounded whole closed nested words awaited.now) text.now) }
    ensures within { IfSome result (λ x. x.1 ≤ length text.now) }
{
    match recognized(recognizer, whole, closed, nested, words, awaited, text) {
        None => None,
        Some((kind, n)) => Some((kind, extent(is_raw(kind), n, text.bytes()))),
    }
}

// Tokens of a text.
ghost use Rattle.std.specs.Prelude.{◌≡◌, ◌≤◌, IfOk, length, take};
ghost use Rattle.sh_arith.specs.Tokens.{is_space, spaces, word_length, word_token, or_assign, or_equal, or_double, angle, punctuator, front, lexeme, next_token, next_end};
ghost use Rattle.rk_base.specs.Variables.{is_start, is_more};

use crate::constant::constant_within;
use crate::{Operator, Token};
use rk_base::{Bytes, NoMemory};
use std::alloc::Global;

fn is_space(b: u8) -> bool
    ensures { result ≡ is_space b }
{
    b == b' ' || 9 <= b && b <= 13
}

fn is_start(b: u8) -> bool
    ensures { result ≡ is_start b }
{
    65 <= b && b <= 90 || 97 <= b && b <= 122 || b == 95
}

fn is_more(b: u8) -> bool
    ensures { result ≡ is_more b }
{
    is_start(b) || 48 <= b && b <= 57
}

// How much white space stands first.
fn spaces(text: &[u8]) -> usize
    ensures value { result ≡ spaces text.now }
    ensures within { result ≤ length text.now }
{
    let mut n = 0;
    'bytes: for b in text {
        if !is_space(*b) {
            return n;
        }
        n += 1;
    }
    n
}

fn word_length(text: &[u8]) -> usize
    ensures value { result ≡ word_length text.now }
    ensures within { result ≤ length text.now }
{
    let mut n = 0;
    'bytes: for b in text {
        if !is_more(*b) {
            return n;
        }
        n += 1;
    }
    n
}

fn or_assign(operator: Operator, b: u8) -> (Token, usize)
    ensures { result ≡ or_assign operator b }
{
    if b == b'=' {
        return (Token::Assign(Some(operator)), 2);
    }
    (Token::Operator(operator), 1)
}

fn angle(a: u8, b: u8, c: u8, shift: Operator, equal: Operator, alone: Operator) -> (Token, usize)
    ensures { result ≡ angle a b c shift equal alone }
{
    if b == a {
        if c == b'=' {
            return (Token::Assign(Some(shift)), 3);
        }
        return (Token::Operator(shift), 2);
    }
    if b == b'=' {
        return (Token::Operator(equal), 2);
    }
    (Token::Operator(alone), 1)
}

fn or_equal(b: u8, equal: Operator, alone: Token) -> (Token, usize)
    ensures { result ≡ or_equal b equal alone }
{
    if b == b'=' {
        return (Token::Operator(equal), 2);
    }
    (alone, 1)
}

fn or_double(a: u8, b: u8, double: Token, alone: Operator) -> (Token, usize)
    ensures { result ≡ or_double a b double alone }
{
    if b == a {
        return (double, 2);
    }
    or_assign(alone, b)
}

// By the byte and the two behind it.
fn punctuator(a: u8, b: u8, c: u8) -> (Token, usize)
    ensures { result ≡ punctuator a b c }
{
    match a {
        b'(' => (Token::Open, 1),
        b')' => (Token::Close, 1),
        b'?' => (Token::Question, 1),
        b':' => (Token::Colon, 1),
        b'~' => (Token::Complement, 1),
        b'!' => or_equal(b, Operator::Differs, Token::Not),
        b'=' => or_equal(b, Operator::Equal, Token::Assign(None)),
        b'<' => angle(
            b'<',
            b,
            c,
            Operator::ShiftLeft,
            Operator::AtMost,
            Operator::Less,
        ),
        b'>' => angle(
            b'>',
            b,
            c,
            Operator::ShiftRight,
            Operator::AtLeast,
            Operator::Greater,
        ),
        b'&' => or_double(b'&', b, Token::Both, Operator::And),
        b'|' => or_double(b'|', b, Token::Either, Operator::Or),
        b'^' => or_assign(Operator::ExclusiveOr, b),
        b'*' => or_assign(Operator::Times, b),
        b'/' => or_assign(Operator::Over, b),
        b'%' => or_assign(Operator::Remainder, b),
        b'+' => or_assign(Operator::Plus, b),
        b'-' => or_assign(Operator::Minus, b),
        _ => (Token::Odd, 1),
    }
}

fn word_token(alloc: Global, first: u8, word: &[u8]) -> Result<Token, NoMemory>
    ensures { IfOk result (λ t. t ≡ word_token first word.now) }
{
    if is_start(first) {
        let name = Bytes::from_slice(alloc, word)?;
        return Ok(Token::Name(name));
    }
    match constant_within(word) {
        None => Ok(Token::Odd),
        Some(n) => Ok(Token::Constant(n)),
    }
}

fn front(text: &[u8]) -> u8
    ensures { result ≡ front text.now }
{
    match text {
        [] => 0,
        [b, ..] => *b,
    }
}

fn word(alloc: Global, first: u8, text: &[u8]) -> Result<(Token, usize), NoMemory>
    ensures { IfOk result (λ x. x ≡ (word_token first (take (word_length text.now) text.now), word_length text.now)) }
{
    let n = word_length(text);
    let token = word_token(alloc, first, text.split_at(n).0)?;
    Ok((token, n))
}

// The token that stands first in a text without white space before it, and its length.
fn lexeme(alloc: Global, text: &[u8]) -> Result<(Token, usize), NoMemory>
    ensures { IfOk result (λ x. x ≡ lexeme text.now) }
{
    match text {
        [] => Ok((Token::End, 0)),
        [a, rest @ ..] => {
            if is_more(*a) {
                return word(alloc, *a, text);
            }
            let b = front(rest);
            let c = match rest {
                [] => 0,
                [_, more @ ..] => front(more),
            };
            Ok(punctuator(*a, b, c))
        }
    }
}

/// The next token of a text, and where it begins and ends.
#[derive(Drop)]
pub(crate) struct Lexed {
    pub(crate) token: Token,
    pub(crate) start: usize,
    pub(crate) end: usize,
}

/// What stands first in a text behind white space.
#[tactic(auto, using(crate::proofs::Lexing::lexeme_most))]
pub(crate) fn next_token(alloc: Global, text: &[u8]) -> Result<Lexed, NoMemory>
    ensures token { IfOk result (λ x. x.token ≡ next_token text.now) }
    ensures start { IfOk result (λ x. x.start ≡ spaces text.now) }
    ensures end { IfOk result (λ x. x.end ≡ next_end text.now) }
    ensures before { IfOk result (λ x. x.start ≤ length text.now) }
    ensures within { IfOk result (λ x. x.end ≤ length text.now) }
{
    let start = spaces(text);
    let rest = text.split_at(start).1;
    let (token, length) = lexeme(alloc, rest)?;
    Ok(Lexed {
        token,
        start,
        end: start + length,
    })
}

// What begins with a dollar sign (XCU 2.6).
ghost use Rattle.std.specs.Prelude.{◌≡◌, ◌≤◌, ◌+◌, ◌<◌, ◌^◌, length};
ghost use Rattle.sh_token.specs.Folded.{folded};
ghost use Rattle.sh_token.specs.Expansions as lem;

use crate::bytes::{Class, is_digit, is_letter};
use crate::folded::{byte, run, skip};
use sh_rules::TokenKind;

fn is_special(c: u8) -> bool
    ensures { result ≡ lem.is_special c }
{
    c == b'@' || c == b'*' || c == b'#' || c == b'?'
}

fn substitutes(c: u8) -> bool
    ensures { result ≡ lem.substitutes c }
{
    c == b'-' || c == b'=' || c == b'?' || c == b'+'
}

// A dollar sign begins something by the byte behind it.
fn is_begun(d: u8) -> bool
    ensures { result ≡ lem.is_begun d }
{
    is_letter(d)
        || is_digit(d)
        || is_special(d)
        || d == b'$'
        || d == b'!'
        || d == b'-'
        || d == b'('
        || d == b'{'
}

/// A dollar sign stands in front that begins nothing.
pub(crate) fn is_dollar(text: &[u8]) -> bool
    ensures { result ≡ lem.is_dollar (folded text.now) }
{
    byte(text, 0) == b'$' && !is_begun(byte(text, 1))
}

/// How many bytes the parameter has with which a text begins, 0 where it begins with none.
#[tactic(auto, unfolding(crate::specs::Expansions::parameter))]
pub fn parameter(text: &[u8]) -> usize
    ensures count { result ≡ lem.parameter (folded text.now) }
    ensures small { result < 2 ^ 63 }
{
    let c = byte(text, 0);
    if is_letter(c) {
        run(Class::Name, text)
    } else if is_digit(c) {
        run(Class::Digit, text)
    } else if is_special(c) {
        1
    } else {
        0
    }
}

// The operator behind a parameter in braces, whose first two bytes these are; so many bytes stand in front.
fn operation(brace: TokenKind, n: usize, c: u8, d: u8) -> Option<(TokenKind, usize)>
    requires { n < 2 ^ 63 + 2 }
    ensures { result ≡ lem.operation brace n c d }
{
    if c == b'}' {
        Some((TokenKind::Braced, n + 1))
    } else if c == b':' {
        if substitutes(d) {
            Some((brace, n + 2))
        } else {
            None
        }
    } else if substitutes(c) {
        Some((brace, n + 1))
    } else if c == b'%' {
        if d == b'%' {
            Some((TokenKind::PatternBrace, n + 2))
        } else {
            Some((TokenKind::PatternBrace, n + 1))
        }
    } else if c == b'#' {
        if d == b'#' {
            Some((TokenKind::PatternBrace, n + 2))
        } else {
            Some((TokenKind::PatternBrace, n + 1))
        }
    } else {
        None
    }
}

fn operated(brace: TokenKind, n: usize, text: &[u8]) -> Option<(TokenKind, usize)>
    requires { n < 2 ^ 63 }
    ensures { result ≡ lem.operated brace n (folded text.now) }
{
    if n == 0 {
        None
    } else {
        operation(brace, n + 2, byte(text, n + 2), byte(text, n + 3))
    }
}

fn length_of(n: usize, text: &[u8]) -> Option<(TokenKind, usize)>
    requires { n < 2 ^ 63 }
    ensures { result ≡ lem.length_of n (folded text.now) }
{
    if n == 0 {
        None
    } else if byte(text, n + 3) == b'}' {
        Some((TokenKind::Braced, n + 4))
    } else {
        None
    }
}

fn length_look(text: &[u8]) -> Option<(TokenKind, usize)>
    ensures { result ≡ lem.length_look (folded text.now) }
{
    if byte(text, 2) == b'#' {
        length_of(parameter(skip(text, 3)), text)
    } else {
        None
    }
}

fn parameter_in_braces(text: &[u8]) -> usize
    ensures count { result ≡ lem.parameter_in_braces (folded text.now) }
    ensures small { result < 2 ^ 63 }
{
    if byte(text, 2) == b'#' {
        1
    } else {
        parameter(skip(text, 2))
    }
}

/// What stands in front of a text that begins with `${` (XCU 2.6.2): a whole parameter or its length, or a parameter with an operator, of this kind where its word is read as the words around it are.
#[tactic(auto, unfolding(crate::specs::Expansions::braced))]
fn braced(brace: TokenKind, text: &[u8]) -> Option<(TokenKind, usize)>
    ensures { result ≡ lem.braced brace (folded text.now) }
{
    match length_look(text) {
        Some((kind, n)) => Some((kind, n)),
        None => operated(brace, parameter_in_braces(text), text),
    }
}

fn named(text: &[u8]) -> Option<(TokenKind, usize)>
    ensures { result ≡ lem.named (folded text.now) }
{
    let behind = skip(text, 1);
    let name = run(Class::Name, behind);
    Some((TokenKind::Parameter, name + 1))
}

/// What stands in front of a text that begins with `$` (XCU 2.6).
#[tactic(auto, unfolding(crate::specs::Expansions::dollar))]
pub fn dollar(brace: TokenKind, text: &[u8]) -> Option<(TokenKind, usize)>
    ensures { result ≡ lem.dollar brace (folded text.now) }
{
    let d = byte(text, 1);
    if is_letter(d) {
        named(text)
    } else if is_digit(d) || is_special(d) {
        Some((TokenKind::Parameter, 2))
    } else if d == b'$' || d == b'!' || d == b'-' {
        None
    } else if d == b'(' {
        if byte(text, 2) == b'(' {
            Some((TokenKind::Arithmetic, 3))
        } else {
            Some((TokenKind::Substitution, 2))
        }
    } else if d == b'{' {
        braced(brace, text)
    } else {
        Some((TokenKind::Dollar, 1))
    }
}

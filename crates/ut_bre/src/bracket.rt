// Bracket expressions (XBD 9.3.5), read.
ghost use Rattle.std.specs.Prelude.{◌≡◌, ◌+◌, ◌^◌, ◌<◌, ◌≤◌, [], ◌∷◌, drop, length, IfOk, IfSome, IsTrue, MatchOption};
ghost use Rattle.ut_bre.specs.Sets.{begins, starts_range, class_part, high_part, listed_part, closes, listing, bracket_from, bracket_at};

use crate::fault::Fault;
use crate::set::{Bracket, Listed};
use rk_base::NoMemory;
use sh_pattern::{Class, class_at};
use std::alloc::Global;

/// What is behind so many bytes.
pub(crate) fn behind(text: &[u8], size: usize) -> &[u8]
    ensures { result.now ≡ drop size text.now }
{
    if size <= text.len() {
        text.split_at(size).1
    } else {
        &[]
    }
}

/// The first byte, and what is behind it.
pub(crate) fn first_byte(text: &[u8]) -> Option<(u8, &[u8])>
    ensures { MatchOption result (text.now ≡ []) (λ r. text.now ≡ r.0 ∷ r.1.now) }
{
    match text {
        [] => None,
        [b, rest @ ..] => Some((*b, rest)),
    }
}

/// Whether a text begins with these two bytes.
pub(crate) fn begins(a: u8, b: u8, text: &[u8]) -> bool
    ensures value { result ≡ begins a b text.now }
    ensures within { IsTrue result → 2 ≤ length text.now }
{
    match text {
        [c, d, ..] => *c == a && *d == b,
        _ => false,
    }
}

// Whether a `-` stands here that makes a range of what is before it.
fn starts_range(text: &[u8]) -> bool
    ensures value { result ≡ starts_range text.now }
    ensures within { IsTrue result → 2 ≤ length text.now }
{
    match text {
        [d, c, ..] => *d == b'-' && !(*c == b']'),
        _ => false,
    }
}

fn class_part(
    start: usize,
    text: &[u8],
    class: Option<(Class, usize)>,
) -> Result<(Listed, usize), Fault>
    requires { IfSome class (λ c. c.1 ≤ length text.now) }
    ensures { result ≡ class_part start text.now class }
{
    match class {
        None => Err(Fault::Wrong(start)),
        Some((class, size)) => {
            if starts_range(behind(text, size)) {
                return Err(Fault::Wrong(start));
            }
            Ok((Listed::Named(class), size + 1))
        }
    }
}

fn high_part(start: usize, at: usize, low: u8, text: &[u8]) -> Result<(Listed, usize), Fault>
    ensures { result ≡ high_part start at low text.now }
{
    match text {
        [] => Err(Fault::Unclosed(start)),
        [high, ..] => {
            if begins(b'[', b'.', text) || begins(b'[', b'=', text) {
                return Err(Fault::Wrong(at));
            }
            if begins(b'[', b':', text) || *high < low {
                return Err(Fault::Wrong(start));
            }
            Ok((Listed::Range(low, *high), 3))
        }
    }
}

// What a bracket expression lists next; the text begins with it.
fn listed_part(
    start: usize,
    at: usize,
    b: u8,
    rest: &[u8],
    text: &[u8],
) -> Result<(Listed, usize), Fault>
    requires same { text.now ≡ b ∷ rest.now }
    requires room { at + length text.now < 2 ^ 64 }
    ensures { result ≡ listed_part start at b rest.now }
{
    if begins(b'[', b'.', text) || begins(b'[', b'=', text) {
        return Err(Fault::Wrong(at));
    }
    if begins(b'[', b':', text) {
        return class_part(start, rest, class_at(rest));
    }
    if starts_range(rest) {
        return high_part(start, at + 2, b, behind(rest, 1));
    }
    Ok((Listed::Range(b, b), 1))
}

fn closes(b: u8, listed: &[Listed]) -> bool
    ensures { result ≡ closes b listed.now }
{
    match listed {
        [] => false,
        [_, ..] => b == b']',
    }
}

fn bracket_of(negated: bool, listed: Vec<Listed>) -> Bracket
    ensures { result ≡ listing negated listed.items }
{
    Bracket {
        negated,
        listed,
        folded: false,
    }
}

// A bracket expression from its first listed byte on: that byte and the bracket begin at these places.
fn bracket_from(
    alloc: Global,
    negated: bool,
    start: usize,
    from: usize,
    text: &[u8],
) -> Result<Result<(Bracket, usize), Fault>, NoMemory>
    requires { from + length text.now < 2 ^ 64 }
    ensures { IfOk result (λ r. bracket_from negated start start from [] 0 text.now ≡ r) }
{
    let end = from + text.len();
    let mut listed = Vec::new(alloc);
    let mut left = text;
    'listed: while let Some((b, rest)) = first_byte(left) {
        let at = end - left.len();
        if closes(b, listed.as_slice()) {
            let size = (at + 1).saturating_sub(start);
            return Ok(Ok((bracket_of(negated, listed), size)));
        }
        match listed_part(start, at, b, rest, left) {
            Err(fault) => return Ok(Err(fault)),
            Ok((part, size)) => {
                listed.push(part)?;
                left = behind(rest, size.saturating_sub(1));
            }
        }
    }
    Ok(Err(Fault::Unclosed(start)))
}

/// What stands behind a `[` at this place, and how many bytes the whole takes.
pub(crate) fn bracket_at(
    alloc: Global,
    start: usize,
    text: &[u8],
) -> Result<Result<(Bracket, usize), Fault>, NoMemory>
    requires { start + 1 + length text.now < 2 ^ 64 }
    ensures { IfOk result (λ r. bracket_at start text.now ≡ r) }
{
    match text {
        [] => Ok(Err(Fault::Unclosed(start))),
        [b, rest @ ..] => {
            if *b == b'^' {
                return bracket_from(alloc, true, start, start + 2, rest);
            }
            bracket_from(alloc, false, start, start + 1, text)
        }
    }
}

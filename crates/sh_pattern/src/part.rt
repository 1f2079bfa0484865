// The parts of patterns.
ghost use Rattle.std.specs.Prelude.{◌≡◌, ◌≤◌, ◌+◌, [], MatchOption, true, false, length};
ghost use Rattle.sh_pattern.specs.Sets.{set_of, has_close};
ghost use Rattle.sh_pattern.specs.Parts.{byte, bracket_or, bracket, first_of, AsFirst, Begins, parts};

use crate::front::front;
use crate::set::{extra, may_close_behind, scan, value};
use std::marker::Model;

/// What is left of a pattern.
#[derive(Debug, Drop)]
pub(crate) struct Pattern<'a> {
    rest: &'a [u8],
    // Whether a `]` may be in it. Without one no bracket is closed, and none is read to the pattern's end for that.
    may_close: bool,
}

impl<'a> Model for Pattern<'a> {
    ghost use Rattle.std.specs.Prelude.{◌≡◌, false};
    ghost use Rattle.rk_base.specs.Text.{Text};
    ghost use Rattle.sh_pattern.specs.Sets.{has_close};

    ghost Value = { Text };

    ghost view = { λ p. p.rest.now };

    ghost invariant = { λ p. p.may_close ≡ false → has_close p.rest.now ≡ false };
}

/// A part of a pattern: any bytes, or one byte, with whether a byte that was shown meets it.
#[derive(Clone, Copy, Debug)]
pub(crate) enum Part {
    Star,
    One(bool),
}

/// The part that begins a pattern, and how many bytes it takes beyond the first.
#[derive(Clone, Copy, Debug)]
pub(crate) struct First {
    part: Part,
    more: usize,
}

fn open_bracket(b: u8) -> First
    ensures value { AsFirst b (record { part = byte 91; more = 0 }) result }
    ensures more { result.more ≡ 0 }
{
    First {
        part: Part::One(b == b'['),
        more: 0,
    }
}

fn bracket_or(negated: bool, before: usize, text: &[u8], b: u8) -> First
    requires { before ≤ 1 }
    ensures value { AsFirst b (bracket_or negated before (set_of text.now)) result }
    ensures more { result.more ≤ before + length text.now }
{
    match scan(text, b) {
        None => open_bracket(b),
        Some((held, close)) => First {
            part: Part::One(held != negated),
            more: before + close + 1,
        },
    }
}

#[tactic(auto, using(crate::proofs::CloseLemmas::open_bracket))]
fn bracket(text: &[u8], b: u8, may_close: bool) -> First
    requires { may_close ≡ false → has_close text.now ≡ false }
    ensures value { AsFirst b (bracket text.now) result }
    ensures more { result.more ≤ length text.now }
{
    if !may_close {
        return open_bracket(b);
    }
    match text {
        [] => open_bracket(b),
        [first, rest @ ..] => {
            if *first == b'!' {
                bracket_or(true, 1, rest, b)
            } else {
                bracket_or(false, 0, text, b)
            }
        }
    }
}

// The part that begins with a byte c and a text, of which a byte b is shown; whether a `]` may be in the text.
#[tactic(auto, unfolding(crate::specs::Parts::first_of))]
fn first_of(c: u8, text: &[u8], b: u8, may_close: bool) -> First
    requires { may_close ≡ false → has_close text.now ≡ false }
    ensures value { AsFirst b (first_of c text.now) result }
    ensures more { result.more ≤ length text.now }
{
    if c == b'*' {
        return First {
            part: Part::Star,
            more: 0,
        };
    }
    if c == b'?' {
        return First {
            part: Part::One(true),
            more: 0,
        };
    }
    if c == b'[' {
        return bracket(text, b, may_close);
    }
    First {
        part: Part::One(b == value(c, text)),
        more: extra(c, text),
    }
}

impl<'a> Pattern<'a> {
    pub(crate) fn new(text: &'a [u8]) -> Pattern<'a>
        ensures { parts result ≡ parts text.now }
    {
        Pattern {
            rest: text,
            may_close: true,
        }
    }

    pub(crate) fn copy(&self) -> Pattern<'a>
        ensures { result ≡ self.entry.now }
    {
        Pattern {
            rest: self.rest,
            may_close: self.may_close,
        }
    }

    /// The first part, of which a byte is shown, and what is left after it.
    pub(crate) fn first(&self, b: u8) -> Option<(Part, Pattern<'a>)>
        ensures { MatchOption result (parts self.entry.now ≡ []) (λ r. Begins b (parts self.entry.now) r.0 (parts r.1)) }
    {
        let (c, text) = front(self.rest)?;
        let first = first_of(c, text, b, self.may_close);
        let rest = text.split_at(first.more).1;
        let is_open = c == b'[' && first.more == 0;
        let may_close = may_close_behind(self.may_close, is_open, rest);
        Some((first.part, Pattern { rest, may_close }))
    }
}

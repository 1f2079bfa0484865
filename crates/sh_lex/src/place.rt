// Places of a text, and the cursor that stands at one.
ghost use Rattle.std.specs.Prelude.{◌≡◌};
ghost use Rattle.sh_token.specs.Places as lem;

use crate::queue::Queue;
use sh_token::place::Words;
use sh_token::unread::Unread;
use std::alloc::Global;
use std::marker::Model;

/// What stands around a here-document's body while it is read.
#[derive(Drop)]
pub struct Outer<'a> {
    pub(crate) text: &'a [u8],
    pub(crate) at: usize,
    pub(crate) levels: usize,
    pub(crate) opened: Vec<usize>,
    pub(crate) parens: Vec<bool>,
    pub(crate) awaited: Queue,
    pub(crate) tabs: bool,
}

impl<'a> Model for Outer<'a> {
    ghost use Rattle.std.specs.Prelude.{◌+◌, ◌<◌, ◌^◌, length};
    ghost use Rattle.sh_token.specs.Places.{OuterText};

    ghost Value = { OuterText };

    ghost view = { λ a. record { text = a.text.now; at = a.at; levels = a.levels; opened = a.opened.items; parens = a.parens.items; awaited = a.awaited; tabs = a.tabs } };

    ghost invariant = { λ a. a.at + length a.text.now < 2 ^ 63 };
}

/// A text at a place, of which one token after another is taken.
#[derive(Drop)]
pub struct Cursor<'a> {
    pub(crate) alloc: Global,
    pub(crate) text: Unread<'a>,
    pub(crate) at: usize,
    pub(crate) words: Words,
    pub(crate) levels: usize,
    pub(crate) opened: Vec<usize>,
    pub(crate) parens: Vec<bool>,
    pub(crate) awaited: Queue,
    pub(crate) in_bodies: bool,
    pub(crate) in_word: bool,
    pub(crate) due: bool,
    pub(crate) operator: usize,
    pub(crate) dashed: bool,
    pub(crate) tabs: bool,
    pub(crate) around: Vec<Outer<'a>>,
}

impl<'a> Model for Cursor<'a> {
    ghost use Rattle.std.specs.Prelude.{◌+◌, ◌<◌, ◌^◌, length};
    ghost use Rattle.sh_token.specs.Places.{Place};

    ghost Value = { Place };

    ghost view = { λ p. record {
      text = p.text;
      at = p.at;
      words = p.words;
      levels = p.levels;
      opened = p.opened.items;
      parens = p.parens.items;
      awaited = p.awaited;
      in_bodies = p.in_bodies;
      in_word = p.in_word;
      due = p.due;
      operator = p.operator;
      dashed = p.dashed;
      tabs = p.tabs;
      around = p.around.items;
    } };

    ghost invariant = { λ p. p.at + length p.text < 2 ^ 63 };
}

impl<'a> Cursor<'a> {
    /// Nothing is open and nothing awaited, in what is read by itself.
    pub(crate) fn is_closed(&self) -> bool
        ensures { result ≡ lem.is_closed self.now }
    {
        self.opened.is_empty() && self.awaited.is_empty()
    }

    /// The whole text may end here.
    pub(crate) fn is_whole(&self) -> bool
        ensures { result ≡ lem.is_whole self.now }
    {
        self.is_closed() && self.around.is_empty()
    }

    /// In an arithmetic expansion, parentheses of its own are open.
    pub(crate) fn is_nested(&self) -> bool
        ensures { result ≡ lem.is_nested self.now }
    {
        !last_paren(self.parens.as_slice())
    }
}

// The parentheses that were opened last begin an expansion.
fn last_paren(parens: &[bool]) -> bool
    ensures { result ≡ lem.last_paren parens.now }
{
    match parens.last() {
        None => false,
        Some(last) => *last,
    }
}

// Commands of a script.
ghost use Rattle.std.specs.Prelude.{◌≡◌};
ghost use Rattle.ut_sed.specs.Substituting.{names_group};

use crate::address::Address;
use crate::change::Change;
use ut_bre::Bre;

/// A part of a replacement.
#[derive(Clone, Copy, Debug, Drop)]
pub enum Part {
    Byte(u8),
    /// `&`: what was matched.
    Whole,
    /// What the group of this number took; the first has the number 1.
    Group(usize),
}

impl Part {
    /// Whether it asks for what a group took.
    pub(crate) fn names_group(self) -> bool
        ensures { result ≡ names_group self }
    {
        match self {
            Part::Byte(_) => false,
            Part::Whole => false,
            Part::Group(_) => true,
        }
    }
}

/// What `s` does.
#[derive(Drop)]
pub struct Substitution {
    pub expression: Bre,
    pub parts: Vec<Part>,
    /// The number of the first match that is replaced, from 1 on.
    pub first: u64,
    /// `g`: each match after it is replaced too.
    pub global: bool,
    /// `p`: the line is written where a match was replaced.
    pub prints: bool,
}

/// What a command does (XCU sed, "Editing Commands in sed").
#[derive(Drop)]
pub enum Act {
    /// `p`
    Print,
    /// `d`
    Delete,
    /// `q`
    Quit,
    /// `=`
    Count,
    /// `y`
    Change(Change),
    /// `s`
    Substitute(Substitution),
}

/// A command of a script: the lines that its addresses select, or with `!` the others, and what it does.
#[derive(Drop)]
pub struct Command {
    pub first: Option<Address>,
    pub second: Option<Address>,
    pub negated: bool,
    pub act: Act,
}

// Many patterns, of which one is sought in a line.
ghost use Rattle.std.specs.Prelude.{◌≡◌, map, is_some, IfOk, IfSome};
ghost use Rattle.std.specs.List.{list_all};
ghost use Rattle.ut_grep.specs.Greps.{fixed};
ghost use Rattle.ut_grep.specs.Patterns.{pattern_value};
ghost use Rattle.ut_grep.specs.Sought.{sought_in, is_text, are_many, IsSoughtInstead};

use crate::automaton::Automaton;
use crate::grep::Manner;
use crate::pattern::Pattern;
use rk_base::{Bytes, NoMemory};
use std::alloc::Global;

// From so many on patterns are sought together; fewer are found as fast one by one.
const MANY: usize = 16;

/// Many texts, of which one is sought in a line, or as the whole of it.
#[derive(Drop)]
pub struct Sought {
    pub(crate) whole: bool,
    pub(crate) automaton: Automaton,
}

impl Sought {
    /// Whether a pattern stands in a line, or is the whole of it.
    pub(crate) fn stands(&self, line: &[u8]) -> bool
        ensures { result ≡ sought_in self.now line.now }
    {
        self.automaton.stands(self.whole, line)
    }
}

// The texts that patterns are, where all are texts.
fn texts_of(alloc: Global, patterns: &[Pattern]) -> Result<Option<Vec<Bytes>>, NoMemory>
    ensures all { IfOk result (λ o. is_some o ≡ list_all is_text patterns.now) }
    ensures texts { IfOk result (λ o. IfSome o (λ texts. map pattern_value patterns.now ≡ map fixed texts.items)) }
{
    let mut texts = Vec::new(alloc);
    'patterns: for pattern in patterns {
        match pattern {
            Pattern::Fixed(text) => texts.push(text.copy()?)?,
            Pattern::Basic(_) => return Ok(None),
        }
    }
    Ok(Some(texts))
}

/// What is sought in place of patterns; none, where they are few, or where one is an expression.
pub(crate) fn sought_for(
    alloc: Global,
    manner: Manner,
    patterns: &[Pattern],
) -> Result<Option<Sought>, NoMemory>
    ensures many { IfOk result (λ o. is_some o ≡ are_many patterns.now) }
    ensures instead { IfOk result (λ o. IfSome o (λ s. IsSoughtInstead s manner patterns.now)) }
{
    if patterns.len() < MANY {
        return Ok(None);
    }
    match texts_of(alloc, patterns)? {
        None => Ok(None),
        Some(texts) => {
            let automaton = Automaton::new(alloc, texts)?;
            Ok(Some(Sought {
                whole: manner.whole,
                automaton,
            }))
        }
    }
}

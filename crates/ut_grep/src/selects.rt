// Which lines `grep` selects.
ghost use Rattle.std.specs.Prelude.{◌≡◌, map, is_some, IfOk, if◌then◌else◌};
ghost use Rattle.rk_base.specs.Text.{same_text};
ghost use Rattle.ut_bre.specs.Expressions.{expression};
ghost use Rattle.ut_grep.specs.Chosen.{grep_of};
ghost use Rattle.ut_grep.specs.Greps.{folded, occurs, basic, holds, matches, selects};
ghost use Rattle.ut_grep.specs.Patterns.{pattern_value};
ghost use Rattle.ut_grep.specs.Sought.{are_many};
ghost use Rattle.ut_grep.specs.Values.{grep_value};

use crate::grep::{Grep, Manner};
use crate::occurs::{is_same, lower_all, occurs};
use crate::pattern::{Pattern, is_whole};
use crate::sought::sought_for;
use rk_base::NoMemory;
use std::alloc::Global;
use ut_bre::{Bre, Marks};

/// The memory of what is made of a line, taken once for all lines of a text.
#[derive(Drop)]
pub(crate) struct Memory {
    marks: Marks,
    small: Vec<u8>,
}

impl Memory {
    pub(crate) fn new(alloc: Global) -> Memory {
        Memory {
            marks: Marks::new(alloc),
            small: Vec::new(alloc),
        }
    }
}

impl Grep {
    pub(crate) fn new(
        alloc: Global,
        patterns: Vec<Pattern>,
        manner: Manner,
    ) -> Result<Grep, NoMemory>
        ensures value { IfOk result (λ g. grep_value g ≡ grep_of manner (map pattern_value patterns.items)) }
        ensures together { IfOk result (λ g. is_some g.sought ≡ are_many patterns.items) }
    {
        let sought = sought_for(alloc, manner, patterns.as_slice())?;
        Ok(Grep {
            patterns,
            manner,
            sought,
        })
    }

    fn holds_text(&self, small: &[u8], text: &[u8]) -> bool
        ensures { result ≡ (if (grep_value self.now).whole then same_text small.now text.now else occurs text.now small.now) }
    {
        if self.manner.whole {
            is_same(small, text)
        } else {
            occurs(text, small)
        }
    }

    fn holds_basic(&self, line: &[u8], bre: &Bre, marks: &mut Marks) -> Result<bool, NoMemory>
        ensures { IfOk result (λ b. b ≡ holds (grep_value self.now) line.now (basic (expression bre.now))) }
    {
        let span = bre.span_in(line, 0, marks)?;
        if self.manner.whole {
            Ok(is_whole(line, span))
        } else {
            Ok(span.is_some())
        }
    }

    // Whether a line, which is this one where case doesn't count, holds a pattern.
    fn holds(
        &self,
        line: &[u8],
        small: &[u8],
        pattern: &Pattern,
        marks: &mut Marks,
    ) -> Result<bool, NoMemory>
        requires { small.now ≡ folded (grep_value self.now).folded line.now }
        ensures { IfOk result (λ b. b ≡ holds (grep_value self.now) line.now (pattern_value pattern.now)) }
    {
        match pattern {
            Pattern::Fixed(text) => Ok(self.holds_text(small, text.as_slice())),
            Pattern::Basic(bre) => self.holds_basic(line, bre, marks),
        }
    }

    fn holds_any(&self, line: &[u8], small: &[u8], marks: &mut Marks) -> Result<bool, NoMemory>
        requires { small.now ≡ folded (grep_value self.now).folded line.now }
        ensures { IfOk result (λ b. b ≡ matches (grep_value self.now) line.now) }
    {
        if let Some(sought) = &self.sought {
            return Ok(sought.stands(small));
        }
        for pattern in self.patterns.as_slice() {
            if self.holds(line, small, pattern, marks)? {
                return Ok(true);
            }
        }
        Ok(false)
    }

    fn matches(&self, line: &[u8], memory: &mut Memory) -> Result<bool, NoMemory>
        ensures { IfOk result (λ b. b ≡ matches (grep_value self.now) line.now) }
    {
        if self.manner.folded {
            lower_all(line, &mut memory.small)?;
            self.holds_any(line, memory.small.as_slice(), &mut memory.marks)
        } else {
            self.holds_any(line, line, &mut memory.marks)
        }
    }

    pub(crate) fn selects(&self, line: &[u8], memory: &mut Memory) -> Result<bool, NoMemory>
        ensures { IfOk result (λ b. b ≡ selects (grep_value self.now) line.now) }
    {
        let matches = self.matches(line, memory)?;
        if self.manner.inverted {
            Ok(!matches)
        } else {
            Ok(matches)
        }
    }
}

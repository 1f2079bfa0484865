// Patterns, and the texts that are none.
ghost use Rattle.std.specs.Prelude.{◌≡◌, IfOk, IfSome};
ghost use Rattle.ut_bre.specs.Reading.{read_folded};
ghost use Rattle.ut_grep.specs.Chosen.{basic_of, pattern_of, patterns_of};
ghost use Rattle.ut_grep.specs.Greps.{folded, is_whole};
ghost use Rattle.ut_grep.specs.Passing.{needed_by, IsNeededBy};
ghost use Rattle.ut_grep.specs.Patterns.{pattern_value, IsPattern, ArePatterns};

use crate::grep::Manner;
use crate::occurs::lower_all;
use rk_base::{Bytes, NoMemory};
use std::alloc::Global;
use ut_bre::{Bre, BreErr, Span};

/// A text (`-F`), or a basic regular expression.
#[derive(Drop)]
pub enum Pattern {
    Fixed(Bytes),
    Basic(Bre),
}

impl Pattern {
    /// A byte that each line with this pattern has, where one is told.
    pub(crate) fn needed(&self) -> Option<u8>
        ensures value { result ≡ needed_by (pattern_value self.now) }
        ensures needed { IfSome result (IsNeededBy (pattern_value self.now)) }
    {
        match self {
            Pattern::Fixed(_) => None,
            Pattern::Basic(bre) => bre.needed(),
        }
    }
}

fn fold(alloc: Global, is_folded: bool, pattern: &Bytes) -> Result<Bytes, NoMemory>
    ensures { IfOk result (λ text. text ≡ folded is_folded pattern.now) }
{
    if is_folded {
        let mut small = Vec::new(alloc);
        lower_all(pattern.as_slice(), &mut small)?;
        Bytes::new(alloc, small)
    } else {
        pattern.copy()
    }
}

fn basic_of(
    alloc: Global,
    is_folded: bool,
    text: &Bytes,
) -> Result<Result<Pattern, Bytes>, NoMemory>
    ensures { IfOk result (IsPattern (basic_of text.now (read_folded is_folded text.now))) }
{
    match Bre::read_folded(alloc, is_folded, text.as_slice()) {
        Ok(bre) => Ok(Ok(Pattern::Basic(bre))),
        Err(BreErr::Bad(_)) => {
            let text = text.copy()?;
            Ok(Err(text))
        }
        Err(BreErr::NoMemory) => Err(NoMemory),
    }
}

// A text as a pattern; where it is none, itself.
fn pattern_of(
    alloc: Global,
    manner: Manner,
    text: &Bytes,
) -> Result<Result<Pattern, Bytes>, NoMemory>
    ensures { IfOk result (IsPattern (pattern_of manner text.now)) }
{
    if !manner.fixed {
        return basic_of(alloc, manner.folded, text);
    }
    let text = fold(alloc, manner.folded, text)?;
    Ok(Ok(Pattern::Fixed(text)))
}

/// Texts as patterns, or the first that is none.
pub(crate) fn patterns_of(
    alloc: Global,
    manner: Manner,
    texts: &[Bytes],
) -> Result<Result<Vec<Pattern>, Bytes>, NoMemory>
    ensures { IfOk result (ArePatterns (patterns_of manner texts.now)) }
{
    let mut patterns = Vec::new(alloc);
    'texts: for text in texts {
        match pattern_of(alloc, manner, text)? {
            Ok(pattern) => patterns.push(pattern)?,
            Err(text) => return Ok(Err(text)),
        }
    }
    Ok(Ok(patterns))
}

/// Whether this is the whole line.
pub(crate) fn is_whole(line: &[u8], span: Option<Span>) -> bool
    ensures { result ≡ is_whole line.now span }
{
    match span {
        None => false,
        Some(span) => span.start == 0 && span.end == line.len(),
    }
}

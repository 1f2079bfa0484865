// Lines that are passed, since they lack a byte.
ghost use Rattle.std.specs.Prelude.{◌≡◌, ◌+◌, ◌<◌, ◌≤◌, ◌++◌, ◌∷◌, [], length, take, drop, IfOk, IfSome, MatchOption};
ghost use Rattle.ut_filter.specs.Lines.{lines_of, Lacks};
ghost use Rattle.ut_grep.specs.Passing.{needed_in, IsNeeded, NoneSelected, SameNumber};
ghost use Rattle.ut_grep.specs.Values.{grep_value};

use crate::grep::Grep;
use rk_base::NoMemory;
use ut_filter::{front_line, lines_without};

// How many bytes of a text are passed; none, where no byte is told.
fn passed(needed: Option<u8>, text: &[u8]) -> usize
    ensures within { result ≤ length text.now }
    ensures cut { lines_of text.now ≡ lines_of (take result text.now) ++ lines_of (drop result text.now) }
    ensures lacks { MatchOption needed (take result text.now ≡ []) (Lacks (take result text.now)) }
{
    match needed {
        None => 0,
        Some(b) => lines_without(text, b),
    }
}

fn count_lines(text: &[u8]) -> Result<u64, NoMemory>
    ensures { IfOk result (λ n. n ≡ length (lines_of text.now)) }
{
    let mut count = 0u64;
    let mut rest = text;
    'lines: while let Some((_, after)) = front_line(rest) {
        count = count.checked_add(1).ok_or(NoMemory)?;
        rest = after;
    }
    Ok(count)
}

/// The number of the next line.
pub(crate) fn next_number(n: u64) -> Result<u64, NoMemory>
    ensures { IfOk result (λ next. next ≡ n + 1) }
{
    n.checked_add(1).ok_or(NoMemory)
}

impl Grep {
    /// A byte that each selected line has, where one is told.
    // Depth: one level, to the method of its one pattern.
    pub(crate) fn needed(&self) -> Option<u8>
        ensures value { result ≡ needed_in (grep_value self.now) }
        ensures needed { IfSome result (IsNeeded (grep_value self.now)) }
    {
        if self.manner.inverted {
            return None;
        }
        match self.patterns.as_slice() {
            [pattern] => pattern.needed(),
            _ => None,
        }
    }

    /// The first line that may be selected: what stands before it, where no line is, itself, and what stands behind it.
    pub(crate) fn next_line<'t>(
        &self,
        needed: Option<u8>,
        text: &'t [u8],
    ) -> Option<(&'t [u8], &'t [u8], &'t [u8])>
        requires { IfSome needed (IsNeeded (grep_value self.now)) }
        ensures cut { MatchOption result (NoneSelected (grep_value self.now) (lines_of text.now)) (λ r. lines_of text.now ≡ lines_of r.0.now ++ r.1.now ∷ lines_of r.2.now) }
        ensures passed { IfSome result (λ r. NoneSelected (grep_value self.now) (lines_of r.0.now)) }
        ensures length { IfSome result (λ r. length r.2.now < length text.now) }
    {
        let (front, left) = text.split_at(passed(needed, text));
        match front_line(left) {
            None => None,
            Some((line, after)) => Some((front, line, after)),
        }
    }

    /// The number of a line behind these; any, where numbers are not told.
    pub(crate) fn number_behind(&self, number: u64, front: &[u8]) -> Result<u64, NoMemory>
        ensures { IfOk result (λ n. SameNumber (grep_value self.now) (number + length (lines_of front.now)) n) }
    {
        if !self.manner.numbered {
            return Ok(number);
        }
        let lines = count_lines(front)?;
        number.checked_add(lines).ok_or(NoMemory)
    }
}

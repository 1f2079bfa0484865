// The lists of `cut`.
ghost use Rattle.std.specs.Prelude.{◌≡◌, ◌==◌, ◌&&◌, IfOk};
ghost use Rattle.std.specs.List.{list_any};
ghost use Rattle.rk_base.specs.Canonical.{is_empty};
ghost use Rattle.ut_args.specs.Numbers.{number};
ghost use Rattle.ut_select.specs.Cuts.{is_dash, end_of, range_of, ranges_of, ends_after, is_in, is_listed, is_at};

use crate::fields::{after, before, front_field};
use rk_base::NoMemory;
use std::alloc::Global;

/// Places, from the lowest to the highest, or to the end where there is none.
#[derive(Clone, Copy, Debug, Drop)]
pub struct Range {
    pub low: u64,
    pub high: Option<u64>,
}

/// Whether a byte stands in a text.
pub(crate) fn has(text: &[u8], at: u8) -> bool
    ensures { result ≡ list_any (is_at at) text.now }
{
    text.iter().any(|b| *b == at)
}

fn number(digits: &[u8]) -> Result<u64, NoMemory>
    ensures { IfOk result (λ n. n ≡ number digits.now) }
{
    ut_args::number(digits).ok_or(NoMemory)
}

fn is_empty(text: &[u8]) -> bool
    ensures { result ≡ is_empty text.now }
{
    match text {
        [] => true,
        [_, ..] => false,
    }
}

fn end_of(text: &[u8]) -> Result<Option<u64>, NoMemory>
    ensures { IfOk result (λ end. end ≡ end_of text.now) }
{
    if !has(text, b'-') {
        let high = number(text)?;
        return Ok(Some(high));
    }
    let end = after(text, b'-');
    if is_empty(end) {
        return Ok(None);
    }
    let high = number(end)?;
    Ok(Some(high))
}

fn range_of(text: &[u8]) -> Result<Range, NoMemory>
    ensures { IfOk result (λ range. range ≡ range_of text.now) }
{
    let low = number(before(text, b'-'))?;
    let high = end_of(text)?;
    Ok(Range { low, high })
}

/// The ranges of an argument. One that doesn't fit counts as want of memory; none of a list's form is so long.
pub(crate) fn ranges_of(alloc: Global, text: &[u8]) -> Result<Vec<Range>, NoMemory>
    ensures { IfOk result (λ ranges. ranges.items ≡ ranges_of text.now) }
{
    let mut ranges = Vec::new(alloc);
    let mut left = Some(text);
    'parts: while let Some(text) = left {
        let (first, rest) = front_field(text, b',');
        let range = range_of(first)?;
        ranges.push(range)?;
        left = rest;
    }
    Ok(ranges)
}

fn ends_after(place: u64, high: Option<u64>) -> bool
    ensures { result ≡ ends_after place high }
{
    match high {
        None => true,
        Some(high) => place <= high,
    }
}

impl Range {
    fn holds(&self, place: u64) -> bool
        ensures { result ≡ is_in place self.now }
    {
        self.low <= place && ends_after(place, self.high)
    }
}

/// Whether a place is in one of these ranges.
pub(crate) fn is_listed(ranges: &[Range], place: u64) -> bool
    ensures { result ≡ is_listed ranges.now place }
{
    ranges.iter().any(|range| range.holds(place))
}

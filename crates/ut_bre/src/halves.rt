// A match that is sought by the places to which the items lead from where it may begin.
ghost use Rattle.std.specs.Prelude.{◌≡◌, ◌+◌, ◌-◌, ◌≤◌, ◌<◌, true, Some, IfOk, length};
ghost use Rattle.ut_bre.specs.Expressions.{expression};
ghost use Rattle.ut_bre.specs.Images.{IsFarthest, FindsBetween};
ghost use Rattle.ut_bre.specs.Matching.{IsLeftmostLongest, Finds};
ghost use Rattle.ut_bre.specs.Relations.{IsLastEnd};

use crate::bre::Bre;
use crate::group::Span;
use crate::halt::{Allowance, Halt};
use crate::image::image;
use ut_places::Places;

// The last of so many places at which a match may end.
pub(crate) fn last_end(set: &Places, at_end: bool, places: usize) -> Option<usize>
    requires { 0 < places }
    ensures { IsLastEnd set.now at_end (places - 1) result }
{
    if at_end {
        return if set.has(places - 1) {
            Some(places - 1)
        } else {
            None
        };
    }
    set.last(places)
}

impl Bre {
    // The last end of the matches that begin from one place on and before another one.
    fn farthest(
        &self,
        line: &[u8],
        from: usize,
        to: usize,
        allowed: &mut Allowance,
    ) -> Result<Option<usize>, Halt>
        requires within { to ≤ length line.now + 1 }
        requires order { from ≤ to }
        requires anchored { (expression self.now).at_start ≡ true → to ≤ 1 }
        ensures { IfOk result (λ r. IsFarthest (expression self.now) line.now from to r) }
    {
        let starts = Places::between(self.allocator(), from, to)?;
        let ends = image(self.items.as_slice(), line, line.len(), &starts, allowed)?;
        Ok(last_end(&ends, self.at_end, line.len() + 1))
    }

    // The leftmost of these matches, of which the last end is known, and the longest there: by halves of the places.
    fn halved(
        &self,
        line: &[u8],
        from: usize,
        to: usize,
        end: usize,
        allowed: &mut Allowance,
    ) -> Result<Span, Halt>
        requires within { to ≤ length line.now + 1 }
        requires order { from < to }
        requires anchored { (expression self.now).at_start ≡ true → to ≤ 1 }
        requires farthest { IsFarthest (expression self.now) line.now from to (Some end) }
        ensures { IfOk result (λ r. IsLeftmostLongest (expression self.now) line.now from r) }
    {
        let mut end = end;
        let mut low = from;
        let mut high = to;
        'halves: while high - low > 1 {
            let half = low + (high - low) / 2;
            match self.farthest(line, low, half, allowed)? {
                None => low = half,
                Some(last) => {
                    end = last;
                    high = half;
                }
            }
        }
        Ok(Span { start: low, end })
    }

    // The leftmost of the matches that begin from one place on and before another one, and the longest there.
    fn leftmost(
        &self,
        line: &[u8],
        from: usize,
        to: usize,
        allowed: &mut Allowance,
    ) -> Result<Option<Span>, Halt>
        requires within { to ≤ length line.now + 1 }
        requires order { from < to }
        requires anchored { (expression self.now).at_start ≡ true → to ≤ 1 }
        ensures { IfOk result (λ r. FindsBetween (expression self.now) line.now from to r) }
    {
        match self.farthest(line, from, to, allowed)? {
            None => Ok(None),
            Some(end) => {
                let span = self.halved(line, from, to, end, allowed)?;
                Ok(Some(span))
            }
        }
    }

    // Where so many places end that begin at one of a line; where a `^` is first, behind that place.
    fn block_end(&self, line: &[u8], start: usize, places: usize) -> usize
        requires { start ≤ length line.now }
        ensures behind { start < result }
        ensures within { result ≤ length line.now + 1 }
        ensures anchored { (expression self.now).at_start ≡ true → result ≡ start + 1 }
    {
        if self.at_start || places == 0 {
            return start + 1;
        }
        start.saturating_add(places).min(line.len() + 1)
    }

    /// The leftmost match from this place on, and the longest there, as far as the places that are gone over are allowed. The
    /// first place where one may begin is looked at alone, then four times as many each time that none was found.
    pub(crate) fn seek(
        &self,
        line: &[u8],
        from: usize,
        allowed: &mut Allowance,
    ) -> Result<Option<Span>, Halt>
        requires { from ≤ length line.now }
        ensures { IfOk result (λ r. Finds (expression self.now) line.now from r) }
    {
        let mut at = from;
        let mut places = 1usize;
        'starts: loop {
            let Some(start) = self.next_start(line, at) else {
                return Ok(None);
            };
            if self.at_start && start > 0 {
                return Ok(None);
            }
            let to = self.block_end(line, start, places);
            let found = self.leftmost(line, start, to, allowed)?;
            if found.is_some() {
                return Ok(found);
            }
            if to > line.len() {
                return Ok(found);
            }
            at = to;
            places = places.saturating_mul(4);
        }
    }
}

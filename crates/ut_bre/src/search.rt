// What is found in a line: an expression of many marks is fitted to it first.
ghost use Rattle.std.specs.Prelude.{◌-◌, ◌<◌, ◌≤◌, IfOk, length};
ghost use Rattle.ut_bre.specs.Expressions.{expression};
ghost use Rattle.ut_bre.specs.Matching.{Finds};

use crate::bre::Bre;
use crate::fit::least_size;
use crate::group::Span;
use crate::halt::{Allowance, Halt};
use crate::halves::last_end;
use crate::mark::Marks;
use crate::relation::relate_items;
use crate::size::{FEW, marks_of};
use rk_base::NoMemory;

impl Bre {
    /// Whether it has so many marks that it is fitted to the line.
    pub(crate) fn has_many(&self) -> bool {
        self.size > FEW
    }

    // The match that `scan` tells, by the sets of places to which the items lead from each place.
    fn search_related(&self, line: &[u8], from: usize) -> Result<Option<Span>, NoMemory>
        requires { from ≤ length line.now }
        ensures { IfOk result (λ r. Finds (expression self.now) line.now from r) }
    {
        let rest = Span {
            start: from,
            end: line.len(),
        };
        let table = relate_items(self.allocator(), self.items.as_slice(), line, rest)?;
        'starts: for far in 0..table.len() {
            if self.at_start && from + far > 0 {
                return Ok(None);
            }
            match last_end(&table[far], self.at_end, table.len()) {
                None => {}
                Some(end) => {
                    return Ok(Some(Span {
                        start: from + far,
                        end: from + end,
                    }));
                }
            }
        }
        Ok(None)
    }

    // The match that `scan` tells, by sets of places.
    fn search_sets(&self, line: &[u8], from: usize) -> Result<Option<Span>, NoMemory>
        requires { from ≤ length line.now }
        ensures { IfOk result (λ r. Finds (expression self.now) line.now from r) }
    {
        let mut allowed = Allowance::of(line.len() - from);
        match self.seek(line, from, &mut allowed) {
            Ok(span) => Ok(span),
            Err(Halt::NoMemory) => Err(NoMemory),
            Err(Halt::Spent) => self.search_related(line, from),
        }
    }

    // The leftmost match from this place on, and the longest there, of an expression fitted to the rest of the line.
    fn search_fitted(
        &self,
        line: &[u8],
        from: usize,
        marks: &mut Marks,
    ) -> Result<Option<Span>, NoMemory>
        ensures { IfOk result (λ r. Finds (expression self.now) line.now from r) }
    {
        if from > line.len() {
            return Ok(None);
        }
        let room = line.len() - from;
        if least_size(self.items.as_slice()) > room {
            return Ok(None);
        }
        let fitted = self.fitted(room)?;
        if marks_of(fitted.items.as_slice()) > FEW {
            let span = fitted.search_sets(line, from)?;
            return Ok(span);
        }
        let span = fitted.scan(line, from, marks)?;
        Ok(span)
    }

    /// The leftmost match from this place on, and the longest there.
    pub(crate) fn search(
        &self,
        line: &[u8],
        from: usize,
        marks: &mut Marks,
    ) -> Result<Option<Span>, NoMemory>
        ensures { IfOk result (λ r. Finds (expression self.now) line.now from r) }
    {
        if !self.has_many() {
            return self.scan(line, from, marks);
        }
        self.search_fitted(line, from, marks)
    }
}

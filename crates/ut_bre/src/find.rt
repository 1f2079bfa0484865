// What an expression finds in a line.
ghost use Rattle.std.specs.Prelude.{◌≡◌, IfOk, None, replicate};
ghost use Rattle.ut_bre.specs.Expressions.{expression};
ghost use Rattle.ut_bre.specs.Found.{span_found, groups_at, found};
ghost use Rattle.ut_bre.specs.Matching.{Matches, Finds};
ghost use Rattle.ut_bre.specs.Picking.{PutsItems, FindsGroups};

use crate::bre::Bre;
use crate::group::{Found, GroupList, Span};
use crate::mark::Marks;
use rk_base::NoMemory;

impl Bre {
    /// How many groups it has.
    pub fn groups(&self) -> usize
        ensures { result ≡ (expression self.now).groups }
    {
        self.groups
    }

    /// The leftmost match from this place on, and the longest there (XBD 9.1).
    pub fn span(&self, line: &[u8], from: usize) -> Result<Option<Span>, NoMemory>
        ensures finds { IfOk result (λ r. Finds (expression self.now) line.now from r) }
        ensures value { IfOk result (λ r. r ≡ span_found (expression self.now) line.now from) }
    {
        let mut marks = Marks::new(self.allocator());
        self.span_in(line, from, &mut marks)
    }

    /// The match that `span` tells, with memory that was taken before.
    pub fn span_in(
        &self,
        line: &[u8],
        from: usize,
        marks: &mut Marks,
    ) -> Result<Option<Span>, NoMemory>
        ensures finds { IfOk result (λ r. Finds (expression self.now) line.now from r) }
        ensures value { IfOk result (λ r. r ≡ span_found (expression self.now) line.now from) }
    {
        let span = self.search(line, from, marks)?;
        Ok(span)
    }

    fn find_groups(
        &self,
        line: &[u8],
        from: usize,
        marks: &mut Marks,
    ) -> Result<Option<Found>, NoMemory>
        ensures { IfOk result (λ r. FindsGroups (expression self.now) line.now from r) }
    {
        match self.search(line, from, marks)? {
            None => Ok(None),
            Some(span) => {
                let groups = self.picked(line, span, marks)?;
                Ok(Some(Found {
                    start: span.start,
                    end: span.end,
                    groups,
                }))
            }
        }
    }

    /// The match that `span` tells, with what its groups took: more work than `span`.
    pub fn find(&self, line: &[u8], from: usize) -> Result<Option<Found>, NoMemory>
        ensures finds { IfOk result (λ r. FindsGroups (expression self.now) line.now from r) }
        ensures value { IfOk result (λ r. r ≡ found (expression self.now) line.now from) }
    {
        let mut marks = Marks::new(self.allocator());
        let found = self.find_groups(line, from, &mut marks)?;
        Ok(found)
    }

    /// What the groups of a match took, with memory that was taken before. `span_in` finds the match alone, with less work.
    pub fn groups_in(
        &self,
        line: &[u8],
        span: Span,
        marks: &mut Marks,
    ) -> Result<GroupList, NoMemory>
        requires { Matches (expression self.now) line.now span.start span.end }
        ensures puts { IfOk result (λ g. PutsItems line.now (expression self.now).items span.start span.end (replicate (expression self.now).groups None) g) }
        ensures value { IfOk result (λ g. g ≡ groups_at (expression self.now) line.now span) }
    {
        let groups = self.picked(line, span, marks)?;
        Ok(groups)
    }
}

// What `s` makes of a line.
ghost use Rattle.std.specs.Prelude.{◌≡◌, ◌++◌, ◌||◌, IfOk, IfSome, OnOk};
ghost use Rattle.ut_bre.specs.Expressions.{expression};
ghost use Rattle.ut_bre.specs.Found.{with_groups, found_at};
ghost use Rattle.ut_bre.specs.Matching.{Matches};
ghost use Rattle.ut_sed.specs.Commands.{substitution_of};
ghost use Rattle.ut_sed.specs.Substituting.{group_text, part_text, parts_text, name_groups, next_found, match_text, is_final, substituted, is_substituted};

use crate::command::{Part, Substitution};
use crate::growth::{extend, push};
use crate::pieces::{behind, piece};
use rk_base::NoMemory;
use ut_bre::{Bre, Found, GroupList, Marks, Span};

fn group_text(text: &[u8], span: Option<Span>) -> &[u8]
    ensures { result.now ≡ group_text text.now span }
{
    match span {
        None => &[],
        Some(span) => piece(text, span.start, span.end),
    }
}

fn put_part(text: &[u8], found: &Found, part: Part, made: &mut Vec<u8>) -> Result<(), NoMemory>
    ensures { OnOk result (made.new.items ≡ made.old.items ++ part_text text.now found.now part) }
{
    match part {
        Part::Byte(b) => push(made, b)?,
        Part::Whole => extend(made, piece(text, found.start, found.end))?,
        Part::Group(number) => { extend(made, group_text(text, found.groups.get(number)))? }
    }
    Ok(())
}

fn put_parts(text: &[u8], found: &Found, parts: &[Part], made: &mut Vec<u8>) -> Result<(), NoMemory>
    ensures { OnOk result (made.new.items ≡ made.old.items ++ parts_text text.now found.now parts.now) }
{
    'parts: for part in parts {
        put_part(text, found, *part, made)?;
    }
    Ok(())
}

fn name_groups(parts: &[Part]) -> bool
    ensures { result ≡ name_groups parts.now }
{
    parts.iter().any(|part| part.names_group())
}

// The match behind one that ends at a place: an empty one right there isn't taken.
fn next_span(bre: &Bre, text: &[u8], at: usize, marks: &mut Marks) -> Result<Option<Span>, NoMemory>
    ensures next { IfOk result (λ s. found_at (expression bre.now) text.now s ≡ next_found (expression bre.now) text.now at) }
    ensures matches { IfOk result (λ s. IfSome s (λ m. Matches (expression bre.now) text.now m.start m.end)) }
{
    let here = bre.span_in(text, at, marks)?;
    match here {
        None => Ok(None),
        Some(span) => {
            if span.end != at {
                return Ok(Some(span));
            }
            let from = at.checked_add(1).ok_or(NoMemory)?;
            let next = bre.span_in(text, from, marks)?;
            Ok(next)
        }
    }
}

fn either(a: bool, b: bool) -> bool
    ensures { result ≡ a || b }
{
    a || b
}

impl Substitution {
    fn is_final(&self, passed: u64) -> bool
        ensures { result ≡ is_final (substitution_of self.now) passed }
    {
        passed == 0 && !self.global
    }

    // What the groups of a match took, where a part asks for that.
    fn groups(&self, text: &[u8], span: Span, marks: &mut Marks) -> Result<GroupList, NoMemory>
        requires { Matches (expression self.now.expression) text.now span.start span.end }
        ensures { IfOk result (λ g. parts_text text.now (record { start = span.start; end = span.end; groups = g }) self.now.parts.items ≡ parts_text text.now (with_groups (expression self.now.expression) text.now span) self.now.parts.items) }
    {
        if !name_groups(self.parts.as_slice()) {
            return Ok(GroupList::new(*self.parts.allocator()));
        }
        let groups = self.expression.groups_in(text, span, marks)?;
        Ok(groups)
    }

    // What stands before a match, and the match, which is replaced where none is to be passed over.
    fn put_match(
        &self,
        text: &[u8],
        at: usize,
        passed: u64,
        span: Span,
        marks: &mut Marks,
        made: &mut Vec<u8>,
    ) -> Result<(), NoMemory>
        requires { Matches (expression self.now.expression) text.now span.start span.end }
        ensures { OnOk result (made.new.items ≡ made.old.items ++ match_text (substitution_of self.now) text.now at passed (with_groups (expression self.now.expression) text.now span)) }
    {
        if passed == 0 {
            extend(made, piece(text, at, span.start))?;
            let groups = self.groups(text, span, marks)?;
            let found = Found {
                start: span.start,
                end: span.end,
                groups,
            };
            put_parts(text, &found, self.parts.as_slice(), made)
        } else {
            extend(made, piece(text, at, span.end))?;
            Ok(())
        }
    }

    /// What it makes of a text, and whether a match is replaced.
    pub(crate) fn rewrite(
        &self,
        text: &[u8],
        marks: &mut Marks,
        made: &mut Vec<u8>,
    ) -> Result<bool, NoMemory>
        ensures made { OnOk result (made.new.items ≡ made.old.items ++ substituted (substitution_of self.now) text.now) }
        ensures replaced { IfOk result (λ b. b ≡ is_substituted (substitution_of self.now) text.now) }
    {
        let mut next = self.expression.span_in(text, 0, marks)?;
        let mut at = 0;
        let mut passed = self.first.saturating_sub(1);
        let mut replaced = false;
        let mut left = text.len() + 1;
        'matches: while left > 0 {
            left -= 1;
            match next {
                None => {
                    extend(made, behind(text, at))?;
                    return Ok(replaced);
                }
                Some(span) => {
                    self.put_match(text, at, passed, span, marks, made)?;
                    at = span.end;
                    if self.is_final(passed) {
                        extend(made, behind(text, at))?;
                        return Ok(true);
                    }
                    replaced = either(replaced, passed == 0);
                    passed = passed.saturating_sub(1);
                    next = next_span(&self.expression, text, at, marks)?;
                }
            }
        }
        extend(made, behind(text, at))?;
        Ok(replaced)
    }
}

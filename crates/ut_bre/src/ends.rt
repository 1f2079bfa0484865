// Where the turns of a star end: all of them by one pass from the end of what they take to its start.
ghost use Rattle.std.specs.Prelude.{◌≡◌, ◌-◌, ◌<◌, ◌≤◌, IfOk, OnOk, length, unwrap_or};
ghost use Rattle.ut_bre.specs.Ends.{mark_at, AreEnds};
ghost use Rattle.ut_bre.specs.Matching.{MatchesItems, Repeated};
ghost use Rattle.ut_bre.specs.Picking.{IsNextTurn};
ghost use Rattle.ut_bre.specs.Times.{star};
ghost use Rattle.ut_bre.specs.Trees.{trees_of};

use crate::back::{flow_back, step_back};
use crate::group::Span;
use crate::mark::{Mark, Marks};
use crate::parts::find_part_ends;
use crate::tree::Item;
use rk_base::NoMemory;
use std::mem::swap;

fn mark_at(far: usize, found: Mark) -> Mark
    ensures { result ≡ mark_at far found }
{
    match found {
        None => None,
        Some(_) => Some(far),
    }
}

// How far before the end the turn ends; where none does, how far before it this place lies.
fn end_at(far: usize, found: Mark) -> usize
    ensures { result ≡ unwrap_or found far }
{
    match found {
        None => far,
        Some(next) => next,
    }
}

/// For each place that lies before the end, how far before it the turn ends that begins there. A mark is such an end, told
/// so too: the least is the last.
pub(crate) fn find_ends(
    body: &[Item],
    line: &[u8],
    span: Span,
    marks: &mut Marks,
    ends: &mut Vec<usize>,
) -> Result<(), NoMemory>
    requires within { span.end ≤ length line.now }
    requires order { span.start ≤ span.end }
    ensures ends { OnOk result (AreEnds (MatchesItems line.now (trees_of body.now)) span.end ends.new.items) }
    ensures count { OnOk result (length ends.new.items ≡ span.end - span.start) }
{
    ends.clear();
    marks.here.clear();
    let mut found = Some(0);
    'places: for far in 0..span.end - span.start {
        marks.next.clear();
        let mark = mark_at(far, found);
        let _after = step_back(
            body,
            marks.here.as_slice(),
            mark,
            line[span.end - far - 1],
            &mut marks.next,
        )?;
        swap(&mut marks.here, &mut marks.next);
        let before = flow_back(body, marks.here.as_slice(), None);
        ends.push(end_at(far + 1, before.out))?;
        found = before.out;
    }
    Ok(())
}

// Where the turns end that begin at each place from a start on, where that is not yet told.
fn extend_ends(
    body: &[Item],
    line: &[u8],
    span: Span,
    marks: &mut Marks,
    ends: &mut Vec<usize>,
) -> Result<(), NoMemory>
    requires within { span.end ≤ length line.now }
    requires order { span.start ≤ span.end }
    requires ends { AreEnds (MatchesItems line.now (trees_of body.now)) span.end ends.old.items }
    ensures ends { OnOk result (AreEnds (MatchesItems line.now (trees_of body.now)) span.end ends.new.items) }
    ensures count { OnOk result (span.end - span.start ≤ length ends.new.items) }
{
    if span.end - span.start <= ends.len() {
        return Ok(());
    }
    find_part_ends(body, line, span, marks, ends)
}

/// Where the next turn of a star ends, which takes something; the ends of all turns behind it are kept.
pub(crate) fn star_turn(
    body: &[Item],
    line: &[u8],
    span: Span,
    marks: &mut Marks,
    ends: &mut Vec<usize>,
) -> Result<usize, NoMemory>
    requires within { span.end ≤ length line.now }
    requires order { span.start < span.end }
    requires matches { Repeated (MatchesItems line.now (trees_of body.now)) star span.start span.end }
    requires ends { AreEnds (MatchesItems line.now (trees_of body.now)) span.end ends.old.items }
    ensures next { IfOk result (λ m. IsNextTurn (MatchesItems line.now (trees_of body.now)) star span.start span.end m) }
    ensures ends { OnOk result (AreEnds (MatchesItems line.now (trees_of body.now)) span.end ends.new.items) }
{
    extend_ends(body, line, span, marks, ends)?;
    let next = ends[span.end - span.start - 1];
    Ok(span.end - next)
}

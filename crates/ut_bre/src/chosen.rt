// Rows and places of what is fitted to a piece of the line: by marks, or by sets where the marks would take more memory.
ghost use Rattle.std.specs.Prelude.{◌≡◌, ◌-◌, ◌≤◌, IfOk, OnOk, None, length};
ghost use Rattle.ut_bre.specs.Ends.{AreEnds};
ghost use Rattle.ut_bre.specs.Matching.{MatchesItems, Repeated};
ghost use Rattle.ut_bre.specs.Picking.{MatchesTurn, ReachesEnd, IsLatest};
ghost use Rattle.ut_bre.specs.Resting.{rest_of};
ghost use Rattle.ut_bre.specs.Rows.{IsRow, ReachesOpen};
ghost use Rattle.ut_bre.specs.Trees.{tree_of, trees_of};

use crate::by_sets::{related_ends, related_open, related_row};
use crate::ends::find_ends;
use crate::group::Span;
use crate::mark::Marks;
use crate::pick::{Rest, latest};
use crate::row::Row;
use crate::rows::{find_row, latest_open};
use crate::size::{are_too_many, marks_of, turns_marks};
use crate::tree::{Item, Times};
use rk_base::NoMemory;

/// The row of these turns of an item, before the row of what stands behind them.
pub(crate) fn row_of(
    item: &Item,
    times: Times,
    line: &[u8],
    span: Span,
    marks: &mut Marks,
    behind: &Row,
) -> Result<Row, NoMemory>
    requires within { span.end ≤ length line.now }
    requires order { span.start ≤ span.end }
    ensures { IfOk result (λ r. IsRow (Repeated (MatchesTurn line.now (tree_of item.now)) times) behind.now span.start span.end r) }
{
    if are_too_many(turns_marks(item, times), span.end - span.start) {
        let row = related_row(Rest::Turns(item, times), line, span, behind)?;
        return Ok(row);
    }
    let row = find_row(item, times, line, span, marks, behind)?;
    Ok(row)
}

/// The last place to which these turns of an item lead from the start, and from which what stands behind them leads on.
pub(crate) fn open_of(
    item: &Item,
    times: Times,
    line: &[u8],
    span: Span,
    marks: &mut Marks,
    behind: &Row,
) -> Result<Option<usize>, NoMemory>
    requires within { span.end ≤ length line.now }
    requires order { span.start ≤ span.end }
    ensures { IfOk result (λ r. IsLatest (ReachesOpen line.now (tree_of item.now) times behind.now span.start span.end) r) }
{
    if are_too_many(turns_marks(item, times), span.end - span.start) {
        let found = related_open(item, times, line, span, behind)?;
        return Ok(found);
    }
    let found = latest_open(item, times, line, span, marks, behind)?;
    Ok(found)
}

/// For each place before the end, how far before it the turn of a star ends that begins there.
pub(crate) fn ends_of(
    body: &[Item],
    line: &[u8],
    span: Span,
    marks: &mut Marks,
    ends: &mut Vec<usize>,
) -> Result<(), NoMemory>
    requires within { span.end ≤ length line.now }
    requires order { span.start ≤ span.end }
    ensures ends { OnOk result (AreEnds (MatchesItems line.now (trees_of body.now)) span.end ends.new.items) }
    ensures count { OnOk result (length ends.new.items ≡ span.end - span.start) }
{
    if are_too_many(marks_of(body), span.end - span.start) {
        return related_ends(body, line, span, ends);
    }
    find_ends(body, line, span, marks, ends)
}

fn rest_marks(rest: Rest<'_>) -> usize {
    match rest {
        Rest::Items(items) => marks_of(items),
        Rest::Turns(item, times) => turns_marks(item, times),
    }
}

// The last place to which these turns of an item lead from the start, and from which the rest leads to the end: as its row
// tells.
fn latest_by_row(
    item: &Item,
    times: Times,
    rest: Rest<'_>,
    line: &[u8],
    span: Span,
    marks: &mut Marks,
) -> Result<Option<usize>, NoMemory>
    requires order { span.start ≤ span.end }
    requires within { span.end ≤ length line.now }
    ensures { IfOk result (λ r. IsLatest (ReachesEnd line.now (tree_of item.now) times (rest_of rest.entry) span.start span.end) r) }
{
    let none = Row::of_end(marks.allocator(), span)?;
    let row = related_row(rest, line, span, &none)?;
    let found = related_open(item, times, line, span, &row)?;
    Ok(found)
}

/// The last place to which these turns of an item lead from the start, and from which the rest leads to the end.
pub(crate) fn latest_of(
    item: &Item,
    times: Times,
    rest: Rest<'_>,
    line: &[u8],
    span: Span,
    marks: &mut Marks,
) -> Result<Option<usize>, NoMemory>
    requires order { span.start ≤ span.end }
    requires within { span.end ≤ length line.now }
    requires some { IsLatest (ReachesEnd line.now (tree_of item.now) times (rest_of rest) span.start span.end) None → ⊥ }
    ensures { IfOk result (λ r. IsLatest (ReachesEnd line.now (tree_of item.now) times (rest_of rest.entry) span.start span.end) r) }
{
    let all = turns_marks(item, times).saturating_add(rest_marks(rest));
    if are_too_many(all, span.end - span.start) {
        let found = latest_by_row(item, times, rest, line, span, marks)?;
        return Ok(found);
    }
    let found = latest(item, times, rest, line, span, marks)?;
    Ok(found)
}

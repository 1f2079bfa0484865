// Parts of an expression of many marks: each is fitted to the piece of the line in which it is sought.
ghost use Rattle.std.specs.Prelude.{◌≡◌, ◌-◌, ◌≤◌, IfOk, OnOk, None, length};
ghost use Rattle.ut_bre.specs.Ends.{AreEnds};
ghost use Rattle.ut_bre.specs.Fitting.{IsFittedPart};
ghost use Rattle.ut_bre.specs.Matching.{MatchesItems, Repeated};
ghost use Rattle.ut_bre.specs.Picking.{MatchesTurn, ReachesEnd, IsLatest};
ghost use Rattle.ut_bre.specs.Resting.{rest_of};
ghost use Rattle.ut_bre.specs.Rows.{IsRow, ReachesOpen};
ghost use Rattle.ut_bre.specs.Trees.{tree_of, trees_of, times_of};

use crate::chosen::{ends_of, latest_of, open_of, row_of};
use crate::ends::find_ends;
use crate::fit::{fit_items, fit_part};
use crate::group::Span;
use crate::mark::Marks;
use crate::pick::{Rest, latest};
use crate::row::Row;
use crate::rows::{find_row, latest_open};
use crate::tree::{Item, Times};
use rk_base::NoMemory;

// Where the last turn begins in a piece of the line, of a part that is fitted to it.
fn latest_fitted(
    own: &Item,
    rest: Rest<'_>,
    line: &[u8],
    span: Span,
    marks: &mut Marks,
) -> Result<Option<usize>, NoMemory>
    requires order { span.start ≤ span.end }
    requires within { span.end ≤ length line.now }
    requires some { IsLatest (ReachesEnd line.now (tree_of own.now) (times_of (tree_of own.now)) (rest_of rest) span.start span.end) None → ⊥ }
    ensures { IfOk result (λ r. IsLatest (ReachesEnd line.now (tree_of own.now) (times_of (tree_of own.now)) (rest_of rest.entry) span.start span.end) r) }
{
    let alloc = marks.allocator();
    let room = span.end - span.start;
    match rest {
        Rest::Items(items) => {
            let items = fit_items(alloc, items, room)?;
            let found = latest_of(
                own,
                own.times(),
                Rest::Items(items.as_slice()),
                line,
                span,
                marks,
            )?;
            Ok(found)
        }
        Rest::Turns(other, left) => {
            let other = fit_part(alloc, other, left, room)?;
            let found = latest_of(
                own,
                own.times(),
                Rest::Turns(&other, other.times()),
                line,
                span,
                marks,
            )?;
            Ok(found)
        }
    }
}

/// The last place to which these turns of an item lead from the start, and from which the rest leads to the end.
pub(crate) fn latest_part(
    item: &Item,
    times: Times,
    rest: Rest<'_>,
    line: &[u8],
    span: Span,
    marks: &mut Marks,
) -> Result<Option<usize>, NoMemory>
    requires order { span.start ≤ span.end }
    requires within { span.end ≤ length line.now }
    requires some { IsLatest (ReachesEnd line.now (tree_of item.now) times (rest_of rest) span.start span.end) None → ⊥ }
    ensures { IfOk result (λ r. IsLatest (ReachesEnd line.now (tree_of item.now) times (rest_of rest.entry) span.start span.end) r) }
{
    if !marks.are_many {
        let found = latest(item, times, rest, line, span, marks)?;
        return Ok(found);
    }
    let own = fit_part(marks.allocator(), item, times, span.end - span.start)?;
    let found = latest_fitted(&own, rest, line, span, marks)?;
    Ok(found)
}

/// The row of these turns of an item, before the row of what stands behind them.
pub(crate) fn find_part_row(
    item: &Item,
    times: Times,
    line: &[u8],
    span: Span,
    marks: &mut Marks,
    behind: &Row,
) -> Result<Row, NoMemory>
    requires within { span.end ≤ length line.now }
    requires order { span.start ≤ span.end }
    ensures { IfOk result (λ r. IsRow (Repeated (MatchesTurn line.now (tree_of item.now)) times) behind.now span.start span.end r) }
{
    if !marks.are_many {
        let row = find_row(item, times, line, span, marks, behind)?;
        return Ok(row);
    }
    let own = fit_part(marks.allocator(), item, times, span.end - span.start)?;
    let row = row_of(&own, own.times(), line, span, marks, behind)?;
    Ok(row)
}

/// The last place to which these turns of an item lead from the start, and from which what stands behind them leads on.
pub(crate) fn latest_part_open(
    item: &Item,
    times: Times,
    line: &[u8],
    span: Span,
    marks: &mut Marks,
    behind: &Row,
) -> Result<Option<usize>, NoMemory>
    requires within { span.end ≤ length line.now }
    requires order { span.start ≤ span.end }
    ensures { IfOk result (λ r. IsLatest (ReachesOpen line.now (tree_of item.now) times behind.now span.start span.end) r) }
{
    if !marks.are_many {
        let found = latest_open(item, times, line, span, marks, behind)?;
        return Ok(found);
    }
    let own = fit_part(marks.allocator(), item, times, span.end - span.start)?;
    let found = open_of(&own, own.times(), line, span, marks, behind)?;
    Ok(found)
}

/// For each place before the end, how far before it the turn of a star ends that begins there.
pub(crate) fn find_part_ends(
    body: &[Item],
    line: &[u8],
    span: Span,
    marks: &mut Marks,
    ends: &mut Vec<usize>,
) -> Result<(), NoMemory>
    requires within { span.end ≤ length line.now }
    requires order { span.start ≤ span.end }
    ensures ends { OnOk result (AreEnds (MatchesItems line.now (trees_of body.now)) span.end ends.new.items) }
    ensures count { OnOk result (length ends.new.items ≡ span.end - span.start) }
{
    if !marks.are_many {
        find_ends(body, line, span, marks, ends)?;
        return Ok(());
    }
    let items = fit_items(marks.allocator(), body, span.end - span.start)?;
    ends_of(items.as_slice(), line, span, marks, ends)?;
    Ok(())
}

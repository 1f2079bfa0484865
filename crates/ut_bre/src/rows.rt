// How rows are found and used: one pass each.
ghost use Rattle.std.specs.Prelude.{◌≡◌, ◌≤◌, IfOk, length};
ghost use Rattle.ut_bre.specs.Matching.{Repeated};
ghost use Rattle.ut_bre.specs.Picking.{MatchesTurn, IsLatest};
ghost use Rattle.ut_bre.specs.Rows.{later, IsRow, ReachesOpen};
ghost use Rattle.ut_bre.specs.Trees.{tree_of};

use crate::back::{flow_times_back, step_times_back};
use crate::flow::{flow_times, step_times};
use crate::group::Span;
use crate::mark::{Mark, Marks};
use crate::pick::{are_none, first_seed};
use crate::row::Row;
use crate::tree::{Item, Times};
use rk_base::NoMemory;
use std::mem::swap;

/// The row of these turns of an item, before the row of what stands behind them: by one pass from the end back.
pub(crate) fn find_row(
    item: &Item,
    times: Times,
    line: &[u8],
    span: Span,
    marks: &mut Marks,
    behind: &Row,
) -> Result<Row, NoMemory>
    requires within { span.end ≤ length line.now }
    requires order { span.start ≤ span.end }
    ensures { IfOk result (λ r. IsRow (Repeated (MatchesTurn line.now (tree_of item.now)) times) behind.now span.start span.end r) }
{
    let mut row = Row::new(behind.allocator());
    marks.here.clear();
    let size = span.end - span.start;
    'places: for far in 0..size {
        marks.next.clear();
        let mark = behind.lead(far);
        let here = step_times_back(
            item,
            times,
            marks.here.as_slice(),
            mark,
            line[span.end - far - 1],
            &mut marks.next,
        )?;
        let leads = here.out.is_some();
        row.push(leads)?;
        swap(&mut marks.here, &mut marks.next);
    }
    let mark = behind.lead(size);
    let last = flow_times_back(item, times, marks.here.as_slice(), mark);
    let leads = last.out.is_some();
    row.push(leads)?;
    Ok(row)
}

fn later(best: Option<usize>, out: Mark, leads: bool, at: usize) -> Option<usize>
    ensures { result ≡ later best out leads at }
{
    match out {
        None => best,
        Some(_) => if leads { Some(at) } else { best },
    }
}

/// The last place to which these turns of an item lead from the start, and from which what stands behind them leads on, as
/// its row tells: by one pass over their own marks, as long as some are left.
pub(crate) fn latest_open(
    item: &Item,
    times: Times,
    line: &[u8],
    span: Span,
    marks: &mut Marks,
    behind: &Row,
) -> Result<Option<usize>, NoMemory>
    requires within { span.end ≤ length line.now }
    requires order { span.start ≤ span.end }
    ensures { IfOk result (λ r. IsLatest (ReachesOpen line.now (tree_of item.now) times behind.now span.start span.end) r) }
{
    let mut best = None;
    marks.here.clear();
    'places: for at in span.start..span.end {
        marks.next.clear();
        let mark = first_seed(at, span.start);
        let here = step_times(
            item,
            times,
            marks.here.as_slice(),
            mark,
            line[at],
            &mut marks.next,
        )?;
        let leads = behind.is_open(span.end - at);
        best = later(best, here.out, leads, at);
        swap(&mut marks.here, &mut marks.next);
        if are_none(marks.here.as_slice()) {
            return Ok(best);
        }
    }
    let mark = first_seed(span.end, span.start);
    let here = flow_times(item, times, marks.here.as_slice(), mark);
    let leads = behind.is_open(0);
    let last = later(best, here.out, leads, span.end);
    Ok(last)
}

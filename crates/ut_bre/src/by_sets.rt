// Rows and places of turns, by the sets of places to which they lead.
ghost use Rattle.std.specs.Prelude.{◌≡◌, ◌+◌, ◌-◌, ◌<◌, ◌≤◌, IfOk, IfSome, OnOk, length};
ghost use Rattle.ut_bre.specs.Ends.{AreEnds};
ghost use Rattle.ut_bre.specs.Matching.{MatchesItems};
ghost use Rattle.ut_bre.specs.Picking.{MatchesRest, IsLatest};
ghost use Rattle.ut_bre.specs.Relations.{IsRelation, OpensAt, ahead, far_from};
ghost use Rattle.ut_bre.specs.Resting.{rest_of};
ghost use Rattle.ut_bre.specs.Rows.{IsRow, ReachesOpen};
ghost use Rattle.ut_bre.specs.Trees.{tree_of, trees_of};

use crate::group::Span;
use crate::pick::Rest;
use crate::relation::{relate_items, relate_times};
use crate::row::Row;
use crate::tree::{Item, Times};
use rk_base::NoMemory;
use std::alloc::Global;
use ut_places::Places;

// The last of so many places of a set from which what stands behind leads on.
fn last_open(set: &Places, behind: &Row, places: usize) -> Option<usize>
    requires { 0 < places }
    ensures { IsLatest (OpensAt set.now behind.now (places - 1)) result }
{
    let mut end = places;
    'places: while let Some(place) = set.last(end) {
        if behind.is_open(places - 1 - place) {
            return Some(place);
        }
        end = place;
    }
    None
}

// Where what stands behind a place leads.
fn relate_rest(
    alloc: Global,
    rest: Rest<'_>,
    line: &[u8],
    span: Span,
) -> Result<Vec<Places>, NoMemory>
    requires within { span.end ≤ length line.now }
    requires order { span.start ≤ span.end }
    ensures { IfOk result (λ t. IsRelation (MatchesRest line.now (rest_of rest.entry)) span.start (span.end - span.start) t.items) }
{
    match rest {
        Rest::Items(items) => relate_items(alloc, items, line, span),
        Rest::Turns(item, times) => relate_times(alloc, item, times, line, span),
    }
}

/// The row of items or turns, before the row of what stands behind them.
pub(crate) fn related_row(
    rest: Rest<'_>,
    line: &[u8],
    span: Span,
    behind: &Row,
) -> Result<Row, NoMemory>
    requires within { span.end ≤ length line.now }
    requires order { span.start ≤ span.end }
    ensures { IfOk result (λ r. IsRow (MatchesRest line.now (rest_of rest.entry)) behind.now span.start span.end r) }
{
    let alloc = behind.allocator();
    let table = relate_rest(alloc, rest, line, span)?;
    let places = table.len();
    let mut row = Row::new(alloc);
    'places: for far in 0..places {
        let found = last_open(&table[places - 1 - far], behind, places);
        let leads = found.is_some();
        row.push(leads)?;
    }
    Ok(row)
}

fn ahead(start: usize, far: Option<usize>, end: usize) -> Option<usize>
    requires { IfSome far (λ p. start + p ≤ end) }
    ensures { result ≡ ahead start far }
{
    match far {
        None => None,
        Some(far) => Some(start + far),
    }
}

/// The last place to which these turns of an item lead from the start, and from which what stands behind them leads on, as
/// its row tells.
pub(crate) fn related_open(
    item: &Item,
    times: Times,
    line: &[u8],
    span: Span,
    behind: &Row,
) -> Result<Option<usize>, NoMemory>
    requires within { span.end ≤ length line.now }
    requires order { span.start ≤ span.end }
    ensures { IfOk result (λ r. IsLatest (ReachesOpen line.now (tree_of item.now) times behind.now span.start span.end) r) }
{
    let table = relate_times(behind.allocator(), item, times, line, span)?;
    let places = table.len();
    let found = last_open(&table[0], behind, places);
    let place = ahead(span.start, found, span.end);
    Ok(place)
}

fn far_from(size: usize, far: usize, found: Option<usize>) -> usize
    ensures { result ≡ far_from size far found }
{
    match found {
        None => far,
        Some(place) => size.saturating_sub(place),
    }
}

/// For each place that lies before the end, how far before it the turn of a star ends that begins there.
pub(crate) fn related_ends(
    body: &[Item],
    line: &[u8],
    span: Span,
    ends: &mut Vec<usize>,
) -> Result<(), NoMemory>
    requires within { span.end ≤ length line.now }
    requires order { span.start ≤ span.end }
    ensures ends { OnOk result (AreEnds (MatchesItems line.now (trees_of body.now)) span.end ends.new.items) }
    ensures count { OnOk result (length ends.new.items ≡ span.end - span.start) }
{
    let alloc = *ends.allocator();
    let table = relate_items(alloc, body, line, span)?;
    let places = table.len();
    let size = span.end - span.start;
    let mut row = Row::new(alloc);
    row.push(true)?;
    ends.clear();
    'places: for far in 0..size {
        let found = last_open(&table[size - far - 1], &row, places);
        ends.push(far_from(size, far + 1, found))?;
        let leads = found.is_some();
        row.push(leads)?;
    }
    Ok(())
}

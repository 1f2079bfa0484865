// The rows of a group's turns that are counted, one before another.
ghost use Rattle.std.specs.Prelude.{◌≡◌, ◌≤◌, None, Some, IfOk, OnOk, length};
ghost use Rattle.ut_bre.specs.Matching.{Repeated};
ghost use Rattle.ut_bre.specs.Picking.{MatchesTurn};
ghost use Rattle.ut_bre.specs.Rows.{AreTurnRows, AreFound, TellsWhere, behind_counted};
ghost use Rattle.ut_bre.specs.Trees.{tree_of};

use crate::group::Span;
use crate::mark::Marks;
use crate::parts::find_part_row;
use crate::place_rows::top;
use crate::row::Row;
use crate::tree::{Item, Times};
use rk_base::NoMemory;
use std::alloc::Global;
use std::collections::VecDeque;

// The row of what stands behind the turns that are counted.
fn bottom_row(
    alloc: Global,
    item: &Item,
    beyond: Option<usize>,
    line: &[u8],
    span: Span,
    marks: &mut Marks,
) -> Result<Row, NoMemory>
    requires within { span.end ≤ length line.now }
    requires order { span.start ≤ span.end }
    ensures { IfOk result (λ r. TellsWhere (λ i. Repeated (MatchesTurn line.now (tree_of item.now)) (behind_counted beyond) i span.end) span.start span.end r) }
{
    let none = Row::of_end(alloc, span)?;
    match beyond {
        Some(_) => Ok(none),
        None => {
            let star = find_part_row(item, Times::any(), line, span, marks, &none)?;
            Ok(star)
        }
    }
}

// Those of so many turns, none of which is needed.
fn push_maybe(
    item: &Item,
    more: usize,
    line: &[u8],
    span: Span,
    marks: &mut Marks,
    bottom: &Row,
    rows: &mut VecDeque<Row>,
) -> Result<(), NoMemory>
    requires within { span.end ≤ length line.now }
    requires order { span.start ≤ span.end }
    requires found { AreFound (MatchesTurn line.now (tree_of item.now)) span.start span.end (record { least = 0; beyond = Some 0 }) bottom.now rows.old.items }
    ensures { OnOk result (AreFound (MatchesTurn line.now (tree_of item.now)) span.start span.end (record { least = 0; beyond = Some more }) bottom.now rows.new.items) }
{
    'turns: for _ in 0..more {
        let row = find_part_row(
            item,
            Times::at_most_once(),
            line,
            span,
            marks,
            top(rows, bottom),
        )?;
        rows.push_front(row)?;
    }
    Ok(())
}

// Those of turns beyond the least count.
fn push_beyond(
    item: &Item,
    beyond: Option<usize>,
    line: &[u8],
    span: Span,
    marks: &mut Marks,
    bottom: &Row,
    rows: &mut VecDeque<Row>,
) -> Result<(), NoMemory>
    requires within { span.end ≤ length line.now }
    requires order { span.start ≤ span.end }
    requires found { AreFound (MatchesTurn line.now (tree_of item.now)) span.start span.end (behind_counted beyond) bottom.now rows.old.items }
    ensures { OnOk result (AreFound (MatchesTurn line.now (tree_of item.now)) span.start span.end (record { least = 0; beyond = beyond }) bottom.now rows.new.items) }
{
    match beyond {
        None => Ok(()),
        Some(more) => push_maybe(item, more, line, span, marks, bottom, rows),
    }
}

// Those of turns that are needed.
fn push_needed(
    item: &Item,
    times: Times,
    line: &[u8],
    span: Span,
    marks: &mut Marks,
    bottom: &Row,
    rows: &mut VecDeque<Row>,
) -> Result<(), NoMemory>
    requires within { span.end ≤ length line.now }
    requires order { span.start ≤ span.end }
    requires found { AreFound (MatchesTurn line.now (tree_of item.now)) span.start span.end (record { least = 0; beyond = times.beyond }) bottom.now rows.old.items }
    ensures { OnOk result (AreFound (MatchesTurn line.now (tree_of item.now)) span.start span.end times bottom.now rows.new.items) }
{
    'turns: for _ in 0..times.least {
        let row = find_part_row(item, Times::once(), line, span, marks, top(rows, bottom))?;
        rows.push_front(row)?;
    }
    Ok(())
}

/// The rows of so many turns of a group, before the end of them all: one pass each.
pub(crate) fn find_turn_rows(
    alloc: Global,
    item: &Item,
    times: Times,
    line: &[u8],
    span: Span,
    marks: &mut Marks,
    rows: &mut VecDeque<Row>,
) -> Result<(), NoMemory>
    requires within { span.end ≤ length line.now }
    requires order { span.start ≤ span.end }
    ensures { OnOk result (AreTurnRows (MatchesTurn line.now (tree_of item.now)) span.start span.end times rows.new.items) }
{
    rows.clear();
    let bottom = bottom_row(alloc, item, times.beyond, line, span, marks)?;
    push_beyond(item, times.beyond, line, span, marks, &bottom, rows)?;
    push_needed(item, times, line, span, marks, &bottom, rows)?;
    Ok(())
}

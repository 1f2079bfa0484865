// The rows of items, one before another.
ghost use Rattle.std.specs.Prelude.{◌≡◌, ◌≤◌, ◌∷◌, [], OnOk, length, if◌then◌else◌};
ghost use Rattle.ut_bre.specs.Rows.{ArePlaceRows, TellsWhere, top_of};
ghost use Rattle.ut_bre.specs.Trees.{trees_of};

use crate::group::Span;
use crate::groups::has_groups;
use crate::mark::Marks;
use crate::parts::find_part_row;
use crate::row::Row;
use crate::tree::Item;
use rk_base::NoMemory;
use std::alloc::Global;
use std::collections::VecDeque;

/// The first row, or this one where there is none.
pub(crate) fn top<'a>(rows: &'a VecDeque<Row>, bottom: &'a Row) -> &'a Row
    ensures { result.now ≡ top_of rows.now.items bottom.now }
{
    match rows.front() {
        None => bottom,
        Some(row) => row,
    }
}

// A row before the others, or instead of them.
fn put_row(rows: &mut VecDeque<Row>, row: Row, keeps: bool) -> Result<(), NoMemory>
    ensures { OnOk result (rows.new.items ≡ row ∷ (if keeps then rows.old.items else [])) }
{
    if !keeps {
        rows.clear();
    }
    rows.push_front(row)?;
    Ok(())
}

// No row is asked for behind the last group but that of all items there.
fn push_places(
    items: &[Item],
    line: &[u8],
    span: Span,
    marks: &mut Marks,
    bottom: &Row,
    rows: &mut VecDeque<Row>,
) -> Result<(), NoMemory>
    requires within { span.end ≤ length line.now }
    requires order { span.start ≤ span.end }
    requires none { rows.old.items ≡ [] }
    requires tells { TellsWhere (λ i. i ≡ span.end) span.start span.end bottom.now }
    ensures { OnOk result (ArePlaceRows line.now span.start span.end (trees_of items.now) rows.new.items) }
{
    let mut at = items.len();
    'items: while at > 0 {
        at -= 1;
        let item = &items[at];
        let row = find_part_row(item, item.times(), line, span, marks, top(rows, bottom))?;
        put_row(rows, row, has_groups(items.split_at(at).1))?;
    }
    Ok(())
}

/// The rows of items and of those without the first ones up to the last group, before the end of them all: one pass each.
pub(crate) fn find_place_rows(
    alloc: Global,
    items: &[Item],
    line: &[u8],
    span: Span,
    marks: &mut Marks,
    rows: &mut VecDeque<Row>,
) -> Result<(), NoMemory>
    requires within { span.end ≤ length line.now }
    requires order { span.start ≤ span.end }
    ensures { OnOk result (ArePlaceRows line.now span.start span.end (trees_of items.now) rows.new.items) }
{
    rows.clear();
    let bottom = Row::of_end(alloc, span)?;
    push_places(items, line, span, marks, &bottom, rows)
}

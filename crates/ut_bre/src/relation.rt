// Where items lead from each place of a piece of a line, as a table. Its places are told by how far behind the start they lie.
ghost use Rattle.std.specs.Prelude.{◌≡◌, ◌↔◌, ℕ, ◌+◌, ◌-◌, ◌≤◌, ◌<◌, true, IfOk, length};
ghost use Rattle.ut_bre.specs.Matching.{MatchesOne, MatchesItems, Repeated};
ghost use Rattle.ut_bre.specs.Picking.{MatchesTurn};
ghost use Rattle.ut_bre.specs.Relations.{IsRelation, most_in};
ghost use Rattle.ut_bre.specs.Trees.{tree_of, trees_of};
ghost use Rattle.ut_places.specs.Places.{Has};

use crate::group::Span;
use crate::set::One;
use crate::tree::{Item, Times};
use rk_base::NoMemory;
use std::alloc::Global;
use ut_places::{Places, counted_each};

// The set of a place, where this holds.
fn set_if(alloc: Global, place: usize, holds: bool) -> Result<Places, NoMemory>
    ensures { IfOk result (λ r. (j : ℕ) → Has r j ↔ ((holds ≡ true) × (j ≡ place))) }
{
    if !holds {
        return Ok(Places::new(alloc));
    }
    Places::of(alloc, place)
}

// Where one byte leads: to the place behind it.
fn relate_one(alloc: Global, one: &One, line: &[u8], span: Span) -> Result<Vec<Places>, NoMemory>
    requires within { span.end ≤ length line.now }
    requires order { span.start ≤ span.end }
    ensures { IfOk result (λ t. IsRelation (MatchesOne line.now one.now) span.start (span.end - span.start) t.items) }
{
    let mut table = Vec::new(alloc);
    'places: for at in span.start..span.end {
        let set = set_if(alloc, at + 1 - span.start, one.meets(line[at]))?;
        table.push(set)?;
    }
    table.push(Places::new(alloc))?;
    Ok(table)
}

// Where nothing leads: from each place to itself.
fn relate_nothing(alloc: Global, size: usize) -> Result<Vec<Places>, NoMemory>
    ensures { IfOk result (λ t. (start : ℕ) → IsRelation (λ i j. i ≡ j) start size t.items) }
{
    let mut table = Vec::new(alloc);
    'places: for place in 0..size {
        let set = Places::of(alloc, place)?;
        table.push(set)?;
    }
    let last = Places::of(alloc, size)?;
    table.push(last)?;
    Ok(table)
}

/// How many turns may be taken in so many bytes.
pub(crate) fn most_in(beyond: Option<usize>, size: usize) -> usize
    ensures { result ≡ most_in beyond size }
{
    match beyond {
        None => size,
        Some(more) => more,
    }
}

// Where a turn of an item leads.
#[cycle(relate)]
pub(crate) fn relate_turn(
    alloc: Global,
    item: &Item,
    line: &[u8],
    span: Span,
) -> Result<Vec<Places>, NoMemory>
    requires within { span.end ≤ length line.now }
    requires order { span.start ≤ span.end }
    ensures { IfOk result (λ t. IsRelation (MatchesTurn line.now (tree_of item.now)) span.start (span.end - span.start) t.items) }
{
    match item {
        Item::One(_, one) => relate_one(alloc, one, line, span),
        Item::Group(_, _, body) => relate_items(alloc, body.as_slice(), line, span),
    }
}

// Depth: 64 levels of groups.
/// Where items lead. Each item's turns are counted from the sets of those before it, whatever their numbers multiply to.
#[cycle(relate)]
pub(crate) fn relate_items(
    alloc: Global,
    items: &[Item],
    line: &[u8],
    span: Span,
) -> Result<Vec<Places>, NoMemory>
    requires within { span.end ≤ length line.now }
    requires order { span.start ≤ span.end }
    ensures { IfOk result (λ t. IsRelation (MatchesItems line.now (trees_of items.now)) span.start (span.end - span.start) t.items) }
{
    let size = span.end - span.start;
    let mut table = relate_nothing(alloc, size)?;
    'items: for item in items {
        let times = item.times();
        let turn = relate_turn(alloc, item, line, span)?;
        let more = most_in(times.beyond, size);
        table = counted_each(alloc, turn.as_slice(), table.as_slice(), times.least, more)?;
    }
    Ok(table)
}

/// Where so many turns of an item lead.
pub(crate) fn relate_times(
    alloc: Global,
    item: &Item,
    times: Times,
    line: &[u8],
    span: Span,
) -> Result<Vec<Places>, NoMemory>
    requires within { span.end ≤ length line.now }
    requires order { span.start ≤ span.end }
    ensures { IfOk result (λ t. IsRelation (Repeated (MatchesTurn line.now (tree_of item.now)) times) span.start (span.end - span.start) t.items) }
{
    let size = span.end - span.start;
    let none = relate_nothing(alloc, size)?;
    let turn = relate_turn(alloc, item, line, span)?;
    let more = most_in(times.beyond, size);
    let table = counted_each(alloc, turn.as_slice(), none.as_slice(), times.least, more)?;
    Ok(table)
}

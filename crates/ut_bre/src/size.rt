// How many marks an expression has.
use crate::tree::{Item, Times};

/// An expression of so many marks is gone through as it is written.
pub(crate) const FEW: usize = 1024;

/// So many marks of what is fitted are gone through, whatever the piece: a step of a mark is cheaper than one of a set.
const MANY: usize = 65536;

// How often what is repeated is written out.
fn copies(times: Times) -> usize {
    match times.beyond {
        None => times.least.saturating_add(1),
        Some(more) => times.least.saturating_add(more),
    }
}

/// How many marks these turns of an item have.
#[cycle(copies)]
pub(crate) fn turns_marks(item: &Item, times: Times) -> usize {
    let own = match item {
        Item::One(_, _) => 1,
        Item::Group(_, _, body) => marks_of(body.as_slice()).saturating_add(1),
    };
    copies(times).saturating_mul(own)
}

// Depth: 64 levels of groups.
/// How many marks these items have, and at least as many as there are turns.
#[cycle(copies)]
pub(crate) fn marks_of(items: &[Item]) -> usize {
    let mut sum = 0usize;
    'items: for item in items {
        sum = sum.saturating_add(turns_marks(item, item.times()));
    }
    sum
}

/// Whether so many marks take more memory than the sets of all places of a piece of so many bytes: a set has a bit for each
/// place, and a mark has 64 bytes in all lists. Some thousands don't, however short the piece is.
pub(crate) fn are_too_many(marks: usize, room: usize) -> bool {
    marks > MANY && marks > (room / 512).saturating_mul(room)
}

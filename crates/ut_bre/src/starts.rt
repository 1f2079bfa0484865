// Where a match may begin.
ghost use Rattle.std.specs.Prelude.{◌≡◌, ◌<◌, ◌≤◌, ◌==◌, ◌&&◌, length, IfOk, IsTrue};
ghost use Rattle.ut_bre.specs.Starting.{starts_item, starts, IsTold, IsOut, AreOut};
ghost use Rattle.ut_bre.specs.Trees.{tree_of, trees_of};

use crate::table::Table;
use crate::tree::Item;
use rk_base::NoMemory;
use std::alloc::Global;

fn passes(least: usize, behind: bool) -> bool
    ensures { result ≡ ((least == 0) && behind) }
{
    least == 0 && behind
}

// Whether what an item matches, and what comes behind it, may begin with a byte.
#[cycle(starts)]
fn starts_item(item: &Item, behind: bool, b: u8) -> bool
    ensures { result ≡ starts_item (tree_of item.now) behind b }
{
    match item {
        Item::One(times, one) => passes(times.least, behind) || one.meets(b),
        Item::Group(times, _, body) => {
            passes(times.least, behind) || starts(body.as_slice(), behind, b)
        }
    }
}

// Depth: 64 levels of groups.
#[cycle(starts)]
fn starts(items: &[Item], behind: bool, b: u8) -> bool
    ensures { result ≡ starts (trees_of items.now) behind b }
{
    let mut on = behind;
    let mut at = items.len();
    'items: while at > 0 {
        at -= 1;
        on = starts_item(&items[at], on, b);
    }
    on
}

/// Of each byte, whether what these items match may begin with it.
#[tactic(auto, using(crate::proofs::StartLemmas::table_length))]
pub(crate) fn table_of(alloc: Global, items: &[Item]) -> Result<Table, NoMemory>
    ensures { IfOk result (IsTold items.now) }
{
    let mut entries = Vec::new(alloc);
    for i in 0..256u16 {
        entries.push(starts(items, true, i as u8))?;
    }
    Ok(Table { entries })
}

/// Whether a text begins with a byte that the table leaves out.
pub(crate) fn is_out(table: &Table, text: &[u8]) -> bool
    ensures within { IsTrue result → 0 < length text.now }
    ensures out { IsTrue result → IsOut table.now text.now 0 }
{
    match text {
        [] => false,
        [b, ..] => !table.at(*b),
    }
}

/// The first place from this one on whose byte is in the table, or else the line's end.
pub(crate) fn next_in(table: &Table, line: &[u8], from: usize) -> usize
    requires { from ≤ length line.now }
    ensures behind { from ≤ result }
    ensures within { result ≤ length line.now }
    ensures out { AreOut table.now line.now from result }
{
    'bytes: for at in from..line.len() {
        if table.at(line[at]) {
            return at;
        }
    }
    line.len()
}

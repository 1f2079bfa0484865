// What matches the same in a piece of a line: an expression without the turns for which that has no room.
ghost use Rattle.std.specs.Prelude.{◌≡◌, ◌*◌, IfOk, IfSome, OnOk};
ghost use Rattle.ut_bre.specs.Expressions.{expression};
ghost use Rattle.ut_bre.specs.Fitting.{turn_size, least_size, capped, and_more, limit, cut_sized, cut, reaches, has_no_gap, most_joined, IsJoined, AreJoined, IsFittedPart, IsFitted, AreFitted, with_fitted, IsFit};
ghost use Rattle.ut_bre.specs.Reading.{with_times};
ghost use Rattle.ut_bre.specs.Times.{is_zero, no_turn};
ghost use Rattle.ut_bre.specs.Trees.{tree_of, trees_of, times_of, one as one_tree, group as group_tree};
ghost use Rattle.ut_bre.specs.declared.set.One.TheVariants.{Any};

use crate::bre::Bre;
use crate::reader::with_times;
use crate::set::One;
use crate::starts::table_of;
use crate::tree::{Item, Times};
use rk_base::NoMemory;
use std::alloc::Global;

// How many bytes a turn of an item takes at the least.
#[cycle(size)]
fn turn_size(item: &Item) -> usize
    ensures { result ≡ capped (turn_size (tree_of item.now)) }
{
    match item {
        Item::One(_, _) => 1,
        Item::Group(_, _, body) => least_size(body.as_slice()),
    }
}

// Depth: 64 levels of groups.
/// How many bytes a match of items takes at the least.
#[cycle(size)]
pub(crate) fn least_size(items: &[Item]) -> usize
    ensures { result ≡ capped (least_size (trees_of items.now)) }
{
    let mut sum = 0usize;
    'items: for item in items {
        let more = item.times().least.saturating_mul(turn_size(item));
        sum = sum.saturating_add(more);
    }
    sum
}

// So many turns of so many bytes, as far as they may be counted out in so many bytes.
fn limit(size: usize, room: usize, most: Option<usize>) -> Option<usize>
    ensures { result ≡ limit size room most }
{
    match most {
        None => None,
        Some(n) => if n.saturating_mul(size) < room {
            Some(n)
        } else {
            None
        },
    }
}

// The most turns, empty ones among them, as far as they may be counted out in so many bytes.
fn limit_all(room: usize, times: Times) -> Option<usize>
    ensures { result ≡ limit 1 room (and_more times.least times.beyond) }
{
    match times.beyond {
        None => None,
        Some(more) => {
            let most = times.least.saturating_add(more);
            if most < room { Some(most) } else { None }
        }
    }
}

fn cut_sized(size: usize, room: usize, times: Times) -> Times
    ensures { result ≡ cut_sized size room times }
{
    let beyond = if room < size {
        Some(0)
    } else {
        limit(size, room, times.beyond)
    };
    Times {
        least: times.least,
        beyond,
    }
}

/// These turns, each of which takes so many bytes at the least, without those for which so many bytes have no room.
fn cut(size: usize, room: usize, times: Times) -> Times
    ensures { result ≡ cut size room times }
{
    if size == 0 {
        return Times {
            least: 0,
            beyond: limit_all(room, times),
        };
    }
    cut_sized(size, room, times)
}

fn reaches(turns: usize, least: usize, beyond: Option<usize>) -> bool
    ensures { result ≡ reaches turns least beyond }
{
    match beyond {
        None => turns > 0 || least <= 1,
        Some(more) => least <= turns.saturating_mul(more).saturating_add(1),
    }
}

fn is_zero(beyond: Option<usize>) -> bool
    ensures { result ≡ is_zero beyond }
{
    match beyond {
        None => false,
        Some(more) => more == 0,
    }
}

fn has_no_gap(own: Times, turns: Times) -> bool
    ensures { result ≡ has_no_gap own turns }
{
    is_zero(turns.beyond) || reaches(turns.least, own.least, own.beyond)
}

// So many turns of so many turns, from the least product to the greatest, where these can be counted.
fn product(own: Times, turns: Times) -> Option<Times>
    ensures least { IfSome result (λ t. t.least ≡ turns.least * own.least) }
    ensures beyond { IfSome result (λ t. t.beyond ≡ most_joined (and_more own.least own.beyond) (and_more turns.least turns.beyond) (turns.least * own.least)) }
{
    let least = turns.least.checked_mul(own.least)?;
    match own.beyond {
        None => Some(Times {
            least,
            beyond: None,
        }),
        Some(more) => match turns.beyond {
            None => Some(Times {
                least,
                beyond: None,
            }),
            Some(others) => {
                let most_own = own.least.checked_add(more)?;
                let most = turns.least.checked_add(others)?.checked_mul(most_own)?;
                Some(Times {
                    least,
                    beyond: Some(most.saturating_sub(least)),
                })
            }
        },
    }
}

// Turns that are so many turns of so many turns, where no count between is left out.
fn joined(own: Times, turns: Times) -> Option<Times>
    ensures { IfSome result (IsJoined own turns) }
{
    if own.takes_none() || turns.takes_none() || !has_no_gap(own, turns) {
        return None;
    }
    product(own, turns)
}

// Turns of a group that has one item only, as turns of this item, where no count between is left out.
fn joined_items(body: &[Item], turns: Times) -> Option<Times>
    ensures { IfSome result (AreJoined (trees_of body.now) turns) }
{
    match body {
        [only] => joined(only.times(), turns),
        _ => None,
    }
}

// An item with other turns, without those for which so many bytes have no room.
fn cut_item(item: Item, times: Times, room: usize) -> Item
    ensures { tree_of result ≡ with_times (cut (capped (turn_size (tree_of item))) room times) (tree_of item) }
{
    let size = turn_size(&item);
    with_times(item, cut(size, room, times))
}

// A group of fitted items; None where it matches nothing.
fn fit_group(times: Times, number: usize, body: Vec<Item>, room: usize) -> Option<Item>
    ensures { IsFitted room (group_tree times number (trees_of body.items)) times result }
{
    let mut body = body;
    if body.as_slice().len() == 0 {
        return None;
    }
    match joined_items(body.as_slice(), times) {
        None => Some(Item::Group(times, number, body)),
        Some(joined) => match body.pop() {
            None => None,
            Some(only) => Some(cut_item(only, joined, room)),
        },
    }
}

fn push_fitted(items: &mut Vec<Item>, fitted: Option<Item>) -> Result<(), NoMemory>
    ensures { OnOk result (trees_of items.new.items ≡ with_fitted (trees_of items.old.items) fitted) }
{
    match fitted {
        None => Ok(()),
        Some(item) => {
            items.push(item)?;
            Ok(())
        }
    }
}

// What these turns of an item match in so many bytes; None where that is nothing.
#[cycle(fit)]
fn fit_turns(
    alloc: Global,
    item: &Item,
    times: Times,
    room: usize,
) -> Result<Option<Item>, NoMemory>
    ensures { IfOk result (IsFitted room (tree_of item.now) times) }
{
    let times = cut(turn_size(item), room, times);
    if times.takes_none() {
        return Ok(None);
    }
    match item {
        Item::One(_, one) => {
            let one = one.copy(alloc)?;
            Ok(Some(Item::One(times, one)))
        }
        Item::Group(_, number, body) => {
            let items = fit_items(alloc, body.as_slice(), room)?;
            Ok(fit_group(times, *number, items, room))
        }
    }
}

// Depth: 64 levels of groups.
/// Items that match the same in so many bytes, with no more turns than these have room for. Turns of turns are joined.
#[cycle(fit)]
pub(crate) fn fit_items(alloc: Global, items: &[Item], room: usize) -> Result<Vec<Item>, NoMemory>
    ensures { IfOk result (λ v. AreFitted room (trees_of items.now) (trees_of v.items)) }
{
    let mut fitted = Vec::new(alloc);
    'items: for item in items {
        let more = fit_turns(alloc, item, item.times(), room)?;
        push_fitted(&mut fitted, more)?;
    }
    Ok(fitted)
}

fn nothing() -> Item
    ensures { tree_of result ≡ one_tree no_turn Any }
{
    Item::One(
        Times {
            least: 0,
            beyond: Some(0),
        },
        One::Any,
    )
}

/// An item that matches in so many bytes what these turns of an item do.
pub(crate) fn fit_part(
    alloc: Global,
    item: &Item,
    times: Times,
    room: usize,
) -> Result<Item, NoMemory>
    ensures { IfOk result (λ y. IsFittedPart room (tree_of item.now) times (tree_of y)) }
{
    let fitted = fit_turns(alloc, item, times, room)?;
    match fitted {
        None => Ok(nothing()),
        Some(own) => Ok(own),
    }
}

impl Bre {
    /// An expression that matches the same in so many bytes.
    pub(crate) fn fitted(&self, room: usize) -> Result<Bre, NoMemory>
        ensures { IfOk result (λ e. IsFit room (expression self.now) (expression e)) }
    {
        let alloc = self.allocator();
        let items = fit_items(alloc, self.items.as_slice(), room)?;
        let starts = table_of(alloc, items.as_slice())?;
        Ok(Bre {
            at_start: self.at_start,
            items,
            at_end: self.at_end,
            groups: self.groups,
            size: self.size,
            starts,
        })
    }
}

// Where items lead from a set of places of a line, up to an end.
ghost use Rattle.std.specs.Prelude.{◌≡◌, ◌↔◌, ◌⊎◌, ℕ, ◌+◌, ◌-◌, ◌≤◌, ◌<◌, IsTrue, IfOk, OnOk, length};
ghost use Rattle.ut_places.specs.Places.{Has, IsLast};
ghost use Rattle.ut_places.specs.Steps.{IsImage};
ghost use Rattle.ut_bre.specs.Images.{Until, RunsOn, Reaches};
ghost use Rattle.ut_bre.specs.Matching.{MatchesOne, MatchesItems, Turns, Beyond, Repeated};
ghost use Rattle.ut_bre.specs.Picking.{MatchesTurn};
ghost use Rattle.ut_bre.specs.Trees.{tree_of, trees_of};

use crate::halt::{Allowance, Halt};
use crate::relation::most_in;
use crate::set::One;
use crate::tree::{Item, Times};
use rk_base::NoMemory;
use ut_places::Places;

// Whether the byte at a place is one that this matches.
fn is_met(one: &One, line: &[u8], at: usize) -> bool
    ensures { IsTrue result ↔ MatchesOne line.now one.now at (at + 1) }
{
    match line.get(at) {
        None => false,
        Some(b) => one.meets(*b),
    }
}

// The last place of a set from which so many bytes lead up to one, where the one before that is known.
fn later(best: Option<usize>, set: &Places, least: usize, at: usize) -> Option<usize>
    requires { IsLast set.now (at - least) best }
    ensures { IsLast set.now (at + 1 - least) result }
{
    if at >= least && set.has(at - least) {
        Some(at - least)
    } else {
        best
    }
}

// Where the run begins of the bytes that are met up to behind a place.
fn run_on(one: &One, line: &[u8], at: usize, run: usize) -> usize
    requires { at ≤ length line.now }
    ensures { RunsOn line.now one.now at run result }
{
    if is_met(one, line, at) { run } else { at + 1 }
}

// Whether a place leads to this one: by no more than so many bytes, all of which are met from the start of a run on.
fn reaches(best: Option<usize>, run: usize, most: usize, at: usize) -> bool
    ensures { IsTrue result ↔ Reaches best run most at }
{
    match best {
        None => false,
        Some(place) => run <= place && at <= place.saturating_add(most),
    }
}

// Takes this place in where the last one from which so many bytes lead there reaches it.
fn note(
    to: &mut Places,
    best: Option<usize>,
    run: usize,
    most: usize,
    at: usize,
) -> Result<(), NoMemory>
    ensures { OnOk result ((j : ℕ) → Has to.new j ↔ (Has to.old j ⊎ ((j ≡ at) × Reaches best run most at))) }
{
    if reaches(best, run, most, at) {
        to.insert(at)?;
    }
    Ok(())
}

// Where so many bytes lead that this matches: by one pass over them, however many they are.
fn bytes_image(
    one: &One,
    times: Times,
    line: &[u8],
    end: usize,
    set: &Places,
    allowed: &mut Allowance,
) -> Result<Places, Halt>
    requires within { end ≤ length line.now }
    requires before { (j : ℕ) → Has set.now j → j ≤ end }
    ensures { IfOk result (λ r. IsImage (Until (Repeated (MatchesOne line.now one.now) times) end) set.now r) }
{
    if times.takes_none() {
        let same = set.copy()?;
        return Ok(same);
    }
    let mut to = Places::new(set.allocator());
    let Some(first) = set.next(0, end + 1) else {
        return Ok(to);
    };
    let Some(last) = set.last(end + 1) else {
        return Ok(to);
    };
    let most = times.least.saturating_add(most_in(times.beyond, end));
    let stop = end.min(last.saturating_add(most));
    let mut run = first;
    let mut best = None;
    'places: for at in first..stop + 1 {
        allowed.take()?;
        best = later(best, set, times.least, at);
        note(&mut to, best, run, most, at)?;
        run = run_on(one, line, at, run);
        if run > last {
            return Ok(to);
        }
    }
    Ok(to)
}

// Whether it has no place up to an end.
fn is_none(set: &Places, end: usize) -> bool
    requires { end < usize.MAX }
    ensures { IsTrue result → (j : ℕ) → j ≤ end → Has set.now j → ⊥ }
{
    set.last(end + 1).is_none()
}

// Where the turns of an item lead that are needed.
#[cycle(image)]
fn needed_image(
    item: &Item,
    times: Times,
    line: &[u8],
    end: usize,
    set: &Places,
    allowed: &mut Allowance,
) -> Result<Places, Halt>
    requires within { end ≤ length line.now }
    requires before { (j : ℕ) → Has set.now j → j ≤ end }
    ensures { IfOk result (λ r. IsImage (Until (Turns (MatchesTurn line.now (tree_of item.now)) times.least) end) set.now r) }
{
    match item {
        Item::One(_, one) => {
            let to = bytes_image(one, times.needed(), line, end, set, allowed)?;
            Ok(to)
        }
        Item::Group(_, _, body) => {
            let mut here = set.copy()?;
            'turns: for _ in 0..times.least {
                if is_none(&here, end) {
                    return Ok(here);
                }
                here = image(body.as_slice(), line, end, &here, allowed)?;
            }
            Ok(here)
        }
    }
}

// Where the turns of an item lead that may be taken beyond those that are needed: each place is left once, after the fewest
// turns that lead to it.
#[cycle(image)]
fn beyond_image(
    item: &Item,
    times: Times,
    line: &[u8],
    end: usize,
    set: &Places,
    allowed: &mut Allowance,
) -> Result<Places, Halt>
    requires within { end ≤ length line.now }
    requires before { (j : ℕ) → Has set.now j → j ≤ end }
    ensures { IfOk result (λ r. IsImage (Until (Beyond (MatchesTurn line.now (tree_of item.now)) times.beyond) end) set.now r) }
{
    match item {
        Item::One(_, one) => {
            let to = bytes_image(one, times.unneeded(), line, end, set, allowed)?;
            Ok(to)
        }
        Item::Group(_, _, body) => {
            let mut all = set.copy()?;
            let mut new = set.copy()?;
            'turns: for _ in 0..most_in(times.beyond, end) {
                if is_none(&new, end) {
                    return Ok(all);
                }
                new = image(body.as_slice(), line, end, &new, allowed)?;
                new.remove(&all);
                all.add(&new)?;
            }
            Ok(all)
        }
    }
}

// Depth: 64 levels of groups.
/// Where items lead: each item from the set to which those before it lead.
#[cycle(image)]
pub(crate) fn image(
    items: &[Item],
    line: &[u8],
    end: usize,
    set: &Places,
    allowed: &mut Allowance,
) -> Result<Places, Halt>
    requires within { end ≤ length line.now }
    requires before { (j : ℕ) → Has set.now j → j ≤ end }
    ensures { IfOk result (λ r. IsImage (Until (MatchesItems line.now (trees_of items.now)) end) set.now r) }
{
    let mut here = set.copy()?;
    'items: for item in items {
        let times = item.times();
        let needed = needed_image(item, times, line, end, &here, allowed)?;
        here = beyond_image(item, times, line, end, &needed, allowed)?;
    }
    Ok(here)
}

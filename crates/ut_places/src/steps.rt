// Where a table leads from a set of places, by so many steps.
ghost use Rattle.std.specs.Prelude.{◌≡◌, ◌↔◌, ℕ, IfOk, length};
ghost use Rattle.ut_places.specs.Steps.{Steps, UpTo, Counted, Leads, IsImage};

use crate::places::Places;
use rk_base::NoMemory;
use std::alloc::Global;

/// Where a table leads from a set, by one step.
pub fn image(table: &[Places], set: &Places) -> Result<Places, NoMemory>
    ensures { IfOk result (λ r. IsImage (Leads table.now) set.now r) }
{
    let mut to = Places::new(set.allocator());
    let mut at = 0;
    'places: while let Some(place) = set.next(at, table.len()) {
        to.add(&table[place])?;
        at = place + 1;
    }
    Ok(to)
}

// By so many steps.
fn after(table: &[Places], set: &Places, least: usize) -> Result<Places, NoMemory>
    ensures { IfOk result (λ r. IsImage (Steps (Leads table.now) least) set.now r) }
{
    let mut here = set.copy()?;
    'steps: for _ in 0..least {
        here = image(table, &here)?;
    }
    Ok(here)
}

// By no more than so many steps: each place is left once, after the fewest steps that lead to it.
fn up_to(table: &[Places], set: &Places, most: usize) -> Result<Places, NoMemory>
    ensures { IfOk result (λ r. IsImage (UpTo (Leads table.now) most) set.now r) }
{
    let mut all = set.copy()?;
    let mut new = set.copy()?;
    'steps: for _ in 0..most {
        if new.is_empty() {
            return Ok(all);
        }
        new = image(table, &new)?;
        new.remove(&all);
        all.add(&new)?;
    }
    Ok(all)
}

/// Where a table leads from a set, by so many steps and no more than so many behind them.
pub fn counted(
    table: &[Places],
    set: &Places,
    least: usize,
    more: usize,
) -> Result<Places, NoMemory>
    ensures { IfOk result (λ r. IsImage (Counted (Leads table.now) least more) set.now r) }
{
    let needed = after(table, set, least)?;
    let all = up_to(table, &needed, more)?;
    Ok(all)
}

/// Where a table leads from each set of another one, by so many steps and no more than so many behind them.
pub fn counted_each(
    alloc: Global,
    table: &[Places],
    sets: &[Places],
    least: usize,
    more: usize,
) -> Result<Vec<Places>, NoMemory>
    ensures count { IfOk result (λ r. length r.items ≡ length sets.now) }
    ensures leads { IfOk result (λ r. (i j : ℕ) → Leads r.items i j ↔ ((k : ℕ) × Leads sets.now i k × Counted (Leads table.now) least more k j)) }
{
    let mut all = Vec::new(alloc);
    'sets: for set in sets {
        let to = counted(table, set, least, more)?;
        all.push(to)?;
    }
    Ok(all)
}

// The waves of a recorded run.
ghost use Rattle.std.specs.Prelude.{◌≡◌, IfOk, OnOk, map};
ghost use Rattle.rk_kernel.specs.Cell.{gathers};
ghost use Rattle.rk_tree.specs.Full.{AreFrom};
ghost use Rattle.rk_plan.specs.Causes.{Caused, Steadily};
ghost use Rattle.rk_plan.specs.Plans.{ArePiecesWhereTold, IsPlanWhereTold, IsWithEvent};

use crate::retrace::Retrace;
use crate::{Event, PlanErr};
use rk_base::NoMemory;
use rk_kernel::{Cell, World};
use rk_tree::Fetch;
use rk_waves::{CellPieces, Waves};
use std::alloc::Global;
use tr_record::Table;

// An event comes behind the pieces so far.
fn take(alloc: Global, pieces: &mut CellPieces<Cell>, event: Event) -> Result<(), NoMemory>
    ensures { OnOk result (IsWithEvent pieces.old event pieces.new) }
{
    match event {
        Event::Touches(_, foot) => pieces.touch(foot.reads.into_vec(), foot.writes.into_vec()),
        Event::Launches(owner) => {
            pieces.touch(Vec::new(alloc), Vec::new(alloc))?;
            pieces.close(owner)
        }
        Event::Ends(owner) => pieces.end(owner),
    }
}

// The pieces of a run.
fn pieces_of<G: Fetch>(
    alloc: Global,
    world: World,
    fetch: &mut G,
    table: &Table,
) -> Result<CellPieces<Cell>, PlanErr>
    requires { AreFrom (G.told fetch.old) world.tree }
    ensures pieces { IfOk result (ArePiecesWhereTold (G.told fetch.old) world table.now) }
    ensures told { G.told fetch.new ≡ G.told fetch.old }
    ensures keeps { G.Keeps fetch.old fetch.new }
    ensures stays { OnOk result (G.Stays fetch.old fetch.new) }
    ensures steady { Steadily (G.steady fetch.old) (G.steady fetch.new) result }
    ensures caused { Caused (G.faults fetch.old) (G.faults fetch.new) result }
{
    let mut retrace = Retrace::new(alloc, world, table)?;
    let mut pieces = CellPieces::new(alloc);
    'events: while let Some(event) = retrace.turn(fetch)? {
        take(alloc, &mut pieces, event)?;
    }
    Ok(pieces)
}

// Of each cell, whether it only gathers what others hold.
fn gathers_of(alloc: Global, cells: &[Cell]) -> Result<Vec<bool>, NoMemory>
    ensures { IfOk result (λ all. all.items ≡ map gathers cells.now) }
{
    let mut all = Vec::new(alloc);
    'cells: for cell in cells {
        all.push(cell.gathers())?;
    }
    Ok(all)
}

/// The waves of a run, by its records: of each wave the numbers of the records that have a step in it. The world is the one
/// from which the run went; files whose bytes aren't known yet are fetched where the run looks at them.
///
/// Errors: the bytes of a file couldn't be fetched; and want of memory.
pub fn waves<G: Fetch>(
    alloc: Global,
    world: World,
    fetch: &mut G,
    table: &Table,
) -> Result<Waves, PlanErr>
    // What wasn't read can be read.
    requires { AreFrom (G.told fetch.old) world.tree }
    ensures plan { IfOk result (IsPlanWhereTold (G.told fetch.old) world table.now) }
    ensures told { G.told fetch.new ≡ G.told fetch.old }
    ensures keeps { G.Keeps fetch.old fetch.new }
    ensures stays { OnOk result (G.Stays fetch.old fetch.new) }
    ensures steady { Steadily (G.steady fetch.old) (G.steady fetch.new) result }

    // A read fault comes only where the count of failures rose, and waves only where it didn't.
    ensures caused { Caused (G.faults fetch.old) (G.faults fetch.new) result }
{
    let pieces = pieces_of(alloc, world, fetch, table)?;
    let gathers = gathers_of(alloc, pieces.cells())?;
    let waves = pieces.plan(alloc, &gathers)?;
    Ok(waves)
}

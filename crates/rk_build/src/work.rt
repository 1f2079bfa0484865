// The work of a build: the run of the script, and the plan of what it leaves.
ghost use Rattle.std.specs.Prelude.{◌≡◌, ◌≢◌, ◌+◌, ◌<◌, ◌≤◌, [], IfOk, IsTrue, OnOk, length, true};
ghost use Rattle.rk_changes.specs.Fetched.{WhereTold};
ghost use Rattle.rk_changes.specs.Holdings.{full_holding};
ghost use Rattle.rk_changes.specs.Planned.{IsPlan};
ghost use Rattle.rk_kernel.specs.Fetching.{Kept};
ghost use Rattle.rk_kernel.specs.World.{fresh_world};
ghost use Rattle.rk_request.specs.Asked.{turns};
ghost use Rattle.rk_tree.specs.Entries.{IsWholeSnapshot};
ghost use Rattle.rk_tree.specs.Fetched.{Counted, Steadily as Steady};
ghost use Rattle.rk_tree.specs.Full.{AreFrom, EntriesFrom};
ghost use Rattle.rk_replay.specs.Ran.{AreStill};
ghost use Rattle.tr_record.specs.Contents.{AreContents};
ghost use Rattle.tr_record.specs.Generations.{records};
ghost use Rattle.rk_build.specs.Kept.{Spells};
ghost use Rattle.rk_build.specs.Run.{StartsRun};
ghost use Rattle.rk_build.specs.Stages.{FinishesSo, IsPlanned, ReadsCounted, Steadily, WorksSo, found_entries};
ghost use Rattle.rk_build.specs.Texts.{IsNoFault};

use crate::after::{held_after, keep};
use crate::explain::error_text;
use crate::found::Found;
use crate::run::run;
use crate::stop::BuildErr;
use rk_base::{Bytes, NoMemory, Steps};
use rk_calls::Maker;
use rk_changes::{Holding, plan};
use rk_folder::tree_of;
use rk_kernel::{NumberedWorld, World};
use rk_replay::{Built, RanList, is_as_found};
use rk_request::Request;
use rk_seal::Plan;
use rk_tree::{Fetch, FetchErr};
use std::alloc::Global;
use std::sync::ledger::Ledger;

/// A run that ended: the world that it left, and the script's status, the records of its commands, and those of them that ran,
/// each with why.
#[derive(Drop)]
pub(crate) struct Finished {
    pub world: World,
    pub built: Built,
}

/// How a run ended: the script's status, how many commands were launched, and those of them that ran, with why.
#[derive(Debug, Drop)]
pub(crate) struct Ended {
    pub status: u8,
    pub launched: u64,
    pub ran: RanList,
}

/// A run that ended, the world that it left, and the calls that lead the folder to what it leaves.
#[derive(Drop)]
pub(crate) struct Prepared {
    pub ended: Ended,
    pub world: World,
    pub plan: Plan,
    /// The run's error text and, where they are asked for, the lines of what ran and why.
    pub error_text: Bytes,
}

// The world of what was found, in which nothing has run.
fn fresh(alloc: Global, found: &Found) -> Result<NumberedWorld, NoMemory>
    requires { IsWholeSnapshot found.now.holding.entries }
    ensures { IfOk result (λ w. w.world ≡ fresh_world (found_entries found.now)) }
{
    let tree = tree_of(alloc, &found.holding.entries, &found.attrs)?;
    let world = NumberedWorld::new(alloc, tree)?;
    Ok(world)
}

// The plan between what is held and what is to be held, both of whole entries.
fn planned<G: Fetch>(
    alloc: Global,
    fetch: &mut G,
    before: &Holding,
    after: &Holding,
) -> Result<Plan, FetchErr>
    requires before { IsWholeSnapshot before.now.entries }
    requires after { IsWholeSnapshot after.now.entries }
    requires before_from { EntriesFrom (G.told fetch.old) before.now.entries }
    requires after_from { EntriesFrom (G.told fetch.old) after.now.entries }
    ensures plan { WhereTold (G.told fetch.old) (λ told plan. IsPlan (full_holding told before.now) (full_holding told after.now) plan) result }
    ensures told { G.told fetch.new ≡ G.told fetch.old }
    ensures keeps { G.Keeps fetch.old fetch.new }
    ensures stays { OnOk result (G.Stays fetch.old fetch.new) }
    ensures steady { Steady (G.steady fetch.old) (G.steady fetch.new) result }
    ensures counted { Counted (G.faults fetch.old) (G.faults fetch.new) result }
{
    let plan = plan(alloc, fetch, before, after)?;
    match plan {
        Some(plan) => Ok(plan),
        None => unreachable!(),
    }
}

// Runs the script, the command of the build, on what was found.
fn run_script<M: Maker, G: Fetch, L: Ledger>(
    alloc: Global,
    maker: &mut M,
    request: &Request,
    fetch: &mut G,
    found: &Found,
    live: &mut Steps<L>,
) -> Result<Finished, BuildErr>
    requires some { 0 < turns request.now }
    requires contents { AreContents found.now.contents (records found.now.old) }
    requires whole { IsWholeSnapshot found.now.holding.entries }
    requires from { EntriesFrom (G.told fetch.old) found.now.holding.entries }
    ensures finishes { FinishesSo M.first request.now (G.told fetch.old) found.now live.old live.new result }
    ensures at_least { live.old ≤ live.new }
    ensures at_most { live.new ≤ live.old + turns request.now }
    ensures starts { StartsRun (λ f. length f.built.ran) request.now (records found.now.old) (M.starts maker.old) (M.starts maker.new) result }
    ensures keeps { Kept (G.told fetch.old) (G.told fetch.new) (G.steady fetch.old) (G.steady fetch.new) (G.Keeps fetch.old fetch.new) }
    ensures stays { OnOk result (G.Stays fetch.old fetch.new) }
    ensures from { IfOk result (λ f. AreFrom (G.told fetch.new) f.world.tree) }
    ensures reads { ReadsCounted (G.faults fetch.old) (G.faults fetch.new) result }
    ensures steady { G.steady fetch.old ≡ true → IsNoFault result }
{
    let mut world = fresh(alloc, found)?;
    let built = run(alloc, maker, request, &mut world, fetch, found, live)?;
    Ok(Finished {
        world: world.into_world(),
        built,
    })
}

// Plans what leads to what a run left, with its records first among those that are kept, and makes its error text.
fn plan_left<G: Fetch>(
    alloc: Global,
    request: &Request,
    fetch: &mut G,
    found: Found,
    finished: Finished,
) -> Result<Prepared, FetchErr>
    requires spells { Spells found.holding.state.db found.old }
    requires whole { IsWholeSnapshot found.holding.entries }
    requires from { EntriesFrom (G.told fetch.old) found.holding.entries }
    requires left { AreFrom (G.told fetch.old) finished.world.tree }
    requires some { finished.built.table ≢ [] }
    requires still { IsTrue finished.built.still → AreStill (records found.old) finished.built.table }
    ensures world { IfOk result (λ p. p.world ≡ finished.world) }
    ensures planned { IfOk result (λ p. IsPlanned request.now (G.told fetch.old) found finished.built p) }
    ensures told { G.told fetch.new ≡ G.told fetch.old }
    ensures keeps { G.Keeps fetch.old fetch.new }
    ensures stays { OnOk result (G.Stays fetch.old fetch.new) }
    ensures steady { Steady (G.steady fetch.old) (G.steady fetch.new) result }
    ensures counted { Counted (G.faults fetch.old) (G.faults fetch.new) result }
{
    let error_text = error_text(alloc, request, &finished)?;
    let Finished { world, built } = finished;
    let Built {
        status,
        table,
        ran,
        still,
    } = built;
    let launched = table.len() as u64;
    let Found { holding, old, .. } = found;
    let as_found = is_as_found(&old, &table, still);
    let kept = keep(old, table, as_found)?;
    let after = held_after(alloc, &world, kept, &holding.state.db, as_found)?;
    let plan = planned(alloc, fetch, &holding, &after)?;
    Ok(Prepared {
        ended: Ended {
            status,
            launched,
            ran,
        },
        world,
        plan,
        error_text,
    })
}

/// Runs the script on what was found, where no record answers for it, and plans what leads to what the run leaves; with the
/// error text that is to be put. Files are fetched where their bytes are looked at, compared or written.
pub(crate) fn work<M: Maker, G: Fetch, L: Ledger>(
    alloc: Global,
    maker: &mut M,
    request: &Request,
    fetch: &mut G,
    found: Found,
    live: &mut Steps<L>,
) -> Result<Prepared, BuildErr>
    requires some { 0 < turns request.now }
    requires contents { AreContents found.contents (records found.old) }
    requires spells { Spells found.holding.state.db found.old }
    requires whole { IsWholeSnapshot found.holding.entries }
    requires from { EntriesFrom (G.told fetch.old) found.holding.entries }
    ensures works { WorksSo M.first request.now (G.told fetch.old) found live.old live.new result }
    ensures at_least { live.old ≤ live.new }
    ensures at_most { live.new ≤ live.old + turns request.now }
    ensures starts { StartsRun (λ p. length p.ended.ran) request.now (records found.old) (M.starts maker.old) (M.starts maker.new) result }
    ensures keeps { Kept (G.told fetch.old) (G.told fetch.new) (G.steady fetch.old) (G.steady fetch.new) (G.Keeps fetch.old fetch.new) }
    ensures stays { OnOk result (G.Stays fetch.old fetch.new) }
    ensures reads { ReadsCounted (G.faults fetch.old) (G.faults fetch.new) result }
    ensures steady { Steadily (G.steady fetch.old) (G.steady fetch.new) result }
{
    let finished = run_script(alloc, maker, request, fetch, &found, live)?;
    let prepared = plan_left(alloc, request, fetch, found, finished)?;
    Ok(prepared)
}

// The run of the script.
ghost use Rattle.std.specs.Prelude.{◌≡◌, ◌+◌, ◌<◌, ◌≤◌, ◌^◌, IfOk, OnOk, length, true};
ghost use Rattle.rk_kernel.specs.Fetching.{Kept};
ghost use Rattle.rk_kernel.specs.World.{fresh_world};
ghost use Rattle.rk_request.specs.Asked.{turns};
ghost use Rattle.rk_tree.specs.Full.{AreFrom};
ghost use Rattle.tr_record.specs.Contents.{AreContents};
ghost use Rattle.tr_record.specs.Generations.{records};
ghost use Rattle.rk_build.specs.Run.{Runs, StartsRun};
ghost use Rattle.rk_build.specs.Stages.{ReadsCounted, found_entries};
ghost use Rattle.rk_build.specs.Texts.{IsNoFault};

use crate::found::Found;
use crate::options::turns;
use crate::stop::BuildErr;
use rk_base::{Budget, Steps};
use rk_calls::Maker;
use rk_kernel::{FetchingWorld, NumberedWorld};
use rk_replay::{Built, ReplayErr, build_with, script_key};
use rk_request::Request;
use rk_tree::Fetch;
use std::alloc::Global;
use std::sync::ledger::Ledger;

// A budget of the turns that are asked for, of which nothing is paid yet.
fn budget(request: &Request) -> Budget
    requires { 0 < turns request.now }
    ensures limit { result.limit ≡ turns request.now }
    ensures used { result.used ≡ 0 }
    ensures few { turns request.now < 2 ^ 64 }
{
    Budget::new(turns(request)).unwrap()
}

// The run over a world and what fetches the bytes of its files, told of each of the two.
#[tactic(auto, unfolding(crate::specs::Run::fresh_run))]
fn run_fetching<'a, M: Maker, G: Fetch, L: Ledger>(
    alloc: Global,
    maker: &mut M,
    request: &Request,
    fetching: &mut FetchingWorld<'a, G>,
    found: &Found,
    live: &mut Steps<L>,
) -> Result<Built, BuildErr>
    requires some { 0 < turns request.now }
    requires contents { AreContents found.now.contents (records found.now.old) }
    requires fresh { fetching.old.world.now.world ≡ fresh_world (found_entries found.now) }
    requires from { AreFrom (G.told fetching.old.fetch.now) fetching.old.world.now.world.tree }
    ensures runs { Runs M.first request.now (G.told fetching.old.fetch.now) (found_entries found.now) (records found.now.old) live.old live.new fetching.new.world.now.world result }
    ensures at_least { live.old ≤ live.new }
    ensures at_most { live.new ≤ live.old + turns request.now }
    ensures starts { StartsRun (λ b. length b.ran) request.now (records found.now.old) (M.starts maker.old) (M.starts maker.new) result }
    ensures same_world { fetching.new.world.ghost_name ≡ fetching.old.world.ghost_name }
    ensures same_fetch { fetching.new.fetch.ghost_name ≡ fetching.old.fetch.ghost_name }
    ensures keeps { Kept (G.told fetching.old.fetch.now) (G.told fetching.new.fetch.now) (G.steady fetching.old.fetch.now) (G.steady fetching.new.fetch.now) (G.Keeps fetching.old.fetch.now fetching.new.fetch.now) }
    ensures stays { OnOk result (G.Stays fetching.old.fetch.now fetching.new.fetch.now) }
    ensures from { OnOk result (AreFrom (G.told fetching.new.fetch.now) fetching.new.world.now.world.tree) }
    ensures reads { ReadsCounted (G.faults fetching.old.fetch.now) (G.faults fetching.new.fetch.now) result }
    ensures steady { G.steady fetching.old.fetch.now ≡ true → IsNoFault result }
{
    let key = script_key(alloc)?;
    let mut budget = budget(request);
    match build_with(
        alloc,
        maker,
        fetching,
        &key,
        &found.old,
        &found.contents,
        &mut budget,
        live,
    ) {
        Ok(built) => Ok(built),
        Err(ReplayErr::Forged { rec, step }) => Err(BuildErr::Forged { rec, step }),
        Err(ReplayErr::Spent) => Err(BuildErr::Spent),
        Err(ReplayErr::Stopped(reason)) => Err(BuildErr::from(reason)),
    }
}

/// Runs the script, by the machines of the maker, on the world of what was found, within the turns that are asked for. The
/// commands whose kept records' answers still hold don't run. A file is fetched when a call first looks at its bytes.
pub(crate) fn run<M: Maker, G: Fetch, L: Ledger>(
    alloc: Global,
    maker: &mut M,
    request: &Request,
    world: &mut NumberedWorld,
    fetch: &mut G,
    found: &Found,
    live: &mut Steps<L>,
) -> Result<Built, BuildErr>
    requires some { 0 < turns request.now }
    requires contents { AreContents found.now.contents (records found.now.old) }
    requires fresh { world.old.world ≡ fresh_world (found_entries found.now) }
    requires from { AreFrom (G.told fetch.old) world.old.world.tree }
    ensures runs { Runs M.first request.now (G.told fetch.old) (found_entries found.now) (records found.now.old) live.old live.new world.new.world result }
    ensures at_least { live.old ≤ live.new }
    ensures at_most { live.new ≤ live.old + turns request.now }
    ensures starts { StartsRun (λ b. length b.ran) request.now (records found.now.old) (M.starts maker.old) (M.starts maker.new) result }
    ensures keeps { Kept (G.told fetch.old) (G.told fetch.new) (G.steady fetch.old) (G.steady fetch.new) (G.Keeps fetch.old fetch.new) }
    ensures stays { OnOk result (G.Stays fetch.old fetch.new) }
    ensures from { OnOk result (AreFrom (G.told fetch.new) world.new.world.tree) }
    ensures reads { ReadsCounted (G.faults fetch.old) (G.faults fetch.new) result }
    ensures steady { G.steady fetch.old ≡ true → IsNoFault result }
{
    let mut fetching = FetchingWorld::new(world, fetch);
    run_fetching(alloc, maker, request, &mut fetching, found, live)
}

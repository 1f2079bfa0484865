// Builds over kept tables.
ghost use Rattle.std.specs.Prelude.{◌≡◌, ◌≢◌, ◌+◌, ◌-◌, ◌≤◌, [], length, IfOk, IfErr, IfSome, IsTrue};
ghost use Rattle.std.specs.Option.{IsSomeAnd};
ghost use Rattle.rk_calls.specs.Refs.{top_refs};
ghost use Rattle.tr_record.specs.Contents.{AreContents};
ghost use Rattle.tr_record.specs.Generations.{records};
ghost use Rattle.rk_traces.specs.Started.{started};
ghost use Rattle.rk_traces.specs.Own.{total};
ghost use Rattle.rk_traces.specs.Purse.{left};
ghost use Rattle.rk_traces.specs.Run.{environment, fresh, Done, Spent};
ghost use Rattle.rk_traces.specs.Spoken.{AreSpoken};
ghost use Rattle.rk_replay.specs.Ran.{AreKept, AreStill, HaveOneNumber, ran_of, ran_total};
ghost use Rattle.rk_replay.specs.Starts.{StartsStopped};
ghost use Rattle.rk_replay.specs.Stops.{Stops, StaysSo};

use crate::checking::check_with;
use crate::ran::RanList;
use crate::replay::Replay;
use crate::stop::ReplayErr;
use rk_base::{Budget, NoMemory, Steps};
use rk_calls::{Answer, Call, Key, Maker, Spoke};
use rk_content::Numbering;
use rk_traces::pay;
use std::alloc::Global;
use std::sync::ledger::Ledger;
use tr_matching::Earlier;
use tr_record::{Kept, RecordedContents, Table};

/// A build that ended: its status, the records of its commands, those of them that ran, in launch order, and whether each record is the
/// kept one of its number. Where that isn't told the records may be so still.
#[derive(Debug, Drop)]
pub struct Built {
    pub status: u8,
    pub table: Table,
    pub ran: RanList,
    pub still: bool,
}

/// Runs the command of a key, and those that it launches, on a world, and answers from the kept tables where the
/// world still answers as a kept record of the key says. The first command has the empty input, the output and the error text as its
/// descriptors. Kept contents that have numbers are compared with those that are read by the numbers of both.
///
/// Errors: `Forged` for a kept record that isn't what its command says; `Spent` where the budget
/// doesn't meet the run, and no kept record is such.
pub fn build_with<'a, K: Maker, W: Numbering, L: Ledger>(
    alloc: Global,
    maker: &mut K,
    world: &mut W,
    key: &Key,
    kept: &'a Kept,
    contents: &'a RecordedContents,
    budget: &mut Budget,
    live: &mut Steps<L>,
) -> Result<Built, ReplayErr<W::Stop>>
    requires { AreContents contents.now (records kept.now) }

    // Where the world tells what it means, it ends as the run in which nothing is recorded yet, and leaves the same
    // records.
    ensures done { IfOk result (λ b. IfSome (W.told world.old) (λ before. IsSomeAnd (W.told world.new) (λ now.
        AreSpoken K.first (records kept.now) →
        fresh (environment K.first W.given) (left budget.old) key.now top_refs before ≡ Done now b.status (left budget.new) b.table))) }
    ensures spoken { IfOk result (λ b. IfSome (W.told world.old) (λ _. AreSpoken K.first (records kept.now) → AreSpoken K.first b.table)) }
    ensures stops { IfErr result (Stops K.first (records kept.now)
        (IfSome (W.told world.old) (λ before. fresh (environment K.first W.given) (left budget.old) key.now top_refs before ≡ Spent))
        (W.Fails world.old world.new)) }

    // What no call of the world changes; and, unless it stops for a reason of the world's, what its answers leave as it was.
    ensures keeps { W.Keeps world.old world.new }
    ensures world { StaysSo (W.Stays world.old world.new) result }

    // Whatever the world and the kept tables: what ran, and why, and what didn't run is recorded; a machine was
    // started for each that ran, and their costs were counted. Where it stops, no more machines were started than one for each
    // command that ran so far, of which no more were launched than turns were paid, and one for each record that was looked at.
    ensures ran { IfOk result (λ b. b.ran ≡ ran_of (records kept.now) b.table) }
    ensures kept { IfOk result (λ b. AreKept (records kept.now) b.table) }
    ensures still { IfOk result (λ b. IsTrue b.still → AreStill (records kept.now) b.table) }
    ensures told { IfOk result (λ b. HaveOneNumber contents.now (records kept.now) → AreStill (records kept.now) b.table → IsTrue b.still) }
    ensures some { IfOk result (λ b. b.table ≢ []) }
    ensures starts { IfOk result (λ b. K.starts maker.new ≡ started (length b.ran) (K.starts maker.old)) }
    ensures launched { IfOk result (λ b. length b.table ≤ total b.table + 1) }
    ensures stopped { IfErr result (StartsStopped (records kept.now) (budget.new.used - budget.old.used) (K.starts maker.old) (K.starts maker.new)) }
    ensures live { IfOk result (λ b. live.new ≡ live.old + ran_total (records kept.now) b.table) }
    ensures paid { IfOk result (λ b. budget.new.used ≡ budget.old.used + total b.table) }
    ensures limit { budget.new.limit ≡ budget.old.limit }
    ensures within { IfOk result (λ b. budget.new.used ≤ budget.new.limit) }
    ensures stays { budget.old.used ≤ budget.old.limit → budget.new.used ≤ budget.new.limit }
    ensures at_least { live.old ≤ live.new }
    ensures at_most { live.new ≤ live.old + left budget.old }
{
    let mut replay = Replay::start(alloc, maker, Earlier::new(kept, contents), key)?;
    let mut answer = Answer::Go;
    'turns: loop {
        match replay.hear(maker, answer, budget.left())? {
            Spoke::Call(call, cost) => {
                let cost = pay(budget, cost);
                match call {
                    Call::Launch(key, map) => {
                        replay.launch(maker, key, map, cost)?;
                        answer = Answer::Go;
                    }
                    call => {
                        answer = replay.answer(maker, world, call, cost, live)?;
                    }
                }
            }
            Spoke::Exit(status, cost) => {
                let cost = pay(budget, cost);
                match replay.exit(maker, status, cost, live)? {
                    Some(joined) => {
                        answer = joined;
                    }
                    None => {
                        let (table, ran, still) = replay.finish(alloc)?;
                        return Ok(Built {
                            status,
                            table,
                            ran,
                            still,
                        });
                    }
                }
            }
            Spoke::Short => {
                check_with(maker, kept)?;
                return Err(ReplayErr::Spent);
            }
        }
    }
}

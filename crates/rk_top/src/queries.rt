// What is asked of the database alone.
ghost use Rattle.std.specs.Prelude.{◌≡◌, ◌++◌, ℕ, true};
ghost use Rattle.rk_folder.specs.Hidden.{db_file};
ghost use Rattle.rk_folder.specs.Looks.{reads, removes, state_listings};
ghost use Rattle.rk_folder.specs.Schedule.{MakesCalls};
ghost use Rattle.rk_top.specs.First.{first_talk};
ghost use Rattle.rk_request.specs.declared.requests.Request.TheVariants as request;
ghost use Rattle.rk_build.specs.Outcomes.{Counted, IsNoFault};
ghost use Rattle.rk_top.specs.Queries.{Queried, outcome_of_answer, outcome_of_refused};

use crate::commands::Commands;
use rk_build::{Outcome, StateFile};
use rk_database::{Said, check, forget, trace};
use rk_folder::{Folder, Sink};
use std::alloc::Global;

fn outcome_of_refused(stop: rk_database::QueryErr) -> Outcome
    ensures { result ≡ outcome_of_refused stop }
{
    match stop {
        rk_database::QueryErr::Special(path) => Outcome::Special(path),
        rk_database::QueryErr::Damaged(damage) => Outcome::Damaged(StateFile::Db, damage),
        rk_database::QueryErr::Forged { rec, step } => Outcome::Forged { rec, step },
        rk_database::QueryErr::ReadFault => Outcome::ReadFault,
        rk_database::QueryErr::WriteFault => Outcome::WriteFault,
        rk_database::QueryErr::NoMemory => Outcome::NoMemory,
    }
}

fn outcome_of_answer(answer: Result<Said, rk_database::QueryErr>) -> Outcome
    ensures { result ≡ outcome_of_answer answer }
{
    match answer {
        Ok(Said::Done) => Outcome::Said(0),
        Ok(Said::NoTrace) => Outcome::Said(1),
        Err(stop) => outcome_of_refused(stop),
    }
}

/// Checks every record.
pub(crate) fn check_records<F: Folder, O: Sink>(
    alloc: Global,
    folder: &mut F,
    out: &mut O,
) -> Outcome
    ensures asked { Queried first_talk request.Check (F.told folder.old) (F.told folder.new) (O.so_far out.old) (O.so_far out.new) result }
    ensures counts { (x : ℕ) → Counted (record { reads = F.read_faults folder.old; writes = F.write_faults folder.old; puts = O.faults out.old; error_puts = x })
        (record { reads = F.read_faults folder.new; writes = F.write_faults folder.new; puts = O.faults out.new; error_puts = x }) result }
    ensures steady { F.steady folder.old ≡ true → O.steady out.old ≡ true → IsNoFault result }
    ensures calls { MakesCalls (state_listings ++ reads db_file) (F.schedule folder.old) (F.schedule folder.new) }
{
    let mut maker = Commands::new(alloc);
    outcome_of_answer(check(alloc, &mut maker, folder, out))
}

/// Shows the records, as lines or as JSON.
pub(crate) fn show_records<F: Folder, O: Sink>(
    alloc: Global,
    json: bool,
    folder: &mut F,
    out: &mut O,
) -> Outcome
    ensures asked { Queried first_talk (request.Trace json) (F.told folder.old) (F.told folder.new) (O.so_far out.old) (O.so_far out.new) result }
    ensures counts { (x : ℕ) → Counted (record { reads = F.read_faults folder.old; writes = F.write_faults folder.old; puts = O.faults out.old; error_puts = x })
        (record { reads = F.read_faults folder.new; writes = F.write_faults folder.new; puts = O.faults out.new; error_puts = x }) result }
    ensures steady { F.steady folder.old ≡ true → O.steady out.old ≡ true → IsNoFault result }
    ensures calls { MakesCalls (state_listings ++ reads db_file) (F.schedule folder.old) (F.schedule folder.new) }
{
    outcome_of_answer(trace(alloc, folder, out, json))
}

/// Removes the database.
pub(crate) fn forget_records<F: Folder, O: Sink>(
    alloc: Global,
    folder: &mut F,
    out: &mut O,
) -> Outcome
    ensures asked { Queried first_talk request.Forget (F.told folder.old) (F.told folder.new) (O.so_far out.old) (O.so_far out.new) result }
    ensures counts { (x : ℕ) → Counted (record { reads = F.read_faults folder.old; writes = F.write_faults folder.old; puts = O.faults out.old; error_puts = x })
        (record { reads = F.read_faults folder.new; writes = F.write_faults folder.new; puts = O.faults out.new; error_puts = x }) result }
    ensures steady { F.steady folder.old ≡ true → O.steady out.old ≡ true → IsNoFault result }
    ensures calls { MakesCalls (state_listings ++ removes db_file) (F.schedule folder.old) (F.schedule folder.new) }
{
    outcome_of_answer(forget(alloc, folder, out))
}

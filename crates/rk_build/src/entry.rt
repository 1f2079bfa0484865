// A build as one call, by the machines of any maker.
ghost use Rattle.std.specs.Prelude.{◌≡◌, ◌≢◌, ◌<◌, ◌≤◌, IfSome, Some, None, true};
ghost use Rattle.rk_folder.specs.Counts.{Still};
ghost use Rattle.rk_folder.specs.Told.{Held};
ghost use Rattle.rk_folder.specs.Specials.{first_special};
ghost use Rattle.rk_traces.specs.Run.{Spent};
ghost use Rattle.rk_traces.specs.Spoken.{AreSpoken};
ghost use Rattle.rk_build.specs.Calls.{AsksSo};
ghost use Rattle.rk_build.specs.Outcomes.{Checked, outcome_of, outcome_of_stop, outcome_of_refusal, Leaves, HasStatus, Tallies, Gains, GainsErrors, InOrder, ErrorsCounted, Counted, Ticked, Started, IfEnded, IfSpecial, IfDamaged, IfForged, IsNoFault, Settles};
ghost use Rattle.rk_build.specs.Kept.{decoded, state_in, IsDamaged, Keeping};
ghost use Rattle.rk_build.specs.Checks.{TellsForged};
ghost use Rattle.rk_build.specs.Run.{fresh_run};
ghost use Rattle.rk_request.specs.Asked.{is_fresh, turns};
ghost use Rattle.tr_record.specs.Generations.{records};

use crate::Outcome;
use crate::build::build;
use crate::stop::{BuildErr, Refusal};
use crate::work::Ended;
use rk_base::Steps;
use rk_calls::Maker;
use rk_folder::{Folder, Sink};
use rk_request::Request;
use std::alloc::Global;
use std::sync::ledger::Ledger;

fn outcome_of_refusal(refusal: Refusal) -> Outcome
    ensures { result ≡ outcome_of_refusal refusal }
{
    match refusal {
        Refusal::Special(path) => Outcome::Special(path),
        Refusal::Damaged(file, damage) => Outcome::Damaged(file, damage),
    }
}

fn outcome_of_stop(stop: BuildErr) -> Outcome
    ensures { result ≡ outcome_of_stop stop }
{
    match stop {
        BuildErr::Refused(refusal) => outcome_of_refusal(refusal),
        BuildErr::Forged { rec, step } => Outcome::Forged { rec, step },
        BuildErr::Spent => Outcome::Spent,
        BuildErr::ReadFault => Outcome::ReadFault,
        BuildErr::WriteFault => Outcome::WriteFault,
        BuildErr::NoMemory => Outcome::NoMemory,
    }
}

fn outcome_of(built: Result<Ended, BuildErr>) -> Outcome
    ensures { result ≡ outcome_of built }
{
    match built {
        Ok(
            Ended {
                status,
                launched,
                ran,
            },
        ) => Outcome::Ended {
            status,
            launched,
            ran: ran.len() as u64,
        },
        Err(stop) => outcome_of_stop(stop),
    }
}

/// A build, by the machines of any maker: everything but reading the words and telling the outcome. It answers `Ended`,
/// `Special`, `Damaged`, `Forged`, `Spent`, `ReadFault`, `WriteFault` or `NoMemory`. `live` counts the turns that commands
/// which ran have paid.
pub fn build_in<M: Maker, F: Folder, O: Sink, E: Sink, L: Ledger>(
    alloc: Global,
    maker: &mut M,
    request: &Request,
    folder: &mut F,
    out: &mut O,
    err: &mut E,
    live: &mut Steps<L>,
) -> Outcome
    requires { 0 < turns request.now }

    // What the folder holds afterwards: over an end, and records that are spoken, what the fresh run on the present tree
    // leaves. After a failure it is as before, or the folder's own count of such failures rose.
    ensures folder { Leaves M.first request.now (F.told folder.old) (F.told folder.new) (record { writes = F.write_faults folder.old; memory = F.memory_failures folder.old }) (record { writes = F.write_faults folder.new; memory = F.memory_failures folder.new }) result }

    // The status is the fresh run's. Whatever the records: how many were left, how many of their commands ran over those that
    // were kept, and what these paid; and a machine was started for each of them, after one for each record that is checked.
    // Where every record is to be checked, each is spoken.
    ensures status { IfEnded result (λ status launched ran. HasStatus M.first request.now (F.told folder.old) status) }
    ensures tally { IfEnded result (λ status launched ran. Tallies M.first request.now (F.told folder.old) (F.told folder.new) live.old live.new launched ran) }
    ensures starts { Started M.first request.now (F.told folder.old) (M.starts maker.old) (M.starts maker.new) result }
    ensures checked { IfEnded result (λ status launched ran. Checked M.first request.now (F.told folder.old)) }
    ensures live { Ticked request.now live.old live.new result }
    ensures rises { live.old ≤ live.new }

    // What a folder that keeps its calls was asked: a listing of each directory and the state files, then reads of listed files
    // outside `.rkr`, and then the planned calls, each once at most, in this order, and nothing else; where nothing is
    // installed, it is looked at alone.
    ensures calls { AsksSo M.first request.now (F.reach folder.old) (F.told folder.old) (F.schedule folder.old) (F.schedule folder.new) result }

    // What was put: the run's output, and then its error text.
    ensures output { Gains M.first request.now (F.told folder.old) (record { so_far = O.so_far out.old; faults = O.faults out.old; memory = O.memory_failures out.old }) (record { so_far = O.so_far out.new; faults = O.faults out.new; memory = O.memory_failures out.new }) result }
    ensures errors { GainsErrors M.first request.now (F.told folder.old) (record { so_far = E.so_far err.old; faults = E.faults err.old; memory = E.memory_failures err.old }) (record { so_far = E.so_far err.new; faults = E.faults err.new; memory = E.memory_failures err.new }) result }
    ensures order { InOrder M.first request.now (F.told folder.old) (record { out = (record { so_far = O.so_far out.old; faults = O.faults out.old; memory = O.memory_failures out.old }); err = (record { so_far = E.so_far err.old; faults = E.faults err.old; memory = E.memory_failures err.old }) }) (record { out = (record { so_far = O.so_far out.new; faults = O.faults out.new; memory = O.memory_failures out.new }); err = (record { so_far = E.so_far err.new; faults = E.faults err.new; memory = E.memory_failures err.new }) }) }
    ensures error_counts { ErrorsCounted (record { so_far = E.so_far err.old; faults = E.faults err.old; memory = E.memory_failures err.old }) (record { so_far = E.so_far err.new; faults = E.faults err.new; memory = E.memory_failures err.new }) result }

    // Each refusal only for its cause.
    ensures asked { result ≢ Outcome.Usage }
    ensures special { IfSpecial result (λ path. IfSome (F.told folder.old) (λ held. first_special held ≡ Some path)) }
    ensures damaged { IfDamaged result (λ file damage. IfSome (F.told folder.old) (λ held. (first_special held ≡ None) × IsDamaged (decoded (is_fresh request.now) (state_in held)) file damage)) }
    ensures forged { IfForged result (λ rec step. IfSome (F.told folder.old) (λ held. Keeping (is_fresh request.now) held (λ entries old. TellsForged M.first request.now (records old) rec step))) }
    ensures spent { result ≡ Outcome.Spent → IfSome (F.told folder.old) (λ held. Keeping (is_fresh request.now) held (λ entries old. AreSpoken M.first (records old) × (fresh_run M.first request.now entries ≡ Spent))) }

    // A fault is told only where a count for it rose in this call, and none over what is steady.
    ensures counts { Counted (record { reads = F.read_faults folder.old; writes = F.write_faults folder.old; puts = O.faults out.old; error_puts = E.faults err.old })
        (record { reads = F.read_faults folder.new; writes = F.write_faults folder.new; puts = O.faults out.new; error_puts = E.faults err.new }) result }
    ensures steady { F.steady folder.old ≡ true → O.steady out.old ≡ true → E.steady err.old ≡ true → (E.steady err.new ≡ true) × IsNoFault result }
    ensures folder_steady { F.steady folder.new ≡ F.steady folder.old }

    // With no count that rose, the outcome is one that what the folder holds calls for.
    ensures complete { (held : Held) → F.told folder.old ≡ Some held
        → Still (F.read_faults folder.old) (F.read_faults folder.new) → Still (F.write_faults folder.old) (F.write_faults folder.new) → Still (O.faults out.old) (O.faults out.new) → Still (E.faults err.old) (E.faults err.new)
        → Settles M.first request.now held result }
{
    outcome_of(build(alloc, maker, request, folder, out, err, live))
}

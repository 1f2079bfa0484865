// The build, once the words are read.
ghost use Rattle.std.specs.Prelude.{◌≡◌, ◌<◌, ◌≤◌, Ok, length, IfOk, IfSome, true};
ghost use Rattle.rk_build.specs.Calls.{AsksSo};
ghost use Rattle.rk_folder.specs.Schedule.{MakesCalls};
ghost use Rattle.rk_install.specs.Asked.{plan_calls};
ghost use Rattle.rk_install.specs.Install.{AllowsPlan};
ghost use Rattle.rk_request.specs.Asked.{turns};
ghost use Rattle.rk_build.specs.Outcomes.{Checked, outcome_of, Leaves, HasStatus, Tallies, Gains, GainsErrors, InOrder, ErrorsCounted, Counted, Ticked};
ghost use Rattle.rk_build.specs.Stages.{StartsSo, InstallsSo, WritesCounted, MemoryRose, Steadily};
ghost use Rattle.rk_build.specs.Texts.{IsNoFault};

use crate::prepare::prepare;
use crate::stop::BuildErr;
use crate::texts::put_texts;
use crate::work::{Ended, Prepared};
use rk_base::Steps;
use rk_calls::Maker;
use rk_folder::{Folder, Sink};
use rk_install::{InstallErr, install};
use rk_request::Request;
use rk_seal::Plan;
use std::alloc::Global;
use std::sync::ledger::Ledger;

// Installs the plan.
fn carry_out<F: Folder>(alloc: Global, folder: &mut F, plan: Plan) -> Result<(), BuildErr>
    requires { IfSome (F.told folder.old) (AllowsPlan plan) }
    ensures held { InstallsSo plan (F.told folder.old) (F.told folder.new) result }
    ensures writes { WritesCounted (F.write_faults folder.old) (F.write_faults folder.new) result }
    ensures memory { MemoryRose (F.told folder.old) (F.told folder.new) (F.memory_failures folder.old) (F.memory_failures folder.new) result }
    ensures steady { Steadily (F.steady folder.old) (F.steady folder.new) result }
    ensures reads { F.read_faults folder.new ≡ F.read_faults folder.old }
    ensures calls { MakesCalls (plan_calls plan) (F.schedule folder.old) (F.schedule folder.new) }
{
    match install(alloc, folder, &plan) {
        Ok(()) => Ok(()),
        Err(InstallErr::WriteFault) => Err(BuildErr::WriteFault),
        Err(InstallErr::NoMemory) => Err(BuildErr::NoMemory),
    }
}

/// Runs the script on what the folder holds, puts its texts out and installs what it leaves.
pub(crate) fn build<M: Maker, F: Folder, O: Sink, E: Sink, L: Ledger>(
    alloc: Global,
    maker: &mut M,
    request: &Request,
    folder: &mut F,
    out: &mut O,
    err: &mut E,
    live: &mut Steps<L>,
) -> Result<Ended, BuildErr>
    requires { 0 < turns request.now }
    ensures folder { Leaves M.first request.now (F.told folder.old) (F.told folder.new) (record { writes = F.write_faults folder.old; memory = F.memory_failures folder.old }) (record { writes = F.write_faults folder.new; memory = F.memory_failures folder.new }) (outcome_of result) }
    ensures status { IfOk result (λ e. HasStatus M.first request.now (F.told folder.old) e.status) }
    ensures tally { IfOk result (λ e. Tallies M.first request.now (F.told folder.old) (F.told folder.new) live.old live.new e.launched (length e.ran)) }
    ensures checked { IfOk result (λ _. Checked M.first request.now (F.told folder.old)) }
    ensures output { Gains M.first request.now (F.told folder.old) (record { so_far = O.so_far out.old; faults = O.faults out.old; memory = O.memory_failures out.old }) (record { so_far = O.so_far out.new; faults = O.faults out.new; memory = O.memory_failures out.new }) (outcome_of result) }
    ensures errors { GainsErrors M.first request.now (F.told folder.old) (record { so_far = E.so_far err.old; faults = E.faults err.old; memory = E.memory_failures err.old }) (record { so_far = E.so_far err.new; faults = E.faults err.new; memory = E.memory_failures err.new }) (outcome_of result) }
    ensures order { InOrder M.first request.now (F.told folder.old) (record { out = (record { so_far = O.so_far out.old; faults = O.faults out.old; memory = O.memory_failures out.old }); err = (record { so_far = E.so_far err.old; faults = E.faults err.old; memory = E.memory_failures err.old }) }) (record { out = (record { so_far = O.so_far out.new; faults = O.faults out.new; memory = O.memory_failures out.new }); err = (record { so_far = E.so_far err.new; faults = E.faults err.new; memory = E.memory_failures err.new }) }) }
    ensures error_counts { ErrorsCounted (record { so_far = E.so_far err.old; faults = E.faults err.old; memory = E.memory_failures err.old }) (record { so_far = E.so_far err.new; faults = E.faults err.new; memory = E.memory_failures err.new }) (outcome_of result) }
    ensures counts { Counted (record { reads = F.read_faults folder.old; writes = F.write_faults folder.old; puts = O.faults out.old; error_puts = E.faults err.old })
        (record { reads = F.read_faults folder.new; writes = F.write_faults folder.new; puts = O.faults out.new; error_puts = E.faults err.new }) (outcome_of result) }
    ensures steady { F.steady folder.old ≡ true → O.steady out.old ≡ true → E.steady err.old ≡ true → (E.steady err.new ≡ true) × IsNoFault result }
    ensures folder_steady { F.steady folder.new ≡ F.steady folder.old }
    ensures calls { AsksSo M.first request.now (F.reach folder.old) (F.told folder.old) (F.schedule folder.old) (F.schedule folder.new) (outcome_of result) }
    ensures live { Ticked request.now live.old live.new (outcome_of result) }
    ensures rises { live.old ≤ live.new }
    ensures starts { StartsSo (λ e. length e.ran) M.first request.now (F.told folder.old) (M.starts maker.old) (M.starts maker.new) result }
{
    let Prepared {
        ended,
        world,
        plan,
        error_text,
    } = prepare(alloc, maker, request, folder, live)?;
    put_texts(out, err, world.out(), error_text.as_slice())?;
    carry_out(alloc, folder, plan)?;
    Ok(ended)
}

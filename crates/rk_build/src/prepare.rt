// What is to be done once the script has run.
ghost use Rattle.std.specs.Prelude.{◌≡◌, ◌+◌, ◌<◌, ◌≤◌, IfOk, OnOk, length, option_map};
ghost use Rattle.rk_folder.specs.Fetching.{KeptFolder};
ghost use Rattle.rk_folder.specs.Import.{told_of};
ghost use Rattle.rk_request.specs.Asked.{turns};
ghost use Rattle.rk_tree.specs.Entries.{IsWholeSnapshot};
ghost use Rattle.rk_tree.specs.Full.{EntriesFrom};
ghost use Rattle.tr_record.specs.Contents.{AreContents};
ghost use Rattle.tr_record.specs.Generations.{records};
ghost use Rattle.rk_build.specs.Calls.{PreparesCalls};
ghost use Rattle.rk_build.specs.Kept.{Spells};
ghost use Rattle.rk_build.specs.Run.{StartsRun};
ghost use Rattle.rk_build.specs.Stages.{PreparesSo, ReadsCounted, StartsSo, Steadily, WorksSo};

use crate::checked::check_old;
use crate::found::{Found, find};
use crate::stop::BuildErr;
use crate::work::{Prepared, work};
use rk_base::Steps;
use rk_calls::Maker;
use rk_folder::{ByFolder, Folder};
use rk_request::Request;
use std::alloc::Global;
use std::sync::ledger::Ledger;

// The work over what reads a folder, told of the folder.
fn work_by<'a, M: Maker, F: Folder, L: Ledger>(
    alloc: Global,
    maker: &mut M,
    request: &Request,
    fetch: &mut ByFolder<'a, F>,
    found: Found,
    live: &mut Steps<L>,
) -> Result<Prepared, BuildErr>
    requires some { 0 < turns request.now }
    requires contents { AreContents found.contents (records found.old) }
    requires spells { Spells found.holding.state.db found.old }
    requires whole { IsWholeSnapshot found.holding.entries }
    requires from { EntriesFrom (option_map told_of (F.told fetch.old.folder.now)) found.holding.entries }
    ensures works { WorksSo M.first request.now (option_map told_of (F.told fetch.old.folder.now)) found live.old live.new result }
    ensures at_least { live.old ≤ live.new }
    ensures at_most { live.new ≤ live.old + turns request.now }
    ensures starts { StartsRun (λ p. length p.ended.ran) request.now (records found.old) (M.starts maker.old) (M.starts maker.new) result }
    ensures same { fetch.new.folder.ghost_name ≡ fetch.old.folder.ghost_name }
    ensures keeps { KeptFolder (record { told = F.told fetch.old.folder.now; writes = F.write_faults fetch.old.folder.now; reach = F.reach fetch.old.folder.now }) (record { told = F.told fetch.new.folder.now; writes = F.write_faults fetch.new.folder.now; reach = F.reach fetch.new.folder.now }) (F.memory_failures fetch.old.folder.now) (F.memory_failures fetch.new.folder.now) (F.schedule fetch.old.folder.now) (F.schedule fetch.new.folder.now) }
    ensures memory { OnOk result (F.memory_failures fetch.new.folder.now ≡ F.memory_failures fetch.old.folder.now) }
    ensures reads { ReadsCounted (F.read_faults fetch.old.folder.now) (F.read_faults fetch.new.folder.now) result }
    ensures steady { Steadily (F.steady fetch.old.folder.now) (F.steady fetch.new.folder.now) result }
{
    work(alloc, maker, request, fetch, found, live)
}

// The work over a folder, whose files are read where they are looked at.
fn work_in<M: Maker, F: Folder, L: Ledger>(
    alloc: Global,
    maker: &mut M,
    request: &Request,
    folder: &mut F,
    found: Found,
    live: &mut Steps<L>,
) -> Result<Prepared, BuildErr>
    requires some { 0 < turns request.now }
    requires contents { AreContents found.contents (records found.old) }
    requires spells { Spells found.holding.state.db found.old }
    requires whole { IsWholeSnapshot found.holding.entries }
    requires from { EntriesFrom (option_map told_of (F.told folder.old)) found.holding.entries }
    ensures works { WorksSo M.first request.now (option_map told_of (F.told folder.old)) found live.old live.new result }
    ensures at_least { live.old ≤ live.new }
    ensures at_most { live.new ≤ live.old + turns request.now }
    ensures starts { StartsRun (λ p. length p.ended.ran) request.now (records found.old) (M.starts maker.old) (M.starts maker.new) result }
    ensures keeps { KeptFolder (record { told = F.told folder.old; writes = F.write_faults folder.old; reach = F.reach folder.old }) (record { told = F.told folder.new; writes = F.write_faults folder.new; reach = F.reach folder.new }) (F.memory_failures folder.old) (F.memory_failures folder.new) (F.schedule folder.old) (F.schedule folder.new) }
    ensures memory { OnOk result (F.memory_failures folder.new ≡ F.memory_failures folder.old) }
    ensures reads { ReadsCounted (F.read_faults folder.old) (F.read_faults folder.new) result }
    ensures steady { Steadily (F.steady folder.old) (F.steady folder.new) result }
{
    let mut fetch = ByFolder::new(folder);
    work_by(alloc, maker, request, &mut fetch, found, live)
}

/// Looks at the folder, reads its state files, runs the script on what it holds, where no record answers for it, and
/// plans what leads to what the run leaves; with the error text that is to be put. A file is read when a call first looks at
/// its bytes, or where the plan compares or writes them.
pub(crate) fn prepare<M: Maker, F: Folder, L: Ledger>(
    alloc: Global,
    maker: &mut M,
    request: &Request,
    folder: &mut F,
    live: &mut Steps<L>,
) -> Result<Prepared, BuildErr>
    requires { 0 < turns request.now }
    ensures held { F.told folder.new ≡ F.told folder.old }
    ensures writes { F.write_faults folder.new ≡ F.write_faults folder.old }
    ensures looks { PreparesCalls request.now (F.reach folder.old) (F.told folder.old) (F.schedule folder.old) (F.schedule folder.new) result }
    ensures reads { ReadsCounted (F.read_faults folder.old) (F.read_faults folder.new) result }
    ensures memory { OnOk result (F.memory_failures folder.new ≡ F.memory_failures folder.old) }
    ensures steady { Steadily (F.steady folder.old) (F.steady folder.new) result }
    ensures prepares { PreparesSo M.first request.now (F.told folder.old) live.old live.new result }
    ensures rises { live.old ≤ live.new }
    ensures few { IfOk result (λ p. length p.ended.ran ≤ turns request.now + 1) }
    ensures starts { StartsSo (λ p. length p.ended.ran) M.first request.now (F.told folder.old) (M.starts maker.old) (M.starts maker.new) result }
{
    let found = find(alloc, request, folder)?;
    check_old(maker, request, &found.old)?;
    work_in(alloc, maker, request, folder, found, live)
}

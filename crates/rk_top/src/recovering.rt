// What comes before a request: a sealed list of calls is finished, where one stands.
ghost use Rattle.std.specs.Prelude.{◌≡◌, IfSome, None, true, false};
ghost use Rattle.rk_folder.specs.Schedule.{MakesCalls};
ghost use Rattle.rk_install.specs.Recovery.{MemoryCounted, ReadCaused, RecoversTold, Steadily, WriteCaused, seal_looks, sealed_in};
ghost use Rattle.rk_top.specs.Recovers.{ended_so, is_of_folder, outcome_of_recovery};

use rk_build::{Outcome, StateFile};
use rk_folder::Folder;
use rk_install::{RecoverErr, recover};
use rk_request::Request;
use std::alloc::Global;

// Whether the request is of the folder; a made workload leaves it alone.
fn is_of_folder(request: &Request) -> bool
    ensures { result ≡ is_of_folder request.now }
{
    match request {
        Request::Build { .. } => true,
        Request::Check => true,
        Request::Trace { .. } => true,
        Request::Forget => true,
        Request::Gen(_) => false,
    }
}

/// How a call ends where a sealed list couldn't be finished.
pub(crate) fn outcome_of_recovery(e: RecoverErr) -> Outcome
    ensures { result ≡ outcome_of_recovery e }
{
    match e {
        RecoverErr::Damaged(damage) => Outcome::Damaged(StateFile::Install, damage),
        RecoverErr::ReadFault => Outcome::ReadFault,
        RecoverErr::WriteFault => Outcome::WriteFault,
        RecoverErr::NoMemory => Outcome::NoMemory,
    }
}

/// Finishes a sealed list, where one stands and the request is of the folder; `Some` where it couldn't.
pub(crate) fn finish<F: Folder>(
    alloc: Global,
    request: &Request,
    folder: &mut F,
) -> Option<RecoverErr>
    ensures told { is_of_folder request.now ≡ true → RecoversTold (F.told folder.old) (F.told folder.new) (ended_so result) }
    ensures apart { is_of_folder request.now ≡ false → (F.told folder.new ≡ F.told folder.old) × (F.schedule folder.new ≡ F.schedule folder.old) × (result ≡ None) }
    ensures cause { ReadCaused (F.read_faults folder.old) (F.read_faults folder.new) (ended_so result) }
    ensures writes { WriteCaused (F.write_faults folder.old) (F.write_faults folder.new) (ended_so result) }
    ensures memory { MemoryCounted (F.memory_failures folder.old) (F.memory_failures folder.new) (ended_so result) }
    ensures steady { Steadily (F.steady folder.old) (F.steady folder.new) (ended_so result) }
    ensures looks { IfSome (F.told folder.old) (λ held. sealed_in held ≡ None → MakesCalls seal_looks (F.schedule folder.old) (F.schedule folder.new)) }
{
    if !is_of_folder(request) {
        return None;
    }
    match recover(alloc, folder) {
        Ok(()) => None,
        Err(e) => Some(e),
    }
}

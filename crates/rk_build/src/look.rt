// What the folder holds.
ghost use Rattle.std.specs.Prelude.{◌≡◌, IfOk, OnOk};
ghost use Rattle.rk_folder.specs.Looks.{LooksInOrder, looks};
ghost use Rattle.rk_tree.specs.Entries.{IsWholeSnapshot};
ghost use Rattle.rk_build.specs.Stages.{LooksSo, ReadsCounted, Steadily, stop_of};

use crate::stop::{BuildErr, Refusal};
use rk_changes::Holding;
use rk_folder::{Folder, Hidden, ImportErr, Imported, import};
use std::alloc::Global;

fn stop_of(e: ImportErr) -> BuildErr
    ensures { result ≡ stop_of e }
{
    match e {
        ImportErr::Special(path) => BuildErr::Refused(Refusal::Special(path)),
        ImportErr::ReadFault => BuildErr::ReadFault,
        ImportErr::NoMemory => BuildErr::NoMemory,
    }
}

/// Lists the folder and reads its state files; of a build that begins afresh the database is passed over.
pub(crate) fn look<F: Folder>(
    alloc: Global,
    folder: &mut F,
    fresh: bool,
) -> Result<Holding, BuildErr>
    ensures held { F.told folder.new ≡ F.told folder.old }
    ensures writes { F.write_faults folder.new ≡ F.write_faults folder.old }
    ensures looks { LooksInOrder (F.told folder.old) (looks fresh (F.reach folder.old)) (F.schedule folder.old) (F.schedule folder.new) }
    ensures reads { ReadsCounted (F.read_faults folder.old) (F.read_faults folder.new) result }
    ensures memory { OnOk result (F.memory_failures folder.new ≡ F.memory_failures folder.old) }
    ensures steady { Steadily (F.steady folder.old) (F.steady folder.new) result }
    ensures look { LooksSo fresh (F.told folder.old) result }
    ensures whole { IfOk result (λ holding. IsWholeSnapshot holding.entries) }
{
    match import(alloc, folder, fresh) {
        Ok(Imported { entries, hidden }) => {
            let Hidden { rkr, state } = hidden;
            Ok(Holding {
                entries,
                rkr,
                state,
            })
        }
        Err(e) => Err(stop_of(e)),
    }
}

// All that a folder holds for a build, found in one pass.
ghost use Rattle.std.specs.Prelude.{◌≡◌, IfOk};
ghost use Rattle.rk_tree.specs.Entries.{IsWholeSnapshot};
ghost use Rattle.rk_folder.specs.Specials.{first_special};
ghost use Rattle.rk_folder.specs.Looks.{LooksInOrder, looks};
ghost use Rattle.rk_folder.specs.Import.{Tells, ReadCaused, MemoryCounted, ReadSteadily, hidden_read, listed_of, ListedInFull};

use crate::entries::{RootEntries, entries_listed};
use crate::importing::list;
use crate::state_files::state_listed;
use crate::{Folder, Hidden, ImportErr};
use rk_base::Path;
use rk_tree::Snapshot;
use std::alloc::Global;

/// What a build finds in a folder.
#[derive(Drop)]
pub struct Imported {
    /// The files and directories outside `.rkr`.
    pub entries: Snapshot,
    pub hidden: Hidden,
}

/// The files and directories of a folder outside `.rkr`, a file with the mode 0644 and a directory with
/// 0755, and the state files. Each directory is listed once, name by name, ascending, a directory's contents before the next
/// name, and the state files are read last; the bytes of any other file aren't looked at. What is special is told where it is
/// met. Where the database is passed over it is looked at by the listing of `.rkr` alone,
/// however large it is, and told as absent.
pub fn import<F: Folder>(
    alloc: Global,
    folder: &mut F,
    skips_db: bool,
) -> Result<Imported, ImportErr>
    ensures told { Tells (F.told folder.old) first_special (λ held it. (it.entries ≡ listed_of held) × (it.hidden ≡ hidden_read skips_db held)) result }
    ensures whole { IfOk result (λ it. IsWholeSnapshot it.entries) }

    // A read fault comes only where the count of them rose.
    ensures cause { ReadCaused (F.read_faults folder.old) (F.read_faults folder.new) result }

    // Each call of the folder had memory, where this one had.
    ensures memory { MemoryCounted (F.memory_failures folder.old) (F.memory_failures folder.new) result }

    // A steady folder has no fault.
    ensures steady { ReadSteadily (F.steady folder.old) (F.steady folder.new) result }

    ensures held { F.told folder.new ≡ F.told folder.old }
    ensures writes { F.write_faults folder.new ≡ F.write_faults folder.old }

    // A folder that keeps its calls was asked for a listing of each directory, and then for a read of each state file that isn't
    // passed over, each once at most, in this order, and for nothing else.
    ensures looks { LooksInOrder (F.told folder.old) (looks skips_db (F.reach folder.old)) (F.schedule folder.old) (F.schedule folder.new) }
    ensures reach { F.reach folder.new ≡ F.reach folder.old }
{
    let items = list(alloc, folder, &Path::root(alloc)?)?;
    let RootEntries { entries, listed } = entries_listed(alloc, folder, &items)?;
    let hidden = state_listed(alloc, folder, listed, skips_db)?;
    Ok(Imported { entries, hidden })
}

/// What is imported of a folder is, in full, what stands there: each file with its bytes, and each can be read. It does nothing.
pub fn listed_in_full()
    ensures { ListedInFull }
{}

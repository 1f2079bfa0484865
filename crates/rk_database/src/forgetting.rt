// The database, removed.
ghost use Rattle.std.specs.Prelude.{◌≡◌, ◌++◌, true};
ghost use Rattle.rk_folder.specs.Hidden as hidden;
ghost use Rattle.rk_folder.specs.Looks.{removes, state_listings};
ghost use Rattle.rk_folder.specs.Schedule.{MakesCalls};
ghost use Rattle.rk_database.specs.Answers.{EitherCounted, Forgets, IsNoFault, ReadsCounted, SaysNone};

use crate::database::database_stands;
use crate::output::say_none;
use crate::stop::{QueryErr, Said};
use rk_folder::{Folder, FolderErr, Sink, db_file};
use std::alloc::Global;

/// Removes the folder's database, and leaves all else; or puts `no trace` on the output where there is no database. No file is
/// read: the root and `.rkr` are listed, and the database is removed.
pub fn forget<F: Folder, O: Sink>(
    alloc: Global,
    folder: &mut F,
    out: &mut O,
) -> Result<Said, QueryErr>
    ensures folder { Forgets (F.told folder.old) (F.told folder.new) result }
    ensures output { SaysNone (F.told folder.old) (O.so_far out.old) (O.so_far out.new) result }
    ensures reads { ReadsCounted (F.read_faults folder.old) (F.read_faults folder.new) result }
    ensures writes { EitherCounted (F.write_faults folder.old) (F.write_faults folder.new) (O.faults out.old) (O.faults out.new) result }
    ensures steady { F.steady folder.old ≡ true → O.steady out.old ≡ true → IsNoFault result }
    ensures calls { MakesCalls (state_listings ++ removes hidden.db_file) (F.schedule folder.old) (F.schedule folder.new) }
{
    let stands = database_stands(alloc, folder)?;
    if !stands {
        return say_none(out);
    }
    let file = db_file(alloc)?;
    match folder.remove_file(alloc, &file) {
        Ok(()) => Ok(Said::Done),
        Err(FolderErr::Failed) => Err(QueryErr::WriteFault),
        Err(FolderErr::NoMemory) => Err(QueryErr::NoMemory),
    }
}

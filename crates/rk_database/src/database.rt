// The database of a folder.
ghost use Rattle.std.specs.Prelude.{◌≡◌, ◌++◌, IfErr, IfOk, true};
ghost use Rattle.rk_database.specs.Answers.{FindsDb, FindsWhether, IsNoFault, ReadsCounted};
ghost use Rattle.rk_folder.specs.Hidden as hidden;
ghost use Rattle.rk_folder.specs.Looks.{reads, state_listings};
ghost use Rattle.rk_folder.specs.Schedule.{MakesCalls};
ghost use Rattle.rk_database.specs.Texts.{NoTrace, Spells};

use crate::stop::QueryErr;
use rk_base::Bytes;
use rk_folder::{Folder, FolderErr, Got, ImportErr, db_file, has_database};
use std::alloc::Global;
use tr_kept::read_kept;
use tr_parts::CodecErr;
use tr_record::Kept;

// The bytes of the database, which is listed; nothing where it is gone since.
fn read_listed<F: Folder>(alloc: Global, folder: &mut F) -> Result<Option<Bytes>, QueryErr>
    requires { FindsWhether (F.told folder.old) (Ok true) }
    ensures finds { FindsDb (F.told folder.old) result }
    ensures held { F.told folder.new ≡ F.told folder.old }
    ensures reads { ReadsCounted (F.read_faults folder.old) (F.read_faults folder.new) result }
    ensures writes { F.write_faults folder.new ≡ F.write_faults folder.old }
    ensures steady { F.steady folder.new ≡ F.steady folder.old }
    ensures no_fault { F.steady folder.old ≡ true → IsNoFault result }
    ensures calls { MakesCalls (reads hidden.db_file) (F.schedule folder.old) (F.schedule folder.new) }
{
    let file = db_file(alloc)?;
    match folder.read(alloc, &file) {
        Ok(Got::Content(bytes)) => Ok(Some(bytes)),
        Ok(Got::Absent) => Ok(None),
        Err(FolderErr::Failed) => Err(QueryErr::ReadFault),
        Err(FolderErr::NoMemory) => Err(QueryErr::NoMemory),
    }
}

/// The bytes of the database; nothing where it doesn't stand. The root and `.rkr` are listed, and no other file is read.
pub(crate) fn database<F: Folder>(alloc: Global, folder: &mut F) -> Result<Option<Bytes>, QueryErr>
    ensures finds { FindsDb (F.told folder.old) result }
    ensures held { F.told folder.new ≡ F.told folder.old }
    ensures reads { ReadsCounted (F.read_faults folder.old) (F.read_faults folder.new) result }
    ensures writes { F.write_faults folder.new ≡ F.write_faults folder.old }
    ensures steady { F.steady folder.new ≡ F.steady folder.old }
    ensures no_fault { F.steady folder.old ≡ true → IsNoFault result }
    ensures calls { MakesCalls (state_listings ++ reads hidden.db_file) (F.schedule folder.old) (F.schedule folder.new) }
{
    let stands = database_stands(alloc, folder)?;
    if !stands {
        return Ok(None);
    }
    let db = read_listed(alloc, folder)?;
    Ok(db)
}

/// Whether the database stands, by the listings of the root and of `.rkr`: no file is read.
pub(crate) fn database_stands<F: Folder>(alloc: Global, folder: &mut F) -> Result<bool, QueryErr>
    ensures stands { FindsWhether (F.told folder.old) result }
    ensures held { F.told folder.new ≡ F.told folder.old }
    ensures reads { ReadsCounted (F.read_faults folder.old) (F.read_faults folder.new) result }
    ensures writes { F.write_faults folder.new ≡ F.write_faults folder.old }
    ensures steady { F.steady folder.new ≡ F.steady folder.old }
    ensures no_fault { F.steady folder.old ≡ true → IsNoFault result }
    ensures calls { MakesCalls state_listings (F.schedule folder.old) (F.schedule folder.new) }
{
    match has_database(alloc, folder) {
        Ok(stands) => Ok(stands),
        Err(ImportErr::Special(path)) => Err(QueryErr::Special(path)),
        Err(ImportErr::ReadFault) => Err(QueryErr::ReadFault),
        Err(ImportErr::NoMemory) => Err(QueryErr::NoMemory),
    }
}

/// The tables that a database's bytes spell, the newest first.
pub(crate) fn kept_of(alloc: Global, db: &[u8]) -> Result<Kept, QueryErr>
    ensures spelt { IfOk result (λ kept. Spells db.now kept) }
    ensures refused { IfErr result (NoTrace db.now) }
{
    match read_kept(alloc, db) {
        Ok(kept) => Ok(kept.into_kept()),
        Err(CodecErr::Damaged(damage)) => Err(QueryErr::Damaged(damage)),
        Err(CodecErr::NoMemory) => Err(QueryErr::NoMemory),
    }
}

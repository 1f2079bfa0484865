// The state files of a folder.
ghost use Rattle.std.specs.Prelude.{◌≡◌, Some, None, IfSome, if◌then◌else◌};
ghost use Rattle.rk_folder.specs.Told.{standing, bytes_in, can_read};
ghost use Rattle.rk_folder.specs.Hidden.{hidden_dir};
ghost use Rattle.rk_folder.specs.declared.folder.Standing.TheVariants.{Dir};
ghost use Rattle.rk_folder.specs.Specials.{hidden_special, state_special};
ghost use Rattle.rk_folder.specs.Steps as steps;
ghost use Rattle.rk_folder.specs.Steps.{ListsRoot, MayCall, nothing_special};
ghost use Rattle.rk_folder.specs.Import.{Tells, ReadCaused, MemoryCounted, ReadSteadily, has_database, hidden_read, state_of};
ghost use Rattle.rk_folder.specs.Looks.{LooksInOrder, all_state_looks, lists, reads_unless, state_listings, state_looks, state_reads};
ghost use Rattle.rk_folder.specs.Schedule.{MakesCalls};

use crate::hidden_files::{HIDDEN, attrs_file, db_file, hidden_dir, install_file};
use crate::hidden_listing::{Listed, hidden_listed};
use crate::importing::{bytes_of, list, named};
use crate::{Folder, Hidden, ImportErr, Item, State};
use rk_base::{Bytes, Path};
use std::alloc::Global;

// Where `.rkr` doesn't stand.
fn nothing_found() -> Hidden
    ensures { result ≡ steps.nothing_found }
{
    Hidden {
        rkr: false,
        state: State {
            db: None,
            attrs: None,
            install: None,
            fresh_list: false,
        },
    }
}

fn has_db(listed: Option<Listed>) -> bool
    ensures { result ≡ steps.has_db listed }
{
    match listed {
        None => false,
        Some(listed) => listed.db,
    }
}

// The bytes of a file; `None` where nothing stands, or where it is passed over.
fn bytes_unless<F: Folder>(
    alloc: Global,
    folder: &mut F,
    passed: bool,
    file: &Path,
) -> Result<Option<Bytes>, ImportErr>
    requires { MayCall (F.told folder.old) (can_read file.now) }
    ensures bytes { Tells (F.told folder.old) nothing_special (λ held bytes. bytes ≡ (if passed then None else bytes_in (standing held file.now))) result }
    ensures cause { ReadCaused (F.read_faults folder.old) (F.read_faults folder.new) result }
    ensures memory { MemoryCounted (F.memory_failures folder.old) (F.memory_failures folder.new) result }
    ensures steady { ReadSteadily (F.steady folder.old) (F.steady folder.new) result }
    ensures held { F.told folder.new ≡ F.told folder.old }
    ensures writes { F.write_faults folder.new ≡ F.write_faults folder.old }
    ensures reach { F.reach folder.new ≡ F.reach folder.old }
    ensures calls { MakesCalls (reads_unless passed file.now) (F.schedule folder.old) (F.schedule folder.new) }
{
    if passed {
        return Ok(None);
    }
    bytes_of(alloc, folder, file)
}

// Reads the state files in `.rkr`, which is a directory, by what is listed there; the database only where it isn't passed
// over, and a sealed list only where it stands.
fn state_read<F: Folder>(
    alloc: Global,
    folder: &mut F,
    listed: Listed,
    skips_db: bool,
) -> Result<Hidden, ImportErr>
    requires listed { IfSome (F.told folder.old) (λ held. listed ≡ steps.listed_in held) }
    requires dir { IfSome (F.told folder.old) (λ held. standing held hidden_dir ≡ Some Dir) }
    requires plain { IfSome (F.told folder.old) (λ held. state_special held ≡ None) }
    ensures told { Tells (F.told folder.old) nothing_special (λ held s. s ≡ hidden_read skips_db held) result }
    ensures cause { ReadCaused (F.read_faults folder.old) (F.read_faults folder.new) result }
    ensures memory { MemoryCounted (F.memory_failures folder.old) (F.memory_failures folder.new) result }
    ensures steady { ReadSteadily (F.steady folder.old) (F.steady folder.new) result }
    ensures held { F.told folder.new ≡ F.told folder.old }
    ensures writes { F.write_faults folder.new ≡ F.write_faults folder.old }
    ensures reach { F.reach folder.new ≡ F.reach folder.old }
    ensures calls { MakesCalls (state_reads skips_db) (F.schedule folder.old) (F.schedule folder.new) }
{
    let attrs = bytes_of(alloc, folder, &attrs_file(alloc)?)?;
    let db = bytes_unless(alloc, folder, skips_db, &db_file(alloc)?)?;
    let install = bytes_unless(alloc, folder, !listed.install, &install_file(alloc)?)?;
    Ok(Hidden {
        rkr: true,
        state: State {
            db,
            attrs,
            install,
            fresh_list: listed.fresh_list,
        },
    })
}

// Looks at `.rkr`, and at the state files in it, by what is listed in the root; and which of them stand there. No file is
// read.
fn look_at_hidden<F: Folder>(
    alloc: Global,
    folder: &mut F,
    items: &[Item],
) -> Result<Option<Listed>, ImportErr>
    requires { ListsRoot (F.told folder.old) items.now }
    ensures look { Tells (F.told folder.old) hidden_special (λ held listed. listed ≡ steps.hidden_listed held) result }
    ensures cause { ReadCaused (F.read_faults folder.old) (F.read_faults folder.new) result }
    ensures memory { MemoryCounted (F.memory_failures folder.old) (F.memory_failures folder.new) result }
    ensures steady { ReadSteadily (F.steady folder.old) (F.steady folder.new) result }
    ensures held { F.told folder.new ≡ F.told folder.old }
    ensures writes { F.write_faults folder.new ≡ F.write_faults folder.old }
    ensures calls { MakesCalls (lists hidden_dir) (F.schedule folder.old) (F.schedule folder.new) }
{
    match named(items, HIDDEN) {
        None => Ok(None),
        Some(Item::Dir(_)) => match hidden_listed(alloc, folder) {
            Ok(listed) => Ok(Some(listed)),
            Err(e) => Err(e),
        },
        Some(Item::File(_)) => Err(ImportErr::Special(hidden_dir(alloc)?)),
        Some(Item::Special(_)) => Err(ImportErr::Special(hidden_dir(alloc)?)),
        Some(Item::Odd) => Err(ImportErr::Special(hidden_dir(alloc)?)),
    }
}

/// Whether `.rkr` stands, and its state files, by what is listed there, where none of them is special. The database is
/// read only where it isn't passed over.
pub(crate) fn state_listed<F: Folder>(
    alloc: Global,
    folder: &mut F,
    listed: Option<Listed>,
    skips_db: bool,
) -> Result<Hidden, ImportErr>
    requires listed { IfSome (F.told folder.old) (λ held. listed ≡ steps.hidden_listed held) }
    requires plain { IfSome (F.told folder.old) (λ held. hidden_special held ≡ None) }
    ensures told { Tells (F.told folder.old) nothing_special (λ held s. s ≡ hidden_read skips_db held) result }
    ensures cause { ReadCaused (F.read_faults folder.old) (F.read_faults folder.new) result }
    ensures memory { MemoryCounted (F.memory_failures folder.old) (F.memory_failures folder.new) result }
    ensures steady { ReadSteadily (F.steady folder.old) (F.steady folder.new) result }
    ensures held { F.told folder.new ≡ F.told folder.old }
    ensures writes { F.write_faults folder.new ≡ F.write_faults folder.old }
    ensures reach { F.reach folder.new ≡ F.reach folder.old }
    ensures calls { MakesCalls (state_reads skips_db) (F.schedule folder.old) (F.schedule folder.new) }
    ensures looks { LooksInOrder (F.told folder.old) (state_looks skips_db) (F.schedule folder.old) (F.schedule folder.new) }
{
    match listed {
        None => Ok(nothing_found()),
        Some(listed) => state_read(alloc, folder, listed, skips_db),
    }
}

/// The state files of a folder. Nothing else of it is looked at.
pub fn state<F: Folder>(alloc: Global, folder: &mut F) -> Result<Hidden, ImportErr>
    ensures told { Tells (F.told folder.old) hidden_special (λ held s. s ≡ state_of held) result }

    // A read fault comes only where the count of them rose.
    ensures cause { ReadCaused (F.read_faults folder.old) (F.read_faults folder.new) result }
    ensures memory { MemoryCounted (F.memory_failures folder.old) (F.memory_failures folder.new) result }
    ensures steady { ReadSteadily (F.steady folder.old) (F.steady folder.new) result }
    ensures held { F.told folder.new ≡ F.told folder.old }
    ensures writes { F.write_faults folder.new ≡ F.write_faults folder.old }

    // The root and `.rkr` are listed, and then the files read; nothing else is asked.
    ensures calls { MakesCalls all_state_looks (F.schedule folder.old) (F.schedule folder.new) }
{
    let items = list(alloc, folder, &Path::root(alloc)?)?;
    let listed = look_at_hidden(alloc, folder, &items)?;
    state_listed(alloc, folder, listed, false)
}

/// Whether a folder has a database. The state files are looked at by the listings of the root and of `.rkr` alone: no file
/// is read, however large.
pub fn has_database<F: Folder>(alloc: Global, folder: &mut F) -> Result<bool, ImportErr>
    ensures told { Tells (F.told folder.old) hidden_special (λ held stands. stands ≡ has_database held) result }

    // A read fault comes only where the count of them rose.
    ensures cause { ReadCaused (F.read_faults folder.old) (F.read_faults folder.new) result }
    ensures memory { MemoryCounted (F.memory_failures folder.old) (F.memory_failures folder.new) result }
    ensures steady { ReadSteadily (F.steady folder.old) (F.steady folder.new) result }
    ensures held { F.told folder.new ≡ F.told folder.old }
    ensures writes { F.write_faults folder.new ≡ F.write_faults folder.old }

    // The root and `.rkr` are listed; nothing else is asked.
    ensures calls { MakesCalls state_listings (F.schedule folder.old) (F.schedule folder.new) }
{
    let items = list(alloc, folder, &Path::root(alloc)?)?;
    let listed = look_at_hidden(alloc, folder, &items)?;
    Ok(has_db(listed))
}

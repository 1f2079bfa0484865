// What the listing of `.rkr` tells of its state files.
ghost use Rattle.std.specs.Prelude.{◌≡◌, IfOk, is_some, option_copied};
ghost use Rattle.rk_folder.specs.Told.{can_list};
ghost use Rattle.rk_folder.specs.Hidden as paths;
ghost use Rattle.rk_folder.specs.Specials.{state_special};
ghost use Rattle.rk_folder.specs.Import.{Tells, ReadCaused, MemoryCounted, ReadSteadily};
ghost use Rattle.rk_folder.specs.Looks.{lists};
ghost use Rattle.rk_folder.specs.Schedule.{MakesCalls};
ghost use Rattle.rk_folder.specs.Steps as steps;
ghost use Rattle.rk_folder.specs.Steps.{MayCall};

use crate::hidden_files::{
    ATTRS, DB, FRESH_LIST, INSTALL, attrs_file, db_file, fresh_list_file, hidden_dir, install_file,
};
use crate::importing::{list, named};
use crate::{Folder, ImportErr, Item};
use rk_base::{NoMemory, Path};
use std::alloc::Global;

// A state file.
#[derive(Clone, Copy, Debug, PartialEq, Eq)]
enum StateFile {
    Attrs,
    Db,
    Install,
    FreshList,
}

/// Which of these state files stand.
#[derive(Clone, Copy, Debug, PartialEq, Eq)]
pub(crate) struct Listed {
    pub db: bool,
    pub install: bool,
    pub fresh_list: bool,
}

// Something is listed, and it is no file.
fn is_no_file(item: Option<&Item>) -> bool
    ensures { result ≡ steps.is_no_file (option_copied item.entry) }
{
    match item {
        None => false,
        Some(Item::File(_)) => false,
        Some(_) => true,
    }
}

// The first state file in `.rkr` that is special.
fn special_state(items: &[Item]) -> Option<StateFile>
    ensures { result ≡ steps.special_file (steps.item_named paths.attrs_name items.now) (steps.item_named paths.db_name items.now) (steps.item_named paths.install_name items.now) (steps.item_named paths.fresh_list_name items.now) }
{
    if is_no_file(named(items, ATTRS)) {
        return Some(StateFile::Attrs);
    }
    if is_no_file(named(items, DB)) {
        return Some(StateFile::Db);
    }
    if is_no_file(named(items, INSTALL)) {
        return Some(StateFile::Install);
    }
    if is_no_file(named(items, FRESH_LIST)) {
        return Some(StateFile::FreshList);
    }
    None
}

fn is_listed(item: Option<&Item>) -> bool
    ensures { result ≡ is_some (option_copied item.entry) }
{
    item.is_some()
}

// What is listed of the state files.
fn listed_among(items: &[Item]) -> Listed
    ensures { result ≡ steps.listed_among items.now }
{
    Listed {
        db: is_listed(named(items, DB)),
        install: is_listed(named(items, INSTALL)),
        fresh_list: is_listed(named(items, FRESH_LIST)),
    }
}

fn path_of(alloc: Global, file: StateFile) -> Result<Path, NoMemory>
    ensures { IfOk result (λ path. path ≡ steps.file_path file) }
{
    match file {
        StateFile::Attrs => attrs_file(alloc),
        StateFile::Db => db_file(alloc),
        StateFile::Install => install_file(alloc),
        StateFile::FreshList => fresh_list_file(alloc),
    }
}

/// Which state files stand in `.rkr`, by its listing: no file is read.
pub(crate) fn hidden_listed<F: Folder>(alloc: Global, folder: &mut F) -> Result<Listed, ImportErr>
    requires { MayCall (F.told folder.old) (can_list paths.hidden_dir) }
    ensures listed { Tells (F.told folder.old) state_special (λ held it. it ≡ steps.listed_in held) result }
    ensures cause { ReadCaused (F.read_faults folder.old) (F.read_faults folder.new) result }
    ensures memory { MemoryCounted (F.memory_failures folder.old) (F.memory_failures folder.new) result }
    ensures steady { ReadSteadily (F.steady folder.old) (F.steady folder.new) result }
    ensures held { F.told folder.new ≡ F.told folder.old }
    ensures writes { F.write_faults folder.new ≡ F.write_faults folder.old }
    ensures reach { F.reach folder.new ≡ F.reach folder.old }
    ensures calls { MakesCalls (lists paths.hidden_dir) (F.schedule folder.old) (F.schedule folder.new) }
{
    let items = list(alloc, folder, &hidden_dir(alloc)?)?;
    match special_state(&items) {
        None => Ok(listed_among(&items)),
        Some(file) => Err(ImportErr::Special(path_of(alloc, file)?)),
    }
}

/// Looks at the state files in `.rkr`.
pub(crate) fn look_at_state<F: Folder>(alloc: Global, folder: &mut F) -> Result<(), ImportErr>
    requires { MayCall (F.told folder.old) (can_list paths.hidden_dir) }
    ensures look { Tells (F.told folder.old) state_special (λ held it. Unit {0}) result }
    ensures cause { ReadCaused (F.read_faults folder.old) (F.read_faults folder.new) result }
    ensures memory { MemoryCounted (F.memory_failures folder.old) (F.memory_failures folder.new) result }
    ensures steady { ReadSteadily (F.steady folder.old) (F.steady folder.new) result }
    ensures held { F.told folder.new ≡ F.told folder.old }
    ensures writes { F.write_faults folder.new ≡ F.write_faults folder.old }
    ensures reach { F.reach folder.new ≡ F.reach folder.old }
    ensures calls { MakesCalls (lists paths.hidden_dir) (F.schedule folder.old) (F.schedule folder.new) }
{
    let _listed = hidden_listed(alloc, folder)?;
    Ok(())
}

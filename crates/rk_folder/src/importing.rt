// What a folder holds for a build.
ghost use Rattle.std.specs.Prelude.{◌≡◌, ◌≤◌, ◌+◌, ◌-◌, IfOk, OnOk, is_some, option_copied, flat_map, true, false};
ghost use Rattle.std.specs.FinMap.{get};
ghost use Rattle.std.specs.List.{list_all, list_any};
ghost use Rattle.rk_base.specs.Text as text;
ghost use Rattle.rk_base.specs.Text.{depth, is_within, join, same_text};
ghost use Rattle.rk_base.specs.Canonical.{is_canonical, is_name};
ghost use Rattle.rk_tree.specs.Entries as tree;
ghost use Rattle.rk_tree.specs.Entries.{IsWholeSnapshot};
ghost use Rattle.rk_folder.specs.Told as told;
ghost use Rattle.rk_folder.specs.Hidden.{hidden_dir, attrs_name, db_name};
ghost use Rattle.rk_folder.specs.Specials.{first_special, state_special};
ghost use Rattle.rk_folder.specs.Import.{Tells, ReadCaused, MemoryCounted, ReadSteadily, has_database};
ghost use Rattle.rk_folder.specs.Looks as looks;
ghost use Rattle.rk_folder.specs.Looks.{LooksInOrder, lists, reads};
ghost use Rattle.rk_folder.specs.Schedule.{MakesCalls};
ghost use Rattle.rk_folder.specs.Steps as steps;
ghost use Rattle.rk_folder.specs.Steps.{MayCall};
ghost use Rattle.rk_folder.specs.declared.folder.Item.TheVariants as item;
ghost use Rattle.rk_folder.specs.declared.importing.ImportErr.TheVariants as err;

use crate::hidden_listing::look_at_state;
use crate::{Folder, FolderErr, Got, Item};
use rk_attrs::{DIR_MODE, FILE_MODE};
use rk_base::{Bytes, Name, NoMemory, Path};
use rk_tree::{Content, Entry, SnapshotBuilder};
use std::alloc::Global;

/// Why a folder wasn't imported.
#[derive(Debug, Drop)]
pub enum ImportErr {
    /// At this path stands what is no file or directory, or what is out of its place.
    Special(Path),
    ReadFault,
    NoMemory,
}

impl From<NoMemory> for ImportErr {
    ghost from_gives = { λ _ e. e ≡ err.NoMemory };

    fn from(_: NoMemory) -> ImportErr {
        ImportErr::NoMemory
    }
}

impl From<FolderErr> for ImportErr {
    ghost use Rattle.rk_folder.specs.Steps.{import_err};

    ghost from_gives = { λ f e. e ≡ import_err f };

    fn from(e: FolderErr) -> ImportErr {
        match e {
            FolderErr::Failed => ImportErr::ReadFault,
            FolderErr::NoMemory => ImportErr::NoMemory,
        }
    }
}

/// What is listed in a directory.
pub(crate) fn list<F: Folder>(
    alloc: Global,
    folder: &mut F,
    dir: &Path,
) -> Result<Vec<Item>, ImportErr>
    requires { MayCall (F.told folder.old) (told.can_list dir.now) }
    ensures items { Tells (F.told folder.old) steps.nothing_special (λ held items. items.items ≡ told.items_of held dir.now) result }
    ensures within { OnOk result (depth dir.now ≤ F.reach folder.old) }
    ensures cause { ReadCaused (F.read_faults folder.old) (F.read_faults folder.new) result }
    ensures memory { MemoryCounted (F.memory_failures folder.old) (F.memory_failures folder.new) result }
    ensures steady { ReadSteadily (F.steady folder.old) (F.steady folder.new) result }
    ensures held { F.told folder.new ≡ F.told folder.old }
    ensures writes { F.write_faults folder.new ≡ F.write_faults folder.old }
    ensures reach { F.reach folder.new ≡ F.reach folder.old }
    ensures calls { MakesCalls (lists dir.now) (F.schedule folder.old) (F.schedule folder.new) }
{
    let items = folder.list(alloc, dir)?;
    Ok(items)
}

/// The bytes of a file; `None` where nothing stands.
pub(crate) fn bytes_of<F: Folder>(
    alloc: Global,
    folder: &mut F,
    file: &Path,
) -> Result<Option<Bytes>, ImportErr>
    requires { MayCall (F.told folder.old) (told.can_read file.now) }
    ensures bytes { Tells (F.told folder.old) steps.nothing_special (λ held bytes. bytes ≡ told.bytes_in (told.standing held file.now)) result }
    ensures cause { ReadCaused (F.read_faults folder.old) (F.read_faults folder.new) result }
    ensures memory { MemoryCounted (F.memory_failures folder.old) (F.memory_failures folder.new) result }
    ensures steady { ReadSteadily (F.steady folder.old) (F.steady folder.new) result }
    ensures held { F.told folder.new ≡ F.told folder.old }
    ensures writes { F.write_faults folder.new ≡ F.write_faults folder.old }
    ensures reach { F.reach folder.new ≡ F.reach folder.old }
    ensures calls { MakesCalls (reads file.now) (F.schedule folder.old) (F.schedule folder.new) }
{
    match folder.read(alloc, file)? {
        Got::Content(bytes) => Ok(Some(bytes)),
        Got::Absent => Ok(None),
    }
}

fn is_named(name: &[u8], item: &Item) -> bool
    ensures { result ≡ steps.is_named name.now item.now }
{
    match item {
        Item::File(n) => n.as_slice() == name,
        Item::Dir(n) => n.as_slice() == name,
        Item::Special(n) => n.as_slice() == name,
        Item::Odd => false,
    }
}

/// The first item of this name.
pub fn named<'a>(items: &'a [Item], name: &[u8]) -> Option<&'a Item>
    ensures { option_copied result ≡ steps.item_named name.now items.now }
{
    for item in items {
        if is_named(name, item) {
            return Some(item);
        }
    }
    None
}

/// Whether a name is listed that is none.
pub(crate) fn has_odd(items: &[Item]) -> bool
    ensures { result ≡ list_any steps.is_odd_item items.now }
{
    items.iter().any(|item| matches!(item, Item::Odd))
}

// Whether it is the path of `.rkr`.
#[tactic(auto, unfolding(rk_base::specs::Text::join))]
fn is_hidden(path: &Path) -> bool
    ensures { result ≡ same_text path.now hidden_dir }
{
    path.text() == b"/.rkr".as_slice()
}

// Puts an entry where no directory stands. A folder lists no name twice, but only one that tells what
// it holds is held to that.
#[tactic(auto, unfolding(crate::specs::Steps::with_entry))]
fn lay(alloc: Global, snapshot: &mut SnapshotBuilder, path: Path, it: Entry) -> Result<(), NoMemory>
    ensures { OnOk result (snapshot.new ≡ steps.with_entry path (tree.node_of it) snapshot.old) }
{
    if snapshot.is_dir(alloc, &path)? {
        return Ok(());
    }
    snapshot.put(alloc, path, it)?;
    Ok(())
}

// A file of a directory, put in the snapshot. Its bytes aren't looked at.
fn take_file<F: Folder>(
    alloc: Global,
    folder: &mut F,
    dir: &Path,
    name: &Name,
    snapshot: &mut SnapshotBuilder,
) -> Result<(), ImportErr>
    requires agrees { MayCall (F.told folder.old) (λ held. steps.agrees held dir.now (item.File name.now)) }
    requires seen { is_within hidden_dir dir.now ≡ false }
    requires whole { IsWholeSnapshot snapshot.old }
    requires placed { tree.is_dir (get snapshot.old dir.now) ≡ true }
    ensures whole { OnOk result (IsWholeSnapshot snapshot.new) }
    ensures placed { OnOk result (tree.is_dir (get snapshot.new dir.now) ≡ true) }
    ensures taken { Tells (F.told folder.old) (λ held. steps.first_within held (join dir.now name.now)) (λ held it. snapshot.new ≡ steps.with_within held (join dir.now name.now) snapshot.old) result }
    ensures cause { ReadCaused (F.read_faults folder.old) (F.read_faults folder.new) result }
    ensures memory { MemoryCounted (F.memory_failures folder.old) (F.memory_failures folder.new) result }
    ensures steady { ReadSteadily (F.steady folder.old) (F.steady folder.new) result }
    ensures held { F.told folder.new ≡ F.told folder.old }
    ensures writes { F.write_faults folder.new ≡ F.write_faults folder.old }
    ensures reach { F.reach folder.new ≡ F.reach folder.old }
    ensures calls { F.schedule folder.new ≡ F.schedule folder.old }
{
    let path = dir.join(alloc, name)?;
    if is_hidden(&path) {
        return Err(ImportErr::Special(path));
    }
    let import = path.copy()?;
    lay(
        alloc,
        snapshot,
        path,
        Entry::File(FILE_MODE, Content::Unread(import)),
    )?;
    Ok(())
}

// A directory of a directory, and all that is in it, put in the snapshot; of `.rkr` only the state
// files are looked at.
#[cycle(descent)]
fn take_dir<F: Folder>(
    alloc: Global,
    folder: &mut F,
    dir: &Path,
    name: &Name,
    snapshot: &mut SnapshotBuilder,
) -> Result<(), ImportErr>
    requires agrees { MayCall (F.told folder.old) (λ held. steps.agrees held dir.now (item.Dir name.now)) }
    requires seen { is_within hidden_dir dir.now ≡ false }
    requires deep { depth dir.now ≤ F.reach folder.old }
    requires whole { IsWholeSnapshot snapshot.old }
    requires placed { tree.is_dir (get snapshot.old dir.now) ≡ true }
    ensures whole { OnOk result (IsWholeSnapshot snapshot.new) }
    ensures placed { OnOk result (tree.is_dir (get snapshot.new dir.now) ≡ true) }
    ensures taken { Tells (F.told folder.old) (λ held. steps.first_within held (join dir.now name.now)) (λ held it. snapshot.new ≡ steps.with_within held (join dir.now name.now) snapshot.old) result }
    ensures cause { ReadCaused (F.read_faults folder.old) (F.read_faults folder.new) result }
    ensures memory { MemoryCounted (F.memory_failures folder.old) (F.memory_failures folder.new) result }
    ensures steady { ReadSteadily (F.steady folder.old) (F.steady folder.new) result }
    ensures held { F.told folder.new ≡ F.told folder.old }
    ensures writes { F.write_faults folder.new ≡ F.write_faults folder.old }
    ensures reach { F.reach folder.new ≡ F.reach folder.old }
    ensures looks { LooksInOrder (F.told folder.old) (λ held. looks.item_looks (looks.looks_within (F.reach folder.old - depth dir.now) held) dir.now (item.Dir name.now)) (F.schedule folder.old) (F.schedule folder.new) }
{
    let path = dir.join(alloc, name)?;
    if is_hidden(&path) {
        return look_at_state(alloc, folder);
    }
    lay(alloc, snapshot, path.copy()?, Entry::Dir(DIR_MODE))?;
    take_all(alloc, folder, &path, snapshot)
}

/// What a listing of a directory tells of one name, put in the snapshot.
#[cycle(descent)]
pub(crate) fn take_item<F: Folder>(
    alloc: Global,
    folder: &mut F,
    dir: &Path,
    item: &Item,
    snapshot: &mut SnapshotBuilder,
) -> Result<(), ImportErr>
    requires agrees { MayCall (F.told folder.old) (λ held. steps.agrees held dir.now item.now) }
    requires seen { is_within hidden_dir dir.now ≡ false }
    requires deep { depth dir.now ≤ F.reach folder.old }
    requires whole { IsWholeSnapshot snapshot.old }
    requires placed { tree.is_dir (get snapshot.old dir.now) ≡ true }
    ensures whole { OnOk result (IsWholeSnapshot snapshot.new) }
    ensures placed { OnOk result (tree.is_dir (get snapshot.new dir.now) ≡ true) }
    ensures taken { Tells (F.told folder.old) (λ held. steps.special_in held dir.now item.now) (λ held it. snapshot.new ≡ steps.with_item held dir.now snapshot.old item.now) result }
    ensures cause { ReadCaused (F.read_faults folder.old) (F.read_faults folder.new) result }
    ensures memory { MemoryCounted (F.memory_failures folder.old) (F.memory_failures folder.new) result }
    ensures steady { ReadSteadily (F.steady folder.old) (F.steady folder.new) result }
    ensures held { F.told folder.new ≡ F.told folder.old }
    ensures writes { F.write_faults folder.new ≡ F.write_faults folder.old }
    ensures reach { F.reach folder.new ≡ F.reach folder.old }
    ensures looks { LooksInOrder (F.told folder.old) (λ held. looks.item_looks (looks.looks_within (F.reach folder.old - depth dir.now) held) dir.now item.now) (F.schedule folder.old) (F.schedule folder.new) }
{
    match item {
        Item::File(name) => take_file(alloc, folder, dir, name, snapshot),
        Item::Dir(name) => take_dir(alloc, folder, dir, name, snapshot),
        Item::Special(name) => Err(ImportErr::Special(dir.join(alloc, name)?)),
        Item::Odd => Ok(()),
    }
}

// What a listing of a directory tells, put in the snapshot, one name after another.
#[cycle(descent)]
fn take_items<F: Folder>(
    alloc: Global,
    folder: &mut F,
    dir: &Path,
    items: &[Item],
    snapshot: &mut SnapshotBuilder,
) -> Result<(), ImportErr>
    requires agrees { MayCall (F.told folder.old) (λ held. list_all (steps.agrees held dir.now) items.now) }
    requires seen { is_within hidden_dir dir.now ≡ false }
    requires deep { depth dir.now ≤ F.reach folder.old }
    requires whole { IsWholeSnapshot snapshot.old }
    requires placed { tree.is_dir (get snapshot.old dir.now) ≡ true }
    ensures whole { OnOk result (IsWholeSnapshot snapshot.new) }
    ensures placed { OnOk result (tree.is_dir (get snapshot.new dir.now) ≡ true) }
    ensures taken { Tells (F.told folder.old) (λ held. steps.first_fault (steps.special_in held dir.now) items.now) (λ held it. snapshot.new ≡ steps.with_items held dir.now snapshot.old items.now) result }
    ensures cause { ReadCaused (F.read_faults folder.old) (F.read_faults folder.new) result }
    ensures memory { MemoryCounted (F.memory_failures folder.old) (F.memory_failures folder.new) result }
    ensures steady { ReadSteadily (F.steady folder.old) (F.steady folder.new) result }
    ensures held { F.told folder.new ≡ F.told folder.old }
    ensures writes { F.write_faults folder.new ≡ F.write_faults folder.old }
    ensures reach { F.reach folder.new ≡ F.reach folder.old }
    ensures looks { LooksInOrder (F.told folder.old) (λ held. flat_map (looks.item_looks (looks.looks_within (F.reach folder.old - depth dir.now) held) dir.now) items.now) (F.schedule folder.old) (F.schedule folder.new) }
{
    for item in items {
        take_item(alloc, folder, dir, item, snapshot)?;
    }
    Ok(())
}

// All that is in a directory, put in the snapshot.
#[cycle(descent)]
fn take_all<F: Folder>(
    alloc: Global,
    folder: &mut F,
    dir: &Path,
    snapshot: &mut SnapshotBuilder,
) -> Result<(), ImportErr>
    requires lists { MayCall (F.told folder.old) (told.can_list dir.now) }
    requires canonical { is_canonical dir.now ≡ true }
    requires seen { is_within hidden_dir dir.now ≡ false }
    requires whole { IsWholeSnapshot snapshot.old }
    requires placed { tree.is_dir (get snapshot.old dir.now) ≡ true }
    ensures whole { OnOk result (IsWholeSnapshot snapshot.new) }
    ensures placed { OnOk result (tree.is_dir (get snapshot.new dir.now) ≡ true) }
    ensures taken { Tells (F.told folder.old) (λ held. steps.first_within held dir.now) (λ held it. snapshot.new ≡ steps.with_within held dir.now snapshot.old) result }
    ensures cause { ReadCaused (F.read_faults folder.old) (F.read_faults folder.new) result }
    ensures memory { MemoryCounted (F.memory_failures folder.old) (F.memory_failures folder.new) result }
    ensures steady { ReadSteadily (F.steady folder.old) (F.steady folder.new) result }
    ensures held { F.told folder.new ≡ F.told folder.old }
    ensures writes { F.write_faults folder.new ≡ F.write_faults folder.old }
    ensures reach { F.reach folder.new ≡ F.reach folder.old }
    ensures looks { LooksInOrder (F.told folder.old) (λ held. looks.looks_within (F.reach folder.old + 1 - depth dir.now) held dir.now) (F.schedule folder.old) (F.schedule folder.new) }
{
    let items = list(alloc, folder, dir)?;
    if has_odd(&items) {
        return Err(ImportErr::Special(dir.copy()?));
    }
    take_items(alloc, folder, dir, &items, snapshot)
}

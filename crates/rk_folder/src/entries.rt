// The files and directories of a folder, by what is listed in its root.
ghost use Rattle.std.specs.Prelude.{◌≡◌, ◌-◌, IfOk, OnOk, IfSome, None, flat_map, option_copied, true};
ghost use Rattle.std.specs.FinMap.{get};
ghost use Rattle.std.specs.List.{list_all};
ghost use Rattle.rk_base.specs.Text as text;
ghost use Rattle.rk_base.specs.Text.{depth};
ghost use Rattle.rk_tree.specs.Entries as tree;
ghost use Rattle.rk_tree.specs.Entries.{IsWholeSnapshot};
ghost use Rattle.rk_folder.specs.Specials.{first_special};
ghost use Rattle.rk_folder.specs.Import.{Tells, ReadCaused, MemoryCounted, ReadSteadily, listed_of};
ghost use Rattle.rk_folder.specs.Looks as looks;
ghost use Rattle.rk_folder.specs.Looks.{LooksInOrder};
ghost use Rattle.rk_folder.specs.Steps as steps;
ghost use Rattle.rk_folder.specs.Steps.{MayCall};

use crate::hidden_files::HIDDEN;
use crate::hidden_listing::{Listed, hidden_listed};
use crate::importing::{has_odd, take_item};
use crate::{Folder, ImportErr, Item};
use rk_attrs::DIR_MODE;
use rk_base::{NoMemory, Path};
use rk_tree::{Entry, Snapshot, SnapshotBuilder};
use std::alloc::Global;

fn root_entry(alloc: Global) -> Result<SnapshotBuilder, NoMemory>
    ensures entry { IfOk result (λ s. s ≡ steps.root_entry) }
    ensures whole { IfOk result IsWholeSnapshot }
    ensures placed { IfOk result (λ s. tree.is_dir (get s text.root) ≡ true) }
{
    let mut snapshot = SnapshotBuilder::new(alloc);
    snapshot.put(alloc, Path::root(alloc)?, Entry::Dir(DIR_MODE))?;
    Ok(snapshot)
}

// Whether it is `.rkr`, and a directory.
fn is_hidden_dir(item: &Item) -> bool
    ensures { result ≡ steps.is_hidden_dir item.now }
{
    match item {
        Item::File(_) => false,
        Item::Dir(name) => name.as_slice() == HIDDEN,
        Item::Special(_) => false,
        Item::Odd => false,
    }
}

// The latter, where there is one.
fn newer(old: Option<Listed>, it: Option<Listed>) -> Option<Listed>
    ensures { result ≡ steps.newer old it }
{
    match it {
        None => old,
        Some(_) => it,
    }
}

// An item of the root, put in the snapshot. Of `.rkr`, where it is a directory, what its listing tells.
fn take_top<F: Folder>(
    alloc: Global,
    folder: &mut F,
    root: &Path,
    item: &Item,
    snapshot: &mut SnapshotBuilder,
) -> Result<Option<Listed>, ImportErr>
    requires root { root.now ≡ text.root }
    requires agrees { MayCall (F.told folder.old) (λ held. steps.agrees held root.now item.now) }
    requires whole { IsWholeSnapshot snapshot.old }
    requires placed { tree.is_dir (get snapshot.old root.now) ≡ true }
    ensures whole { OnOk result (IsWholeSnapshot snapshot.new) }
    ensures placed { OnOk result (tree.is_dir (get snapshot.new root.now) ≡ true) }
    ensures taken { Tells (F.told folder.old) (λ held. steps.special_in held root.now item.now) (λ held it. snapshot.new ≡ steps.with_item held root.now snapshot.old item.now) result }
    ensures listed { IfOk result (λ listed. IfSome (F.told folder.old) (λ held. listed ≡ steps.listed_at held item.now)) }
    ensures cause { ReadCaused (F.read_faults folder.old) (F.read_faults folder.new) result }
    ensures memory { MemoryCounted (F.memory_failures folder.old) (F.memory_failures folder.new) result }
    ensures steady { ReadSteadily (F.steady folder.old) (F.steady folder.new) result }
    ensures held { F.told folder.new ≡ F.told folder.old }
    ensures writes { F.write_faults folder.new ≡ F.write_faults folder.old }
    ensures reach { F.reach folder.new ≡ F.reach folder.old }
    ensures looks { LooksInOrder (F.told folder.old) (λ held. looks.item_looks (looks.looks_within (F.reach folder.old - depth root.now) held) root.now item.now) (F.schedule folder.old) (F.schedule folder.new) }
{
    if is_hidden_dir(item) {
        return match hidden_listed(alloc, folder) {
            Ok(listed) => Ok(Some(listed)),
            Err(e) => Err(e),
        };
    }
    match take_item(alloc, folder, root, item, snapshot) {
        Ok(()) => Ok(None),
        Err(e) => Err(e),
    }
}

// What is listed in the root, put in the snapshot, one name after another; and what is listed in `.rkr`, where that is a
// directory.
fn take_root<F: Folder>(
    alloc: Global,
    folder: &mut F,
    root: &Path,
    items: &[Item],
    snapshot: &mut SnapshotBuilder,
) -> Result<Option<Listed>, ImportErr>
    requires root { root.now ≡ text.root }
    requires agrees { MayCall (F.told folder.old) (λ held. list_all (steps.agrees held root.now) items.now) }
    requires whole { IsWholeSnapshot snapshot.old }
    requires placed { tree.is_dir (get snapshot.old root.now) ≡ true }
    ensures whole { OnOk result (IsWholeSnapshot snapshot.new) }
    ensures taken { Tells (F.told folder.old) (λ held. steps.first_fault (steps.special_in held root.now) items.now) (λ held it. snapshot.new ≡ steps.with_items held root.now snapshot.old items.now) result }
    ensures listed { IfOk result (λ listed. IfSome (F.told folder.old) (λ held. listed ≡ steps.listed_by held None items.now)) }
    ensures cause { ReadCaused (F.read_faults folder.old) (F.read_faults folder.new) result }
    ensures memory { MemoryCounted (F.memory_failures folder.old) (F.memory_failures folder.new) result }
    ensures steady { ReadSteadily (F.steady folder.old) (F.steady folder.new) result }
    ensures held { F.told folder.new ≡ F.told folder.old }
    ensures writes { F.write_faults folder.new ≡ F.write_faults folder.old }
    ensures reach { F.reach folder.new ≡ F.reach folder.old }
    ensures looks { LooksInOrder (F.told folder.old) (λ held. flat_map (looks.item_looks (looks.looks_within (F.reach folder.old - depth root.now) held) root.now) items.now) (F.schedule folder.old) (F.schedule folder.new) }
{
    let mut listed = None;
    for item in items {
        let it = take_top(alloc, folder, root, item, snapshot)?;
        listed = newer(listed, it);
    }
    Ok(listed)
}

/// What is found by what is listed in the root.
#[derive(Drop)]
pub(crate) struct RootEntries {
    /// The files and directories outside `.rkr`.
    pub entries: Snapshot,
    /// What is listed in `.rkr`, where that is a directory.
    pub listed: Option<Listed>,
}

/// The files and directories outside `.rkr`, a file with the mode 0644 and a directory with 0755, by what is
/// listed in the root. What is special, or out of its place in `.rkr`, is told where it is met.
pub(crate) fn entries_listed<F: Folder>(
    alloc: Global,
    folder: &mut F,
    items: &[Item],
) -> Result<RootEntries, ImportErr>
    requires { steps.ListsRoot (F.told folder.old) items.now }
    ensures told { Tells (F.told folder.old) first_special (λ held it. (it.entries ≡ listed_of held) × (it.listed ≡ steps.hidden_listed held)) result }
    ensures whole { IfOk result (λ it. IsWholeSnapshot it.entries) }
    ensures cause { ReadCaused (F.read_faults folder.old) (F.read_faults folder.new) result }
    ensures memory { MemoryCounted (F.memory_failures folder.old) (F.memory_failures folder.new) result }
    ensures steady { ReadSteadily (F.steady folder.old) (F.steady folder.new) result }
    ensures held { F.told folder.new ≡ F.told folder.old }
    ensures writes { F.write_faults folder.new ≡ F.write_faults folder.old }
    ensures reach { F.reach folder.new ≡ F.reach folder.old }
    ensures looks { LooksInOrder (F.told folder.old) (λ held. flat_map (looks.item_looks (looks.looks_within (F.reach folder.old) held) text.root) items.now) (F.schedule folder.old) (F.schedule folder.new) }
{
    let root = Path::root(alloc)?;
    if has_odd(items) {
        return Err(ImportErr::Special(root));
    }
    let mut entries = root_entry(alloc)?;
    match take_root(alloc, folder, &root, items, &mut entries) {
        Ok(listed) => {
            let entries = entries.finish(alloc)?;
            Ok(RootEntries { entries, listed })
        }
        Err(e) => Err(e),
    }
}

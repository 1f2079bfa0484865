// What a folder in memory holds: the rows of its map, and the directories that hold an odd name.
ghost use Rattle.std.specs.Prelude.{◌≡◌, ◌≤◌, IfOk, OnOk, OnErr, option_copied, Some, true};
ghost use Rattle.std.specs.FinMap.{entries};
ghost use Rattle.std.specs.List.{filter_map};
ghost use Rattle.rk_base.specs.Text.{parent};
ghost use Rattle.rk_base.specs.Canonical.{is_canonical};
ghost use Rattle.rk_tree.specs.Rows.{map_of};
ghost use Rattle.rk_folder.specs.Told as told;
ghost use Rattle.rk_folder.specs.Calls.{Damages};
ghost use Rattle.rk_folder.specs.Schedule.{damaged};
ghost use Rattle.rk_folder.specs.Whole.{IsWhole};
ghost use Rattle.rk_folder.specs.declared.folder.Standing.TheVariants.{File, Dir, Special};

use crate::{Item, Standing};
use rk_base::{Bytes, Name, NoMemory, Path};
use std::alloc::Global;
use std::collections::BTreeMap;
use std::marker::Model;

#[derive(Drop)]
pub(crate) struct HeldRows {
    rows: BTreeMap<Path, Standing>,
    odd: Vec<Path>,
}

impl Model for HeldRows {
    ghost use Rattle.std.specs.Prelude.{List, refl};
    ghost use Rattle.std.specs.FinMap as map;
    ghost use Rattle.std.specs.Coded.{code_by, coded×, coded_list, coded_ℕ};
    ghost use Rattle.rk_base.specs.Text.{Text};
    ghost use Rattle.rk_tree.specs.Rows.{map_of};
    ghost use Rattle.rk_folder.specs.Told.{Held, Places};
    ghost use Rattle.rk_folder.specs.contracts.folder.Standing as it;

    ghost Value = { Held };

    ghost coded = { code_by (Places × List Text) (coded× (map.code (coded_list coded_ℕ) it.the_row.coded) (coded_list (coded_list coded_ℕ))) (λ h. (h.places, h.odd)) (λ p. record { places = p.0; odd = p.1 }) (λ _. refl) };

    ghost view = { λ h. record { places = map_of h.rows.entries; odd = h.odd.items } };
}

fn is_file(it: Option<&Standing>) -> bool
    ensures { result ≡ told.is_file (option_copied it.entry) }
{
    matches!(it, Some(Standing::File(_)))
}

fn is_dir(it: Option<&Standing>) -> bool
    ensures { result ≡ told.is_dir (option_copied it.entry) }
{
    matches!(it, Some(Standing::Dir))
}

fn can_hold(it: Option<&Standing>, in_dir: bool) -> bool
    ensures { result ≡ told.can_hold (option_copied it.entry) in_dir }
{
    match it {
        None => in_dir,
        Some(Standing::File(_)) => true,
        Some(_) => false,
    }
}

fn item_of(name: Name, it: &Standing) -> Item
    ensures { result ≡ told.item_of name it.now }
{
    match it {
        Standing::File(_) => Item::File(name),
        Standing::Dir => Item::Dir(name),
        Standing::Special => Item::Special(name),
    }
}

fn item_in(dir: &Path, path: &Path, it: &Standing) -> Result<Option<Item>, NoMemory>
    ensures { IfOk result (λ item. item ≡ told.item_in dir.now (path.now, it.now)) }
{
    if !path.is_in(dir) {
        return Ok(None);
    }
    match path.last()? {
        None => Ok(None),
        Some(name) => Ok(Some(item_of(name, it))),
    }
}

fn rows_in(
    alloc: Global,
    rows: &BTreeMap<Path, Standing>,
    dir: &Path,
) -> Result<Vec<Item>, NoMemory>
    ensures { IfOk result (λ items. items.items ≡ filter_map (told.item_in dir.now) (entries (map_of rows.now.entries))) }
{
    let mut items = Vec::new(alloc);
    for (path, it) in rows {
        if let Some(item) = item_in(dir, path, it)? {
            items.push(item)?;
        }
    }
    Ok(items)
}

impl HeldRows {
    /// The root, and nothing in it.
    pub(crate) fn new(alloc: Global) -> Result<HeldRows, NoMemory>
        ensures held { IfOk result (λ h. h ≡ told.root_alone) }
        ensures whole { IfOk result IsWhole }
    {
        let mut held = HeldRows {
            rows: BTreeMap::new(alloc),
            odd: Vec::new(alloc),
        };
        let root = Path::root(alloc)?;
        held.put(root, Standing::Dir)?;
        Ok(held)
    }

    /// What stands at a path.
    pub(crate) fn at(&self, path: &Path) -> Option<&Standing>
        ensures { option_copied result ≡ told.standing self.now path.now }
    {
        self.rows.get(path)
    }

    /// The bytes of the file at a path.
    pub(crate) fn bytes_at(&self, file: &Path) -> Result<Option<Bytes>, NoMemory>
        ensures { IfOk result (λ bytes. bytes ≡ told.bytes_in (told.standing self.now file.now)) }
    {
        match self.at(file) {
            Some(Standing::File(bytes)) => Ok(Some(bytes.copy()?)),
            Some(Standing::Dir) => Ok(None),
            Some(Standing::Special) => Ok(None),
            None => Ok(None),
        }
    }

    fn put(&mut self, path: Path, it: Standing) -> Result<(), NoMemory>
        ensures ok { OnOk result (self.new ≡ told.with_standing path it self.old) }
        ensures err { OnErr result (self.new ≡ self.old) }
    {
        self.rows.insert(path, it)?;
        Ok(())
    }

    fn take(&mut self, path: &Path)
        ensures { self.new ≡ told.without path.now self.old }
    {
        let _ = self.rows.remove(path);
    }

    fn is_odd(&self, dir: &Path) -> bool
        ensures { result ≡ told.is_odd dir.now self.now.odd }
    {
        self.odd.iter().any(|odd| *odd == *dir)
    }

    /// What a listing of this directory tells.
    pub(crate) fn items(&self, alloc: Global, dir: &Path) -> Result<Vec<Item>, NoMemory>
        ensures { IfOk result (λ items. items.items ≡ told.items_of self.now dir.now) }
    {
        let mut items = rows_in(alloc, &self.rows, dir)?;
        if self.is_odd(dir) {
            items.push(Item::Odd)?;
        }
        Ok(items)
    }

    // Which calls what it holds allows.

    pub(crate) fn can_list(&self, dir: &Path) -> bool
        ensures { result ≡ told.can_list dir.now self.now }
    {
        is_dir(self.at(dir))
    }

    pub(crate) fn can_read(&self, file: &Path) -> bool
        ensures { result ≡ told.can_read file.now self.now }
    {
        can_hold(self.at(file), true)
    }

    fn is_below_dir(&self, path: &Path) -> Result<bool, NoMemory>
        ensures { IfOk result (λ b. b ≡ told.is_dir (told.standing self.now (parent path.now))) }
    {
        let parent = path.parent()?;
        Ok(is_dir(self.at(&parent)))
    }

    pub(crate) fn can_write(&self, file: &Path) -> Result<bool, NoMemory>
        ensures { IfOk result (λ b. b ≡ told.can_write file.now self.now) }
    {
        let in_dir = self.is_below_dir(file)?;
        Ok(can_hold(self.at(file), in_dir))
    }

    pub(crate) fn can_make_dir(&self, dir: &Path) -> Result<bool, NoMemory>
        ensures { IfOk result (λ b. b ≡ told.can_make_dir dir.now self.now) }
    {
        let in_dir = self.is_below_dir(dir)?;
        Ok(self.at(dir).is_none() && in_dir)
    }

    pub(crate) fn can_remove_file(&self, file: &Path) -> bool
        ensures { result ≡ told.can_remove_file file.now self.now }
    {
        is_file(self.at(file))
    }

    pub(crate) fn can_remove_dir(&self, alloc: Global, dir: &Path) -> Result<bool, NoMemory>
        ensures { IfOk result (λ b. b ≡ told.can_remove_dir dir.now self.now) }
    {
        let items = self.items(alloc, dir)?;
        Ok(self.can_list(dir) && !dir.is_root() && items.is_empty())
    }

    pub(crate) fn can_rename(&self, from: &Path, to: &Path) -> Result<bool, NoMemory>
        ensures { IfOk result (λ b. b ≡ told.can_rename from.now to.now self.now) }
    {
        let writable = self.can_write(to)?;
        Ok(self.can_remove_file(from) && writable)
    }

    // What these calls leave.

    pub(crate) fn put_file(
        &mut self,
        alloc: Global,
        file: &Path,
        bytes: &[u8],
    ) -> Result<(), NoMemory>
        requires whole { IsWhole self.old }
        requires allowed { told.can_write file.now self.old ≡ true }
        ensures whole { IsWhole self.new }
        ensures ok { OnOk result (self.new ≡ told.with_standing file.now (File bytes.now) self.old) }
        ensures err { OnErr result (self.new ≡ self.old) }
    {
        let path = file.copy()?;
        let bytes = Bytes::from_slice(alloc, bytes)?;
        self.put(path, Standing::File(bytes))?;
        Ok(())
    }

    /// What a write that fails leaves: these bytes, or all as it was.
    pub(crate) fn spoil(
        &mut self,
        alloc: Global,
        file: &Path,
        left: Option<&Bytes>,
    ) -> Result<(), NoMemory>
        requires whole { IsWhole self.old }
        requires allowed { told.can_write file.now self.old ≡ true }
        ensures whole { IsWhole self.new }
        ensures ok { OnOk result (Some self.new ≡ damaged file.now (option_copied left.entry) (Some self.old)) }
        ensures damage { OnOk result (Damages file.now true (Some self.old) (Some self.new)) }
        ensures err { OnErr result (self.new ≡ self.old) }
    {
        match left {
            None => Ok(()),
            Some(left) => {
                self.put_file(alloc, file, left.as_slice())?;
                Ok(())
            }
        }
    }

    pub(crate) fn put_dir(&mut self, dir: &Path) -> Result<(), NoMemory>
        requires whole { IsWhole self.old }
        requires allowed { told.can_make_dir dir.now self.old ≡ true }
        ensures whole { IsWhole self.new }
        ensures ok { OnOk result (self.new ≡ told.with_standing dir.now Dir self.old) }
        ensures err { OnErr result (self.new ≡ self.old) }
    {
        let path = dir.copy()?;
        self.put(path, Standing::Dir)?;
        Ok(())
    }

    pub(crate) fn put_special(&mut self, path: &Path) -> Result<(), NoMemory>
        requires whole { IsWhole self.old }
        requires allowed { told.can_write path.now self.old ≡ true }
        ensures whole { IsWhole self.new }
        ensures ok { OnOk result (self.new ≡ told.with_standing path.now Special self.old) }
        ensures err { OnErr result (self.new ≡ self.old) }
    {
        let path = path.copy()?;
        self.put(path, Standing::Special)?;
        Ok(())
    }

    pub(crate) fn take_file(&mut self, file: &Path)
        requires whole { IsWhole self.old }
        requires allowed { told.can_remove_file file.now self.old ≡ true }
        ensures whole { IsWhole self.new }
        ensures taken { self.new ≡ told.without file.now self.old }
    {
        self.take(file)
    }

    pub(crate) fn take_dir(&mut self, dir: &Path)
        requires whole { IsWhole self.old }
        requires allowed { told.can_remove_dir dir.now self.old ≡ true }
        ensures whole { IsWhole self.new }
        ensures taken { self.new ≡ told.without dir.now self.old }
    {
        self.take(dir)
    }

    pub(crate) fn move_file(
        &mut self,
        alloc: Global,
        from: &Path,
        to: &Path,
    ) -> Result<(), NoMemory>
        requires whole { IsWhole self.old }
        requires allowed { told.can_rename from.now to.now self.old ≡ true }
        ensures whole { IsWhole self.new }
        ensures ok { OnOk result (self.new ≡ told.renamed from.now to.now self.old) }
        ensures err { OnErr result (self.new ≡ self.old) }
    {
        if from.same(to) {
            return Ok(());
        }
        match self.bytes_at(from)? {
            None => Ok(()),
            Some(bytes) => {
                self.put_file(alloc, to, bytes.as_slice())?;
                self.take_file(from);
                Ok(())
            }
        }
    }

    pub(crate) fn mark_odd(&mut self, dir: &Path) -> Result<(), NoMemory>
        requires whole { IsWhole self.old }
        requires allowed { told.can_list dir.now self.old ≡ true }
        ensures whole { IsWhole self.new }
        ensures ok { OnOk result (self.new ≡ told.with_odd dir.now self.old) }
        ensures err { OnErr result (self.new ≡ self.old) }
    {
        let dir = dir.copy()?;
        self.odd.push(dir)?;
        Ok(())
    }
}

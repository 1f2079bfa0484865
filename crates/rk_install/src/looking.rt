// What stands at a path, as listings tell it.
ghost use Rattle.std.specs.Prelude.{◌≡◌, IfSome, option_copied, false, true};
ghost use Rattle.rk_base.specs.Canonical as base;
ghost use Rattle.rk_base.specs.Canonical.{is_canonical};
ghost use Rattle.rk_base.specs.Text.{is_root, parent};
ghost use Rattle.rk_folder.specs.Told.{bytes_in, can_list, can_read, items_of, standing};
ghost use Rattle.rk_folder.specs.Looks.{lists, reads};
ghost use Rattle.rk_folder.specs.Schedule.{MakesCalls};
ghost use Rattle.rk_install.specs.Looks.{Tells, ReadCaused, MemoryCounted, Steadily, content_of, is_dir_place, is_file_place, is_free_place, place_by, place_of};
ghost use Rattle.rk_install.specs.declared.looking.LookErr.TheVariants as err;

use rk_base::{Bytes, NoMemory, Path};
use rk_folder::{Folder, FolderErr, Got, Item, named};
use std::alloc::Global;

/// Why a look told nothing.
#[derive(Clone, Copy, Debug, PartialEq, Eq)]
pub(crate) enum LookErr {
    /// A list or a read was a fault.
    ReadFault,
    NoMemory,
}

impl From<NoMemory> for LookErr {
    ghost from_gives = { λ _ e. e ≡ err.NoMemory };

    fn from(_: NoMemory) -> LookErr {
        LookErr::NoMemory
    }
}

/// What is found at a path.
#[derive(Clone, Copy, Debug, PartialEq, Eq)]
pub(crate) enum Place {
    /// Nothing, and no directory that could hold it.
    Nowhere,
    /// Nothing, in a directory.
    Free,
    File,
    Dir,
    Special,
}

impl Place {
    pub(crate) fn is_dir(self) -> bool
        ensures { result ≡ is_dir_place self }
    {
        match self {
            Place::Nowhere => false,
            Place::Free => false,
            Place::File => false,
            Place::Dir => true,
            Place::Special => false,
        }
    }

    pub(crate) fn is_file(self) -> bool
        ensures { result ≡ is_file_place self }
    {
        match self {
            Place::Nowhere => false,
            Place::Free => false,
            Place::File => true,
            Place::Dir => false,
            Place::Special => false,
        }
    }

    pub(crate) fn is_free(self) -> bool
        ensures { result ≡ is_free_place self }
    {
        match self {
            Place::Nowhere => false,
            Place::Free => true,
            Place::File => false,
            Place::Dir => false,
            Place::Special => false,
        }
    }
}

/// What an item of its name tells.
pub(crate) fn place_by(item: Option<&Item>) -> Place
    ensures { result ≡ place_by (option_copied item.entry) }
{
    match item {
        None => Place::Free,
        Some(Item::File(_)) => Place::File,
        Some(Item::Dir(_)) => Place::Dir,
        Some(Item::Special(_)) => Place::Special,
        Some(Item::Odd) => Place::Free,
    }
}

/// What is listed in a directory.
pub(crate) fn listed<F: Folder>(
    alloc: Global,
    folder: &mut F,
    dir: &Path,
) -> Result<Vec<Item>, LookErr>
    requires { IfSome (F.told folder.old) (λ held. can_list dir.now held ≡ true) }
    ensures items { Tells (F.told folder.old) (λ held items. items.items ≡ items_of held dir.now) result }
    ensures cause { ReadCaused (F.read_faults folder.old) (F.read_faults folder.new) result }
    ensures memory { MemoryCounted (F.memory_failures folder.old) (F.memory_failures folder.new) result }
    ensures steady { Steadily (F.steady folder.old) (F.steady folder.new) result }
    ensures held { F.told folder.new ≡ F.told folder.old }
    ensures writes { F.write_faults folder.new ≡ F.write_faults folder.old }
    ensures calls { MakesCalls (lists dir.now) (F.schedule folder.old) (F.schedule folder.new) }
{
    match folder.list(alloc, dir) {
        Ok(items) => Ok(items),
        Err(FolderErr::Failed) => Err(LookErr::ReadFault),
        Err(FolderErr::NoMemory) => Err(LookErr::NoMemory),
    }
}

/// What stands at a path, which isn't the root, by a listing of the directory that it is in.
pub(crate) fn place_listed<F: Folder>(
    alloc: Global,
    folder: &mut F,
    path: &Path,
) -> Result<Place, LookErr>
    requires canonical { is_canonical path.now ≡ true }
    requires below_root { is_root path.now ≡ false }
    requires dir { IfSome (F.told folder.old) (λ held. can_list (parent path.now) held ≡ true) }
    ensures told { Tells (F.told folder.old) (λ held place. place ≡ place_of true (standing held path.now)) result }
    ensures cause { ReadCaused (F.read_faults folder.old) (F.read_faults folder.new) result }
    ensures memory { MemoryCounted (F.memory_failures folder.old) (F.memory_failures folder.new) result }
    ensures steady { Steadily (F.steady folder.old) (F.steady folder.new) result }
    ensures held { F.told folder.new ≡ F.told folder.old }
    ensures writes { F.write_faults folder.new ≡ F.write_faults folder.old }
    ensures calls { MakesCalls (lists (parent path.now)) (F.schedule folder.old) (F.schedule folder.new) }
{
    let dir = path.parent()?;
    let items = listed(alloc, folder, &dir)?;
    Ok(place_by(named(&items, path.name())))
}

fn is_empty(items: &[Item]) -> bool
    ensures { result ≡ base.is_empty items.now }
{
    match items {
        [] => true,
        [_, ..] => false,
    }
}

/// Whether nothing is listed in a directory.
pub(crate) fn is_bare<F: Folder>(alloc: Global, folder: &mut F, dir: &Path) -> Result<bool, LookErr>
    requires { IfSome (F.told folder.old) (λ held. can_list dir.now held ≡ true) }
    ensures told { Tells (F.told folder.old) (λ held bare. bare ≡ base.is_empty (items_of held dir.now)) result }
    ensures cause { ReadCaused (F.read_faults folder.old) (F.read_faults folder.new) result }
    ensures memory { MemoryCounted (F.memory_failures folder.old) (F.memory_failures folder.new) result }
    ensures steady { Steadily (F.steady folder.old) (F.steady folder.new) result }
    ensures held { F.told folder.new ≡ F.told folder.old }
    ensures writes { F.write_faults folder.new ≡ F.write_faults folder.old }
{
    let items = listed(alloc, folder, dir)?;
    Ok(is_empty(&items))
}

fn content_of(got: Got) -> Option<Bytes>
    ensures { result ≡ content_of got }
{
    match got {
        Got::Content(bytes) => Some(bytes),
        Got::Absent => None,
    }
}

/// The bytes of a file; `None` where nothing stands.
pub(crate) fn bytes_of<F: Folder>(
    alloc: Global,
    folder: &mut F,
    file: &Path,
) -> Result<Option<Bytes>, LookErr>
    requires { IfSome (F.told folder.old) (λ held. can_read file.now held ≡ true) }
    ensures told { Tells (F.told folder.old) (λ held bytes. bytes ≡ bytes_in (standing held file.now)) result }
    ensures cause { ReadCaused (F.read_faults folder.old) (F.read_faults folder.new) result }
    ensures memory { MemoryCounted (F.memory_failures folder.old) (F.memory_failures folder.new) result }
    ensures steady { Steadily (F.steady folder.old) (F.steady folder.new) result }
    ensures held { F.told folder.new ≡ F.told folder.old }
    ensures writes { F.write_faults folder.new ≡ F.write_faults folder.old }
    ensures calls { MakesCalls (reads file.now) (F.schedule folder.old) (F.schedule folder.new) }
{
    match folder.read(alloc, file) {
        Ok(got) => Ok(content_of(got)),
        Err(FolderErr::Failed) => Err(LookErr::ReadFault),
        Err(FolderErr::NoMemory) => Err(LookErr::NoMemory),
    }
}

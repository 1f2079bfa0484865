// What is found at a path, from the root on.
ghost use Rattle.std.specs.Prelude.{◌≡◌, IfOk, IfSome, OnOk, drop, is_some, true, false};
ghost use Rattle.rk_base.specs.Text.{components, is_root, join, root};
ghost use Rattle.rk_base.specs.Canonical.{is_canonical, is_name};
ghost use Rattle.rk_folder.specs.Told.{can_make_dir, can_remove_dir, can_remove_file, can_write, is_dir, standing};
ghost use Rattle.rk_folder.specs.Looks.{lists};
ghost use Rattle.rk_folder.specs.Schedule.{MakesCalls};
ghost use Rattle.rk_seal.specs.Ops.{path_of};
ghost use Rattle.rk_install.specs.Calls.{allowed};
ghost use Rattle.rk_install.specs.Known.{KnowsTold, is_listed_dir, seen_at};
ghost use Rattle.rk_install.specs.Looks.{Tells, ReadCaused, MemoryCounted, Steadily, lists_down, may_hold, place_at, place_of};

use crate::knowing::Known;
use crate::looking::{LookErr, Place, is_bare, listed};
use rk_base::{Name, NoMemory, Path, PathFault, first_component};
use rk_folder::Folder;
use rk_seal::Op;
use std::alloc::Global;

// The path of a name in a directory.
fn child(alloc: Global, dir: &Path, name: &[u8]) -> Result<Path, NoMemory>
    requires { is_name name.now ≡ true }
    ensures { IfOk result (λ path. path ≡ join dir.now name.now) }
{
    match Name::new(alloc, name) {
        Ok(name) => {
            let path = dir.join(alloc, &name)?;
            Ok(path)
        }
        Err(PathFault::NoMemory) => Err(NoMemory),
        Err(PathFault::Invalid) => unreachable!(),
    }
}

// Lists a directory, unless it is listed already.
fn list_once<F: Folder>(
    alloc: Global,
    folder: &mut F,
    known: &mut Known,
    dir: &Path,
) -> Result<(), LookErr>
    requires dir { IfSome (F.told folder.old) (λ held. is_dir (standing held dir.now) ≡ true) }
    requires known { KnowsTold (F.told folder.old) known.old }
    ensures known { OnOk result (KnowsTold (F.told folder.new) known.new) }
    ensures listed { OnOk result (is_listed_dir (seen_at known.new dir.now) ≡ true) }
    ensures cause { ReadCaused (F.read_faults folder.old) (F.read_faults folder.new) result }
    ensures memory { MemoryCounted (F.memory_failures folder.old) (F.memory_failures folder.new) result }
    ensures steady { Steadily (F.steady folder.old) (F.steady folder.new) result }
    ensures held { F.told folder.new ≡ F.told folder.old }
    ensures writes { F.write_faults folder.new ≡ F.write_faults folder.old }
    ensures calls { MakesCalls (lists dir.now) (F.schedule folder.old) (F.schedule folder.new) }
{
    if known.is_listed(dir) {
        return Ok(());
    }
    let items = listed(alloc, folder, dir)?;
    known.put_listing(alloc, dir, &items)?;
    Ok(())
}

// What is found under a name of a directory.
fn place_in<F: Folder>(
    alloc: Global,
    folder: &mut F,
    known: &mut Known,
    dir: &Path,
    name: &[u8],
) -> Result<Place, LookErr>
    requires dir { IfSome (F.told folder.old) (λ held. is_dir (standing held dir.now) ≡ true) }
    requires canonical { is_canonical dir.now ≡ true }
    requires name { is_name name.now ≡ true }
    requires known { KnowsTold (F.told folder.old) known.old }
    ensures known { OnOk result (KnowsTold (F.told folder.new) known.new) }
    ensures told { Tells (F.told folder.old) (λ held place. place ≡ place_of true (standing held (join dir.now name.now))) result }
    ensures cause { ReadCaused (F.read_faults folder.old) (F.read_faults folder.new) result }
    ensures memory { MemoryCounted (F.memory_failures folder.old) (F.memory_failures folder.new) result }
    ensures steady { Steadily (F.steady folder.old) (F.steady folder.new) result }
    ensures held { F.told folder.new ≡ F.told folder.old }
    ensures writes { F.write_faults folder.new ≡ F.write_faults folder.old }
    ensures calls { MakesCalls (lists dir.now) (F.schedule folder.old) (F.schedule folder.new) }
{
    list_once(alloc, folder, known, dir)?;
    let path = child(alloc, dir, name)?;
    Ok(known.place(&path))
}

// The directory of this name in a directory, where it is one.
fn enter<F: Folder>(
    alloc: Global,
    folder: &mut F,
    known: &mut Known,
    dir: &Path,
    name: &[u8],
) -> Result<Option<Path>, LookErr>
    requires dir { IfSome (F.told folder.old) (λ held. is_dir (standing held dir.now) ≡ true) }
    requires canonical { is_canonical dir.now ≡ true }
    requires name { is_name name.now ≡ true }
    requires known { KnowsTold (F.told folder.old) known.old }
    ensures known { OnOk result (KnowsTold (F.told folder.new) known.new) }
    ensures path { IfOk result (λ it. IfSome it (λ path. path ≡ join dir.now name.now)) }
    ensures told { Tells (F.told folder.old) (λ held it. is_some it ≡ is_dir (standing held (join dir.now name.now))) result }
    ensures cause { ReadCaused (F.read_faults folder.old) (F.read_faults folder.new) result }
    ensures memory { MemoryCounted (F.memory_failures folder.old) (F.memory_failures folder.new) result }
    ensures steady { Steadily (F.steady folder.old) (F.steady folder.new) result }
    ensures held { F.told folder.new ≡ F.told folder.old }
    ensures writes { F.write_faults folder.new ≡ F.write_faults folder.old }
    ensures calls { MakesCalls (lists dir.now) (F.schedule folder.old) (F.schedule folder.new) }
{
    let place = place_in(alloc, folder, known, dir, name)?;
    if !place.is_dir() {
        return Ok(None);
    }
    let path = child(alloc, dir, name)?;
    Ok(Some(path))
}

fn below_root(text: &[u8]) -> &[u8]
    ensures { result.now ≡ drop 1 text.now }
{
    match text {
        [] => text,
        [_, names @ ..] => names,
    }
}

/// What is found at a path, which isn't the root, by a listing of each directory above it that isn't listed already.
pub(crate) fn place_at<F: Folder>(
    alloc: Global,
    folder: &mut F,
    known: &mut Known,
    path: &Path,
) -> Result<Place, LookErr>
    requires below_root { is_root path.now ≡ false }
    requires known { KnowsTold (F.told folder.old) known.old }
    ensures known { OnOk result (KnowsTold (F.told folder.new) known.new) }
    ensures told { Tells (F.told folder.old) (λ held place. place ≡ place_at held path.now) result }
    ensures cause { ReadCaused (F.read_faults folder.old) (F.read_faults folder.new) result }
    ensures memory { MemoryCounted (F.memory_failures folder.old) (F.memory_failures folder.new) result }
    ensures steady { Steadily (F.steady folder.old) (F.steady folder.new) result }
    ensures held { F.told folder.new ≡ F.told folder.old }
    ensures writes { F.write_faults folder.new ≡ F.write_faults folder.old }
    ensures calls { MakesCalls (lists_down root (components (drop 1 path.now))) (F.schedule folder.old) (F.schedule folder.new) }
{
    let mut dir = Path::root(alloc)?;
    let mut names = below_root(path.text());
    'names: while let Some((name, rest)) = first_component(names) {
        match enter(alloc, folder, known, &dir, name)? {
            None => return Ok(Place::Nowhere),
            Some(next) => {
                dir = next;
                names = rest;
            }
        }
    }
    let place = place_in(alloc, folder, known, &dir, names)?;
    Ok(place)
}

// Whether a file stands there.
fn may_remove_file<F: Folder>(
    alloc: Global,
    folder: &mut F,
    known: &mut Known,
    path: &Path,
) -> Result<bool, LookErr>
    requires below_root { is_root path.now ≡ false }
    requires known { KnowsTold (F.told folder.old) known.old }
    ensures known { OnOk result (KnowsTold (F.told folder.new) known.new) }
    ensures told { Tells (F.told folder.old) (λ held may. may ≡ can_remove_file path.now held) result }
    ensures cause { ReadCaused (F.read_faults folder.old) (F.read_faults folder.new) result }
    ensures memory { MemoryCounted (F.memory_failures folder.old) (F.memory_failures folder.new) result }
    ensures steady { Steadily (F.steady folder.old) (F.steady folder.new) result }
    ensures held { F.told folder.new ≡ F.told folder.old }
    ensures writes { F.write_faults folder.new ≡ F.write_faults folder.old }
{
    let place = place_at(alloc, folder, known, path)?;
    Ok(place.is_file())
}

// Whether nothing stands there, in a directory.
fn may_make_dir<F: Folder>(
    alloc: Global,
    folder: &mut F,
    known: &mut Known,
    path: &Path,
) -> Result<bool, LookErr>
    requires below_root { is_root path.now ≡ false }
    requires known { KnowsTold (F.told folder.old) known.old }
    ensures known { OnOk result (KnowsTold (F.told folder.new) known.new) }
    ensures told { Tells (F.told folder.old) (λ held may. may ≡ can_make_dir path.now held) result }
    ensures cause { ReadCaused (F.read_faults folder.old) (F.read_faults folder.new) result }
    ensures memory { MemoryCounted (F.memory_failures folder.old) (F.memory_failures folder.new) result }
    ensures steady { Steadily (F.steady folder.old) (F.steady folder.new) result }
    ensures held { F.told folder.new ≡ F.told folder.old }
    ensures writes { F.write_faults folder.new ≡ F.write_faults folder.old }
{
    let place = place_at(alloc, folder, known, path)?;
    Ok(place.is_free())
}

// Whether a file stands there, or nothing in a directory.
fn may_write<F: Folder>(
    alloc: Global,
    folder: &mut F,
    known: &mut Known,
    path: &Path,
) -> Result<bool, LookErr>
    requires below_root { is_root path.now ≡ false }
    requires known { KnowsTold (F.told folder.old) known.old }
    ensures known { OnOk result (KnowsTold (F.told folder.new) known.new) }
    ensures told { Tells (F.told folder.old) (λ held may. may ≡ can_write path.now held) result }
    ensures cause { ReadCaused (F.read_faults folder.old) (F.read_faults folder.new) result }
    ensures memory { MemoryCounted (F.memory_failures folder.old) (F.memory_failures folder.new) result }
    ensures steady { Steadily (F.steady folder.old) (F.steady folder.new) result }
    ensures held { F.told folder.new ≡ F.told folder.old }
    ensures writes { F.write_faults folder.new ≡ F.write_faults folder.old }
{
    let place = place_at(alloc, folder, known, path)?;
    Ok(may_hold(place))
}

// Whether a directory stands there in which nothing is listed.
fn may_remove_dir<F: Folder>(
    alloc: Global,
    folder: &mut F,
    known: &mut Known,
    path: &Path,
) -> Result<bool, LookErr>
    requires below_root { is_root path.now ≡ false }
    requires known { KnowsTold (F.told folder.old) known.old }
    ensures known { OnOk result (KnowsTold (F.told folder.new) known.new) }
    ensures told { Tells (F.told folder.old) (λ held may. may ≡ can_remove_dir path.now held) result }
    ensures cause { ReadCaused (F.read_faults folder.old) (F.read_faults folder.new) result }
    ensures memory { MemoryCounted (F.memory_failures folder.old) (F.memory_failures folder.new) result }
    ensures steady { Steadily (F.steady folder.old) (F.steady folder.new) result }
    ensures held { F.told folder.new ≡ F.told folder.old }
    ensures writes { F.write_faults folder.new ≡ F.write_faults folder.old }
{
    let place = place_at(alloc, folder, known, path)?;
    if !place.is_dir() {
        return Ok(false);
    }
    let bare = is_bare(alloc, folder, path)?;
    Ok(bare)
}

fn may_hold(place: Place) -> bool
    ensures { result ≡ may_hold place }
{
    place.is_free() || place.is_file()
}

/// Whether the folder allows a call now, by what is known and by its listings alone.
pub(crate) fn may<F: Folder>(
    alloc: Global,
    folder: &mut F,
    known: &mut Known,
    op: &Op,
) -> Result<bool, LookErr>
    requires below_root { is_root (path_of op.now) ≡ false }
    requires known { KnowsTold (F.told folder.old) known.old }
    ensures known { OnOk result (KnowsTold (F.told folder.new) known.new) }
    ensures told { Tells (F.told folder.old) (λ held may. may ≡ allowed op.now held) result }
    ensures cause { ReadCaused (F.read_faults folder.old) (F.read_faults folder.new) result }
    ensures memory { MemoryCounted (F.memory_failures folder.old) (F.memory_failures folder.new) result }
    ensures steady { Steadily (F.steady folder.old) (F.steady folder.new) result }
    ensures held { F.told folder.new ≡ F.told folder.old }
    ensures writes { F.write_faults folder.new ≡ F.write_faults folder.old }
{
    match op {
        Op::RemoveFile(path) => may_remove_file(alloc, folder, known, path),
        Op::RemoveDir(path) => may_remove_dir(alloc, folder, known, path),
        Op::MakeDir(path) => may_make_dir(alloc, folder, known, path),
        Op::Write(path, _) => may_write(alloc, folder, known, path),
    }
}

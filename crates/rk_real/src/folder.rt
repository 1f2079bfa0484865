// A real directory as a folder. It tells nothing of what it holds, and counts its faults.
ghost use Rattle.std.specs.Prelude.{◌≡◌, ◌≤◌, None, OnOk, IsOk, true, false};
ghost use Rattle.rk_base.specs.Text.{depth};
ghost use Rattle.rk_folder.specs.Calls.{Caused, MemoryCaused};

use crate::lasting::{Unsynced, dir_of, is_seal, is_sealing};
use crate::listing::Listings;
use crate::reading::{content, standing};
use rk_base::Path;
use rk_folder::{Folder, FolderErr, Got, Item};
use std::alloc::Global;
use std::fs::{File, Files, OpenFile, Permissions};
use std::io::{ErrorKind, Write};
use std::os::unix::fs::MetadataExt;
use std::{fs, io, str};

/// A path has at most so many names.
const DEEPEST: usize = 4096;

/// The folder below one directory. Links, devices and the like are special, and a file name that
/// is no name is odd. What was written is on the disk before a file is renamed, and which names stand in each directory when
/// that call answers; and all of it is before a file in `.rkr` is removed, and that when its call answers.
#[derive(Drop)]
pub struct RealFolder<R: Files + AllocGlobal + Drop> {
    rt: R,
    top: String,
    unsynced: Unsynced,
    listings: Listings,
    read_faults: u64,
    write_faults: u64,
    memory_failures: u64,
}

// The path of the real file: what the folder's top is, and then the path's text.
fn place_of(alloc: Global, top: &str, path: &Path) -> io::Result<String> {
    let Ok(text) = str::from_utf8(path.text()) else {
        return Err(io::Error::from(ErrorKind::InvalidFilename));
    };
    let mut place = String::from_str(alloc, top)?;
    place.push_str(text)?;
    Ok(place)
}

fn overwrite(rt: &impl Files, place: &str, bytes: &[u8]) -> io::Result<()> {
    let mut file = File::create(rt, place)?;
    file.write_all(bytes)
}

// A file of these bytes where nothing stands: what was put there meanwhile isn't opened.
fn make(rt: &impl Files, place: &str, bytes: &[u8]) -> io::Result<()> {
    let mut file = File::create_new(rt, place)?;
    file.write_all(bytes)
}

// A file of these bytes with this mode, in place of the name that the file there has here.
fn make_anew(rt: &impl Files, place: &str, mode: Permissions, bytes: &[u8]) -> io::Result<()> {
    fs::remove_file(rt, place)?;
    let mut file = File::create_new(rt, place)?;
    file.write_all(bytes)?;
    file.set_permissions(mode)
}

fn list_in(
    rt: &impl Files,
    alloc: Global,
    top: &str,
    unsynced: &mut Unsynced,
    listings: &mut Listings,
    dir: &Path,
) -> io::Result<Vec<Item>>
    ensures { OnOk result (depth dir.now ≤ 4096) }
{
    if dir.depth() > DEEPEST {
        return Err(io::Error::from(ErrorKind::FilesystemLoop));
    }
    let place = place_of(alloc, top, dir)?;
    unsynced.add_listed(alloc, place.as_str())?;
    if !dir.is_root() && dir.text() != b"/.rkr".as_slice() {
        listings.forget_root();
    }
    let items = listings.items(rt, alloc, dir, place.as_str())?;
    Ok(items)
}

// A sealed list that is read is to be finished.
fn read_in(
    rt: &impl Files,
    alloc: Global,
    top: &str,
    unsynced: &mut Unsynced,
    file: &Path,
) -> io::Result<Got> {
    let place = place_of(alloc, top, file)?;
    if is_seal(file) {
        unsynced.set_finishes(true);
    }
    content(rt, alloc, place.as_str())
}

// The answer of a call. Each error but want of memory is a fault.
fn answer<T: Drop>(
    done: io::Result<T>,
    faults: &mut u64,
    memory_failures: &mut u64,
) -> Result<T, FolderErr>
    ensures cause { Caused faults.old faults.new true result }
    ensures memory { MemoryCaused memory_failures.old memory_failures.new result }
    ensures ok { OnOk result (IsOk done) }
{
    match done {
        Ok(it) => Ok(it),
        Err(e) if e.kind() == ErrorKind::OutOfMemory => {
            *memory_failures = memory_failures.saturating_add(1);
            Err(FolderErr::NoMemory)
        }
        Err(_) => {
            *faults = faults.saturating_add(1);
            Err(FolderErr::Failed)
        }
    }
}

impl<R: Files + AllocGlobal + Drop> RealFolder<R> {
    /// The folder whose root is this directory.
    pub fn new(rt: R, top: String) -> RealFolder<R> {
        let unsynced = Unsynced::new(rt.alloc());
        let listings = Listings::new();
        RealFolder {
            rt,
            top,
            unsynced,
            listings,
            read_faults: 0,
            write_faults: 0,
            memory_failures: 0,
        }
    }
}

// A name in its directory is to change.
fn to_change(alloc: Global, top: &str, path: &Path, unsynced: &mut Unsynced) -> io::Result<String> {
    let place = place_of(alloc, top, path)?;
    unsynced.add_dir(alloc, dir_of(place.as_str()))?;
    Ok(place)
}

// What has another name too keeps its bytes there. A file that stands keeps its name, so that its directory needn't be synced.
fn write_in(
    rt: &impl Files,
    alloc: Global,
    top: &str,
    unsynced: &mut Unsynced,
    file: &Path,
    bytes: &[u8],
) -> io::Result<()> {
    let place = place_of(alloc, top, file)?;
    unsynced.add_file(alloc, place.as_str())?;
    match standing(rt, place.as_str())? {
        None => {
            unsynced.add_dir(alloc, dir_of(place.as_str()))?;
            make(rt, place.as_str(), bytes)
        }
        Some(it) if !it.is_file() => Err(io::Error::from(ErrorKind::InvalidInput)),
        Some(it) if it.nlink() > 1 => {
            unsynced.add_dir(alloc, dir_of(place.as_str()))?;
            make_anew(rt, place.as_str(), it.permissions(), bytes)
        }
        Some(_) => overwrite(rt, place.as_str(), bytes),
    }
}

fn make_dir_in(
    rt: &impl Files,
    alloc: Global,
    top: &str,
    unsynced: &mut Unsynced,
    dir: &Path,
) -> io::Result<()> {
    let place = to_change(alloc, top, dir, unsynced)?;
    fs::create_dir(rt, place.as_str())
}

// All before it lasts first, where its name is in `.rkr`, and then it does.
fn remove_file_in(
    rt: &impl Files,
    alloc: Global,
    top: &str,
    unsynced: &mut Unsynced,
    file: &Path,
) -> io::Result<()> {
    if !is_sealing(file) {
        let place = to_change(alloc, top, file, unsynced)?;
        return fs::remove_file(rt, place.as_str());
    }
    unsynced.settle(rt)?;
    let place = to_change(alloc, top, file, unsynced)?;
    fs::remove_file(rt, place.as_str())?;
    if is_seal(file) {
        unsynced.set_finishes(false);
    }
    unsynced.settle_made(rt)
}

fn remove_dir_in(
    rt: &impl Files,
    alloc: Global,
    top: &str,
    unsynced: &mut Unsynced,
    dir: &Path,
) -> io::Result<()> {
    let place = to_change(alloc, top, dir, unsynced)?;
    fs::remove_dir(rt, place.as_str())
}

// What is renamed lasts first; that it was lasts with the names of both directories.
fn rename_in(
    rt: &impl Files,
    alloc: Global,
    top: &str,
    unsynced: &mut Unsynced,
    from: &Path,
    to: &Path,
) -> io::Result<()> {
    let old = to_change(alloc, top, from, unsynced)?;
    let new = to_change(alloc, top, to, unsynced)?;
    unsynced.settle_files(rt)?;
    fs::rename(rt, old.as_str(), new.as_str())?;
    unsynced.settle_made(rt)
}

impl<R: Files + AllocGlobal + Drop> Folder for RealFolder<R> {
    ghost told = { λ _. None };

    ghost read_faults = { λ f. f.read_faults };

    ghost write_faults = { λ f. f.write_faults };

    ghost memory_failures = { λ f. f.memory_failures };

    ghost reach = { λ _. 4096 };

    ghost steady = { λ _. false };

    ghost schedule = { λ _. None };

    ghost whole = { λ _. tt };

    fn list(&mut self, alloc: Global, dir: &Path) -> Result<Vec<Item>, FolderErr> {
        let items = list_in(
            &self.rt,
            alloc,
            self.top.as_str(),
            &mut self.unsynced,
            &mut self.listings,
            dir,
        );
        answer(items, &mut self.read_faults, &mut self.memory_failures)
    }

    fn read(&mut self, alloc: Global, file: &Path) -> Result<Got, FolderErr> {
        self.listings.forget_root();
        let got = read_in(&self.rt, alloc, self.top.as_str(), &mut self.unsynced, file);
        answer(got, &mut self.read_faults, &mut self.memory_failures)
    }

    fn write(&mut self, alloc: Global, file: &Path, bytes: &[u8]) -> Result<(), FolderErr> {
        self.listings.forget_root();
        let done = write_in(
            &self.rt,
            alloc,
            self.top.as_str(),
            &mut self.unsynced,
            file,
            bytes,
        );
        answer(done, &mut self.write_faults, &mut self.memory_failures)
    }

    fn make_dir(&mut self, alloc: Global, dir: &Path) -> Result<(), FolderErr> {
        self.listings.forget_root();
        let done = make_dir_in(&self.rt, alloc, self.top.as_str(), &mut self.unsynced, dir);
        answer(done, &mut self.write_faults, &mut self.memory_failures)
    }

    fn remove_file(&mut self, alloc: Global, file: &Path) -> Result<(), FolderErr> {
        self.listings.forget_root();
        let done = remove_file_in(&self.rt, alloc, self.top.as_str(), &mut self.unsynced, file);
        answer(done, &mut self.write_faults, &mut self.memory_failures)
    }

    fn remove_dir(&mut self, alloc: Global, dir: &Path) -> Result<(), FolderErr> {
        self.listings.forget_root();
        let done = remove_dir_in(&self.rt, alloc, self.top.as_str(), &mut self.unsynced, dir);
        answer(done, &mut self.write_faults, &mut self.memory_failures)
    }

    fn rename(&mut self, alloc: Global, from: &Path, to: &Path) -> Result<(), FolderErr> {
        self.listings.forget_root();
        let done = rename_in(
            &self.rt,
            alloc,
            self.top.as_str(),
            &mut self.unsynced,
            from,
            to,
        );
        answer(done, &mut self.write_faults, &mut self.memory_failures)
    }
}

// What makes the changes of a real directory last: files that were written are synced before the seal of an install is put in
// its place, and the directories whose names changed before that call answers; and both before the seal is taken away. One
// after another they cost little, since the system writes down together what changed. Where a sealed list is read, a call that was
// killed has made some of its changes and synced none of these directories, so each that is listed from there on is synced too;
// each file is written anew.
use crate::reading::{is_absent, standing};
use rk_base::Path;
use std::alloc::Global;
use std::fs::{File, Files, OpenFile};
use std::io;
use std::io::ErrorKind;

/// Files and directories that changed since they were last synced.
#[derive(Drop)]
pub(crate) struct Unsynced {
    files: Vec<String>,
    dirs: Vec<String>,
    // Whether a sealed list was read, and its seal still stands.
    finishes: bool,
}

/// The directory that this place is in.
pub(crate) fn dir_of(place: &str) -> &str {
    match place.rsplit_once('/') {
        Some((dir, _)) => dir,
        None => ".",
    }
}

fn sync_opened(rt: &impl Files, place: &str) -> io::Result<()> {
    match File::open(rt, place) {
        Ok(it) => it.sync_all(),
        Err(e) if is_absent(&e) => Ok(()),
        Err(e) => Err(e),
    }
}

// What is gone has nothing to be synced, be it that a file stands in place of a directory before it. What stands there is looked
// at right before it is opened, and nothing but a file or a directory is.
fn sync(rt: &impl Files, place: &str) -> io::Result<()> {
    match standing(rt, place)? {
        None => Ok(()),
        Some(it) if it.is_file() || it.is_dir() => sync_opened(rt, place),
        Some(_) => Err(io::Error::from(ErrorKind::InvalidInput)),
    }
}

/// Whether a name in `.rkr` is put in place or taken away by this path's rename or removal: all before it is to last then.
pub(crate) fn is_sealing(path: &Path) -> bool {
    path.text().starts_with(b"/.rkr/")
}

/// Whether this is the sealed list.
pub(crate) fn is_seal(path: &Path) -> bool {
    path.text() == b"/.rkr/install".as_slice()
}

impl Unsynced {
    pub(crate) fn new(alloc: Global) -> Unsynced {
        Unsynced {
            files: Vec::new(alloc),
            dirs: Vec::new(alloc),
            finishes: false,
        }
    }

    /// Says whether a sealed list is to be finished, whose calls another process may have made.
    pub(crate) fn set_finishes(&mut self, finishes: bool) {
        self.finishes = finishes;
    }

    /// Keeps a directory that was listed, where a sealed list is to be finished.
    pub(crate) fn add_listed(&mut self, alloc: Global, dir: &str) -> io::Result<()> {
        if !self.finishes {
            return Ok(());
        }
        self.add_dir(alloc, dir)
    }

    fn is_last(&self, dir: &str) -> bool {
        match self.dirs.last() {
            Some(place) => place.as_str() == dir,
            None => false,
        }
    }

    /// Keeps that a name in this directory is to change.
    pub(crate) fn add_dir(&mut self, alloc: Global, dir: &str) -> io::Result<()> {
        if self.is_last(dir) {
            return Ok(());
        }
        let place = String::from_str(alloc, dir)?;
        self.dirs.push(place)?;
        Ok(())
    }

    /// Keeps that this file is to be written.
    pub(crate) fn add_file(&mut self, alloc: Global, file: &str) -> io::Result<()> {
        let place = String::from_str(alloc, file)?;
        self.files.push(place)?;
        Ok(())
    }

    /// Syncs the files.
    pub(crate) fn settle_files(&mut self, rt: &impl Files) -> io::Result<()> {
        for place in &self.files {
            sync(rt, place.as_str())?;
        }
        self.files.clear();
        Ok(())
    }

    /// Syncs each of them, the files first.
    pub(crate) fn settle(&mut self, rt: &impl Files) -> io::Result<()> {
        self.settle_files(rt)?;
        for place in &self.dirs {
            sync(rt, place.as_str())?;
        }
        self.dirs.clear();
        Ok(())
    }

    /// Syncs each of them once a change was made: want of memory is a fault then.
    pub(crate) fn settle_made(&mut self, rt: &impl Files) -> io::Result<()> {
        match self.settle(rt) {
            Ok(()) => Ok(()),
            Err(_) => Err(io::Error::from(ErrorKind::Other)),
        }
    }
}

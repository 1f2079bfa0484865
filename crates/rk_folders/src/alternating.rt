// Steps of two installs in one folder, whose calls come in each order between one another.
use crate::recoveries::{call_of, install_list_of};
use rk_base::{NoMemory, Path};
use rk_folder::{Folder, FolderErr, MemFolder, Standing, fresh_list_file, install_file};
use rk_install::recover;
use rk_seal::{InstallList, Op, encode};
use rk_steps::{Subject, behind, plain, text};
use std::alloc::Global;

/// The calls of an install: those of its list, and those around them but for the seal.
#[derive(Drop)]
struct Install {
    draft: Op,
    list: InstallList,
    unsealing: Op,
}

/// How many calls an install has made, and whether the next one failed, which ends it.
#[derive(Clone, Copy)]
struct Progress {
    made: usize,
    failed: bool,
}

const START: Progress = Progress {
    made: 0,
    failed: false,
};

/// What came of the orders that were tried.
#[derive(Clone, Copy)]
struct Tally {
    ways: u64,
    first_failed: u64,
    second_failed: u64,
    /// A list stood sealed in the end.
    sealed: u64,
    /// It wasn't finished, or a file isn't one that was written.
    otherwise: u64,
}

const NONE: Tally = Tally {
    ways: 0,
    first_failed: 0,
    second_failed: 0,
    sealed: 0,
    otherwise: 0,
};

fn install_of(alloc: Global, list: InstallList) -> Result<Install, NoMemory> {
    let bytes = encode(alloc, &list)?;
    Ok(Install {
        draft: Op::Write(fresh_list_file(alloc)?, bytes),
        list,
        unsealing: Op::RemoveFile(install_file(alloc)?),
    })
}

// How many calls it has.
fn calls(install: &Install) -> usize {
    install.list.as_slice().len().saturating_add(3)
}

fn is_done(done: Result<(), FolderErr>) -> Result<bool, NoMemory> {
    match done {
        Ok(()) => Ok(true),
        Err(FolderErr::Failed) => Ok(false),
        Err(FolderErr::NoMemory) => Err(NoMemory),
    }
}

// Whether the folder made a call.
fn make(alloc: Global, folder: &mut MemFolder, op: &Op) -> Result<bool, NoMemory> {
    match op {
        Op::RemoveFile(path) => is_done(folder.remove_file(alloc, path)),
        Op::RemoveDir(path) => is_done(folder.remove_dir(alloc, path)),
        Op::MakeDir(path) => is_done(folder.make_dir(alloc, path)),
        Op::Write(path, bytes) => is_done(folder.write(alloc, path, bytes.as_slice())),
    }
}

fn seal(alloc: Global, folder: &mut MemFolder) -> Result<bool, NoMemory> {
    let from = fresh_list_file(alloc)?;
    let to = install_file(alloc)?;
    is_done(folder.rename(alloc, &from, &to))
}

// Makes the call of this number, from 0 on: the list is written and sealed, its calls are made, and it is taken away.
fn make_nth(
    alloc: Global,
    folder: &mut MemFolder,
    install: &Install,
    n: usize,
) -> Result<bool, NoMemory> {
    match n {
        0 => make(alloc, folder, &install.draft),
        1 => seal(alloc, folder),
        _ => match install.list.as_slice().get(n.saturating_sub(2)) {
            Some(op) => make(alloc, folder, op),
            None => make(alloc, folder, &install.unsealing),
        },
    }
}

fn go_on(
    alloc: Global,
    folder: &mut MemFolder,
    install: &Install,
    at: Progress,
) -> Result<Progress, NoMemory> {
    if at.failed {
        return Ok(at);
    }
    let failed = !make_nth(alloc, folder, install, at.made)?;
    Ok(Progress {
        made: at.made.saturating_add(1),
        failed,
    })
}

// How many of the last bits of a number are set, among so many of them.
fn seconds(order: u64, len: usize) -> usize {
    let mut rest = order;
    let mut count = 0usize;
    'bits: for _ in 0..len {
        count = count.saturating_add((rest % 2) as usize);
        rest /= 2;
    }
    count
}

fn is_written(ops: &[Op], path: &Path, bytes: &[u8]) -> bool {
    'ops: for op in ops {
        if let Op::Write(file, written) = op {
            if file.text() == path.text() && written.as_slice() == bytes {
                return true;
            }
        }
    }
    false
}

/// A folder, and two installs in it.
#[derive(Drop)]
struct Pair {
    before: Vec<Op>,
    first: Install,
    second: Install,
}

impl Pair {
    fn folder(&self, alloc: Global) -> Result<MemFolder, NoMemory> {
        let mut folder = MemFolder::new(alloc)?;
        'ops: for op in &self.before {
            let _made = make(alloc, &mut folder, op)?;
        }
        Ok(folder)
    }

    // Each bit, from the last on, is a call of the second install, or else of the first.
    fn carry_out(
        &self,
        alloc: Global,
        folder: &mut MemFolder,
        order: u64,
        len: usize,
    ) -> Result<(Progress, Progress), NoMemory> {
        let mut rest = order;
        let mut first = START;
        let mut second = START;
        'calls: for _ in 0..len {
            if rest % 2 == 0 {
                first = go_on(alloc, folder, &self.first, first)?;
            } else {
                second = go_on(alloc, folder, &self.second, second)?;
            }
            rest /= 2;
        }
        Ok((first, second))
    }

    // Whether what stands at a path was written there, before or by one of the installs.
    fn is_whole(&self, folder: &MemFolder, path: &Path) -> bool {
        match folder.at(path) {
            Some(Standing::File(bytes)) => {
                is_written(&self.before, path, bytes.as_slice())
                    || is_written(self.first.list.as_slice(), path, bytes.as_slice())
                    || is_written(self.second.list.as_slice(), path, bytes.as_slice())
            }
            _ => true,
        }
    }

    fn are_whole(&self, folder: &MemFolder, ops: &[Op]) -> bool {
        'ops: for op in ops {
            if !self.is_whole(folder, op.path()) {
                return false;
            }
        }
        true
    }

    // The next request finishes the list, if one stands; then none does, and each file is whole.
    fn is_mended(&self, alloc: Global, folder: &mut MemFolder) -> Result<bool, NoMemory> {
        let done = recover(alloc, folder).is_ok();
        let seal = install_file(alloc)?;
        Ok(
            done && folder.at(&seal).is_none()
                && self.are_whole(folder, self.first.list.as_slice())
                && self.are_whole(folder, self.second.list.as_slice()),
        )
    }

    fn try_order(
        &self,
        alloc: Global,
        order: u64,
        len: usize,
        tally: Tally,
    ) -> Result<Tally, NoMemory> {
        let mut folder = self.folder(alloc)?;
        let (first, second) = self.carry_out(alloc, &mut folder, order, len)?;
        let seal = install_file(alloc)?;
        let is_sealed = folder.at(&seal).is_some();
        let is_mended = self.is_mended(alloc, &mut folder)?;
        Ok(Tally {
            ways: tally.ways.saturating_add(1),
            first_failed: tally.first_failed.saturating_add(u64::from(first.failed)),
            second_failed: tally.second_failed.saturating_add(u64::from(second.failed)),
            sealed: tally.sealed.saturating_add(u64::from(is_sealed)),
            otherwise: tally.otherwise.saturating_add(u64::from(!is_mended)),
        })
    }

    // Orders of so many calls, of which each install has no more than it makes.
    fn try_orders(&self, alloc: Global, len: usize, tally: Tally) -> Result<Tally, NoMemory> {
        let mut tally = tally;
        let orders = 2u64.saturating_pow(u32::try_from(len).unwrap_or(63));
        'orders: for order in 0..orders {
            let second = seconds(order, len);
            if second <= calls(&self.second) && len.saturating_sub(second) <= calls(&self.first) {
                tally = self.try_order(alloc, order, len, tally)?;
            }
        }
        Ok(tally)
    }

    // Both are carried out, or stopped, each behind any of its calls.
    fn alternate(&self, alloc: Global) -> Result<Tally, NoMemory> {
        let most = calls(&self.first).saturating_add(calls(&self.second));
        let mut tally = NONE;
        'lens: for len in 0..most.saturating_add(1) {
            tally = self.try_orders(alloc, len, tally)?;
        }
        Ok(tally)
    }
}

/// A folder, and the calls of two installs that are put together.
#[derive(Drop)]
pub(crate) struct Alternations {
    alloc: Global,
    before: Vec<Op>,
    first: Vec<Op>,
    second: Vec<Op>,
}

fn put(alloc: Global, ops: &mut Vec<Op>, words: &[Vec<u8>]) -> Result<String, NoMemory> {
    match call_of(alloc, words)? {
        Some(op) => {
            ops.push(op)?;
            plain(alloc, "put")
        }
        None => plain(alloc, "no call"),
    }
}

fn tally_shown(alloc: Global, tally: Tally) -> Result<String, NoMemory> {
    let out = format!(in alloc;
        "{} ways, {} and {} faults, {} sealed, {} otherwise",
        tally.ways, tally.first_failed, tally.second_failed, tally.sealed, tally.otherwise
    )?;
    Ok(out)
}

impl Alternations {
    pub(crate) fn new(alloc: Global) -> Result<Alternations, NoMemory> {
        Ok(Alternations {
            alloc,
            before: Vec::new(alloc),
            first: Vec::new(alloc),
            second: Vec::new(alloc),
        })
    }

    fn pair(&mut self) -> Result<Option<Pair>, NoMemory> {
        let mut before = Vec::new(self.alloc);
        std::mem::swap(&mut self.before, &mut before);
        let first = install_list_of(self.alloc, &mut self.first);
        let second = install_list_of(self.alloc, &mut self.second);
        match (first, second) {
            (Some(first), Some(second)) => Ok(Some(Pair {
                before,
                first: install_of(self.alloc, first)?,
                second: install_of(self.alloc, second)?,
            })),
            _ => Ok(None),
        }
    }

    fn alternate(&mut self) -> Result<String, NoMemory> {
        match self.pair()? {
            Some(pair) => tally_shown(self.alloc, pair.alternate(self.alloc)?),
            None => plain(self.alloc, "no lists"),
        }
    }
}

impl Subject for Alternations {
    fn fresh(&mut self) -> Result<(), NoMemory> {
        *self = Alternations::new(self.alloc)?;
        Ok(())
    }

    fn step(&mut self, words: &[Vec<u8>]) -> Result<String, NoMemory> {
        match text(words, 0) {
            "before" => put(self.alloc, &mut self.before, behind(words)),
            "first" => put(self.alloc, &mut self.first, behind(words)),
            "second" => put(self.alloc, &mut self.second, behind(words)),
            "alternate" => self.alternate(),
            _ => plain(self.alloc, "unknown step"),
        }
    }
}

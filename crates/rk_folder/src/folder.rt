// A folder: what it holds where it tells that, how deep it reaches, two counts of faults, and one of want of memory.
ghost use Rattle.std.specs.Prelude.{◌≡◌, ◌≤◌, ℕ, Bool, Option, IfOk, OnOk};
ghost use Rattle.rk_base.specs.Text.{depth};
ghost use Rattle.rk_folder.specs.Told.{Held, can_list, can_read, can_write, can_make_dir, can_remove_file, can_remove_dir, can_rename, with_standing, without, renamed};
ghost use Rattle.rk_folder.specs.Whole.{TellsWhole};
ghost use Rattle.rk_folder.specs.Calls.{allows, Caused, MemoryCaused, Lists, Reads, Changes, Writes, Steadily};
ghost use Rattle.rk_folder.specs.Schedule.{Schedule, OnSchedule, Leaves};
ghost use Rattle.rk_folder.specs.declared.folder.Standing.TheVariants.{Dir};
ghost use Rattle.rk_folder.specs.declared.folder.FolderCall.TheVariants as asks;
ghost use Rattle.rk_folder.specs.declared.folder.FolderErr.TheVariants as err;

use rk_base::{Bytes, Name, NoMemory, Path};
use std::alloc::{AllocError, AllocFailed, Global};

/// What stands at a path.
#[derive(Debug, Drop)]
pub enum Standing {
    File(Bytes),
    Dir,
    /// A link, a device or the like.
    Special,
}

/// What a listing tells of one name.
#[derive(Debug, Drop)]
pub enum Item {
    File(Name),
    Dir(Name),
    Special(Name),
    /// Once and last, for all that are no names.
    Odd,
}

/// What a read tells.
#[derive(Debug, Drop)]
pub enum Got {
    Content(Bytes),
    /// Nothing stands there.
    Absent,
}

/// A call of a folder, by the paths that it names.
#[derive(Debug, Drop)]
pub enum FolderCall {
    List(Path),
    Read(Path),
    Write(Path),
    MakeDir(Path),
    RemoveFile(Path),
    RemoveDir(Path),
    Rename(Path, Path),
}

impl FolderCall {
    ghost use Rattle.rk_folder.specs.Schedule.{is_change};

    /// Whether it is to change what the folder holds.
    pub fn is_change(&self) -> bool
        ensures { result ≡ is_change self.now }
    {
        match self {
            FolderCall::List(_) => false,
            FolderCall::Read(_) => false,
            _ => true,
        }
    }
}

/// Why a call of a folder has no answer.
#[derive(Clone, Copy, Debug, PartialEq, Eq)]
pub enum FolderErr {
    /// A fault, or a call that what the folder holds doesn't allow.
    Failed,
    NoMemory,
}

impl From<NoMemory> for FolderErr {
    ghost from_gives = { λ _ e. e ≡ err.NoMemory };

    fn from(_: NoMemory) -> FolderErr {
        FolderErr::NoMemory
    }
}

impl From<AllocError> for FolderErr {
    ghost from_gives = { λ _ e. e ≡ err.NoMemory };

    fn from(_: AllocError) -> FolderErr {
        FolderErr::NoMemory
    }
}

impl<T: Drop> From<AllocFailed<T>> for FolderErr {
    ghost from_gives = { λ _ e. e ≡ err.NoMemory };

    fn from(_: AllocFailed<T>) -> FolderErr {
        FolderErr::NoMemory
    }
}

/// A folder reads no file of more bytes than this.
pub const LONGEST_FILE: u64 = 1 << 32;

/// Files and directories that are listed, read and changed.
///
/// A call that what the folder holds doesn't allow is `Failed` and is no fault. Every other
/// `Failed` is a fault and raises the count for its kind, up to 2^64 - 1. Want of memory is no fault;
/// it raises a count of its own, and changes nothing that it holds.
pub trait Folder {
    /// What it holds, where it tells that.
    ghost told: { Self → Option Held };

    /// How many lists and reads were faults.
    ghost read_faults: { Self → ℕ };

    /// How many of the other calls were faults.
    ghost write_faults: { Self → ℕ };

    /// How many calls had no memory.
    ghost memory_failures: { Self → ℕ };

    /// More names than this no path has that is listed.
    ghost reach: { Self → ℕ };

    /// Whether no call that it allows is a fault.
    ghost steady: { Self → Bool };

    /// Which calls are to be faults, and which were made, where it tells that.
    ghost schedule: { Self → Option Schedule };

    /// What stands in a directory, ascending by name.
    fn list(&mut self, alloc: Global, dir: &Path) -> Result<Vec<Item>, FolderErr>
        ensures items { IfOk result (λ items. Lists (told self.old) dir.now items.items) }
        ensures within { OnOk result (depth dir.now ≤ reach self.old) }
        ensures cause { Caused (read_faults self.old) (read_faults self.new) (allows (told self.old) (can_list dir.now)) result }
        ensures memory { MemoryCaused (memory_failures self.old) (memory_failures self.new) result }
        ensures steady { Steadily (steady self.old) (steady self.new) (allows (told self.old) (can_list dir.now)) result }
        ensures schedule { OnSchedule (asks.List dir.now) (schedule self.old) (schedule self.new) (allows (told self.old) (can_list dir.now)) result }

        ensures held { told self.new ≡ told self.old }
        ensures other { write_faults self.new ≡ write_faults self.old }
        ensures reach { reach self.new ≡ reach self.old };

    /// The bytes of a file, or that nothing stands there.
    fn read(&mut self, alloc: Global, file: &Path) -> Result<Got, FolderErr>
        ensures got { IfOk result (Reads (told self.old) file.now) }
        ensures cause { Caused (read_faults self.old) (read_faults self.new) (allows (told self.old) (can_read file.now)) result }
        ensures memory { MemoryCaused (memory_failures self.old) (memory_failures self.new) result }
        ensures steady { Steadily (steady self.old) (steady self.new) (allows (told self.old) (can_read file.now)) result }
        ensures schedule { OnSchedule (asks.Read file.now) (schedule self.old) (schedule self.new) (allows (told self.old) (can_read file.now)) result }

        ensures held { told self.new ≡ told self.old }
        ensures other { write_faults self.new ≡ write_faults self.old }
        ensures reach { reach self.new ≡ reach self.old };

    /// Makes these the bytes of a file, or makes a file of them where nothing stands. A fault may
    /// leave any bytes in this file, or none made.
    fn write(&mut self, alloc: Global, file: &Path, bytes: &[u8]) -> Result<(), FolderErr>
        ensures held { Writes file.now bytes.now (allows (told self.old) (can_write file.now)) (told self.old) (told self.new) result }
        ensures cause { Caused (write_faults self.old) (write_faults self.new) (allows (told self.old) (can_write file.now)) result }
        ensures memory { MemoryCaused (memory_failures self.old) (memory_failures self.new) result }
        ensures steady { Steadily (steady self.old) (steady self.new) (allows (told self.old) (can_write file.now)) result }
        ensures schedule { OnSchedule (asks.Write file.now) (schedule self.old) (schedule self.new) (allows (told self.old) (can_write file.now)) result }
        ensures left { Leaves file.now (schedule self.old) (allows (told self.old) (can_write file.now)) (told self.old) (told self.new) result }
        ensures other { read_faults self.new ≡ read_faults self.old };

    /// Makes a directory where nothing stands.
    fn make_dir(&mut self, alloc: Global, dir: &Path) -> Result<(), FolderErr>
        ensures held { Changes (with_standing dir.now Dir) (told self.old) (told self.new) result }
        ensures cause { Caused (write_faults self.old) (write_faults self.new) (allows (told self.old) (can_make_dir dir.now)) result }
        ensures memory { MemoryCaused (memory_failures self.old) (memory_failures self.new) result }
        ensures steady { Steadily (steady self.old) (steady self.new) (allows (told self.old) (can_make_dir dir.now)) result }
        ensures schedule { OnSchedule (asks.MakeDir dir.now) (schedule self.old) (schedule self.new) (allows (told self.old) (can_make_dir dir.now)) result }
        ensures other { read_faults self.new ≡ read_faults self.old };

    /// Removes a file.
    fn remove_file(&mut self, alloc: Global, file: &Path) -> Result<(), FolderErr>
        ensures held { Changes (without file.now) (told self.old) (told self.new) result }
        ensures cause { Caused (write_faults self.old) (write_faults self.new) (allows (told self.old) (can_remove_file file.now)) result }
        ensures memory { MemoryCaused (memory_failures self.old) (memory_failures self.new) result }
        ensures steady { Steadily (steady self.old) (steady self.new) (allows (told self.old) (can_remove_file file.now)) result }
        ensures schedule { OnSchedule (asks.RemoveFile file.now) (schedule self.old) (schedule self.new) (allows (told self.old) (can_remove_file file.now)) result }
        ensures other { read_faults self.new ≡ read_faults self.old };

    /// Removes an empty directory, which isn't the root.
    fn remove_dir(&mut self, alloc: Global, dir: &Path) -> Result<(), FolderErr>
        ensures held { Changes (without dir.now) (told self.old) (told self.new) result }
        ensures cause { Caused (write_faults self.old) (write_faults self.new) (allows (told self.old) (can_remove_dir dir.now)) result }
        ensures memory { MemoryCaused (memory_failures self.old) (memory_failures self.new) result }
        ensures steady { Steadily (steady self.old) (steady self.new) (allows (told self.old) (can_remove_dir dir.now)) result }
        ensures schedule { OnSchedule (asks.RemoveDir dir.now) (schedule self.old) (schedule self.new) (allows (told self.old) (can_remove_dir dir.now)) result }
        ensures other { read_faults self.new ≡ read_faults self.old };

    /// Gives a file another path, at which a file stands, or nothing.
    fn rename(&mut self, alloc: Global, from: &Path, to: &Path) -> Result<(), FolderErr>
        ensures held { Changes (renamed from.now to.now) (told self.old) (told self.new) result }
        ensures cause { Caused (write_faults self.old) (write_faults self.new) (allows (told self.old) (can_rename from.now to.now)) result }
        ensures memory { MemoryCaused (memory_failures self.old) (memory_failures self.new) result }
        ensures steady { Steadily (steady self.old) (steady self.new) (allows (told self.old) (can_rename from.now to.now)) result }
        ensures schedule { OnSchedule (asks.Rename from.now to.now) (schedule self.old) (schedule self.new) (allows (told self.old) (can_rename from.now to.now)) result }
        ensures other { read_faults self.new ≡ read_faults self.old };

    /// The root is a directory, and so is what each other path stands in.
    ghost whole: { (f : Self) → TellsWhole (told f) };
}

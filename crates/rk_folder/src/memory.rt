// A folder in memory. Calls of given numbers fail.
ghost use Rattle.std.specs.Prelude.{◌≡◌, ◌++◌, ◌∷◌, IfOk, OnOk, OnErr, [], option_copied, Some, None, true, false, nat_lt};
ghost use Rattle.rk_folder.specs.Counts.{one_more};
ghost use Rattle.rk_folder.specs.Schedule.{Keeps, failing_at};
ghost use Rattle.rk_folder.specs.Told as told;
ghost use Rattle.rk_folder.specs.Whole.{IsWhole};
ghost use Rattle.rk_folder.specs.declared.folder.FolderCall.TheVariants as asks;
ghost use Rattle.rk_folder.specs.declared.folder.Standing.TheVariants.{File, Dir, Special};

use crate::held::HeldRows;
use crate::{Folder, FolderCall, FolderErr, Got, Item, Standing};
use rk_base::{Bytes, NoMemory, Path};
use std::alloc::Global;

// Each keeps a call that is asked for, and tells whether it is allowed.

fn list_allowed(held: &HeldRows, asked: &mut Vec<FolderCall>, dir: &Path) -> Result<bool, NoMemory>
    ensures allowed { IfOk result (λ b. b ≡ told.can_list dir.now held.now) }
    ensures kept { Keeps (asks.List dir.now) asked.old.items asked.new.items result }
{
    let allowed = held.can_list(dir);
    asked.push(FolderCall::List(dir.copy()?))?;
    Ok(allowed)
}

fn read_allowed(held: &HeldRows, asked: &mut Vec<FolderCall>, file: &Path) -> Result<bool, NoMemory>
    ensures allowed { IfOk result (λ b. b ≡ told.can_read file.now held.now) }
    ensures kept { Keeps (asks.Read file.now) asked.old.items asked.new.items result }
{
    let allowed = held.can_read(file);
    asked.push(FolderCall::Read(file.copy()?))?;
    Ok(allowed)
}

fn write_allowed(
    held: &HeldRows,
    asked: &mut Vec<FolderCall>,
    file: &Path,
) -> Result<bool, NoMemory>
    ensures allowed { IfOk result (λ b. b ≡ told.can_write file.now held.now) }
    ensures kept { Keeps (asks.Write file.now) asked.old.items asked.new.items result }
{
    let allowed = held.can_write(file)?;
    asked.push(FolderCall::Write(file.copy()?))?;
    Ok(allowed)
}

fn make_dir_allowed(
    held: &HeldRows,
    asked: &mut Vec<FolderCall>,
    dir: &Path,
) -> Result<bool, NoMemory>
    ensures allowed { IfOk result (λ b. b ≡ told.can_make_dir dir.now held.now) }
    ensures kept { Keeps (asks.MakeDir dir.now) asked.old.items asked.new.items result }
{
    let allowed = held.can_make_dir(dir)?;
    asked.push(FolderCall::MakeDir(dir.copy()?))?;
    Ok(allowed)
}

fn remove_file_allowed(
    held: &HeldRows,
    asked: &mut Vec<FolderCall>,
    file: &Path,
) -> Result<bool, NoMemory>
    ensures allowed { IfOk result (λ b. b ≡ told.can_remove_file file.now held.now) }
    ensures kept { Keeps (asks.RemoveFile file.now) asked.old.items asked.new.items result }
{
    let allowed = held.can_remove_file(file);
    asked.push(FolderCall::RemoveFile(file.copy()?))?;
    Ok(allowed)
}

fn remove_dir_allowed(
    alloc: Global,
    held: &HeldRows,
    asked: &mut Vec<FolderCall>,
    dir: &Path,
) -> Result<bool, NoMemory>
    ensures allowed { IfOk result (λ b. b ≡ told.can_remove_dir dir.now held.now) }
    ensures kept { Keeps (asks.RemoveDir dir.now) asked.old.items asked.new.items result }
{
    let allowed = held.can_remove_dir(alloc, dir)?;
    asked.push(FolderCall::RemoveDir(dir.copy()?))?;
    Ok(allowed)
}

fn rename_allowed(
    held: &HeldRows,
    asked: &mut Vec<FolderCall>,
    from: &Path,
    to: &Path,
) -> Result<bool, NoMemory>
    ensures allowed { IfOk result (λ b. b ≡ told.can_rename from.now to.now held.now) }
    ensures kept { Keeps (asks.Rename from.now to.now) asked.old.items asked.new.items result }
{
    let allowed = held.can_rename(from, to)?;
    asked.push(FolderCall::Rename(from.copy()?, to.copy()?))?;
    Ok(allowed)
}

/// A folder in memory, with the numbers of the calls that are to fail, the calls that were made, and its
/// counts.
#[derive(Drop)]
pub struct MemFolder {
    held: HeldRows,
    // the numbers of the calls that are to fail, and what each leaves in its file if it is a write
    failing: Vec<(u64, Option<Bytes>)>,
    calls: u64,
    asked: Vec<FolderCall>,
    read_faults: u64,
    write_faults: u64,
    memory_failures: u64,
    ghost whole: { IsWhole held },
}

// Counts a call, and finds how it is to fail.
fn counted<'a>(
    calls: &mut u64,
    failing: &'a [(u64, Option<Bytes>)],
) -> Option<&'a (u64, Option<Bytes>)>
    ensures calls { calls.new ≡ one_more calls.old }
    ensures fault { option_copied result ≡ failing_at failing.now (one_more calls.old) }
{
    *calls = calls.saturating_add(1);
    let call = *calls;
    for it in failing {
        if it.0 == call {
            return Some(it);
        }
    }
    None
}

impl MemFolder {
    ghost use Rattle.rk_folder.specs.Memory.{held_by, kept_by, is_steady, Sets};

    /// A folder with nothing in its root, in which no call fails that it allows.
    pub fn new(alloc: Global) -> Result<MemFolder, NoMemory>
        ensures held { IfOk result (λ f. held_by f ≡ told.root_alone) }
        ensures steady { IfOk result (λ f. is_steady f ≡ true) }
        ensures kept { IfOk result (λ f. kept_by f ≡ record { failing = []; calls = 0; asked = []; read_faults = 0; write_faults = 0; memory_failures = 0 }) }
    {
        let held = HeldRows::new(alloc)?;
        Ok(MemFolder {
            held,
            failing: Vec::new(alloc),
            calls: 0,
            asked: Vec::new(alloc),
            read_faults: 0,
            write_faults: 0,
            memory_failures: 0,
        })
    }

    /// What stands at a path.
    pub fn at(&self, path: &Path) -> Option<&Standing>
        ensures { option_copied result ≡ told.standing (held_by self.now) path.now }
    {
        self.held.at(path)
    }

    // Without a call of the folder: what is to stand there, where it may, and else nothing changes.

    /// Puts a file where a file stands, or nothing in a directory; else it is false.
    pub fn set_file(&mut self, alloc: Global, file: &Path, bytes: &[u8]) -> Result<bool, NoMemory>
        ensures set { Sets (told.can_write file.now) (told.with_standing file.now (File bytes.now)) (held_by self.old) (held_by self.new) result }
        ensures kept { kept_by self.new ≡ kept_by self.old }
    {
        if !self.held.can_write(file)? {
            return Ok(false);
        }
        self.held.put_file(alloc, file, bytes)?;
        Ok(true)
    }

    /// Makes a directory where nothing stands in a directory; else it is false.
    pub fn set_dir(&mut self, dir: &Path) -> Result<bool, NoMemory>
        ensures set { Sets (told.can_make_dir dir.now) (told.with_standing dir.now Dir) (held_by self.old) (held_by self.new) result }
        ensures kept { kept_by self.new ≡ kept_by self.old }
    {
        if !self.held.can_make_dir(dir)? {
            return Ok(false);
        }
        self.held.put_dir(dir)?;
        Ok(true)
    }

    /// Puts what is special where a file stands, or nothing in a directory; else it is false.
    pub fn set_special(&mut self, path: &Path) -> Result<bool, NoMemory>
        ensures set { Sets (told.can_write path.now) (told.with_standing path.now Special) (held_by self.old) (held_by self.new) result }
        ensures kept { kept_by self.new ≡ kept_by self.old }
    {
        if !self.held.can_write(path)? {
            return Ok(false);
        }
        self.held.put_special(path)?;
        Ok(true)
    }

    /// Lets a directory hold an odd name; where none stands it is false.
    pub fn set_odd(&mut self, dir: &Path) -> Result<bool, NoMemory>
        ensures set { Sets (told.can_list dir.now) (told.with_odd dir.now) (held_by self.old) (held_by self.new) result }
        ensures kept { kept_by self.new ≡ kept_by self.old }
    {
        if !self.held.can_list(dir) {
            return Ok(false);
        }
        self.held.mark_odd(dir)?;
        Ok(true)
    }

    /// Lets the call of this number, from 1 on, be a fault that leaves all as it was. Where calls are
    /// told to fail under one number, the first counts.
    pub fn fail_at(&mut self, call: u64) -> Result<(), NoMemory>
        ensures ok { OnOk result (kept_by self.new ≡ record (kept_by self.old) { failing = (kept_by self.old).failing ++ (call, None) ∷ [] }) }
        ensures err { OnErr result (kept_by self.new ≡ kept_by self.old) }
        ensures held { held_by self.new ≡ held_by self.old }
    {
        self.failing.push((call, None))?;
        Ok(())
    }

    /// Lets the call of this number be a fault that leaves these bytes, if it is a write.
    pub fn fail_write_at(&mut self, call: u64, left: Bytes) -> Result<(), NoMemory>
        ensures ok { OnOk result (kept_by self.new ≡ record (kept_by self.old) { failing = (kept_by self.old).failing ++ (call, Some left) ∷ [] }) }
        ensures err { OnErr result (kept_by self.new ≡ kept_by self.old) }
        ensures held { held_by self.new ≡ held_by self.old }
    {
        self.failing.push((call, Some(left)))?;
        Ok(())
    }

    /// How many calls there were.
    pub fn calls(&self) -> u64
        ensures { result ≡ (kept_by self.now).calls }
    {
        self.calls
    }

    /// The calls that were made, in their order, those that failed as well; one that had no memory may be missing.
    pub fn asked(&self) -> &[FolderCall]
        ensures { result.now ≡ (kept_by self.now).asked }
    {
        &self.asked
    }

    /// Forgets the calls that were made.
    pub fn clear_asked(&mut self)
        ensures kept { kept_by self.new ≡ record (kept_by self.old) { asked = [] } }
        ensures held { held_by self.new ≡ held_by self.old }
    {
        self.asked.clear();
    }

    /// How many lists and reads were faults.
    pub fn read_faults(&self) -> u64
        ensures { result ≡ (kept_by self.now).read_faults }
    {
        self.read_faults
    }

    /// How many of the other calls were faults.
    pub fn write_faults(&self) -> u64
        ensures { result ≡ (kept_by self.now).write_faults }
    {
        self.write_faults
    }

    /// How many calls had no memory.
    pub fn memory_failures(&self) -> u64
        ensures { result ≡ (kept_by self.now).memory_failures }
    {
        self.memory_failures
    }
}

impl Folder for MemFolder {
    ghost use Rattle.rk_folder.specs.Memory.{told_by, is_steady, schedule_of};

    ghost told = { told_by };

    ghost read_faults = { λ m. m.read_faults };

    ghost write_faults = { λ m. m.write_faults };

    ghost memory_failures = { λ m. m.memory_failures };

    ghost reach = { λ m. told.reach_of m.held };

    ghost steady = { is_steady };

    ghost schedule = { λ m. Some (schedule_of m) };

    ghost whole = { λ m. m.whole };

    fn list(&mut self, alloc: Global, dir: &Path) -> Result<Vec<Item>, FolderErr> {
        let fault = counted(&mut self.calls, &self.failing);
        let Ok(allowed) = list_allowed(&self.held, &mut self.asked, dir) else {
            self.memory_failures = self.memory_failures.saturating_add(1);
            return Err(FolderErr::NoMemory);
        };
        if !allowed {
            return Err(FolderErr::Failed);
        }
        if fault.is_some() {
            self.read_faults = self.read_faults.saturating_add(1);
            return Err(FolderErr::Failed);
        }
        let Ok(items) = self.held.items(alloc, dir) else {
            self.memory_failures = self.memory_failures.saturating_add(1);
            return Err(FolderErr::NoMemory);
        };
        Ok(items)
    }

    fn read(&mut self, alloc: Global, file: &Path) -> Result<Got, FolderErr> {
        let fault = counted(&mut self.calls, &self.failing);
        let Ok(allowed) = read_allowed(&self.held, &mut self.asked, file) else {
            self.memory_failures = self.memory_failures.saturating_add(1);
            return Err(FolderErr::NoMemory);
        };
        if !allowed {
            return Err(FolderErr::Failed);
        }
        if fault.is_some() {
            self.read_faults = self.read_faults.saturating_add(1);
            return Err(FolderErr::Failed);
        }
        let Ok(bytes) = self.held.bytes_at(file) else {
            self.memory_failures = self.memory_failures.saturating_add(1);
            return Err(FolderErr::NoMemory);
        };
        match bytes {
            Some(bytes) => Ok(Got::Content(bytes)),
            None => Ok(Got::Absent),
        }
    }

    fn write(&mut self, alloc: Global, file: &Path, bytes: &[u8]) -> Result<(), FolderErr> {
        let fault = counted(&mut self.calls, &self.failing);
        let Ok(allowed) = write_allowed(&self.held, &mut self.asked, file) else {
            self.memory_failures = self.memory_failures.saturating_add(1);
            return Err(FolderErr::NoMemory);
        };
        if !allowed {
            return Err(FolderErr::Failed);
        }
        match fault {
            None => {
                if self.held.put_file(alloc, file, bytes).is_err() {
                    self.memory_failures = self.memory_failures.saturating_add(1);
                    return Err(FolderErr::NoMemory);
                }
                Ok(())
            }
            Some(fault) => {
                if self.held.spoil(alloc, file, fault.1.as_ref()).is_err() {
                    self.memory_failures = self.memory_failures.saturating_add(1);
                    return Err(FolderErr::NoMemory);
                }
                self.write_faults = self.write_faults.saturating_add(1);
                Err(FolderErr::Failed)
            }
        }
    }

    fn make_dir(&mut self, alloc: Global, dir: &Path) -> Result<(), FolderErr> {
        let fault = counted(&mut self.calls, &self.failing);
        let Ok(allowed) = make_dir_allowed(&self.held, &mut self.asked, dir) else {
            self.memory_failures = self.memory_failures.saturating_add(1);
            return Err(FolderErr::NoMemory);
        };
        if !allowed {
            return Err(FolderErr::Failed);
        }
        if fault.is_some() {
            self.write_faults = self.write_faults.saturating_add(1);
            return Err(FolderErr::Failed);
        }
        if self.held.put_dir(dir).is_err() {
            self.memory_failures = self.memory_failures.saturating_add(1);
            return Err(FolderErr::NoMemory);
        }
        Ok(())
    }

    fn remove_file(&mut self, alloc: Global, file: &Path) -> Result<(), FolderErr> {
        let fault = counted(&mut self.calls, &self.failing);
        let Ok(allowed) = remove_file_allowed(&self.held, &mut self.asked, file) else {
            self.memory_failures = self.memory_failures.saturating_add(1);
            return Err(FolderErr::NoMemory);
        };
        if !allowed {
            return Err(FolderErr::Failed);
        }
        if fault.is_some() {
            self.write_faults = self.write_faults.saturating_add(1);
            return Err(FolderErr::Failed);
        }
        self.held.take_file(file);
        Ok(())
    }

    fn remove_dir(&mut self, alloc: Global, dir: &Path) -> Result<(), FolderErr> {
        let fault = counted(&mut self.calls, &self.failing);
        let Ok(allowed) = remove_dir_allowed(alloc, &self.held, &mut self.asked, dir) else {
            self.memory_failures = self.memory_failures.saturating_add(1);
            return Err(FolderErr::NoMemory);
        };
        if !allowed {
            return Err(FolderErr::Failed);
        }
        if fault.is_some() {
            self.write_faults = self.write_faults.saturating_add(1);
            return Err(FolderErr::Failed);
        }
        self.held.take_dir(dir);
        Ok(())
    }

    fn rename(&mut self, alloc: Global, from: &Path, to: &Path) -> Result<(), FolderErr> {
        let fault = counted(&mut self.calls, &self.failing);
        let Ok(allowed) = rename_allowed(&self.held, &mut self.asked, from, to) else {
            self.memory_failures = self.memory_failures.saturating_add(1);
            return Err(FolderErr::NoMemory);
        };
        if !allowed {
            return Err(FolderErr::Failed);
        }
        if fault.is_some() {
            self.write_faults = self.write_faults.saturating_add(1);
            return Err(FolderErr::Failed);
        }
        if self.held.move_file(alloc, from, to).is_err() {
            self.memory_failures = self.memory_failures.saturating_add(1);
            return Err(FolderErr::NoMemory);
        }
        Ok(())
    }
}

// A folder in memory, and what is changed of it.
ghost use Rattle.std.specs.Prelude.{◌≡◌, IfOk, OnOk, true};
ghost use Rattle.rk_folder.specs.Memory.{held_by, is_steady};
ghost use Rattle.rk_folder.specs.Told.{root_alone};
ghost use Rattle.rk_gen.specs.Changed.{changed, with_file, with_files, without_file};

use crate::{Edit, File};
use rk_base::{NoMemory, Path};
use rk_folder::{Folder, FolderErr, MemFolder, Standing};
use std::alloc::Global;

// A file is put where it may stand.
fn put_file(alloc: Global, folder: &mut MemFolder, file: &File) -> Result<(), NoMemory>
    ensures held { OnOk result (held_by folder.new ≡ with_file file.now (held_by folder.old)) }
    ensures steady { is_steady folder.new ≡ is_steady folder.old }
{
    let _ = folder.set_file(alloc, &file.path, file.bytes.as_slice())?;
    Ok(())
}

// A file is removed if it stands.
fn remove_file(alloc: Global, folder: &mut MemFolder, path: &Path) -> Result<(), NoMemory>
    requires { is_steady folder.old ≡ true }
    ensures held { OnOk result (held_by folder.new ≡ without_file path.now (held_by folder.old)) }
    ensures steady { is_steady folder.new ≡ is_steady folder.old }
{
    match folder.at(path) {
        Some(Standing::File(_)) => {}
        _ => return Ok(()),
    }
    match folder.remove_file(alloc, path) {
        Ok(()) => Ok(()),
        Err(FolderErr::Failed) => unreachable!(),
        Err(FolderErr::NoMemory) => Err(NoMemory),
    }
}

/// Makes an edit. What the folder doesn't allow is passed over: a file where none may stand, and the removal of one that
/// doesn't stand. No call of the folder is to fail.
pub fn change(alloc: Global, folder: &mut MemFolder, edit: &Edit) -> Result<(), NoMemory>
    requires { is_steady folder.old ≡ true }
    ensures held { OnOk result (held_by folder.new ≡ changed edit.now (held_by folder.old)) }
    ensures steady { is_steady folder.new ≡ is_steady folder.old }
{
    match edit {
        Edit::Write(file) => put_file(alloc, folder, file),
        Edit::Remove(path) => remove_file(alloc, folder, path),
        Edit::Nothing => Ok(()),
    }
}

fn put_files(alloc: Global, folder: &mut MemFolder, files: &[File]) -> Result<(), NoMemory>
    ensures held { OnOk result (held_by folder.new ≡ with_files files.now (held_by folder.old)) }
    ensures steady { is_steady folder.new ≡ is_steady folder.old }
{
    for file in files {
        put_file(alloc, folder, file)?;
    }
    Ok(())
}

/// A folder of these files.
pub fn start_folder(alloc: Global, files: &[File]) -> Result<MemFolder, NoMemory>
    ensures held { IfOk result (λ folder. held_by folder ≡ with_files files.now root_alone) }
    ensures steady { IfOk result (λ folder. is_steady folder ≡ true) }
{
    let mut folder = MemFolder::new(alloc)?;
    put_files(alloc, &mut folder, files)?;
    Ok(folder)
}

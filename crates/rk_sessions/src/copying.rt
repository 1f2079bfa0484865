// Folders that are copied.
use rk_base::{NoMemory, Path};
use rk_folder::{Folder, Item, MemFolder, Standing};
use std::alloc::Global;

fn put_file(
    alloc: Global,
    from: &MemFolder,
    to: &mut MemFolder,
    path: &Path,
) -> Result<(), NoMemory> {
    if let Some(Standing::File(bytes)) = from.at(path) {
        to.set_file(alloc, path, bytes.as_slice())?;
    }
    Ok(())
}

// A directory is gone through later.
fn put_dir(to: &mut MemFolder, path: Path, dirs: &mut Vec<Path>) -> Result<(), NoMemory> {
    to.set_dir(&path)?;
    dirs.push(path)?;
    Ok(())
}

fn put_special(to: &mut MemFolder, path: &Path) -> Result<(), NoMemory> {
    to.set_special(path)?;
    Ok(())
}

fn put_odd(to: &mut MemFolder, dir: &Path) -> Result<(), NoMemory> {
    to.set_odd(dir)?;
    Ok(())
}

fn put_item(
    alloc: Global,
    from: &MemFolder,
    to: &mut MemFolder,
    dir: &Path,
    item: &Item,
    dirs: &mut Vec<Path>,
) -> Result<(), NoMemory> {
    match item {
        Item::File(name) => {
            let path = dir.join(alloc, name)?;
            put_file(alloc, from, to, &path)
        }
        Item::Dir(name) => {
            let path = dir.join(alloc, name)?;
            put_dir(to, path, dirs)
        }
        Item::Special(name) => {
            let path = dir.join(alloc, name)?;
            put_special(to, &path)
        }
        Item::Odd => put_odd(to, dir),
    }
}

// What stands in a directory.
fn put_items(
    alloc: Global,
    from: &mut MemFolder,
    to: &mut MemFolder,
    dir: &Path,
    dirs: &mut Vec<Path>,
) -> Result<(), NoMemory> {
    match from.list(alloc, dir) {
        Ok(items) => {
            'items: for item in &items {
                put_item(alloc, from, to, dir, item, dirs)?;
            }
            Ok(())
        }
        Err(_) => Err(NoMemory),
    }
}

/// A folder that holds the same; it has made no call, and none is to fail.
pub fn copied(alloc: Global, from: &mut MemFolder) -> Result<MemFolder, NoMemory> {
    let mut to = MemFolder::new(alloc)?;
    let mut dirs = Vec::new(alloc);
    dirs.push(Path::root(alloc)?)?;
    'dirs: for _ in 0..u64::MAX {
        match dirs.pop() {
            Some(dir) => put_items(alloc, from, &mut to, &dir, &mut dirs)?,
            None => break 'dirs,
        }
    }
    Ok(to)
}

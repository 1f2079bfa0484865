// Fetching from a folder.
ghost use Rattle.std.specs.Prelude.{◌≡◌, option_map};
ghost use Rattle.rk_folder.specs.Fetching.{KeptFolder};
ghost use Rattle.rk_folder.specs.Import.{told_of};

use crate::{Folder, FolderErr, Got};
use rk_base::{Bytes, Path};
use rk_tree::{Fetch, FetchErr};
use std::alloc::Global;

/// What fetches the bytes of files by reading a folder, at the paths where they stand in it. Its failures are the folder's read
/// faults.
#[derive(Drop)]
pub struct ByFolder<'a, F: Folder> {
    pub folder: &'a mut F,
}

impl<'a, F: Folder> ByFolder<'a, F> {
    /// What reads this folder.
    pub fn new(folder: &'a mut F) -> ByFolder<'a, F>
        ensures folder { result.folder.now ≡ folder.entry.now }
        ensures same { result.folder.ghost_name ≡ folder.entry.ghost_name }
    {
        ByFolder { folder }
    }
}

impl<'a, F: Folder> Fetch for ByFolder<'a, F> {
    ghost use Rattle.std.proofs.Common.{refl, ◌∙◌};
    ghost use Rattle.rk_folder.specs.Fetching.{kept-itself, kept-on};

    // The bytes of its files, where it tells what it holds.
    ghost told = { λ x. option_map told_of (F.told x.folder.now) };

    ghost faults = { λ x. F.read_faults x.folder.now };

    ghost steady = { λ x. F.steady x.folder.now };

    // The folder is the same, and it holds the same.
    ghost Keeps = { λ x y. (y.folder.ghost_name ≡ x.folder.ghost_name) × KeptFolder (record { told = F.told x.folder.now; writes = F.write_faults x.folder.now; reach = F.reach x.folder.now }) (record { told = F.told y.folder.now; writes = F.write_faults y.folder.now; reach = F.reach y.folder.now }) (F.memory_failures x.folder.now) (F.memory_failures y.folder.now) (F.schedule x.folder.now) (F.schedule y.folder.now) };

    // No call of it wanted memory.
    ghost Stays = { λ x y. F.memory_failures y.folder.now ≡ F.memory_failures x.folder.now };

    fn get(&mut self, alloc: Global, file: &Path) -> Result<Bytes, FetchErr> {
        match self.folder.read(alloc, file) {
            Ok(Got::Content(bytes)) => Ok(bytes),
            Ok(Got::Absent) => {
                let none = Bytes::from_slice(alloc, b"")?;
                Ok(none)
            }
            Err(FolderErr::Failed) => Err(FetchErr::Failed),
            Err(FolderErr::NoMemory) => Err(FetchErr::NoMemory),
        }
    }

    ghost keeps_itself = { λ x. (refl, kept-itself (F.schedule x.folder.now)) };

    ghost keeps_on = { λ x y z s t. (t.0 ∙ s.0, kept-on s.1 t.1) };

    ghost stays_itself = { λ x. refl };

    ghost stays_on = { λ x y z s t. t ∙ s };
}

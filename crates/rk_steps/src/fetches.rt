// What fetches the bytes of files as steps tell them.
ghost use Rattle.std.specs.Prelude.{◌≡◌, None, false};

use crate::{behind, number_shown, path_of, plain, push_shown, text, word};
use rk_base::{Bytes, NoMemory, Path};
use rk_tree::{Fetch, FetchErr};
use std::alloc::Global;

/// What fetches the bytes that steps tell of each path, and keeps which were asked for. A path of which nothing is told fails.
#[derive(Drop)]
pub struct Fetches {
    alloc: Global,
    files: Vec<(Path, Bytes)>,
    asked: Vec<Path>,
    faults: u64,
}

impl Fetches {
    /// Nothing is told, and nothing was asked for.
    pub fn new(alloc: Global) -> Fetches {
        Fetches {
            alloc,
            files: Vec::new(alloc),
            asked: Vec::new(alloc),
            faults: 0,
        }
    }

    // The bytes at a path; those that were told last count.
    fn bytes_at(&self, path: &Path) -> Result<Option<Bytes>, NoMemory> {
        let mut found = None;
        'files: for (other, bytes) in &self.files {
            if other.same(path) {
                found = Some(bytes.copy()?);
            }
        }
        Ok(found)
    }

    // The bytes at a path, which was asked for.
    fn asked_for(&mut self, path: &Path) -> Result<Option<Bytes>, NoMemory>
        ensures { self.new.faults ≡ self.old.faults }
    {
        self.asked.push(path.copy()?)?;
        self.bytes_at(path)
    }

    fn tell(&mut self, words: &[Vec<u8>]) -> Result<String, NoMemory> {
        let bytes = Bytes::from_slice(self.alloc, word(words, 1))?;
        match path_of(self.alloc, word(words, 0))? {
            Some(path) => {
                self.files.push((path, bytes))?;
                plain(self.alloc, "told")
            }
            None => plain(self.alloc, "no path"),
        }
    }

    // How many were asked for since this was looked at last, and the path of each, in order.
    fn asked(&mut self) -> Result<String, NoMemory> {
        let mut out = number_shown(self.alloc, Some(self.asked.len()))?;
        'asked: for path in &self.asked {
            out.push(' ')?;
            push_shown(self.alloc, &mut out, path.text())?;
        }
        self.asked = Vec::new(self.alloc);
        Ok(out)
    }

    /// The steps `told PATH BYTES` and `fetched`; `None` for any other.
    pub fn step(&mut self, words: &[Vec<u8>]) -> Result<Option<String>, NoMemory> {
        match text(words, 0) {
            "told" => Ok(Some(self.tell(behind(words))?)),
            "fetched" => Ok(Some(self.asked()?)),
            _ => Ok(None),
        }
    }
}

impl Fetch for Fetches {
    // It tells nothing beforehand, so each call is free to give what it has.
    ghost told = { λ x. None };

    ghost faults = { λ x. x.faults };

    ghost steady = { λ x. false };

    ghost Keeps = { λ x y. Unit {0} };

    ghost Stays = { λ x y. Unit {0} };

    fn get(&mut self, alloc: Global, file: &Path) -> Result<Bytes, FetchErr> {
        match self.asked_for(file) {
            Ok(Some(bytes)) => Ok(bytes),
            Ok(None) => {
                self.faults = self.faults.saturating_add(1);
                Err(FetchErr::Failed)
            }
            Err(_) => Err(FetchErr::NoMemory),
        }
    }

    ghost keeps_itself = { λ x. tt };

    ghost keeps_on = { λ x y z s t. tt };

    ghost stays_itself = { λ x. tt };

    ghost stays_on = { λ x y z s t. tt };
}

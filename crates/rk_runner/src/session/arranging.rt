// What is arranged in a session: bytes, damage, changed records, special entries, and calls that fail.
use super::{Session, at};
use crate::program::Program;
use rk_base::{Bytes, NoMemory};
use rk_folder::Standing;
use rk_sessions::{altered, cut, number, size, turned};

impl<P: Program> Session<P> {
    pub(crate) fn put_bytes(&mut self, path: &str, bytes: &[u8]) -> Result<(), NoMemory> {
        let place = at(self.alloc, path)?;
        self.twin.set_file(self.alloc, &place, bytes)?;
        let is_put = self.folder.set_file(self.alloc, &place, bytes)?;
        self.is_done(is_put, path)
    }

    // Files of so many numbers, from 0 on, each behind the path, with its number as its line.
    pub(crate) fn put_files(&mut self, line: &str) -> Result<(), NoMemory> {
        let (path, count) = line.split_once(' ').unwrap_or((line, ""));
        'files: for file in 0..number(count) {
            let place = format!(in self.alloc; "{path}{file}")?;
            let text = format!(in self.alloc; "{file}\n")?;
            self.put(place.as_str(), text.as_str())?;
        }
        Ok(())
    }

    // The bytes of a file of the first folder; none where there is no file.
    fn bytes_at(&self, path: &str) -> Result<Bytes, NoMemory> {
        let place = at(self.alloc, path)?;
        match self.folder.at(&place) {
            Some(Standing::File(bytes)) => bytes.copy(),
            _ => Bytes::from_slice(self.alloc, b""),
        }
    }

    // A file is cut after so many bytes.
    pub(crate) fn cut(&mut self, line: &str) -> Result<(), NoMemory> {
        let (path, most) = line.split_once(' ').unwrap_or((line, ""));
        let bytes = self.bytes_at(path)?;
        let front = cut(self.alloc, bytes.as_slice(), size(most))?;
        self.alter(path, bytes.as_slice(), &front)
    }

    // A bit of a file's byte is turned.
    pub(crate) fn turn(&mut self, line: &str) -> Result<(), NoMemory> {
        let (path, place) = line.split_once(' ').unwrap_or((line, ""));
        let bytes = self.bytes_at(path)?;
        let other = turned(self.alloc, bytes.as_slice(), size(place))?;
        self.alter(path, bytes.as_slice(), &other)
    }

    // A record of the database is changed.
    pub(crate) fn record(&mut self, line: &str) -> Result<(), NoMemory> {
        let db = self.bytes_at("/.rkr/db")?;
        let other = altered(self.alloc, db.as_slice(), line)?;
        self.alter("/.rkr/db", db.as_slice(), other.as_slice())
    }

    // Writes bytes that have to be others than before.
    fn alter(&mut self, path: &str, old: &[u8], new: &[u8]) -> Result<(), NoMemory> {
        if old == new {
            self.tell("change", "none", path)?;
        }
        self.put_bytes(path, new)
    }

    pub(crate) fn put_special(&mut self, path: &str) -> Result<(), NoMemory> {
        let place = at(self.alloc, path)?;
        self.twin.set_special(&place)?;
        let is_put = self.folder.set_special(&place)?;
        self.is_done(is_put, path)
    }

    pub(crate) fn make_odd(&mut self, path: &str) -> Result<(), NoMemory> {
        let place = at(self.alloc, path)?;
        self.twin.set_odd(&place)?;
        let is_made = self.folder.set_odd(&place)?;
        self.is_done(is_made, path)
    }

    // The call of this number fails, from here on.
    pub(crate) fn fail(&mut self, text: &str) -> Result<(), NoMemory> {
        let call = self.folder.calls().saturating_add(number(text));
        self.folder.fail_at(call)
    }

    // The call of this number fails, from here on, and where it is a write it leaves these bytes.
    pub(crate) fn leave(&mut self, call: &str, text: &str) -> Result<(), NoMemory> {
        let call = self.folder.calls().saturating_add(number(call));
        let left = Bytes::from_slice(self.alloc, text.as_bytes())?;
        self.folder.fail_write_at(call, left)
    }
}

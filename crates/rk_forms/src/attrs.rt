// Steps of the attributes of paths, and of their spelling.
use crate::spelling::{Came, Spelt, bytes_step, came_of, not_read, spelling_shown};
use rk_attrs::{AttrRow, Attrs};
use rk_base::{Bytes, NoMemory, Path};
use rk_steps::{Subject, attrs_shown, behind, path_of, plain, row_of, text, word};
use std::alloc::Global;
use tr_attrs::{read_attrs, read_back_attrs, write_attrs};
use tr_codec::CodecErr;

/// Rows that are put together, the attributes that were last made or read, and their bytes.
#[derive(Drop)]
pub(crate) struct Attributes {
    alloc: Global,
    rows: Vec<(Path, AttrRow)>,
    attrs: Attrs,
    bytes: Bytes,
}

impl Attributes {
    pub(crate) fn new(alloc: Global) -> Result<Attributes, NoMemory> {
        Ok(Attributes {
            alloc,
            rows: Vec::new(alloc),
            attrs: Attrs::new(alloc),
            bytes: Bytes::from_slice(alloc, b"")?,
        })
    }

    fn put(&mut self, words: &[Vec<u8>]) -> Result<String, NoMemory> {
        let Some(path) = path_of(self.alloc, word(words, 0))? else {
            return plain(self.alloc, "no path");
        };
        self.rows.push((path, row_of(self.alloc, behind(words))?))?;
        plain(self.alloc, "put")
    }

    // The rows that were put, which are gone then.
    fn made(&mut self) -> Result<String, NoMemory> {
        let mut rows = Vec::new(self.alloc);
        std::mem::swap(&mut self.rows, &mut rows);
        match Attrs::from_vec(rows) {
            Some(attrs) => {
                self.attrs = attrs;
                attrs_shown(self.alloc, &self.attrs)
            }
            None => plain(self.alloc, "none"),
        }
    }

    fn spell(&mut self) -> Result<String, NoMemory> {
        self.bytes = write_attrs(self.alloc, &self.attrs)?;
        spelling_shown(self.alloc, self.bytes.as_slice())
    }

    fn back(&self) -> Result<String, NoMemory> {
        match read_back_attrs(self.alloc, &self.attrs) {
            Ok(attrs) => attrs_shown(self.alloc, &attrs),
            Err(e) => not_read(self.alloc, e),
        }
    }

    // What bytes are written as again.
    fn again(&self, bytes: &[u8]) -> Result<Bytes, CodecErr> {
        let attrs = read_attrs(self.alloc, bytes)?;
        match write_attrs(self.alloc, &attrs) {
            Ok(again) => Ok(again),
            Err(NoMemory) => Err(CodecErr::NoMemory),
        }
    }
}

impl Spelt for Attributes {
    fn bytes(&self) -> &[u8] {
        self.bytes.as_slice()
    }

    fn read(&mut self, bytes: Vec<u8>) -> Result<String, NoMemory> {
        self.bytes = Bytes::new(self.alloc, bytes)?;
        match read_attrs(self.alloc, self.bytes.as_slice()) {
            Ok(attrs) => {
                self.attrs = attrs;
                attrs_shown(self.alloc, &self.attrs)
            }
            Err(e) => not_read(self.alloc, e),
        }
    }

    fn came(&self, bytes: &[u8]) -> Result<Came, NoMemory> {
        came_of(self.again(bytes), bytes)
    }
}

impl Subject for Attributes {
    fn fresh(&mut self) -> Result<(), NoMemory> {
        *self = Attributes::new(self.alloc)?;
        Ok(())
    }

    fn step(&mut self, words: &[Vec<u8>]) -> Result<String, NoMemory> {
        match text(words, 0) {
            "put" => self.put(behind(words)),
            "made" => self.made(),
            "spell" => self.spell(),
            "back" => self.back(),
            _ => bytes_step(self.alloc, self, words),
        }
    }
}

// Steps of the lists of an install's calls, and of their spelling.
use crate::spelling::{Came, Spelt, bytes_step, came_of, not_read, spelling_shown};
use rk_base::{Bytes, NoMemory, Path};
use rk_seal::{InstallList, Op, decode, encode, read_back, spell_back};
use rk_steps::{Subject, behind, path_of, plain, push_shown, text, word};
use std::alloc::Global;

/// Calls that are put together, the list that was last made or read, and its bytes.
#[derive(Drop)]
pub(crate) struct Installs {
    alloc: Global,
    ops: Vec<Op>,
    list: Option<InstallList>,
    bytes: Bytes,
}

fn op_of(kind: &str, path: Path, bytes: Bytes) -> Option<Op> {
    match kind {
        "remove-file" => Some(Op::RemoveFile(path)),
        "remove-dir" => Some(Op::RemoveDir(path)),
        "make-dir" => Some(Op::MakeDir(path)),
        "write" => Some(Op::Write(path, bytes)),
        _ => None,
    }
}

fn kind_shown(op: &Op) -> &'static str {
    match op {
        Op::RemoveFile(_) => "; remove-file ",
        Op::RemoveDir(_) => "; remove-dir ",
        Op::MakeDir(_) => "; make-dir ",
        Op::Write(_, _) => "; write ",
    }
}

fn push_op(alloc: Global, out: &mut String, op: &Op) -> Result<(), NoMemory> {
    out.push_str(kind_shown(op))?;
    push_shown(alloc, out, op.path().text())?;
    if let Op::Write(_, bytes) = op {
        out.push(' ')?;
        push_shown(alloc, out, bytes.as_slice())?;
    }
    Ok(())
}

// How many calls there are, and up to 20 of them.
fn list_shown(alloc: Global, list: &InstallList) -> Result<String, NoMemory> {
    let ops = list.as_slice();
    let mut out = format!(in alloc; "{}", ops.len())?;
    if ops.len() > 20 {
        return Ok(out);
    }
    'ops: for op in ops {
        push_op(alloc, &mut out, op)?;
    }
    Ok(out)
}

impl Installs {
    pub(crate) fn new(alloc: Global) -> Result<Installs, NoMemory> {
        Ok(Installs {
            alloc,
            ops: Vec::new(alloc),
            list: None,
            bytes: Bytes::from_slice(alloc, b"")?,
        })
    }

    fn put(&mut self, words: &[Vec<u8>]) -> Result<String, NoMemory> {
        let bytes = Bytes::from_slice(self.alloc, word(words, 2))?;
        let Some(path) = path_of(self.alloc, word(words, 1))? else {
            return plain(self.alloc, "no path");
        };
        match op_of(text(words, 0), path, bytes) {
            Some(op) => {
                self.ops.push(op)?;
                plain(self.alloc, "put")
            }
            None => plain(self.alloc, "no call"),
        }
    }

    // The calls that were put, which are gone then.
    fn made(&mut self) -> Result<String, NoMemory> {
        let mut ops = Vec::new(self.alloc);
        std::mem::swap(&mut self.ops, &mut ops);
        self.list = InstallList::from_vec(ops);
        self.shown()
    }

    fn shown(&self) -> Result<String, NoMemory> {
        match &self.list {
            Some(list) => list_shown(self.alloc, list),
            None => plain(self.alloc, "none"),
        }
    }

    fn spell(&mut self) -> Result<String, NoMemory> {
        let Some(list) = &self.list else {
            return plain(self.alloc, "none");
        };
        self.bytes = encode(self.alloc, list)?;
        spelling_shown(self.alloc, self.bytes.as_slice())
    }

    fn back(&self) -> Result<String, NoMemory> {
        let Some(list) = &self.list else {
            return plain(self.alloc, "none");
        };
        match read_back(self.alloc, list) {
            Ok(list) => list_shown(self.alloc, &list),
            Err(e) => not_read(self.alloc, e),
        }
    }
}

impl Spelt for Installs {
    fn bytes(&self) -> &[u8] {
        self.bytes.as_slice()
    }

    fn read(&mut self, bytes: Vec<u8>) -> Result<String, NoMemory> {
        self.bytes = Bytes::new(self.alloc, bytes)?;
        match decode(self.alloc, self.bytes.as_slice()) {
            Ok(list) => {
                self.list = Some(list);
                self.shown()
            }
            Err(e) => not_read(self.alloc, e),
        }
    }

    fn came(&self, bytes: &[u8]) -> Result<Came, NoMemory> {
        came_of(spell_back(self.alloc, bytes), bytes)
    }
}

impl Subject for Installs {
    fn fresh(&mut self) -> Result<(), NoMemory> {
        *self = Installs::new(self.alloc)?;
        Ok(())
    }

    fn step(&mut self, words: &[Vec<u8>]) -> Result<String, NoMemory> {
        match text(words, 0) {
            "put" => self.put(behind(words)),
            "made" => self.made(),
            "spell" => self.spell(),
            "back" => self.back(),
            _ => bytes_step(self.alloc, self, words),
        }
    }
}

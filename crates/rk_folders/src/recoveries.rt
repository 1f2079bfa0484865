// Steps of lists of calls that are sealed in a folder in memory, and finished there.
use crate::folders::Held;
use rk_base::{Bytes, NoMemory, Path};
use rk_folder::install_file;
use rk_install::{InstallErr, RecoverErr, recover};
use rk_seal::{InstallList, Op, encode};
use rk_steps::{Subject, behind, path_of, plain, text, word};
use std::alloc::Global;
use tr_parts::Damage;

/// A folder, and calls that are put together.
#[derive(Drop)]
pub(crate) struct Recoveries {
    alloc: Global,
    held: Held,
    ops: Vec<Op>,
}

fn op_of(kind: &str, path: Path, bytes: Bytes) -> Option<Op> {
    match kind {
        "remove-file" => Some(Op::RemoveFile(path)),
        "remove-dir" => Some(Op::RemoveDir(path)),
        "make-dir" => Some(Op::MakeDir(path)),
        "write" => Some(Op::Write(path, bytes)),
        _ => None,
    }
}

/// The call that these words are.
pub(crate) fn call_of(alloc: Global, words: &[Vec<u8>]) -> Result<Option<Op>, NoMemory> {
    let bytes = Bytes::from_slice(alloc, word(words, 2))?;
    Ok(match path_of(alloc, word(words, 1))? {
        Some(path) => op_of(text(words, 0), path, bytes),
        None => None,
    })
}

/// These calls as a list, where they are one; they are gone then.
pub(crate) fn install_list_of(alloc: Global, calls: &mut Vec<Op>) -> Option<InstallList> {
    let mut ops = Vec::new(alloc);
    std::mem::swap(calls, &mut ops);
    InstallList::from_vec(ops)
}

fn damage_shown(alloc: Global, damage: Damage) -> Result<String, NoMemory> {
    match damage {
        Damage::Short(len) => {
            let text = format!(in alloc; "short {len}")?;
            Ok(text)
        }
        Damage::Digest { .. } => plain(alloc, "digest"),
        Damage::Form => plain(alloc, "form"),
    }
}

/// How a list was finished.
pub(crate) fn recovery_shown(
    alloc: Global,
    done: Result<(), RecoverErr>,
) -> Result<String, NoMemory> {
    match done {
        Ok(()) => plain(alloc, "recovered"),
        Err(RecoverErr::Damaged(damage)) => damage_shown(alloc, damage),
        Err(RecoverErr::ReadFault) => plain(alloc, "read fault"),
        Err(RecoverErr::WriteFault) => plain(alloc, "write fault"),
        Err(RecoverErr::NoMemory) => Err(NoMemory),
    }
}

/// How a list was installed.
pub(crate) fn install_shown(
    alloc: Global,
    done: Result<(), InstallErr>,
) -> Result<String, NoMemory> {
    match done {
        Ok(()) => plain(alloc, "installed"),
        Err(InstallErr::WriteFault) => plain(alloc, "write fault"),
        Err(InstallErr::NoMemory) => Err(NoMemory),
    }
}

impl Recoveries {
    pub(crate) fn new(alloc: Global) -> Result<Recoveries, NoMemory> {
        Ok(Recoveries {
            alloc,
            held: Held::new(alloc)?,
            ops: Vec::new(alloc),
        })
    }

    fn put(&mut self, words: &[Vec<u8>]) -> Result<String, NoMemory> {
        match call_of(self.alloc, words)? {
            Some(op) => {
                self.ops.push(op)?;
                plain(self.alloc, "put")
            }
            None => plain(self.alloc, "no call"),
        }
    }

    // The calls that were put, as the sealed list of the folder.
    fn seal(&mut self) -> Result<String, NoMemory> {
        let Some(list) = install_list_of(self.alloc, &mut self.ops) else {
            return plain(self.alloc, "no list");
        };
        let bytes = encode(self.alloc, &list)?;
        let path = install_file(self.alloc)?;
        let is_set = self
            .held
            .folder()
            .set_file(self.alloc, &path, bytes.as_slice())?;
        plain(self.alloc, if is_set { "sealed" } else { "refused" })
    }

    fn recover(&mut self) -> Result<String, NoMemory> {
        recovery_shown(self.alloc, recover(self.alloc, self.held.folder()))
    }
}

impl Subject for Recoveries {
    fn fresh(&mut self) -> Result<(), NoMemory> {
        *self = Recoveries::new(self.alloc)?;
        Ok(())
    }

    fn step(&mut self, words: &[Vec<u8>]) -> Result<String, NoMemory> {
        match text(words, 0) {
            "op" => self.put(behind(words)),
            "seal" => self.seal(),
            "recover" => self.recover(),
            _ => self.held.step(words),
        }
    }
}

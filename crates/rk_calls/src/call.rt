// Calls.
ghost use Rattle.std.specs.Prelude.{◌≡◌, IfOk};

use crate::{Key, RefMap};
use rk_base::{Bytes, NoMemory};

/// How a file is opened.
#[derive(Clone, Copy, Debug)]
pub enum How {
    /// For reading.
    Read,
    /// For writing; the file is made where there is none, and emptied where there is one.
    Make,
    /// For writing at its end, whatever is there; the file is made where there is none.
    Append,
}

/// What a command asks of the world, or that it launches another one. A path is an absolute text; a number is
/// one of the command's descriptors, 0 to 9, or of what it opened, from 10 on; a mode has the owner's, the
/// group's and the others' bits, of which the owner's alone count.
#[derive(Debug, Drop)]
pub enum Call {
    Open(Bytes, How),
    /// All that is left.
    Read(u64),
    /// What is left up to and with the first newline.
    ReadLine(u64),
    Write(u64, Bytes),
    /// What stands at a path; whether a link at its end is followed.
    Stat(Bytes, bool),
    /// The names in a directory.
    List(Bytes),
    ReadLink(Bytes),
    /// The canonical path of a directory.
    Walk(Bytes),
    /// Whether two paths lead to one node.
    Same(Bytes, Bytes),
    Mkdir(Bytes, u16),
    Rmdir(Bytes),
    Unlink(Bytes),
    Rename(Bytes, Bytes),
    /// A link with this text, at this path.
    Symlink(Bytes, Bytes),
    /// A second name for what stands at the first path.
    Link(Bytes, Bytes),
    Chmod(Bytes, u16),
    Pipe,
    Launch(Key, RefMap),
}

impl Call {
    /// A copy of the call, which shares its bytes.
    pub fn copy(&self) -> Result<Call, NoMemory>
        ensures { IfOk result (λ c. c ≡ self.now) }
    {
        match self {
            Call::Open(path, how) => Ok(Call::Open(path.copy()?, *how)),
            Call::Read(r) => Ok(Call::Read(*r)),
            Call::ReadLine(r) => Ok(Call::ReadLine(*r)),
            Call::Write(r, bytes) => Ok(Call::Write(*r, bytes.copy()?)),
            Call::Stat(path, follow) => Ok(Call::Stat(path.copy()?, *follow)),
            Call::List(path) => Ok(Call::List(path.copy()?)),
            Call::ReadLink(path) => Ok(Call::ReadLink(path.copy()?)),
            Call::Walk(path) => Ok(Call::Walk(path.copy()?)),
            Call::Same(a, b) => Ok(Call::Same(a.copy()?, b.copy()?)),
            Call::Mkdir(path, mode) => Ok(Call::Mkdir(path.copy()?, *mode)),
            Call::Rmdir(path) => Ok(Call::Rmdir(path.copy()?)),
            Call::Unlink(path) => Ok(Call::Unlink(path.copy()?)),
            Call::Rename(a, b) => Ok(Call::Rename(a.copy()?, b.copy()?)),
            Call::Symlink(text, path) => Ok(Call::Symlink(text.copy()?, path.copy()?)),
            Call::Link(a, b) => Ok(Call::Link(a.copy()?, b.copy()?)),
            Call::Chmod(path, mode) => Ok(Call::Chmod(path.copy()?, *mode)),
            Call::Pipe => Ok(Call::Pipe),
            Call::Launch(key, map) => Ok(Call::Launch(key.copy()?, map.copy()?)),
        }
    }
}

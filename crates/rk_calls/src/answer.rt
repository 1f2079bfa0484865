// Answers.
ghost use Rattle.std.specs.Prelude.{◌≡◌, IfOk};

use rk_base::{Bytes, Errno, FileType, NameList, NoMemory, Path};

/// What a call is answered.
#[derive(Debug, Drop, Clone)]
pub enum Answer {
    /// No call was asked: the command goes on.
    Go,
    Done,
    /// The command's next number is that of what was opened.
    Opened,
    /// Its next two numbers are a pipe's, the read end first.
    Piped,
    Content(Bytes),
    /// What stands there, its mode (0777 for a link), and whether it is a file without bytes.
    Stat {
        kind: FileType,
        mode: u16,
        empty: bool,
    },
    Names(NameList),
    /// The text of a link.
    Text(Bytes),
    /// The canonical path of a directory.
    Place(Path),
    Same(bool),
    /// The launched command has exited with this status.
    Joined(u8),
    No(Errno),
}

impl Answer {
    /// A copy of the answer, which shares its bytes.
    pub fn copy(&self) -> Result<Answer, NoMemory>
        ensures { IfOk result (λ a. a ≡ self.now) }
    {
        let copy = self.clone()?;
        Ok(copy)
    }
}

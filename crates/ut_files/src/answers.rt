// What answers tell.
ghost use Rattle.std.specs.Prelude.{◌≡◌, [], IfOk};
ghost use Rattle.ut_files.specs.Answers.{refusal, found, names_in, text_in, place_in, same_in, is_no_entry, is_exists};

use rk_base::{Bytes, Errno, FileType, NameList, NoMemory, Path};
use rk_calls::Answer;
use std::alloc::Global;

/// What stands at a path, and its mode.
#[derive(Clone, Copy, Debug)]
pub struct Stood {
    pub kind: FileType,
    pub mode: u16,
}

/// Why a call was refused, where it was.
pub fn refusal(answer: &Answer) -> Option<Errno>
    ensures { result ≡ refusal answer.now }
{
    match answer {
        Answer::Go => None,
        Answer::Done => None,
        Answer::Opened => None,
        Answer::Piped => None,
        Answer::Content(_) => None,
        Answer::Stat { .. } => None,
        Answer::Names(_) => None,
        Answer::Text(_) => None,
        Answer::Place(_) => None,
        Answer::Same(_) => None,
        Answer::Joined(_) => None,
        Answer::No(errno) => Some(*errno),
    }
}

/// What stands there.
pub fn found(answer: &Answer) -> Result<Stood, Errno>
    ensures { result ≡ found answer.now }
{
    match answer {
        Answer::Go => Ok(Stood {
            kind: FileType::File,
            mode: 0,
        }),
        Answer::Done => Ok(Stood {
            kind: FileType::File,
            mode: 0,
        }),
        Answer::Opened => Ok(Stood {
            kind: FileType::File,
            mode: 0,
        }),
        Answer::Piped => Ok(Stood {
            kind: FileType::File,
            mode: 0,
        }),
        Answer::Content(_) => Ok(Stood {
            kind: FileType::File,
            mode: 0,
        }),
        Answer::Stat { kind, mode, .. } => Ok(Stood {
            kind: *kind,
            mode: *mode,
        }),
        Answer::Names(_) => Ok(Stood {
            kind: FileType::File,
            mode: 0,
        }),
        Answer::Text(_) => Ok(Stood {
            kind: FileType::File,
            mode: 0,
        }),
        Answer::Place(_) => Ok(Stood {
            kind: FileType::File,
            mode: 0,
        }),
        Answer::Same(_) => Ok(Stood {
            kind: FileType::File,
            mode: 0,
        }),
        Answer::Joined(_) => Ok(Stood {
            kind: FileType::File,
            mode: 0,
        }),
        Answer::No(errno) => Err(*errno),
    }
}

/// The names in a directory.
pub fn names_in(alloc: Global, answer: Answer) -> Result<Result<NameList, Errno>, NoMemory>
    ensures { IfOk result (λ names. names ≡ names_in answer) }
{
    match answer {
        Answer::Go => Ok(Ok(no_names(alloc)?)),
        Answer::Done => Ok(Ok(no_names(alloc)?)),
        Answer::Opened => Ok(Ok(no_names(alloc)?)),
        Answer::Piped => Ok(Ok(no_names(alloc)?)),
        Answer::Content(_) => Ok(Ok(no_names(alloc)?)),
        Answer::Stat { .. } => Ok(Ok(no_names(alloc)?)),
        Answer::Names(names) => Ok(Ok(names)),
        Answer::Text(_) => Ok(Ok(no_names(alloc)?)),
        Answer::Place(_) => Ok(Ok(no_names(alloc)?)),
        Answer::Same(_) => Ok(Ok(no_names(alloc)?)),
        Answer::Joined(_) => Ok(Ok(no_names(alloc)?)),
        Answer::No(errno) => Ok(Err(errno)),
    }
}

/// The text of a link.
pub fn text_in(alloc: Global, answer: Answer) -> Result<Result<Bytes, Errno>, NoMemory>
    ensures { IfOk result (λ text. text ≡ text_in answer) }
{
    match answer {
        Answer::Go => Ok(Ok(Bytes::from_slice(alloc, b"")?)),
        Answer::Done => Ok(Ok(Bytes::from_slice(alloc, b"")?)),
        Answer::Opened => Ok(Ok(Bytes::from_slice(alloc, b"")?)),
        Answer::Piped => Ok(Ok(Bytes::from_slice(alloc, b"")?)),
        Answer::Content(_) => Ok(Ok(Bytes::from_slice(alloc, b"")?)),
        Answer::Stat { .. } => Ok(Ok(Bytes::from_slice(alloc, b"")?)),
        Answer::Names(_) => Ok(Ok(Bytes::from_slice(alloc, b"")?)),
        Answer::Text(text) => Ok(Ok(text)),
        Answer::Place(_) => Ok(Ok(Bytes::from_slice(alloc, b"")?)),
        Answer::Same(_) => Ok(Ok(Bytes::from_slice(alloc, b"")?)),
        Answer::Joined(_) => Ok(Ok(Bytes::from_slice(alloc, b"")?)),
        Answer::No(errno) => Ok(Err(errno)),
    }
}

/// The canonical path of a directory.
pub fn place_in(alloc: Global, answer: Answer) -> Result<Result<Path, Errno>, NoMemory>
    ensures { IfOk result (λ path. path ≡ place_in answer) }
{
    match answer {
        Answer::Go => Ok(Ok(Path::root(alloc)?)),
        Answer::Done => Ok(Ok(Path::root(alloc)?)),
        Answer::Opened => Ok(Ok(Path::root(alloc)?)),
        Answer::Piped => Ok(Ok(Path::root(alloc)?)),
        Answer::Content(_) => Ok(Ok(Path::root(alloc)?)),
        Answer::Stat { .. } => Ok(Ok(Path::root(alloc)?)),
        Answer::Names(_) => Ok(Ok(Path::root(alloc)?)),
        Answer::Text(_) => Ok(Ok(Path::root(alloc)?)),
        Answer::Place(path) => Ok(Ok(path)),
        Answer::Same(_) => Ok(Ok(Path::root(alloc)?)),
        Answer::Joined(_) => Ok(Ok(Path::root(alloc)?)),
        Answer::No(errno) => Ok(Err(errno)),
    }
}

/// Whether two paths lead to one node.
pub fn same_in(answer: &Answer) -> Result<bool, Errno>
    ensures { result ≡ same_in answer.now }
{
    match answer {
        Answer::Go => Ok(false),
        Answer::Done => Ok(false),
        Answer::Opened => Ok(false),
        Answer::Piped => Ok(false),
        Answer::Content(_) => Ok(false),
        Answer::Stat { .. } => Ok(false),
        Answer::Names(_) => Ok(false),
        Answer::Text(_) => Ok(false),
        Answer::Place(_) => Ok(false),
        Answer::Same(same) => Ok(*same),
        Answer::Joined(_) => Ok(false),
        Answer::No(errno) => Err(*errno),
    }
}

fn no_names(alloc: Global) -> Result<NameList, NoMemory>
    ensures { IfOk result (λ names. names ≡ []) }
{
    match NameList::from_vec(alloc, Vec::new(alloc))? {
        Some(names) => Ok(names),
        None => Err(NoMemory),
    }
}

/// Whether nothing found there.
pub fn is_no_entry(errno: Errno) -> bool
    ensures { result ≡ is_no_entry errno }
{
    match errno {
        Errno::NoEntry => true,
        Errno::NotDir => false,
        Errno::IsDir => false,
        Errno::Exists => false,
        Errno::Denied => false,
        Errno::Loops => false,
        Errno::NotEmpty => false,
        Errno::BadRef => false,
        Errno::Invalid => false,
    }
}

/// Whether something found there.
pub fn is_exists(errno: Errno) -> bool
    ensures { result ≡ is_exists errno }
{
    match errno {
        Errno::NoEntry => false,
        Errno::NotDir => false,
        Errno::IsDir => false,
        Errno::Exists => true,
        Errno::Denied => false,
        Errno::Loops => false,
        Errno::NotEmpty => false,
        Errno::BadRef => false,
        Errno::Invalid => false,
    }
}

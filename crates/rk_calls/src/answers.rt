// What answers bring.
ghost use Rattle.std.specs.Prelude.{◌≡◌, [], IfOk, Ok};
ghost use Rattle.rk_calls.specs.Brought.{brought, joined};

use crate::Answer;
use rk_base::{Bytes, Errno, NoMemory};
use std::alloc::Global;

/// The bytes that an answer brings, of which only a content has any, or its refusal.
pub fn brought(alloc: Global, answer: Answer) -> Result<Result<Bytes, Errno>, NoMemory>
    ensures { IfOk result (λ it. it ≡ brought answer) }
{
    match answer {
        Answer::Go => nothing(alloc),
        Answer::Done => nothing(alloc),
        Answer::Opened => nothing(alloc),
        Answer::Piped => nothing(alloc),
        Answer::Content(bytes) => Ok(Ok(bytes)),
        Answer::Stat { .. } => nothing(alloc),
        Answer::Names(_) => nothing(alloc),
        Answer::Text(_) => nothing(alloc),
        Answer::Place(_) => nothing(alloc),
        Answer::Same(_) => nothing(alloc),
        Answer::Joined(_) => nothing(alloc),
        Answer::No(errno) => Ok(Err(errno)),
    }
}

fn nothing(alloc: Global) -> Result<Result<Bytes, Errno>, NoMemory>
    ensures { IfOk result (λ it. it ≡ Ok []) }
{
    let bytes = Bytes::from_slice(alloc, b"")?;
    Ok(Ok(bytes))
}

/// The status of a command that was launched.
pub fn joined(answer: Answer) -> u8
    ensures { result ≡ joined answer }
{
    match answer {
        Answer::Go => 0,
        Answer::Done => 0,
        Answer::Opened => 0,
        Answer::Piped => 0,
        Answer::Content(_) => 0,
        Answer::Stat { .. } => 0,
        Answer::Names(_) => 0,
        Answer::Text(_) => 0,
        Answer::Place(_) => 0,
        Answer::Same(_) => 0,
        Answer::Joined(status) => status,
        Answer::No(_) => 0,
    }
}

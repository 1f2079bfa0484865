// What a pipe gave.
ghost use Rattle.std.specs.Prelude.{◌≡◌, ◌++◌, IfOk, OnOk};
ghost use Rattle.rk_calls.specs.Brought.{brought};
ghost use Rattle.sh_split.specs.Marked.{given, captured};
ghost use Rattle.sh_expand.specs.Expands.{read_of};

use rk_base::{Bytes, Errno, NoMemory};
use rk_calls::{Answer, brought};
use sh_split::{Mark, captured, put_given};
use std::alloc::Global;

// A refused read gives nothing.
fn read_of(alloc: Global, read: Result<Bytes, Errno>) -> Result<Bytes, NoMemory>
    ensures { IfOk result (λ text. text ≡ read_of read) }
{
    match read {
        Ok(bytes) => Ok(bytes),
        Err(_) => Bytes::from_slice(alloc, b""),
    }
}

/// Puts down what a substitution's pipe gave.
pub(crate) fn put_captured(
    quoted: bool,
    answer: Answer,
    marks: &mut Vec<Mark>,
) -> Result<(), NoMemory>
    ensures { OnOk result (marks.new.items ≡ marks.old.items ++ given quoted (captured (read_of (brought answer)))) }
{
    let alloc = *marks.allocator();
    let read = brought(alloc, answer)?;
    let read = read_of(alloc, read)?;
    let text = captured(alloc, read.as_slice())?;
    put_given(quoted, text.as_slice(), marks)
}

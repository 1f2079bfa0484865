// What calls cost, and which answers give what was asked.
ghost use Rattle.std.specs.Prelude.{◌≡◌, ◌≤◌};
ghost use Rattle.ut_files.specs.Works.{cost, is_given};

use rk_calls::{Answer, Call, turns};

/// What a call costs, in turns.
pub(crate) fn cost(call: &Call) -> u64
    ensures cost { result ≡ cost call.now }
    ensures costly { 1 ≤ result }
{
    match call {
        Call::Open(_, _) => 1,
        Call::Read(_) => 1,
        Call::ReadLine(_) => 1,
        Call::Write(_, bytes) => 1 + turns(bytes.as_slice()),
        Call::Stat(_, _) => 1,
        Call::List(_) => 1,
        Call::ReadLink(_) => 1,
        Call::Walk(_) => 1,
        Call::Same(_, _) => 1,
        Call::Mkdir(_, _) => 1,
        Call::Rmdir(_) => 1,
        Call::Unlink(_) => 1,
        Call::Rename(_, _) => 1,
        Call::Symlink(_, _) => 1,
        Call::Link(_, _) => 1,
        Call::Chmod(_, _) => 1,
        Call::Pipe => 1,
        Call::Launch(_, _) => 1,
    }
}

/// Whether an answer is no refusal.
pub(crate) fn is_given(answer: &Answer) -> bool
    ensures { result ≡ is_given answer.now }
{
    match answer {
        Answer::Go => true,
        Answer::Done => true,
        Answer::Opened => true,
        Answer::Piped => true,
        Answer::Content(_) => true,
        Answer::Stat { .. } => true,
        Answer::Names(_) => true,
        Answer::Text(_) => true,
        Answer::Place(_) => true,
        Answer::Same(_) => true,
        Answer::Joined(_) => true,
        Answer::No(_) => false,
    }
}

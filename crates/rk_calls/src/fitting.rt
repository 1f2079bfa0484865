// Which answers fit which calls.
ghost use Rattle.std.specs.Prelude.{◌≡◌};
ghost use Rattle.rk_calls.specs.Fits.{fits, fits_stat};

use crate::{Answer, Call};

fn fits_stat(answer: &Answer) -> bool
    ensures { result ≡ fits_stat answer.now }
{
    match answer {
        Answer::Stat { mode, .. } => *mode <= 0o777,
        Answer::No(_) => true,
        _ => false,
    }
}

/// Whether an answer fits a call: what the world, or a launched command, may answer it.
pub fn fits(call: &Call, answer: &Answer) -> bool
    ensures { result ≡ fits call.now answer.now }
{
    match call {
        Call::Open(_, _) => matches!(answer, Answer::Opened | Answer::No(_)),
        Call::Read(_) => matches!(answer, Answer::Content(_) | Answer::No(_)),
        Call::ReadLine(_) => matches!(answer, Answer::Content(_) | Answer::No(_)),
        Call::Write(_, _) => matches!(answer, Answer::Done | Answer::No(_)),
        Call::Stat(_, _) => fits_stat(answer),
        Call::List(_) => matches!(answer, Answer::Names(_) | Answer::No(_)),
        Call::ReadLink(_) => matches!(answer, Answer::Text(_) | Answer::No(_)),
        Call::Walk(_) => matches!(answer, Answer::Place(_) | Answer::No(_)),
        Call::Same(_, _) => matches!(answer, Answer::Same(_) | Answer::No(_)),
        Call::Mkdir(_, _) => matches!(answer, Answer::Done | Answer::No(_)),
        Call::Rmdir(_) => matches!(answer, Answer::Done | Answer::No(_)),
        Call::Unlink(_) => matches!(answer, Answer::Done | Answer::No(_)),
        Call::Rename(_, _) => matches!(answer, Answer::Done | Answer::No(_)),
        Call::Symlink(_, _) => matches!(answer, Answer::Done | Answer::No(_)),
        Call::Link(_, _) => matches!(answer, Answer::Done | Answer::No(_)),
        Call::Chmod(_, _) => matches!(answer, Answer::Done | Answer::No(_)),
        Call::Pipe => matches!(answer, Answer::Piped),
        Call::Launch(_, _) => matches!(answer, Answer::Joined(_)),
    }
}

// What answers tell.
ghost use Rattle.std.specs.Prelude.{◌≡◌};
ghost use Rattle.sh_redirect.specs.Answers.{refusal};

use rk_base::Errno;
use rk_calls::Answer;

/// The refusal that an answer is.
pub(crate) fn refusal(answer: Answer) -> Option<Errno>
    ensures { result ≡ refusal answer }
{
    match answer {
        Answer::No(errno) => Some(errno),
        Answer::Go => None,
        Answer::Done => None,
        Answer::Opened => None,
        Answer::Piped => None,
        Answer::Content(_) => None,
        Answer::Stat { .. } => None,
        Answer::Names(_) => None,
        Answer::Text(_) => None,
        Answer::Place(_) => None,
        Answer::Same(_) => None,
        Answer::Joined(_) => None,
    }
}

// What answers tell of paths.
ghost use Rattle.std.specs.Prelude.{◌≡◌};
ghost use Rattle.sh_expand.specs.Told.{names_of, names_told, stands};

use rk_base::NameList;
use rk_calls::Answer;

/// The names that an answer brings.
pub(crate) fn names_of(answer: Answer) -> Option<NameList>
    ensures { names_told result ≡ names_of answer }
{
    match answer {
        Answer::Go => None,
        Answer::Done => None,
        Answer::Opened => None,
        Answer::Piped => None,
        Answer::Content(_) => None,
        Answer::Stat { .. } => None,
        Answer::Names(names) => Some(names),
        Answer::Text(_) => None,
        Answer::Place(_) => None,
        Answer::Same(_) => None,
        Answer::Joined(_) => None,
        Answer::No(_) => None,
    }
}

/// Whether something stands there.
pub(crate) fn stands(answer: Answer) -> bool
    ensures { result ≡ stands answer }
{
    match answer {
        Answer::Go => true,
        Answer::Done => true,
        Answer::Opened => true,
        Answer::Piped => true,
        Answer::Content(_) => true,
        Answer::Stat { .. } => true,
        Answer::Names(_) => true,
        Answer::Text(_) => true,
        Answer::Place(_) => true,
        Answer::Same(_) => true,
        Answer::Joined(_) => true,
        Answer::No(_) => false,
    }
}

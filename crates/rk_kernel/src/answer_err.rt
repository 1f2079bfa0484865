// Why calls have no answer.
ghost use Rattle.std.specs.Prelude.{◌≡◌};
ghost use Rattle.rk_kernel.specs.declared.answer_err.AnswerErr.TheVariants as err;

use rk_base::NoMemory;
use rk_tree::FetchErr;

/// Why a call has no answer.
#[derive(Clone, Copy, Debug, PartialEq, Eq)]
pub enum AnswerErr {
    /// The bytes of a file that it looks at couldn't be fetched.
    ReadFault,
    NoMemory,
}

impl From<NoMemory> for AnswerErr {
    ghost from_gives = { λ _ e. e ≡ err.NoMemory };

    fn from(_: NoMemory) -> AnswerErr {
        AnswerErr::NoMemory
    }
}

impl From<FetchErr> for AnswerErr {
    ghost use Rattle.rk_kernel.specs.Causes.{answer_err};

    ghost from_gives = { λ f e. e ≡ answer_err f };

    fn from(e: FetchErr) -> AnswerErr {
        match e {
            FetchErr::Failed => AnswerErr::ReadFault,
            FetchErr::NoMemory => AnswerErr::NoMemory,
        }
    }
}

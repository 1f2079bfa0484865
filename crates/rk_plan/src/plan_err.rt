// Why there is no plan.
ghost use Rattle.std.specs.Prelude.{◌≡◌};
ghost use Rattle.rk_plan.specs.declared.plan_err.PlanErr.TheVariants as err;

use rk_base::NoMemory;
use rk_kernel::AnswerErr;

/// Why there is no plan.
#[derive(Clone, Copy, Debug, PartialEq, Eq)]
pub enum PlanErr {
    /// The bytes of a file that the run looks at couldn't be fetched.
    ReadFault,
    NoMemory,
}

impl From<NoMemory> for PlanErr {
    ghost from_gives = { λ _ e. e ≡ err.NoMemory };

    fn from(_: NoMemory) -> PlanErr {
        PlanErr::NoMemory
    }
}

impl From<AnswerErr> for PlanErr {
    ghost use Rattle.rk_plan.specs.Causes.{plan_err};

    ghost from_gives = { λ a e. e ≡ plan_err a };

    fn from(e: AnswerErr) -> PlanErr {
        match e {
            AnswerErr::ReadFault => PlanErr::ReadFault,
            AnswerErr::NoMemory => PlanErr::NoMemory,
        }
    }
}

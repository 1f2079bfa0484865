// Why the work stopped.
ghost use Rattle.std.specs.Prelude.{◌≡◌};
ghost use Rattle.rk_build.specs.declared.stop.BuildErr.TheVariants as stop;

use crate::outcome::StateFile;
use rk_base::{NoMemory, Path};
use rk_kernel::AnswerErr;
use rk_tree::FetchErr;
use tr_parts::Damage;

/// Why a folder is refused as it stands.
#[derive(Debug, Drop)]
pub enum Refusal {
    Special(Path),
    Damaged(StateFile, Damage),
}

/// Why the work stopped before its end.
#[derive(Debug, Drop)]
pub enum BuildErr {
    Refused(Refusal),
    Forged { rec: u64, step: u64 },
    Spent,
    ReadFault,
    WriteFault,
    NoMemory,
}

impl From<NoMemory> for BuildErr {
    ghost from_gives = { λ _ e. e ≡ stop.NoMemory };

    fn from(_: NoMemory) -> BuildErr {
        BuildErr::NoMemory
    }
}

impl From<AnswerErr> for BuildErr {
    ghost use Rattle.rk_build.specs.Stages.{stop_of_answer};

    ghost from_gives = { λ reason e. e ≡ stop_of_answer reason };

    fn from(reason: AnswerErr) -> BuildErr {
        match reason {
            AnswerErr::ReadFault => BuildErr::ReadFault,
            AnswerErr::NoMemory => BuildErr::NoMemory,
        }
    }
}

impl From<FetchErr> for BuildErr {
    ghost use Rattle.rk_build.specs.Stages.{stop_of_fetch};

    ghost from_gives = { λ reason e. e ≡ stop_of_fetch reason };

    fn from(reason: FetchErr) -> BuildErr {
        match reason {
            FetchErr::Failed => BuildErr::ReadFault,
            FetchErr::NoMemory => BuildErr::NoMemory,
        }
    }
}

// Why builds stop.
ghost use Rattle.rk_replay.specs.Stops.{IsWant, IsHandedOn};

use rk_base::NoMemory;
use rk_traces::CheckErr;

/// Why a build over an old table doesn't end.
#[derive(Debug, Drop)]
pub enum ReplayErr<S> {
    /// The budget was spent.
    Spent,
    /// The record of this number isn't what its command says; the step's number counts from 1 on, and one past
    /// the last step is the exit.
    Forged { rec: u64, step: u64 },
    /// The world stopped so, or there was no memory.
    Stopped(S),
}

impl<S: From<NoMemory>> From<NoMemory> for ReplayErr<S> {
    ghost from_gives = { λ _ stop. IsWant S.from_gives stop };

    fn from(want: NoMemory) -> ReplayErr<S> {
        ReplayErr::Stopped(S::from(want))
    }
}

impl<S: From<NoMemory>> From<CheckErr> for ReplayErr<S> {
    ghost from_gives = { λ told stop. IsHandedOn S.from_gives told stop };

    fn from(told: CheckErr) -> ReplayErr<S> {
        match told {
            CheckErr::Forged { rec, step } => ReplayErr::Forged { rec, step },
            CheckErr::NoMemory => ReplayErr::Stopped(S::from(NoMemory)),
        }
    }
}

// Why commands run.
ghost use Rattle.std.specs.Prelude.{◌≡◌, IfOk};
ghost use Rattle.tr_matching.specs.declared.cause.Cause.TheVariants.{Differs};

use rk_base::NoMemory;
use rk_calls::Answer;

/// Why a command ran.
#[derive(Debug, Drop)]
pub enum Cause {
    /// No kept record has its key.
    NoRecord,
    /// The greatest step, from 1 on, that is the first to be answered otherwise than a kept record of its key says, with the
    /// answer of the first such record, and the one that was seen.
    Differs {
        step: u64,
        recorded: Answer,
        seen: Answer,
    },
}

impl Cause {
    /// The step of this number was answered otherwise than recorded.
    pub fn differs(step: u64, recorded: &Answer, seen: &Answer) -> Result<Cause, NoMemory>
        ensures { IfOk result (λ c. c ≡ Differs step recorded.now seen.now) }
    {
        let recorded = recorded.copy()?;
        let seen = seen.copy()?;
        Ok(Cause::Differs {
            step,
            recorded,
            seen,
        })
    }

    /// A copy of the cause.
    pub fn copy(&self) -> Result<Cause, NoMemory>
        ensures { IfOk result (λ c. c ≡ self.now) }
    {
        match self {
            Cause::NoRecord => Ok(Cause::NoRecord),
            Cause::Differs {
                step,
                recorded,
                seen,
            } => Cause::differs(*step, recorded, seen),
        }
    }
}

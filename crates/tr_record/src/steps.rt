// Steps of commands.
ghost use Rattle.std.specs.Prelude.{◌≡◌, IfOk};

use rk_base::NoMemory;
use rk_calls::{Answer, Call};

/// A step of a command: its call, the answer, and what was paid since the step before, the call's own turn
/// included, in turns.
#[derive(Debug, Drop)]
pub struct Step {
    pub cost: u64,
    pub call: Call,
    pub answer: Answer,
}

impl Step {
    /// A copy of the step.
    pub fn copy(&self) -> Result<Step, NoMemory>
        ensures { IfOk result (λ s. s ≡ self.now) }
    {
        let call = self.call.copy()?;
        let answer = self.answer.copy()?;
        Ok(Step {
            cost: self.cost,
            call,
            answer,
        })
    }
}

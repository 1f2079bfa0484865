// Machines, and what makes them.
ghost use Rattle.std.specs.Prelude.{◌≡◌, ℕ, IfOk};
ghost use Rattle.rk_calls.specs.Costly.{IsCostly};
ghost use Rattle.rk_calls.specs.Talk.{after};
ghost use Rattle.rk_calls.specs.Keys.{KeyValue};
ghost use Rattle.rk_calls.specs.Starts.{CountsOne};

use crate::{Answer, Key, Turn};
use rk_base::NoMemory;

/// A command that runs. It is resumed first with `Go`, after `Ask` with the call's answer, after `More` with
/// `Go`, and after `Exit` not again; after want of memory it is given up.
pub trait Machine: Drop {
    ghost use Rattle.rk_calls.specs.Talk.{Says};
    ghost use Rattle.rk_calls.specs.declared.answer.Answer.{Answer};

    /// What it says from here on, once it is given an answer.
    ghost talk: { Self → Answer → Says };

    /// Its next turn. A call and a `More` cost at least one turn.
    fn resume(&mut self, a: Answer) -> Result<Turn, NoMemory>
        ensures costly { IfOk result IsCostly }
        ensures talk { IfOk result (λ t. (p : ℕ) → talk self.old a p ≡ after t (talk self.new) p) };
}

/// What makes the command of a key. It counts those that it has started.
pub trait Maker {
    ghost use Rattle.rk_calls.specs.Talk.{Says};
    ghost use Rattle.rk_calls.specs.Views.{IsCommandTalk};
    ghost use Rattle.rk_calls.specs.Keys.{KeyValue};

    type Made: Machine;

    /// What the command of a key says.
    ghost first: { KeyValue → Says };

    /// How many it has started; at the largest `u64` the count stays.
    ghost starts: { Self → ℕ };

    fn start(&mut self, key: &Key) -> Result<Self::Made, NoMemory>
        ensures first { IfOk result (λ m. Self.Made.talk m Answer.Go ≡ first key.now) }
        ensures starts { CountsOne (starts self.old) (starts self.new) result };

    /// Fewer turns only cut what it says, and a mode in a call that it asks is at most 0777.
    ghost command: { (key : KeyValue) → IsCommandTalk (first key) };
}

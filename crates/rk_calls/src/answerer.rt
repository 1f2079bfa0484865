// What answers calls.
ghost use Rattle.std.specs.Prelude.{◌≡◌, IfOk, IfErr, IfSome, Some, true, false};
ghost use Rattle.std.specs.Option.{IsSomeAnd};
ghost use Rattle.rk_calls.specs.Fits.{fits, is_launch};

use crate::{Answer, Call, Refs};
use rk_base::NoMemory;

/// A world: it answers the calls of commands, but for launches. What it means may be told or not.
pub trait Answerer {
    ghost use Rattle.std.specs.Prelude.{ℕ, Option};
    ghost use Rattle.rk_base.specs.declared.memory.NoMemory.{NoMemory};
    ghost use Rattle.rk_calls.specs.Given.{Given};
    ghost use Rattle.rk_calls.specs.Refs.{RefsHeld};
    ghost use Rattle.rk_calls.specs.declared.call.Call.{Call};

    /// Why it stops: want of memory, or a reason of its own.
    type Stop: From<NoMemory>;

    ghost Meaning: { Type 0 };

    /// What it means, where it tells that.
    ghost told: { Self → Option Meaning };

    /// What a call of a command with these descriptors gives.
    ghost given: { Meaning → RefsHeld → Call → Given Meaning };

    /// What a stop says of it, before and afterwards.
    ghost Stops: { Self → Self → Self.Stop → Type 0 };

    /// The answer to a call. Where it tells what it means it tells so still, and the answer is what the call gives.
    fn answer(&mut self, refs: &mut Refs, call: &Call) -> Result<Answer, Self::Stop>
        ensures given { IfOk result (λ a. IfSome (told self.old) (λ before. IsSomeAnd (told self.new) (λ now. record { answer = a; refs = refs.new; world = now } ≡ given before refs.old call.now))) }
        ensures stops { IfErr result (Stops self.old self.new) }

        // A later stop says the same of it as it was before.
        ensures since { IfOk result (λ _. (now : Self) (stop : Self.Stop) → Stops self.new now stop → Stops self.old now stop) };

    /// Its answers fit.
    ghost fitting: { (before : Meaning) (refs : RefsHeld) (call : Call) → is_launch call ≡ false → fits call (given before refs call).answer ≡ true };

    /// Want of memory stops it at any time.
    ghost memory: { (before now : Self) (want : NoMemory) (stop : Self.Stop) → Self.Stop.from_gives want stop → Stops before now stop };
}

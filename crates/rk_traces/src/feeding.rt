// Commands that are given recorded answers.
ghost use Rattle.std.specs.Prelude.{◌≡◌, ◌↔◌, ◌≤◌, length, take, IfOk, IfErr, IsTrue};
ghost use Rattle.rk_calls.specs.Saying.{goes_on};
ghost use Rattle.rk_calls.specs.declared.answer.Answer.{Answer};
ghost use Rattle.rk_traces.specs.Spoken.{follow, Follows, IsStep};
ghost use Rattle.rk_traces.specs.Fed.{waits_at, IsWrongWithin};
ghost use Rattle.rk_traces.specs.Started.{StartsOne};

use rk_base::NoMemory;
use rk_calls::{Answer, Machine, Maker, Spoke, advance, fits, same_call};
use tr_record::{Record, Step};

/// A command that was given answers, and the answer that it is to be given next.
#[derive(Drop)]
pub struct Fed<M> {
    pub machine: M,
    pub answer: Answer,
}

/// Why a command wasn't given the answers of its record.
#[derive(Debug, Drop)]
pub enum FeedErr {
    /// It doesn't take the step with this number, from 1 on; one past the last step is the exit.
    Forged { step: u64 },
    NoMemory,
}

impl From<NoMemory> for FeedErr {
    ghost use Rattle.std.specs.Prelude.{◌≡◌};
    ghost use Rattle.rk_traces.specs.declared.feeding.FeedErr.{FeedErr};

    ghost from_gives = { λ _ e. e ≡ FeedErr.NoMemory };

    fn from(_: NoMemory) -> FeedErr {
        FeedErr::NoMemory
    }
}

/// Whether a command takes this step, once it is given an answer: it asks just this call at just this cost,
/// and the step's answer fits. It then waits for an answer.
fn takes<M: Machine>(machine: &mut M, answer: Answer, step: &Step) -> Result<bool, NoMemory>
    ensures step { IfOk result (λ b. IsTrue b ↔ IsStep (M.talk machine.old answer) step.now) }
    ensures waits { IfOk result (λ b. IsTrue b → (a : Answer) → M.talk machine.new a ≡ goes_on step.now.cost (M.talk machine.old answer) a) }
{
    let limit = step.cost;
    match advance(machine, answer, limit)? {
        Spoke::Call(call, cost) => {
            Ok(cost == limit && same_call(&call, &step.call) && fits(&step.call, &step.answer))
        }
        Spoke::Exit(_, _) => Ok(false),
        Spoke::Short => Ok(false),
    }
}

/// Starts the command of a record and gives it the first `count` answers, of which it is yet to hear the last.
///
/// Errors: the first of these steps that the command doesn't take, and want of memory.
pub fn feed<K: Maker>(maker: &mut K, rec: &Record, count: usize) -> Result<Fed<K::Made>, FeedErr>
    requires { count ≤ length rec.now.steps }
    ensures says { IfOk result (λ f. K.Made.talk f.machine f.answer ≡ follow (K.first rec.now.key) (take count rec.now.steps)) }
    ensures waits { IfOk result (λ f. 1 ≤ count → (a : Answer) → K.Made.talk f.machine a ≡ waits_at (K.first rec.now.key) rec.now.steps count a) }
    ensures follows { IfOk result (λ _. Follows (K.first rec.now.key) (take count rec.now.steps)) }
    ensures starts { StartsOne (K.starts maker.old) (K.starts maker.new) result }
    ensures forged { IfErr result (IsWrongWithin K.first rec.now count) }
{
    let mut machine = maker.start(&rec.key)?;
    let mut answer = Answer::Go;
    let mut left = rec.steps.walk();
    'steps: for i in 0..count {
        let Some((step, rest)) = left.step() else {
            unreachable!()
        };
        if !takes(&mut machine, answer, step)? {
            return Err(FeedErr::Forged { step: i as u64 + 1 });
        }
        answer = step.answer.copy()?;
        left = rest;
    }
    Ok(Fed { machine, answer })
}

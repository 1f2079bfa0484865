// Driving a machine.

ghost use Rattle.std.specs.Prelude.{◌≡◌, ◌≤◌, IfOk};
ghost use Rattle.rk_calls.specs.Saying.{speaks};
ghost use Rattle.rk_calls.specs.Heard.{IsPaid, Goes};

use crate::{Answer, Call, Machine, Turn};
use rk_base::NoMemory;

/// What a machine says next, with all that was paid since the step before.
#[derive(Debug, Drop)]
pub enum Spoke {
    Call(Call, u64),
    Exit(u8, u64),
    /// The purse doesn't meet it.
    Short,
}

/// Resumes a machine until it asks or exits.
pub fn advance<M: Machine>(m: &mut M, answer: Answer, purse: u64) -> Result<Spoke, NoMemory>
    ensures paid { IfOk result (λ x. IsPaid purse x) }
    ensures spoke { IfOk result (λ x. x ≡ speaks purse (M.talk m.old answer)) }
    ensures goes { IfOk result (λ x. Goes x (M.talk m.old answer) (M.talk m.new)) }
{
    let mut a = answer;
    let mut owed: u64 = 0;
    loop {
        match m.resume(a)? {
            Turn::Ask(call, cost) => {
                if cost > purse - owed {
                    return Ok(Spoke::Short);
                }
                return Ok(Spoke::Call(call, owed + cost));
            }
            Turn::Exit(status, cost) => {
                if cost > purse - owed {
                    return Ok(Spoke::Short);
                }
                return Ok(Spoke::Exit(status, owed + cost));
            }
            Turn::More(cost) => {
                if cost > purse - owed {
                    return Ok(Spoke::Short);
                }
                owed += cost;
                a = Answer::Go;
            }
        }
    }
}

// Records that are equal.
ghost use Rattle.std.specs.Prelude.{◌≡◌, ◌↔◌, IsTrue};

use crate::{Record, Step, StepList};
use rk_calls::{same_answer, same_call};

// Whether both are one step.
fn same_step(a: &Step, b: &Step) -> bool
    ensures { IsTrue result ↔ (a.now ≡ b.now) }
{
    a.cost == b.cost && same_call(&a.call, &b.call) && same_answer(&a.answer, &b.answer)
}

// Whether both are the same steps. How many there are is compared first.
fn same_steps(a: &StepList, b: &StepList) -> bool
    ensures { IsTrue result ↔ (a.now ≡ b.now) }
{
    if a.len() != b.len() {
        return false;
    }
    let mut left = a.walk();
    let mut other = b.walk();
    'steps: while let Some((step, rest)) = left.step() {
        match other.step() {
            Some((other_step, other_rest)) if same_step(step, other_step) => {
                left = rest;
                other = other_rest;
            }
            _ => return false,
        }
    }
    true
}

// Whether both are one record. What is told without going through the steps is compared first.
fn same_record(a: &Record, b: &Record) -> bool
    ensures { IsTrue result ↔ (a.now ≡ b.now) }
{
    a.ordinal == b.ordinal
        && a.exit == b.exit
        && a.exit_cost == b.exit_cost
        && a.key.same(&b.key)
        && same_steps(&a.steps, &b.steps)
}

/// Whether both are the same records.
pub(crate) fn same_records(a: &[Record], b: &[Record]) -> bool
    ensures { IsTrue result ↔ (a.now ≡ b.now) }
{
    if a.len() != b.len() {
        return false;
    }
    'records: for i in 0..a.len() {
        if !same_record(&a[i], &b[i]) {
            return false;
        }
    }
    true
}

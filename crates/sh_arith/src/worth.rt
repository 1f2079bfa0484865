// The value of a text.
ghost use Rattle.sh_arith.specs.Told.{Valued};

use crate::read::steps_of;
use crate::run::evaluate;
use crate::{ArithErr, Names};
use std::alloc::Global;

/// The value of the expression that a text is (XCU 2.6.4), evaluated over these names from left to right; with `nounset` an
/// unset name is a fault. `Syntax` comes where the text is no expression, with the names as they were; each other fault
/// where evaluation meets it first, with the names as it left them by then.
pub fn value<N: Names>(
    alloc: Global,
    text: &[u8],
    nounset: bool,
    names: &mut N,
) -> Result<i64, ArithErr>
    ensures { Valued nounset text.now (N.known names.old) result (N.known names.new) }
{
    match steps_of(alloc, text) {
        Ok(steps) => evaluate(alloc, nounset, steps.as_slice(), names),
        Err(fault) => Err(fault),
    }
}

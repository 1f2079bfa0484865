// Lines of usage faults.
ghost use Rattle.std.specs.Prelude.{◌≡◌, IfOk};
ghost use Rattle.sh_special.specs.Lines.{usage_line};
ghost use Rattle.sh_special.specs.Orders.{misuse, no_use};

use crate::order::Order;
use rk_base::{Bytes, NoMemory};
use rk_calls::error_line;
use std::alloc::Global;

/// `NAME: OPERAND: usage`.
pub(crate) fn misuse(alloc: Global, name: &[u8], operand: &[u8]) -> Result<Order, NoMemory>
    ensures { IfOk result (λ o. o ≡ misuse name.now operand.now) }
{
    let line = error_line(alloc, name, operand, b"usage")?;
    Ok(Order::Usage(line))
}

#[tactic(auto, unfolding(crate::specs::Lines::usage_line))]
fn usage_line(alloc: Global, name: &[u8]) -> Result<Bytes, NoMemory>
    ensures { IfOk result (λ line. line ≡ usage_line name.now) }
{
    let mut line = Vec::from_slice(alloc, name)?;
    line.extend_from_slice(b": usage\n")?;
    let line = Bytes::new(alloc, line)?;
    Ok(line)
}

/// `NAME: usage`.
pub(crate) fn no_use(alloc: Global, name: &[u8]) -> Result<Order, NoMemory>
    ensures { IfOk result (λ o. o ≡ no_use name.now) }
{
    let line = usage_line(alloc, name)?;
    Ok(Order::Usage(line))
}

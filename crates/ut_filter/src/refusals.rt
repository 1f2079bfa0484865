// Refused inputs.
ghost use Rattle.std.specs.Prelude.{◌≡◌, ◌++◌, IfOk, OnOk};
ghost use Rattle.ut_filter.specs.Refusals.{refusal, refusals};

use crate::made::Input;
use rk_base::{Bytes, NoMemory};
use rk_calls::error_line;
use std::alloc::Global;

fn add_refusal(
    alloc: Global,
    name: &[u8],
    input: &Input,
    lines: &mut Vec<u8>,
) -> Result<(), NoMemory>
    ensures { OnOk result (lines.new.items ≡ lines.old.items ++ refusal name.now input.now) }
{
    match &input.brought {
        Ok(_) => Ok(()),
        Err(errno) => {
            let line = error_line(
                alloc,
                name,
                input.operand.as_slice(),
                errno.word().as_bytes(),
            )?;
            lines.extend_from_slice(line.as_slice())?;
            Ok(())
        }
    }
}

/// A line of error text for each input that was refused.
pub fn refusal_lines(alloc: Global, name: &[u8], inputs: &[Input]) -> Result<Bytes, NoMemory>
    ensures { IfOk result (λ lines. lines ≡ refusals name.now inputs.now) }
{
    let mut lines = Vec::new(alloc);
    'inputs: for input in inputs {
        add_refusal(alloc, name, input, &mut lines)?;
    }
    Bytes::new(alloc, lines)
}

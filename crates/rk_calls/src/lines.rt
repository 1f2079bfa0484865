// Lines of error text, and what bytes cost.
ghost use Rattle.std.specs.Prelude.{◌≡◌, ◌<◌, ◌^◌, IfOk};
ghost use Rattle.rk_calls.specs.Lines.{error_line};
ghost use Rattle.rk_calls.specs.Turns.{turns};

use rk_base::{Bytes, NoMemory};
use std::alloc::Global;

/// What bytes cost, in turns: one for each 64 bytes, rounded up.
#[tactic(auto, unfolding(crate::specs::Turns::turns))]
pub fn turns(bytes: &[u8]) -> u64
    ensures turns { result ≡ turns bytes.now }
    ensures small { result < 2 ^ 60 }
{
    (bytes.len() as u64).div_ceil(64)
}

/// `NAME: OPERAND: word` and a newline.
#[tactic(auto, unfolding(crate::specs::Lines::error_line))]
pub fn error_line(
    alloc: Global,
    name: &[u8],
    operand: &[u8],
    word: &[u8],
) -> Result<Bytes, NoMemory>
    ensures { IfOk result (λ line. line ≡ error_line name.now operand.now word.now) }
{
    let mut line = Vec::from_slice(alloc, name)?;
    line.extend_from_slice(b": ")?;
    line.extend_from_slice(operand)?;
    line.extend_from_slice(b": ")?;
    line.extend_from_slice(word)?;
    line.push(b'\n')?;
    let line = Bytes::new(alloc, line)?;
    Ok(line)
}

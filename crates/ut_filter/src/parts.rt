// What inputs gave.
ghost use Rattle.std.specs.Prelude.{◌≡◌, length, IfOk};
ghost use Rattle.ut_filter.specs.Parts.{part_of, joined};

use crate::made::Input;
use rk_base::{Bytes, NoMemory};
use std::alloc::Global;

impl Input {
    /// Its bytes; none where it was refused.
    pub fn part(&self) -> &[u8]
        ensures { result.now ≡ part_of self.now }
    {
        match &self.brought {
            Ok(bytes) => bytes.as_slice(),
            Err(_) => &[],
        }
    }
}

/// How many bytes the inputs gave.
pub fn joined_length(inputs: &[Input]) -> Result<usize, NoMemory>
    ensures { IfOk result (λ n. n ≡ length (joined inputs.now)) }
{
    let mut count = 0usize;
    'inputs: for input in inputs {
        count = count.checked_add(input.part().len()).ok_or(NoMemory)?;
    }
    Ok(count)
}

// A copy, which takes its memory at once.
fn copied(alloc: Global, inputs: &[Input]) -> Result<Bytes, NoMemory>
    ensures { IfOk result (λ text. text ≡ joined inputs.now) }
{
    let mut text = Vec::with_capacity(alloc, joined_length(inputs)?)?;
    'inputs: for input in inputs {
        text.extend_from_slice(input.part())?;
    }
    Bytes::new(alloc, text)
}

// The text of one input, which both share.
fn shared(alloc: Global, input: &Input) -> Result<Bytes, NoMemory>
    ensures { IfOk result (λ text. text ≡ part_of input.now) }
{
    match &input.brought {
        Ok(bytes) => bytes.copy(),
        Err(_) => Bytes::from_slice(alloc, b""),
    }
}

/// The inputs that were read, joined. A single one shares its text, so no byte is copied.
pub fn joined(alloc: Global, inputs: &[Input]) -> Result<Bytes, NoMemory>
    ensures { IfOk result (λ text. text ≡ joined inputs.now) }
{
    match inputs {
        [input] => shared(alloc, input),
        _ => copied(alloc, inputs),
    }
}

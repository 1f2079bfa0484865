// `head`.
ghost use Rattle.std.specs.Prelude.{◌≡◌, ◌+◌, ◌≤◌, ◌++◌, [], IfOk, OnOk, codes, length};
ghost use Rattle.ut_text.specs.Heads.{first_lines, header, header_length, part_of, parts, length_brought, lengths};

use rk_base::{Bytes, NoMemory};
use std::alloc::Global;
use ut_filter::{HELD, Input, Made, Measured, Work, refusal_lines, status_of};

/// How many lines `head` shows of each input, and whether headers stand before them.
#[derive(Clone, Copy, Debug, Drop)]
pub struct Head {
    pub number: u64,
    pub headed: bool,
}

/// The first lines of a text.
pub(crate) fn first_lines(number: u64, text: &[u8]) -> &[u8]
    ensures lines { result.now ≡ first_lines number text.now }
    ensures within { length result.now ≤ length text.now }
{
    let mut left = number;
    let mut at = 0;
    'bytes: while at < text.len() && left > 0 {
        if text[at] == b'\n' {
            left -= 1;
        }
        at += 1;
    }
    text.split_at(at).0
}

fn put_header(name: &[u8], output: &mut Vec<u8>) -> Result<(), NoMemory>
    ensures { OnOk result (output.new.items ≡ output.old.items ++ header name.now output.old.items) }
{
    if !output.is_empty() {
        output.push(b'\n')?;
    }
    output.extend_from_slice(b"==> ")?;
    output.extend_from_slice(name)?;
    output.extend_from_slice(b" <==\n")?;
    Ok(())
}

// How long the output is behind a header, where it is so long before it.
fn behind_header(name: &[u8], before: usize) -> Result<usize, NoMemory>
    ensures { IfOk result (λ n. n ≡ before + header_length name.now before) }
{
    let header = if before == 0 { 9 } else { 10 };
    let named = before.checked_add(name.len()).ok_or(NoMemory)?;
    named.checked_add(header).ok_or(NoMemory)
}

impl Head {
    // How long the output is behind an input, where it is so long before it.
    fn behind(&self, input: &Input, before: usize) -> Result<usize, NoMemory>
        ensures { IfOk result (λ n. n ≡ length_brought self.now before input.now.operand input.now.brought) }
    {
        match &input.brought {
            Err(_) => Ok(before),
            Ok(bytes) => {
                let lines = first_lines(self.number, bytes.as_slice()).len();
                let start = if self.headed {
                    behind_header(input.operand.as_slice(), before)?
                } else {
                    before
                };
                start.checked_add(lines).ok_or(NoMemory)
            }
        }
    }

    // How long the output is.
    fn length(&self, inputs: &[Input]) -> Result<usize, NoMemory>
        ensures { IfOk result (λ n. n ≡ lengths self.now 0 inputs.now) }
    {
        let mut length = 0;
        'inputs: for input in inputs {
            length = self.behind(input, length)?;
        }
        Ok(length)
    }

    fn add(&self, input: &Input, output: &mut Vec<u8>) -> Result<(), NoMemory>
        ensures { OnOk result (output.new.items ≡ part_of self.now output.old.items input.now) }
    {
        match &input.brought {
            Err(_) => Ok(()),
            Ok(bytes) => {
                if self.headed {
                    put_header(input.operand.as_slice(), output)?;
                }
                output.extend_from_slice(first_lines(self.number, bytes.as_slice()))?;
                Ok(())
            }
        }
    }

    fn output(&self, alloc: Global, inputs: &[Input]) -> Result<Bytes, NoMemory>
        ensures { IfOk result (λ o. o ≡ parts self.now [] inputs.now) }
    {
        let mut output = Vec::new(alloc);
        'inputs: for input in inputs {
            self.add(input, &mut output)?;
        }
        Bytes::new(alloc, output)
    }
}

impl Work for Head {
    ghost use Rattle.ut_text.specs.Heads.{head_job};

    ghost job = { head_job };

    fn name(&self) -> &'static [u8] {
        b"head"
    }

    fn failed(&self) -> u8 {
        1
    }

    fn out(&self) -> Option<&Bytes> {
        None
    }

    fn measure(&self, alloc: Global, inputs: &[Input]) -> Result<Measured, NoMemory> {
        let length = self.length(inputs)?;
        if length > HELD {
            return Ok(Measured::Long(length));
        }
        let made = self.make(alloc, inputs)?;
        Ok(Measured::Short(made))
    }

    fn make(&self, alloc: Global, inputs: &[Input]) -> Result<Made, NoMemory> {
        let output = self.output(alloc, inputs)?;
        let errors = refusal_lines(alloc, b"head", inputs)?;
        let status = status_of(1, &errors);
        Ok(Made {
            output,
            errors,
            status,
        })
    }
}

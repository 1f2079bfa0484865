// `wc`.
ghost use Rattle.std.specs.Prelude.{◌≡◌, ◌++◌, IfOk, OnOk, codes};
ghost use Rattle.ut_text.specs.Counts.{count, sum};
ghost use Rattle.ut_text.specs.Wcs.{put_number, numbers, row, row_of, rows, totalled, none, plus_input, with_total};

use crate::count::Count;
use rk_base::{Bytes, NoMemory};
use std::alloc::Global;
use ut_filter::{Input, Made, Work, refusal_lines, status_of};

/// What `wc` tells of each input, and whether names and a total are told.
#[derive(Clone, Copy, Debug, Drop)]
pub struct Wc {
    pub lines: bool,
    pub words: bool,
    pub bytes: bool,
    pub named: bool,
    pub many: bool,
}

// A number, after a blank where something stands before it.
fn put_number(alloc: Global, wanted: bool, n: u64, line: &mut Vec<u8>) -> Result<(), NoMemory>
    ensures { OnOk result (line.new.items ≡ put_number wanted n line.old.items) }
{
    if !wanted {
        return Ok(());
    }
    if !line.is_empty() {
        line.push(b' ')?;
    }
    let digits = format!(in alloc; "{n}")?;
    line.extend_from_slice(digits.as_bytes())?;
    Ok(())
}

impl Wc {
    fn numbers(&self, alloc: Global, count: Count) -> Result<Vec<u8>, NoMemory>
        ensures { IfOk result (λ line. line.items ≡ numbers self.now count) }
    {
        let mut line = Vec::new(alloc);
        put_number(alloc, self.lines, count.lines, &mut line)?;
        put_number(alloc, self.words, count.words, &mut line)?;
        put_number(alloc, self.bytes, count.bytes, &mut line)?;
        Ok(line)
    }

    fn row(&self, alloc: Global, count: Count, name: &[u8]) -> Result<Vec<u8>, NoMemory>
        ensures { IfOk result (λ line. line.items ≡ row self.now count name.now) }
    {
        let mut line = self.numbers(alloc, count)?;
        if self.named {
            line.push(b' ')?;
            line.extend_from_slice(name)?;
        }
        line.push(b'\n')?;
        Ok(line)
    }

    // The row of an input, and the total with it.
    fn add(
        &self,
        alloc: Global,
        input: &Input,
        total: Count,
        output: &mut Vec<u8>,
    ) -> Result<Count, NoMemory>
        ensures total { IfOk result (λ t. t ≡ plus_input total input.now) }
        ensures output { OnOk result (output.new.items ≡ output.old.items ++ row_of self.now input.now) }
    {
        match &input.brought {
            Err(_) => Ok(total),
            Ok(bytes) => {
                let count = Count::of(bytes.as_slice());
                let row = self.row(alloc, count, input.operand.as_slice())?;
                output.extend_from_slice(row.as_slice())?;
                total.plus(count).ok_or(NoMemory)
            }
        }
    }
}

impl Wc {
    fn output(&self, alloc: Global, inputs: &[Input]) -> Result<Bytes, NoMemory>
        ensures { IfOk result (λ o. o ≡ with_total self.now (totalled none inputs.now) (rows self.now inputs.now)) }
    {
        let mut output = Vec::new(alloc);
        let mut total = Count::none();
        'inputs: for input in inputs {
            total = self.add(alloc, input, total, &mut output)?;
        }
        if self.many {
            let row = self.row(alloc, total, b"total")?;
            output.extend_from_slice(row.as_slice())?;
        }
        Bytes::new(alloc, output)
    }
}

impl Work for Wc {
    ghost use Rattle.ut_text.specs.Wcs.{wc_job};

    ghost job = { wc_job };

    fn name(&self) -> &'static [u8] {
        b"wc"
    }

    fn failed(&self) -> u8 {
        1
    }

    fn out(&self) -> Option<&Bytes> {
        None
    }

    fn make(&self, alloc: Global, inputs: &[Input]) -> Result<Made, NoMemory> {
        let output = self.output(alloc, inputs)?;
        let errors = refusal_lines(alloc, b"wc", inputs)?;
        let status = status_of(1, &errors);
        Ok(Made {
            output,
            errors,
            status,
        })
    }
}

// `cmp`.
ghost use Rattle.std.specs.Prelude.{◌≡◌, ◌+◌, ◌++◌, ◌==◌, [], IfOk, OnOk, count_by, codes};
ghost use Rattle.std.specs.Fmt.{decimal};
ghost use Rattle.ut_text.specs.Cmps.{common, place_line, difference, end_line, unless, differing, verdict, compared};
ghost use Rattle.ut_filter.specs.Refusals.{refusals};

use rk_base::{Bytes, NoMemory};
use std::alloc::Global;
use ut_filter::{Input, Made, Work, refusal_lines};

/// `cmp`, and whether it tells only by its status.
#[derive(Clone, Copy, Debug, Drop)]
pub struct Cmp {
    pub silent: bool,
}

// The beginning that two texts have in common.
fn common<'a>(a: &'a [u8], b: &[u8]) -> &'a [u8]
    ensures { result.now ≡ common a.now b.now }
{
    let mut at = 0;
    'bytes: while at < a.len() && at < b.len() && a[at] == b[at] {
        at += 1;
    }
    a.split_at(at).0
}

fn lines_in(text: &[u8]) -> usize
    ensures { result ≡ count_by (λ c. c == 10) text.now }
{
    text.iter().filter(|b| **b == b'\n').count()
}

fn put_number(alloc: Global, n: u64, line: &mut Vec<u8>) -> Result<(), NoMemory>
    ensures { OnOk result (line.new.items ≡ line.old.items ++ decimal n) }
{
    let digits = format!(in alloc; "{n}")?;
    line.extend_from_slice(digits.as_bytes())?;
    Ok(())
}

fn place_line(alloc: Global, char: u64, row: u64) -> Result<Vec<u8>, NoMemory>
    ensures { IfOk result (λ line. line.items ≡ place_line char row) }
{
    let mut line = Vec::from_slice(alloc, b" differ: char ")?;
    put_number(alloc, char, &mut line)?;
    line.extend_from_slice(b", line ")?;
    put_number(alloc, row, &mut line)?;
    line.push(b'\n')?;
    Ok(line)
}

// A text so long that the numbers end is more than memory can hold.
fn next_number(n: usize) -> Result<u64, NoMemory>
    ensures { IfOk result (λ m. m ≡ n + 1) }
{
    (n as u64).checked_add(1).ok_or(NoMemory)
}

// Where two texts differ that have this much in common.
fn difference(alloc: Global, a: &[u8], b: &[u8], same: &[u8]) -> Result<Vec<u8>, NoMemory>
    ensures { IfOk result (λ line. line.items ≡ difference a.now b.now same.now) }
{
    let char = next_number(same.len())?;
    let row = next_number(lines_in(same))?;
    let place = place_line(alloc, char, row)?;
    let mut line = Vec::from_slice(alloc, a)?;
    line.push(b' ')?;
    line.extend_from_slice(b)?;
    line.extend_from_slice(place.as_slice())?;
    Ok(line)
}

fn end_line(alloc: Global, file: &[u8]) -> Result<Vec<u8>, NoMemory>
    ensures { IfOk result (λ line. line.items ≡ end_line file.now) }
{
    let mut line = Vec::from_slice(alloc, b"cmp: EOF on ")?;
    line.extend_from_slice(file)?;
    line.push(b'\n')?;
    Ok(line)
}

fn nothing(alloc: Global) -> Result<Bytes, NoMemory>
    ensures { IfOk result (λ b. b ≡ []) }
{
    Bytes::new(alloc, Vec::new(alloc))
}

fn refused(alloc: Global, inputs: &[Input]) -> Result<Made, NoMemory>
    ensures { IfOk result (λ made. made ≡ record { output = []; errors = refusals (codes "cmp") inputs.now; status = 2 }) }
{
    let output = nothing(alloc)?;
    let errors = refusal_lines(alloc, b"cmp", inputs)?;
    Ok(Made {
        output,
        errors,
        status: 2,
    })
}

fn uncompared(alloc: Global) -> Result<Made, NoMemory>
    ensures { IfOk result (λ made. made ≡ record { output = []; errors = []; status = 2 }) }
{
    let output = nothing(alloc)?;
    let errors = nothing(alloc)?;
    Ok(Made {
        output,
        errors,
        status: 2,
    })
}

impl Cmp {
    fn unless(&self, alloc: Global, text: Vec<u8>) -> Result<Bytes, NoMemory>
        ensures { IfOk result (λ b. b ≡ unless self.now text.items) }
    {
        if self.silent {
            nothing(alloc)
        } else {
            Bytes::new(alloc, text)
        }
    }

    fn differing(&self, alloc: Global, output: Vec<u8>, errors: Vec<u8>) -> Result<Made, NoMemory>
        ensures { IfOk result (λ made. made ≡ differing self.now output.items errors.items) }
    {
        let output = self.unless(alloc, output)?;
        let errors = self.unless(alloc, errors)?;
        Ok(Made {
            output,
            errors,
            status: 1,
        })
    }

    // The texts of two operands, of which this is common.
    fn verdict(
        &self,
        alloc: Global,
        a: &[u8],
        b: &[u8],
        x: &[u8],
        y: &[u8],
        same: &[u8],
    ) -> Result<Made, NoMemory>
        ensures { IfOk result (λ made. made ≡ verdict self.now a.now b.now x.now y.now same.now) }
    {
        if same.len() == x.len() {
            if same.len() == y.len() {
                let output = nothing(alloc)?;
                let errors = nothing(alloc)?;
                return Ok(Made {
                    output,
                    errors,
                    status: 0,
                });
            }
            let line = end_line(alloc, a)?;
            return self.differing(alloc, Vec::new(alloc), line);
        }
        if same.len() == y.len() {
            let line = end_line(alloc, b)?;
            return self.differing(alloc, Vec::new(alloc), line);
        }
        let line = difference(alloc, a, b, same)?;
        self.differing(alloc, line, Vec::new(alloc))
    }

    fn compare(
        &self,
        alloc: Global,
        inputs: &[Input],
        a: &Input,
        b: &Input,
    ) -> Result<Made, NoMemory>
        ensures { IfOk result (λ made. made ≡ compared self.now inputs.now a.now.operand b.now.operand a.now.brought b.now.brought) }
    {
        match &a.brought {
            Err(_) => refused(alloc, inputs),
            Ok(x) => match &b.brought {
                Err(_) => refused(alloc, inputs),
                Ok(y) => {
                    let x = x.as_slice();
                    let y = y.as_slice();
                    let same = common(x, y);
                    self.verdict(
                        alloc,
                        a.operand.as_slice(),
                        b.operand.as_slice(),
                        x,
                        y,
                        same,
                    )
                }
            },
        }
    }
}

impl Work for Cmp {
    ghost use Rattle.ut_text.specs.Cmps.{cmp_job};

    ghost job = { cmp_job };

    fn name(&self) -> &'static [u8] {
        b"cmp"
    }

    fn failed(&self) -> u8 {
        2
    }

    fn out(&self) -> Option<&Bytes> {
        None
    }

    fn make(&self, alloc: Global, inputs: &[Input]) -> Result<Made, NoMemory> {
        match inputs {
            [] => uncompared(alloc),
            [_] => uncompared(alloc),
            [a, b, ..] => self.compare(alloc, inputs, a, b),
        }
    }
}

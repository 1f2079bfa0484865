// `uniq`.
ghost use Rattle.std.specs.Prelude.{◌≡◌, ◌+◌, ◌++◌, ◌∷◌, List, IfOk, OnOk};
ghost use Rattle.rk_base.specs.Text.{Text, same_text};
ghost use Rattle.ut_filter.specs.Lines.{lines_of};
ghost use Rattle.ut_text.specs.Uniqs.{is_shown, counted, row, rows, rows_from};

use rk_base::{Bytes, NoMemory};
use std::alloc::Global;
use ut_filter::{Input, Made, Work, front_line, joined, refusal_lines, status_of};

/// Which runs of equal lines `uniq` shows, whether with their counts, and the file that they go to.
#[derive(Debug, Drop)]
pub struct Uniq {
    pub counted: bool,
    pub repeated: bool,
    pub single: bool,
    pub out: Option<Bytes>,
}

// Equal lines: the first of them, and how many there are.
#[derive(Clone, Copy, Drop)]
struct Run<'a> {
    line: &'a [u8],
    count: u64,
}

// So many lines that the numbers end are more than memory can hold.
fn longer<'a>(run: Run<'a>) -> Result<Run<'a>, NoMemory>
    ensures { IfOk result (λ r. (r.line.now ≡ run.entry.line.now) × (r.count ≡ run.entry.count + 1)) }
{
    let count = run.count.checked_add(1).ok_or(NoMemory)?;
    Ok(Run {
        line: run.line,
        count,
    })
}

fn is_same(a: &[u8], b: &[u8]) -> bool
    ensures { result ≡ same_text a.now b.now }
{
    a == b
}

impl Uniq {
    fn is_shown(&self, count: u64) -> bool
        ensures { result ≡ is_shown self.now count }
    {
        let once = count == 1;
        !(self.repeated && once) && (!self.single || once)
    }

    fn put_count(&self, alloc: Global, count: u64, output: &mut Vec<u8>) -> Result<(), NoMemory>
        ensures { OnOk result (output.new.items ≡ output.old.items ++ counted self.now count) }
    {
        if !self.counted {
            return Ok(());
        }
        let digits = format!(in alloc; "{count}")?;
        output.extend_from_slice(digits.as_bytes())?;
        output.push(b' ')?;
        Ok(())
    }

    fn put_row(
        &self,
        alloc: Global,
        line: &[u8],
        count: u64,
        output: &mut Vec<u8>,
    ) -> Result<(), NoMemory>
        ensures { OnOk result (output.new.items ≡ output.old.items ++ row self.now line.now count) }
    {
        if !self.is_shown(count) {
            return Ok(());
        }
        self.put_count(alloc, count, output)?;
        output.extend_from_slice(line)?;
        output.push(b'\n')?;
        Ok(())
    }

    // One line more: it belongs to the run, or ends it.
    fn step<'a>(
        &self,
        alloc: Global,
        run: Run<'a>,
        next: &'a [u8],
        output: &mut Vec<u8>,
    ) -> Result<Run<'a>, NoMemory>
        ensures { IfOk result (λ r. (more : List Text) → output.new.items ++ rows_from self.now r.line.now r.count more ≡ output.old.items ++ rows_from self.now run.entry.line.now run.entry.count (next.now ∷ more)) }
    {
        if is_same(next, run.line) {
            return longer(run);
        }
        self.put_row(alloc, run.line, run.count, output)?;
        Ok(Run {
            line: next,
            count: 1,
        })
    }

    // The rows of the lines of a text, of which the first stands before it.
    fn put_rows(
        &self,
        alloc: Global,
        first: &[u8],
        text: &[u8],
        output: &mut Vec<u8>,
    ) -> Result<(), NoMemory>
        ensures { OnOk result (output.new.items ≡ output.old.items ++ rows_from self.now first.now 1 (lines_of text.now)) }
    {
        let mut run = Run {
            line: first,
            count: 1,
        };
        let mut rest = text;
        'lines: while let Some((next, after)) = front_line(rest) {
            run = self.step(alloc, run, next, output)?;
            rest = after;
        }
        self.put_row(alloc, run.line, run.count, output)
    }

    fn output(&self, alloc: Global, text: &[u8]) -> Result<Bytes, NoMemory>
        ensures { IfOk result (λ o. o ≡ rows self.now (lines_of text.now)) }
    {
        let mut output = Vec::new(alloc);
        if let Some((line, rest)) = front_line(text) {
            self.put_rows(alloc, line, rest, &mut output)?;
        }
        Bytes::new(alloc, output)
    }
}

impl Work for Uniq {
    ghost use Rattle.ut_text.specs.Uniqs.{uniq_job};

    ghost job = { uniq_job };

    fn name(&self) -> &'static [u8] {
        b"uniq"
    }

    fn failed(&self) -> u8 {
        1
    }

    fn out(&self) -> Option<&Bytes> {
        self.out.as_ref()
    }

    fn make(&self, alloc: Global, inputs: &[Input]) -> Result<Made, NoMemory> {
        let text = joined(alloc, inputs)?;
        let output = self.output(alloc, text.as_slice())?;
        let errors = refusal_lines(alloc, b"uniq", inputs)?;
        let status = status_of(1, &errors);
        Ok(Made {
            output,
            errors,
            status,
        })
    }
}

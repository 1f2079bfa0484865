// `tail`.
ghost use Rattle.std.specs.Prelude.{◌≡◌, ◌≤◌, IfOk, length};
ghost use Rattle.ut_filter.specs.Lines.{lines_of};
ghost use Rattle.ut_text.specs.Tails.{after_lines, tail_text};

use crate::head::first_lines;
use rk_base::{Bytes, NoMemory};
use std::alloc::Global;
use ut_filter::{Input, Made, Work, front_line, joined, refusal_lines, status_of};

/// What `tail` shows: the text from the line of this number on, or so many of its last lines.
#[derive(Clone, Copy, Debug, Drop)]
pub struct Tail {
    pub from_front: bool,
    pub number: u64,
}

// How many lines a text has.
fn count_lines(text: &[u8]) -> usize
    ensures count { result ≡ length (lines_of text.now) }
    ensures within { result ≤ length text.now }
{
    let mut rest = text;
    let mut count = 0;
    'lines: while let Some((_, after)) = front_line(rest) {
        count += 1;
        rest = after;
    }
    count
}

// What stands after so many lines.
fn after_lines(number: u64, text: &[u8]) -> &[u8]
    ensures { result.now ≡ after_lines number text.now }
{
    text.split_at(first_lines(number, text).len()).1
}

impl Tail {
    fn text<'a>(&self, text: &'a [u8]) -> &'a [u8]
        ensures { result.now ≡ tail_text self.now text.now }
    {
        if self.from_front {
            return after_lines(self.number.saturating_sub(1), text);
        }
        let count = count_lines(text) as u64;
        after_lines(count.saturating_sub(self.number), text)
    }

    fn output(&self, alloc: Global, text: &[u8]) -> Result<Bytes, NoMemory>
        ensures { IfOk result (λ o. o ≡ tail_text self.now text.now) }
    {
        Bytes::from_slice(alloc, self.text(text))
    }
}

impl Work for Tail {
    ghost use Rattle.ut_text.specs.Tails.{tail_job};

    ghost job = { tail_job };

    fn name(&self) -> &'static [u8] {
        b"tail"
    }

    fn failed(&self) -> u8 {
        1
    }

    fn out(&self) -> Option<&Bytes> {
        None
    }

    fn make(&self, alloc: Global, inputs: &[Input]) -> Result<Made, NoMemory> {
        let text = joined(alloc, inputs)?;
        let output = self.output(alloc, text.as_slice())?;
        let errors = refusal_lines(alloc, b"tail", inputs)?;
        let status = status_of(1, &errors);
        Ok(Made {
            output,
            errors,
            status,
        })
    }
}

// `cut`.
ghost use Rattle.std.specs.Prelude.{◌≡◌, ◌∷◌, ◌++◌, [], List, IfOk, OnOk, if◌then◌else◌};
ghost use Rattle.rk_base.specs.Text.{Text};
ghost use Rattle.ut_filter.specs.Lines.{lines_of};
ghost use Rattle.ut_select.specs.Cuts.{text_of, listed, whole_line, cut_line, cut_text, cut_inputs};
ghost use Rattle.ut_select.specs.Fields.{fields, joined, joined_after};

use crate::fields::front_field;
use crate::ranges::{Range, has, is_listed};
use rk_base::{Bytes, NoMemory};
use std::alloc::Global;
use std::marker::Model;
use ut_filter::{Input, Made, Work, front_line, refusal_lines, status_of};

/// How `cut` selects: bytes, or fields, which this byte ends, of all lines or only of those that have it.
#[derive(Debug, Drop)]
pub struct Cut {
    ranges: Vec<Range>,
    fields: bool,
    delimiter: u8,
    only: bool,
}

impl Model for Cut {
    ghost use Rattle.ut_select.specs.Cuts.{CutValue};

    ghost Value = { CutValue };

    ghost view = { λ c. record { ranges = c.ranges.items; fields = c.fields; delimiter = c.delimiter; only = c.only } };
}

fn put_byte(selected: bool, b: u8, output: &mut Vec<u8>) -> Result<(), NoMemory>
    ensures { OnOk result (output.new.items ≡ output.old.items ++ (if selected then b ∷ [] else [])) }
{
    if !selected {
        return Ok(());
    }
    output.push(b)?;
    Ok(())
}

fn put_bytes(ranges: &[Range], line: &[u8], output: &mut Vec<u8>) -> Result<(), NoMemory>
    ensures { OnOk result (output.new.items ≡ output.old.items ++ listed ranges.now 1 line.now) }
{
    let mut place = 1u64;
    'bytes: for b in line {
        let selected = is_listed(ranges, place);
        put_byte(selected, *b, output)?;
        place = place.checked_add(1).ok_or(NoMemory)?;
    }
    Ok(())
}

// A field that is listed, after a delimiter where another stands before it; and whether one stands before the next.
fn put_field(
    delimiter: u8,
    selected: bool,
    field: &[u8],
    started: bool,
    output: &mut Vec<u8>,
) -> Result<bool, NoMemory>
    ensures { IfOk result (λ s. (more : List Text) → output.new.items ++ joined_after s delimiter more ≡ output.old.items ++ joined_after started delimiter (if selected then field.now ∷ more else more)) }
{
    if !selected {
        return Ok(started);
    }
    if !started {
        output.extend_from_slice(field)?;
        return Ok(true);
    }
    output.push(delimiter)?;
    output.extend_from_slice(field)?;
    Ok(true)
}

fn put_fields(
    ranges: &[Range],
    delimiter: u8,
    line: &[u8],
    output: &mut Vec<u8>,
) -> Result<(), NoMemory>
    ensures { OnOk result (output.new.items ≡ output.old.items ++ joined delimiter (listed ranges.now 1 (fields delimiter line.now))) }
{
    let mut place = 1u64;
    let mut started = false;
    let mut left = Some(line);
    'fields: while let Some(text) = left {
        let (field, rest) = front_field(text, delimiter);
        let selected = is_listed(ranges, place);
        started = put_field(delimiter, selected, field, started, output)?;
        place = place.checked_add(1).ok_or(NoMemory)?;
        left = rest;
    }
    Ok(())
}

impl Cut {
    pub(crate) fn new(ranges: Vec<Range>, by_fields: bool, delimiter: u8, only: bool) -> Cut
        ensures { result ≡ record { ranges = ranges.items; fields = by_fields; delimiter = delimiter; only = only } }
    {
        Cut {
            ranges,
            fields: by_fields,
            delimiter,
            only,
        }
    }

    fn put_whole(&self, line: &[u8], output: &mut Vec<u8>) -> Result<(), NoMemory>
        ensures { OnOk result (output.new.items ≡ output.old.items ++ text_of (whole_line self.now line.now)) }
    {
        if self.only {
            return Ok(());
        }
        output.extend_from_slice(line)?;
        output.push(b'\n')?;
        Ok(())
    }

    fn put_line(&self, line: &[u8], output: &mut Vec<u8>) -> Result<(), NoMemory>
        ensures { OnOk result (output.new.items ≡ output.old.items ++ text_of (cut_line self.now line.now)) }
    {
        if !self.fields {
            put_bytes(self.ranges.as_slice(), line, output)?;
            output.push(b'\n')?;
            return Ok(());
        }
        if !has(line, self.delimiter) {
            return self.put_whole(line, output);
        }
        put_fields(self.ranges.as_slice(), self.delimiter, line, output)?;
        output.push(b'\n')?;
        Ok(())
    }

    fn put_text(&self, text: &[u8], output: &mut Vec<u8>) -> Result<(), NoMemory>
        ensures { OnOk result (output.new.items ≡ output.old.items ++ cut_text self.now (lines_of text.now)) }
    {
        let mut rest = text;
        'lines: while let Some((line, after)) = front_line(rest) {
            self.put_line(line, output)?;
            rest = after;
        }
        Ok(())
    }

    fn output(&self, alloc: Global, inputs: &[Input]) -> Result<Bytes, NoMemory>
        ensures { IfOk result (λ text. text ≡ cut_inputs self.now inputs.now) }
    {
        let mut output = Vec::new(alloc);
        'inputs: for input in inputs {
            self.put_text(input.part(), &mut output)?;
        }
        Bytes::new(alloc, output)
    }
}

impl Work for Cut {
    ghost use Rattle.ut_select.specs.Cuts.{cut_job};

    ghost job = { cut_job };

    fn name(&self) -> &'static [u8] {
        b"cut"
    }

    fn failed(&self) -> u8 {
        1
    }

    fn out(&self) -> Option<&Bytes> {
        None
    }

    fn make(&self, alloc: Global, inputs: &[Input]) -> Result<Made, NoMemory> {
        let output = self.output(alloc, inputs)?;
        let errors = refusal_lines(alloc, b"cut", inputs)?;
        let status = status_of(1, &errors);
        Ok(Made {
            output,
            errors,
            status,
        })
    }
}

// A line that is read.
ghost use Rattle.std.specs.Prelude.{◌≡◌, ◌++◌, IfOk, OnOk};
ghost use Rattle.sh_builtin.specs.Lines.{unquoted, escaped, step, end_of, line_of};

use crate::marks::{Marked, Marks};
use rk_base::NoMemory;

/// How the next byte of a line is read.
#[derive(Clone, Copy, Debug)]
pub enum Scan {
    Plain,
    /// A backslash stands before it.
    Escaped,
    /// A backslash and a newline stand before it.
    Joined,
}

/// How a line ended.
#[derive(Clone, Copy, Debug)]
pub enum End {
    /// By its newline.
    Whole,
    /// By the end of the input.
    Short,
    /// By a backslash and a newline: the next line belongs to it.
    Continued,
}

// A byte before which no backslash stands; None where it ends the line.
fn unquoted(raw: bool, b: u8, marks: &mut Marks) -> Result<Option<Scan>, NoMemory>
    ensures next { IfOk result (λ next. next ≡ (unquoted raw b).next) }
    ensures marks { OnOk result (marks.new ≡ marks.old ++ (unquoted raw b).adds) }
{
    if b == b'\n' {
        return Ok(None);
    }
    if b == b'\\' && !raw {
        return Ok(Some(Scan::Escaped));
    }
    marks.push(Marked {
        byte: b,
        quoted: false,
    })?;
    Ok(Some(Scan::Plain))
}

// A byte behind a backslash.
fn escaped(b: u8, marks: &mut Marks) -> Result<Option<Scan>, NoMemory>
    ensures next { IfOk result (λ next. next ≡ (escaped b).next) }
    ensures marks { OnOk result (marks.new ≡ marks.old ++ (escaped b).adds) }
{
    if b == b'\n' {
        return Ok(Some(Scan::Joined));
    }
    marks.push(Marked {
        byte: b,
        quoted: true,
    })?;
    Ok(Some(Scan::Plain))
}

fn step(raw: bool, scan: Scan, b: u8, marks: &mut Marks) -> Result<Option<Scan>, NoMemory>
    ensures next { IfOk result (λ next. next ≡ (step raw scan b).next) }
    ensures marks { OnOk result (marks.new ≡ marks.old ++ (step raw scan b).adds) }
{
    match scan {
        Scan::Plain => unquoted(raw, b, marks),
        Scan::Escaped => escaped(b, marks),
        Scan::Joined => unquoted(raw, b, marks),
    }
}

fn end_of(scan: Scan) -> End
    ensures { result ≡ end_of scan }
{
    match scan {
        Scan::Plain => End::Short,
        Scan::Escaped => End::Short,
        Scan::Joined => End::Continued,
    }
}

/// Adds the bytes of a line, and tells how it ended.
pub(crate) fn scan_line(raw: bool, text: &[u8], marks: &mut Marks) -> Result<End, NoMemory>
    ensures end { IfOk result (λ end. end ≡ (line_of raw text.now).end) }
    ensures marks { OnOk result (marks.new ≡ marks.old ++ (line_of raw text.now).marks) }
{
    let mut scan = Scan::Plain;
    'bytes: for b in text {
        match step(raw, scan, *b, marks)? {
            None => {
                return Ok(End::Whole);
            }
            Some(next) => {
                scan = next;
            }
        }
    }
    Ok(end_of(scan))
}

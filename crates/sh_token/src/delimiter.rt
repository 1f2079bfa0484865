// The delimiter of a here-document (XCU 2.7.4): a word without expansions.
ghost use Rattle.std.specs.Prelude.{◌≡◌, ◌≤◌, ◌++◌, length, IfOk};
ghost use Rattle.sh_token.specs.declared.delimiter.Within.TheVariants as w;
ghost use Rattle.sh_token.specs.HereDocuments as lem;

use crate::bytes::{Class, is_end};
use crate::folded::{byte, run};
use crate::quotes::raw_byte as byte_at;
use crate::words::is_quotable;
use rk_base::NoMemory;
use std::alloc::Global;

/// Where one stands within a delimiter.
#[derive(Clone, Copy)]
pub enum Within {
    Bare,
    Single,
    Double,
}

/// How a delimiter goes on: it ends, it is none, or with one or two bytes.
#[derive(Clone, Copy)]
pub enum DelimiterStep {
    Ends,
    Fails,
    One(Within),
    Two(Within),
}

fn bare_step(c: u8, d: u8, more: bool) -> DelimiterStep
    ensures { result ≡ lem.step w.Bare c d more }
{
    if is_end(c) || c == b'`' {
        DelimiterStep::Ends
    } else if c == b'\'' {
        DelimiterStep::One(Within::Single)
    } else if c == b'"' {
        DelimiterStep::One(Within::Double)
    } else if c == b'\\' && more {
        if d == 0 {
            DelimiterStep::Fails
        } else {
            DelimiterStep::Two(Within::Bare)
        }
    } else {
        DelimiterStep::One(Within::Bare)
    }
}

fn single_step(c: u8, d: u8, more: bool) -> DelimiterStep
    ensures { result ≡ lem.step w.Single c d more }
{
    if c == b'\'' {
        DelimiterStep::One(Within::Bare)
    } else if c == 0 {
        DelimiterStep::Fails
    } else {
        DelimiterStep::One(Within::Single)
    }
}

fn double_step(c: u8, d: u8, more: bool) -> DelimiterStep
    ensures { result ≡ lem.step w.Double c d more }
{
    if c == b'"' {
        DelimiterStep::One(Within::Bare)
    } else if c == 0 || c == b'`' {
        DelimiterStep::Fails
    } else if c == b'\\' && more {
        if d == 0 {
            DelimiterStep::Fails
        } else {
            DelimiterStep::Two(Within::Double)
        }
    } else {
        DelimiterStep::One(Within::Double)
    }
}

fn step_by(within: Within, c: u8, d: u8, more: bool) -> DelimiterStep
    ensures { result ≡ lem.step within c d more }
{
    match within {
        Within::Bare => bare_step(c, d, more),
        Within::Single => single_step(c, d, more),
        Within::Double => double_step(c, d, more),
    }
}

fn at_end(within: Within) -> DelimiterStep
    ensures { result ≡ lem.at_end within }
{
    match within {
        Within::Bare => DelimiterStep::Ends,
        Within::Single => DelimiterStep::Fails,
        Within::Double => DelimiterStep::Fails,
    }
}

fn step_at(within: Within, text: &[u8]) -> DelimiterStep
    ensures { result ≡ lem.step_at within text.now }
{
    match text {
        [] => at_end(within),
        [c] => step_by(within, *c, 0, false),
        [c, d, ..] => step_by(within, *c, *d, true),
    }
}

/// How many bytes go on a delimiter that begins with a text, and whether it ends behind them; else a quote isn't closed there, or a byte stands there that can't.
pub fn walk(text: &[u8]) -> (usize, bool)
    ensures count { result.0 ≡ (lem.walk w.Bare text.now).count }
    ensures ends { result.1 ≡ (lem.walk w.Bare text.now).ends }
    ensures within { result.0 ≤ length text.now }
{
    let mut within = Within::Bare;
    let mut rest = text;
    let mut count = 0;
    'steps: loop {
        match step_at(within, rest) {
            DelimiterStep::Ends => return (count, true),
            DelimiterStep::Fails => return (count, false),
            DelimiterStep::One(next) => {
                rest = rest.split_at(1).1;
                within = next;
                count += 1;
            }
            DelimiterStep::Two(next) => {
                rest = rest.split_at(2).1;
                within = next;
                count += 2;
            }
        }
    }
}

// What stands for a byte.
fn push_one(out: &mut Vec<u8>, within: Within, c: u8) -> Result<(), NoMemory>
    ensures { IfOk result (λ _. out.new.items ≡ out.old.items ++ lem.one_left within c) }
{
    let goes = match within {
        Within::Bare => c == b'\'' || c == b'"',
        Within::Single => c == b'\'',
        Within::Double => c == b'"',
    };
    if !goes {
        out.push(c)?;
    }
    Ok(())
}

// What stands for a backslash and a byte.
fn push_two(out: &mut Vec<u8>, within: Within, d: u8) -> Result<(), NoMemory>
    ensures { IfOk result (λ _. out.new.items ≡ out.old.items ++ lem.two_left within d) }
{
    match within {
        Within::Bare => {
            if d != b'\n' {
                out.push(d)?;
            }
            Ok(())
        }
        Within::Single => {
            out.push(d)?;
            Ok(())
        }
        Within::Double => push_quoted(out, d),
    }
}

fn push_quoted(out: &mut Vec<u8>, d: u8) -> Result<(), NoMemory>
    ensures { IfOk result (λ _. out.new.items ≡ out.old.items ++ lem.two_left w.Double d) }
{
    if d == b'\n' {
        return Ok(());
    }
    if !is_quotable(d) {
        out.push(b'\\')?;
    }
    out.push(d)?;
    Ok(())
}

/// The delimiter that a word is, without its quotes (XCU 2.6.7).
pub fn delimiter_of(alloc: Global, word: &[u8]) -> Result<Vec<u8>, NoMemory>
    ensures { IfOk result (λ v. v.items ≡ lem.delimiter_of w.Bare word.now) }
{
    let mut out = Vec::new(alloc);
    let mut within = Within::Bare;
    let mut rest = word;
    'steps: loop {
        match step_at(within, rest) {
            DelimiterStep::Ends => return Ok(out),
            DelimiterStep::Fails => return Ok(out),
            DelimiterStep::One(next) => {
                push_one(&mut out, within, byte_at(rest, 0))?;
                rest = rest.split_at(1).1;
                within = next;
            }
            DelimiterStep::Two(next) => {
                push_two(&mut out, within, byte_at(rest, 1))?;
                rest = rest.split_at(2).1;
                within = next;
            }
        }
    }
}

/// Whether a part of a delimiter is quoted, so that its body is literal.
pub fn is_quoted(word: &[u8]) -> bool
    ensures { result ≡ lem.is_quoted word.now }
{
    let c = byte(word, run(Class::Unquoted, word));
    c == b'\\' || c == b'\'' || c == b'"'
}

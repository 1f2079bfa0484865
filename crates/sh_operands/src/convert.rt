// Conversions of `printf`.
ghost use Rattle.std.specs.Prelude.{◌≡◌, ◌++◌, [], false, IfOk, OnOk, replicate, take, option_copied};
ghost use Rattle.std.specs.Fmt.{digits, decimal};
ghost use Rattle.sh_operands.specs.Printed.{padded, zero_filled, filled, or_nought, number_in, is_none, with_bad_in, sign_of, in_64_bits, text_in, converted, is_numeric, noted, converts};

use crate::format::{Conversion, Specifier};
use crate::made::Made;
use crate::number::{Number, number_of};
use rk_base::{Bytes, NoMemory};
use std::alloc::Global;

// So many times this byte.
#[tactic(auto, using(crate::proofs::Filling::one_more))]
fn put_times(n: u64, b: u8, text: &mut Vec<u8>) -> Result<(), NoMemory>
    ensures { OnOk result (text.new.items ≡ text.old.items ++ replicate n b) }
{
    'times: for _ in 0..n {
        text.push(b)?;
    }
    Ok(())
}

fn padded(alloc: Global, left: bool, width: u64, text: &[u8]) -> Result<Vec<u8>, NoMemory>
    ensures { IfOk result (λ field. field.items ≡ padded left width text.now) }
{
    let blanks = width.saturating_sub(text.len() as u64);
    let mut field = Vec::new(alloc);
    if left {
        field.extend_from_slice(text)?;
        put_times(blanks, b' ', &mut field)?;
        return Ok(field);
    }
    put_times(blanks, b' ', &mut field)?;
    field.extend_from_slice(text)?;
    Ok(field)
}

fn zero_filled(alloc: Global, width: u64, sign: &[u8], digits: &[u8]) -> Result<Vec<u8>, NoMemory>
    ensures { IfOk result (λ field. field.items ≡ zero_filled width sign.now digits.now) }
{
    let zeros = width
        .saturating_sub(sign.len() as u64)
        .saturating_sub(digits.len() as u64);
    let mut field = Vec::from_slice(alloc, sign)?;
    put_times(zeros, b'0', &mut field)?;
    field.extend_from_slice(digits)?;
    Ok(field)
}

fn blank_filled(
    alloc: Global,
    c: Conversion,
    sign: &[u8],
    digits: &[u8],
) -> Result<Vec<u8>, NoMemory>
    ensures { IfOk result (λ field. field.items ≡ padded c.left c.width (sign.now ++ digits.now)) }
{
    let mut text = Vec::from_slice(alloc, sign)?;
    text.extend_from_slice(digits)?;
    padded(alloc, c.left, c.width, &text)
}

fn filled(alloc: Global, c: Conversion, sign: &[u8], digits: &[u8]) -> Result<Vec<u8>, NoMemory>
    ensures { IfOk result (λ field. field.items ≡ filled c sign.now digits.now) }
{
    if c.zero && !c.left {
        zero_filled(alloc, c.width, sign, digits)
    } else {
        blank_filled(alloc, c, sign, digits)
    }
}

fn or_nought(number: Option<Number>) -> Number
    ensures { result ≡ or_nought number }
{
    match number {
        Some(number) => number,
        None => Number {
            negative: false,
            magnitude: 0,
        },
    }
}

fn number_in(operand: Option<&Bytes>) -> Number
    ensures { result ≡ number_in (option_copied operand.entry) }
{
    match operand {
        None => or_nought(None),
        Some(word) => or_nought(number_of(word.as_slice())),
    }
}

fn is_none(number: Option<Number>) -> bool
    ensures { result ≡ is_none number }
{
    match number {
        None => true,
        Some(_) => false,
    }
}

fn note_bad(operand: Option<&Bytes>, made: &mut Made) -> Result<(), NoMemory>
    ensures { OnOk result (made.new ≡ with_bad_in (option_copied operand.entry) made.old) }
{
    match operand {
        None => Ok(()),
        Some(word) => {
            if is_none(number_of(word.as_slice())) {
                made.note(word)
            } else {
                Ok(())
            }
        }
    }
}

fn sign_of(n: Number) -> &'static [u8]
    ensures { result.now ≡ sign_of n }
{
    if n.negative { b"-" } else { b"" }
}

fn in_64_bits(n: Number) -> u64
    ensures { result ≡ in_64_bits n }
{
    if n.negative {
        18446744073709551615 - n.magnitude.saturating_sub(1)
    } else {
        n.magnitude
    }
}

fn text_in(operand: Option<&Bytes>) -> &[u8]
    ensures { result.now ≡ text_in (option_copied operand.entry) }
{
    match operand {
        None => b"",
        Some(word) => word.as_slice(),
    }
}

// Up to one byte.
fn first_byte(text: &[u8]) -> &[u8]
    ensures { result.now ≡ take 1 text.now }
{
    match text {
        [] => text,
        [_, ..] => text.split_at(1).0,
    }
}

fn decimal(alloc: Global, c: Conversion, n: Number) -> Result<Vec<u8>, NoMemory>
    ensures { IfOk result (λ field. field.items ≡ filled c (sign_of n) (decimal n.magnitude)) }
{
    let magnitude = n.magnitude;
    let digits = format!(in alloc; "{magnitude}")?;
    filled(alloc, c, sign_of(n), digits.as_bytes())
}

fn octal(alloc: Global, c: Conversion, n: u64) -> Result<Vec<u8>, NoMemory>
    ensures { IfOk result (λ field. field.items ≡ filled c [] (digits 8 false n)) }
{
    let digits = format!(in alloc; "{n:o}")?;
    filled(alloc, c, b"", digits.as_bytes())
}

fn hexadecimal(alloc: Global, c: Conversion, n: u64) -> Result<Vec<u8>, NoMemory>
    ensures { IfOk result (λ field. field.items ≡ filled c [] (digits 16 false n)) }
{
    let digits = format!(in alloc; "{n:x}")?;
    filled(alloc, c, b"", digits.as_bytes())
}

/// What it makes of an operand, or of none.
pub(crate) fn converted(
    alloc: Global,
    specifier: Specifier,
    c: Conversion,
    operand: Option<&Bytes>,
) -> Result<Vec<u8>, NoMemory>
    ensures { IfOk result (λ field. field.items ≡ converted specifier c (option_copied operand.entry)) }
{
    match specifier {
        Specifier::Text => padded(alloc, c.left, c.width, text_in(operand)),
        Specifier::Byte => padded(alloc, c.left, c.width, first_byte(text_in(operand))),
        Specifier::Percent => padded(alloc, c.left, c.width, b"%"),
        Specifier::Decimal => decimal(alloc, c, number_in(operand)),
        Specifier::Octal => octal(alloc, c, in_64_bits(number_in(operand))),
        Specifier::Hexadecimal => hexadecimal(alloc, c, in_64_bits(number_in(operand))),
    }
}

fn is_numeric(specifier: Specifier) -> bool
    ensures { result ≡ is_numeric specifier }
{
    match specifier {
        Specifier::Text => false,
        Specifier::Byte => false,
        Specifier::Percent => false,
        Specifier::Decimal => true,
        Specifier::Octal => true,
        Specifier::Hexadecimal => true,
    }
}

/// Notes an operand that is no number where one is wanted.
pub(crate) fn noted(c: Conversion, operand: Option<&Bytes>, made: &mut Made) -> Result<(), NoMemory>
    ensures { OnOk result (made.new ≡ noted c (option_copied operand.entry) made.old) }
{
    if is_numeric(c.specifier) {
        note_bad(operand, made)
    } else {
        Ok(())
    }
}

/// A conversion of an operand, or of none.
pub(crate) fn converts(
    alloc: Global,
    c: Conversion,
    operand: Option<&Bytes>,
    made: &mut Made,
) -> Result<(), NoMemory>
    ensures { OnOk result (made.new ≡ converts c (option_copied operand.entry) made.old) }
{
    noted(c, operand, made)?;
    let field = converted(alloc, c.specifier, c, operand)?;
    made.put(&field)
}

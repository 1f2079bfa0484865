// The fields of a line that is read.
ghost use Rattle.std.specs.Prelude.{◌≡◌, IfOk, length, reverse};
ghost use Rattle.std.specs.List.{take_while};
ghost use Rattle.sh_split.specs.Marks.{contains, is_blank};
ghost use Rattle.sh_builtin.specs.ReadValues.{bytes_of};
ghost use Rattle.sh_builtin.specs.Fields.{delimits, is_white, belongs, past_white, field_length, field, past_hard, rest, trimmed, last_value, value_before, values};

use crate::marks::Marked;
use rk_base::{Bytes, NoMemory, WordList};
use std::alloc::Global;

fn contains(ifs: &[u8], b: u8) -> bool
    ensures { result ≡ contains ifs.now b }
{
    ifs.iter().any(|c| *c == b)
}

fn is_blank(b: u8) -> bool
    ensures { result ≡ is_blank b }
{
    b == b' ' || b == b'\t' || b == b'\n'
}

fn delimits(ifs: &[u8], m: Marked) -> bool
    ensures { result ≡ delimits ifs.now m }
{
    !m.quoted && contains(ifs, m.byte)
}

fn is_white(ifs: &[u8], m: Marked) -> bool
    ensures { result ≡ is_white ifs.now m }
{
    delimits(ifs, m) && is_blank(m.byte)
}

fn belongs(ifs: &[u8], m: Marked) -> bool
    ensures { result ≡ belongs ifs.now m }
{
    !delimits(ifs, m)
}

fn white_length(ifs: &[u8], ms: &[Marked]) -> usize
    ensures { result ≡ length (take_while (is_white ifs.now) ms.now) }
{
    ms.iter().take_while(|m| is_white(ifs, **m)).count()
}

fn past_white<'a>(ifs: &[u8], ms: &'a [Marked]) -> &'a [Marked]
    ensures { result.now ≡ past_white ifs.now ms.now }
{
    ms.split_at(white_length(ifs, ms)).1
}

fn field_length(ifs: &[u8], ms: &[Marked]) -> usize
    ensures { result ≡ field_length ifs.now ms.now }
{
    ms.iter().take_while(|m| belongs(ifs, **m)).count()
}

fn field<'a>(ifs: &[u8], ms: &'a [Marked]) -> &'a [Marked]
    ensures { result.now ≡ field ifs.now ms.now }
{
    ms.split_at(field_length(ifs, ms)).0
}

fn past_hard<'a>(ifs: &[u8], ms: &'a [Marked]) -> &'a [Marked]
    ensures { result.now ≡ past_hard ifs.now ms.now }
{
    match ms {
        [] => ms,
        [m, more @ ..] => {
            if delimits(ifs, *m) {
                past_white(ifs, more)
            } else {
                ms
            }
        }
    }
}

// What stands behind a field and its delimiter.
fn rest<'a>(ifs: &[u8], ms: &'a [Marked]) -> &'a [Marked]
    ensures { result.now ≡ rest ifs.now ms.now }
{
    let behind = ms.split_at(field_length(ifs, ms)).1;
    past_hard(ifs, past_white(ifs, behind))
}

fn white_at_end(ifs: &[u8], ms: &[Marked]) -> usize
    ensures { result ≡ length (take_while (is_white ifs.now) (reverse ms.now)) }
{
    ms.iter().rev().take_while(|m| is_white(ifs, **m)).count()
}

fn trimmed<'a>(ifs: &[u8], ms: &'a [Marked]) -> &'a [Marked]
    ensures { result.now ≡ trimmed ifs.now ms.now }
{
    let white = white_at_end(ifs, ms);
    ms.split_at(ms.len().saturating_sub(white)).0
}

fn bytes_of(alloc: Global, ms: &[Marked]) -> Result<Bytes, NoMemory>
    ensures { IfOk result (λ b. b ≡ bytes_of ms.now) }
{
    let bytes = ms.iter().map(|m| m.byte).collect(alloc)?;
    let bytes = Bytes::new(alloc, bytes)?;
    Ok(bytes)
}

fn last_value(alloc: Global, ifs: &[u8], ms: &[Marked]) -> Result<Bytes, NoMemory>
    ensures { IfOk result (λ b. b ≡ last_value ifs.now ms.now) }
{
    match rest(ifs, ms) {
        [] => bytes_of(alloc, field(ifs, ms)),
        [_, ..] => bytes_of(alloc, trimmed(ifs, ms)),
    }
}

// The value of a variable behind which these stand.
fn value_before(
    alloc: Global,
    names: &[Bytes],
    ifs: &[u8],
    ms: &[Marked],
) -> Result<Bytes, NoMemory>
    ensures { IfOk result (λ b. b ≡ value_before names.now ifs.now ms.now) }
{
    match names {
        [] => last_value(alloc, ifs, ms),
        [_, ..] => bytes_of(alloc, field(ifs, ms)),
    }
}

/// A value for each variable.
pub(crate) fn values(
    alloc: Global,
    ifs: &[u8],
    names: &[Bytes],
    ms: &[Marked],
) -> Result<WordList, NoMemory>
    ensures { IfOk result (λ vs. vs ≡ values ifs.now names.now ms.now) }
{
    let mut values = WordList::new(Vec::new(alloc));
    let mut left = past_white(ifs, ms);
    'names: for (at, _) in names.iter().enumerate() {
        let more = names.split_at(at + 1).1;
        let value = value_before(alloc, more, ifs, left)?;
        values.push(value)?;
        left = rest(ifs, left);
    }
    Ok(values)
}

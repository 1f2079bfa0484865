// Parts of operands.
ghost use Rattle.std.specs.Prelude.{◌≡◌, ◌≤◌, ◌+◌, IfOk, take, drop, length};
ghost use Rattle.std.specs.List.{position_or_len};
ghost use Rattle.rk_base.specs.Text.{is_slash};
ghost use Rattle.ut_files.specs.Operands.{kept, trimmed, begins, after_last, before_last, or_slash, basename, dirname, below, is_fixed, is_other, part, longer};

use rk_base::{Bytes, NoMemory};
use std::alloc::Global;

// How many bytes stand up to the last one that is no slash.
fn kept(text: &[u8]) -> usize
    ensures place { result ≡ kept 0 0 text.now }
    ensures within { result ≤ length text.now }
{
    let mut end = 0;
    for (i, b) in text.iter().enumerate() {
        if *b != b'/' {
            end = i + 1;
        }
    }
    end
}

fn trimmed(text: &[u8]) -> &[u8]
    ensures { result.now ≡ trimmed text.now }
{
    text.split_at(kept(text)).0
}

// Where begins what stands after the last slash.
fn begins(text: &[u8]) -> usize
    ensures place { result ≡ begins 0 0 text.now }
    ensures within { result ≤ length text.now }
{
    let mut at = 0;
    for (i, b) in text.iter().enumerate() {
        if *b == b'/' {
            at = i + 1;
        }
    }
    at
}

fn after_last(text: &[u8]) -> &[u8]
    ensures { result.now ≡ after_last text.now }
{
    text.split_at(begins(text)).1
}

fn before_last(text: &[u8]) -> &[u8]
    ensures { result.now ≡ before_last text.now }
{
    text.split_at(begins(text)).0
}

/// At most so many bytes of the front of a text.
pub(crate) fn front(text: &[u8], end: usize) -> &[u8]
    ensures { result.now ≡ take end text.now }
{
    if end >= text.len() {
        return text;
    }
    text.split_at(end).0
}

// What stands after so many bytes.
fn back(text: &[u8], end: usize) -> &[u8]
    ensures { result.now ≡ drop end text.now }
{
    if end >= text.len() {
        return &[];
    }
    text.split_at(end).1
}

fn or_slash<'a>(text: &'a [u8], part: &'a [u8]) -> &'a [u8]
    ensures { result.now ≡ or_slash text.now part.now }
{
    match part {
        [] => front(text, 1),
        [_, ..] => part,
    }
}

/// The last component of an operand; of slashes alone `/`, of nothing nothing (XCU `basename`).
#[tactic(auto, unfolding(crate::specs::Operands::basename))]
pub fn basename(text: &[u8]) -> &[u8]
    ensures { result.now ≡ basename text.now }
{
    or_slash(text, after_last(trimmed(text)))
}

/// What stands before the last component of an absolute text (XCU `dirname`); of nothing nothing.
#[tactic(auto, unfolding(crate::specs::Operands::dirname))]
pub fn dirname(text: &[u8]) -> &[u8]
    ensures { result.now ≡ dirname text.now }
{
    or_slash(text, trimmed(before_last(trimmed(text))))
}

/// An operand, a slash and a name.
#[tactic(auto, unfolding(crate::specs::Operands::below))]
pub fn below(alloc: Global, operand: &[u8], name: &[u8]) -> Result<Bytes, NoMemory>
    ensures { IfOk result (λ it. it ≡ below operand.now name.now) }
{
    let mut text = Vec::from_slice(alloc, operand)?;
    text.push(b'/')?;
    text.extend_from_slice(name)?;
    Bytes::new(alloc, text)
}

/// Whether it is `/`, or its last component is `.` or `..`.
pub(crate) fn is_fixed(operand: &[u8]) -> bool
    ensures { result ≡ is_fixed operand.now }
{
    let last = basename(operand);
    last == b"/".as_slice() || last == b".".as_slice() || last == b"..".as_slice()
}

fn slashes(text: &[u8]) -> usize
    ensures place { result ≡ position_or_len is_other text.now }
    ensures within { result ≤ length text.now }
{
    for (i, b) in text.iter().enumerate() {
        if *b != b'/' {
            return i;
        }
    }
    text.len()
}

fn component(text: &[u8]) -> usize
    ensures place { result ≡ position_or_len is_slash text.now }
    ensures within { result ≤ length text.now }
{
    for (i, b) in text.iter().enumerate() {
        if *b == b'/' {
            return i;
        }
    }
    text.len()
}

fn part(text: &[u8]) -> usize
    ensures place { result ≡ part text.now }
    ensures within { result ≤ length text.now }
{
    let slashes = slashes(text);
    slashes + component(text.split_at(slashes).1)
}

/// Where the prefix that is longer by one component ends.
#[tactic(auto, unfolding(crate::specs::Operands::longer))]
pub(crate) fn longer(text: &[u8], end: usize) -> usize
    ensures { result ≡ longer text.now end }
{
    end + part(back(text, end))
}

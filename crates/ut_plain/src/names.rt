// `basename` and `dirname`.
ghost use Rattle.std.specs.Prelude.{◌≡◌, ◌≤◌, ◌++◌, ◌∷◌, [], IfOk, length, take, drop, not, if◌then◌else◌};
ghost use Rattle.rk_base.specs.Text.{is_slash, same_text};
ghost use Rattle.rk_base.specs.Canonical.{is_empty};
ghost use Rattle.ut_plain.specs.Names.{after_last, trimmed, before_name, last_name, slash_of, base, without_suffix, or_slash, dir};

use rk_base::{Bytes, NoMemory};
use std::alloc::Global;
use ut_filter::{Input, Made, Work};

fn passes(slashes: bool, b: u8) -> bool
    ensures { result ≡ (if slashes then is_slash b else not (is_slash b)) }
{
    if slashes { b == b'/' } else { b != b'/' }
}

// The place after the last byte that is a slash, or that is none; or else 0.
fn after_last(slashes: bool, text: &[u8]) -> usize
    ensures place { result ≡ after_last slashes 0 0 text.now }
    ensures within { result ≤ length text.now }
{
    let mut found = 0;
    for i in 0..text.len() {
        if passes(slashes, text[i]) {
            found = i + 1;
        }
    }
    found
}

fn trimmed(text: &[u8]) -> &[u8]
    ensures { result.now ≡ trimmed text.now }
{
    text.split_at(after_last(false, text)).0
}

fn before_name(text: &[u8]) -> &[u8]
    ensures { result.now ≡ before_name text.now }
{
    text.split_at(after_last(true, text)).0
}

fn last_name(text: &[u8]) -> &[u8]
    ensures { result.now ≡ last_name text.now }
{
    text.split_at(after_last(true, text)).1
}

fn is_empty(text: &[u8]) -> bool
    ensures { result ≡ is_empty text.now }
{
    match text {
        [] => true,
        [_, ..] => false,
    }
}

fn slash_of(text: &[u8]) -> &[u8]
    ensures { result.now ≡ slash_of text.now }
{
    if is_empty(text) { &[] } else { b"/" }
}

/// The last name of a text, without the slashes after it; `/` where there are only slashes.
pub(crate) fn base(text: &[u8]) -> &[u8]
    ensures { result.now ≡ base text.now }
{
    let name = trimmed(text);
    if is_empty(name) {
        slash_of(text)
    } else {
        last_name(name)
    }
}

fn same(a: &[u8], b: &[u8]) -> bool
    ensures { result ≡ same_text a.now b.now }
{
    a == b
}

/// A name without this suffix, unless that is the whole name.
pub(crate) fn without_suffix<'a>(suffix: &[u8], name: &'a [u8]) -> &'a [u8]
    ensures { result.now ≡ without_suffix suffix.now name.now }
{
    let (front, last) = name.split_at(name.len().saturating_sub(suffix.len()));
    let ends = same(last, suffix);
    let whole = same(name, suffix);
    if ends && !whole { front } else { name }
}

fn or_slash(text: &[u8]) -> &[u8]
    ensures { result.now ≡ or_slash text.now }
{
    if is_empty(text) { b"/" } else { text }
}

/// What stands before the last name of a text.
pub(crate) fn dir(text: &[u8]) -> &[u8]
    ensures { result.now ≡ dir text.now }
{
    let name = trimmed(text);
    if is_empty(name) {
        return if is_empty(text) { b"." } else { b"/" };
    }
    let before = before_name(name);
    if is_empty(before) {
        return b".";
    }
    or_slash(trimmed(before))
}

/// `basename` or `dirname`: a line of output, and no input.
#[derive(Debug, Drop)]
pub struct Line {
    pub text: Bytes,
    /// Whether it is the line of `dirname`.
    pub is_dir: bool,
}

impl Work for Line {
    ghost use Rattle.ut_plain.specs.Names.{line_job};

    ghost job = { line_job };

    fn name(&self) -> &'static [u8] {
        if self.is_dir { b"dirname" } else { b"basename" }
    }

    fn failed(&self) -> u8 {
        1
    }

    fn out(&self) -> Option<&Bytes> {
        None
    }

    fn make(&self, alloc: Global, _inputs: &[Input]) -> Result<Made, NoMemory> {
        let mut output = Vec::from_slice(alloc, self.text.as_slice())?;
        output.push(b'\n')?;
        let output = Bytes::new(alloc, output)?;
        let errors = Bytes::new(alloc, Vec::new(alloc))?;
        Ok(Made {
            output,
            errors,
            status: 0,
        })
    }
}

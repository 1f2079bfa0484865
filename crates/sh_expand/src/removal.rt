// What operators take away from values.
ghost use Rattle.std.specs.Prelude.{◌≡◌, ◌≤◌, IfOk, IfSome, length};
ghost use Rattle.sh_expand.specs.Values.{without_front, without_end, removed, all_removed};

use rk_base::{Bytes, NoMemory, WordList};
use sh_ast::Removal;
use sh_pattern::{prefix, suffix};
use std::alloc::Global;

fn without_front(text: &[u8], size: Option<usize>) -> &[u8]
    requires { IfSome size (λ k. k ≤ length text.now) }
    ensures { result.now ≡ without_front text.now size }
{
    match size {
        None => text,
        Some(size) => text.split_at(size).1,
    }
}

fn without_end(text: &[u8], size: Option<usize>) -> &[u8]
    requires { IfSome size (λ k. k ≤ length text.now) }
    ensures { result.now ≡ without_end text.now size }
{
    match size {
        None => text,
        Some(size) => text.split_at(text.len() - size).0,
    }
}

fn kept<'a>(removal: Removal, pattern: &[u8], text: &'a [u8]) -> &'a [u8]
    ensures { result.now ≡ removed removal pattern.now text.now }
{
    match removal {
        Removal::SmallestSuffix => without_end(text, suffix(pattern, text, false)),
        Removal::LargestSuffix => without_end(text, suffix(pattern, text, true)),
        Removal::SmallestPrefix => without_front(text, prefix(pattern, text, false)),
        Removal::LargestPrefix => without_front(text, prefix(pattern, text, true)),
    }
}

// A value without the prefix or suffix that a pattern matches (XCU 2.6.2).
fn removed(alloc: Global, removal: Removal, pattern: &[u8], text: &[u8]) -> Result<Bytes, NoMemory>
    ensures { IfOk result (λ value. value ≡ removed removal pattern.now text.now) }
{
    Bytes::from_slice(alloc, kept(removal, pattern, text))
}

/// Each word without the prefix or suffix that a pattern matches (XCU 2.6.2).
pub(crate) fn all_removed(
    alloc: Global,
    removal: Removal,
    pattern: &[u8],
    words: &[Bytes],
) -> Result<WordList, NoMemory>
    ensures { IfOk result (λ values. values ≡ all_removed removal pattern.now words.now) }
{
    let mut values = WordList::new(Vec::new(alloc));
    'words: for word in words {
        let value = removed(alloc, removal, pattern, word.as_slice())?;
        values.push(value)?;
    }
    Ok(values)
}

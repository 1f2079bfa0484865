// What options choose.
ghost use Rattle.std.specs.Prelude.{◌≡◌, ◌++◌, map, option_copied, IfOk, OnOk};
ghost use Rattle.ut_args.specs.Numbers.{number};
ghost use Rattle.ut_sort.specs.Chosen.{last_of, key_by, has_letter, lettered, key_of, whole, first_key, more_keys, first_byte, delimiter_of, sort_of};

use crate::key::Key;
use crate::runs::{ByteClass, front, rest};
use crate::sort::Sort;
use rk_base::{Bytes, NoMemory};
use std::alloc::Global;
use ut_args::{Args, number};

fn copied(text: Option<&Bytes>) -> Result<Option<Bytes>, NoMemory>
    ensures { IfOk result (λ copy. copy ≡ option_copied text.entry) }
{
    match text {
        None => Ok(None),
        Some(text) => {
            let copy = text.copy()?;
            Ok(Some(copy))
        }
    }
}

// The number of a field counts as want of memory where it doesn't fit, which that of at most ten digits does.
fn field_of(digits: &[u8]) -> Result<u64, NoMemory>
    ensures { IfOk result (λ n. n ≡ number digits.now) }
{
    number(digits).ok_or(NoMemory)
}

fn last_of(text: &[u8]) -> Result<Option<u64>, NoMemory>
    ensures { IfOk result (λ last. last ≡ last_of text.now) }
{
    match text {
        [] => Ok(None),
        [_, digits @ ..] => {
            let last = field_of(digits)?;
            Ok(Some(last))
        }
    }
}

fn key_by(fields: &[u8], numeric: bool, reversed: bool) -> Result<Key, NoMemory>
    ensures { IfOk result (λ k. k ≡ key_by fields.now numeric reversed) }
{
    let from = field_of(front(ByteClass::Other(b','), fields))?;
    let last = last_of(rest(ByteClass::Other(b','), fields))?;
    Ok(Key {
        from,
        last,
        numeric,
        reversed,
    })
}

fn has_letter(letter: u8, letters: &[u8]) -> bool
    ensures { result ≡ has_letter letter letters.now }
{
    letters.iter().any(|b| *b == letter)
}

fn lettered(numeric: bool, reversed: bool, fields: &[u8], letters: &[u8]) -> Result<Key, NoMemory>
    ensures { IfOk result (λ k. k ≡ lettered numeric reversed fields.now letters.now) }
{
    match letters {
        [] => key_by(fields, numeric, reversed),
        [_, ..] => {
            let numeric = has_letter(b'n', letters);
            let reversed = has_letter(b'r', letters);
            key_by(fields, numeric, reversed)
        }
    }
}

fn key_of(numeric: bool, reversed: bool, text: &[u8]) -> Result<Key, NoMemory>
    ensures { IfOk result (λ k. k ≡ key_of numeric reversed text.now) }
{
    let fields = front(ByteClass::Unlettered, text);
    let letters = rest(ByteClass::Unlettered, text);
    lettered(numeric, reversed, fields, letters)
}

fn first_key(numeric: bool, reversed: bool, keys: &[Bytes]) -> Result<Key, NoMemory>
    ensures { IfOk result (λ k. k ≡ first_key numeric reversed keys.now) }
{
    match keys {
        [] => Ok(Key {
            from: 1,
            last: None,
            numeric,
            reversed,
        }),
        [text, ..] => key_of(numeric, reversed, text.as_slice()),
    }
}

fn keys_of(
    alloc: Global,
    numeric: bool,
    reversed: bool,
    texts: &[Bytes],
) -> Result<Vec<Key>, NoMemory>
    ensures { IfOk result (λ keys. keys.items ≡ map (key_of numeric reversed) texts.now) }
{
    let mut keys = Vec::new(alloc);
    'texts: for text in texts {
        let key = key_of(numeric, reversed, text.as_slice())?;
        keys.push(key)?;
    }
    Ok(keys)
}

fn more_keys(
    alloc: Global,
    numeric: bool,
    reversed: bool,
    texts: &[Bytes],
) -> Result<Vec<Key>, NoMemory>
    ensures { IfOk result (λ keys. keys.items ≡ more_keys numeric reversed texts.now) }
{
    match texts {
        [] => Ok(Vec::new(alloc)),
        [_, more @ ..] => keys_of(alloc, numeric, reversed, more),
    }
}

fn delimiter_of(argument: Option<&Bytes>) -> Option<u8>
    ensures { result ≡ delimiter_of (option_copied argument.entry) }
{
    match argument {
        None => None,
        Some(text) => match text.as_slice() {
            [] => None,
            [b, ..] => Some(*b),
        },
    }
}

/// What the options of `sort` choose.
pub(crate) fn sort_of(alloc: Global, args: &Args) -> Result<Sort, NoMemory>
    ensures { IfOk result (λ s. s ≡ sort_of args.now) }
{
    let numeric = args.given.has(b'n');
    let reversed = args.given.has(b'r');
    let keys = args.given.arguments(alloc, b'k')?;
    let first = first_key(numeric, reversed, keys.as_slice())?;
    let more = more_keys(alloc, numeric, reversed, keys.as_slice())?;
    let out = copied(args.given.argument(b'o'))?;
    Ok(Sort {
        delimiter: delimiter_of(args.given.argument(b't')),
        first,
        more,
        reversed,
        unique: args.given.has(b'u'),
        out,
    })
}

// The fields of a line.
ghost use Rattle.std.specs.Prelude.{◌≡◌, ◌≤◌, length, drop};
ghost use Rattle.ut_sort.specs.Fields.{field_length, after_field, after_fields, up_to, key_text, key_from};

use crate::key::Key;
use crate::runs::{ByteClass, rest, run};

// The length of the first field.
fn field_length(delimiter: Option<u8>, text: &[u8]) -> usize
    ensures length { result ≡ field_length delimiter text.now }
    ensures within { result ≤ length text.now }
{
    match delimiter {
        Some(c) => run(ByteClass::Other(c), text),
        None => {
            let blanks = run(ByteClass::Blank, text);
            blanks + run(ByteClass::Solid, text.split_at(blanks).1)
        }
    }
}

fn after_first(text: &[u8]) -> &[u8]
    ensures rest { result.now ≡ drop 1 text.now }
    ensures within { length result.now ≤ length text.now }
{
    match text {
        [] => &[],
        [_, after @ ..] => after,
    }
}

// What stands after the first field, and after its delimiter.
fn after_field(delimiter: Option<u8>, text: &[u8]) -> &[u8]
    ensures rest { result.now ≡ after_field delimiter text.now }
    ensures within { length result.now ≤ length text.now }
{
    match delimiter {
        Some(c) => after_first(rest(ByteClass::Other(c), text)),
        None => rest(ByteClass::Solid, rest(ByteClass::Blank, text)),
    }
}

// What stands after so many fields.
fn after_fields(delimiter: Option<u8>, number: u64, text: &[u8]) -> &[u8]
    ensures rest { result.now ≡ after_fields delimiter number text.now }
    ensures within { length result.now ≤ length text.now }
{
    let mut rest = text;
    let mut left = number;
    'fields: while left > 0 && rest.len() > 0 {
        rest = after_field(delimiter, rest);
        left -= 1;
    }
    rest
}

// A text up to the end of the first field of its end.
fn up_to<'a>(delimiter: Option<u8>, text: &'a [u8], end: &[u8]) -> &'a [u8]
    requires { length end.now ≤ length text.now }
    ensures { result.now ≡ up_to delimiter text.now end.now }
{
    let before = text.len() - end.len();
    text.split_at(before + field_length(delimiter, end)).0
}

/// The key of a line; a missing field is empty.
pub(crate) fn key_text<'a>(delimiter: Option<u8>, key: &Key, line: &'a [u8]) -> &'a [u8]
    ensures { result.now ≡ key_text delimiter key.now line.now }
{
    let text = after_fields(delimiter, key.from.saturating_sub(1), line);
    match key.last {
        None => text,
        Some(last) => {
            if last < key.from {
                return &[];
            }
            let end = after_fields(delimiter, last - key.from, text);
            up_to(delimiter, text, end)
        }
    }
}

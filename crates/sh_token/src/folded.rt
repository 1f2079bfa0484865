// A text as it is read, without its joined lines (XCU 2.2.1).
ghost use Rattle.std.specs.Prelude.{◌≡◌, ◌≤◌, length, slice_index, drop};
ghost use Rattle.sh_token.specs.Bytes.{class_is};
ghost use Rattle.sh_token.specs.Places.{is_none};
ghost use Rattle.sh_token.specs.Folded.{folded, behind, behind_one, run as run_lem, run_on as run_on_lem};

use crate::blanks::past_joins;
use crate::bytes::{Class, is_in};

/// The first byte, 0 where none is left.
pub fn first(text: &[u8]) -> u8
    ensures { result ≡ slice_index (folded text.now) 0 }
{
    match past_joins(text) {
        [] => 0,
        [c, ..] => *c,
    }
}

/// Nothing is left but joined lines.
pub fn is_read_out(text: &[u8]) -> bool
    ensures { result ≡ is_none (folded text.now) }
{
    past_joins(text).is_empty()
}

/// What stands behind the first byte.
pub fn rest(text: &[u8]) -> &[u8]
    ensures read { folded result.now ≡ drop 1 (folded text.now) }
    ensures left { result.now ≡ behind_one text.now }
    ensures within { length result.now ≤ length text.now }
{
    let here = past_joins(text);
    match here {
        [] => here,
        [_, ..] => here.split_at(1).1,
    }
}

/// What is left of a text behind so many bytes, joined lines not counted.
pub fn skip(text: &[u8], count: usize) -> &[u8]
    ensures read { folded result.now ≡ drop count (folded text.now) }
    ensures left { result.now ≡ behind count text.now }
    ensures within { length result.now ≤ length text.now }
{
    let mut left = text;
    for at in 0..count {
        left = rest(left);
    }
    left
}

/// The byte at a place of a text, joined lines not counted; 0 past its end.
pub fn byte(text: &[u8], place: usize) -> u8
    ensures { result ≡ slice_index (folded text.now) place }
{
    first(skip(text, place))
}

/// How many bytes in front of a text are of a class, joined lines not counted.
pub fn run(class: Class, text: &[u8]) -> usize
    ensures count { result ≡ run_lem (class_is class) (folded text.now) }
    ensures within { result ≤ length text.now }
{
    let mut left = text;
    for at in 0..text.len() {
        if is_in(class, first(left)) {
            left = rest(left);
        } else {
            return at;
        }
    }
    text.len()
}

/// How many bytes in front of a text are of a class, joined lines not counted, where the first one is in any case.
pub fn run_on(class: Class, text: &[u8]) -> usize
    ensures { result ≡ run_on_lem (class_is class) (folded text.now) }
{
    let behind = rest(text);
    run(class, behind) + 1
}

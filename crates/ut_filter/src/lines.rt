// The lines of a text.
ghost use Rattle.std.specs.Prelude.{◌≡◌, ◌∷◌, ◌<◌, ◌≤◌, ◌++◌, [], length, take, drop, MatchOption, IfSome};
ghost use Rattle.ut_filter.specs.Lines.{lines_of, first_line, Lacks};

use memchr::{memchr, memrchr};

// Where the first newline stands, or else the length.
fn line_length(text: &[u8]) -> usize
    ensures length { result ≡ length (first_line text.now) }
    ensures within { result ≤ length text.now }
{
    match memchr(b'\n', text) {
        None => text.len(),
        Some(at) => at,
    }
}

// What stands after the first byte.
fn after_first(text: &[u8]) -> &[u8]
    ensures { result.now ≡ drop 1 text.now }
{
    match text {
        [] => &[],
        [_, after @ ..] => after,
    }
}

/// The first line, and what stands after its newline.
pub fn front_line(text: &[u8]) -> Option<(&[u8], &[u8])>
    ensures cut { MatchOption result (text.now ≡ []) (λ r. lines_of text.now ≡ r.0.now ∷ lines_of r.1.now) }
    ensures length { IfSome result (λ r. length r.1.now < length text.now) }
{
    if text.len() == 0 {
        return None;
    }
    let (line, rest) = text.split_at(line_length(text));
    Some((line, after_first(rest)))
}

// Where the line begins that goes on at a place.
fn line_start(text: &[u8], at: usize) -> usize
    requires { at ≤ length text.now }
    ensures within { result ≤ at }
    ensures cut { lines_of text.now ≡ lines_of (take result text.now) ++ lines_of (drop result text.now) }
{
    match memrchr(b'\n', text.split_at(at).0) {
        None => 0,
        Some(newline) => newline + 1,
    }
}

/// How many bytes the lines take that stand before the first line with such a byte: all, where none has one.
pub fn lines_without(text: &[u8], b: u8) -> usize
    ensures within { result ≤ length text.now }
    ensures cut { lines_of text.now ≡ lines_of (take result text.now) ++ lines_of (drop result text.now) }
    ensures lacks { Lacks (take result text.now) b }
{
    match memchr(b, text) {
        None => text.len(),
        Some(at) => line_start(text, at),
    }
}

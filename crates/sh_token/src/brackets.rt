// What the profile leaves out of bracket expressions, `[.` and `[=` (XBD 9.3.5), and the texts in front of such a one.
ghost use Rattle.std.specs.Prelude.{◌≡◌, ◌≤◌, Some, zero, drop, length, slice_index};
ghost use Rattle.sh_token.specs.Bytes.{class_is, ◌or◌};
ghost use Rattle.sh_token.specs.Brackets as lem;
ghost use Rattle.sh_token.specs.Expansions.{is_dollar as dollar_lem};
ghost use Rattle.sh_token.specs.Folded.{folded};

use crate::bytes::{Class, is_in};
use crate::expansions::is_dollar;
use crate::folded::{byte, first, is_read_out, rest, run, run_on, skip};
use crate::unread::Unread;
use sh_rules::TokenKind;

fn begins_symbol(text: &[u8]) -> bool
    ensures { result ≡ lem.begins_symbol (folded text.now) }
{
    let d = byte(text, 1);
    first(text) == b'[' && (d == b'.' || d == b'=')
}

// An unquoted byte stands in front.
fn is_unquoted(class: Class, text: &[u8]) -> bool
    ensures { result ≡ (class_is class (slice_index (folded text.now) 0) or dollar_lem (folded text.now)) }
{
    is_in(class, first(text)) || is_dollar(text)
}

// A `]` stands among the unquoted bytes in front.
fn closes_bracket(class: Class, text: &[u8]) -> bool
    ensures { result ≡ lem.closes_bracket (class_is class) (folded text.now) }
{
    let mut left = text;
    for at in 0..text.len() {
        if !is_unquoted(class, left) {
            return false;
        }
        if first(left) == b']' {
            return true;
        }
        left = rest(left);
    }
    false
}

fn begins_class(text: &[u8]) -> bool
    ensures { result ≡ lem.begins_class (folded text.now) }
{
    first(text) == b'[' && byte(text, 1) == b':'
}

fn class_name(text: &[u8]) -> usize
    ensures count { result ≡ lem.class_name (folded text.now) }
    ensures within { result ≤ length text.now }
{
    let behind = skip(text, 2);
    run(Class::Name, behind)
}

fn ends_class(n: usize, text: &[u8]) -> bool
    requires { n ≤ length text.now }
    ensures { result ≡ lem.ends_class n (folded text.now) }
{
    byte(text, n + 2) == b':' && byte(text, n + 3) == b']'
}

// How many bytes a character class has behind its `[`, 0 where none begins here. Its name is looked at where one may begin alone.
fn class_rest(text: &[u8]) -> usize
    ensures { result ≡ lem.class_rest (folded text.now) }
{
    if begins_class(text) {
        let n = class_name(text);
        if ends_class(n, text) { n + 3 } else { 0 }
    } else {
        0
    }
}

fn item_first(text: &[u8]) -> usize
    ensures { result ≡ lem.item_first (folded text.now) }
{
    if first(text) == b']' { 1 } else { 0 }
}

// How many bytes behind a bracket's `[` close nothing.
fn items_begin(text: &[u8]) -> usize
    ensures { result ≡ lem.items_begin (folded text.now) }
{
    if first(text) == b'!' {
        item_first(rest(text)) + 1
    } else {
        item_first(text)
    }
}

fn passed_on(passed: usize, text: &[u8]) -> usize
    ensures { result ≡ lem.passed_on passed (folded text.now) }
{
    if passed > 0 {
        passed - 1
    } else {
        class_rest(text)
    }
}

// A byte goes on with an open bracket.
fn goes_on(class: Class, passed: usize, c: u8) -> bool
    ensures { result ≡ lem.goes_on (class_is class) passed c }
{
    is_in(class, c) && (passed > 0 || c != b']')
}

// At which place of an open bracket its `]` stands, or a byte of another class; so many bytes in front close nothing. `None` where it has
// `[.` or `[=`. Where nothing closes one of those, nothing closes those behind it.
fn open_bracket(class: Class, first_passed: usize, text: &[u8]) -> Option<usize>
    ensures { result ≡ lem.open_bracket (class_is class) first_passed 1 (folded text.now) }
{
    let mut left = text;
    let mut passed = first_passed;
    for at in 0..text.len() {
        if begins_symbol(left) {
            if closes_bracket(class, left) {
                return None;
            } else {
                return Some(run(class, text) + 1);
            }
        }
        if !goes_on(class, passed, first(left)) {
            return Some(at + 1);
        }
        passed = passed_on(passed, left);
        left = rest(left);
    }
    Some(text.len() + 1)
}

/// How many bytes more the bracket has that stands in front, 0 where none does, `None` where it has `[.` or `[=`.
pub fn bracket(class: Class, text: &[u8]) -> Option<usize>
    ensures { result ≡ lem.bracket (class_is class) (folded text.now) }
{
    if first(text) == b'[' {
        let items = rest(text);
        open_bracket(class, items_begin(items), items)
    } else {
        Some(0)
    }
}

// How many bytes more the bracket has that goes on here, behind a byte, where so many are left of it.
fn bracket_on(class: Class, n: usize, text: &[u8]) -> Option<usize>
    ensures { result ≡ lem.bracket_on (class_is class) n (folded text.now) }
{
    if n > 0 {
        Some(n - 1)
    } else {
        bracket(class, text)
    }
}

// How many bytes in front are of a class, up to a bracket that has `[.` or `[=`.
fn text_run(class: Class, first_bracket: Option<usize>, text: &[u8]) -> usize
    ensures count { result ≡ lem.text_run (class_is class) first_bracket (folded text.now) }
    ensures within { result ≤ length text.now }
{
    let mut left = text;
    let mut here = first_bracket;
    for at in 0..text.len() {
        match here {
            None => return at,
            Some(n) => {
                if !is_in(class, first(left)) {
                    return at;
                }
                left = rest(left);
                here = bracket_on(class, n, left);
            }
        }
    }
    text.len()
}

// The text of a kind, by the bracket that it begins with.
fn text_from(
    class: Class,
    kind: TokenKind,
    here: Option<usize>,
    behind: &[u8],
) -> Option<(TokenKind, usize)>
    ensures { result ≡ lem.text_from (class_is class) kind here (folded behind.now) }
{
    match here {
        None => None,
        Some(n) => Some((
            kind,
            text_run(class, bracket_on(class, n, behind), behind) + 1,
        )),
    }
}

/// The text of a kind that stands in front, of bytes of a class, the first of them in any case.
pub fn text_look(class: Class, kind: TokenKind, text: &Unread) -> Option<(TokenKind, usize)>
    ensures { result ≡ lem.text_look (class_is class) kind (folded text.now) }
{
    let bytes = text.bytes();
    if text.is_unclosed(class) && is_unquoted(class, bytes) {
        Some((kind, run_on(class, bytes)))
    } else {
        text_from(class, kind, bracket(class, bytes), rest(bytes))
    }
}

/// How many bytes of a text stand before its first `[.` or `[=`.
pub fn before_symbol(text: &[u8]) -> usize
    ensures count { result ≡ lem.before_symbol (folded text.now) }
    ensures within { result ≤ length text.now }
{
    let mut left = text;
    for at in 0..text.len() {
        if is_read_out(left) {
            return at;
        }
        if begins_symbol(left) {
            return at;
        }
        left = rest(left);
    }
    text.len()
}

/// How many bytes of a text stand behind the unquoted ones in front, if no `]` is among these, else how many it has; and how many behind
/// what was looked at.
pub(crate) fn unclosed_down_to(class: Class, text: &[u8]) -> (usize, usize)
    ensures { lem.IsUnclosed (class_is class) result.0 text.now }
{
    let mut left = text;
    'bytes: loop {
        if !is_unquoted(class, left) {
            return (left.len(), left.len());
        }
        if first(left) == b']' {
            return (text.len(), left.len());
        }
        left = rest(left);
    }
}

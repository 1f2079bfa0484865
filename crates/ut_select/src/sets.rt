// The sets of `tr`.
ghost use Rattle.std.specs.Prelude.{◌≡◌, ◌++◌, ◌∷◌, ◌≤◌, [], ℕ, suc, not, length, IfOk, IfSome, MatchOption, OnOk};
ghost use Rattle.std.specs.List.{filter};
ghost use Rattle.rk_base.specs.Canonical.{is_empty};
ghost use Rattle.sh_pattern.specs.Classes.{in_class};
ghost use Rattle.ut_args.specs.Forms.{is_octal};
ghost use Rattle.ut_select.specs.Sets.{unit, digit_more, two_more, letter, escaped, unit_of, ranged, item, range, class_bytes, class_in, part, set_within, set_of, has_end, names_class, is_unknown, misnamed, is_member, complement};
ghost use Rattle.ut_select.specs.Items.{IsUnit, IsItem};

use rk_base::NoMemory;
use sh_pattern::{Class, class_at};
use std::alloc::Global;

/// A byte as it is written in a set, and what stands after it.
#[derive(Clone, Copy, Drop)]
struct Unit<'a> {
    byte: u8,
    rest: &'a [u8],
}

fn is_octal(b: u8) -> bool
    ensures { result ≡ is_octal b }
{
    b >= b'0' && b <= b'7'
}

// One octal digit more, where there is one.
fn digit_more<'a>(n: u8, text: &'a [u8]) -> Unit<'a>
    ensures { IsUnit result (digit_more n text.now) }
{
    match text {
        [] => Unit {
            byte: n,
            rest: text,
        },
        [c, rest @ ..] => {
            if is_octal(*c) {
                let value = (n as u16 * 8 + c.saturating_sub(b'0') as u16) % 256;
                Unit {
                    byte: value as u8,
                    rest,
                }
            } else {
                Unit {
                    byte: n,
                    rest: text,
                }
            }
        }
    }
}

fn two_more<'a>(n: u8, text: &'a [u8]) -> Unit<'a>
    ensures { IsUnit result (two_more (unit n text.now)) }
{
    let one = digit_more(n, text);
    digit_more(one.byte, one.rest)
}

// The byte that a letter stands for after a backslash.
fn letter(c: u8) -> Option<u8>
    ensures { result ≡ letter c }
{
    if c == b'\\' {
        return Some(92);
    }
    if c == b'a' {
        return Some(7);
    }
    if c == b'b' {
        return Some(8);
    }
    if c == b'f' {
        return Some(12);
    }
    if c == b'n' {
        return Some(10);
    }
    if c == b'r' {
        return Some(13);
    }
    if c == b't' {
        return Some(9);
    }
    if c == b'v' {
        return Some(11);
    }
    None
}

// After a backslash.
fn escaped<'a>(text: &'a [u8]) -> Unit<'a>
    ensures { IsUnit result (escaped text.now) }
{
    match text {
        [] => Unit {
            byte: b'\\',
            rest: text,
        },
        [c, rest @ ..] => {
            if is_octal(*c) {
                return two_more(c.saturating_sub(b'0'), rest);
            }
            match letter(*c) {
                None => Unit {
                    byte: b'\\',
                    rest: text,
                },
                Some(byte) => Unit { byte, rest },
            }
        }
    }
}

fn unit_of<'a>(b: u8, rest: &'a [u8]) -> Unit<'a>
    ensures { IsUnit result (unit_of b rest.now) }
{
    if b == b'\\' {
        escaped(rest)
    } else {
        Unit { byte: b, rest }
    }
}

/// Bytes from the low one up to the high one, and what stands after them.
#[derive(Clone, Copy, Drop)]
struct Item<'a> {
    low: u8,
    high: u8,
    rest: &'a [u8],
}

// After a byte: a `-` makes a range where a byte follows it.
fn ranged<'a>(byte: u8, text: &'a [u8]) -> Item<'a>
    ensures { IsItem result (ranged byte text.now) }
{
    match text {
        [] => Item {
            low: byte,
            high: byte,
            rest: text,
        },
        [_] => Item {
            low: byte,
            high: byte,
            rest: text,
        },
        [c, d, rest @ ..] => {
            if *c == b'-' {
                let last = unit_of(*d, rest);
                Item {
                    low: byte,
                    high: last.byte,
                    rest: last.rest,
                }
            } else {
                Item {
                    low: byte,
                    high: byte,
                    rest: text,
                }
            }
        }
    }
}

fn item_after<'a>(b: u8, rest: &'a [u8]) -> Item<'a>
    ensures { IsItem result (item b rest.now) }
{
    let first = unit_of(b, rest);
    ranged(first.byte, first.rest)
}

#[tactic(auto, using(crate::proofs::SetLemmas::range_over))]
fn push_range(low: u8, high: u8, set: &mut Vec<u8>) -> Result<(), NoMemory>
    ensures { OnOk result (set.new.items ≡ set.old.items ++ range low high) }
{
    for b in low as u16..high as u16 + 1 {
        set.push(b as u8)?;
    }
    Ok(())
}

// The class that begins with this byte and this text, and how many bytes it takes beyond the first.
fn class_in(b: u8, rest: &[u8]) -> Option<(Class, usize)>
    ensures value { result ≡ class_in b rest.now }
    ensures within { IfSome result (λ r. r.1 ≤ length rest.now) }
{
    if b == b'[' { class_at(rest) } else { None }
}

fn push_where(class: Class, b: u8, bytes: &mut Vec<u8>) -> Result<(), NoMemory>
    ensures { OnOk result (bytes.new.items ≡ bytes.old.items ++ filter (in_class class) (b ∷ [])) }
{
    if class.holds(b) {
        bytes.push(b)?;
    }
    Ok(())
}

// The bytes of a class, ascending.
fn class_bytes(alloc: Global, class: Class) -> Result<Vec<u8>, NoMemory>
    ensures { IfOk result (λ bytes. bytes.items ≡ class_bytes class) }
{
    let mut bytes = Vec::new(alloc);
    for i in 0..256u16 {
        push_where(class, i as u8, &mut bytes)?;
    }
    Ok(bytes)
}

fn push_class(alloc: Global, class: Class, set: &mut Vec<u8>) -> Result<(), NoMemory>
    ensures { OnOk result (set.new.items ≡ set.old.items ++ class_bytes class) }
{
    let bytes = class_bytes(alloc, class)?;
    set.extend_from_slice(bytes.as_slice())?;
    Ok(())
}

// A part of a set that begins with this byte and this text, and what stands after it.
fn push_part<'a>(
    alloc: Global,
    b: u8,
    rest: &'a [u8],
    set: &mut Vec<u8>,
) -> Result<&'a [u8], NoMemory>
    ensures bytes { OnOk result (set.new.items ≡ set.old.items ++ (part b rest.now).bytes) }
    ensures rest { IfOk result (λ after. after.now ≡ (part b rest.now).rest) }
{
    match class_in(b, rest) {
        Some((class, length)) => {
            push_class(alloc, class, set)?;
            Ok(rest.split_at(length).1)
        }
        None => {
            let item = item_after(b, rest);
            push_range(item.low, item.high, set)?;
            Ok(item.rest)
        }
    }
}

// One part, and what stands after it.
#[tactic(auto, using(crate::proofs::SetLemmas::nothing_within))]
fn push_item<'a>(alloc: Global, text: &'a [u8], set: &mut Vec<u8>) -> Result<&'a [u8], NoMemory>
    ensures { IfOk result (λ rest. (n : ℕ) → set.new.items ++ set_within n rest.now ≡ set.old.items ++ set_within (suc n) text.now) }
{
    match text {
        [] => Ok(text),
        [b, rest @ ..] => push_part(alloc, *b, rest, set),
    }
}

/// The bytes of a set, in the order in which they are written.
pub(crate) fn set_of(alloc: Global, text: &[u8]) -> Result<Vec<u8>, NoMemory>
    ensures { IfOk result (λ set. set.items ≡ set_of text.now) }
{
    let mut set = Vec::new(alloc);
    let mut rest = text;
    let mut left = text.len();
    'items: while left > 0 {
        rest = push_item(alloc, rest, &mut set)?;
        left -= 1;
    }
    Ok(set)
}

// Whether `:]` stands in a text.
fn has_end(text: &[u8]) -> bool
    ensures { result ≡ has_end 0 text.now }
{
    let mut last = 0;
    for b in text {
        if last == b':' && *b == b']' {
            return true;
        }
        last = *b;
    }
    false
}

fn names_class(text: &[u8]) -> bool
    ensures { result ≡ names_class text.now }
{
    match text {
        [] => false,
        [b, rest @ ..] => *b == b':' && has_end(rest),
    }
}

// Whether a class is named here that there isn't.
fn is_unknown(b: u8, rest: &[u8]) -> bool
    ensures { result ≡ is_unknown (class_in b rest.now) b rest.now }
{
    match class_in(b, rest) {
        Some(_) => false,
        None => b == b'[' && names_class(rest),
    }
}

// What stands after the part of a set that begins with this byte and this text.
fn after_part<'a>(b: u8, rest: &'a [u8]) -> &'a [u8]
    ensures { result.now ≡ (part b rest.now).rest }
{
    match class_in(b, rest) {
        Some((_, length)) => rest.split_at(length).1,
        None => item_after(b, rest).rest,
    }
}

fn front(text: &[u8]) -> Option<(u8, &[u8])>
    ensures { MatchOption result (text.now ≡ []) (λ r. text.now ≡ r.0 ∷ r.1.now) }
{
    match text {
        [] => None,
        [b, rest @ ..] => Some((*b, rest)),
    }
}

/// Whether a set names a class that there isn't.
#[tactic(auto, using(crate::proofs::SetLemmas::nothing_misnamed))]
pub(crate) fn misnamed(text: &[u8]) -> bool
    ensures { result ≡ misnamed text.now }
{
    let mut rest = text;
    let mut left = text.len();
    'parts: while left > 0 {
        match front(rest) {
            None => return false,
            Some((b, after)) => {
                if is_unknown(b, after) {
                    return true;
                }
                rest = after_part(b, after);
            }
        }
        left -= 1;
    }
    false
}

pub(crate) fn is_empty(set: &[u8]) -> bool
    ensures { result ≡ is_empty set.now }
{
    match set {
        [] => true,
        [_, ..] => false,
    }
}

/// Whether a byte is in a set.
pub(crate) fn is_member(set: &[u8], c: u8) -> bool
    ensures { result ≡ is_member set.now c }
{
    set.iter().any(|b| *b == c)
}

fn push_other(set: &[u8], b: u8, others: &mut Vec<u8>) -> Result<(), NoMemory>
    ensures { OnOk result (others.new.items ≡ others.old.items ++ filter (λ c. not (is_member set.now c)) (b ∷ [])) }
{
    if is_member(set, b) {
        return Ok(());
    }
    others.push(b)?;
    Ok(())
}

/// The bytes that aren't in a set, ascending.
pub(crate) fn complement(alloc: Global, set: &[u8]) -> Result<Vec<u8>, NoMemory>
    ensures { IfOk result (λ others. others.items ≡ complement set.now) }
{
    let mut others = Vec::new(alloc);
    for i in 0..256u16 {
        push_other(set, i as u8, &mut others)?;
    }
    Ok(others)
}

// Sets of patterns.
ghost use Rattle.std.specs.Prelude.{false, ◌≡◌, ◌≤◌, IfSome, ◌<◌, ◌+◌, length, ◌^◌, ◌==◌, None, ◌||◌, if◌then◌else◌};
ghost use Rattle.sh_pattern.specs.Classes.{class_at};
ghost use Rattle.sh_pattern.specs.Sets.{value, extra, after_first, in_item, ranged, classed, closes, item_at, set_of, has_close, ScansTo};

use crate::Class;
use crate::class::{between, class_at};
use crate::front::front;

/// What a set has between its brackets: a class, or the bytes from one to another.
#[derive(Clone, Copy, Debug)]
pub(crate) enum Item {
    Named(Class),
    Range(u8, u8),
}

impl Item {
    fn holds(self, b: u8) -> bool
        ensures { result ≡ in_item self b }
    {
        match self {
            Item::Named(class) => class.holds(b),
            Item::Range(low, high) => between(low, high, b),
        }
    }

    // Whether a byte is in it or was held before.
    fn adds(self, held: bool, b: u8) -> bool
        ensures { result ≡ (held || in_item self b) }
    {
        held || self.holds(b)
    }
}

// Whether a byte closes the set; one that comes first doesn't.
fn closes(at: usize, b: u8) -> bool
    ensures { result ≡ closes at b }
{
    b == b']' && at > 0
}

// A byte, which a backslash before it quotes.
pub(crate) fn value(b: u8, text: &[u8]) -> u8
    ensures { result ≡ value b text.now }
{
    match text {
        [] => b,
        [c, ..] => if b == b'\\' { *c } else { b },
    }
}

// How many bytes of a byte stand after its first.
pub(crate) fn extra(b: u8, text: &[u8]) -> usize
    ensures value { result ≡ extra b text.now }
    ensures within { result ≤ length text.now }
    ensures small { result ≤ 1 }
{
    match text {
        [] => 0,
        [_, ..] => if b == b'\\' { 1 } else { 0 },
    }
}

fn after_first(b: u8, text: &[u8]) -> &[u8]
    ensures value { result.now ≡ after_first b text.now }
    ensures length { length result.now + extra b text.now ≡ length text.now }
{
    match text {
        [] => text,
        [_, rest @ ..] => if b == b'\\' { rest } else { text },
    }
}

fn one(b: u8) -> Item
    ensures { result ≡ Item.Range b b }
{
    Item::Range(b, b)
}

fn ranged(low: u8, size: usize, text: &[u8]) -> (Item, usize)
    requires { size ≤ 2 }
    ensures value { result ≡ ranged low size text.now }
    ensures within { result.1 ≤ size + length text.now }
    ensures some { size ≤ result.1 }
{
    match text {
        [] => (one(low), size),
        [_] => (one(low), size),
        [d, c, rest @ ..] => {
            if *d == b'-' && *c != b']' {
                (
                    Item::Range(low, value(*c, rest)),
                    size + 1 + (extra(*c, rest) + 1),
                )
            } else {
                (one(low), size)
            }
        }
    }
}

fn bracket_class(b: u8, text: &[u8]) -> Option<(Class, usize)>
    ensures value { result ≡ (if b == 91 then class_at text.now else None) }
    ensures within { IfSome result (λ r. r.1 ≤ length text.now) }
{
    if b == b'[' { class_at(text) } else { None }
}

// The item that begins with this byte and this text, and how many bytes it takes.
#[tactic(auto, unfolding(crate::specs::Sets::item_at))]
fn item_at(b: u8, text: &[u8]) -> (Item, usize)
    ensures value { result ≡ item_at b text.now }
    ensures some { 1 ≤ result.1 }
    ensures within { result.1 ≤ length text.now + 1 }
{
    match bracket_class(b, text) {
        Some((class, size)) => (Item::Named(class), size + 1),
        None => ranged(value(b, text), extra(b, text) + 1, after_first(b, text)),
    }
}

/// Whether a `]` may be in a text, where that was known before of it; it is looked for only behind a `[` that nothing
/// closes.
pub(crate) fn may_close_behind(may_close: bool, is_open: bool, text: &[u8]) -> bool
    requires { may_close ≡ false → has_close text.now ≡ false }
    ensures { result ≡ false → has_close text.now ≡ false }
{
    may_close && (!is_open || text.contains(&b']'))
}

/// Whether a byte is in the set that begins with this text, and at what place its `]` stands; `None` where no
/// `]` closes it.
pub(crate) fn scan(text: &[u8], b: u8) -> Option<(bool, usize)>
    ensures scanned { ScansTo b (set_of text.now) result }
    ensures within { IfSome result (λ r. r.1 < length text.now) }
{
    let mut held = false;
    let mut at = 0;
    'items: while let Some((first, rest)) = front(text.split_at(at).1) {
        if closes(at, first) {
            return Some((held, at));
        }
        let (item, size) = item_at(first, rest);
        held = item.adds(held, b);
        at += size;
    }
    None
}

// Numbers of any length.
ghost use Rattle.std.specs.Prelude.{◌≡◌};
ghost use Rattle.ut_sort.specs.Numbers.{nothing, trimmed, fraction_of, size_of, signed, number_of, size_cmp, above, below, number_cmp, value_cmp};
ghost use Rattle.ut_sort.specs.Seen.{size_seen, number_seen};

use crate::runs::{ByteClass, front, rest};
use std::cmp::Ordering;

/// A number without its sign: its digits without zeros in front, and those of its fraction without zeros at the end.
#[derive(Clone, Copy, Drop)]
struct Size<'a> {
    whole: &'a [u8],
    fraction: &'a [u8],
}

#[derive(Clone, Copy, Drop)]
struct Number<'a> {
    negative: bool,
    size: Size<'a>,
}

// Without the zeros at the end.
fn trimmed(digits: &[u8]) -> &[u8]
    ensures { result.now ≡ trimmed digits.now }
{
    let mut rest = digits;
    'digits: while let [front @ .., last] = rest {
        if *last != b'0' {
            return rest;
        }
        rest = front;
    }
    rest
}

fn fraction_of(text: &[u8]) -> &[u8]
    ensures { result.now ≡ fraction_of text.now }
{
    match text {
        [] => &[],
        [b, after @ ..] => {
            if *b == b'.' {
                trimmed(front(ByteClass::Digit, after))
            } else {
                &[]
            }
        }
    }
}

fn size_of<'a>(text: &'a [u8]) -> Size<'a>
    ensures { size_seen result ≡ size_of text.now }
{
    Size {
        whole: rest(ByteClass::Zero, front(ByteClass::Digit, text)),
        fraction: fraction_of(rest(ByteClass::Digit, text)),
    }
}

fn signed<'a>(text: &'a [u8]) -> Number<'a>
    ensures { number_seen result ≡ signed text.now }
{
    match text {
        [] => Number {
            negative: false,
            size: nothing(),
        },
        [b, after @ ..] => {
            if *b == b'-' {
                Number {
                    negative: true,
                    size: size_of(after),
                }
            } else {
                Number {
                    negative: false,
                    size: size_of(text),
                }
            }
        }
    }
}

fn number_of<'a>(text: &'a [u8]) -> Number<'a>
    ensures { number_seen result ≡ number_of text.now }
{
    signed(rest(ByteClass::Blank, text))
}

fn nothing<'a>() -> Size<'a>
    ensures { size_seen result ≡ nothing }
{
    Size {
        whole: &[],
        fraction: &[],
    }
}

fn compare_sizes(a: Size, b: Size) -> Ordering
    ensures { result ≡ size_cmp (size_seen a.entry) (size_seen b.entry) }
{
    let lengths = a.whole.len().cmp(&b.whole.len());
    lengths
        .then(a.whole.cmp(&b.whole))
        .then(a.fraction.cmp(&b.fraction))
}

impl<'a> Number<'a> {
    // How far it is above zero.
    fn above(self) -> Size<'a>
        ensures { size_seen result ≡ above (number_seen self.entry) }
    {
        if self.negative { nothing() } else { self.size }
    }

    fn below(self) -> Size<'a>
        ensures { size_seen result ≡ below (number_seen self.entry) }
    {
        if self.negative { self.size } else { nothing() }
    }
}

fn compare_numbers(a: Number, b: Number) -> Ordering
    ensures { result ≡ number_cmp (number_seen a.entry) (number_seen b.entry) }
{
    let above = compare_sizes(a.above(), b.above());
    above.then(compare_sizes(b.below(), a.below()))
}

/// Texts by the numbers that they begin with: digit by digit, of any length.
pub(crate) fn compare_values(a: &[u8], b: &[u8]) -> Ordering
    ensures { result ≡ value_cmp a.now b.now }
{
    compare_numbers(number_of(a), number_of(b))
}

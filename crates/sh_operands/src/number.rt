// Numbers with a sign.
ghost use Rattle.std.specs.Prelude.{◌≡◌, ◌+◌, ◌-◌, ◌*◌, ◌<◌, ◌≤◌, ◌^◌, not, ◌&&◌, true, Option, option_copied};
ghost use Rattle.std.specs.List.{list_all};
ghost use Rattle.rk_base.specs.Canonical.{is_empty};
ghost use Rattle.sh_operands.specs.Numbers.{is_digit, value_on, no_more, digits_to, signed, number, is_less};

/// An integer of 64 bits. That of magnitude 0 isn't negative.
#[derive(Clone, Copy, Debug)]
pub struct Number {
    pub negative: bool,
    pub magnitude: u64,
}

/// Whether it is a decimal digit.
pub(crate) fn is_digit(b: u8) -> bool
    ensures { result ≡ is_digit b }
{
    b >= b'0' && b <= b'9'
}

/// Whether there is nothing but decimal digits.
pub(crate) fn all_digits(text: &[u8]) -> bool
    ensures { result ≡ list_all is_digit text.now }
{
    text.iter().all(|b| is_digit(*b))
}

// One digit more, where the number stays within the limit.
fn with_digit(most: u64, n: u64, b: u8) -> Option<u64>
    requires { most < 2 ^ 64 - 1 }
    ensures { result ≡ no_more most (10 * n + (b - 48)) }
{
    let digit = u64::from(b.saturating_sub(48));
    if n > most / 10 {
        return None;
    }
    let tens = 10 * n;
    if digit > most - tens {
        return None;
    }
    Some(tens + digit)
}

// The number that digits write, where it is within the limit.
fn value(most: u64, digits: &[u8]) -> Option<u64>
    requires { most < 2 ^ 64 - 1 }
    ensures { result ≡ no_more most (value_on 0 digits.now) }
{
    let mut n = 0;
    'digits: for b in digits {
        match with_digit(most, n, *b) {
            Some(more) => {
                n = more;
            }
            None => {
                return None;
            }
        }
    }
    Some(n)
}

fn digits_to(most: u64, text: &[u8]) -> Option<u64>
    requires { most < 2 ^ 64 - 1 }
    ensures { result ≡ digits_to most text.now }
{
    if text.is_empty() {
        return None;
    }
    if !all_digits(text) {
        return None;
    }
    value(most, text)
}

fn signed(negative: bool, magnitude: Option<u64>) -> Option<Number>
    ensures { result ≡ signed negative magnitude }
{
    match magnitude {
        None => None,
        Some(magnitude) => Some(Number {
            negative: negative && magnitude != 0,
            magnitude,
        }),
    }
}

/// The number that a text is: an optional sign and decimal digits, from -2^63 to 2^63 - 1.
pub fn number_of(text: &[u8]) -> Option<Number>
    ensures { result ≡ number text.now }
{
    match text {
        [] => None,
        [b'-', digits @ ..] => signed(true, digits_to(9223372036854775808, digits)),
        [b'+', digits @ ..] => signed(false, digits_to(9223372036854775807, digits)),
        [_, ..] => signed(false, digits_to(9223372036854775807, text)),
    }
}

/// Whether it comes before the other in the order of integers.
pub(crate) fn is_less(m: Number, n: Number) -> bool
    ensures { result ≡ is_less m n }
{
    if m.negative {
        if n.negative {
            return n.magnitude < m.magnitude;
        }
        return true;
    }
    if n.negative {
        return false;
    }
    m.magnitude < n.magnitude
}

// Intervals (XBD 9.3.6), read.
ghost use Rattle.std.specs.Prelude.{◌≡◌, ◌+◌, ◌≤◌, length, None, IfSome, ◌<◌, ◌^◌};
ghost use Rattle.ut_bre.specs.Intervals.{more_digit, number_from, turns, interval_end, interval_comma, interval_at};

use crate::bracket::{begins, behind};
use crate::set::between;
use crate::tree::Times;

/// The greatest number of turns that can be written.
const MOST: usize = 255;

fn more_digit(value: Option<usize>, b: u8) -> usize
    requires { 48 ≤ b }
    ensures { result ≡ more_digit value b }
{
    let digit = (b - b'0') as usize;
    match value {
        None => digit,
        Some(value) => {
            let more = value.saturating_mul(10).saturating_add(digit);
            if more > MOST { MOST + 1 } else { more }
        }
    }
}

/// The number that digits spell, and how many they are.
fn number(text: &[u8]) -> (Option<usize>, usize)
    ensures value { result ≡ number_from None 0 text.now }
    ensures within { result.1 ≤ length text.now }
{
    let mut value = None;
    let mut size = 0;
    'digits: for b in text {
        if !between(b'0', b'9', *b) {
            return (value, size);
        }
        value = Some(more_digit(value, *b));
        size += 1;
    }
    (value, size)
}

fn turns(least: usize, most: Option<usize>) -> Option<Times>
    ensures { result ≡ turns least most }
{
    match most {
        None => {
            if least > MOST {
                return None;
            }
            Some(Times {
                least,
                beyond: None,
            })
        }
        Some(most) => {
            if most > MOST || most < least {
                return None;
            }
            Some(Times {
                least,
                beyond: Some(most - least),
            })
        }
    }
}

fn interval_end(times: Option<Times>, size: usize, rest: &[u8]) -> Option<(Times, usize)>
    requires { size + length rest.now < 2 ^ 64 }
    ensures value { result ≡ interval_end times size rest.now }
    ensures within { IfSome result (λ t. t.1 ≤ size + length rest.now) }
{
    match times {
        None => None,
        Some(times) => {
            if begins(b'\\', b'}', rest) {
                return Some((times, size + 2));
            }
            None
        }
    }
}

fn interval_comma(least: usize, size: usize, text: &[u8]) -> Option<(Times, usize)>
    requires { size + length text.now < 2 ^ 64 }
    ensures value { result ≡ interval_comma least size text.now }
    ensures within { IfSome result (λ t. t.1 ≤ size + length text.now) }
{
    match text {
        [] => None,
        [b, rest @ ..] => {
            if *b == b',' {
                let (most, more) = number(rest);
                return interval_end(turns(least, most), size + 1 + more, behind(rest, more));
            }
            interval_end(turns(least, Some(least)), size, text)
        }
    }
}

/// What stands behind a `\{`, and how many bytes it takes.
pub(crate) fn interval_at(text: &[u8]) -> Option<(Times, usize)>
    ensures value { result ≡ interval_at text.now }
    ensures within { IfSome result (λ t. t.1 ≤ length text.now) }
{
    let (least, size) = number(text);
    match least {
        None => None,
        Some(least) => interval_comma(least, size, behind(text, size)),
    }
}

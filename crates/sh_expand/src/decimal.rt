// Decimal numbers.
ghost use Rattle.std.specs.Prelude.{◌≡◌, ◌≤◌, ◌+◌, ◌-◌, ◌*◌, ◌^◌, MatchOption, IfOk};
ghost use Rattle.std.specs.Fmt.{decimal};
ghost use Rattle.sh_expand.specs.Values.{number, number_from};

use rk_base::{Bytes, NoMemory};
use std::alloc::Global;

fn plus(n: usize, d: usize) -> Option<usize>
    ensures { MatchOption result (2 ^ 64 ≤ n + d) (λ m. m ≡ n + d) }
{
    if n > usize::MAX - d {
        None
    } else {
        Some(n + d)
    }
}

// One digit more.
fn next(n: usize, b: u8) -> Option<usize>
    ensures { MatchOption result (2 ^ 64 ≤ n * 10 + (b - 48)) (λ m. m ≡ n * 10 + (b - 48)) }
{
    let d = if b < 48 { 0 } else { (b - 48) as usize };
    if n > usize::MAX / 10 {
        None
    } else {
        plus(n * 10, d)
    }
}

/// The number that decimal digits write; `None` where it is no `usize`.
pub(crate) fn number(digits: &[u8]) -> Option<usize>
    ensures { MatchOption result (2 ^ 64 ≤ number digits.now) (λ n. n ≡ number digits.now) }
{
    let mut n = 0;
    'digits: for b in digits {
        match next(n, *b) {
            None => return None,
            Some(more) => n = more,
        }
    }
    Some(n)
}

/// The decimal digits of a number.
pub(crate) fn digits(alloc: Global, n: u64) -> Result<Bytes, NoMemory>
    ensures { IfOk result (λ text. text ≡ decimal n) }
{
    let digits = format!(in alloc; "{n}")?;
    Bytes::from_slice(alloc, digits.as_bytes())
}

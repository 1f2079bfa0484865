// Numbers as arguments.
ghost use Rattle.std.specs.Prelude.{◌≡◌, IfSome, IfOk, option_copied};
ghost use Rattle.ut_args.specs.Numbers.{number, number_or};

use rk_base::{Bytes, NoMemory};

/// The number that digits spell; `None` where it doesn't fit, which that of at most ten digits does.
pub fn number(digits: &[u8]) -> Option<u64>
    ensures { IfSome result (λ n. n ≡ number digits.now) }
{
    let mut n = 0u64;
    for b in digits {
        let tens = n.checked_mul(10)?;
        n = tens.checked_add((*b).saturating_sub(b'0') as u64)?;
    }
    Some(n)
}

/// The number of an argument, or else this one. An argument that doesn't fit counts as want of memory; none of a
/// number's form is so long.
pub fn number_or(default: u64, argument: Option<&Bytes>) -> Result<u64, NoMemory>
    ensures { IfOk result (λ n. n ≡ number_or default (option_copied argument.entry)) }
{
    match argument {
        None => Ok(default),
        Some(digits) => number(digits.as_slice()).ok_or(NoMemory),
    }
}

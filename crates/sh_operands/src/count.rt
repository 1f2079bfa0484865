// Operands that are counts.
ghost use Rattle.std.specs.Prelude.{◌≡◌, ◌+◌, ◌-◌, ◌*◌, min};
ghost use Rattle.sh_operands.specs.Counts.{capped, count};
ghost use Rattle.sh_operands.specs.Numbers.{value_on};

use crate::number::all_digits;

fn with_digit(n: u64, b: u8) -> u64
    ensures { result ≡ capped (10 * n + (b - 48)) }
{
    let digit = u64::from(b.saturating_sub(48));
    n.saturating_mul(10).saturating_add(digit)
}

fn value(digits: &[u8]) -> u64
    ensures { result ≡ capped (value_on 0 digits.now) }
{
    let mut n = 0;
    'digits: for b in digits {
        n = with_digit(n, *b);
    }
    n
}

/// The count that decimal digits write, where there is nothing else; one above the largest of 64 bits is as good as that.
pub fn count_of(word: &[u8]) -> Option<u64>
    ensures { result ≡ count word.now }
{
    if word.is_empty() {
        return None;
    }
    if !all_digits(word) {
        return None;
    }
    Some(value(word))
}

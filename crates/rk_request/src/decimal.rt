// Decimal numbers on the command line.
ghost use Rattle.std.specs.Prelude.{◌≡◌};
ghost use Rattle.std.specs.List.{list_all};
ghost use Rattle.std.specs.Char.{is_ascii_digit};
ghost use Rattle.rk_request.specs.Decimal.{is_decimal, number_of};

fn all_digits(text: &[u8]) -> bool
    ensures { result ≡ list_all is_ascii_digit text.now }
{
    text.iter().all(|b| b.is_ascii_digit())
}

fn is_decimal(most: usize, text: &str) -> bool
    ensures { result ≡ is_decimal most text.now }
{
    !text.is_empty() && text.len() <= most && all_digits(text.as_bytes())
}

/// The number that a text of at most so many digits writes, where it lies from `low` to `high`.
pub(crate) fn number(most: usize, low: u64, high: u64, text: &str) -> Option<u64>
    ensures { result ≡ number_of most low high text.now }
{
    if !is_decimal(most, text) {
        return None;
    }
    let Ok(n) = text.parse::<u64>() else {
        return None;
    };
    if low <= n && n <= high { Some(n) } else { None }
}

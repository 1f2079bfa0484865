// The status of a filter.
ghost use Rattle.std.specs.Prelude.{◌≡◌};
ghost use Rattle.ut_filter.specs.Statuses.{status_of};

use rk_base::Bytes;

/// Zero where there is no error text.
pub fn status_of(failed: u8, errors: &Bytes) -> u8
    ensures { result ≡ status_of failed errors.now }
{
    if errors.is_empty() { 0 } else { failed }
}

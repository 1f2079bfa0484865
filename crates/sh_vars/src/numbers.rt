// The local numbers of what a command opened.
ghost use Rattle.std.specs.Prelude.{◌≡◌};
ghost use Rattle.sh_vars.specs.Numbers.{number_after};

/// The local number after this one, as far as 64 bits count.
pub fn number_after(n: u64) -> u64
    ensures { result ≡ number_after n }
{
    n.saturating_add(1)
}

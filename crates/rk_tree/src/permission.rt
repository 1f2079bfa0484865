// The owner's bits of a mode.
ghost use Rattle.std.specs.Prelude.{◌≡◌};
ghost use Rattle.rk_tree.specs.Hierarchy as hierarchy;

/// Whether the owner may read.
pub fn has_r(mode: u16) -> bool
    ensures { result ≡ hierarchy.has_r mode }
{
    mode / 256 % 2 == 1
}

/// Whether the owner may write.
pub fn has_w(mode: u16) -> bool
    ensures { result ≡ hierarchy.has_w mode }
{
    mode / 128 % 2 == 1
}

/// Whether the owner may execute, or search a directory.
pub fn has_x(mode: u16) -> bool
    ensures { result ≡ hierarchy.has_x mode }
{
    mode / 64 % 2 == 1
}

// Refusals of calls.
ghost use Rattle.std.specs.Prelude.{◌≡◌};
ghost use Rattle.rk_base.specs.Errno.{word};

/// A refusal: the owner's bits, the kind or the absence of what a path leads to stands in the way.
#[derive(Clone, Copy, Debug, PartialEq, Eq)]
pub enum Errno {
    NoEntry,
    NotDir,
    IsDir,
    Exists,
    Denied,
    Loops,
    NotEmpty,
    BadRef,
    Invalid,
}

impl Errno {
    /// The word that error texts have for it.
    pub fn word(self) -> &'static str
        ensures { result.now ≡ word self }
    {
        match self {
            Errno::NoEntry => "no such file",
            Errno::NotDir => "not a directory",
            Errno::IsDir => "is a directory",
            Errno::Exists => "exists",
            Errno::Denied => "denied",
            Errno::Loops => "too many links",
            Errno::NotEmpty => "not empty",
            Errno::BadRef => "bad descriptor",
            Errno::Invalid => "not valid",
        }
    }
}

// The names of builtins.
ghost use Rattle.std.specs.Prelude.{◌≡◌};
ghost use Rattle.sh_builtin.specs.Names.{name_of, is_known, is_builtin, text_of};

/// A builtin by its name, or a word that names none.
#[derive(Clone, Copy, Debug)]
pub enum Name {
    Cd,
    Read,
    Echo,
    Printf,
    Pwd,
    Test,
    Bracket,
    True,
    False,
    Unknown,
}

/// The builtin that a word names.
pub(crate) fn name_of(word: &[u8]) -> Name
    ensures { result ≡ name_of word.now }
{
    if word == b"cd".as_slice() {
        return Name::Cd;
    }
    if word == b"read".as_slice() {
        return Name::Read;
    }
    if word == b"echo".as_slice() {
        return Name::Echo;
    }
    if word == b"printf".as_slice() {
        return Name::Printf;
    }
    if word == b"pwd".as_slice() {
        return Name::Pwd;
    }
    if word == b"test".as_slice() {
        return Name::Test;
    }
    if word == b"[".as_slice() {
        return Name::Bracket;
    }
    if word == b"true".as_slice() {
        return Name::True;
    }
    if word == b"false".as_slice() {
        return Name::False;
    }
    Name::Unknown
}

fn is_known(name: Name) -> bool
    ensures { result ≡ is_known name }
{
    match name {
        Name::Cd => true,
        Name::Read => true,
        Name::Echo => true,
        Name::Printf => true,
        Name::Pwd => true,
        Name::Test => true,
        Name::Bracket => true,
        Name::True => true,
        Name::False => true,
        Name::Unknown => false,
    }
}

/// Whether a word names a builtin.
pub fn is_builtin(word: &[u8]) -> bool
    ensures { result ≡ is_builtin word.now }
{
    is_known(name_of(word))
}

impl Name {
    /// What its error text begins with.
    pub(crate) fn text(self) -> &'static str
        ensures { result.now ≡ text_of self }
    {
        match self {
            Name::Cd => "cd",
            Name::Read => "read",
            Name::Echo => "echo",
            Name::Printf => "printf",
            Name::Pwd => "pwd",
            Name::Test => "test",
            Name::Bracket => "test",
            Name::True => "true",
            Name::False => "false",
            Name::Unknown => "sh",
        }
    }
}

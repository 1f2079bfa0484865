// The names of special builtins.
ghost use Rattle.std.specs.Prelude.{◌≡◌};
ghost use Rattle.sh_special.specs.Orders.{name_of};

/// A special builtin by its name.
#[derive(Clone, Copy, Debug)]
pub enum Name {
    Colon,
    Dot,
    Break,
    Continue,
    Eval,
    Exec,
    Exit,
    Export,
    Readonly,
    Return,
    Set,
    Shift,
    Unset,
}

/// The special builtin that a word names.
pub(crate) fn name_of(word: &[u8]) -> Option<Name>
    ensures { result ≡ name_of word.now }
{
    if word == b":".as_slice() {
        return Some(Name::Colon);
    }
    if word == b".".as_slice() {
        return Some(Name::Dot);
    }
    if word == b"break".as_slice() {
        return Some(Name::Break);
    }
    if word == b"continue".as_slice() {
        return Some(Name::Continue);
    }
    if word == b"eval".as_slice() {
        return Some(Name::Eval);
    }
    if word == b"exec".as_slice() {
        return Some(Name::Exec);
    }
    if word == b"exit".as_slice() {
        return Some(Name::Exit);
    }
    if word == b"export".as_slice() {
        return Some(Name::Export);
    }
    if word == b"readonly".as_slice() {
        return Some(Name::Readonly);
    }
    if word == b"return".as_slice() {
        return Some(Name::Return);
    }
    if word == b"set".as_slice() {
        return Some(Name::Set);
    }
    if word == b"shift".as_slice() {
        return Some(Name::Shift);
    }
    if word == b"unset".as_slice() {
        return Some(Name::Unset);
    }
    None
}

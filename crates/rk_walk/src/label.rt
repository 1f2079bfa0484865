// Borrowed names.
ghost use Rattle.std.specs.Prelude.{◌≡◌, IfOk, true};
ghost use Rattle.rk_base.specs.Canonical.{is_name};

use rk_base::{Name, NoMemory, PathFault};
use std::alloc::Global;
use std::marker::Model;

/// A name of an entry, borrowed from a path or from a link's text.
#[derive(Debug, Drop)]
pub struct Label<'a> {
    bytes: &'a [u8],
}

impl<'a> Model for Label<'a> {
    ghost use Rattle.std.specs.Prelude.{◌≡◌, List, ℕ, true};
    ghost use Rattle.rk_base.specs.Canonical.{is_name};

    ghost Value = { List ℕ };

    ghost view = { λ n. n.bytes.now };

    ghost invariant = { λ n. is_name n.bytes.now ≡ true };
}

impl<'a> Label<'a> {
    pub(crate) fn new(bytes: &'a [u8]) -> Label<'a>
        requires { is_name bytes.now ≡ true }
        ensures { result ≡ bytes.now }
    {
        Label { bytes }
    }

    /// Its bytes, which are a name.
    pub fn bytes(&self) -> &'a [u8]
        ensures value { result.now ≡ self.now }
        ensures name { is_name self.now ≡ true }
    {
        self.bytes
    }

    /// A copy of the name, owned.
    pub fn to_name(&self, alloc: Global) -> Result<Name, NoMemory>
        ensures { IfOk result (λ n. n ≡ self.now) }
    {
        match Name::new(alloc, self.bytes) {
            Ok(name) => Ok(name),
            Err(PathFault::Invalid) => unreachable!(),
            Err(PathFault::NoMemory) => Err(NoMemory),
        }
    }
}

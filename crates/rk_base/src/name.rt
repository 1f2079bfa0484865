// Names.
ghost use Rattle.std.specs.Prelude.{◌≡◌, IfOk, true, false, nat_eq};
ghost use Rattle.std.specs.Cmp.{partial_equiv_from_equiv, nat_eq_equiv};
ghost use Rattle.std.specs.Cmp.Lexicographic.{pointwise, lists_equiv};
ghost use Rattle.rk_base.specs.Canonical.{is_name};
ghost use Rattle.rk_base.specs.declared.path.PathFault.TheVariants.{Invalid};
ghost use Rattle.rk_base.specs.Faults.{Reads};

use crate::path::PathFault;
use crate::text::is_name;
use crate::{Bytes, NoMemory};
use std::alloc::Global;
use std::marker::Model;

/// A name: UTF-8 of 1 to 255 bytes, without a slash or a NUL, and not `.` or `..`.
#[derive(Debug, Drop, Clone)]
pub struct Name {
    bytes: Bytes,
}

impl Model for Name {
    ghost use Rattle.std.specs.Prelude.{◌≡◌, List, ℕ, true};
    ghost use Rattle.rk_base.specs.Canonical.{is_name};

    ghost Value = { List ℕ };

    ghost view = { λ n. n.bytes };

    ghost invariant = { λ n. is_name n.bytes ≡ true };
}

impl Name {
    /// The name of these bytes; `Invalid` exactly where they are none.
    pub fn new(alloc: Global, bytes: &[u8]) -> Result<Name, PathFault>
        ensures { Reads (is_name bytes.now) bytes.now result }
    {
        if !is_name(bytes) {
            return Err(PathFault::Invalid);
        }
        let bytes = Bytes::from_slice(alloc, bytes)?;
        Ok(Name { bytes })
    }

    // The name that these bytes are.
    pub(crate) fn of(bytes: Bytes) -> Name
        requires { is_name bytes ≡ true }
        ensures { result ≡ bytes }
    {
        Name { bytes }
    }

    /// Its bytes.
    pub fn as_slice(&self) -> &[u8]
        ensures value { result.now ≡ self.now }
        ensures name { is_name self.now ≡ true }
    {
        self.bytes.as_slice()
    }

    /// A copy of the name.
    pub fn copy(&self) -> Result<Name, NoMemory>
        ensures { IfOk result (λ n. n ≡ self.now) }
    {
        let bytes = self.bytes.copy()?;
        Ok(Name { bytes })
    }
}

impl PartialEq for Name {
    ghost eq = { pointwise nat_eq };

    ghost laws = { partial_equiv_from_equiv (lists_equiv nat_eq_equiv) };

    fn eq(&self, other: &Name) -> bool {
        self.as_slice() == other.as_slice()
    }
}

impl Eq for Name {
    ghost laws = { lists_equiv nat_eq_equiv };
}

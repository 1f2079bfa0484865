// Refused changes.
ghost use Rattle.std.specs.Prelude.{◌≡◌};
ghost use Rattle.rk_tree.specs.declared.refused.Refused.TheVariants as refused;

use rk_base::{Errno, NoMemory};

/// Why a tree was not changed: the refusal, or there was no memory. A refused call changes nothing.
#[derive(Clone, Copy, Debug)]
pub enum Refused {
    No(Errno),
    NoMemory,
}

impl From<NoMemory> for Refused {
    ghost from_gives = { λ _ e. e ≡ refused.NoMemory };

    fn from(_: NoMemory) -> Refused {
        Refused::NoMemory
    }
}

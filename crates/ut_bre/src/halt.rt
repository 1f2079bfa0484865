// What ends a search by sets of places before it is done.
ghost use Rattle.std.specs.Prelude.{◌≡◌};

use rk_base::NoMemory;

/// Want of memory, or more places to go over than are allowed.
#[derive(Clone, Copy, Debug)]
pub(crate) enum Halt {
    NoMemory,
    Spent,
}

impl From<NoMemory> for Halt {
    ghost use Rattle.std.specs.Prelude.{◌≡◌};
    ghost use Rattle.ut_bre.specs.declared.halt.Halt.TheVariants.{NoMemory};

    ghost from_gives = { λ _ e. e ≡ NoMemory };

    fn from(_: NoMemory) -> Halt {
        Halt::NoMemory
    }
}

/// How many places a search may still go over.
#[derive(Clone, Copy, Debug)]
pub(crate) struct Allowance {
    left: usize,
}

impl Allowance {
    /// As many as the places of all sets of a piece of so many bytes, and some.
    pub(crate) fn of(room: usize) -> Allowance {
        Allowance {
            left: room.saturating_mul(room).saturating_add(1 << 20),
        }
    }

    /// Takes one of them.
    pub(crate) fn take(&mut self) -> Result<(), Halt> {
        if self.left == 0 {
            return Err(Halt::Spent);
        }
        self.left -= 1;
        Ok(())
    }
}

// What gives the bytes of files that aren't known yet.
ghost use Rattle.std.specs.Prelude.{◌≡◌, ℕ, Bool, Option, IfOk, OnOk};
ghost use Rattle.rk_tree.specs.Fetched.{Counted, Gives, Has, Steadily};
ghost use Rattle.rk_tree.specs.Full.{Told};
ghost use Rattle.rk_tree.specs.declared.fetch.FetchErr.TheVariants as err;

use rk_base::{Bytes, NoMemory, Path};
use std::alloc::Global;

/// Why there are no bytes.
#[derive(Clone, Copy, Debug, PartialEq, Eq)]
pub enum FetchErr {
    /// A read failed.
    Failed,
    NoMemory,
}

impl From<NoMemory> for FetchErr {
    ghost from_gives = { λ _ e. e ≡ err.NoMemory };

    fn from(_: NoMemory) -> FetchErr {
        FetchErr::NoMemory
    }
}

/// What gives the bytes of files by their import paths. It may tell them all beforehand, as a finite map that no call changes.
pub trait Fetch {
    /// The bytes at each path, where it tells them.
    ghost told: { Self → Option Told };

    /// How many calls failed.
    ghost faults: { Self → ℕ };

    /// Whether no call fails.
    ghost steady: { Self → Bool };

    /// What its calls leave as it was, of all else that it is: what fetches from a folder says by it that the folder holds the
    /// same, and which of its counts may have risen.
    ghost Keeps: { Self → Self → Type 0 };

    /// What bytes that are given leave as it was besides.
    ghost Stays: { Self → Self → Type 0 };

    /// The bytes of a file. It is asked only for a path that has bytes.
    fn get(&mut self, alloc: Global, file: &Path) -> Result<Bytes, FetchErr>
        requires { Has (told self.old) file.now }
        ensures gives { IfOk result (Gives (told self.old) file.now) }
        ensures told { told self.new ≡ told self.old }
        ensures keeps { Keeps self.old self.new }
        ensures stays { OnOk result (Stays self.old self.new) }
        ensures steady { Steadily (steady self.old) (steady self.new) result }

        // It fails only where the count of failures rises, and that rises at nothing else.
        ensures counted { Counted (faults self.old) (faults self.new) result };

    ghost keeps_itself: { (x : Self) → Keeps x x };

    ghost keeps_on: { (x y z : Self) → Keeps x y → Keeps y z → Keeps x z };

    ghost stays_itself: { (x : Self) → Stays x x };

    ghost stays_on: { (x y z : Self) → Stays x y → Stays y z → Stays x z };
}

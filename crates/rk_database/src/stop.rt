// How the work ends.
ghost use Rattle.std.specs.Prelude.{◌≡◌};
ghost use Rattle.rk_database.specs.declared.stop.QueryErr.TheVariants as stop;

use rk_base::{NoMemory, Path};
use tr_parts::Damage;

/// How the work ended.
#[derive(Clone, Copy, Debug, PartialEq, Eq)]
pub enum Said {
    /// It is done.
    Done,
    /// There is no database.
    NoTrace,
}

/// Why the work stopped before its end.
#[derive(Debug, Drop)]
pub enum QueryErr {
    /// At this path, `.rkr` or a state file in it, stands what is out of its place.
    Special(Path),
    /// The database is damaged.
    Damaged(Damage),
    /// This record of the database, from 0 on, is the first that its command doesn't say, and this is its first step,
    /// from 1 on, that the command doesn't take; one past the last is the exit.
    Forged { rec: u64, step: u64 },
    /// A list or a read of the folder failed.
    ReadFault,
    /// A removal or a put failed.
    WriteFault,
    NoMemory,
}

impl From<NoMemory> for QueryErr {
    ghost from_gives = { λ _ e. e ≡ stop.NoMemory };

    fn from(_: NoMemory) -> QueryErr {
        QueryErr::NoMemory
    }
}

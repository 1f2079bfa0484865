// Requests.
ghost use Rattle.std.specs.Prelude.{◌≡◌};
ghost use Rattle.rk_request.specs.declared.requests.RequestErr.TheVariants.{NoMemory};

use std::alloc::AllocError;

/// What the words ask for.
#[derive(Clone, Copy, Debug, PartialEq, Eq)]
pub enum Request {
    /// A build within so many turns, at least one. `explain`: the lines of what ran and why follow the error text.
    /// `fresh`: the recorded table counts as empty. `check`: every record is checked before the script runs.
    Build {
        steps: u64,
        explain: bool,
        fresh: bool,
        check: bool,
    },
    /// Checks every record.
    Check,
    /// Shows the records, as lines or as JSON.
    Trace {
        json: bool,
    },
    /// Removes the database.
    Forget,
    /// Runs the session that this seed makes.
    Gen(u64),
}

/// Why there is no request.
#[derive(Clone, Copy, Debug, PartialEq, Eq)]
pub enum RequestErr {
    /// The words are none.
    Usage,
    /// There was no memory to read them.
    NoMemory,
}

impl From<AllocError> for RequestErr {
    ghost from_gives = { λ _ e. e ≡ NoMemory };

    fn from(_: AllocError) -> RequestErr {
        RequestErr::NoMemory
    }
}

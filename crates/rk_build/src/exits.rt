// Exit statuses.
ghost use Rattle.std.specs.Prelude.{◌≡◌};
ghost use Rattle.rk_build.specs.Lines.{exit_code};

use crate::Outcome;

/// The status with which the program exits: the script's own where the build ended, 0 or 1 where the database alone
/// was asked of, else the number of the refusal.
pub fn exit_code(outcome: &Outcome) -> u8
    ensures { result ≡ exit_code outcome.now }
{
    match outcome {
        Outcome::Ended { status, .. } => *status,
        Outcome::Said(status) => *status,
        Outcome::Usage => 241,
        Outcome::Special(_) => 247,
        Outcome::Damaged(_, _) => 242,
        Outcome::Forged { .. } => 248,
        Outcome::Spent => 243,
        Outcome::ReadFault => 244,
        Outcome::WriteFault => 245,
        Outcome::NoMemory => 246,
    }
}

// Turns of machines.
use crate::Call;

/// A turn of a machine, with what it costs, in turns.
#[derive(Debug, Drop)]
pub enum Turn {
    /// It asks this call.
    Ask(Call, u64),
    /// It goes on.
    More(u64),
    /// It exits with this status.
    Exit(u8, u64),
}

// Where a filter stands.
use crate::made::Made;
use rk_base::Bytes;
use rk_calls::Turn;

/// What a filter waits for, or does next.
#[derive(Drop)]
pub enum Stage {
    /// The next input comes.
    Next,
    /// This operand is being opened.
    Opening(Bytes),
    /// This operand is being read.
    Reading(Bytes),
    /// The output to the standard output is paid for, and is made next.
    Paid,
    /// The file of the output is being opened, and has this number then.
    Emptying(Bytes, u64, Made),
    /// The output is being written to this place; the error text and the status come after it.
    Writing(Bytes, Bytes, u8),
    /// It exits with this status.
    Over(u8),
}

/// A turn, and the stage after it.
#[derive(Drop)]
pub struct Move {
    pub turn: Turn,
    pub stage: Stage,
}

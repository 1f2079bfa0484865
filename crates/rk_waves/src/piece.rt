// Pieces of commands, by the numbers of the cells that they touch.
use std::marker::Model;

/// A piece of a command, which ends where the command launches another one or ends itself: the cells that its steps read,
/// and those that they write, each by its number. A number may stand in a list more than once.
#[derive(Debug, Drop)]
pub struct Piece {
    /// The number of the command.
    pub owner: usize,
    /// The cells that are read.
    pub reads: Vec<usize>,
    /// The cells that are written.
    pub writes: Vec<usize>,
}

impl Model for Piece {
    ghost use Rattle.rk_waves.specs.Pieces.{Piece};

    ghost Value = { Piece };

    ghost view = { λ p. record { owner = p.owner; reads = p.reads.items; writes = p.writes.items } };
}

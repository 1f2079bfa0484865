//! Waves of commands without conflict.
#![tactic(auto)]

mod cell_pieces;
mod cells;
mod greatest;
mod listed;
mod piece;
mod placing;
mod table;
mod world;

pub use cell_pieces::CellPieces;
pub use cells::CellNumbers;
pub use listed::Waves;
pub use piece::Piece;
pub use placing::waves;
pub use table::Table;
pub use world::{ByCells, by_numbers, in_waves, least_waves};

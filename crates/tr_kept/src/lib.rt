//! The tables that are kept, as bytes: one spelling.
#![tactic(auto)]

mod generations;
mod kept;
mod kept_reading;
mod kept_writing;
mod known_pieces;
mod laws;

pub use kept::ReadKept;
pub use kept_reading::{is_latest, read_kept};
pub use kept_writing::write_kept;
pub use laws::{kept_back, one_kept};
pub use tr_parts::{CodecErr, Damage};

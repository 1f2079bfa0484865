//! Utilities whose operands aren't inputs: `basename`, `dirname`, `tee`.
#![tactic(auto)]

mod laws;
mod names;
mod start;
mod target;
mod tee;
mod utility;

pub use laws::plain_utilities_say_what_commands_may;
pub use names::Line;
pub use target::Target;
pub use tee::{Move, Stage, Tee, Teeing};
pub use utility::{Moved, PlainUtility};

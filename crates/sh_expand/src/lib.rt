//! Word expansion (XCU 2.6): a machine that is lent the shell's state at each turn and ends with fields, a value or a
//! fault.
#![tactic(auto)]

mod acts;
mod answers;
mod arithmetic;
mod decimal;
mod expander;
mod glob;
mod machine;
mod mode;
mod names;
mod parameters;
mod parts;
mod pieces;
mod removal;
mod steps;
mod told;

pub use acts::{Acted, Then};
pub use expander::{Expander, Expanding, Phase};
pub use machine::{Frame, Level, Machine, Stage, Wants};
pub use mode::{ExpandFault, Expanded, Mode};
pub use names::{Named, Names};

//! `sed` (XCU, "sed"): its scripts, what they make of lines, and how it gathers them.
#![tactic(auto)]

mod address;
mod addresses;
mod change;
mod command;
mod edit;
mod gatherer;
mod growth;
mod laws;
mod pieces;
mod reader;
mod replacement;
mod scan;
mod sed;
mod select;
mod start;
mod substitute;
mod utility;

pub use address::Address;
pub use change::Change;
pub use command::{Act, Command, Part, Substitution};
pub use edit::{Ends, Space};
pub use gatherer::{Gathered, Gatherer, Source, Waits};
pub use laws::{s_replaces_each_match, sed_says_what_commands_may};
pub use reader::{Addresses, Flags, ReadStep};
pub use scan::{Piece, Scan};
pub use sed::Sed;
pub use select::Selected;
pub use utility::{Move, SedUtility};

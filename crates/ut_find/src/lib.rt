//! `find`.
#![tactic(auto)]

mod find;
mod found;
mod laws;
mod path;
mod start;
mod test;
mod tests;
mod utility;
mod walk;

pub use find::{Find, Visit};
pub use found::Found;
pub use laws::find_says_what_commands_may;
pub use test::{Test, TestList};
pub use utility::{FindUtility, Moved};
pub use walk::Walk;

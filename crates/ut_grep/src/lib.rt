//! `grep`, and how it gathers its patterns.
#![tactic(auto)]

mod automaton;
mod chosen;
mod gatherer;
mod grep;
mod growing;
mod laws;
mod occurs;
mod passing;
mod pattern;
mod seek;
mod selects;
mod sought;
mod start;
mod told;
mod trie;
mod utility;

pub use gatherer::{Gathered, Gatherer, Waits};
pub use grep::{Grep, Manner};
pub use laws::grep_says_what_commands_may;
pub use pattern::Pattern;
pub use utility::{GrepUtility, Move};

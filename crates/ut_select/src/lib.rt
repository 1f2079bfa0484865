//! Utilities that select: `cut`, `tr`.
#![tactic(auto)]

mod chosen;
mod cut;
mod fields;
mod laws;
mod ranges;
mod sets;
mod start;
mod table;
mod tr;
mod utility;
mod work;

pub use cut::Cut;
pub use laws::select_utilities_say_what_commands_may;
pub use ranges::Range;
pub use tr::Tr;
pub use utility::SelectUtility;
pub use work::SelectWork;

//! `sort`.
#![tactic(auto)]

mod chosen;
mod compare;
mod fields;
mod key;
mod laws;
mod line;
mod numbers;
mod order;
mod put;
mod runs;
mod sort;
mod start;
mod utility;

pub use key::Key;
pub use laws::{
    sort_keeps_the_first_of_equal_keys, sort_puts_lines_in_order, sort_says_what_commands_may,
};
pub use sort::Sort;
pub use utility::SortUtility;

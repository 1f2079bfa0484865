//! Rows of attributes: symbolic links, and modes that aren't the default, by path.
#![tactic(auto)]

mod rows;

pub use rows::{AttrRow, Attrs, DIR_MODE, FILE_MODE};

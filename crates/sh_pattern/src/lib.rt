//! Patterns of the shell (XCU 2.13): whether one matches, the least and the greatest prefix or suffix of a text that it
//! matches, and the paths of names that fit it.
#![tactic(auto)]

mod class;
mod front;
mod matching;
mod part;
mod pathnames;
mod paths;
mod set;
mod special;
mod walk;

pub use class::{Class, class_at};
pub use matching::{matches, prefix, suffix};
pub use pathnames::{add_names, put_all, without_last};
pub use paths::PathList;
pub use special::{has_special, unquoted};

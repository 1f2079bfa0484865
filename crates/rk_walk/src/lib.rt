//! Where the text of a path leads in a tree.
#![tactic(auto)]

mod label;
mod marks;
mod place;
mod seen;
mod step;
mod text;
mod walker;

pub use label::Label;
pub use place::{Here, Place};
pub use seen::Seen;
pub use walker::{Way, resolve, resolve_seeing};
